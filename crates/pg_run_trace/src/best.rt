//! The greatest rank of another thread.

ghost use Rattle.std.specs.Prelude.{◌≡◌, ◌==◌, ◌&&◌, ◌||◌, not, ℕ, max, nat_lt, if◌then◌else◌};
ghost use Rattle.pg_run_trace.specs.Best.{IsBest, no_best, other};

use pg_ir::ThreadNo;

/// The greatest of some ranks with its thread, and the greatest of those of the other threads; 0 where
/// there is none.
#[derive(Clone, Copy)]
pub struct Best {
    pub first: u64,
    pub thread: ThreadNo,
    pub second: u64,
}

impl Best {
    /// No rank.
    pub fn none() -> Best
        ensures value { result ≡ no_best }
    {
        Best {
            first: 0,
            thread: ThreadNo(0),
            second: 0,
        }
    }

    /// The greatest rank of a thread other than this one.
    pub fn other(self, thread: ThreadNo) -> u64
        ensures { result ≡ other self thread.0 }
    {
        if self.thread.0 == thread.0 {
            self.second
        } else {
            self.first
        }
    }

    /// The same with one rank more.
    pub fn with(self, thread: ThreadNo, rank: u64) -> Best
        requires { IsBest self }
        ensures best { IsBest result }
        ensures other { (u : ℕ) → other result u ≡ max (other self u) (if not (thread.0 == u) then rank else 0) }
        ensures above { (u need : ℕ) → nat_lt need (other result u) ≡ (nat_lt need (other self u) || (not (thread.0 == u) && nat_lt need rank)) }
    {
        if self.thread.0 == thread.0 {
            Best {
                first: if self.first < rank { rank } else { self.first },
                thread,
                second: self.second,
            }
        } else if self.first < rank {
            Best {
                first: rank,
                thread,
                second: self.first,
            }
        } else {
            Best {
                first: self.first,
                thread: self.thread,
                second: if self.second < rank {
                    rank
                } else {
                    self.second
                },
            }
        }
    }
}
