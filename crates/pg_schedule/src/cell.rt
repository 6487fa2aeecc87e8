//! The ranks of a byte's accesses.

ghost use Rattle.std.specs.Prelude.{◌≡◌, ◌==◌, ◌&&◌, not, ℕ, max};
ghost use Rattle.pg_run_trace.specs.Best.{IsBest, other};
ghost use Rattle.pg_schedule.specs.Cells.{met_by, no_cell};
ghost use Rattle.pg_schedule.specs.Touches.{rank_if};

use crate::touch::Touch;
use pg_run_trace::Best;

/// The ranks of the accesses of a byte, and of those that write it.
#[derive(Clone, Copy)]
pub(crate) struct Cell {
    pub all: Best,
    pub writes: Best,
}

impl Cell {
    /// No access.
    pub fn none() -> Cell
        ensures value { result ≡ no_cell }
    {
        Cell {
            all: Best::none(),
            writes: Best::none(),
        }
    }

    /// The same with one access more.
    pub fn with(self, touch: &Touch) -> Cell
        requires all { IsBest self.all }
        requires writes { IsBest self.writes }
        ensures all_best { IsBest result.all }
        ensures writes_best { IsBest result.writes }
        ensures all { (u : ℕ) → other result.all u ≡ max (other self.all u) (rank_if (not (touch.now.thread.0 == u)) touch.now.rank) }
        ensures writes { (u : ℕ) → other result.writes u ≡ max (other self.writes u) (rank_if (touch.now.writes && not (touch.now.thread.0 == u)) touch.now.rank) }
    {
        Cell {
            all: self.all.with(touch.thread, touch.rank),
            writes: if touch.writes {
                self.writes.with(touch.thread, touch.rank)
            } else {
                self.writes
            },
        }
    }

    /// The ranks that an access meets: a write all, a read those of writes.
    pub fn met_by(self, writes: bool) -> Best
        ensures { result ≡ met_by writes self }
    {
        if writes { self.all } else { self.writes }
    }
}
