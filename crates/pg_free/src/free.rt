//! A crew of host threads.
ghost use Rattle.std.specs.Prelude.{◌≡◌};
ghost use denote.Param.Send.{IsSync};

use crate::crew::{FreeCrew, step_on};
use crate::shared::{FreeShared, FreeWorker};
use std::marker::Model;
use std::sync::Wait;
use std::thread;
use std::thread::Threads;

/// The most steps that a worker takes at a hold of the lock. Between 1 and 64 no difference in speed was seen.
const STEPS_A_HOLD: u32 = 16;

/// Runs the workers of the threads that are made in host threads of their own, each until it can't go on.
// A worker of a thread that isn't made could do nothing.
#[derive(Drop)]
pub struct Free {
    rounds: u64,
}

impl Model for Free {
    ghost use Rattle.std.specs.Prelude.{ℕ};

    ghost Value = { ℕ };

    ghost view = { λ s. s.rounds };
}

impl Free {
    /// A crew that made no round.
    pub fn new() -> Free
        ensures rounds { result ≡ 0 }
    {
        Free { rounds: 0 }
    }

    /// How many rounds it made.
    pub fn rounds(&self) -> u64
        ensures { result ≡ self.now }
    {
        self.rounds
    }
}

/// Runs each of these workers in a host thread of its own until it can't go on.
fn in_threads<R: Threads + Wait + Sync>(rt: &R, shared: &FreeShared<'_>, workers: &mut [FreeWorker])
    ensures same { workers.new ≡ workers.old }
{
    let count = workers.len();
    if count > 0 {
        thread::for_each_mut(
            rt,
            workers,
            count,
            &|_i: usize, w: &mut FreeWorker|
                requires { IsSync R.row }
                ensures { w.new ≡ w.old }
            {
                step_on(rt, shared, w, STEPS_A_HOLD);
            },
        );
    }
}

impl FreeCrew for Free {
    ghost rounds = { λ s. s };

    fn round<R: Threads + Wait + Sync>(
        &mut self,
        rt: &R,
        shared: &FreeShared<'_>,
        workers: &mut [FreeWorker],
    ) {
        self.rounds = self.rounds.saturating_add(1);
        let made = shared.count(rt).min(workers.len());
        in_threads(rt, shared, &mut workers[..made]);
    }

    fn another(&self) -> Free {
        Free::new()
    }
}
