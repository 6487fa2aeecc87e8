//! Crews, and what they have in common.
ghost use Rattle.std.specs.Prelude.{◌≡◌, ℕ, ◌≤◌};
ghost use denote.Param.Send.{IsSync};
ghost use Rattle.pg_io.specs.Faults.{Rose};
ghost use Rattle.pg_free.specs.Crews.{AreWorkers};

use crate::shared::{FreeShared, FreeWorker};
use std::sync::Wait;
use std::thread::Threads;

/// Runs the workers of a round, in one thread or in several. The count of its rounds is a number of 64 bits that never falls, and
/// stands still at its greatest value.
pub trait FreeCrew {
    /// How many rounds it made.
    ghost rounds: { Self → ℕ };

    /// Makes a round: steps the threads of a run by these workers, worker i for thread i.
    fn round<R: Threads + Wait + Sync>(
        &mut self,
        rt: &R,
        shared: &FreeShared<'_>,
        workers: &mut [FreeWorker],
    )
        requires sync { IsSync R.row }
        requires workers { AreWorkers workers.old }
        ensures places { AreWorkers workers.new }
        ensures counts { Rose (rounds self.old) (rounds self.new) }
        ensures never_falls { rounds self.old ≤ rounds self.new };

    /// A crew of the same sort that made no round.
    fn another(&self) -> Self
        ensures rounds { rounds result ≡ 0 };
}

/// Steps a worker until it can't go on, up to so many steps at a hold of the lock.
pub(crate) fn step_on<R: Wait>(rt: &R, shared: &FreeShared<'_>, worker: &mut FreeWorker, most: u32)
    ensures same { worker.new ≡ worker.old }
{
    let mut own = *worker;
    for _ in rt.forever() {
        if !own.try_steps(rt, shared, most) {
            return;
        }
    }
}
