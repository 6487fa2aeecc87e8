//! Crews, and what they have in common.

ghost use Rattle.std.specs.Prelude.{◌≡◌, ℕ};
ghost use denote.Param.Send.{IsSync};
ghost use Rattle.pg_crew.specs.Workers.{AreWorkers, HaveGone, counted, turns_between};
ghost use Rattle.pg_worker.specs.Standing.{run_in, table_in};

use pg_worker::{Shared, Worker};
use std::thread::Threads;

/// Runs the workers of a run in rounds. It counts the turns that are done in its rounds; the count is a number of 64 bits, and stands
/// still at its greatest value.
pub trait Crew {
    /// How many turns it counted.
    ghost turns: { Self → ℕ };

    /// Makes a round: each worker goes on until its next turn isn't due, or until it has no turn or no step left.
    fn round<R: Threads + Sync>(&mut self, rt: &R, shared: &Shared<'_>, workers: &mut [Worker])
        requires sync { IsSync R.row }
        requires gated { shared.now.gated ≡ shared.now.schedule.now.gated }
        requires workers { AreWorkers (run_in shared.now) (table_in shared.now) workers.old }
        ensures workers { AreWorkers (run_in shared.now) (table_in shared.now) workers.new }
        ensures gone { HaveGone (run_in shared.now) workers.old workers.new }
        ensures counts { turns self.new ≡ counted (turns self.old) (turns_between workers.old workers.new) };

    /// The count.
    fn count(&self) -> u64
        ensures { result ≡ turns self.now };

    /// A crew of the same sort, without hooks, that made no round.
    fn another(&self) -> Self
        ensures turns { turns result ≡ 0 };

    /// Tells the crew that its next rounds are of a run along the schedule of an entry whose recording had so many steps. A crew may
    /// run a short one in one thread.
    fn expect(&mut self, steps: u64)
        ensures turns { turns self.new ≡ turns self.old };
}
