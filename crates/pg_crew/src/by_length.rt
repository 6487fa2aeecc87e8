//! A crew that runs short runs in one thread, and long ones in several.

ghost use Rattle.std.specs.Prelude.{◌≡◌};
ghost use denote.Param.Send.{IsSync};
ghost use Rattle.pg_crew.specs.Workers.{AreWorkers, HaveGone, counted, turns_between};
ghost use Rattle.pg_worker.specs.Standing.{run_in, table_in};

use crate::crew::Crew;
use crate::hooks::AnyHook;
use crate::{one_by_one, together};
use pg_worker::{Shared, Worker};
use std::marker::Model;
use std::thread::Threads;

/// The least number of steps of a recording from which on its runs get host threads. Where two workers share the steps, host threads
/// were measured to pay from about half as many on.
pub const LONG_RUN: u64 = 20_000;

/// Runs each worker in a host thread of its own where a long run is expected, of `LONG_RUN` steps at least, and one after another in
/// the calling thread where none is.
#[derive(Drop)]
pub struct ByLength {
    hooks: Vec<AnyHook>,
    is_long: bool,
    turns: u64,
}

impl Model for ByLength {
    ghost use Rattle.std.specs.Prelude.{ℕ};

    ghost Value = { ℕ };

    ghost view = { λ c. c.turns };
}

impl ByLength {
    /// A crew that made no round, and expects no long run. Worker i uses hook i, and none past the end of the list.
    pub fn new(hooks: Vec<AnyHook>) -> ByLength
        ensures turns { result ≡ 0 }
    {
        ByLength {
            hooks,
            is_long: false,
            turns: 0,
        }
    }
}

/// A round of a long run, or of a short one. Gives the count behind it.
fn counted_round<R: Threads + Sync>(
    rt: &R,
    hooks: &[AnyHook],
    is_long: bool,
    count: u64,
    shared: &Shared<'_>,
    workers: &mut [Worker],
) -> u64
    requires gated { shared.now.gated ≡ shared.now.schedule.now.gated }
    requires workers { AreWorkers (run_in shared.now) (table_in shared.now) workers.old }
    ensures workers { AreWorkers (run_in shared.now) (table_in shared.now) workers.new }
    ensures gone { HaveGone (run_in shared.now) workers.old workers.new }
    ensures counts { result ≡ counted count (turns_between workers.old workers.new) }
{
    if is_long {
        together::counted_round(rt, hooks, count, shared, workers)
    } else {
        one_by_one::counted_round(hooks, count, shared, workers)
    }
}

impl Crew for ByLength {
    ghost turns = { λ c. c };

    fn round<R: Threads + Sync>(&mut self, rt: &R, shared: &Shared<'_>, workers: &mut [Worker]) {
        self.turns = counted_round(
            rt,
            self.hooks.as_slice(),
            self.is_long,
            self.turns,
            shared,
            workers,
        );
    }

    fn count(&self) -> u64 {
        self.turns
    }

    fn another(&self) -> ByLength {
        ByLength::new(Vec::new(*self.hooks.allocator()))
    }

    fn expect(&mut self, steps: u64) {
        self.is_long = steps >= LONG_RUN;
    }
}
