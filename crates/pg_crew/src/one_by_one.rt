//! A crew that runs its workers one after another.

ghost use Rattle.std.specs.Prelude.{◌≡◌};
ghost use denote.Param.Send.{IsSync};
ghost use Rattle.pg_crew.specs.Workers.{AreWorkers, HaveGone, counted, turns_between};
ghost use Rattle.pg_worker.specs.Standing.{run_in, table_in};

use crate::counts::Done;
use crate::crew::Crew;
use crate::hooks::{AnyHook, go_on};
use pg_worker::{Shared, Worker};
use std::marker::Model;
use std::thread::Threads;

/// Runs the workers one after another, in the calling thread.
#[derive(Drop)]
pub struct OneByOne {
    hooks: Vec<AnyHook>,
    turns: u64,
}

impl Model for OneByOne {
    ghost use Rattle.std.specs.Prelude.{ℕ};

    ghost Value = { ℕ };

    ghost view = { λ c. c.turns };
}

impl OneByOne {
    /// A crew that made no round. Worker i uses hook i, and none past the end of the list.
    pub fn new(hooks: Vec<AnyHook>) -> OneByOne
        ensures turns { result ≡ 0 }
    {
        OneByOne { hooks, turns: 0 }
    }
}

/// A segment of each worker, one after another.
fn in_turn(hooks: &[AnyHook], shared: &Shared<'_>, workers: &mut [Worker])
    requires gated { shared.now.gated ≡ shared.now.schedule.now.gated }
    requires workers { AreWorkers (run_in shared.now) (table_in shared.now) workers.old }
    ensures workers { AreWorkers (run_in shared.now) (table_in shared.now) workers.new }
    ensures gone { HaveGone (run_in shared.now) workers.old workers.new }
{
    for i in 0..workers.len() {
        go_on(hooks, i, shared, &mut workers[i]);
    }
}

/// A round. Gives the count behind it.
pub(crate) fn counted_round(
    hooks: &[AnyHook],
    count: u64,
    shared: &Shared<'_>,
    workers: &mut [Worker],
) -> u64
    requires gated { shared.now.gated ≡ shared.now.schedule.now.gated }
    requires workers { AreWorkers (run_in shared.now) (table_in shared.now) workers.old }
    ensures workers { AreWorkers (run_in shared.now) (table_in shared.now) workers.new }
    ensures gone { HaveGone (run_in shared.now) workers.old workers.new }
    ensures counts { result ≡ counted count (turns_between workers.old workers.new) }
{
    let before = Done::of(workers);
    in_turn(hooks, shared, workers);
    before.counted(count, workers)
}

impl Crew for OneByOne {
    ghost turns = { λ c. c };

    fn round<R: Threads + Sync>(&mut self, _rt: &R, shared: &Shared<'_>, workers: &mut [Worker]) {
        self.turns = counted_round(self.hooks.as_slice(), self.turns, shared, workers);
    }

    fn count(&self) -> u64 {
        self.turns
    }

    fn another(&self) -> OneByOne {
        OneByOne::new(Vec::new(*self.hooks.allocator()))
    }

    fn expect(&mut self, _steps: u64) {}
}
