//! A crew that runs its workers at once.

ghost use Rattle.std.specs.Prelude.{◌≡◌, ◌<◌, ◌≤◌, ℕ, length, slice_index_or};
ghost use denote.Param.Send.{IsSync};
ghost use Rattle.pg_crew.specs.Workers.{AreWorkers, HasGone, HaveGone, counted, turns_between};
ghost use Rattle.pg_worker.specs.Standing.{IsAt, run_in, table_in};

use crate::counts::Done;
use crate::crew::Crew;
use crate::hooks::{AnyHook, go_on};
use pg_worker::{Shared, Worker};
use std::marker::Model;
use std::sync::atomic::Ordering;
use std::thread;
use std::thread::Threads;

/// Runs each worker in a host thread of its own, all of them at once.
#[derive(Drop)]
pub struct Together {
    hooks: Vec<AnyHook>,
    turns: u64,
}

impl Model for Together {
    ghost use Rattle.std.specs.Prelude.{ℕ};

    ghost Value = { ℕ };

    ghost view = { λ c. c.turns };
}

impl Together {
    /// A crew that made no round. Worker i uses hook i, and none past the end of the list.
    pub fn new(hooks: Vec<AnyHook>) -> Together
        ensures turns { result ≡ 0 }
    {
        Together { hooks, turns: 0 }
    }
}

/// A segment of each worker, each in a host thread of its own.
fn in_threads<R: Threads + Sync>(
    rt: &R,
    hooks: &[AnyHook],
    shared: &Shared<'_>,
    workers: &mut [Worker],
)
    requires gated { shared.now.gated ≡ shared.now.schedule.now.gated }
    requires workers { AreWorkers (run_in shared.now) (table_in shared.now) workers.old }
    ensures workers { AreWorkers (run_in shared.now) (table_in shared.now) workers.new }
    ensures gone { HaveGone (run_in shared.now) workers.old workers.new }
{
    let threads = workers.len().max(1);
    shared.under_way.store(threads as u64, Ordering::SeqCst);
    thread::for_each_mut(
        rt,
        workers,
        threads,
        &|i: usize, worker: &mut Worker|
            requires { (shared.now.gated ≡ shared.now.schedule.now.gated) × IsAt (run_in shared.now) (table_in shared.now) 0 worker.old }
            ensures { IsAt (run_in shared.entry.now) (table_in shared.entry.now) 0 worker.new × HasGone (run_in shared.entry.now) worker.old worker.new }
        {
            go_on(hooks, i, shared, worker);
            shared.under_way.fetch_sub(1, Ordering::SeqCst);
        },
    );
}

/// A round. Gives the count behind it.
pub(crate) fn counted_round<R: Threads + Sync>(
    rt: &R,
    hooks: &[AnyHook],
    count: u64,
    shared: &Shared<'_>,
    workers: &mut [Worker],
) -> u64
    requires gated { shared.now.gated ≡ shared.now.schedule.now.gated }
    requires workers { AreWorkers (run_in shared.now) (table_in shared.now) workers.old }
    ensures workers { AreWorkers (run_in shared.now) (table_in shared.now) workers.new }
    ensures gone { HaveGone (run_in shared.now) workers.old workers.new }
    ensures counts { result ≡ counted count (turns_between workers.old workers.new) }
{
    let before = Done::of(workers);
    in_threads(rt, hooks, shared, workers);
    before.counted(count, workers)
}

impl Crew for Together {
    ghost turns = { λ c. c };

    fn round<R: Threads + Sync>(&mut self, rt: &R, shared: &Shared<'_>, workers: &mut [Worker]) {
        self.turns = counted_round(rt, self.hooks.as_slice(), self.turns, shared, workers);
    }

    fn count(&self) -> u64 {
        self.turns
    }

    fn another(&self) -> Together {
        Together::new(Vec::new(*self.hooks.allocator()))
    }

    fn expect(&mut self, _steps: u64) {}
}
