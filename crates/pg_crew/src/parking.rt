//! A crew whose workers park while their turns aren't due.

ghost use Rattle.std.specs.Prelude.{◌≡◌};
ghost use denote.Param.Send.{IsSync};
ghost use Rattle.pg_crew.specs.Workers.{AreWorkers, HasGone, HaveGone, counted, turns_between};
ghost use Rattle.pg_worker.specs.Standing.{IsAt, run_in, table_in};

use crate::counts::Done;
use crate::crew::Crew;
use crate::hooks::{AnyHook, go_on};
use crate::meeting::Meeting;
use crate::parkers::AnyParkers;
use pg_worker::{Paused, Shared, Worker};
use std::marker::Model;
use std::sync::atomic::Ordering;
use std::thread;
use std::thread::Threads;

/// Runs each worker in a host thread of its own, all of them at once. A worker whose turn isn't due parks: its thread sleeps until a
/// worker that did a turn wakes it, and goes on in the same round. How it sleeps is settled by the places that are handed in; as they
/// wait, so does a round, and its promises hold once it returns.
///
/// Where the host makes no thread for a worker, nobody parks, and each worker makes one segment in the round. Another crew of the same
/// sort has no places, and does so in each round.
#[derive(Drop)]
pub struct Parking {
    hooks: Vec<AnyHook>,
    meeting: Meeting,
    turns: u64,
}

impl Model for Parking {
    ghost use Rattle.std.specs.Prelude.{ℕ};

    ghost Value = { ℕ };

    ghost view = { λ c. c.turns };
}

impl Parking {
    /// A crew that made no round. Worker i uses hook i, and none past the end of the list, and parks at its place of these.
    pub fn new(hooks: Vec<AnyHook>, parkers: AnyParkers) -> Parking
        ensures turns { result ≡ 0 }
    {
        Parking::begin(hooks, Some(parkers))
    }

    /// The same, where there may be no places.
    fn begin(hooks: Vec<AnyHook>, parkers: Option<AnyParkers>) -> Parking
        ensures turns { result ≡ 0 }
    {
        Parking {
            hooks,
            meeting: Meeting::new(parkers),
            turns: 0,
        }
    }
}

/// A segment of a worker. Where it did a turn, the worker of the next one is woken. Gives why the worker pauses.
fn segment(
    meeting: &Meeting,
    hooks: &[AnyHook],
    index: usize,
    shared: &Shared<'_>,
    worker: &mut Worker,
) -> Paused
    requires at { IsAt (run_in shared.now) (table_in shared.now) 0 worker.old }
    requires gated { shared.now.gated ≡ shared.now.schedule.now.gated }
    ensures at { IsAt (run_in shared.now) (table_in shared.now) 0 worker.new }
    ensures gone { HasGone (run_in shared.now) worker.old worker.new }
{
    let before = worker.turns_done();
    let paused = go_on(hooks, index, shared, worker);
    if worker.turns_done() > before {
        meeting.hand_on(shared);
    }
    paused
}

/// The segments of a worker in a round. Between them it is parked.
#[tactic(auto, using(crate::proofs::WorkerLists::gone_more))]
fn segments(
    meeting: &Meeting,
    hooks: &[AnyHook],
    index: usize,
    shared: &Shared<'_>,
    worker: &mut Worker,
)
    requires at { IsAt (run_in shared.now) (table_in shared.now) 0 worker.old }
    requires gated { shared.now.gated ≡ shared.now.schedule.now.gated }
    ensures at { IsAt (run_in shared.now) (table_in shared.now) 0 worker.new }
    ensures gone { HasGone (run_in shared.now) worker.old worker.new }
{
    let mut paused = segment(meeting, hooks, index, shared, worker);
    // No round has so many wakes: the number is there since each loop has an end.
    for _ in 0..u64::MAX {
        if meeting.leaves(shared, worker, paused) {
            return;
        }
        meeting.park(shared, index);
        paused = segment(meeting, hooks, index, shared, worker);
    }
}

/// The segments of each worker, each in a host thread of its own.
fn in_threads<R: Threads + Sync>(
    rt: &R,
    meeting: &Meeting,
    hooks: &[AnyHook],
    shared: &Shared<'_>,
    workers: &mut [Worker],
)
    requires gated { shared.now.gated ≡ shared.now.schedule.now.gated }
    requires workers { AreWorkers (run_in shared.now) (table_in shared.now) workers.old }
    ensures workers { AreWorkers (run_in shared.now) (table_in shared.now) workers.new }
    ensures gone { HaveGone (run_in shared.now) workers.old workers.new }
{
    let threads = workers.len().max(1);
    shared.under_way.store(threads as u64, Ordering::SeqCst);
    meeting.begin();
    thread::for_each_mut(
        rt,
        workers,
        threads,
        &|i: usize, worker: &mut Worker|
            requires { (shared.now.gated ≡ shared.now.schedule.now.gated) × IsAt (run_in shared.now) (table_in shared.now) 0 worker.old }
            ensures { IsAt (run_in shared.entry.now) (table_in shared.entry.now) 0 worker.new × HasGone (run_in shared.entry.now) worker.old worker.new }
        {
            meeting.join(threads);
            segments(meeting, hooks, i, shared, worker);
            shared.under_way.fetch_sub(1, Ordering::SeqCst);
        },
    );
}

/// A round. Gives the count behind it.
fn counted_round<R: Threads + Sync>(
    rt: &R,
    meeting: &Meeting,
    hooks: &[AnyHook],
    count: u64,
    shared: &Shared<'_>,
    workers: &mut [Worker],
) -> u64
    requires gated { shared.now.gated ≡ shared.now.schedule.now.gated }
    requires workers { AreWorkers (run_in shared.now) (table_in shared.now) workers.old }
    ensures workers { AreWorkers (run_in shared.now) (table_in shared.now) workers.new }
    ensures gone { HaveGone (run_in shared.now) workers.old workers.new }
    ensures counts { result ≡ counted count (turns_between workers.old workers.new) }
{
    let before = Done::of(workers);
    in_threads(rt, meeting, hooks, shared, workers);
    before.counted(count, workers)
}

impl Crew for Parking {
    ghost turns = { λ c. c };

    fn round<R: Threads + Sync>(&mut self, rt: &R, shared: &Shared<'_>, workers: &mut [Worker]) {
        self.turns = counted_round(
            rt,
            &self.meeting,
            self.hooks.as_slice(),
            self.turns,
            shared,
            workers,
        );
    }

    fn count(&self) -> u64 {
        self.turns
    }

    fn another(&self) -> Parking {
        Parking::begin(Vec::new(*self.hooks.allocator()), None)
    }

    fn expect(&mut self, _steps: u64) {}
}
