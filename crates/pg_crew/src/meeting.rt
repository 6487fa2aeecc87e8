//! What the workers of a round share that park: when they begin, whom they wake, and when they leave.

use crate::parkers::{AnyParkers, Park};
use crossbeam_utils::CachePadded;
use pg_worker::pg_num::limits::THREAD_LIMIT;
use pg_worker::{Paused, Shared, Worker};
use std::sync::atomic::{AtomicU64, Ordering};
use std::{hint, thread};

/// So often a worker looks at most whether all workers of its round have begun.
const LOOKS: u32 = 100_000;

/// So many of these looks come one right after another; from then on other threads get the processor in between.
const SPINS: u32 = 100;

/// Where the workers park, how many of them have begun their round, and whether they are to leave it.
// No proof rests on these: a worker that is woken makes a segment more, whoever woke it.
#[derive(Drop)]
pub(crate) struct Meeting {
    /// None where nobody parks: then the workers leave a round behind one segment each.
    parkers: Option<AnyParkers>,
    begun: CachePadded<AtomicU64>,
    /// 1 where they are to leave, else 0.
    stop: CachePadded<AtomicU64>,
}

impl Meeting {
    /// Of workers that park there, if anywhere.
    pub(crate) fn new(parkers: Option<AnyParkers>) -> Meeting {
        Meeting {
            parkers,
            begun: CachePadded::new(AtomicU64::new(0)),
            stop: CachePadded::new(AtomicU64::new(0)),
        }
    }

    /// Begins a round.
    pub(crate) fn begin(&self) {
        self.begun.store(0, Ordering::SeqCst);
        self.stop
            .store(u64::from(self.parkers.is_none()), Ordering::SeqCst);
    }

    /// Whether the workers are to leave the round.
    fn is_over(&self) -> bool {
        self.stop.load(Ordering::SeqCst) == 1
    }

    /// Tells all workers to leave the round, and wakes those that are parked.
    fn end(&self) {
        self.stop.store(1, Ordering::SeqCst);
        if let Some(parkers) = &self.parkers {
            for worker in 0..THREAD_LIMIT as usize {
                parkers.wake(worker);
            }
        }
    }

    /// Counts a worker in, and looks until all workers of the round are counted in, or are to leave. Where that doesn't come, as where
    /// the host makes no thread for one of them, all are told to leave.
    pub(crate) fn join(&self, workers: usize) {
        self.begun.fetch_add(1, Ordering::SeqCst);
        for looks in 0..LOOKS {
            if self.begun.load(Ordering::SeqCst) >= workers as u64 || self.is_over() {
                return;
            }
            if looks < SPINS {
                hint::spin_loop();
            } else {
                thread::yield_now();
            }
        }
        self.end();
    }

    /// Wakes the worker of the next turn. Where no turn is left, all are told to leave.
    pub(crate) fn hand_on(&self, shared: &Shared<'_>) {
        let number = shared.words.peek() as usize;
        let Some(turn) = shared.schedule.turns.as_slice().get(number) else {
            return self.end();
        };
        if let Some(parkers) = &self.parkers {
            parkers.wake(turn.thread.0 as usize);
        }
    }

    /// Whether a worker owns the next turn. It is stopped, so none of the turns that are left can be done, and all are told to leave.
    fn is_held(&self, shared: &Shared<'_>, worker: &Worker) -> bool {
        if worker.next() != Some(shared.words.peek()) {
            return false;
        }
        self.end();
        true
    }

    /// Whether a worker that pauses so leaves the round.
    pub(crate) fn leaves(&self, shared: &Shared<'_>, worker: &Worker, paused: Paused) -> bool {
        match paused {
            Paused::Done => true,
            Paused::Waiting => self.is_over(),
            Paused::Stopped => self.is_over() || self.is_held(shared, worker),
        }
    }

    /// Parks a worker until it is woken. Meanwhile it isn't under way.
    pub(crate) fn park(&self, shared: &Shared<'_>, worker: usize) {
        if let Some(parkers) = &self.parkers {
            shared.under_way.fetch_sub(1, Ordering::SeqCst);
            parkers.park(worker);
            shared.under_way.fetch_add(1, Ordering::SeqCst);
        }
    }
}
