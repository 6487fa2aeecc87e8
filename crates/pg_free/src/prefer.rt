//! A crew that prefers one thread.
ghost use Rattle.std.specs.Prelude.{◌≡◌, ◌<◌};
ghost use Rattle.pg_num.specs.declared.limits.TheConstants.{THREAD_LIMIT};

use crate::crew::{FreeCrew, step_on};
use crate::shared::{FreeShared, FreeWorker};
use pg_ir::ThreadNo;
use std::marker::Model;
use std::sync::Wait;
use std::thread::Threads;

/// Steps the worker of one thread until it can't go on, and then each other once, in number order.
#[derive(Drop)]
pub struct Prefer {
    thread: ThreadNo,
    rounds: u64,
}

impl Model for Prefer {
    ghost use Rattle.std.specs.Prelude.{ℕ};

    ghost Value = { ℕ };

    ghost view = { λ s. s.rounds };
}

impl Prefer {
    /// A crew that prefers this thread, and made no round.
    pub fn new(thread: ThreadNo) -> Prefer
        requires { thread.0 < THREAD_LIMIT }
        ensures rounds { result ≡ 0 }
    {
        Prefer { thread, rounds: 0 }
    }

    /// How many rounds it made.
    pub fn rounds(&self) -> u64
        ensures { result ≡ self.now }
    {
        self.rounds
    }
}

fn one_by_one<R: Wait>(rt: &R, shared: &FreeShared<'_>, first: usize, workers: &[FreeWorker]) {
    if first < workers.len() {
        let mut own = workers[first];
        step_on(rt, shared, &mut own, 1);
    }
    for i in 0..workers.len() {
        if i != first {
            let mut own = workers[i];
            own.try_step(rt, shared);
        }
    }
}

impl FreeCrew for Prefer {
    ghost rounds = { λ s. s };

    fn round<R: Threads + Wait + Sync>(
        &mut self,
        rt: &R,
        shared: &FreeShared<'_>,
        workers: &mut [FreeWorker],
    ) {
        self.rounds = self.rounds.saturating_add(1);
        one_by_one(rt, shared, self.thread.0 as usize, workers);
    }

    fn another(&self) -> Prefer {
        Prefer {
            thread: self.thread,
            rounds: 0,
        }
    }
}
