//! What the workers of a round share, and the workers.
ghost use Rattle.std.specs.Prelude.{◌≡◌, ◌<◌, IfOk};
ghost use Rattle.pg_num.specs.declared.limits.TheConstants.{THREAD_LIMIT};
ghost use Rattle.pg_free.specs.Crews.{AreWorkers};

use crate::state::FreeState;
use pg_ir::ThreadNo;
use pg_num::limits::THREAD_LIMIT;
use std::alloc::{AllocError, Global};
use std::marker::Model;
use std::sync::{Mutex, Wait};

/// What the workers of a round share: a machine and its steps under a lock. It is made by `free_record` alone.
#[derive(Drop)]
pub struct FreeShared<'a> {
    alloc: Global,
    lock: Mutex<FreeState<'a>>,
}

/// Takes the steps of one thread. It is made by `free_record` alone.
#[derive(Clone, Copy, Debug, PartialEq, Eq)]
pub struct FreeWorker {
    thread: ThreadNo,
}

impl Model for FreeWorker {
    ghost use Rattle.pg_ir.specs.declared.ids.ThreadNo.{ThreadNo};

    ghost Value = { ThreadNo };

    ghost view = { λ w. w.thread };

    ghost inverse = { λ t. record { thread = t } };
}

impl<'a> FreeShared<'a> {
    pub(crate) fn new(alloc: Global, state: FreeState<'a>) -> FreeShared<'a> {
        FreeShared {
            alloc,
            lock: Mutex::new(state),
        }
    }

    pub(crate) fn into_state(self) -> FreeState<'a> {
        let FreeShared { lock, .. } = self;
        lock.into_inner()
    }

    /// How many threads are made.
    pub(crate) fn count<R: Wait>(&self, rt: &R) -> usize {
        self.lock.lock(rt).count()
    }
}

impl FreeWorker {
    /// Takes the lock, and takes one step of its thread by `FreeState::attempt`. Whether it took one.
    pub fn try_step<R: Wait>(&mut self, rt: &R, shared: &FreeShared<'_>) -> bool
        ensures same { self.new ≡ self.old }
    {
        shared.lock.lock(rt).attempt(shared.alloc, self.thread)
    }

    /// Takes the lock, and takes up to so many steps of its thread, each by `FreeState::attempt`. Whether it took all of them.
    pub fn try_steps<R: Wait>(&mut self, rt: &R, shared: &FreeShared<'_>, most: u32) -> bool
        ensures same { self.new ≡ self.old }
    {
        shared
            .lock
            .lock(rt)
            .attempts(shared.alloc, self.thread, most)
    }
}

/// A worker for each thread that a run may have.
pub(crate) fn workers(alloc: Global) -> Result<Vec<FreeWorker>, AllocError>
    ensures { IfOk result (λ v. AreWorkers v.items) }
{
    let mut workers = Vec::with_capacity(alloc, THREAD_LIMIT as usize)?;
    for t in 0..THREAD_LIMIT {
        workers.push(FreeWorker {
            thread: ThreadNo(t as u8),
        })?;
    }
    Ok(workers)
}
