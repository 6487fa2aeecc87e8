//! Where threads park, and how they are woken.

use pg_worker::pg_num::limits::THREAD_LIMIT;
use std::alloc::{AllocError, Global};
use std::sync::{Condvar, Mutex, Wait};

/// Where the threads of workers park, the thread of each worker at a place of its own.
pub trait Park {
    /// Waits until the worker's token is set, and clears it.
    fn park(&self, worker: usize);

    /// Sets the worker's token, and wakes its thread if that is parked.
    fn wake(&self, worker: usize);
}

/// Where one thread parks: its token, under a lock, and what it sleeps on.
#[derive(Drop)]
struct Parker {
    token: Mutex<bool>,
    is_set: Condvar,
}

impl Parker {
    /// One whose token isn't set.
    fn new() -> Parker {
        Parker {
            token: Mutex::new(false),
            is_set: Condvar::new(),
        }
    }
}

/// A place for each worker that a run may have. Who parks there waits by this runtime.
#[derive(Drop)]
pub struct Parkers<R: Wait + Drop> {
    rt: R,
    parkers: Vec<Parker>,
}

impl<R: Wait + Drop> Parkers<R> {
    /// With no token set.
    ///
    /// # Errors
    ///
    /// Where no memory is left.
    pub fn new(alloc: Global, rt: R) -> Result<Parkers<R>, AllocError> {
        let mut parkers = Vec::with_capacity(alloc, THREAD_LIMIT as usize)?;
        for _ in 0..THREAD_LIMIT {
            parkers.push(Parker::new())?;
        }
        Ok(Parkers { rt, parkers })
    }
}

impl<R: Wait + Drop> Park for Parkers<R> {
    fn park(&self, worker: usize) {
        let Some(parker) = self.parkers.as_slice().get(worker) else {
            return;
        };
        let locked = parker.token.lock(&self.rt);
        let mut token = parker.is_set.wait_while(&self.rt, locked, |token| !*token);
        *token = false;
    }

    fn wake(&self, worker: usize) {
        let Some(parker) = self.parkers.as_slice().get(worker) else {
            return;
        };
        let mut token = parker.token.lock(&self.rt);
        *token = true;
        parker.is_set.notify_all();
    }
}

/// Places that were handed in.
#[derive(Drop)]
pub struct AnyParkers {
    inner: Box<dyn Park + Sync + Drop>,
}

impl AnyParkers {
    /// These places.
    pub fn new(inner: Box<dyn Park + Sync + Drop>) -> AnyParkers {
        AnyParkers { inner }
    }
}

impl Park for AnyParkers {
    fn park(&self, worker: usize) {
        self.inner.park(worker);
    }

    fn wake(&self, worker: usize) {
        self.inner.wake(worker);
    }
}
