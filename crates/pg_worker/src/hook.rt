//! What is called before each step of a worker.

use pg_seats::pg_ir::{InstrId, ThreadNo};

/// Is called before each step of a worker, and changes none.
pub trait Hook {
    /// The thread, the number of its next instruction, and whether the step is the thread's start.
    fn at_action(&self, thread: ThreadNo, at: InstrId, is_start: bool);
}

/// Does nothing.
#[derive(Drop)]
pub struct NoHook;

impl Hook for NoHook {
    fn at_action(&self, _thread: ThreadNo, _at: InstrId, _is_start: bool) {}
}
