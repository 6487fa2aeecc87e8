//! Calls of threads.

use pg_ir::ThreadNo;

/// A call of a thread, by how many calls the thread has with it on top.
#[derive(Clone, Copy)]
pub struct Call {
    pub thread: ThreadNo,
    pub depth: u32,
}
