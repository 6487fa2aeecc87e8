//! How far threads have come.

use pg_ir::ThreadNo;

/// How far a thread has come.
#[derive(Clone, Copy, Debug, PartialEq, Eq)]
pub enum Stage {
    /// It was made and hasn't begun.
    Made,
    /// It has begun, and waits for nothing that it has asked before.
    Running,
    /// It has given a mutex back for a wait on a condition, and was signalled or not.
    Waiting {
        signalled: bool,
    },
    /// It has arrived at a barrier, and was released or not; `last` where it was the last to arrive.
    Arrived {
        barrier: u32,
        released: bool,
        last: bool,
    },
    /// It has ended.
    Ended,
}

/// A thread's stage, and whether another thread has joined it.
#[derive(Clone, Copy, Debug, PartialEq, Eq)]
pub struct Status {
    pub stage: Stage,
    pub joined: bool,
}

/// A thread that waits on a condition and wasn't signalled.
#[derive(Clone, Copy, Debug, PartialEq, Eq)]
pub struct Waiter {
    pub condition: u32,
    pub thread: ThreadNo,
}
