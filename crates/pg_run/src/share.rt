//! A thread's share of the steps of a rotation run.

use pg_run_trace::pg_ir::ThreadNo;

/// Whose steps are taken in a rotation run, and how many more it has before the next thread's.
#[derive(Clone, Copy, Debug, PartialEq, Eq)]
pub struct Share {
    pub thread: ThreadNo,
    pub left: u32,
}
