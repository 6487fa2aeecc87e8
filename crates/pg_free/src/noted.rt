//! What was noted of a recording beside its steps.

use pg_ir::{InstrId, ThreadNo, TrapName};

/// Why no further step is taken.
#[derive(Clone, Copy, Debug, PartialEq, Eq)]
pub enum Noted {
    /// The next step of this thread, which is ready, traps so.
    Trap(ThreadNo, TrapName, InstrId),
    /// There was no memory for a step.
    NoMemory,
}
