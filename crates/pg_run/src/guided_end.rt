//! How a guided run ends.

use pg_run_trace::pg_ir::{InstrId, ThreadNo, TrapName};

/// How a guided run ends.
#[derive(Clone, Copy, Debug, PartialEq, Eq)]
pub enum GuidedEnd {
    /// All turns were done and the run is over, with main's value.
    Exit(i32),
    /// The next step of the owner of the next turn traps, at this instruction.
    Trap(TrapName, InstrId),
    /// This thread, the owner of the next turn, has taken all the steps that a thread may take.
    Budget(ThreadNo),
    /// The next turn can't be done: the run is over, or its owner isn't made, has ended, or stands at
    /// another event or at one that isn't ready; or all turns were done and the run isn't over.
    Strayed,
}
