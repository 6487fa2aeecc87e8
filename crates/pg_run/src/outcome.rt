//! How a run ends.

use pg_run_trace::pg_ir::{InstrId, TrapName};

/// Why a run gives nothing to be used again.
#[derive(Clone, Copy, Debug, PartialEq, Eq)]
pub enum Refusal {
    /// It ended by this trap, at this instruction.
    Trap(TrapName, InstrId),
    /// It took all the steps that a recording may take.
    Budget,
}

/// How a run ends.
#[derive(Clone, Copy, Debug, PartialEq, Eq)]
pub enum Outcome {
    /// The run is over, with main's value.
    Exit(i32),
    /// By a trap, or by its last step.
    Refused(Refusal),
}
