//! The parts of recording a line, as `pg_session_entry` does it: each is a call of the crate that does the work.
ghost use Rattle.std.specs.Prelude.{◌≡◌, ◌<◌, All, true, length, IfOk, OnOk};
ghost use Rattle.pg_num.specs.declared.limits.TheConstants.{RECORDING_STEP_LIMIT};
ghost use Rattle.pg_ir.specs.declared.ids.InstrId.{InstrId as AnInstrId};
ghost use Rattle.pg_run_trace.specs.Races.{schedule_of};
ghost use Rattle.pg_run.specs.Rotation.{rotation_of};
ghost use Rattle.pg_bench.specs.declared.recordings.recording.TheConstants.{QUANTUM as ITS_QUANTUM};

use pg_ir::{InstrId, Program};
use pg_run::rotate_into;
use pg_run_trace::{Schedule, Trace};
use pg_schedule::{hybrid, races};
use std::alloc::{AllocError, Global};

/// The quantum of the runs by rotation.
pub(crate) const QUANTUM: u32 = 10;

/// The run by rotation. The trace then has its steps.
pub(crate) fn rotate(
    alloc: Global,
    p: &Program,
    input: &[i64],
    trace: &mut Trace,
) -> Result<(), AllocError>
    requires room { trace.old.room ≡ RECORDING_STEP_LIMIT }
    ensures room { OnOk result (trace.new.room ≡ RECORDING_STEP_LIMIT) }
    ensures steps { OnOk result (trace.new.steps ≡ (rotation_of p.now input.now ITS_QUANTUM).trace) }
{
    let _ended = rotate_into(alloc, p, input, QUANTUM, trace)?;
    Ok(())
}

/// The schedule of the events and races of a recorded run.
pub(crate) fn scheduled(alloc: Global, t: &Trace) -> Result<Schedule, AllocError>
    ensures { IfOk result (λ s. s ≡ schedule_of t.now.steps) }
{
    let races = races(alloc, t)?;
    hybrid(alloc, t, races.as_slice())
}

/// Whether these loads and stores are instructions of the program.
pub(crate) fn are_instructions(p: &Program, gated: &[InstrId]) -> bool
    ensures { result ≡ true → All (λ (g : AnInstrId). g.0 < length p.now.instrs) gated.now }
{
    for i in 0..gated.len() {
        if gated[i].0 >= p.instr_count() {
            return false;
        }
    }
    true
}
