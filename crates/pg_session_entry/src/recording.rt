//! Recording: the rotation run of a program on an input, and its entry.
ghost use Rattle.std.specs.Prelude.{◌≡◌, ◌≤◌, ℕ, ℤ, List, IfOk, OnOk};
ghost use Rattle.pg_num.specs.declared.limits.TheConstants.{QUANTUM_LIMIT, RECORDING_STEP_LIMIT};
ghost use Rattle.pg_run_trace.specs.declared.step.Step.{Step};
ghost use Rattle.pg_run.specs.Follow.{Exits, following_of};
ghost use Rattle.pg_run.specs.Recordings.{IsRecording};
ghost use Rattle.pg_run.specs.Rotation.{rotation_of};
ghost use Rattle.pg_run.specs.State.{State};
ghost use Rattle.pg_law_order.specs.pg_law_runs.Cuts.{CanRun};
ghost use Rattle.pg_law_order.specs.pg_law_runs.LastTurns.{IsRecorded};
ghost use Rattle.pg_session_entry.specs.Entries.{IsEntry};
ghost use Rattle.pg_session_entry.specs.Records.{IsPrinted, IsRecord, IsRecordOf};

use crate::entry::Entry;
use crate::laws::{races_are_at_instructions, the_schedule_of_a_recorded_run_is_followed};
use crate::recorded::Record;
use crate::reference::entry_along;
use pg_ir::Program;
use pg_num::limits::RECORDING_STEP_LIMIT;
use pg_run::laws::a_rotation_is_a_run;
use pg_run::{Ended, Followed, Outcome, Recorded, follow_into, rotate_into};
use pg_run_trace::{Schedule, Trace};
use pg_schedule::{hybrid, races};
use std::alloc::{AllocError, Global};

/// Follows a schedule whose guided run exits. The trace then has the steps of that run.
fn followed(
    alloc: Global,
    p: &Program,
    input: &[i64],
    schedule: &Schedule,
    trace: &mut Trace,
) -> Result<(), AllocError>
    requires exits { (steps : List Step) × (printed : List ℕ) × (value : ℤ) × (following_of p.now input.now schedule.now.turns schedule.now.gated ≡ Exits steps printed value) }
    requires room { trace.old.room ≡ RECORDING_STEP_LIMIT }
    ensures { OnOk result ((steps : List Step) (printed : List ℕ) (value : ℤ) → following_of p.now input.now schedule.now.turns schedule.now.gated ≡ Exits steps printed value
        → following_of p.now input.now schedule.now.turns schedule.now.gated ≡ Exits trace.new.steps printed value) }
{
    match follow_into(alloc, p, input, schedule, trace)? {
        Followed::Exit { .. } => Ok(()),
        _ => unreachable!(),
    }
}

/// The entry of a run that exits, whose steps are those of the trace. The trace then has the steps of the guided run along the
/// entry's schedule.
fn entry_of(
    alloc: Global,
    p: &Program,
    input: &[i64],
    trace: &mut Trace,
) -> Result<Entry, AllocError>
    requires can_run { CanRun p.now input.now }
    requires recorded { (z : State) × IsRecorded p.now input.now trace.old.steps z }
    requires room { trace.old.room ≡ RECORDING_STEP_LIMIT }
    ensures { IfOk result (λ e. (z : State) → IsRecorded p.now input.now trace.old.steps z → IsEntry p.now input.now trace.old.steps z e) }
{
    races_are_at_instructions();
    the_schedule_of_a_recorded_run_is_followed();
    let races = races(alloc, trace)?;
    let schedule = hybrid(alloc, trace, races.as_slice())?;
    followed(alloc, p, input, &schedule, trace)?;
    // In two lines for the proof: see docs/CONTRIBUTING.md.
    let entry = entry_along(alloc, p, input, trace, schedule, races)?;
    Ok(entry)
}

/// The record of a run whose steps are those of the trace: where it exits its entry, else its end. The trace then has other steps.
fn record_of(
    alloc: Global,
    p: &Program,
    input: &[i64],
    trace: &mut Trace,
    ended: Ended,
) -> Result<Record, AllocError>
    requires can_run { CanRun p.now input.now }
    requires recording { (z : State) × IsRecording p.now input.now trace.old.steps z ended.end }
    requires room { trace.old.room ≡ RECORDING_STEP_LIMIT }
    ensures { IfOk result (λ r. (z : State) → IsRecording p.now input.now trace.old.steps z ended.end → ended.output.items ≡ z.printed
        → IsRecord p.now input.now (record { trace = trace.old.steps; state = z; end = ended.end }) r) }
{
    let Ended { output, end } = ended;
    match end {
        Outcome::Exit(value) => {
            let entry = entry_of(alloc, p, input, trace)?;
            Ok(Record::Kept {
                entry,
                output,
                value,
            })
        }
        Outcome::Refused(refusal) => Ok(Record::Refused { refusal, output }),
    }
}

/// The record of a recording of a program on an input, with threads in any order in which they are ready: where it exits its
/// entry, else its end.
///
/// # Errors
///
/// Where no memory is left.
pub fn from_recorded(
    alloc: Global,
    p: &Program,
    input: &[i64],
    r: Recorded,
) -> Result<Record, AllocError>
    requires can_run { CanRun p.now input.now }
    requires recording { IsPrinted p.now input.now r.trace.steps r.end r.output.items }
    requires room { r.trace.room ≡ RECORDING_STEP_LIMIT }
    ensures { IfOk result (IsRecordOf p.now input.now r.trace.steps r.end r.output.items) }
{
    let Recorded { trace, output, end } = r;
    let mut trace = trace;
    // In two lines for the proof: see docs/CONTRIBUTING.md.
    let made = record_of(alloc, p, input, &mut trace, Ended { output, end })?;
    Ok(made)
}

/// Records the run of a program on an input in which threads take their turns in number order, each with a quantum of up to
/// `quantum` steps: where it exits it gives its entry, else its end.
///
/// # Errors
///
/// Where no memory is left.
pub fn record(alloc: Global, p: &Program, input: &[i64], quantum: u32) -> Result<Record, AllocError>
    requires can_run { CanRun p.now input.now }
    requires least { 1 ≤ quantum }
    requires most { quantum ≤ QUANTUM_LIMIT }
    ensures { IfOk result (IsRecord p.now input.now (rotation_of p.now input.now quantum)) }
{
    a_rotation_is_a_run();
    let mut trace = Trace::with_room(alloc, RECORDING_STEP_LIMIT as usize)?;
    let ended = rotate_into(alloc, p, input, quantum, &mut trace)?;
    // In two lines for the proof: see docs/CONTRIBUTING.md.
    let made = record_of(alloc, p, input, &mut trace, ended)?;
    Ok(made)
}
