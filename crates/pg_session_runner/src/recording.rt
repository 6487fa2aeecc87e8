//! What a session keeps of a recording.
ghost use Rattle.std.specs.Prelude.{◌≡◌, ◌≤◌, ◌<◌, ◌^◌, ℕ, ℤ, List, length, IfOk, OnOk};
ghost use Rattle.pg_go.specs.pg_num.declared.limits.TheConstants.{NUMBERS_LIMIT, QUANTUM_LIMIT};
ghost use Rattle.pg_go.specs.pg_ir.Program.{NumberedProgram};
ghost use Rattle.pg_go.specs.pg_run_trace.declared.step.Step.{Step};
ghost use Rattle.pg_go.specs.pg_run.declared.outcome.Outcome.{Outcome};
ghost use Rattle.pg_go.specs.pg_run.State.{State};
ghost use Rattle.pg_law_reuse.specs.pg_law_runs.Cuts.{CanRun};
ghost use Rattle.pg_law_reuse.specs.Records.{IsRecord, IsRecordOf};
ghost use Rattle.pg_session.specs.Counts.{RoseBy};
ghost use Rattle.pg_session.specs.Recordings.{ComesOfRecording, recordings_of};
ghost use Rattle.pg_session_runner.specs.Runs.{IsRecordedBy, Way, freely, rotating, runs_by};

use crate::laws::a_recorded_schedule_has_few_turns;
use pg_free::{FreeCrew, free_record};
use pg_go::pg_ir::Program;
use pg_go::pg_run::laws::a_rotation_is_a_run;
use pg_law_reuse::laws::an_entry_serves_what_it_admits;
use pg_law_reuse::{Entry, Record, from_recorded, record};
use pg_session::pg_session_texts::EndLine;
use pg_session::{Recording, Run};
use std::alloc::{AllocError, Global};
use std::sync::Wait;
use std::thread::Threads;

/// The end of the run along an entry's schedule that exits with this value: it does all turns.
fn end_along(entry: &Entry, value: i32) -> EndLine
    requires { length entry.now.schedule.turns < 2 ^ 32 }
    ensures { result ≡ EndLine.Exit value (length entry.now.schedule.turns) }
{
    let turns = entry.schedule().turns.as_slice().len();
    EndLine::Exit(value, turns as u32)
}

/// What a session keeps of the record of a recording.
fn kept_of(made: Record) -> Recording<Entry>
    requires { (p : NumberedProgram) × (input : List ℤ) × (xs : List Step) × (end : Outcome) × (printed : List ℕ) × IsRecordOf p input xs end printed made }
    ensures one { recordings_of result ≡ 1 }
    ensures gives { (p : NumberedProgram) (way : Way) (input : List ℤ) (xs : List Step) (z : State) (end : Outcome) → CanRun p input
        → IsRecordedBy p way input xs z end → IsRecord p input (record { trace = xs; state = z; end = end }) made → ComesOfRecording (runs_by p way) input result }
{
    a_rotation_is_a_run();
    a_recorded_schedule_has_few_turns();
    an_entry_serves_what_it_admits();
    match made {
        Record::Kept {
            entry,
            output,
            value,
        } => {
            let end = end_along(&entry, value);
            Recording::Kept(entry, Run { output, end })
        }
        Record::Refused { refusal, output } => Recording::Refused(refusal, output),
    }
}

/// Records the run of a program on an input in which threads take their turns in number order, each with a quantum of up to
/// `quantum` steps.
///
/// # Errors
///
/// Where no memory is left.
pub(crate) fn recorded_in_rotation(
    alloc: Global,
    p: &Program,
    input: &[i64],
    quantum: u32,
) -> Result<Recording<Entry>, AllocError>
    requires can_run { CanRun p.now input.now }
    requires least { 1 ≤ quantum }
    requires most { quantum ≤ QUANTUM_LIMIT }
    ensures gives { IfOk result (ComesOfRecording (runs_by p.now (rotating quantum)) input.now) }
    ensures one { IfOk result (λ r. recordings_of r ≡ 1) }
{
    a_rotation_is_a_run();
    let made = record(alloc, p, input, quantum)?;
    Ok(kept_of(made))
}

/// Records a run of a program on an input in which threads take steps in the order in which the workers of a crew come. It may
/// wait for other threads of the host, and answers once it returns.
///
/// # Errors
///
/// Where no memory is left.
pub(crate) fn recorded_freely<H: Threads + Wait + Sync, G: FreeCrew>(
    rt: &H,
    alloc: Global,
    p: &Program,
    input: &[i64],
    crew: &mut G,
) -> Result<Recording<Entry>, AllocError>
    requires can_run { CanRun p.now input.now }
    requires few { length input.now ≤ NUMBERS_LIMIT }
    ensures gives { IfOk result (ComesOfRecording (runs_by p.now freely) input.now) }
    ensures one { IfOk result (λ r. recordings_of r ≡ 1) }
    ensures rounds { OnOk result (RoseBy 1 (G.rounds crew.old) (G.rounds crew.new)) }
    ensures stays { RoseBy 0 (G.rounds crew.old) (G.rounds crew.new) }
{
    let recording = free_record(rt, alloc, p, input, crew)?;
    let made = from_recorded(alloc, p, input, recording)?;
    Ok(kept_of(made))
}
