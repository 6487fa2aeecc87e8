//! The conditions of the recording of an input.
ghost use Rattle.std.specs.Prelude.{◌≡◌, ◌≤◌, ◌<◌, ℤ, List, length, IfOk, OnOk};
ghost use Rattle.pg_go.specs.pg_num.declared.limits.TheConstants.{NUMBERS_LIMIT, QUANTUM_LIMIT};
ghost use Rattle.pg_go.specs.pg_ir.Program.{NumberedProgram};
ghost use Rattle.pg_law_reuse.specs.pg_law_runs.Cuts.{CanRun};
ghost use Rattle.pg_session.specs.Counts.{RoseBy};
ghost use Rattle.pg_session.specs.Recordings.{ComesOfRecording};
ghost use Rattle.pg_session.specs.Shows.{IsShowText};
ghost use Rattle.pg_session_runner.specs.Runs.{RecordsNothing, Way, conditions_of, freely, rotating, runs_by};

use crate::recording::{recorded_freely, recorded_in_rotation};
use crate::shows::refusal_text;
use pg_free::FreeCrew;
use pg_go::pg_ir::Program;
use pg_law_reuse::Entry;
use pg_session::Recording;
use pg_session::pg_session_texts::conditions_text;
use std::alloc::{AllocError, Global};
use std::sync::Wait;
use std::thread::Threads;

/// The conditions of a recording, or the reply to an input that isn't kept.
fn recording_text(alloc: Global, recording: &Recording<Entry>) -> Result<Vec<u8>, AllocError>
    requires { (p : NumberedProgram) × (way : Way) × (input : List ℤ) × ComesOfRecording (runs_by p way) input recording.now × (RecordsNothing way → ⊥) }
    ensures { IfOk result (λ text. (p : NumberedProgram) (way : Way) (input : List ℤ) → ComesOfRecording (runs_by p way) input recording.now
        → IsShowText (runs_by p way) conditions_of input text.items) }
{
    match recording {
        Recording::Kept(entry, _) => conditions_text(alloc, entry.precondition()),
        Recording::Refused(refusal, output) => refusal_text(alloc, *refusal, output),
        Recording::Untested => unreachable!(),
    }
}

/// The precondition of what a session would record of an input as its first line, where threads take their turns in number order,
/// each with a quantum of up to `quantum` steps; or the reply to an input that isn't kept.
///
/// # Errors
///
/// Where no memory is left.
pub fn conditions_in_rotation(
    alloc: Global,
    p: &Program,
    input: &[i64],
    quantum: u32,
) -> Result<Vec<u8>, AllocError>
    requires can_run { CanRun p.now input.now }
    requires least { 1 ≤ quantum }
    requires most { quantum ≤ QUANTUM_LIMIT }
    ensures { IfOk result (λ text. IsShowText (runs_by p.now (rotating quantum)) conditions_of input.now text.items) }
{
    let recording = recorded_in_rotation(alloc, p, input, quantum)?;
    recording_text(alloc, &recording)
}

/// The same where threads take steps in the order in which the workers of a crew come. It may wait for other threads of the host,
/// and answers once it returns.
///
/// # Errors
///
/// Where no memory is left.
pub fn conditions_freely<H: Threads + Wait + Sync, G: FreeCrew>(
    rt: &H,
    alloc: Global,
    p: &Program,
    input: &[i64],
    crew: &mut G,
) -> Result<Vec<u8>, AllocError>
    requires can_run { CanRun p.now input.now }
    requires few { length input.now ≤ NUMBERS_LIMIT }
    ensures text { IfOk result (λ text. IsShowText (runs_by p.now freely) conditions_of input.now text.items) }
    ensures rounds { OnOk result (RoseBy 1 (G.rounds crew.old) (G.rounds crew.new)) }
{
    let recording = recorded_freely(rt, alloc, p, input, crew)?;
    recording_text(alloc, &recording)
}
