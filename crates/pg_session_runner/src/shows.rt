//! What is shown of the recording of an input.
ghost use Rattle.std.specs.Prelude.{◌≡◌, ◌≤◌, ◌<◌, ℤ, List, length, All, IfOk, None, OnOk};
ghost use Rattle.pg_go.specs.pg_num.declared.limits.TheConstants.{NUMBERS_LIMIT, QUANTUM_LIMIT};
ghost use Rattle.pg_go.specs.pg_ir.Program.{NumberedProgram};
ghost use Rattle.pg_law_reuse.specs.pg_law_runs.Cuts.{CanRun};
ghost use Rattle.pg_session.specs.pg_session_texts.Replies.{kind_of, reply_text};
ghost use Rattle.pg_session.specs.Counts.{RoseBy};
ghost use Rattle.pg_session.specs.Recordings.{ComesOfRecording};
ghost use Rattle.pg_session.specs.Shows.{IsShowText};
ghost use Rattle.pg_session_runner.specs.Runs.{RecordsNothing, Way, exit_value, freely, rotating, runs_by, shown};

use crate::recording::{recorded_freely, recorded_in_rotation};
use pg_free::FreeCrew;
use pg_go::pg_ir::Program;
use pg_go::pg_run::Refusal;
use pg_law_reuse::Entry;
use pg_session::pg_session_texts::{EndLine, ReplyKind, reply_text, show_text};
use pg_session::{Recording, Run};
use std::alloc::{AllocError, Global};
use std::sync::Wait;
use std::thread::Threads;

/// The value of an exit.
fn exit_value(end: EndLine) -> i32
    ensures { result ≡ exit_value end }
{
    match end {
        EndLine::Exit(value, _) => value,
        EndLine::Trap(_, _, _) | EndLine::Budget(_, _) => 0,
    }
}

/// The text of `show` for an entry, with what was printed and how the run along its schedule ended.
fn entry_text(alloc: Global, entry: &Entry, run: &Run) -> Result<Vec<u8>, AllocError>
    requires pinned { All (λ n. n < length entry.now.ids) entry.now.pinned }
    requires exact { All (λ n. n < length entry.now.ids) entry.now.exact }
    ensures { IfOk result (λ text. text.items ≡ shown entry.now run.now.output.items run.now.end) }
{
    show_text(
        alloc,
        entry.schedule(),
        entry.ids(),
        entry.decisions().pinned.as_slice(),
        entry.decisions().exact.as_slice(),
        entry.races(),
        run.output.as_slice(),
        exit_value(run.end),
    )
}

/// The reply to an input that isn't kept, of which this was printed.
pub(crate) fn refusal_text(
    alloc: Global,
    refusal: Refusal,
    output: &[u8],
) -> Result<Vec<u8>, AllocError>
    ensures { IfOk result (λ text. text.items ≡ reply_text (kind_of refusal) output.now None) }
{
    reply_text(alloc, &ReplyKind::from(refusal), output, None)
}

/// What is shown of a recording.
fn recording_text(alloc: Global, recording: &Recording<Entry>) -> Result<Vec<u8>, AllocError>
    requires { (p : NumberedProgram) × (way : Way) × (input : List ℤ) × ComesOfRecording (runs_by p way) input recording.now × (RecordsNothing way → ⊥) }
    ensures { IfOk result (λ text. (p : NumberedProgram) (way : Way) (input : List ℤ) → ComesOfRecording (runs_by p way) input recording.now
        → IsShowText (runs_by p way) shown input text.items) }
{
    match recording {
        Recording::Kept(entry, run) => entry_text(alloc, entry, run),
        Recording::Refused(refusal, output) => refusal_text(alloc, *refusal, output),
        Recording::Untested => unreachable!(),
    }
}

/// What a session would record of an input as its first line, where threads take their turns in number order, each with a quantum of
/// up to `quantum` steps: the turns, the races, the decisions, what was printed, and the end; or the reply to an input that isn't
/// kept.
///
/// # Errors
///
/// Where no memory is left.
pub fn show_in_rotation(
    alloc: Global,
    p: &Program,
    input: &[i64],
    quantum: u32,
) -> Result<Vec<u8>, AllocError>
    requires can_run { CanRun p.now input.now }
    requires least { 1 ≤ quantum }
    requires most { quantum ≤ QUANTUM_LIMIT }
    ensures { IfOk result (λ text. IsShowText (runs_by p.now (rotating quantum)) shown input.now text.items) }
{
    let recording = recorded_in_rotation(alloc, p, input, quantum)?;
    recording_text(alloc, &recording)
}

/// The same where threads take steps in the order in which the workers of a crew come. It may wait for other threads of the host,
/// and answers once it returns.
///
/// # Errors
///
/// Where no memory is left.
pub fn show_freely<H: Threads + Wait + Sync, G: FreeCrew>(
    rt: &H,
    alloc: Global,
    p: &Program,
    input: &[i64],
    crew: &mut G,
) -> Result<Vec<u8>, AllocError>
    requires can_run { CanRun p.now input.now }
    requires few { length input.now ≤ NUMBERS_LIMIT }
    ensures text { IfOk result (λ text. IsShowText (runs_by p.now freely) shown input.now text.items) }
    ensures rounds { OnOk result (RoseBy 1 (G.rounds crew.old) (G.rounds crew.new)) }
{
    let recording = recorded_freely(rt, alloc, p, input, crew)?;
    recording_text(alloc, &recording)
}
