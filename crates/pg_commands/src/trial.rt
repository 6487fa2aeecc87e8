//! The command `trial`: a session over stated lines, of which counts are told.
ghost use Rattle.std.specs.Prelude.{◌≡◌, ◌≤◌, ◌<◌, ◌⊎◌, ◌^◌, ℕ, ℤ, List, length, Option, IfOk};
ghost use Rattle.pg_session_book.specs.pg_law_runs.Cuts.{CanRun};
ghost use Rattle.pg_commands_words.specs.Commands.{trial};
ghost use Rattle.pg_commands_words.specs.declared.values.TheConstants.{DEFAULT_QUANTUM};
ghost use Rattle.pg_session_book.specs.Runs.{entry_admits, runs_of};
ghost use Rattle.pg_session_book.specs.pg_session.Trials.{IsTrialText};
ghost use Rattle.pg_session_trial.specs.Program.{trial_program};
ghost use Rattle.pg_session_trial.specs.declared.line.TheConstants.{TRIAL_LIMIT};
ghost use Rattle.pg_commands.specs.Commands.{EndsAs, IsTrial, MakesTurns, crew_change, shelf_change, sink_change, source_change, workers_change, world};
ghost use Rattle.pg_commands.specs.Replies.{IsReply, IsReplyStatus};

use crate::programs::{Loaded, load};
use crate::replies::{Reply, write_text};
use crate::status::Status;
use pg_commands_words::DEFAULT_QUANTUM;
use pg_io::Sink;
use pg_ir::Program;
use pg_session_book::ProgramRunner;
use pg_session_book::pg_go::Crew;
use pg_session_trial::trial_program;
use std::alloc::{AllocError, Global};
use std::mem;
use std::sync::Wait;
use std::thread::Threads;

/// The text of the trial that a number names, of a program. The crew runs the lines that are answered by reuse.
fn trial_text<R: Threads + Wait + Sync, C: Crew + Drop>(
    rt: &R,
    alloc: Global,
    program: &Program,
    number: u64,
    crew: &mut C,
) -> Result<Vec<u8>, AllocError>
    requires can_run { (input : List ℤ) → length input < 2 ^ 64 → CanRun program.now input }
    requires number { number ≤ TRIAL_LIMIT }
    ensures { IfOk result (λ text. (told : IsTrialText entry_admits (runs_of program.now DEFAULT_QUANTUM) number text.items)
        × MakesTurns (workers_change (C.turns crew.old) (C.turns crew.new)) told.answers) }
{
    let other = crew.another();
    let mut runner = ProgramRunner::new(program, DEFAULT_QUANTUM, mem::replace(crew, other));
    let text = pg_session_book::pg_session::trial(rt, alloc, &mut runner, number);
    *crew = runner.into_crew();
    text
}

/// The text of the trial that a number names.
fn trial_reply<R: Threads + Wait + Sync, C: Crew + Drop>(
    rt: &R,
    alloc: Global,
    number: u64,
    crew: &mut C,
) -> Result<Reply, AllocError>
    requires { number ≤ TRIAL_LIMIT }
    ensures status { IfOk result (λ r. IsReplyStatus r.status) }
    ensures reply { IfOk result (λ r. IsReply (IsTrial trial_program number (workers_change (C.turns crew.old) (C.turns crew.new))) trial_program r.status r.text.items) }
{
    match load(alloc, trial_program().as_bytes())? {
        Loaded::Accepted(program) => Ok(Reply {
            status: Status::Done,
            text: trial_text(rt, alloc, &program, number, crew)?,
        }),
        Loaded::Refused(line) => Ok(Reply {
            status: Status::ProgramRefused,
            text: line,
        }),
    }
}

/// Writes the text of the trial that a number names. The crew runs the lines that are answered by reuse.
pub(crate) fn trial<R: Threads + Wait + Sync, K: Sink, C: Crew + Drop>(
    rt: &R,
    alloc: Global,
    number: u64,
    out: &mut K,
    crew: &mut C,
) -> Status
    requires { number ≤ TRIAL_LIMIT }
    ensures ends { (texts : List ℕ → Option (List ℕ)) (fetches : List ℕ → ℕ) (rest : Option (List ℕ)) (reads rounds : ℕ) → EndsAs
        (world (shelf_change texts fetches fetches) (source_change rest rest reads reads)
        (sink_change (K.taken out.old) (K.taken out.new) (K.faults out.old) (K.faults out.new)) (crew_change rounds rounds) (workers_change (C.turns crew.old) (C.turns crew.new)))
        (trial number) result }
    ensures keeps { (result ≡ Status.ReadFault) ⊎ (result ≡ Status.OutOfMemory) → out.new ≡ out.old }
{
    let reply = match trial_reply(rt, alloc, number, crew) {
        Ok(reply) => reply,
        Err(_) => return Status::OutOfMemory,
    };
    write_text(out, &reply.text, reply.status)
}
