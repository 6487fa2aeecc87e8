//! The command `conditions`: the precondition of what is recorded of one input.
ghost use Rattle.std.specs.Prelude.{◌≡◌, ◌≤◌, ◌⊎◌, ◌<◌, ◌^◌, ℕ, ℤ, List, length, string_bytes, Option, IfOk, IsErrOf, OnOk};
ghost use Rattle.pg_io.specs.Faults.{Rose};
ghost use Rattle.pg_num.specs.declared.limits.TheConstants.{NUMBERS_LIMIT};
ghost use Rattle.pg_session_book.specs.pg_law_runs.Cuts.{CanRun};
ghost use Rattle.pg_commands_words.specs.Commands.{IsWay, conditions};
ghost use Rattle.pg_session_book.specs.Runs.{conditions_of, runs_by};
ghost use Rattle.pg_session_book.specs.pg_session.Shows.{IsShowText};
ghost use Rattle.pg_commands.specs.Commands.{ByCrew, EndsAs, Fetched, IsConditions, MakesRounds, crew_change, shelf_change, sink_change, source_change, way_of, workers_change, world};
ghost use Rattle.pg_commands.specs.Replies.{IsReply, IsReplyStatus};

use crate::programs::{Loaded, NoProgram, fetch_program};
use crate::replies::{Reply, write_text};
use crate::status::Status;
use pg_commands_words::{Conditions, RecordingWay};
use pg_io::{Shelf, Sink};
use pg_ir::Program;
use pg_session_book::pg_free::{FreeCrew, Seeded};
use pg_session_book::{conditions_freely, conditions_in_rotation};
use std::alloc::{AllocError, Global};
use std::sync::Wait;
use std::thread::Threads;

/// The precondition of the recording of a program on these numbers, or the reply where nothing is kept of it.
fn conditions_text<R: Threads + Wait + Sync, G: FreeCrew>(
    rt: &R,
    alloc: Global,
    program: &Program,
    way: RecordingWay,
    numbers: &[i64],
    free: &mut G,
) -> Result<Vec<u8>, AllocError>
    requires can_run { (input : List ℤ) → length input < 2 ^ 64 → CanRun program.now input }
    requires way { IsWay way }
    requires few { length numbers.now ≤ NUMBERS_LIMIT }
    ensures text { IfOk result (λ text. IsShowText (runs_by program.now (way_of way)) conditions_of numbers.now text.items) }
    ensures rounds { OnOk result (MakesRounds way (crew_change (G.rounds free.old) (G.rounds free.new)) 1) }
    ensures others { ByCrew way ⊎ (G.rounds free.new ≡ G.rounds free.old) }
{
    match way {
        RecordingWay::Rotating(quantum) => {
            conditions_in_rotation(alloc, program, numbers, quantum)
        }
        RecordingWay::Free => conditions_freely(rt, alloc, program, numbers, free),
        RecordingWay::Seeded(seed) => {
            let mut crew = Seeded::new(seed);
            conditions_freely(rt, alloc, program, numbers, &mut crew)
        }
    }
}

/// The reply to the program text of the file.
fn fetch_reply<R: Threads + Wait + Sync, F: Shelf, G: FreeCrew>(
    rt: &R,
    alloc: Global,
    command: &Conditions,
    shelf: &mut F,
    free: &mut G,
) -> Result<Reply, NoProgram>
    requires way { IsWay command.now.way }
    requires few { length command.now.numbers.items ≤ NUMBERS_LIMIT }
    ensures status { IfOk result (λ r. IsReplyStatus r.status) }
    ensures reply { IfOk result (λ r. Fetched (F.text shelf.old) (string_bytes command.now.file) (λ text.
        IsReply (IsConditions text command.now.way command.now.numbers.items) text r.status r.text.items)) }
    ensures rounds { IfOk result (λ r. r.status ≡ Status.Done → MakesRounds command.now.way (crew_change (G.rounds free.old) (G.rounds free.new)) 1) }
    ensures others { ByCrew command.now.way ⊎ (G.rounds free.new ≡ G.rounds free.old) }
    ensures cause { IsErrOf result NoProgram.ShelfFault →
        Rose (F.faults shelf.old (string_bytes command.now.file)) (F.faults shelf.new (string_bytes command.now.file)) }
    ensures counts { (name : List ℕ) → IsErrOf result NoProgram.ShelfFault ⊎ (F.faults shelf.new name ≡ F.faults shelf.old name) }
    ensures texts_stay { (name : List ℕ) → F.text shelf.new name ≡ F.text shelf.old name }
{
    match fetch_program(alloc, shelf, command.file.as_str())? {
        Loaded::Accepted(program) => Ok(Reply {
            status: Status::Done,
            text: conditions_text(rt, alloc, &program, command.way, &command.numbers, free)?,
        }),
        Loaded::Refused(line) => Ok(Reply {
            status: Status::ProgramRefused,
            text: line,
        }),
    }
}

/// Fetches the program text, and writes the precondition of what is recorded of it on the command's numbers. The crew records where
/// the command says so.
pub(crate) fn conditions<R: Threads + Wait + Sync, K: Sink, F: Shelf, G: FreeCrew>(
    rt: &R,
    alloc: Global,
    command: &Conditions,
    shelf: &mut F,
    out: &mut K,
    free: &mut G,
) -> Status
    requires way { IsWay command.now.way }
    requires few { length command.now.numbers.items ≤ NUMBERS_LIMIT }
    ensures ends { (rest : Option (List ℕ)) (reads turns : ℕ) → EndsAs (world (shelf_change (F.text shelf.old) (F.faults shelf.old) (F.faults shelf.new))
        (source_change rest rest reads reads) (sink_change (K.taken out.old) (K.taken out.new) (K.faults out.old) (K.faults out.new))
        (crew_change (G.rounds free.old) (G.rounds free.new)) (workers_change turns turns))
        (conditions (string_bytes command.now.file) command.now.way command.now.numbers.items) result }
    ensures keeps { (result ≡ Status.ReadFault) ⊎ (result ≡ Status.OutOfMemory) → out.new ≡ out.old }
    ensures texts_stay { (name : List ℕ) → F.text shelf.new name ≡ F.text shelf.old name }
{
    let reply = match fetch_reply(rt, alloc, command, shelf, free) {
        Ok(reply) => reply,
        Err(NoProgram::ShelfFault) => return Status::ShelfFault,
        Err(NoProgram::OutOfMemory) => return Status::OutOfMemory,
    };
    write_text(out, &reply.text, reply.status)
}
