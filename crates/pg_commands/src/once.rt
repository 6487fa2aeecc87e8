//! The command `once`: one run in rotation.
ghost use Rattle.std.specs.Prelude.{◌≡◌, ◌≤◌, ◌<◌, ◌+◌, ◌⊎◌, ℕ, List, length, Option, IfNone, IfOk, IfSome, IsErrOf, OnOk};
ghost use Rattle.pg_io.specs.Faults.{Rose};
ghost use Rattle.pg_io.specs.Streams.{TakesAtMost};
ghost use Rattle.pg_num.specs.declared.limits.TheConstants.{PROGRAM_TEXT_LIMIT, QUANTUM_LIMIT};
ghost use Rattle.pg_session_book.specs.pg_session.Texts.{HasBytes};
ghost use Rattle.pg_commands.specs.Commands.{EndsAs, crew_change, shelf_change, sink_change, source_change, workers_change, world};
ghost use Rattle.pg_commands.specs.Replies.{IsReply, IsReplyStatus, unread};
ghost use Rattle.pg_commands.specs.Texts.{IsOnceText};
ghost use Rattle.pg_commands.specs.declared.once.NoReply.TheVariants.{OutOfMemory};
ghost use Rattle.pg_commands_words.specs.Commands.{once};

use crate::programs::{Loaded, load, too_long_line};
use crate::replies::{Reply, write_text};
use crate::status::Status;
use crate::texts::once_text;
use pg_commands_words::Once;
use pg_io::{ReadAllFault, Sink, Source, read_all};
use pg_num::limits::PROGRAM_TEXT_LIMIT;
use std::alloc::{AllocError, Global};

/// Why there is no text to be written.
#[derive(Clone, Copy, Debug, PartialEq, Eq)]
pub(crate) enum NoReply {
    /// A read failed.
    ReadFault,
    /// There was no memory.
    OutOfMemory,
}

impl From<AllocError> for NoReply {
    ghost from_gives = { λ _ e. e ≡ OutOfMemory };

    fn from(_e: AllocError) -> NoReply {
        NoReply::OutOfMemory
    }
}

/// The reply to a program text that isn't too long.
fn reply_to(alloc: Global, text: &[u8], command: &Once) -> Result<Reply, AllocError>
    requires within { length text.now ≤ PROGRAM_TEXT_LIMIT }
    requires least { 1 ≤ command.now.quantum }
    requires most { command.now.quantum ≤ QUANTUM_LIMIT }
    ensures status { IfOk result (λ r. IsReplyStatus r.status) }
    ensures reply { IfOk result (λ r. IsReply (IsOnceText text.now command.now.quantum command.now.numbers.items) text.now r.status r.text.items) }
{
    match load(alloc, text)? {
        Loaded::Accepted(program) => Ok(Reply {
            status: Status::Done,
            text: once_text(alloc, &program, command.quantum, &command.numbers)?,
        }),
        Loaded::Refused(line) => Ok(Reply {
            status: Status::ProgramRefused,
            text: line,
        }),
    }
}

/// Why there is no reply where a read gave no text; none where the text is too long, since that has a reply.
fn unread(fault: ReadAllFault) -> Option<NoReply>
    ensures cause { result ≡ unread fault }
    ensures too_long { IfNone result (fault ≡ ReadAllFault.TooLong) }
    ensures failed { IfSome result (λ c. c ≡ NoReply.ReadFault → fault ≡ ReadAllFault.Failed) }
    ensures memory { IfSome result (λ c. c ≡ NoReply.OutOfMemory → fault ≡ ReadAllFault.OutOfMemory) }
{
    match fault {
        ReadAllFault::TooLong => None,
        ReadAllFault::Failed => Some(NoReply::ReadFault),
        ReadAllFault::OutOfMemory => Some(NoReply::OutOfMemory),
    }
}

/// Reads the program text, and gives the reply to it.
fn read_reply<S: Source>(alloc: Global, command: &Once, src: &mut S) -> Result<Reply, NoReply>
    requires least { 1 ≤ command.now.quantum }
    requires most { command.now.quantum ≤ QUANTUM_LIMIT }
    ensures status { IfOk result (λ r. IsReplyStatus r.status) }
    ensures reply { IfOk result (λ r. HasBytes (S.rest src.old) (λ text.
        IsReply (IsOnceText text command.now.quantum command.now.numbers.items) text r.status r.text.items)) }
    ensures takes { TakesAtMost (S.rest src.old) (S.rest src.new) (PROGRAM_TEXT_LIMIT + 1) }
    ensures count_stays { OnOk result (S.faults src.new ≡ S.faults src.old) }
    ensures out_of_memory_count { IsErrOf result NoReply.OutOfMemory → S.faults src.new ≡ S.faults src.old }
    ensures cause { IsErrOf result NoReply.ReadFault → Rose (S.faults src.old) (S.faults src.new) }
    ensures fault_within { IsErrOf result NoReply.ReadFault → TakesAtMost (S.rest src.old) (S.rest src.new) PROGRAM_TEXT_LIMIT }
{
    match read_all(alloc, src, PROGRAM_TEXT_LIMIT) {
        Ok(text) => Ok(reply_to(alloc, &text, command)?),
        Err(fault) => match unread(fault) {
            Some(cause) => Err(cause),
            None => Ok(Reply {
                status: Status::ProgramRefused,
                text: too_long_line(alloc)?,
            }),
        },
    }
}

/// Reads the program text, and writes the reply to it.
pub(crate) fn once<S: Source, K: Sink>(
    alloc: Global,
    command: &Once,
    src: &mut S,
    out: &mut K,
) -> Status
    requires least { 1 ≤ command.now.quantum }
    requires most { command.now.quantum ≤ QUANTUM_LIMIT }
    ensures ends { (texts : List ℕ → Option (List ℕ)) (fetches : List ℕ → ℕ) (rounds turns : ℕ) → EndsAs
        (world (shelf_change texts fetches fetches) (source_change (S.rest src.old) (S.rest src.new) (S.faults src.old) (S.faults src.new))
        (sink_change (K.taken out.old) (K.taken out.new) (K.faults out.old) (K.faults out.new)) (crew_change rounds rounds) (workers_change turns turns))
        (once command.now.quantum command.now.numbers.items) result }
    ensures keeps { (result ≡ Status.ReadFault) ⊎ (result ≡ Status.OutOfMemory) → out.new ≡ out.old }
{
    let reply = match read_reply(alloc, command, src) {
        Ok(reply) => reply,
        Err(NoReply::ReadFault) => return Status::ReadFault,
        Err(NoReply::OutOfMemory) => return Status::OutOfMemory,
    };
    write_text(out, &reply.text, reply.status)
}
