//! What is said of one line of input.
ghost use Rattle.std.specs.Prelude.{◌≡◌, IfOk, OnOk, ◌++◌, string_bytes};
ghost use Rattle.std.specs.Option.{option_map};
ghost use Rattle.pg_session_texts.specs.Replies.{HasEnd, end_line, end_text, kind_of, reply_line, reply_text};

use pg_ir::{InstrId, ThreadNo, TrapName};
use pg_run::Refusal;
use std::alloc::{AllocError, Global};

/// What came of a line of input.
#[derive(Clone, Copy, Debug, PartialEq, Eq)]
pub enum ReplyKind {
    /// It was recorded, as the entry of this number.
    Recorded(u64),
    /// It ran along the schedule of the entry of this number.
    Reused(u64),
    /// It isn't a line of numbers.
    RefusedLine,
    /// Its recording ended by this trap, at this instruction.
    RefusedTrap(TrapName, InstrId),
    /// Its recording took all the steps that one may take.
    RefusedBudget,
    /// No entry admits it, and nothing is recorded.
    RefusedUntested,
}

impl From<Refusal> for ReplyKind {
    ghost from_gives = { λ r kind. kind ≡ kind_of r };

    fn from(refusal: Refusal) -> ReplyKind {
        match refusal {
            Refusal::Trap(name, id) => ReplyKind::RefusedTrap(name, id),
            Refusal::Budget => ReplyKind::RefusedBudget,
        }
    }
}

/// How a run along a schedule ended, and after how many turns.
#[derive(Clone, Copy, Debug, PartialEq, Eq)]
pub enum EndLine {
    /// Main returned this value.
    Exit(i32, u32),
    /// This trap came, at this instruction.
    Trap(TrapName, InstrId, u32),
    /// This thread took all the steps that one may take.
    Budget(ThreadNo, u32),
}

/// The line that says what came of a line of input.
pub(crate) fn reply_line(alloc: Global, kind: ReplyKind) -> Result<String, AllocError>
    ensures { IfOk result (λ line. string_bytes line ≡ reply_line kind) }
{
    match kind {
        ReplyKind::Recorded(entry) => format!(in alloc; "recorded {entry}\n"),
        ReplyKind::Reused(entry) => format!(in alloc; "reused {entry}\n"),
        ReplyKind::RefusedLine => format!(in alloc; "refused line\n"),
        ReplyKind::RefusedTrap(name, id) => {
            let number = id.0;
            format!(in alloc; "refused trap {name} at {number}\n")
        }
        ReplyKind::RefusedBudget => format!(in alloc; "refused budget\n"),
        ReplyKind::RefusedUntested => format!(in alloc; "refused untested\n"),
    }
}

/// The line that says how a run along a schedule ended.
fn end_line(alloc: Global, end: EndLine) -> Result<String, AllocError>
    ensures { IfOk result (λ line. string_bytes line ≡ end_line end) }
{
    match end {
        EndLine::Exit(value, turns) => format!(in alloc; "exit {value} after {turns} turns\n"),
        EndLine::Trap(name, id, turns) => {
            let number = id.0;
            format!(in alloc; "trap {name} at {number} after {turns} turns\n")
        }
        EndLine::Budget(thread, turns) => {
            let number = thread.0;
            format!(in alloc; "budget in thread {number} after {turns} turns\n")
        }
    }
}

/// The end itself, if there is one.
pub(crate) fn copied(end: Option<&EndLine>) -> Option<EndLine>
    ensures { result ≡ option_map (λ e. e.now) end.entry }
{
    match end {
        Some(end) => Some(*end),
        None => None,
    }
}

/// Writes the line of an end, if there is one.
fn add_end(alloc: Global, text: &mut Vec<u8>, end: Option<EndLine>) -> Result<(), AllocError>
    ensures { OnOk result (text.new.items ≡ text.old.items ++ end_text end) }
{
    if let Some(end) = end {
        let line = end_line(alloc, end)?;
        text.extend_from_slice(line.as_bytes())?;
    }
    Ok(())
}

/// The text of a reply: its line, what was printed, and the line of the end, which is there exactly where
/// the line of input ran along a schedule.
pub fn reply_text(
    alloc: Global,
    kind: &ReplyKind,
    output: &[u8],
    end: Option<&EndLine>,
) -> Result<Vec<u8>, AllocError>
    requires end { HasEnd kind.now (option_map (λ e. e.now) end) }
    ensures { IfOk result (λ text. text.items ≡ reply_text kind.now output.now (option_map (λ e. e.now) end.entry)) }
{
    let line = reply_line(alloc, *kind)?;
    let mut text = line.into_bytes();
    text.extend_from_slice(output)?;
    add_end(alloc, &mut text, copied(end))?;
    Ok(text)
}
