//! What `show` writes of a line of input that is recorded.
ghost use Rattle.std.specs.Prelude.{◌≡◌, ◌<◌, ◌++◌, codes, length, All, IfOk, OnOk, string_bytes};
ghost use Rattle.pg_session_texts.specs.declared.reply.ReplyKind.TheVariants.{Recorded};
ghost use Rattle.pg_session_texts.specs.Replies.{reply_line};
ghost use Rattle.pg_session_texts.specs.Shows.{turn_line, turn_lines, race_line, race_lines, decision_line, decision_lines, exit_line, show_text};

use crate::reply::{ReplyKind, reply_line};
use pg_ir::InstrId;
use pg_run_trace::{Race, Schedule, Turn};
use std::alloc::{AllocError, Global};

/// The line of the turn that has this number.
fn turn_line(alloc: Global, place: usize, turn: Turn) -> Result<String, AllocError>
    ensures { IfOk result (λ line. string_bytes line ≡ turn_line place turn) }
{
    let thread = turn.thread.0;
    let kind = turn.kind.name();
    let id = turn.instr.0;
    let object = turn.object;
    format!(in alloc; "turn {place} thread {thread} {kind} at {id} on {object}\n")
}

/// Writes a line for each turn.
fn add_turns(alloc: Global, text: &mut Vec<u8>, turns: &[Turn]) -> Result<(), AllocError>
    ensures { OnOk result (text.new.items ≡ text.old.items ++ turn_lines 0 turns.now) }
{
    for i in 0..turns.len() {
        let line = turn_line(alloc, i, turns[i])?;
        text.extend_from_slice(line.as_bytes())?;
    }
    Ok(())
}

/// The line of a race.
fn race_line(alloc: Global, race: Race) -> Result<String, AllocError>
    ensures { IfOk result (λ line. string_bytes line ≡ race_line race) }
{
    let id = race.instr.0;
    let step = race.step;
    let other = race.with;
    format!(in alloc; "race at {id} steps {step} {other}\n")
}

/// Writes a line for each race.
fn add_races(alloc: Global, text: &mut Vec<u8>, races: &[Race]) -> Result<(), AllocError>
    ensures { OnOk result (text.new.items ≡ text.old.items ++ race_lines races.now) }
{
    for race in races {
        let line = race_line(alloc, *race)?;
        text.extend_from_slice(line.as_bytes())?;
    }
    Ok(())
}

/// The line of a decision at this step of the reference run.
fn decision_line(
    alloc: Global,
    word: &str,
    ids: &[InstrId],
    step: usize,
) -> Result<String, AllocError>
    requires { step < length ids.now }
    ensures { IfOk result (λ line. string_bytes line ≡ decision_line word.now ids.now step) }
{
    let id = ids[step].0;
    format!(in alloc; "{word} {step} at {id}\n")
}

/// Writes a line for each decision of one kind.
fn add_decisions(
    alloc: Global,
    text: &mut Vec<u8>,
    word: &str,
    ids: &[InstrId],
    steps: &[usize],
) -> Result<(), AllocError>
    requires { All (λ step. step < length ids.now) steps.now }
    ensures { OnOk result (text.new.items ≡ text.old.items ++ decision_lines word.now ids.now steps.now) }
{
    for step in steps {
        let line = decision_line(alloc, word, ids, *step)?;
        text.extend_from_slice(line.as_bytes())?;
    }
    Ok(())
}

/// The line of a run that exited with this value.
fn exit_line(alloc: Global, value: i32, turns: usize) -> Result<String, AllocError>
    ensures { IfOk result (λ line. string_bytes line ≡ exit_line value turns) }
{
    format!(in alloc; "exit {value} after {turns} turns\n")
}

/// The lines of the turns and of the races.
fn events_text(alloc: Global, schedule: &Schedule, races: &[Race]) -> Result<Vec<u8>, AllocError>
    ensures { IfOk result (λ text. text.items ≡ reply_line (Recorded 0) ++ (turn_lines 0 schedule.now.turns ++ race_lines races.now)) }
{
    let line = reply_line(alloc, ReplyKind::Recorded(0))?;
    let mut text = line.into_bytes();
    add_turns(alloc, &mut text, schedule.turns.as_slice())?;
    add_races(alloc, &mut text, races)?;
    Ok(text)
}

/// Writes the output and the line of the end.
fn add_run(
    alloc: Global,
    text: &mut Vec<u8>,
    output: &[u8],
    value: i32,
    turns: usize,
) -> Result<(), AllocError>
    ensures { OnOk result (text.new.items ≡ text.old.items ++ (output.now ++ exit_line value turns)) }
{
    text.extend_from_slice(output)?;
    let line = exit_line(alloc, value, turns)?;
    text.extend_from_slice(line.as_bytes())?;
    Ok(())
}

/// The text of `show` for a recorded line of input: its reply's line, the turns, the races (by steps of the
/// recording), the pinned branch steps and the exact access steps (of the reference run, each with the
/// instruction that `ids` has at its number), what was printed, and how the run along the schedule ended.
pub fn show_text(
    alloc: Global,
    schedule: &Schedule,
    ids: &[InstrId],
    pinned: &[usize],
    exact: &[usize],
    races: &[Race],
    output: &[u8],
    value: i32,
) -> Result<Vec<u8>, AllocError>
    requires pinned { All (λ step. step < length ids.now) pinned.now }
    requires exact { All (λ step. step < length ids.now) exact.now }
    ensures { IfOk result (λ text. text.items ≡
        show_text schedule.now ids.now pinned.now exact.now races.now output.now value) }
{
    let mut text = events_text(alloc, schedule, races)?;
    add_decisions(alloc, &mut text, "pinned", ids, pinned)?;
    add_decisions(alloc, &mut text, "exact", ids, exact)?;
    add_run(
        alloc,
        &mut text,
        output,
        value,
        schedule.turns.as_slice().len(),
    )?;
    Ok(text)
}
