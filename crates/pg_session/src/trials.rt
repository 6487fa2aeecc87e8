//! A trial: a session over stated lines, of which only counts are told.
ghost use Rattle.std.specs.Prelude.{◌≡◌, ◌≤◌, ◌<◌, ◌+◌, ◌-◌, ◌^◌, [], ◌∷◌, ◌++◌, count_by, string_bytes, IfOk, OnOk};
ghost use Rattle.std.specs.List.{filter_map};
ghost use Rattle.pg_session_trial.specs.declared.line.TheConstants.{TRIAL_LIMIT};
ghost use Rattle.pg_session.specs.Counts.{TrialCounted};
ghost use Rattle.pg_session.specs.Sessions.{IsExact, admits_by};
ghost use Rattle.pg_session.specs.Lines.{number_of};
ghost use Rattle.pg_session.specs.Trials.{count_line, counts_text, is_recorded, is_refused, is_reused, numbers_printed, sum_from, sum_line, turns_of};

use crate::answers::{Answer, answer_to};
use crate::runner::Runner;
use pg_cache::Cache;
use pg_num::limits::CACHE_LIMIT;
use pg_num::{Width, add, digits_in_i64, from_signed, to_signed};
use pg_session_texts::{EndLine, ReplyKind};
use pg_session_trial::{TRIAL_LINES, trial_line};
use std::alloc::{AllocError, Global};
use std::sync::Wait;
use std::thread::Threads;

/// What is told of a session: how many lines were recorded, reused and refused, how many turns their runs did, and the
/// sum of the numbers that they printed, modulo 2 to the power of 64.
#[derive(Clone, Copy)]
struct Counts {
    recorded: u64,
    reused: u64,
    refused: u64,
    turns: u64,
    sum: u64,
}

/// How many turns a run along a schedule did, and 0 where there was none.
pub fn turns_of(end: Option<EndLine>) -> u64
    ensures turns { result ≡ turns_of end }
    ensures few { result < 2 ^ 32 }
{
    match end {
        None => 0,
        Some(EndLine::Exit(_, turns)) => u64::from(turns),
        Some(EndLine::Trap(_, _, turns)) => u64::from(turns),
        Some(EndLine::Budget(_, turns)) => u64::from(turns),
    }
}

// The sum of a total and of the number that a line is, where it is one.
fn with_line(total: u64, line: &[u8]) -> u64
    ensures { result ≡ sum_from total (filter_map number_of (line.now ∷ [])) }
{
    match digits_in_i64(line) {
        Some(number) => add(Width::W64, total, from_signed(Width::W64, number)),
        None => total,
    }
}

// The sum of a total and of the numbers of the lines of an output.
fn with_printed(before: u64, output: &[u8]) -> u64
    ensures { result ≡ sum_from before (numbers_printed output.now) }
{
    let mut total = before;
    let mut start: usize = 0;
    for at in 0..output.len() {
        if output[at] == b'\n' {
            total = with_line(total, &output[start..at]);
            start = at + 1;
        }
    }
    total
}

// The counts with a reply of this kind.
fn with_kind(counts: Counts, kind: ReplyKind) -> Counts
    requires recorded { counts.recorded < 2 ^ 64 - 1 }
    requires reused { counts.reused < 2 ^ 64 - 1 }
    requires refused { counts.refused < 2 ^ 64 - 1 }
    ensures recorded { result.recorded ≡ counts.recorded + count_by is_recorded (kind ∷ []) }
    ensures reused { result.reused ≡ counts.reused + count_by is_reused (kind ∷ []) }
    ensures refused { result.refused ≡ counts.refused + count_by is_refused (kind ∷ []) }
    ensures turns { result.turns ≡ counts.turns }
    ensures sum { result.sum ≡ counts.sum }
{
    match kind {
        ReplyKind::Recorded(_) => Counts {
            recorded: counts.recorded + 1,
            ..counts
        },
        ReplyKind::Reused(_) => Counts {
            reused: counts.reused + 1,
            ..counts
        },
        ReplyKind::RefusedLine
        | ReplyKind::RefusedTrap(_, _)
        | ReplyKind::RefusedBudget
        | ReplyKind::RefusedUntested => Counts {
            refused: counts.refused + 1,
            ..counts
        },
    }
}

// The counts with one more answer.
fn counted(counts: Counts, answer: &Answer) -> Counts
    requires recorded { counts.recorded < 2 ^ 64 - 1 }
    requires reused { counts.reused < 2 ^ 64 - 1 }
    requires refused { counts.refused < 2 ^ 64 - 1 }
    requires turns { counts.turns + 2 ^ 32 ≤ 2 ^ 64 }
    ensures recorded { result.recorded ≡ counts.recorded + count_by is_recorded (answer.now.kind ∷ []) }
    ensures reused { result.reused ≡ counts.reused + count_by is_reused (answer.now.kind ∷ []) }
    ensures refused { result.refused ≡ counts.refused + count_by is_refused (answer.now.kind ∷ []) }
    ensures turns { result.turns ≡ counts.turns + turns_of answer.now.end }
    ensures few_turns { result.turns < counts.turns + 2 ^ 32 }
    ensures sum { result.sum ≡ sum_from counts.sum (numbers_printed answer.now.output.items) }
{
    let turns = counts.turns + turns_of(answer.end);
    let sum = with_printed(counts.sum, &answer.output);
    let counts = with_kind(counts, answer.kind);
    Counts {
        turns,
        sum,
        ..counts
    }
}

// A line of a word and a number.
fn count_line(alloc: Global, word: &str, count: u64) -> Result<String, AllocError>
    ensures { IfOk result (λ line. string_bytes line ≡ count_line word.now count) }
{
    format!(in alloc; "{word} {count}\n")
}

// The line of the sum.
fn sum_line(alloc: Global, sum: u64) -> Result<String, AllocError>
    ensures { IfOk result (λ line. string_bytes line ≡ sum_line sum) }
{
    let sum = to_signed(Width::W64, sum);
    format!(in alloc; "sum {sum}\n")
}

// Adds a line of a word and a number to a text.
fn add_count(alloc: Global, text: &mut Vec<u8>, word: &str, count: u64) -> Result<(), AllocError>
    ensures { OnOk result (text.new.items ≡ text.old.items ++ count_line word.now count) }
{
    let line = count_line(alloc, word, count)?;
    text.extend_from_slice(line.as_bytes())?;
    Ok(())
}

// The text that tells the counts of a trial.
fn counts_text(alloc: Global, number: u64, counts: Counts) -> Result<Vec<u8>, AllocError>
    ensures { IfOk result (λ text. text.items ≡ counts_text number counts.recorded counts.reused counts.refused counts.turns counts.sum) }
{
    let mut text = Vec::new(alloc);
    add_count(alloc, &mut text, "trial", number)?;
    add_count(alloc, &mut text, "lines", u64::from(TRIAL_LINES))?;
    add_count(alloc, &mut text, "recorded", counts.recorded)?;
    add_count(alloc, &mut text, "reused", counts.reused)?;
    add_count(alloc, &mut text, "refused", counts.refused)?;
    add_count(alloc, &mut text, "turns", counts.turns)?;
    let line = sum_line(alloc, counts.sum)?;
    text.extend_from_slice(line.as_bytes())?;
    Ok(text)
}

/// The text of the trial that a number names, by a session of the program that the runner runs.
pub fn trial<H: Threads + Wait + Sync, R: Runner>(
    rt: &H,
    alloc: Global,
    runner: &mut R,
    number: u64,
) -> Result<Vec<u8>, AllocError>
    requires exact { IsExact R.Entry.meaning }
    requires number { number ≤ TRIAL_LIMIT }
    ensures text { IfOk result (λ text. TrialCounted (admits_by R.Entry.meaning R.Entry.test) (R.runs (R.subject runner.old)) number (R.counts runner.old) (R.counts runner.new) text.items) }
    ensures stays { R.subject runner.new ≡ R.subject runner.old }
{
    let mut cache: Cache<R::Entry> = Cache::new(alloc, CACHE_LIMIT)?;
    let mut counts = Counts {
        recorded: 0,
        reused: 0,
        refused: 0,
        turns: 0,
        sum: 0,
    };
    for i in 0..TRIAL_LINES {
        let input = trial_line(alloc, number, i)?;
        let answer = answer_to(rt, alloc, runner, &mut cache, &input)?;
        counts = counted(counts, &answer);
    }
    counts_text(alloc, number, counts)
}
