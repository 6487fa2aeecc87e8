//! How many turns the schedule of a trace has.

ghost use Rattle.std.specs.Prelude.{◌≡◌, ◌==◌, IfOk, IfSome, [], is_some, length, map, not, true};
ghost use Rattle.std.specs.List.{list_all};
ghost use Rattle.pg_session_book.specs.pg_run_trace.declared.turn.Race.{Race as ARace};
ghost use Rattle.pg_session_book.specs.pg_run_trace.Races.{schedule_of, with_gated};
ghost use Rattle.pg_session_book.specs.pg_run_trace.Steps.{event_of, events};
ghost use Rattle.pg_session_book.specs.pg_run_trace.declared.step.Step.{Step as AStep};

use pg_ir::{InstrId, Program};
use pg_schedule::races;
use pg_session_book::pg_run::Gated;
use pg_session_book::pg_run_trace::{Race, Step, StepKind, Trace};
use std::alloc::{AllocError, Global};

/// The instructions of these races.
fn instrs_of(alloc: Global, races: &[Race]) -> Result<Vec<InstrId>, AllocError>
    ensures { IfOk result (λ v. v.items ≡ map (λ (r : ARace). r.instr) races.now) }
{
    let mut ids = Vec::new(alloc);
    for race in races {
        ids.push(race.instr)?;
    }
    Ok(ids)
}

/// Whether a step is a turn where these loads and stores are events: another event, or one of those.
fn is_turn(step: &Step, gated: &Gated) -> bool
    ensures { result ≡ is_some (event_of (with_gated gated.now step.now)) }
{
    match step.kind {
        StepKind::Event(_) => true,
        StepKind::Access(_) => gated.has(step.instr),
        _ => false,
    }
}

/// Whether a step is a turn where no loads and stores are events.
fn is_event(step: &Step) -> bool
    ensures { result ≡ is_some (event_of (with_gated [] step.now)) }
{
    match step.kind {
        StepKind::Event(_) => true,
        _ => false,
    }
}

/// Whether a step is another thread's than main's.
fn is_of_another(step: &Step) -> bool
    ensures { result ≡ not (step.now.thread.0 == 0) }
{
    step.thread.0 != 0
}

/// How many events a trace has that is main's alone, which has no races; none where a step is another thread's.
fn turns_of_main(trace: &Trace) -> Option<usize>
    ensures alone { IfSome result (λ n. list_all (λ (x : AStep). x.thread.0 == 0) trace.now.steps ≡ true) }
    ensures count { IfSome result (λ n. n ≡ length (events (map (with_gated []) trace.now.steps))) }
{
    let mut count = 0;
    for i in 0..trace.len() {
        let step = trace.step(i);
        if is_of_another(&step) {
            return None;
        }
        if is_event(&step) {
            count += 1;
        }
    }
    Some(count)
}

/// How many events a trace has where these loads and stores are events.
fn count_turns(trace: &Trace, gated: &Gated) -> usize
    ensures { result ≡ length (events (map (with_gated gated.now) trace.now.steps)) }
{
    let mut count = 0;
    for i in 0..trace.len() {
        if is_turn(&trace.step(i), gated) {
            count += 1;
        }
    }
    count
}

/// How many turns the schedule of a trace has with these races.
fn count_with(
    alloc: Global,
    program: &Program,
    trace: &Trace,
    races: &[Race],
) -> Result<usize, AllocError>
    ensures { IfOk result (λ n. n ≡ length (events (map (with_gated (map (λ (r : ARace). r.instr) races.now)) trace.now.steps))) }
{
    let ids = instrs_of(alloc, races)?;
    let gated = Gated::new(alloc, program, ids.as_slice())?;
    Ok(count_turns(trace, &gated))
}

/// How many turns the schedule of a trace of a program has. They are counted and not listed, in one pass, which asks
/// of each load and store whether its instruction is marked.
///
/// # Errors
///
/// Where no memory is left for the races and the marks.
#[tactic(auto, using(crate::proofs::TurnsCounted::of_main))]
pub(crate) fn turn_count(
    alloc: Global,
    program: &Program,
    trace: &Trace,
) -> Result<usize, AllocError>
    ensures { IfOk result (λ n. n ≡ length (schedule_of trace.now.steps).turns) }
{
    if let Some(count) = turns_of_main(trace) {
        return Ok(count);
    }
    let races = races(alloc, trace)?;
    let count = count_with(alloc, program, trace, races.as_slice())?;
    Ok(count)
}
