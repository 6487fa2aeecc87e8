//! The schedule of a trace.

ghost use Rattle.std.specs.Prelude.{◌≡◌, IfOk, List, map};
ghost use Rattle.std.specs.List.{filter_map};
ghost use Rattle.pg_run_trace.specs.declared.step.Step.{Step};
ghost use Rattle.pg_run_trace.specs.declared.turn.Race.{Race};
ghost use Rattle.pg_run_trace.specs.Races.{reply_in, schedule_by, with_gated};
ghost use Rattle.pg_run_trace.specs.Steps.{events};

use crate::gates;
use pg_ir::InstrId;
use pg_run_trace::{InstrIds, Race, Replies, Schedule, Trace, Turn, Turns};
use std::alloc::{AllocError, Global};

/// The events of a trace where these loads and stores are events, as turns.
fn turns(alloc: Global, t: &Trace, gated: &[InstrId]) -> Result<Vec<Turn>, AllocError>
    ensures { IfOk result (λ v. v.items ≡ events (map (with_gated gated.now) t.now.steps)) }
{
    let mut turns = Vec::new(alloc);
    for i in 0..t.len() {
        let step = gates::with_gated(gated, t.step(i));
        if let Some(turn) = step.event() {
            turns.push(turn)?;
        }
    }
    Ok(turns)
}

/// The replies at these events.
fn replies(alloc: Global, t: &Trace, gated: &[InstrId]) -> Result<Vec<u64>, AllocError>
    ensures { IfOk result (λ v. v.items ≡ filter_map (λ (x : Step). reply_in x.kind) (map (with_gated gated.now) t.now.steps)) }
{
    let mut replies = Vec::new(alloc);
    for i in 0..t.len() {
        let step = gates::with_gated(gated, t.step(i));
        if let Some(reply) = gates::reply_in(&step) {
            replies.push(reply)?;
        }
    }
    Ok(replies)
}

/// The schedule of a trace with these races: the loads and stores of their instructions are events beside
/// those that are recorded; the turns are all events in order, with the number that the pthread call of
/// each returned, 0 where it returned none.
///
/// # Errors
///
/// Where no memory is left for it.
pub fn hybrid(alloc: Global, t: &Trace, races: &[Race]) -> Result<Schedule, AllocError>
    ensures { IfOk result (λ s. s ≡ schedule_by (map (λ (r : Race). r.instr) races.now) t.now.steps) }
{
    let gated = gates::instrs_of(alloc, races)?;
    let turns = turns(alloc, t, gated.as_slice())?;
    let replies = replies(alloc, t, gated.as_slice())?;
    Ok(Schedule {
        turns: Turns::from_vec(turns),
        replies: Replies::from_vec(replies),
        gated: InstrIds::from_vec(gated),
    })
}
