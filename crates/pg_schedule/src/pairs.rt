//! The races of a trace, pair by pair.

ghost use Rattle.std.specs.Prelude.{◌≡◌, ◌<◌, ◌≤◌, ◌==◌, ◌&&◌, ℕ, IfOk, Some, length, max, slice_get};
ghost use Rattle.std.specs.List.{position_from};
ghost use Rattle.pg_schedule.specs.Intervals.{intervals_of};
ghost use Rattle.pg_schedule.specs.declared.interval.Turns.TheVariants as turns;
ghost use Rattle.pg_schedule.specs.Partners.{is_racing_at, partner_of};
ghost use Rattle.pg_run_trace.specs.Races as races;

use crate::interval::{Interval, Turns, intervals};
use crate::unordered::{is_unordered, timed};
use pg_ir::InstrId;
use pg_run_trace::{Race, Step, StepKind, Trace};
use std::alloc::{AllocError, Global};

/// The number of the first step that races with step `i`, if there is one.
fn partner(t: &Trace, intervals: &[Interval], i: usize) -> Option<usize>
    requires within { i < length t.now.steps }
    requires intervals { intervals.now ≡ intervals_of turns.Asked t.now.steps }
    ensures { result ≡ partner_of (races.timed_by races.asked t.now.steps) (slice_get (races.timed_by races.asked t.now.steps) i) }
{
    let x = timed(t, intervals, i);
    for j in 0..t.len() {
        let y = timed(t, intervals, j);
        if is_unordered(&x, &y) {
            return Some(j);
        }
    }
    None
}

/// Whether the step is a load or store of this instruction.
fn is_access_of(step: &Step, id: InstrId) -> bool
    ensures { result ≡ (races.is_access step.now.kind && (step.now.instr.0 == id.0)) }
{
    matches!(&step.kind, StepKind::Access(_)) && step.instr.0 == id.0
}

/// Whether step `i` is a load or store of this instruction that races.
fn is_racing(t: &Trace, intervals: &[Interval], id: InstrId, i: usize) -> bool
    requires within { i < length t.now.steps }
    requires intervals { intervals.now ≡ intervals_of turns.Asked t.now.steps }
    ensures { result ≡ is_racing_at (races.timed_by races.asked t.now.steps) id.0 (slice_get (races.timed_by races.asked t.now.steps) i) }
{
    let step = t.step(i);
    if is_access_of(&step, id) {
        partner(t, intervals, i).is_some()
    } else {
        false
    }
}

/// The number of the first racing load or store of an instruction, if there is one.
fn first_racing(t: &Trace, intervals: &[Interval], id: InstrId) -> Option<usize>
    requires intervals { intervals.now ≡ intervals_of turns.Asked t.now.steps }
    ensures position { result ≡ position_from (races.is_racing (races.timed_by races.asked t.now.steps) id.0) 0 (races.timed_by races.asked t.now.steps) }
    ensures within { (i : ℕ) → result ≡ Some i → i < length t.now.steps }
{
    for i in 0..t.len() {
        if is_racing(t, intervals, id, i) {
            return Some(i);
        }
    }
    None
}

/// The race of an instruction's access at this step, by the step that it races with, if there is one.
pub(crate) fn race_with(instr: InstrId, step: usize, with: Option<usize>) -> Option<Race>
    ensures { result ≡ races.race_with instr.0 step with }
{
    match with {
        Some(with) => Some(Race { instr, step, with }),
        None => None,
    }
}

/// The race of an instruction with this first racing load or store, if it has one.
fn race_from(t: &Trace, intervals: &[Interval], id: InstrId, first: Option<usize>) -> Option<Race>
    requires intervals { intervals.now ≡ intervals_of turns.Asked t.now.steps }
    requires first { first ≡ position_from (races.is_racing (races.timed_by races.asked t.now.steps) id.0) 0 (races.timed_by races.asked t.now.steps) }
    ensures { result ≡ races.race_in (races.timed_by races.asked t.now.steps) id.0 }
{
    match first {
        Some(step) => race_with(id, step, partner(t, intervals, step)),
        None => None,
    }
}

/// The race of an instruction, if it has a racing load or store.
fn race_in(t: &Trace, intervals: &[Interval], id: InstrId) -> Option<Race>
    requires intervals { intervals.now ≡ intervals_of turns.Asked t.now.steps }
    ensures { result ≡ races.race_in (races.timed_by races.asked t.now.steps) id.0 }
{
    race_from(t, intervals, id, first_racing(t, intervals, id))
}

/// The greater of the two.
fn greater(a: u64, b: u64) -> u64
    ensures { result ≡ max a b }
{
    if a < b { b } else { a }
}

/// One more than the greatest instruction of the steps.
pub(crate) fn instrs_in(t: &Trace) -> u64
    ensures value { result ≡ races.instrs_in t.now.steps }
    ensures bound { result ≤ 4294967296 }
{
    let mut bound: u64 = 0;
    for k in 0..t.len() {
        let step = t.step(t.len() - 1 - k);
        bound = greater(bound, step.instr.0 as u64 + 1);
    }
    bound
}

/// The races of a trace, by comparing each step with all others: ascending by instruction, for each load
/// or store with a racing step the first such step and the first that races with it.
///
/// # Errors
///
/// Where no memory is left for them.
pub fn races_by_pairs(alloc: Global, t: &Trace) -> Result<Vec<Race>, AllocError>
    ensures { IfOk result (λ v. v.items ≡ races.races_of t.now.steps) }
{
    let intervals = intervals(alloc, t, Turns::Asked)?;
    let mut races = Vec::new(alloc);
    for id in 0..instrs_in(t) {
        let id = InstrId(id as u32);
        if let Some(race) = race_in(t, intervals.as_slice(), id) {
            races.push(race)?;
        }
    }
    Ok(races)
}
