//! Whether all that conflicts is ordered.

ghost use Rattle.std.specs.Prelude.{◌≡◌, ◌<◌, IfOk, Some, length, slice_get};
ghost use Rattle.pg_schedule.specs.Intervals.{intervals_of};
ghost use Rattle.pg_schedule.specs.declared.interval.Turns.TheVariants as turns;
ghost use Rattle.pg_schedule.specs.Firsts.{before_of};
ghost use Rattle.pg_schedule.specs.Partners.{earlier_of};
ghost use Rattle.pg_run_trace.specs.Races as races;

use crate::answered::answered_before;
use crate::firsts::mark_at;
use crate::interval::{Interval, Turns, intervals};
use crate::touching::{Pass, touches};
use crate::unordered::{is_unordered, timed};
use pg_run_trace::Trace;
use std::alloc::{AllocError, Global};

/// The number of the first step before step `j` that is unordered with it, if there is one.
fn earlier(t: &Trace, intervals: &[Interval], j: usize) -> Option<usize>
    requires within { j < length t.now.steps }
    requires intervals { intervals.now ≡ intervals_of turns.Recorded t.now.steps }
    ensures { result ≡ earlier_of (races.timed_by races.recorded t.now.steps) j (slice_get (races.timed_by races.recorded t.now.steps) j) }
{
    let y = timed(t, intervals, j);
    for i in 0..j {
        let x = timed(t, intervals, i);
        if is_unordered(&x, &y) {
            return Some(i);
        }
    }
    None
}

/// The first two steps that are unordered, where these marks say which steps are unordered with one
/// before them.
fn first_pair(t: &Trace, intervals: &[Interval], before: &[bool]) -> Option<(usize, usize)>
    requires intervals { intervals.now ≡ intervals_of turns.Recorded t.now.steps }
    requires before { before.now ≡ before_of (races.timed_by races.recorded t.now.steps) }
    ensures { result ≡ races.first_unordered t.now.steps }
{
    for j in 0..t.len() {
        if mark_at(before, j) {
            if let Some(i) = earlier(t, intervals, j) {
                return Some((i, j));
            }
        }
    }
    None
}

/// The first two steps of a trace that conflict and aren't ordered along its events: first by the later
/// and then by the earlier step. None where the trace is ordered.
///
/// # Errors
///
/// Where no memory is left for the search.
pub fn is_ordered(alloc: Global, t: &Trace) -> Result<Option<(usize, usize)>, AllocError>
    ensures { IfOk result (λ p. p ≡ races.first_unordered t.now.steps) }
{
    let intervals = intervals(alloc, t, Turns::Recorded)?;
    let touches = touches(alloc, t, intervals.as_slice(), Pass::Forward)?;
    let before = answered_before(alloc, touches.as_slice())?;
    Ok(first_pair(t, intervals.as_slice(), before.as_slice()))
}
