//! The interval of each step among the turns.

ghost use Rattle.std.specs.Prelude.{◌≡◌, ◌<◌, IfOk, Some, length, map, slice_get, slice_index_or};
ghost use Rattle.pg_schedule.specs.Intervals.{from_low, intervals_of, view_of};
ghost use Rattle.pg_law_threads.specs.Intervals.{turns_done};
ghost use Rattle.pg_run_trace.specs.Races.{timed_by};

use pg_run_trace::{Step, StepKind, Trace};
use std::alloc::{AllocError, Global};

/// How many threads a step can name.
const THREADS: usize = 256;

/// Which steps count as turns.
#[derive(Clone, Copy, Debug, PartialEq, Eq)]
pub enum Turns {
    /// The events of the trace.
    Recorded,
    /// What its threads ask for: its events other than loads and stores.
    Asked,
}

/// Where a step stands among its thread's turns: `low` is one more than its last turn when it is done, 0
/// where it has none, and `high` its next turn when it is due, the number of turns where it has none.
#[derive(Clone, Copy, Debug, PartialEq, Eq)]
pub struct Interval {
    pub low: usize,
    pub high: usize,
}

/// The interval of the step with this number.
pub fn interval_at(intervals: &[Interval], n: usize) -> Interval
    requires { n < length intervals.now }
    ensures is { slice_get intervals.now n ≡ Some result }
    ensures or_any { result ≡ slice_index_or intervals.now n result }
{
    intervals[n]
}

impl Turns {
    /// Whether the step is a turn.
    fn has(self, step: &Step) -> bool
        ensures { result ≡ (view_of self).is_event step.now }
    {
        match self {
            Turns::Recorded => step.event().is_some(),
            Turns::Asked => matches!(&step.kind, StepKind::Event(_)),
        }
    }
}

/// The steps' last turns, with highs that are still 0, and the number of turns.
fn lows(alloc: Global, t: &Trace, turns: Turns) -> Result<(Vec<Interval>, usize), AllocError>
    ensures { IfOk result (λ r. (r.0.items ≡ map from_low (timed_by (view_of turns) t.now.steps)) × (r.1 ≡ turns_done (view_of turns) 0 t.now.steps)) }
{
    let mut intervals = Vec::with_capacity(alloc, t.len())?;
    let mut last: [usize; THREADS] = [0; THREADS];
    let mut done: usize = 0;
    for i in 0..t.len() {
        let step = t.step(i);
        let thread = step.thread.0 as usize;
        if turns.has(&step) {
            done += 1;
            last[thread] = done;
        }
        intervals.push(Interval {
            low: last[thread],
            high: 0,
        })?;
    }
    Ok((intervals, done))
}

/// The interval of each step of a trace.
///
/// # Errors
///
/// Where no memory is left for them.
pub fn intervals(alloc: Global, t: &Trace, turns: Turns) -> Result<Vec<Interval>, AllocError>
    ensures { IfOk result (λ v. v.items ≡ intervals_of turns t.now.steps) }
{
    let (mut intervals, total) = lows(alloc, t, turns)?;
    let mut next: [usize; THREADS] = [total; THREADS];
    let mut due = total;
    for k in 0..t.len() {
        let i = t.len() - 1 - k;
        let step = t.step(i);
        let thread = step.thread.0 as usize;
        if turns.has(&step) {
            due -= 1;
            next[thread] = due;
        }
        intervals[i].high = next[thread];
    }
    Ok(intervals)
}
