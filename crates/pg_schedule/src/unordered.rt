//! Whether two steps race.

ghost use Rattle.std.specs.Prelude.{◌≡◌, ◌<◌, Some, length, slice_get};
ghost use Rattle.pg_schedule.specs.Intervals.{intervals_of, view_of};
ghost use Rattle.pg_schedule.specs.declared.interval.Turns.{Turns};
ghost use Rattle.pg_run_trace.specs.Races.{timed_by};
ghost use Rattle.pg_run_trace.specs.Races as races;
ghost use Rattle.pg_schedule.specs.Unordered.{timed_of};

use crate::interval::Interval;
use pg_run_trace::{Access, Step, Trace};

/// Whether the bytes of the two accesses have one in common, and one of them writes.
fn accesses_conflict(a: Access, b: Access) -> bool
    ensures { result ≡ races.accesses_conflict (Some a) (Some b) }
{
    let from = a.start().max(b.start());
    (a.writes || b.writes)
        && from < a.start() + u32::from(a.bytes)
        && from < b.start() + u32::from(b.bytes)
}

/// Whether the steps are of different threads, both access memory, their bytes meet and one writes.
pub fn conflict(x: &Step, y: &Step) -> bool
    ensures { result ≡ races.conflict x.now y.now }
{
    match (x.access(), y.access()) {
        (Some(a), Some(b)) => x.thread.0 != y.thread.0 && accesses_conflict(a, b),
        _ => false,
    }
}

/// A step of a trace with its interval.
#[derive(Clone, Copy)]
pub struct TimedStep {
    pub step: Step,
    pub interval: Interval,
}

/// The step with this number, beside its interval.
pub fn timed(t: &Trace, intervals: &[Interval], i: usize) -> TimedStep
    requires within { i < length t.now.steps }
    requires as_many { length intervals.now ≡ length t.now.steps }
    ensures { (turns : Turns) → intervals.now ≡ intervals_of turns t.now.steps → slice_get (timed_by (view_of turns) t.now.steps) i ≡ Some (timed_of result) }
{
    TimedStep {
        step: t.step(i),
        interval: intervals[i],
    }
}

/// Whether the steps conflict, and nothing orders them.
pub fn is_unordered(x: &TimedStep, y: &TimedStep) -> bool
    ensures { result ≡ races.is_unordered (timed_of x.now) (timed_of y.now) }
{
    conflict(&x.step, &y.step)
        && x.interval.high >= y.interval.low
        && y.interval.high >= x.interval.low
}
