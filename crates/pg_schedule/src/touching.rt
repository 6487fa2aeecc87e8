//! Steps as touches of bytes.

ghost use Rattle.std.specs.Prelude.{◌≡◌, ◌<◌, IfOk, Some, length, map};
ghost use Rattle.pg_schedule.specs.Touching.{AreWithin, IsWithin, beside, touch_for, touch_of};

use crate::interval::{Interval, interval_at};
use crate::touch::Touch;
use pg_run_trace::{Step, Trace};
use std::alloc::{AllocError, Global};

/// The step as a touch with this rank and this need: of the bytes that it accesses, of none where it
/// accesses no memory.
fn touch_of(step: &Step, rank: u64, need: u64) -> Touch
    ensures { result ≡ touch_of step.now rank need }
{
    match step.access() {
        Some(access) => Touch {
            thread: step.thread,
            start: access.start(),
            bytes: access.bytes,
            writes: access.writes,
            rank,
            need,
        },
        None => Touch {
            thread: step.thread,
            start: 0,
            bytes: 0,
            writes: false,
            rank,
            need,
        },
    }
}

/// The way in which a pass goes over the steps.
#[derive(Clone, Copy, Debug, PartialEq, Eq)]
pub(crate) enum Pass {
    Forward,
    Backward,
}

/// The step with this interval, one of these, as a touch for a pass.
fn touch_for(pass: Pass, intervals: &[Interval], step: &Step, interval: Interval) -> Touch
    requires { IsWithin (length intervals.now) interval }
    ensures { result ≡ touch_for pass (length intervals.now) (record { did = step.now; low = interval.low; high = interval.high }) }
{
    let bound = intervals.len() as u64;
    let low = interval.low as u64;
    let high = interval.high as u64;
    match pass {
        Pass::Forward => touch_of(step, high + 1, low),
        Pass::Backward => touch_of(step, bound + 1 - low, bound - high),
    }
}

/// The steps as touches for a pass.
pub(crate) fn touches(
    alloc: Global,
    t: &Trace,
    intervals: &[Interval],
    pass: Pass,
) -> Result<Vec<Touch>, AllocError>
    requires as_many { length intervals.now ≡ length t.now.steps }
    requires within { AreWithin intervals.now }
    ensures { IfOk result (λ v. v.items ≡ map (touch_for pass (length intervals.now)) (beside t.now.steps intervals.now)) }
{
    let mut touches = Vec::with_capacity(alloc, t.len())?;
    for i in 0..t.len() {
        let interval = interval_at(intervals, i);
        touches.push(touch_for(pass, intervals, &t.step(i), interval))?;
    }
    Ok(touches)
}
