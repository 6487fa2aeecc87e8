//! Live steps that disturb a freeable one, or share the access of a load or a store.
ghost use Rattle.std.specs.Prelude.{◌≡◌, ◌<◌, ◌&&◌, true, false, not, nat_lt, IfSome, length, slice_index_or};
ghost use Rattle.pg_slice_rules.specs.Rules as rules;
ghost use Rattle.pg_schedule.specs.Intervals.{intervals_of};
ghost use Rattle.pg_schedule.specs.declared.interval.Turns.TheVariants.{Recorded};
ghost use Rattle.pg_slice_walk.specs.pg_slice_replay.Kept.{step_count};
ghost use Rattle.pg_slice.specs.Settled.{AreTogether, Disturbs, Shares};

use crate::footprints::{accesses_meet, region_meets};
use crate::rivals::{Accessor, Last, Rivals};
use pg_run_trace::{Step, StepKind, Trace};
use pg_schedule::{Interval, interval_at};
use pg_slice_walk::marks::mark_at;
use pg_slice_walk::pg_slice_passes::GivenRun;

/// Whether intervals overlap.
fn overlap(one: Interval, other: Interval) -> bool
    ensures { result ≡ (not (nat_lt one.high other.low) && not (nat_lt other.high one.low)) }
{
    !(one.high < other.low) && !(other.high < one.low)
}

/// Whether two steps are of different threads, in overlapping intervals.
fn are_together(trace: &Trace, intervals: &[Interval], number: usize, other: usize) -> bool
    requires intervals { intervals.now ≡ intervals_of Recorded trace.now.steps }
    requires number { number < length trace.now.steps }
    requires other { other < length trace.now.steps }
    ensures { result ≡ true → AreTogether trace.now.steps number other }
{
    let interval = interval_at(intervals, number);
    let other_interval = interval_at(intervals, other);
    if !overlap(interval, other_interval) {
        return false;
    }
    let step = trace.step(number);
    let other_step = trace.step(other);
    if step.thread.0 == other_step.thread.0 {
        return false;
    }
    true
}

/// Whether a step disturbs a freeable one.
fn disturbs(run: &GivenRun, number: usize, other: usize) -> bool
    requires count { step_count run.now.r.now ≡ length run.now.t.now.steps }
    requires intervals { run.now.intervals.now ≡ intervals_of Recorded run.now.t.now.steps }
    requires number { number < length run.now.t.now.steps }
    requires other { other < length run.now.t.now.steps }
    ensures { result ≡ true → Disturbs run.now.r.now run.now.t.now.steps number other }
{
    if !are_together(run.t, run.intervals, number, other) {
        return false;
    }
    let step = run.t.step(other);
    region_meets(run.r, number, &step, other)
}

/// Whether a step is a load or a store that is no event.
pub(crate) fn is_plain(step: &Step) -> bool
    ensures { result ≡ rules.is_plain step.now.kind }
{
    match &step.kind {
        StepKind::Access(a) => !a.event,
        _ => false,
    }
}

/// Whether a step is a load or a store that is no event and whose bounds meet those of another's access.
fn shares(trace: &Trace, intervals: &[Interval], number: usize, other: usize) -> bool
    requires intervals { intervals.now ≡ intervals_of Recorded trace.now.steps }
    requires number { number < length trace.now.steps }
    requires other { other < length trace.now.steps }
    ensures { result ≡ true → Shares trace.now.steps number other }
{
    if !are_together(trace, intervals, number, other) {
        return false;
    }
    let step = trace.step(number);
    let other_step = trace.step(other);
    if !is_plain(&step) {
        return false;
    }
    accesses_meet(&step, &other_step)
}

/// Whether a step is live and disturbs a freeable one.
fn is_disturbing(run: &GivenRun, live: &[bool], number: usize, other: usize) -> bool
    requires count { step_count run.now.r.now ≡ length run.now.t.now.steps }
    requires intervals { run.now.intervals.now ≡ intervals_of Recorded run.now.t.now.steps }
    requires number { number < length run.now.t.now.steps }
    ensures { result ≡ true → (other < length run.now.t.now.steps) × (slice_index_or live.now other false ≡ true) × Disturbs run.now.r.now run.now.t.now.steps number other }
{
    if other >= run.t.len() {
        return false;
    }
    if !mark_at(live, other) {
        return false;
    }
    disturbs(run, number, other)
}

/// The turn that a step's thread does next; the first where nothing is told of the step.
fn next_turn(intervals: &[Interval], number: usize) -> usize {
    match intervals.get(number) {
        Some(interval) => interval.high,
        None => 0,
    }
}

/// A live step of an accessor that disturbs a freeable one.
fn disturbing_by(
    rivals: &Rivals,
    run: &GivenRun,
    live: &[bool],
    number: usize,
    accessor: &Accessor,
    last: Last,
) -> Option<usize>
    requires count { step_count run.now.r.now ≡ length run.now.t.now.steps }
    requires intervals { run.now.intervals.now ≡ intervals_of Recorded run.now.t.now.steps }
    requires number { number < length run.now.t.now.steps }
    ensures { IfSome result (λ y. (y < length run.now.t.now.steps) × (slice_index_or live.now y false ≡ true) × Disturbs run.now.r.now run.now.t.now.steps number y) }
{
    match rivals.up_to(accessor, last, next_turn(run.intervals, number)) {
        Some(step) => {
            if is_disturbing(run, live, number, step) {
                Some(step)
            } else {
                None
            }
        }
        None => None,
    }
}

/// A live step that may access what begins where a pointer's bounds begin, and that disturbs a freeable one.
fn disturbing_at(
    rivals: &Rivals,
    run: &GivenRun,
    live: &[bool],
    number: usize,
    word: u64,
    writes: bool,
) -> Option<usize>
    requires count { step_count run.now.r.now ≡ length run.now.t.now.steps }
    requires intervals { run.now.intervals.now ≡ intervals_of Recorded run.now.t.now.steps }
    requires number { number < length run.now.t.now.steps }
    ensures { IfSome result (λ y. (y < length run.now.t.now.steps) × (slice_index_or live.now y false ≡ true) × Disturbs run.now.r.now run.now.t.now.steps number y) }
{
    let thread = run.t.step(number).thread;
    for (accessor, last) in rivals.from(word) {
        if !accessor.begins_at(word) {
            return None;
        }
        if !accessor.may_meet(thread, writes) {
            continue;
        }
        if let Some(y) = disturbing_by(rivals, run, live, number, accessor, *last) {
            return Some(y);
        }
    }
    None
}

/// A live step that disturbs a freeable one by the access with this number of its region.
fn disturbing_one(
    rivals: &Rivals,
    run: &GivenRun,
    live: &[bool],
    number: usize,
    k: usize,
) -> Option<usize>
    requires count { step_count run.now.r.now ≡ length run.now.t.now.steps }
    requires intervals { run.now.intervals.now ≡ intervals_of Recorded run.now.t.now.steps }
    requires number { number < length run.now.t.now.steps }
    ensures { IfSome result (λ y. (y < length run.now.t.now.steps) × (slice_index_or live.now y false ≡ true) × Disturbs run.now.r.now run.now.t.now.steps number y) }
{
    match run.r.access(number, k) {
        Some(access) => disturbing_at(rivals, run, live, number, access.last, access.writes),
        None => None,
    }
}

/// A live step that disturbs a freeable one.
pub(crate) fn disturbing(
    rivals: &Rivals,
    run: &GivenRun,
    live: &[bool],
    number: usize,
) -> Option<usize>
    requires count { step_count run.now.r.now ≡ length run.now.t.now.steps }
    requires intervals { run.now.intervals.now ≡ intervals_of Recorded run.now.t.now.steps }
    requires number { number < length run.now.t.now.steps }
    ensures { IfSome result (λ y. (y < length run.now.t.now.steps) × (slice_index_or live.now y false ≡ true) × Disturbs run.now.r.now run.now.t.now.steps number y) }
{
    for k in 0..run.r.access_count(number) {
        if let Some(y) = disturbing_one(rivals, run, live, number, k) {
            return Some(y);
        }
    }
    None
}

/// Whether a step is live and its access meets that of a load or a store that is no event.
fn is_sharing(
    trace: &Trace,
    intervals: &[Interval],
    live: &[bool],
    number: usize,
    other: usize,
) -> bool
    requires intervals { intervals.now ≡ intervals_of Recorded trace.now.steps }
    requires number { number < length trace.now.steps }
    ensures { result ≡ true → (other < length trace.now.steps) × (slice_index_or live.now other false ≡ true) × Shares trace.now.steps number other }
{
    if other >= trace.len() {
        return false;
    }
    if !mark_at(live, other) {
        return false;
    }
    shares(trace, intervals, number, other)
}

/// A live step of an accessor whose access meets that of a load or a store that is no event.
fn sharing_by(
    rivals: &Rivals,
    trace: &Trace,
    intervals: &[Interval],
    live: &[bool],
    number: usize,
    accessor: &Accessor,
    last: Last,
) -> Option<usize>
    requires intervals { intervals.now ≡ intervals_of Recorded trace.now.steps }
    requires number { number < length trace.now.steps }
    ensures { IfSome result (λ y. (y < length trace.now.steps) × (slice_index_or live.now y false ≡ true) × Shares trace.now.steps number y) }
{
    match rivals.up_to(accessor, last, next_turn(intervals, number)) {
        Some(step) => {
            if is_sharing(trace, intervals, live, number, step) {
                Some(step)
            } else {
                None
            }
        }
        None => None,
    }
}

/// A live step whose access meets that of a load or a store that is no event.
pub(crate) fn sharing(
    rivals: &Rivals,
    trace: &Trace,
    intervals: &[Interval],
    live: &[bool],
    number: usize,
    word: u64,
    writes: bool,
) -> Option<usize>
    requires intervals { intervals.now ≡ intervals_of Recorded trace.now.steps }
    requires number { number < length trace.now.steps }
    ensures { IfSome result (λ y. (y < length trace.now.steps) × (slice_index_or live.now y false ≡ true) × Shares trace.now.steps number y) }
{
    let thread = trace.step(number).thread;
    for (accessor, last) in rivals.from(word) {
        if !accessor.begins_at(word) {
            return None;
        }
        if !accessor.is_own() || !accessor.may_meet(thread, writes) {
            continue;
        }
        if let Some(y) = sharing_by(rivals, trace, intervals, live, number, accessor, *last) {
            return Some(y);
        }
    }
    None
}
