//! What live steps ask by what they are, by their bounds and by those of others: the first rule, the fourth and the fifth.
ghost use Rattle.std.specs.Prelude.{◌≡◌, ◌<◌, ◌≤◌, ℕ, List, true, false, Some, IfOk, OnOk, length, slice_get, slice_index_or};
ghost use Rattle.pg_slice_rules.specs.Known as known;
ghost use Rattle.pg_slice_rules.specs.Known.{Taken};
ghost use Rattle.pg_slice_rules.specs.declared.decision.Decision.TheVariants as variants;
ghost use Rattle.pg_slice_walk.specs.pg_slice_replay.declared.run.ReferenceRun.{ReferenceRun as AReferenceRun};
ghost use Rattle.pg_run_trace.specs.declared.step.Step.{Step as AStep};
ghost use Rattle.pg_slice_rules.specs.Closed.{AreWithin};
ghost use Rattle.pg_slice_decisions.specs.Steps.{AreOf, left_by, step_of, taken_by};
ghost use Rattle.pg_schedule.specs.Intervals.{intervals_of};
ghost use Rattle.pg_schedule.specs.declared.interval.Turns.TheVariants.{Recorded};
ghost use Rattle.pg_slice_walk.specs.pg_slice_replay.Kept.{step_count};
ghost use Rattle.pg_slice.specs.Settled.{AreLive, IsAsked, IsOwed, Widens};
ghost use Rattle.pg_slice_walk.specs.Settled.{ArePinned, AreSettled};

use crate::meetings::{disturbing, is_plain, sharing};
use crate::rivals::Rivals;
use pg_run_trace::{Step, StepKind};
use pg_schedule::Interval;
use pg_slice_decisions::DecisionSet;
use pg_slice_rules::Decision;
use pg_slice_walk::extents::is_settled;
use pg_slice_walk::holders::holder_at;
use pg_slice_walk::marks::{mark_at, no_marks, set_mark};
use pg_slice_walk::pg_slice_passes::GivenRun;
use pg_slice_walk::pg_slice_replay::ReferenceRun;
use std::alloc::{AllocError, Global};

/// What is found along a run: which steps are live, which branch steps are settled, since they and those in whose extents they
/// stand are pinned, and the last steps that may access what lies within given bounds; and whether the run was gone along before,
/// so that these are of the whole run.
#[derive(Drop)]
struct Spread {
    live: Vec<bool>,
    settled: Vec<bool>,
    rivals: Rivals,
    again: bool,
}

/// Whether a step is at a branch.
fn is_branch(step: &Step) -> bool
    ensures { result ≡ known.is_branch step.now.kind }
{
    match &step.kind {
        StepKind::Branch { .. } => true,
        _ => false,
    }
}

/// Behind how many turns a step's thread did its last one; 0 where nothing is told of the step.
fn turn_before(intervals: &[Interval], number: usize) -> usize {
    match intervals.get(number) {
        Some(interval) => interval.low,
        None => 0,
    }
}

/// The first pointer of the accesses of a freeable step's region; 0 where there is none.
fn first_pointer(reference: &ReferenceRun, number: usize) -> u64 {
    match reference.access(number, 0) {
        Some(access) => access.last,
        None => 0,
    }
}

/// Whether the region of a freeable step was noted between the same turns, and is known to be disturbed by none of those that are
/// noted: then it isn't sought again.
fn is_known_apart(rivals: &Rivals, run: &GivenRun, step: &Step, number: usize) -> bool {
    rivals.is_known_apart(
        step.thread,
        step.instr,
        turn_before(run.intervals, number),
        first_pointer(run.r, number),
    )
}

/// Whether the first rule or the fourth asks that a live step is pinned.
fn asks_pin(
    s: &Spread,
    run: &GivenRun,
    holders: &[u32],
    decisions: &DecisionSet,
    step: &Step,
    number: usize,
) -> bool
    requires asked { IsAsked run.now.r.now run.now.intervals.now holders.now run.now.t.now.steps (taken_by decisions.now) s.now.live.items number }
    requires step { slice_get run.now.t.now.steps number ≡ Some step.now }
    ensures { result ≡ true → IsOwed run.now.r.now holders.now run.now.t.now.steps (taken_by decisions.now) (variants.Pinned number) }
{
    if decisions.is_pinned(number) {
        return false;
    }
    if !is_branch(step) {
        return false;
    }
    if !run.r.is_free(number) {
        return true;
    }
    if is_known_apart(&s.rivals, run, step, number) {
        return false;
    }
    match disturbing(&s.rivals, run, s.live.as_slice(), number) {
        Some(rival) => rival < run.t.len(),
        None => false,
    }
}

/// The pointer of a step's access; 0 where it has none.
fn pointer_of(step: &Step) -> u64 {
    match step.access() {
        Some(access) => access.pointer,
        None => 0,
    }
}

/// Whether a step's access writes.
fn is_store(step: &Step) -> bool {
    match step.access() {
        Some(access) => access.writes,
        None => false,
    }
}

/// Whether the fifth rule asks that a live step is exact; it isn't asked along the run for the first time.
fn asks_exact(
    s: &Spread,
    run: &GivenRun,
    holders: &[u32],
    decisions: &DecisionSet,
    step: &Step,
    number: usize,
) -> bool
    requires asked { IsAsked run.now.r.now run.now.intervals.now holders.now run.now.t.now.steps (taken_by decisions.now) s.now.live.items number }
    requires step { slice_get run.now.t.now.steps number ≡ Some step.now }
    ensures { result ≡ true → IsOwed run.now.r.now holders.now run.now.t.now.steps (taken_by decisions.now) (variants.Exact number) }
{
    if !s.again {
        return false;
    }
    if decisions.is_exact(number) {
        return false;
    }
    if !is_plain(step) {
        return false;
    }
    match sharing(
        &s.rivals,
        run.t,
        run.intervals,
        s.live.as_slice(),
        number,
        pointer_of(step),
        is_store(step),
    ) {
        Some(rival) => rival < run.t.len(),
        None => false,
    }
}

/// Takes a decision in this case.
fn take_if(decisions: &mut DecisionSet, steps: usize, asked: bool, decision: Decision)
    requires size { AreOf steps decisions.old }
    requires step { step_of decision < steps }
    ensures size { AreOf steps decisions.new }
    ensures kept { AreWithin (taken_by decisions.old) (taken_by decisions.new) }
    ensures left { left_by decisions.new ≤ left_by decisions.old }
    ensures widens { (r : AReferenceRun) (hs : List ℕ) (xs : List AStep) → (asked ≡ true → IsOwed r hs xs (taken_by decisions.old) decision)
        → Widens r hs xs (taken_by decisions.old) (taken_by decisions.new) }
{
    if asked {
        decisions.take(decision);
    }
}

/// Notes the bounds of the access with this number of a freeable step's region, if there is one.
fn note_one(
    rivals: &mut Rivals,
    step: &Step,
    turn: usize,
    reference: &ReferenceRun,
    number: usize,
    k: usize,
) -> Result<(), AllocError> {
    if let Some(access) = reference.access(number, k) {
        rivals.note(access.last, step.thread, true, access.writes, turn, number)?;
    }
    Ok(())
}

/// Notes the bounds of a freeable step's region, where those of its branch weren't noted between the same turns.
fn note_region(
    rivals: &mut Rivals,
    run: &GivenRun,
    step: &Step,
    turn: usize,
    number: usize,
    pinned: bool,
) -> Result<(), AllocError> {
    let count = run.r.access_count(number);
    if count == 0 {
        return Ok(());
    }
    let first = first_pointer(run.r, number);
    if rivals.is_noted(step.thread, step.instr, turn, first, pinned)? {
        return Ok(());
    }
    for k in 0..count {
        note_one(rivals, step, turn, run.r, number, k)?;
    }
    Ok(())
}

/// Notes the bounds of a step's access, if it has one.
fn note_access(
    rivals: &mut Rivals,
    step: &Step,
    turn: usize,
    number: usize,
) -> Result<(), AllocError> {
    if let Some(access) = step.access() {
        let pointer = access.pointer;
        rivals.note(pointer, step.thread, false, access.writes, turn, number)?;
    }
    Ok(())
}

/// Notes the bounds of a live step, which was known to be live or not, and is pinned or not.
fn note(
    rivals: &mut Rivals,
    run: &GivenRun,
    step: &Step,
    number: usize,
    known: bool,
    pinned: bool,
) -> Result<(), AllocError> {
    let turn = turn_before(run.intervals, number);
    if !known {
        note_access(rivals, step, turn, number)?;
    }
    note_region(rivals, run, step, turn, number, pinned)
}

/// Whether a step is known to be live.
fn is_known(s: &Spread, number: usize) -> bool {
    mark_at(s.live.as_slice(), number)
}

/// A step is live.
fn mark_live(s: &mut Spread, number: usize)
    ensures settled { s.new.settled.items ≡ s.old.settled.items }
    ensures live { (hs : List ℕ) (d : Taken) → ArePinned hs d (slice_index_or hs number 0) → AreLive hs d s.old.live.items → AreLive hs d s.new.live.items }
{
    set_mark(&mut s.live, number);
}

/// A live branch step is settled where it is pinned.
fn mark_settled(s: &mut Spread, decisions: &DecisionSet, number: usize)
    ensures live { s.new.live.items ≡ s.old.live.items }
    ensures settled { (hs : List ℕ) → ArePinned hs (taken_by decisions.now) (slice_index_or hs number 0)
        → AreSettled hs (taken_by decisions.now) s.old.settled.items → AreSettled hs (taken_by decisions.now) s.new.settled.items }
{
    if decisions.is_pinned(number) {
        set_mark(&mut s.settled, number);
    }
}

/// Takes what the rules ask of a live step.
fn take_asked(
    s: &Spread,
    run: &GivenRun,
    holders: &[u32],
    decisions: &mut DecisionSet,
    step: &Step,
    number: usize,
)
    requires asked { IsAsked run.now.r.now run.now.intervals.now holders.now run.now.t.now.steps (taken_by decisions.old) s.now.live.items number }
    requires step { slice_get run.now.t.now.steps number ≡ Some step.now }
    requires size { AreOf (length run.now.t.now.steps) decisions.old }
    ensures size { AreOf (length run.now.t.now.steps) decisions.new }
    ensures kept { AreWithin (taken_by decisions.old) (taken_by decisions.new) }
    ensures left { left_by decisions.new ≤ left_by decisions.old }
    ensures widens { Widens run.now.r.now holders.now run.now.t.now.steps (taken_by decisions.old) (taken_by decisions.new) }
{
    let pin = asks_pin(s, run, holders, decisions, step, number);
    take_if(decisions, run.t.len(), pin, Decision::Pinned(number));
    let exact = asks_exact(s, run, holders, decisions, step, number);
    take_if(decisions, run.t.len(), exact, Decision::Exact(number));
}

/// What the rules ask of a step is taken, where it is live.
fn spread_step(
    s: &mut Spread,
    run: &GivenRun,
    holders: &[u32],
    decisions: &mut DecisionSet,
    number: usize,
) -> Result<(), AllocError>
    requires count { step_count run.now.r.now ≡ length run.now.t.now.steps }
    requires intervals { run.now.intervals.now ≡ intervals_of Recorded run.now.t.now.steps }
    requires number { number < length run.now.t.now.steps }
    requires size { AreOf (length run.now.t.now.steps) decisions.old }
    requires live { AreLive holders.now (taken_by decisions.old) s.old.live.items }
    requires settled { AreSettled holders.now (taken_by decisions.old) s.old.settled.items }
    ensures size { OnOk result (AreOf (length run.now.t.now.steps) decisions.new) }
    ensures live { OnOk result (AreLive holders.now (taken_by decisions.new) s.new.live.items) }
    ensures settled { OnOk result (AreSettled holders.now (taken_by decisions.new) s.new.settled.items) }
    ensures left { OnOk result (left_by decisions.new ≤ left_by decisions.old) }
    ensures widens { OnOk result (Widens run.now.r.now holders.now run.now.t.now.steps (taken_by decisions.old) (taken_by decisions.new)) }
{
    if !is_settled(s.settled.as_slice(), holder_at(holders, number)) {
        return Ok(());
    }
    let step = run.t.step(number);
    let known = is_known(s, number);
    mark_live(s, number);
    take_asked(s, run, holders, decisions, &step, number);
    mark_settled(s, decisions, number);
    let pinned = decisions.is_pinned(number);
    note(&mut s.rivals, run, &step, number, known, pinned)?;
    Ok(())
}

/// All steps, one after another.
fn spread_along(
    s: &mut Spread,
    run: &GivenRun,
    holders: &[u32],
    decisions: &mut DecisionSet,
) -> Result<(), AllocError>
    requires count { step_count run.now.r.now ≡ length run.now.t.now.steps }
    requires intervals { run.now.intervals.now ≡ intervals_of Recorded run.now.t.now.steps }
    requires size { AreOf (length run.now.t.now.steps) decisions.old }
    requires live { AreLive holders.now (taken_by decisions.old) s.old.live.items }
    requires settled { AreSettled holders.now (taken_by decisions.old) s.old.settled.items }
    ensures size { OnOk result (AreOf (length run.now.t.now.steps) decisions.new) }
    ensures live { OnOk result (AreLive holders.now (taken_by decisions.new) s.new.live.items) }
    ensures settled { OnOk result (AreSettled holders.now (taken_by decisions.new) s.new.settled.items) }
    ensures left { OnOk result (left_by decisions.new ≤ left_by decisions.old) }
    ensures widens { OnOk result (Widens run.now.r.now holders.now run.now.t.now.steps (taken_by decisions.old) (taken_by decisions.new)) }
{
    for n in 0..run.t.len() {
        spread_step(s, run, holders, decisions, n)?;
    }
    Ok(())
}

/// Nothing is found so far.
fn start(alloc: Global, steps: usize) -> Result<Spread, AllocError>
    ensures live { IfOk result (λ s. (hs : List ℕ) (d : Taken) → AreLive hs d s.live.items) }
    ensures settled { IfOk result (λ s. (hs : List ℕ) (d : Taken) → AreSettled hs d s.settled.items) }
{
    let live = no_marks(alloc, steps)?;
    let settled = no_marks(alloc, steps)?;
    Ok(Spread {
        live,
        settled,
        rivals: Rivals::new(alloc),
        again: false,
    })
}

/// Takes what the first rule, the fourth and the fifth ask of the steps that are live, and of those that are live then: the
/// second time along the run the steps that may meet one are known.
pub(crate) fn spread_over(
    alloc: Global,
    run: &GivenRun,
    holders: &[u32],
    decisions: &mut DecisionSet,
) -> Result<(), AllocError>
    requires count { step_count run.now.r.now ≡ length run.now.t.now.steps }
    requires intervals { run.now.intervals.now ≡ intervals_of Recorded run.now.t.now.steps }
    requires size { AreOf (length run.now.t.now.steps) decisions.old }
    ensures size { OnOk result (AreOf (length run.now.t.now.steps) decisions.new) }
    ensures left { OnOk result (left_by decisions.new ≤ left_by decisions.old) }
    ensures widens { OnOk result (Widens run.now.r.now holders.now run.now.t.now.steps (taken_by decisions.old) (taken_by decisions.new)) }
{
    let mut s = start(alloc, run.t.len())?;
    spread_along(&mut s, run, holders, decisions)?;
    s.again = true;
    spread_along(&mut s, run, holders, decisions)?;
    Ok(())
}
