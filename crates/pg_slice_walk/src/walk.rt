//! The walk from the end of a run back.

ghost use Rattle.std.specs.Prelude.{◌≡◌, ◌<◌, ◌≤◌, ℕ, suc, Bool, List, Option, true, false, Some, IfOk, IfSome, IfNone, OnOk, length, slice_get, slice_index_or};
ghost use Rattle.pg_slice_back.specs.declared.registers.Counts.{Counts as ACounts};
ghost use Rattle.pg_slice_back.specs.Leaves.{IsLess};
ghost use Rattle.pg_slice_rules.specs.Closed.{AreWithin, IsClosed};
ghost use Rattle.pg_slice_rules.specs.Known.{Reference, Taken};
ghost use Rattle.pg_slice_rules.specs.Moments.{Moment, thread_in};
ghost use Rattle.pg_slice_back.specs.pg_slice_decisions.Steps.{AreOf, left_by, taken_by};
ghost use Rattle.pg_slice_demands.specs.Asked.{asked_of};
ghost use Rattle.pg_slice_back.specs.pg_slice_replay.Kept.{step_count};
ghost use Rattle.pg_slice_back.specs.pg_slice_passes.Given.{AreSteps, EdgesStand};
ghost use Rattle.pg_slice_back.specs.pg_law_demands.Along.{known_at};
ghost use Rattle.pg_slice_walk.specs.Chains.{AreOlder};
ghost use Rattle.pg_slice_walk.specs.Words.{AreWordsMet};
ghost use Rattle.pg_slice_walk.specs.Sets.{PassesAt, SetsAt};
ghost use Rattle.pg_slice_walk.specs.Settled.{ArePinned, AreSettled};
ghost use Rattle.pg_slice_walk.specs.Walks.{IsTold, Walks, Widens};

use crate::extents::unsettled;
use crate::marks::{no_marks, set_mark};
use crate::words::{back_one, no_words};
use pg_ir::{Program, ThreadNo};
use pg_run_trace::Trace;
use pg_slice_back::pg_slice_decisions::DecisionSet;
use pg_slice_back::pg_slice_replay::ReferenceRun;
use pg_slice_back::{Counts, StepAt, sets_any};
use pg_slice_demands::{Call, Demanded};
use pg_slice_rules::Decision;
use std::alloc::{AllocError, Global};

/// A run that is gone back over: its program, its steps and its replay; of each step the number behind that of the branch step of
/// the innermost extent that is open before it, as `holders` gives it; and how many registers calls have before each step.
#[derive(Clone, Copy)]
pub struct Walk<'a> {
    pub program: &'a Program,
    pub trace: &'a Trace,
    pub reference: &'a ReferenceRun,
    pub holders: &'a [u32],
    pub counts: &'a [Counts],
}

/// How many registers calls have at a step; none where nothing is told of it.
fn counts_at(counts: &[Counts], number: usize) -> Counts
    ensures { (c : ACounts) → slice_get counts.now number ≡ Some c → result ≡ c }
{
    match counts.get(number) {
        Some(count) => *count,
        None => Counts {
            present: 0,
            under: 0,
            threads: 0,
        },
    }
}

/// Nothing is asked any more of a call, and of those that began after it, if a register is asked of it that it hasn't.
fn leave_missing(demanded: &mut Demanded, at: Call, count: usize)
    ensures less { IsLess demanded.old demanded.new }
    ensures there { (i : ℕ) (v : Bool) → asked_of demanded.new at.thread.0 at.depth i ≡ Some v → i < count }
{
    if let Ok(first) = u32::try_from(count) {
        if demanded.register_from(at, first).is_some() {
            demanded.clear_calls(at);
        }
    }
}

/// Settles the extent of a thread's branch step, where the older ones are settled: it is pinned, or nothing has to be known that
/// the extent sets, and nothing is asked any more of calls that began in it. Gives whether this is so.
fn decide(
    demanded: &mut Demanded,
    decisions: &mut DecisionSet,
    walk: &Walk,
    thread: ThreadNo,
    b: usize,
) -> bool
    requires { (n : ℕ) × AreOf n decisions.old × (b < n) }
    ensures size { (n : ℕ) → AreOf n decisions.old → AreOf n decisions.new }
    ensures kept { AreWithin (taken_by decisions.old) (taken_by decisions.new) }
    ensures left { left_by decisions.new ≤ left_by decisions.old }
    ensures less { IsLess demanded.old demanded.new }
    ensures pinned { result ≡ false → (taken_by decisions.new).pinned b ≡ true }
    ensures owed { (e : Taken) → ((c : ACounts) → slice_get walk.now.counts.now b ≡ Some c → SetsAt walk.now.reference.now b thread.0 c.present demanded.old → e.pinned b ≡ true)
        → ((c : ACounts) × (slice_get walk.now.counts.now b ≡ Some c)) → AreWithin (taken_by decisions.old) e → AreWithin (taken_by decisions.new) e }
    ensures passes { result ≡ true → PassesAt walk.now.reference.now b thread.0 demanded.new }
{
    if decisions.is_pinned(b) {
        return false;
    }
    let depth = walk.reference.depth(b);
    let own = counts_at(walk.counts, b);
    let at = Call { thread, depth };
    leave_missing(demanded, at, own.present);
    if sets_any(demanded, walk.reference, at, b, own.present) {
        decisions.take(Decision::Pinned(b));
        return false;
    }
    demanded.clear_above(at);
    true
}

/// Settles the extents that are open before a thread's step, the oldest first, up to the first that is passed over; gives the
/// branch step of that.
fn settle_open(
    alloc: Global,
    demanded: &mut Demanded,
    settled: &mut Vec<bool>,
    decisions: &mut DecisionSet,
    walk: &Walk,
    thread: ThreadNo,
    number: usize,
) -> Result<Option<usize>, AllocError>
    requires older { AreOlder walk.now.holders.now }
    requires size { AreOf (step_count walk.now.reference.now) decisions.old }
    requires number { number < step_count walk.now.reference.now }
    requires settled { AreSettled walk.now.holders.now (taken_by decisions.old) settled.old.items }
    ensures size { OnOk result (AreOf (step_count walk.now.reference.now) decisions.new) }
    ensures left { OnOk result (left_by decisions.new ≤ left_by decisions.old) }
    ensures settled { OnOk result (AreSettled walk.now.holders.now (taken_by decisions.new) settled.new.items) }
    ensures live { IfOk result (λ o. IfNone o (ArePinned walk.now.holders.now (taken_by decisions.new) (slice_index_or walk.now.holders.now number 0))) }
    ensures behind { OnOk result ((R : Reference) (e : Taken) (m : Moment) → IsTold R walk.now.reference.now walk.now.holders.now walk.now.counts.now
        → slice_get R.moments number ≡ Some m → thread_in m ≡ thread.0
        → Walks R e (suc number) demanded.old (taken_by decisions.old) → Walks R e (suc number) demanded.new (taken_by decisions.new)) }
    ensures earlier { IfOk result (λ o. IfSome o (λ b. b < number)) }
    ensures passed { IfOk result (λ o. IfSome o (λ b. (R : Reference) (e : Taken) (m : Moment)
        → IsTold R walk.now.reference.now walk.now.holders.now walk.now.counts.now → slice_get R.moments number ≡ Some m → thread_in m ≡ thread.0
        → Walks R e (suc number) demanded.old (taken_by decisions.old) → Walks R e (suc b) demanded.new (taken_by decisions.new))) }
    ensures words { IfOk result (λ o. IfSome o (λ b. (R : Reference) (e : Taken) (m : Moment)
        → IsTold R walk.now.reference.now walk.now.holders.now walk.now.counts.now → slice_get R.moments number ≡ Some m → thread_in m ≡ thread.0
        → (words : List (Option Bool)) → AreWordsMet (known_at R e (suc number)) words → AreWordsMet (known_at R e (suc b)) words)) }
{
    let mut open = unsettled(alloc, walk.holders, settled.as_slice(), number)?;
    while let Some(b) = open.pop() {
        if decide(demanded, decisions, walk, thread, b) {
            return Ok(Some(b));
        }
        set_mark(settled, b);
    }
    Ok(None)
}

/// Goes back over a step, or over the whole of an extent in which it stands; gives how many steps are left. The word of a
/// thread, its argument and then its exit value, has to be known where a start or a join hands on what has to be known.
fn back(
    alloc: Global,
    demanded: &mut Demanded,
    words: &mut Vec<Option<bool>>,
    settled: &mut Vec<bool>,
    decisions: &mut DecisionSet,
    walk: &Walk,
    number: usize,
) -> Result<usize, AllocError>
    requires edges { EdgesStand walk.now.program.now walk.now.reference.now }
    requires steps { AreSteps walk.now.program.now walk.now.trace.now.steps }
    requires count { step_count walk.now.reference.now ≡ length walk.now.trace.now.steps }
    requires older { AreOlder walk.now.holders.now }
    requires number { number < length walk.now.trace.now.steps }
    requires size { AreOf (length walk.now.trace.now.steps) decisions.old }
    requires settled { AreSettled walk.now.holders.now (taken_by decisions.old) settled.old.items }
    ensures size { OnOk result (AreOf (length walk.now.trace.now.steps) decisions.new) }
    ensures left { OnOk result (left_by decisions.new ≤ left_by decisions.old) }
    ensures settled { OnOk result (AreSettled walk.now.holders.now (taken_by decisions.new) settled.new.items) }
    ensures fewer { IfOk result (λ k. k ≤ number) }
    ensures walks { IfOk result (λ k. (R : Reference) (e : Taken) (m : Moment) → IsTold R walk.now.reference.now walk.now.holders.now walk.now.counts.now
        → R.program ≡ walk.now.program.now → IsClosed R e → slice_get R.moments number ≡ Some m
        → slice_get walk.now.trace.now.steps number ≡ Some m.did.did → AreWordsMet (known_at R e (suc number)) words.old.items
        → Walks R e (suc number) demanded.old (taken_by decisions.old)
        → Walks R e k demanded.new (taken_by decisions.new) × AreWordsMet (known_at R e k) words.new.items) }
{
    let step = walk.trace.step(number);
    let passed = settle_open(
        alloc,
        demanded,
        settled,
        decisions,
        walk,
        step.thread,
        number,
    )?;
    match passed {
        Some(b) => Ok(b + 1),
        None => {
            let instr = walk.program.instr(step.instr);
            let count = counts_at(walk.counts, number);
            let s = StepAt {
                program: walk.program,
                reference: walk.reference,
                instr,
                step: &step,
                counts: count,
                number,
            };
            back_one(alloc, demanded, words, decisions, &s)?;
            Ok(number)
        }
    }
}

/// Takes decisions that each closed set above the present ones has: those that it takes for what has to be known along the run,
/// from its end back. The extent of a branch step that needn't be pinned is passed over.
///
/// # Errors
///
/// Where no memory is left.
pub fn widen(alloc: Global, walk: &Walk, decisions: &mut DecisionSet) -> Result<(), AllocError>
    requires edges { EdgesStand walk.now.program.now walk.now.reference.now }
    requires steps { AreSteps walk.now.program.now walk.now.trace.now.steps }
    requires count { step_count walk.now.reference.now ≡ length walk.now.trace.now.steps }
    requires older { AreOlder walk.now.holders.now }
    requires size { AreOf (length walk.now.trace.now.steps) decisions.old }
    ensures size { OnOk result (AreOf (length walk.now.trace.now.steps) decisions.new) }
    ensures left { OnOk result (left_by decisions.new ≤ left_by decisions.old) }
    ensures widens { OnOk result (Widens walk.now.program.now walk.now.reference.now walk.now.holders.now walk.now.counts.now walk.now.trace.now.steps
        (taken_by decisions.old) (taken_by decisions.new)) }
{
    let mut demanded = Demanded::new(alloc);
    let mut words = no_words(alloc)?;
    let mut settled = no_marks(alloc, walk.trace.len())?;
    let mut left = walk.trace.len();
    while left > 0 {
        left = back(
            alloc,
            &mut demanded,
            &mut words,
            &mut settled,
            decisions,
            walk,
            left - 1,
        )?;
    }
    Ok(())
}
