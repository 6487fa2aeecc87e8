//! The slice of a reference run, by passes.

ghost use Rattle.std.specs.Prelude.{◌≡◌, ◌<◌, ◌⊎◌, ◌||◌, Contains, Some, false, true, length, slice_get, IfOk};
ghost use Rattle.pg_slice_rules.specs.declared.decision.Decision.{Decision as ADecision};
ghost use Rattle.pg_slice_rules.specs.Known.{has};
ghost use Rattle.pg_slice_rules.specs.Sets.{taken};
ghost use Rattle.pg_slice_decisions.specs.Marks.{members_from};
ghost use Rattle.pg_slice_decisions.specs.Steps.{AreOf, left_by, step_of, taken_by};
ghost use Rattle.pg_slice_passes.specs.Given.{AreGiven};
ghost use Rattle.pg_slice_passes.specs.Sliced.{IsSliceOf};

use crate::given::GivenRun;
use crate::pass::pass_over;
use pg_num::either;
use pg_precondition::Precondition;
use pg_slice_decisions::DecisionSet;
use pg_slice_rules::{Decision, Decisions};
use std::alloc::{AllocError, Global};

/// The slice of a reference run, and what an input must give so that it serves.
#[derive(Drop)]
pub struct Slice {
    pub decisions: Decisions,
    pub precondition: Precondition,
}

/// The step that a decision fixes.
fn step_of(x: Decision) -> usize
    ensures { result ≡ step_of x }
{
    match x {
        Decision::Pinned(n) => n,
        Decision::Exact(n) => n,
    }
}

/// Takes a decision on one of the first so many steps, and gives whether it wasn't taken.
fn take_one(d: &mut DecisionSet, steps: usize, x: Decision) -> bool
    requires { AreOf steps d.old }
    ensures size { AreOf steps d.new }
    ensures taken { step_of x < steps → has (taken_by d.new) x ≡ true }
    ensures kept { (y : ADecision) → has (taken_by d.old) y ≡ true → has (taken_by d.new) y ≡ true }
    ensures only { (y : ADecision) → has (taken_by d.new) y ≡ true → (has (taken_by d.old) y ≡ true) ⊎ (x ≡ y) }
    ensures same { result ≡ false → d.new ≡ d.old }
    ensures less { result ≡ true → left_by d.new < left_by d.old }
{
    if step_of(x) >= steps || d.has(x) {
        return false;
    }
    d.take(x);
    true
}

/// The decision with this number.
fn decision_at(missing: &[Decision], i: usize) -> Decision
    requires { i < length missing.now }
    ensures { slice_get missing.now i ≡ Some result }
{
    missing[i]
}

/// Takes those decisions on the first so many steps that aren't taken, and gives whether there were such.
pub fn take_new(d: &mut DecisionSet, steps: usize, missing: &[Decision]) -> bool
    requires { AreOf steps d.old }
    ensures size { AreOf steps d.new }
    ensures taken { (x : ADecision) → Contains missing.now x → step_of x < steps → has (taken_by d.new) x ≡ true }
    ensures kept { (y : ADecision) → has (taken_by d.old) y ≡ true → has (taken_by d.new) y ≡ true }
    ensures only { (y : ADecision) → has (taken_by d.new) y ≡ true → (has (taken_by d.old) y ≡ true) ⊎ Contains missing.now y }
    ensures same { result ≡ false → d.new ≡ d.old }
    ensures less { result ≡ true → left_by d.new < left_by d.old }
{
    let mut any = false;
    for i in 0..missing.len() {
        let took = take_one(d, steps, decision_at(missing, i));
        any = either(took, any);
    }
    any
}

/// The decisions that are taken, with what an input must give.
///
/// # Errors
///
/// Where no memory is left.
pub fn sliced(
    alloc: Global,
    d: &DecisionSet,
    precondition: Precondition,
) -> Result<Slice, AllocError>
    ensures same { IfOk result (λ s. (x : ADecision) → has (taken s.decisions.pinned.items s.decisions.exact.items) x ≡ has (taken_by d.now) x) }
    ensures lists { IfOk result (λ s. (s.decisions.pinned.items ≡ members_from 0 d.now.pinned.items) × (s.decisions.exact.items ≡ members_from 0 d.now.exact.items)) }
    ensures precondition { IfOk result (λ s. s.precondition ≡ precondition) }
{
    let decisions = d.decisions(alloc)?;
    Ok(Slice {
        decisions,
        precondition,
    })
}

/// The slice of a reference run: from no decisions on, what a pass misses is taken in, until nothing is missing that isn't
/// taken. Of a run no decision is missing that is taken.
///
/// # Errors
///
/// Where no memory is left.
pub fn slice_by_passes(alloc: Global, run: &GivenRun) -> Result<Slice, AllocError>
    requires given { AreGiven run.now.p.now run.now.t.now.steps run.now.intervals.now run.now.r.now }
    ensures { IfOk result (IsSliceOf run.now.p.now run.now.t.now.steps run.now.r.now) }
{
    let steps = run.t.len();
    let mut d = DecisionSet::none(alloc, steps)?;
    loop {
        let passed = pass_over(alloc, run, &d)?;
        if !take_new(&mut d, steps, passed.missing.as_slice()) {
            return sliced(alloc, &d, passed.precondition);
        }
    }
}
