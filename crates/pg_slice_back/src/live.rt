//! Back over one step that is live.

ghost use Rattle.std.specs.Prelude.{◌≡◌, ◌<◌, ◌≤◌, ℕ, suc, true, Some, IfSome, IfOk, OnOk};
ghost use Rattle.pg_ir.specs.Program.{NumberedProgram};
ghost use Rattle.pg_run_trace.specs.declared.step.Step.{Step as AStep};
ghost use Rattle.pg_run_trace.specs.declared.step.StepKind.TheVariants as kinds;
ghost use Rattle.pg_slice_rules.specs.Closed.{AreWithin};
ghost use Rattle.pg_slice_rules.specs.Known.{Reference, Taken, has, is_branch};
ghost use Rattle.pg_slice_rules.specs.Moments.{Moment};
ghost use Rattle.pg_slice_passes.specs.pg_slice_decisions.Steps.{AreOf, left_by, step_of, taken_by};
ghost use Rattle.pg_law_demands.specs.Along.{known_at};
ghost use Rattle.pg_slice_passes.specs.pg_slice_replay.Kept.{landmark_at, step_count};
ghost use Rattle.pg_slice_passes.specs.Given.{EdgesStand, is_op};
ghost use Rattle.pg_slice_passes.specs.pg_slice_replay.declared.run.ReferenceRun.{ReferenceRun as AReferenceRun};
ghost use Rattle.pg_slice_back.specs.declared.registers.Counts.{Counts as ACounts};
ghost use Rattle.pg_slice_back.specs.Met.{AreMet};
ghost use Rattle.pg_slice_back.specs.Owed.{IsPinDue};
ghost use Rattle.pg_slice_back.specs.Steps.{IsCallOf, IsLiveStep};

use crate::access::{back_load, back_store, leave_access};
use crate::call::call_of;
use crate::event::back_event;
use crate::operations::{back_op, held};
use crate::own::put_own;
use crate::paths::put_region;
use crate::region::sets_any;
use crate::step::StepAt;
use pg_ir::{Instr, Op};
use pg_run_trace::{Access, StepKind};
use pg_slice_demands::{Call, Demanded};
use pg_slice_passes::pg_slice_decisions::DecisionSet;
use pg_slice_passes::pg_slice_replay::ReferenceRun;
use pg_slice_rules::Decision;
use std::alloc::{AllocError, Global};

/// Back over a load or a store. Gives the decision that this needs.
fn back_access(
    demanded: &mut Demanded,
    at: Call,
    instr: &Instr,
    a: Access,
    count: usize,
    number: usize,
) -> Result<Option<Decision>, AllocError>
    ensures step { IfOk result (λ o. IfSome o (λ z. step_of z ≡ number)) }
    ensures back { IfOk result (λ o. (R : Reference) (e : Taken) (p : NumberedProgram) (r : AReferenceRun) (step : AStep) (counts : ACounts) (m : Moment)
        → IsLiveStep R e p r instr.now step counts number m → IsCallOf m at
        → step.kind ≡ kinds.Access a → counts.present ≡ count → AreMet (known_at R e (suc number)) demanded.old
        → AreMet (known_at R e number) demanded.new × IfSome o (λ z. has e z ≡ true)) }
{
    match &instr.op {
        Op::Load { .. } => back_load(demanded, at, held(instr.result, count), a, number),
        Op::Store { value, .. } => back_store(demanded, at, *value, a, number),
        _ => {
            leave_access(demanded, at, instr.result, a);
            Ok(None)
        }
    }
}

/// That a branch step is pinned, where it isn't freeable, and where something has to be known that its region may set.
fn pin_due(
    demanded: &Demanded,
    reference: &ReferenceRun,
    at: Call,
    number: usize,
    count: usize,
) -> Option<Decision>
    ensures step { IfSome result (λ z. step_of z ≡ number) }
    ensures due { IfSome (landmark_at reference.now number) (λ l. IfSome result (λ z. IsPinDue l.region number at.thread.0 at.depth count demanded.now z)) }
{
    if !reference.is_free(number) || sets_any(demanded, reference, at, number, count) {
        Some(Decision::Pinned(number))
    } else {
        None
    }
}

/// Back over a branch. Gives the decision that this needs.
fn back_branch(
    alloc: Global,
    demanded: &mut Demanded,
    at: Call,
    s: &StepAt,
) -> Result<Option<Decision>, AllocError>
    requires number { s.now.number < step_count s.now.reference.now }
    requires edges { EdgesStand s.now.program.now s.now.reference.now }
    ensures step { IfOk result (λ o. IfSome o (λ z. step_of z ≡ s.now.number)) }
    ensures back { IfOk result (λ o. (R : Reference) (e : Taken) (step : AStep) (m : Moment)
        → IsLiveStep R e s.now.program.now s.now.reference.now s.now.instr.now step s.now.counts s.now.number m → IsCallOf m at
        → is_branch step.kind ≡ true → AreMet (known_at R e (suc s.now.number)) demanded.old → AreMet (known_at R e s.now.number) demanded.new × IfSome o (λ z. has e z ≡ true)) }
{
    let due = pin_due(demanded, s.reference, at, s.number, s.counts.present);
    back_op(alloc, demanded, at, s)?;
    Ok(due)
}

/// Back over a step that is no branch, no access and no event. It needs no decision.
fn back_plain(
    alloc: Global,
    demanded: &mut Demanded,
    at: Call,
    s: &StepAt,
) -> Result<Option<Decision>, AllocError>
    requires number { s.now.number < step_count s.now.reference.now }
    requires edges { EdgesStand s.now.program.now s.now.reference.now }
    ensures step { IfOk result (λ o. IfSome o (λ z. step_of z ≡ s.now.number)) }
    ensures back { IfOk result (λ o. (R : Reference) (e : Taken) (step : AStep) (m : Moment)
        → IsLiveStep R e s.now.program.now s.now.reference.now s.now.instr.now step s.now.counts s.now.number m → IsCallOf m at
        → is_op step.kind ≡ true → AreMet (known_at R e (suc s.now.number)) demanded.old → AreMet (known_at R e s.now.number) demanded.new × IfSome o (λ z. has e z ≡ true)) }
{
    back_op(alloc, demanded, at, s)?;
    Ok(None)
}

/// Back over a live step, but for what it asks by itself. Gives the decision that this needs.
fn back_step(
    alloc: Global,
    demanded: &mut Demanded,
    at: Call,
    s: &StepAt,
) -> Result<Option<Decision>, AllocError>
    requires number { s.now.number < step_count s.now.reference.now }
    requires edges { EdgesStand s.now.program.now s.now.reference.now }
    ensures step { IfOk result (λ o. IfSome o (λ z. step_of z ≡ s.now.number)) }
    ensures back { IfOk result (λ o. (R : Reference) (e : Taken) (m : Moment)
        → IsLiveStep R e s.now.program.now s.now.reference.now s.now.instr.now s.now.step.now s.now.counts s.now.number m → IsCallOf m at
        → AreMet (known_at R e (suc s.now.number)) demanded.old → AreMet (known_at R e s.now.number) demanded.new × IfSome o (λ z. has e z ≡ true)) }
{
    match &s.step.kind {
        StepKind::Access(a) => back_access(demanded, at, s.instr, *a, s.counts.present, s.number),
        StepKind::Event(e) => {
            back_event(demanded, at, s.instr, e, s.counts.present)?;
            Ok(None)
        }
        StepKind::Branch { .. } => back_branch(alloc, demanded, at, s),
        StepKind::Allocation { .. } => back_plain(alloc, demanded, at, s),
        StepKind::Other => back_plain(alloc, demanded, at, s),
    }
}

/// Takes a decision that there may be.
fn take_due(decisions: &mut DecisionSet, due: Option<Decision>)
    requires { IfSome due (λ z. (k : ℕ) × AreOf k decisions.old × (step_of z < k)) }
    ensures size { (k : ℕ) → AreOf k decisions.old → AreOf k decisions.new }
    ensures kept { AreWithin (taken_by decisions.old) (taken_by decisions.new) }
    ensures less { left_by decisions.new ≤ left_by decisions.old }
    ensures within { (e : Taken) → IfSome due (λ z. has e z ≡ true) → AreWithin (taken_by decisions.old) e → AreWithin (taken_by decisions.new) e }
{
    if let Some(x) = due {
        decisions.take(x);
    }
}

/// Goes back over a live step: what has to be known behind it makes what has to be known before it, and the decisions that this
/// needs are taken. Each closed set that contains the decisions of before has those of after; what has to be known is known under
/// each of these.
///
/// # Errors
///
/// Where no memory is left. Nothing is said of what has to be known then.
pub fn back_live(
    alloc: Global,
    demanded: &mut Demanded,
    decisions: &mut DecisionSet,
    s: &StepAt,
) -> Result<(), AllocError>
    requires number { s.now.number < step_count s.now.reference.now }
    requires edges { EdgesStand s.now.program.now s.now.reference.now }
    requires size { (k : ℕ) × AreOf k decisions.old × (s.now.number < k) }
    ensures size { (k : ℕ) → AreOf k decisions.old → AreOf k decisions.new }
    ensures kept { AreWithin (taken_by decisions.old) (taken_by decisions.new) }
    ensures less { left_by decisions.new ≤ left_by decisions.old }
    ensures back { OnOk result ((R : Reference) (e : Taken) (m : Moment) → IsLiveStep R e s.now.program.now s.now.reference.now s.now.instr.now s.now.step.now s.now.counts s.now.number m
        → AreWithin (taken_by decisions.old) e
        → AreMet (known_at R e (suc s.now.number)) demanded.old → AreMet (known_at R e s.now.number) demanded.new × AreWithin (taken_by decisions.new) e) }
{
    let at = call_of(s.reference, s.step, s.number);
    let due = back_step(alloc, demanded, at, s)?;
    take_due(decisions, due);
    put_own(demanded, decisions, at, s.instr, &s.step.kind, s.number)?;
    put_region(demanded, s.reference, at, s.number)?;
    Ok(())
}
