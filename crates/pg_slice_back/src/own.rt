//! What a live step asks by itself under the decisions that are taken.

ghost use Rattle.std.specs.Prelude.{◌≡◌, ◌||◌, true, Some, IfSome, OnOk, slice_get};
ghost use Rattle.std.specs.List.{AllByRecursion};
ghost use Rattle.pg_run_thread.specs.Operands.{operands_of};
ghost use Rattle.pg_slice_rules.specs.Known.{SymbolicState, Seen};
ghost use Rattle.pg_slice_rules.specs.Moments.{thread_in};
ghost use Rattle.pg_slice_rules.specs.Rules.{address_index};
ghost use Rattle.pg_slice_passes.specs.pg_slice_decisions.Steps.{taken_by};
ghost use Rattle.pg_law_least.specs.Keeps.{depth_of};
ghost use Rattle.pg_law_demands.specs.Cells.{IsMet};
ghost use Rattle.pg_law_demands.specs.Back.{of_operand};
ghost use Rattle.pg_law_demands.specs.Demands.{kind_demands};
ghost use Rattle.pg_slice_back.specs.Met.{AreMet};

use crate::arguments::{put_event, put_size};
use crate::moves::put_optional;
use pg_ir::{Instr, Op, Value};
use pg_run_trace::StepKind;
use pg_slice_demands::{Call, Demanded};
use pg_slice_passes::pg_slice_decisions::DecisionSet;
use std::alloc::AllocError;

/// The operand on which a branch rests.
fn condition(op: &Op) -> Option<Value>
    ensures { IfSome result (λ v. slice_get (operands_of op.now) 0 ≡ Some v) }
{
    match op {
        Op::CondBr { cond, .. } => Some(*cond),
        Op::Switch { on, .. } => Some(*on),
        _ => None,
    }
}

/// The address of a load or a store.
fn address(op: &Op) -> Option<Value>
    ensures { IfSome result (λ v. slice_get (operands_of op.now) (address_index op.now) ≡ Some v) }
{
    match op {
        Op::Load { from, .. } => Some(*from),
        Op::Store { at, .. } => Some(*at),
        _ => None,
    }
}

/// The condition of a branch has to be known, where it is pinned.
fn put_condition(demanded: &mut Demanded, at: Call, op: &Op, pinned: bool) -> Result<(), AllocError>
    ensures { OnOk result ((s : SymbolicState) → (pinned ≡ true → AllByRecursion (IsMet s) (of_operand at.thread.0 at.depth true op.now 0)) → AreMet s demanded.old
        → AreMet s demanded.new) }
{
    if pinned {
        put_optional(demanded, at, condition(op), true)
    } else {
        Ok(())
    }
}

/// The address of an access has to be known, whole or by its bounds alone.
fn put_address(demanded: &mut Demanded, at: Call, op: &Op, whole: bool) -> Result<(), AllocError>
    ensures { OnOk result ((s : SymbolicState) → AllByRecursion (IsMet s) (of_operand at.thread.0 at.depth whole op.now (address_index op.now)) → AreMet s demanded.old
        → AreMet s demanded.new) }
{
    put_optional(demanded, at, address(op), whole)
}

/// Whether the address of an access has to be known whole.
fn is_fixed(event: bool, exact: bool) -> bool
    ensures { result ≡ (event || exact) }
{
    event || exact
}

/// What a live step asks by itself has to be known before it: the condition of a branch that is pinned; the address of an access,
/// whole where it is exact or an event, else its bounds; the size of a `malloc`; the operands of an event that are checked.
pub(crate) fn put_own(
    demanded: &mut Demanded,
    decisions: &DecisionSet,
    at: Call,
    instr: &Instr,
    kind: &StepKind,
    number: usize,
) -> Result<(), AllocError>
    ensures { OnOk result ((s : SymbolicState) (y : Seen) → thread_in y.moment ≡ at.thread.0 → depth_of y ≡ at.depth → y.number ≡ number
        → AllByRecursion (IsMet s) (kind_demands (taken_by decisions.now) y instr.now kind.now) → AreMet s demanded.old → AreMet s demanded.new) }
{
    match kind {
        StepKind::Branch { .. } => put_condition(
            demanded,
            at,
            &instr.op,
            decisions.is_pinned(number),
        ),
        StepKind::Allocation { .. } => put_size(demanded, at, &instr.op),
        StepKind::Event(e) => {
            put_event(demanded, at, instr, e)?;
            Ok(())
        }
        StepKind::Access(a) => put_address(
            demanded,
            at,
            &instr.op,
            is_fixed(a.event, decisions.is_exact(number)),
        ),
        _ => Ok(()),
    }
}
