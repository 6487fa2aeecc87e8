//! What one step asks.

ghost use Rattle.std.specs.Prelude.{◌≡◌, ◌<◌, ◌≤◌, ◌∷◌, [], ℕ, length, map, IfOk};
ghost use Rattle.std.specs.Option.{option_map};
ghost use Rattle.pg_run_trace.specs.declared.step.Access.{Access as AnAccess};
ghost use Rattle.pg_run_trace.specs.Steps.{access_in};
ghost use Rattle.pg_precondition.specs.Nodes.{NodeList};
ghost use Rattle.pg_slice_memory.specs.pg_slice_rules.Rules as rules;
ghost use Rattle.pg_slice_memory.specs.pg_slice_rules.Rules.{Value};
ghost use Rattle.std.specs.List.{AllByRecursion};
ghost use Rattle.pg_slice_memory.specs.pg_slice_values.SymbolicNodes.{IsSymbolicNode, symbolic_by};
ghost use Rattle.pg_slice_checks.specs.Asks.{Adds};
ghost use Rattle.pg_slice_checks.specs.Steps as steps;
ghost use Rattle.pg_slice_checks.specs.Steps.{AreEnough, access_index, at, below};

use crate::asked::Asked;
use pg_ir::{Case, LibraryCall, Op};
use pg_precondition::Test;
use pg_run_trace::{Event, StepKind, TurnKind};
use pg_slice_memory::pg_slice_values::SymbolicNode;
use std::alloc::AllocError;

/// Whether a number is that of a case.
fn is_case(n: u64, cases: &[Case]) -> bool
    ensures { result ≡ rules.is_case n cases.now }
{
    for case in cases {
        if case.value == n {
            return true;
        }
    }
    false
}

/// How many of a library call's operands are checked: the first ones.
fn checked(function: LibraryCall) -> usize
    ensures { rules.checked function ≡ below result }
{
    match function {
        LibraryCall::PthreadCreate | LibraryCall::PthreadBarrierInit => 3,
        LibraryCall::PthreadJoin
        | LibraryCall::PthreadMutexInit
        | LibraryCall::PthreadCondInit
        | LibraryCall::PthreadCondWait => 2,
        LibraryCall::PthreadMutexLock
        | LibraryCall::PthreadMutexTrylock
        | LibraryCall::PthreadMutexUnlock
        | LibraryCall::PthreadMutexDestroy
        | LibraryCall::PthreadCondSignal
        | LibraryCall::PthreadCondBroadcast
        | LibraryCall::PthreadCondDestroy
        | LibraryCall::PthreadBarrierWait
        | LibraryCall::PthreadBarrierDestroy => 1,
        LibraryCall::PgIn
        | LibraryCall::PgInLen
        | LibraryCall::PgOut
        | LibraryCall::PgPrint
        | LibraryCall::Putchar
        | LibraryCall::Malloc
        | LibraryCall::Free
        | LibraryCall::PthreadExit => 0,
    }
}

/// How many of an instruction's operands are checked at an event: the first ones.
pub fn checked_of(op: &Op) -> usize
    ensures { rules.checked_of op.now ≡ below result }
{
    match op {
        Op::CallLibrary { function, .. } => checked(*function),
        _ => 0,
    }
}

/// The operand of a load or a store that is its address.
fn address_index(op: &Op) -> usize
    ensures { result ≡ rules.address_index op.now }
{
    match op {
        Op::Store { .. } => 1,
        _ => 0,
    }
}

/// The operand of a create or a join that is the address of what it writes.
fn write_index(op: &Op) -> usize
    ensures { result ≡ rules.write_index op.now }
{
    match op {
        Op::CallLibrary {
            function: LibraryCall::PthreadJoin,
            ..
        } => 1,
        _ => 0,
    }
}

/// Whether an instruction is a call of `malloc`.
fn is_malloc(op: &Op) -> bool
    ensures { result ≡ rules.is_malloc op.now }
{
    matches!(
        op,
        Op::CallLibrary {
            function: LibraryCall::Malloc,
            ..
        }
    )
}

#[tactic(auto, using(crate::proofs::OneOperand::operand_at, crate::proofs::OneOperand::symbolic_node_at))]
/// What is known of the operand with this index.
fn operand(operands: &[SymbolicNode], k: usize) -> SymbolicNode
    requires { k < length operands.now }
    ensures value { (ns : NodeList) → at (map (symbolic_by ns) operands.now) k ≡ symbolic_by ns result }
    ensures is { (n : ℕ) → AllByRecursion (IsSymbolicNode n) operands.now → IsSymbolicNode n result }
{
    operands[k]
}

/// What a pinned step at a branch asks of its condition, which had this number.
fn branch_needs(
    asked: &mut Asked,
    op: &Op,
    on: SymbolicNode,
    condition: u64,
) -> Result<(), AllocError>
    ensures { IfOk result (λ u. (ns : NodeList) → IsSymbolicNode (length ns) on → Adds ns (Value (symbolic_by ns on) (rules.edge_tests op.now condition) ∷ []) asked.old asked.new) }
{
    if let Op::Switch { cases, .. } = op {
        if !is_case(condition, cases.as_slice()) {
            asked.need_none(on, cases.as_slice())?;
            return Ok(());
        }
    }
    asked.need_value(on, Test::Eq(condition))?;
    Ok(())
}

#[tactic(auto, using(crate::proofs::OneNeedMore::adds_none, crate::proofs::OneNeedMore::adds_then))]
/// What an event asks of the first operands.
fn equal_needs(
    asked: &mut Asked,
    event: &Event,
    operands: &[SymbolicNode],
    count: usize,
) -> Result<(), AllocError>
    requires few { count ≤ 4 }
    requires enough { count ≤ length operands.now }
    ensures { IfOk result (λ u. (ns : NodeList) → AllByRecursion (IsSymbolicNode (length ns)) operands.now
        → Adds ns (steps.equal_needs (map (symbolic_by ns) operands.now) event.now (below count)) asked.old asked.new) }
{
    for k in 0..count {
        asked.need_value(operand(operands, k), Test::Eq(event.operands[k]))?;
    }
    Ok(())
}

/// Whether an event is the start of a thread.
pub fn is_start(kind: TurnKind) -> bool
    ensures { result ≡ steps.is_start kind }
{
    matches!(kind, TurnKind::Start)
}

#[tactic(auto, using(crate::proofs::OneNeedMore::adds_none, crate::proofs::EventOperands::started))]
/// What an event asks of its operands.
fn event_needs(
    asked: &mut Asked,
    op: &Op,
    event: &Event,
    operands: &[SymbolicNode],
) -> Result<(), AllocError>
    requires { length (rules.checked_of op.now) ≤ length operands.now }
    ensures { IfOk result (λ u. (ns : NodeList) → AllByRecursion (IsSymbolicNode (length ns)) operands.now
        → Adds ns (steps.event_needs (map (symbolic_by ns) operands.now) op.now event.now event.now.kind) asked.old asked.new) }
{
    if is_start(event.kind) {
        return Ok(());
    }
    let count = checked_of(op);
    equal_needs(asked, event, operands, count)?;
    Ok(())
}

#[tactic(auto, using(crate::proofs::OneNeedMore::adds_none))]
/// The values that a step asks for.
fn value_needs(
    asked: &mut Asked,
    op: &Op,
    kind: &StepKind,
    operands: &[SymbolicNode],
    fixed: bool,
) -> Result<(), AllocError>
    requires { AreEnough op.now kind.now (length operands.now) }
    ensures { IfOk result (λ u. (ns : NodeList) → AllByRecursion (IsSymbolicNode (length ns)) operands.now
        → Adds ns (steps.value_needs fixed (map (symbolic_by ns) operands.now) op.now kind.now) asked.old asked.new) }
{
    match kind {
        StepKind::Branch { condition } => {
            if fixed {
                branch_needs(asked, op, operand(operands, 0), *condition)?;
            }
        }
        StepKind::Access(access) => {
            if access.event || fixed {
                let at = operand(operands, address_index(op));
                asked.need_value(at, Test::Eq(access.pointer))?;
            }
        }
        StepKind::Allocation { operand: size, .. } => {
            if is_malloc(op) {
                asked.need_value(operand(operands, 0), Test::Eq(*size))?;
            }
        }
        StepKind::Event(event) => event_needs(asked, op, event, operands)?,
        StepKind::Other => (),
    }
    Ok(())
}

/// The access of a step, if it has one.
fn access_of(kind: &StepKind) -> Option<u64>
    ensures { result ≡ option_map (λ (a : AnAccess). a.pointer) (access_in kind.now) }
{
    match kind {
        StepKind::Access(access) => Some(access.pointer),
        StepKind::Event(
            Event {
                write: Some(write),
                ..
            },
        ) => Some(write.pointer),
        _ => None,
    }
}

/// The operand that is the address of a step's access.
fn access_index(op: &Op, kind: &StepKind) -> usize
    ensures { result ≡ access_index op.now kind.now }
{
    match kind {
        StepKind::Event(_) => write_index(op),
        _ => address_index(op),
    }
}

#[tactic(auto, using(crate::proofs::OneNeedMore::adds_none, crate::proofs::AskedByCases::bounds_of_access, crate::proofs::AskedByCases::bounds_of_none, crate::proofs::AskedByCases::index_of_access))]
/// The bounds that a step asks for.
fn bounds_needs(
    asked: &mut Asked,
    op: &Op,
    kind: &StepKind,
    operands: &[SymbolicNode],
) -> Result<(), AllocError>
    requires { AreEnough op.now kind.now (length operands.now) }
    ensures { IfOk result (λ u. (ns : NodeList) → AllByRecursion (IsSymbolicNode (length ns)) operands.now
        → Adds ns (steps.bounds_needs (map (symbolic_by ns) operands.now) op.now kind.now) asked.old asked.new) }
{
    if let Some(pointer) = access_of(kind) {
        let at = operand(operands, access_index(op, kind));
        asked.need_bounds(at, pointer)?;
    }
    Ok(())
}

#[tactic(auto, using(crate::proofs::OneNeedMore::adds_then))]
/// What a live step asks for, by what is known of the operands of its instruction: that a pinned condition, an exact
/// address, an event's address, the size of a `malloc` and the checked operands of a pthread call are known, and are
/// what they were; and that an access has known bounds. A step is fixed where it is pinned or exact.
///
/// # Errors
///
/// Where no memory is left. Some of it may have been noted.
pub fn step_needs(
    asked: &mut Asked,
    op: &Op,
    kind: &StepKind,
    operands: &[SymbolicNode],
    fixed: bool,
) -> Result<(), AllocError>
    requires { AreEnough op.now kind.now (length operands.now) }
    ensures { IfOk result (λ u. (ns : NodeList) → AllByRecursion (IsSymbolicNode (length ns)) operands.now
        → Adds ns (steps.step_needs fixed (map (symbolic_by ns) operands.now) op.now kind.now) asked.old asked.new) }
{
    value_needs(asked, op, kind, operands, fixed)?;
    bounds_needs(asked, op, kind, operands)?;
    Ok(())
}
