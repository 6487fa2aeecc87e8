//! Instructions by their operations.

ghost use Rattle.std.specs.Prelude.{◌≡◌, ◌∷◌, ◌*◌, IfOk, None, Some, map};
ghost use Rattle.std.specs.Option.{option_map};
ghost use Rattle.pg_read_ast.specs.Views.{ty_of, val_of, typed_of, incoming_of, case_of, count_of, op_of, tree_of};
ghost use Rattle.pg_ir.specs.declared.instr.Op.TheVariants as operation;
ghost use Rattle.pg_check_types.specs.Layout.{size_or_none};
ghost use Rattle.pg_check_rules.specs.Names.{symbol};
ghost use Rattle.pg_check_rules.specs.Constants.{index_scales};
ghost use Rattle.pg_check_rules.specs.Numbered.{type_in, width_in, value_at, typed_value, block_at, binary_op, indices_at, cast_op, incoming_at, case_at, count_in, call_of, op_at};
ghost use Rattle.pg_check_program.specs.Room.{OpFits, Each};
ghost use Rattle.pg_check_program.specs.ScopeNames.{ScopeNames, scope_in};
ghost use Rattle.pg_check_program.specs.ScopeSizes.{types_in, TyIsSmall, ValIsSmall, TypedIsSmall, IncomingIsSmall};

use crate::calls::call_of;
use crate::edges::{cases_at, incomings_at};
use crate::function_scope::FunctionScope;
use crate::index_operands::indices_at;
use crate::operands::{size_at, typed_value, typed_width, value_at, values_at, width_at};
use crate::operations::{binary_op, cast_op};
use crate::scope::block_at;
use pg_check_rules::{literal_at, symbol};
use pg_ir::{Cases, Incomings, Indices, Op};
use pg_num::Compare;
use pg_read_ast::{
    BinaryOp, CaseNode, CastOp, CountNode, IncomingNode, Name, OpNode, TypeNode, TypedVal, ValNode,
};
use std::alloc::AllocError;

/// An operation on two integers.
fn binary_at(
    scope: &FunctionScope<'_>,
    op: BinaryOp,
    ty: &TypeNode,
    left: &ValNode,
    right: &ValNode,
) -> Result<Op, AllocError>
    requires left { ValIsSmall scope.now (val_of left.now) }
    requires right { ValIsSmall scope.now (val_of right.now) }
    ensures op { (names : ScopeNames scope.now) → let g = scope_in scope.now names in IfOk result (λ o. o ≡
        binary_op op (width_in (type_in g (ty_of ty.now))) (value_at g (ty_of ty.now) (val_of left.now)) (value_at g (ty_of ty.now) (val_of right.now))) }
{
    let width = width_at(scope, ty)?;
    let left = value_at(scope, ty, left)?;
    let right = value_at(scope, ty, right)?;
    let found = binary_op(op, width, left, right);
    Ok(found)
}

/// A comparison.
fn compare_at(
    scope: &FunctionScope<'_>,
    predicate: Compare,
    ty: &TypeNode,
    left: &ValNode,
    right: &ValNode,
) -> Result<Op, AllocError>
    requires left { ValIsSmall scope.now (val_of left.now) }
    requires right { ValIsSmall scope.now (val_of right.now) }
    ensures op { (names : ScopeNames scope.now) → let g = scope_in scope.now names in IfOk result (λ o. o ≡
        operation.Compare predicate (width_in (type_in g (ty_of ty.now))) (value_at g (ty_of ty.now) (val_of left.now)) (value_at g (ty_of ty.now) (val_of right.now))) }
{
    let width = width_at(scope, ty)?;
    let left = value_at(scope, ty, left)?;
    let right = value_at(scope, ty, right)?;
    Ok(Op::Compare {
        op: predicate,
        width,
        left,
        right,
    })
}

/// A conversion.
fn cast_at(
    scope: &FunctionScope<'_>,
    op: CastOp,
    value: &TypedVal,
    ty: &TypeNode,
) -> Result<Op, AllocError>
    requires value { TypedIsSmall scope.now (typed_of value.now) }
    ensures op { (names : ScopeNames scope.now) → let g = scope_in scope.now names in IfOk result (λ o. o ≡
        cast_op op (width_in (type_in g (typed_of value.now).ty)) (width_in (type_in g (ty_of ty.now))) (typed_value g (typed_of value.now))) }
{
    let from = typed_width(scope, value)?;
    let to = width_at(scope, ty)?;
    let of = typed_value(scope, value)?;
    let found = cast_op(op, from, to, of);
    Ok(found)
}

/// A choice between two values.
fn select_at(
    scope: &FunctionScope<'_>,
    cond: &TypedVal,
    first: &TypedVal,
    second: &TypedVal,
) -> Result<Op, AllocError>
    requires cond { TypedIsSmall scope.now (typed_of cond.now) }
    requires first { TypedIsSmall scope.now (typed_of first.now) }
    requires second { TypedIsSmall scope.now (typed_of second.now) }
    ensures op { (names : ScopeNames scope.now) → let g = scope_in scope.now names in IfOk result (λ o. o ≡
        operation.Select (typed_value g (typed_of cond.now)) (typed_value g (typed_of first.now)) (typed_value g (typed_of second.now))) }
{
    let cond = typed_value(scope, cond)?;
    let first = typed_value(scope, first)?;
    let second = typed_value(scope, second)?;
    Ok(Op::Select {
        cond,
        yes: first,
        no: second,
    })
}

/// A `phi`.
fn phi_at(
    scope: &FunctionScope<'_>,
    ty: &TypeNode,
    first: &IncomingNode,
    others: &[IncomingNode],
) -> Result<Op, AllocError>
    requires first { IncomingIsSmall scope.now (incoming_of first.now) }
    requires others { Each (IncomingIsSmall scope.now) (map incoming_of others.now) }
    ensures op { (names : ScopeNames scope.now) → IfOk result (λ o. o ≡
        operation.Phi (map (incoming_at (scope_in scope.now names) scope.now.first (ty_of ty.now)) (incoming_of first.now ∷ map incoming_of others.now))) }
{
    let from = incomings_at(scope, ty, first, others)?;
    Ok(Op::Phi {
        from: Incomings::from_vec(from),
    })
}

/// A branch.
fn branch_at(scope: &FunctionScope<'_>, block: &Name) -> Op
    ensures { (names : ScopeNames scope.now) →
        result ≡ operation.Br (block_at (scope_in scope.now names) scope.now.first block.now) }
{
    let to = block_at(scope, block);
    Op::Br { to }
}

/// A branch on a condition.
fn conditional_branch_at(
    scope: &FunctionScope<'_>,
    cond: &TypedVal,
    first: &Name,
    second: &Name,
) -> Result<Op, AllocError>
    requires cond { TypedIsSmall scope.now (typed_of cond.now) }
    ensures op { (names : ScopeNames scope.now) → let g = scope_in scope.now names in IfOk result (λ o. o ≡
        operation.CondBr (typed_value g (typed_of cond.now)) (block_at g scope.now.first first.now) (block_at g scope.now.first second.now)) }
{
    let cond = typed_value(scope, cond)?;
    let first = block_at(scope, first);
    let second = block_at(scope, second);
    Ok(Op::CondBr {
        cond,
        yes: first,
        no: second,
    })
}

/// A branch on an integer.
fn switch_at(
    scope: &FunctionScope<'_>,
    value: &TypedVal,
    block: &Name,
    cases: &[CaseNode],
) -> Result<Op, AllocError>
    requires value { TypedIsSmall scope.now (typed_of value.now) }
    ensures op { (names : ScopeNames scope.now) → let g = scope_in scope.now names in IfOk result (λ o. o ≡
        operation.Switch (width_in (type_in g (typed_of value.now).ty)) (typed_value g (typed_of value.now)) (block_at g scope.now.first block.now)
        (map (case_at g scope.now.first (typed_of value.now).ty) (map case_of cases.now))) }
{
    let width = typed_width(scope, value)?;
    let on = typed_value(scope, value)?;
    let other = block_at(scope, block);
    let found = cases_at(scope, &value.ty, cases)?;
    let cases = Cases::from_vec(found);
    Ok(Op::Switch {
        width,
        on,
        other,
        cases,
    })
}

/// A call.
fn call_at(scope: &FunctionScope<'_>, callee: &Name, args: &[TypedVal]) -> Result<Op, AllocError>
    requires values { Each (TypedIsSmall scope.now) (map typed_of args.now) }
    ensures op { (names : ScopeNames scope.now) → IfOk result (λ o. o ≡
        call_of (symbol (tree_of scope.now.globals.now.symbols.tree.now) callee.now.text) (map (typed_value (scope_in scope.now names)) (map typed_of args.now))) }
{
    let values = values_at(scope, args)?;
    Ok(call_of(
        symbol(&scope.globals.symbols, callee.text.as_slice()),
        values,
    ))
}

/// A return of a value.
fn return_at(scope: &FunctionScope<'_>, value: &TypedVal) -> Result<Op, AllocError>
    requires value { TypedIsSmall scope.now (typed_of value.now) }
    ensures op { (names : ScopeNames scope.now) → IfOk result (λ o. o ≡
        operation.Ret (Some (typed_value (scope_in scope.now names) (typed_of value.now)))) }
{
    let value = typed_value(scope, value)?;
    Ok(Op::Ret { value: Some(value) })
}

/// How many elements an `alloca` takes.
#[tactic(auto, using(crate::proofs::ModuleTypes::module_types))]
fn count_in(scope: &FunctionScope<'_>, count: &Option<CountNode>) -> Result<u64, AllocError>
    ensures count { (names : ScopeNames scope.now) → IfOk result (λ n. n ≡
        count_in (scope_in scope.now names) (option_map count_of count.now)) }
{
    match count {
        Some(count) => {
            let number = literal_at(scope.globals.types, &count.ty, &count.count)?;
            Ok(number.unwrap_or(0))
        }
        None => Ok(1),
    }
}

/// The size of so many elements in bytes.
fn size_of_all(size: u32, count: u64) -> u128
    ensures { result ≡ size * count }
{
    size as u128 * count as u128
}

/// Memory of a frame.
fn alloca_at(
    scope: &FunctionScope<'_>,
    ty: &TypeNode,
    count: &Option<CountNode>,
) -> Result<Op, AllocError>
    requires ty { TyIsSmall scope.now (ty_of ty.now) }
    ensures op { (names : ScopeNames scope.now) → let g = scope_in scope.now names in IfOk result (λ o. o ≡
        operation.Alloca (size_or_none (type_in g (ty_of ty.now)) * count_in g (option_map count_of count.now))) }
{
    let size = size_at(scope, ty)?;
    let count = count_in(scope, count)?;
    let bytes = size_of_all(size, count);
    Ok(Op::Alloca { bytes })
}

/// A load.
fn load_at(scope: &FunctionScope<'_>, ty: &TypeNode, pointer: &TypedVal) -> Result<Op, AllocError>
    requires pointer { TypedIsSmall scope.now (typed_of pointer.now) }
    ensures op { (names : ScopeNames scope.now) → let g = scope_in scope.now names in IfOk result (λ o. o ≡
        operation.Load (width_in (type_in g (ty_of ty.now))) (typed_value g (typed_of pointer.now))) }
{
    let width = width_at(scope, ty)?;
    let from = typed_value(scope, pointer)?;
    Ok(Op::Load { width, from })
}

/// A store.
fn store_at(
    scope: &FunctionScope<'_>,
    value: &TypedVal,
    pointer: &TypedVal,
) -> Result<Op, AllocError>
    requires value { TypedIsSmall scope.now (typed_of value.now) }
    requires pointer { TypedIsSmall scope.now (typed_of pointer.now) }
    ensures op { (names : ScopeNames scope.now) → let g = scope_in scope.now names in IfOk result (λ o. o ≡
        operation.Store (width_in (type_in g (typed_of value.now).ty)) (typed_value g (typed_of value.now)) (typed_value g (typed_of pointer.now))) }
{
    let width = typed_width(scope, value)?;
    let value = typed_value(scope, value)?;
    let at = typed_value(scope, pointer)?;
    Ok(Op::Store { width, value, at })
}

/// A pointer that indices move.
fn element_pointer_at(
    scope: &FunctionScope<'_>,
    ty: &TypeNode,
    pointer: &TypedVal,
    indices: &[TypedVal],
) -> Result<Op, AllocError>
    requires ty { TyIsSmall scope.now (ty_of ty.now) }
    requires pointer { TypedIsSmall scope.now (typed_of pointer.now) }
    requires values { Each (TypedIsSmall scope.now) (map typed_of indices.now) }
    ensures op { (names : ScopeNames scope.now) → let g = scope_in scope.now names in IfOk result (λ o. o ≡
        operation.Gep (typed_value g (typed_of pointer.now)) (indices_at g (map typed_of indices.now)
        (index_scales (tree_of scope.now.globals.now.symbols.tree.now).types (ty_of ty.now) (map typed_of indices.now)))) }
{
    let base = typed_value(scope, pointer)?;
    let indices = indices_at(scope, ty, indices)?;
    Ok(Op::Gep {
        base,
        indices: Indices::from_vec(indices),
    })
}

/// What an instruction does, its registers, basic blocks, globals and functions by their numbers.
#[tactic(auto, unfolding(pg_check_rules::specs::Numbered::op_at, crate::specs::Room::OpFits))]
pub(crate) fn op_at(scope: &FunctionScope<'_>, op: &OpNode) -> Result<Op, AllocError>
    requires fits { OpFits (types_in scope.now) (op_of op.now) }
    ensures op { (names : ScopeNames scope.now) → IfOk result (λ o. o ≡
        op_at (scope_in scope.now names) scope.now.first (op_of op.now)) }
{
    match op {
        OpNode::Binary {
            op,
            ty,
            left,
            right,
            ..
        } => { binary_at(scope, *op, ty, left, right) }
        OpNode::Icmp {
            predicate,
            ty,
            left,
            right,
            ..
        } => { compare_at(scope, *predicate, ty, left, right) }
        OpNode::Cast { op, value, ty, .. } => cast_at(scope, *op, value, ty),
        OpNode::Select {
            condition,
            yes,
            no,
            ..
        } => { select_at(scope, condition, yes, no) }
        OpNode::Phi {
            ty,
            first,
            others,
            ..
        } => { phi_at(scope, ty, first, others.as_slice()) }
        OpNode::Br { block, .. } => Ok(branch_at(scope, block)),
        OpNode::CondBr {
            condition,
            yes,
            no,
            ..
        } => { conditional_branch_at(scope, condition, yes, no) }
        OpNode::Switch {
            value,
            other,
            cases,
            ..
        } => { switch_at(scope, value, other, cases.as_slice()) }
        OpNode::Call {
            callee,
            arguments,
            ..
        } => { call_at(scope, callee, arguments.as_slice()) }
        OpNode::RetVoid { .. } => Ok(Op::Ret { value: None }),
        OpNode::Ret { value, .. } => return_at(scope, value),
        OpNode::Unreachable { .. } => Ok(Op::Unreachable),
        OpNode::Alloca { ty, count, .. } => alloca_at(scope, ty, count),
        OpNode::Load { ty, pointer, .. } => load_at(scope, ty, pointer),
        OpNode::Store { value, pointer, .. } => store_at(scope, value, pointer),
        OpNode::GetElementPtr {
            ty,
            pointer,
            indices,
            ..
        } => { element_pointer_at(scope, ty, pointer, indices.as_slice()) }
    }
}
