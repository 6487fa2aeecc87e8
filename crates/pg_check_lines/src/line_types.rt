//! The types that an instruction writes.

ghost use Rattle.std.specs.Prelude.{◌≡◌, [], ◌∷◌, ◌++◌, IfOk, OnOk, map};
ghost use Rattle.std.specs.List.{flat_map};
ghost use Rattle.std.specs.Option.{option_map};
ghost use Rattle.pg_read_ast.specs.Syntax.{Typed, Case};
ghost use Rattle.pg_read_ast.specs.Views.{ty_of, typed_of, case_of, written_of, count_of, op_of};
ghost use Rattle.pg_check_rules.specs.Nodes.{tys_behind};
ghost use Rattle.pg_check_rules.specs.Written.{with_inner, written_types, count_types, op_types};
ghost use Rattle.pg_check_rules.specs.LineConditions.{line_types};
ghost use Rattle.pg_check_lines.specs.Uses.{use_of, uses_of, type_row, row_within};

use crate::operands::{UseNode, operands_of_line};
use pg_check_values::add_own_types;
use pg_read_ast::{CallTypes, CaseNode, CountNode, OpNode, TypeNode, TypedVal};
use std::alloc::{AllocError, Global};

/// The type that is written before a value.
pub(crate) fn value_type(value: &TypedVal) -> &TypeNode
    ensures { ty_of result.now ≡ (typed_of value.now).ty }
{
    &value.ty
}

/// Adds the types that are written before values.
fn add_value_types<'a>(
    all: &mut Vec<&'a TypeNode>,
    values: &'a [TypedVal],
) -> Result<(), AllocError>
    ensures { OnOk result (tys_behind all.new.items ≡ tys_behind all.old.items ++ map (λ (i : Typed). i.ty) (map typed_of values.now)) }
{
    for value in values {
        all.push(value_type(value))?;
    }
    Ok(())
}

/// Adds the types that are written before the values of cases.
fn add_case_types<'a>(all: &mut Vec<&'a TypeNode>, cases: &'a [CaseNode]) -> Result<(), AllocError>
    ensures { OnOk result (tys_behind all.new.items ≡ tys_behind all.old.items ++ map (λ (c : Case). c.value.ty) (map case_of cases.now)) }
{
    for case in cases {
        all.push(value_type(&case.value))?;
    }
    Ok(())
}

fn add_types<'a>(all: &mut Vec<&'a TypeNode>, types: &'a [TypeNode]) -> Result<(), AllocError>
    ensures { OnOk result (tys_behind all.new.items ≡ tys_behind all.old.items ++ map ty_of types.now) }
{
    for ty in types {
        all.push(ty)?;
    }
    Ok(())
}

fn one_type(alloc: Global, one: &TypeNode) -> Result<Vec<&TypeNode>, AllocError>
    ensures { IfOk result (λ v. tys_behind v.items ≡ ty_of one.now ∷ []) }
{
    let mut all = Vec::new(alloc);
    all.push(one)?;
    Ok(all)
}

fn two_types<'a>(
    alloc: Global,
    one: &'a TypeNode,
    other: &'a TypeNode,
) -> Result<Vec<&'a TypeNode>, AllocError>
    ensures { IfOk result (λ v. tys_behind v.items ≡ ty_of one.now ∷ ty_of other.now ∷ []) }
{
    let mut all = Vec::new(alloc);
    all.push(one)?;
    all.push(other)?;
    Ok(all)
}

fn three_types<'a>(
    alloc: Global,
    one: &'a TypeNode,
    other: &'a TypeNode,
    last: &'a TypeNode,
) -> Result<Vec<&'a TypeNode>, AllocError>
    ensures { IfOk result (λ v. tys_behind v.items ≡ ty_of one.now ∷ ty_of other.now ∷ ty_of last.now ∷ []) }
{
    let mut all = Vec::new(alloc);
    all.push(one)?;
    all.push(other)?;
    all.push(last)?;
    Ok(all)
}

/// The types of a `switch`: those of its value and of its cases.
fn switch_types<'a>(
    alloc: Global,
    value: &'a TypedVal,
    cases: &'a [CaseNode],
) -> Result<Vec<&'a TypeNode>, AllocError>
    ensures { IfOk result (λ v. tys_behind v.items ≡ (typed_of value.now).ty ∷ map (λ (c : Case). c.value.ty) (map case_of cases.now)) }
{
    let mut all = one_type(alloc, value_type(value))?;
    add_case_types(&mut all, cases)?;
    Ok(all)
}

/// Adds the types that a call writes for its callee's parameters, if it writes any.
fn add_written_types<'a>(
    all: &mut Vec<&'a TypeNode>,
    written: &'a Option<CallTypes>,
) -> Result<(), AllocError>
    ensures { OnOk result (tys_behind all.new.items ≡ tys_behind all.old.items ++ written_types (option_map written_of written.now)) }
{
    match written {
        Some(written) => add_types(all, written.types.as_slice()),
        None => Ok(()),
    }
}

/// The types of a call: of its result, those that are written for parameters, and those of its arguments.
fn call_types<'a>(
    alloc: Global,
    result_type: &'a TypeNode,
    written: &'a Option<CallTypes>,
    arguments: &'a [TypedVal],
) -> Result<Vec<&'a TypeNode>, AllocError>
    ensures { IfOk result (λ v. tys_behind v.items ≡ ty_of result_type.now
        ∷ (written_types (option_map written_of written.now) ++ map (λ (i : Typed). i.ty) (map typed_of arguments.now))) }
{
    let mut all = one_type(alloc, result_type)?;
    add_written_types(&mut all, written)?;
    add_value_types(&mut all, arguments)?;
    Ok(all)
}

/// The types of an `alloca`: of its elements, and of their number where it is written.
fn alloca_types<'a>(
    alloc: Global,
    ty: &'a TypeNode,
    count: &'a Option<CountNode>,
) -> Result<Vec<&'a TypeNode>, AllocError>
    ensures { IfOk result (λ v. tys_behind v.items ≡ ty_of ty.now ∷ count_types (option_map count_of count.now)) }
{
    match count {
        Some(count) => two_types(alloc, ty, &count.ty),
        None => one_type(alloc, ty),
    }
}

/// The types of a `getelementptr`: the one that it walks, its pointer's, and those of its indices.
fn path_types<'a>(
    alloc: Global,
    ty: &'a TypeNode,
    pointer: &'a TypedVal,
    indices: &'a [TypedVal],
) -> Result<Vec<&'a TypeNode>, AllocError>
    ensures { IfOk result (λ v. tys_behind v.items ≡
        ty_of ty.now ∷ (typed_of pointer.now).ty ∷ map (λ (i : Typed). i.ty) (map typed_of indices.now)) }
{
    let mut all = two_types(alloc, ty, value_type(pointer))?;
    add_value_types(&mut all, indices)?;
    Ok(all)
}

/// The types that an instruction writes outside of its operands' values.
#[tactic(auto, unfolding(pg_check_rules::specs::Written::op_types))]
fn op_types<'a>(alloc: Global, op: &'a OpNode) -> Result<Vec<&'a TypeNode>, AllocError>
    ensures { IfOk result (λ v. tys_behind v.items ≡ op_types (op_of op.now)) }
{
    match op {
        OpNode::Binary { ty, .. } => one_type(alloc, ty),
        OpNode::Icmp { ty, .. } => one_type(alloc, ty),
        OpNode::Cast { value, ty, .. } => two_types(alloc, value_type(value), ty),
        OpNode::Select {
            condition,
            yes,
            no,
            ..
        } => {
            three_types(
                alloc,
                value_type(condition),
                value_type(yes),
                value_type(no),
            )
        }
        OpNode::Phi { ty, .. } => one_type(alloc, ty),
        OpNode::Br { .. } => Ok(Vec::new(alloc)),
        OpNode::CondBr { condition, .. } => one_type(alloc, value_type(condition)),
        OpNode::Switch { value, cases, .. } => switch_types(alloc, value, cases.as_slice()),
        OpNode::Call {
            ty,
            written,
            arguments,
            ..
        } => { call_types(alloc, ty, written, arguments.as_slice()) }
        OpNode::RetVoid { .. } => Ok(Vec::new(alloc)),
        OpNode::Ret { value, .. } => one_type(alloc, value_type(value)),
        OpNode::Unreachable { .. } => Ok(Vec::new(alloc)),
        OpNode::Alloca { ty, count, .. } => alloca_types(alloc, ty, count),
        OpNode::Load { ty, pointer, .. } => two_types(alloc, ty, value_type(pointer)),
        OpNode::Store { value, pointer, .. } => {
            two_types(alloc, value_type(value), value_type(pointer))
        }
        OpNode::GetElementPtr {
            ty,
            pointer,
            indices,
            ..
        } => { path_types(alloc, ty, pointer, indices.as_slice()) }
    }
}

/// Adds the types that a value of a line and those within it write by themselves.
#[tactic(auto, unfolding(pg_check_rules::specs::Written::inner_uses))]
fn add_use_types<'a>(all: &mut Vec<&'a TypeNode>, one: UseNode<'a>) -> Result<(), AllocError>
    ensures { OnOk result (tys_behind all.new.items ≡ tys_behind all.old.items ++ row_within type_row (use_of one.entry)) }
{
    match one {
        UseNode::Value(_, _, value) => add_own_types(all, value),
        UseNode::Count(_) => Ok(()),
    }
}

/// Adds the types that values of a line and those within them write by themselves.
fn add_all_use_types<'a>(
    all: &mut Vec<&'a TypeNode>,
    uses: &[UseNode<'a>],
) -> Result<(), AllocError>
    ensures { OnOk result (tys_behind all.new.items ≡ tys_behind all.old.items ++ flat_map type_row (flat_map with_inner (uses_of uses.now))) }
{
    for one in uses {
        add_use_types(all, *one)?;
    }
    Ok(())
}

/// All types that an instruction writes.
pub fn types_of_line<'a>(alloc: Global, op: &'a OpNode) -> Result<Vec<&'a TypeNode>, AllocError>
    ensures { IfOk result (λ v. tys_behind v.items ≡ line_types (op_of op.now)) }
{
    let mut all = op_types(alloc, op)?;
    let uses = operands_of_line(alloc, op)?;
    add_all_use_types(&mut all, uses.as_slice())?;
    Ok(all)
}
