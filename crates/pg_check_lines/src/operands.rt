//! The values that an instruction has, each at its type.

ghost use Rattle.std.specs.Prelude.{◌≡◌, [], ◌∷◌, ◌++◌, IfOk, OnOk, map};
ghost use Rattle.std.specs.Option.{option_map};
ghost use Rattle.pg_read_ast.specs.Syntax.{Incoming, Case};
ghost use Rattle.pg_read_ast.specs.Views.{ty_of, val_of, typed_of, incoming_of, case_of, count_of, op_of};
ghost use Rattle.pg_check_rules.specs.Written.{operand, constant_at, typed_operand, count_uses, operands};
ghost use Rattle.pg_check_lines.specs.Uses.{use_of, uses_of};

use pg_read_ast::{CaseNode, CountNode, IncomingNode, OpNode, TypeNode, TypedVal, ValNode};
use std::alloc::{AllocError, Global};

/// A value that stands in a line.
#[derive(Clone, Copy)]
pub enum UseNode<'a> {
    /// Whether it stands where no register may, the type at which it stands, and the value.
    Value(bool, &'a TypeNode, &'a ValNode),
    /// The number of elements of an `alloca`.
    Count(&'a CountNode),
}

/// A value at the type that is written before it.
fn typed_use<'a>(value: &'a TypedVal) -> UseNode<'a>
    ensures { use_of result ≡ typed_operand (typed_of value.now) }
{
    UseNode::Value(false, &value.ty, &value.value)
}

/// A case's value, which is a constant.
fn case_use<'a>(case: &'a CaseNode) -> UseNode<'a>
    ensures { use_of result ≡ constant_at (case_of case.now).value.ty (case_of case.now).value.value }
{
    UseNode::Value(true, &case.value.ty, &case.value.value)
}

/// Adds values at the types that are written before them.
fn add_typed_uses<'a>(all: &mut Vec<UseNode<'a>>, values: &'a [TypedVal]) -> Result<(), AllocError>
    ensures { OnOk result (uses_of all.new.items ≡ uses_of all.old.items ++ map typed_operand (map typed_of values.now)) }
{
    for value in values {
        all.push(typed_use(value))?;
    }
    Ok(())
}

/// Adds the values of cases.
fn add_case_uses<'a>(all: &mut Vec<UseNode<'a>>, cases: &'a [CaseNode]) -> Result<(), AllocError>
    ensures { OnOk result (uses_of all.new.items ≡ uses_of all.old.items
        ++ map (λ (c : Case). constant_at c.value.ty c.value.value) (map case_of cases.now)) }
{
    for case in cases {
        all.push(case_use(case))?;
    }
    Ok(())
}

/// Adds the values of a `phi` at its type.
fn add_incoming_uses<'a>(
    all: &mut Vec<UseNode<'a>>,
    ty: &'a TypeNode,
    incomings: &'a [IncomingNode],
) -> Result<(), AllocError>
    ensures { OnOk result (uses_of all.new.items ≡ uses_of all.old.items
        ++ map (λ (j : Incoming). operand (ty_of ty.now) j.value) (map incoming_of incomings.now)) }
{
    for incoming in incomings {
        all.push(UseNode::Value(false, ty, &incoming.value))?;
    }
    Ok(())
}

fn one_use<'a>(alloc: Global, one: UseNode<'a>) -> Result<Vec<UseNode<'a>>, AllocError>
    ensures { IfOk result (λ v. uses_of v.items ≡ use_of one.entry ∷ []) }
{
    let mut all = Vec::new(alloc);
    all.push(one)?;
    Ok(all)
}

fn two_uses<'a>(
    alloc: Global,
    one: UseNode<'a>,
    other: UseNode<'a>,
) -> Result<Vec<UseNode<'a>>, AllocError>
    ensures { IfOk result (λ v. uses_of v.items ≡ use_of one.entry ∷ use_of other.entry ∷ []) }
{
    let mut all = Vec::new(alloc);
    all.push(one)?;
    all.push(other)?;
    Ok(all)
}

fn three_uses<'a>(
    alloc: Global,
    one: UseNode<'a>,
    other: UseNode<'a>,
    last: UseNode<'a>,
) -> Result<Vec<UseNode<'a>>, AllocError>
    ensures { IfOk result (λ v. uses_of v.items ≡ use_of one.entry ∷ use_of other.entry ∷ use_of last.entry ∷ []) }
{
    let mut all = Vec::new(alloc);
    all.push(one)?;
    all.push(other)?;
    all.push(last)?;
    Ok(all)
}

/// Two values of one type.
fn pair_uses<'a>(
    alloc: Global,
    ty: &'a TypeNode,
    left: &'a ValNode,
    right: &'a ValNode,
) -> Result<Vec<UseNode<'a>>, AllocError>
    ensures { IfOk result (λ v. uses_of v.items ≡ operand (ty_of ty.now) (val_of left.now) ∷ operand (ty_of ty.now) (val_of right.now) ∷ []) }
{
    let first = UseNode::Value(false, ty, left);
    let second = UseNode::Value(false, ty, right);
    two_uses(alloc, first, second)
}

/// The values of a `phi`: the first and the others.
fn incoming_uses<'a>(
    alloc: Global,
    ty: &'a TypeNode,
    first: &'a IncomingNode,
    others: &'a [IncomingNode],
) -> Result<Vec<UseNode<'a>>, AllocError>
    ensures { IfOk result (λ v. uses_of v.items ≡
        map (λ (j : Incoming). operand (ty_of ty.now) j.value) (incoming_of first.now ∷ map incoming_of others.now)) }
{
    let mut all = one_use(alloc, UseNode::Value(false, ty, &first.value))?;
    add_incoming_uses(&mut all, ty, others)?;
    Ok(all)
}

/// The value of a `switch` and those of its cases.
fn switch_uses<'a>(
    alloc: Global,
    value: &'a TypedVal,
    cases: &'a [CaseNode],
) -> Result<Vec<UseNode<'a>>, AllocError>
    ensures { IfOk result (λ v. uses_of v.items ≡ typed_operand (typed_of value.now)
        ∷ map (λ (c : Case). constant_at c.value.ty c.value.value) (map case_of cases.now)) }
{
    let mut all = one_use(alloc, typed_use(value))?;
    add_case_uses(&mut all, cases)?;
    Ok(all)
}

/// The pointer of a `getelementptr` and its indices.
fn path_uses<'a>(
    alloc: Global,
    pointer: &'a TypedVal,
    indices: &'a [TypedVal],
) -> Result<Vec<UseNode<'a>>, AllocError>
    ensures { IfOk result (λ v. uses_of v.items ≡ typed_operand (typed_of pointer.now) ∷ map typed_operand (map typed_of indices.now)) }
{
    let mut all = one_use(alloc, typed_use(pointer))?;
    add_typed_uses(&mut all, indices)?;
    Ok(all)
}

fn typed_uses<'a>(alloc: Global, values: &'a [TypedVal]) -> Result<Vec<UseNode<'a>>, AllocError>
    ensures { IfOk result (λ v. uses_of v.items ≡ map typed_operand (map typed_of values.now)) }
{
    let mut all = Vec::new(alloc);
    add_typed_uses(&mut all, values)?;
    Ok(all)
}

/// The number of elements of an `alloca`, if one is written.
fn count_uses<'a>(
    alloc: Global,
    count: &'a Option<CountNode>,
) -> Result<Vec<UseNode<'a>>, AllocError>
    ensures { IfOk result (λ v. uses_of v.items ≡ count_uses (option_map count_of count.now)) }
{
    match count {
        Some(count) => one_use(alloc, UseNode::Count(count)),
        None => Ok(Vec::new(alloc)),
    }
}

/// The operands of an instruction, in order.
#[tactic(auto, unfolding(pg_check_rules::specs::Written::operands))]
pub fn operands_of_line<'a>(alloc: Global, op: &'a OpNode) -> Result<Vec<UseNode<'a>>, AllocError>
    ensures { IfOk result (λ v. uses_of v.items ≡ operands (op_of op.now)) }
{
    match op {
        OpNode::Binary {
            ty,
            left,
            right,
            ..
        } => pair_uses(alloc, ty, left, right),
        OpNode::Icmp {
            ty,
            left,
            right,
            ..
        } => pair_uses(alloc, ty, left, right),
        OpNode::Cast { value, .. } => one_use(alloc, typed_use(value)),
        OpNode::Select {
            condition,
            yes,
            no,
            ..
        } => { three_uses(alloc, typed_use(condition), typed_use(yes), typed_use(no)) }
        OpNode::Phi {
            ty,
            first,
            others,
            ..
        } => incoming_uses(alloc, ty, first, others.as_slice()),
        OpNode::Br { .. } => Ok(Vec::new(alloc)),
        OpNode::CondBr { condition, .. } => one_use(alloc, typed_use(condition)),
        OpNode::Switch { value, cases, .. } => switch_uses(alloc, value, cases.as_slice()),
        OpNode::Call { arguments, .. } => typed_uses(alloc, arguments.as_slice()),
        OpNode::RetVoid { .. } => Ok(Vec::new(alloc)),
        OpNode::Ret { value, .. } => one_use(alloc, typed_use(value)),
        OpNode::Unreachable { .. } => Ok(Vec::new(alloc)),
        OpNode::Alloca { count, .. } => count_uses(alloc, count),
        OpNode::Load { pointer, .. } => one_use(alloc, typed_use(pointer)),
        OpNode::Store { value, pointer, .. } => {
            two_uses(alloc, typed_use(value), typed_use(pointer))
        }
        OpNode::GetElementPtr {
            pointer,
            indices,
            ..
        } => { path_uses(alloc, pointer, indices.as_slice()) }
    }
}
