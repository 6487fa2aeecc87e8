//! The numbers of constants at their types.

ghost use Rattle.std.specs.Prelude.{◌≡◌, ◌<◌, IfOk, IfSome, map};
ghost use Rattle.pg_num.specs.Numbers.{modulus};
ghost use Rattle.pg_read_ast.specs.Syntax.{Int};
ghost use Rattle.pg_read_ast.specs.Views.{ty_of, val_of, typed_of};
ghost use Rattle.pg_check_types.specs.Resolved.{resolved};
ghost use Rattle.pg_check_types.specs.NumberedTypes.{named_types};
ghost use Rattle.pg_check_rules.specs.ValueConditions.{constant_number, number_at, signed_at};
ghost use Rattle.pg_check_rules.specs.Integers.{kind_number, signed_number, kind_signed, index_number};

use pg_check_types::{TypeKind, TypeNumbers, literal_in};
use pg_num::{Width, to_signed};
use pg_read_ast::{Literal, TypeNode, TypedVal, ValNode};
use std::alloc::{AllocError, Global};

/// The number of a constant of a width; none where it has none.
#[tactic(auto, using(crate::proofs::ConstantNumbers::constant_fits))]
pub fn constant_number(width: Width, value: &ValNode) -> Option<u64>
    ensures number { result ≡ constant_number width (val_of value.now) }
    ensures fits { IfSome result (λ n. n < modulus width) }
{
    match value {
        ValNode::Int(literal) => literal_in(width, literal.text.as_slice()),
        ValNode::True(_) => Some(1),
        ValNode::False(_) => Some(0),
        ValNode::Undef(_) => Some(0),
        ValNode::Poison(_) => Some(0),
        ValNode::ZeroInitializer(_) => Some(0),
        _ => None,
    }
}

fn kind_number(kind: Option<TypeKind>, value: &ValNode) -> Option<u64>
    ensures { result ≡ kind_number kind (val_of value.now) }
{
    match kind {
        Some(TypeKind::Integer(width)) => constant_number(width, value),
        _ => None,
    }
}

fn signed_number(width: Width, value: &ValNode) -> Option<i64>
    ensures { result ≡ signed_number width (val_of value.now) }
{
    match constant_number(width, value) {
        Some(number) => Some(to_signed(width, number)),
        None => None,
    }
}

fn kind_signed(kind: Option<TypeKind>, value: &ValNode) -> Option<i64>
    ensures { result ≡ kind_signed kind (val_of value.now) }
{
    match kind {
        Some(TypeKind::Integer(width)) => signed_number(width, value),
        _ => None,
    }
}

/// The number of a constant of an integer type; none of another type.
#[tactic(auto, using(crate::proofs::ConstantNumbers::number_of_kind))]
pub fn number_at(
    types: &TypeNumbers<'_>,
    ty: &TypeNode,
    value: &ValNode,
) -> Result<Option<u64>, AllocError>
    ensures number { IfOk result (λ o. o ≡ number_at (resolved (named_types types.now) (ty_of ty.now)) (val_of value.now)) }
{
    let kind = types.kind(ty)?;
    Ok(kind_number(kind, value))
}

fn kind_literal(kind: Option<TypeKind>, literal: &Literal) -> Option<u64>
    ensures { result ≡ kind_number kind (Int literal.now) }
{
    match kind {
        Some(TypeKind::Integer(width)) => literal_in(width, literal.text.as_slice()),
        _ => None,
    }
}

/// The number of an integer that is written for an integer type; none of another type.
#[tactic(auto, using(crate::proofs::ConstantNumbers::number_of_kind))]
pub fn literal_at(
    types: &TypeNumbers<'_>,
    ty: &TypeNode,
    literal: &Literal,
) -> Result<Option<u64>, AllocError>
    ensures number { IfOk result (λ o. o ≡ number_at (resolved (named_types types.now) (ty_of ty.now)) (Int literal.now)) }
{
    let kind = types.kind(ty)?;
    Ok(kind_literal(kind, literal))
}

/// The number of a constant of an integer type, read as a signed one; none of another type.
#[tactic(auto, using(crate::proofs::ConstantNumbers::signed_of_kind))]
fn signed_at(
    types: &TypeNumbers<'_>,
    ty: &TypeNode,
    value: &ValNode,
) -> Result<Option<i64>, AllocError>
    ensures number { IfOk result (λ o. o ≡ signed_at (resolved (named_types types.now) (ty_of ty.now)) (val_of value.now)) }
{
    let kind = types.kind(ty)?;
    Ok(kind_signed(kind, value))
}

/// The indices of a `getelementptr` that are constants, as signed numbers.
pub fn index_numbers(
    alloc: Global,
    types: &TypeNumbers<'_>,
    indices: &[TypedVal],
) -> Result<Vec<Option<i64>>, AllocError>
    ensures numbers { IfOk result (λ v. v.items ≡ map (index_number (named_types types.now)) (map typed_of indices.now)) }
{
    let mut numbers = Vec::new(alloc);
    for index in indices {
        let number = signed_at(types, &index.ty, &index.value)?;
        numbers.push(number)?;
    }
    Ok(numbers)
}
