//! What types are refused for, row by row.

ghost use Rattle.std.specs.Prelude.{◌≡◌, IfOk, map};
ghost use Rattle.std.specs.List.{flat_map, list_any};
ghost use Rattle.pg_read_ast.specs.Views.{ty_of};
ghost use Rattle.pg_check_types.specs.NumberedTypes.{named_types};
ghost use Rattle.pg_check_rules.specs.Nodes.{tys_behind};
ghost use Rattle.pg_check_rules.specs.Earliest.{earliest};
ghost use Rattle.pg_check_rules.specs.TypeConditions.{unknown_type, wrong_count, array_count, void_part, wrong_type, is_large};

use crate::earliest::earlier;
use crate::places::type_span;
use pg_check_types::{TypeKind, TypeNumbers, element_count};
use pg_read_ast::pg_read_lex::Span;
use pg_read_ast::{Literal, TypeNode};
use std::alloc::AllocError;

/// A name without an item.
#[tactic(auto, unfolding(crate::specs::Earliest::earliest))]
fn unknown_type(types: &TypeNumbers<'_>, ty: &TypeNode) -> Option<Span>
    ensures { result ≡ earliest (unknown_type (named_types types.now) (ty_of ty.now)) }
{
    match ty {
        TypeNode::Named(name) => {
            if types.is_item(name.text.as_slice()) {
                None
            } else {
                Some(name.span)
            }
        }
        _ => None,
    }
}

/// The earliest name without an item.
pub fn unknown_types(types: &TypeNumbers<'_>, all: &[&TypeNode]) -> Option<Span>
    ensures { result ≡ earliest (flat_map (unknown_type (named_types types.now)) (tys_behind all.now)) }
{
    let mut found = None;
    for ty in all {
        found = earlier(found, unknown_type(types, ty));
    }
    found
}

/// A number of elements that doesn't fit.
#[tactic(auto, unfolding(crate::specs::Earliest::earliest))]
fn wrong_count(count: &Literal) -> Option<Span>
    ensures { result ≡ earliest (wrong_count count.now.text count.now.span) }
{
    match element_count(count.text.as_slice()) {
        Some(_) => None,
        None => Some(count.span),
    }
}

/// An array whose number of elements doesn't fit.
#[tactic(auto, unfolding(crate::specs::Earliest::earliest))]
fn array_count(ty: &TypeNode) -> Option<Span>
    ensures { result ≡ earliest (array_count (ty_of ty.now)) }
{
    match ty {
        TypeNode::Array(_, count, _) => wrong_count(count),
        _ => None,
    }
}

/// The earliest number of elements that doesn't fit.
pub fn wrong_counts(all: &[&TypeNode]) -> Option<Span>
    ensures { result ≡ earliest (flat_map array_count (tys_behind all.now)) }
{
    let mut found = None;
    for ty in all {
        found = earlier(found, array_count(ty));
    }
    found
}

/// An element or a field without a value.
#[tactic(auto, unfolding(crate::specs::Earliest::earliest))]
fn void_part(types: &TypeNumbers<'_>, ty: &TypeNode) -> Result<Option<Span>, AllocError>
    ensures place { IfOk result (λ o. o ≡ earliest (void_part (named_types types.now) (ty_of ty.now))) }
{
    match types.kind(ty)? {
        Some(TypeKind::Void) => Ok(Some(type_span(ty))),
        _ => Ok(None),
    }
}

/// The earliest field without a value.
fn void_fields(types: &TypeNumbers<'_>, fields: &[TypeNode]) -> Result<Option<Span>, AllocError>
    ensures place { IfOk result (λ o. o ≡ earliest (flat_map (void_part (named_types types.now)) (map ty_of fields.now))) }
{
    let mut found = None;
    for field in fields {
        found = earlier(found, void_part(types, field)?);
    }
    Ok(found)
}

/// An aggregate whose number of elements doesn't fit, or with a part without a value.
#[tactic(auto, unfolding(crate::specs::Earliest::earliest))]
fn wrong_type(types: &TypeNumbers<'_>, ty: &TypeNode) -> Result<Option<Span>, AllocError>
    ensures place { IfOk result (λ o. o ≡ earliest (wrong_type (named_types types.now) (ty_of ty.now))) }
{
    match ty {
        TypeNode::Array(_, count, element) => {
            let part = void_part(types, element)?;
            Ok(earlier(wrong_count(count), part))
        }
        TypeNode::Struct(_, fields) => void_fields(types, fields.as_slice()),
        _ => Ok(None),
    }
}

/// The earliest place at which an aggregate isn't right.
pub fn wrong_types(types: &TypeNumbers<'_>, all: &[&TypeNode]) -> Result<Option<Span>, AllocError>
    ensures place { IfOk result (λ o. o ≡ earliest (flat_map (wrong_type (named_types types.now)) (tys_behind all.now))) }
{
    let mut found = None;
    for ty in all {
        found = earlier(found, wrong_type(types, ty)?);
    }
    Ok(found)
}

/// Whether a type is an aggregate that is larger than types may be.
fn is_large(types: &TypeNumbers<'_>, ty: &TypeNode) -> Result<bool, AllocError>
    ensures large { IfOk result (λ b. b ≡ is_large (named_types types.now) (ty_of ty.now)) }
{
    match ty {
        TypeNode::Array(_, _, _) => types.is_oversize(ty),
        TypeNode::Struct(_, _) => types.is_oversize(ty),
        _ => Ok(false),
    }
}

/// Whether one of the types is an aggregate that is larger than types may be.
pub fn any_large(types: &TypeNumbers<'_>, all: &[&TypeNode]) -> Result<bool, AllocError>
    ensures large { IfOk result (λ b. b ≡ list_any (is_large (named_types types.now)) (tys_behind all.now)) }
{
    for ty in all {
        if is_large(types, ty)? {
            return Ok(true);
        }
    }
    Ok(false)
}
