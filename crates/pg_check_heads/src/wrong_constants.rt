//! Constants that aren't of the types that are written before them.

ghost use Rattle.std.specs.Prelude.{◌≡◌, ◌<◌, IfOk, Some, length, map, slice_get};
ghost use Rattle.std.specs.List.{flat_map, enumerate_from};
ghost use Rattle.pg_read_ast.specs.Views.{ty_of, const_of, typed_const_of};
ghost use Rattle.pg_check_types.specs.Resolved.{resolved};
ghost use Rattle.pg_check_types.specs.Table.{Grows, type_at};
ghost use Rattle.pg_check_types.specs.Known.{denoted, IsWithin};
ghost use Rattle.pg_check_types.specs.Kinds.{fails, is_as};
ghost use Rattle.pg_check_types.specs.NumberedTypes.{named_types, table_of};
ghost use Rattle.pg_check_rules.specs.Conditions.{at_if};
ghost use Rattle.pg_check_rules.specs.Places.{type_span};
ghost use Rattle.pg_check_rules.specs.ValueConditions.{wrong_const, fits_bytes, fits_elements, fits_fields, element_of, fields_of};
ghost use Rattle.pg_check_rules.specs.Earliest.{earliest};
ghost use Rattle.pg_check_rules.specs.Fields.{AreFields, field_type};
ghost use Rattle.pg_check_heads.specs.ConstantParts.{AllWithin, part_row, field_row, fits_kind};

use pg_check_rules::{earlier, element_in, fields_of, nth_field, place_if, type_span};
use pg_check_types::{KnownTypes, Shape, TypeKind, TypeNumbers};
use pg_num::Width;
use pg_read_ast::{ConstNode, Literal, TypeNode, TypedConst};
use pg_read_lex::Span;
use std::alloc::{AllocError, Global};

/// Whether bytes are so many elements of a kind.
fn fits_kind(kind: TypeKind, count: u64, bytes: &[u8]) -> bool
    ensures { result ≡ fits_kind kind count bytes.now }
{
    match kind {
        TypeKind::Integer(Width::W8) => count == bytes.len() as u64,
        _ => false,
    }
}

/// Whether bytes are of the type of a number.
fn fits_bytes(types: &KnownTypes<'_>, number: usize, bytes: &[u8]) -> bool
    requires { number < length (table_of types.now) }
    ensures { result ≡ fits_bytes (type_at (table_of types.now) number) bytes.now }
{
    match types.shape_of_number(number) {
        Shape::Array(count, element) => fits_kind(types.kind_of_number(element), count, bytes),
        _ => false,
    }
}

/// Whether the type of a number is an array of so many elements.
fn fits_elements(types: &KnownTypes<'_>, number: usize, count: usize) -> bool
    requires { number < length (table_of types.now) }
    ensures { result ≡ fits_elements count (type_at (table_of types.now) number) }
{
    match types.shape_of_number(number) {
        Shape::Array(elements, _) => elements == count as u64,
        _ => false,
    }
}

/// Whether the type of a number, whose fields these are, is a structure of so many fields.
fn fits_fields(types: &KnownTypes<'_>, number: usize, fields: &[usize], count: usize) -> bool
    requires within { number < length (table_of types.now) }
    requires fields { AreFields (table_of types.now) (type_at (table_of types.now) number) fields.now }
    ensures { result ≡ fits_fields count (type_at (table_of types.now) number) }
{
    match types.shape_of_number(number) {
        Shape::NoFields => count == 0,
        Shape::MoreFields(_, _) => fields.len() == count,
        _ => false,
    }
}

/// Bytes that aren't of their type.
fn wrong_bytes(types: &KnownTypes<'_>, number: Option<usize>, literal: &Literal) -> Option<Span>
    requires { IsWithin (table_of types.now) number }
    ensures { result ≡ earliest (at_if (fails (λ u. fits_bytes u literal.now.text) (denoted (table_of types.now) number)) literal.now.span) }
{
    match number {
        Some(number) => {
            let fits = fits_bytes(types, number, literal.text.as_slice());
            place_if(!fits, literal.span)
        }
        None => None,
    }
}

/// An array that hasn't as many elements as its type.
fn wrong_array(
    types: &KnownTypes<'_>,
    number: Option<usize>,
    count: usize,
    span: Span,
) -> Option<Span>
    requires { IsWithin (table_of types.now) number }
    ensures { result ≡ earliest (at_if (fails (fits_elements count) (denoted (table_of types.now) number)) span) }
{
    match number {
        Some(number) => {
            let fits = fits_elements(types, number, count);
            place_if(!fits, span)
        }
        None => None,
    }
}

/// A structure that hasn't as many fields as its type, whose fields these are.
fn wrong_struct(
    types: &KnownTypes<'_>,
    number: Option<usize>,
    fields: &[usize],
    count: usize,
    span: Span,
) -> Option<Span>
    requires within { IsWithin (table_of types.now) number }
    requires fields { map (field_type (table_of types.now)) fields.now ≡ map (λ u. Some u) (fields_of (denoted (table_of types.now) number)) }
    ensures { result ≡ earliest (at_if (fails (fits_fields count) (denoted (table_of types.now) number)) span) }
{
    match number {
        Some(number) => {
            let fits = fits_fields(types, number, fields, count);
            place_if(!fits, span)
        }
        None => None,
    }
}

/// The number of the type of an array's elements; none of another type, or of none.
fn element_number(types: &KnownTypes<'_>, number: Option<usize>) -> Option<usize>
    requires { IsWithin (table_of types.now) number }
    ensures within { IsWithin (table_of types.now) result }
    ensures element { denoted (table_of types.now) result ≡ element_of (denoted (table_of types.now) number) }
{
    match number {
        Some(number) => element_in(types, number),
        None => None,
    }
}

/// The numbers of the types of a structure's fields; none of another type.
fn field_numbers(
    alloc: Global,
    types: &KnownTypes<'_>,
    number: Option<usize>,
) -> Result<Vec<usize>, AllocError>
    requires { IsWithin (table_of types.now) number }
    ensures types { IfOk result (λ v. map (field_type (table_of types.now)) v.items ≡ map (λ u. Some u) (fields_of (denoted (table_of types.now) number))) }
    ensures within { IfOk result (λ v. AllWithin (table_of types.now) v.items) }
{
    match number {
        Some(number) => fields_of(alloc, types, number),
        None => Ok(Vec::new(alloc)),
    }
}

/// The number of the field at a place.
fn field_in(types: &KnownTypes<'_>, fields: &[usize], place: usize) -> Option<usize>
    requires { AllWithin (table_of types.now) fields.now }
    ensures number { result ≡ slice_get fields.now place }
    ensures within { IsWithin (table_of types.now) result }
{
    nth_field(fields, place)
}

/// A type that isn't the one that is asked for, both by their numbers.
fn wrong_part(
    types: &KnownTypes<'_>,
    expected: Option<usize>,
    number: Option<usize>,
    ty: &TypeNode,
) -> Option<Span>
    requires expected { IsWithin (table_of types.now) expected }
    requires number { IsWithin (table_of types.now) number }
    ensures { result ≡ earliest (at_if (fails (is_as (denoted (table_of types.now) expected)) (denoted (table_of types.now) number)) (type_span (ty_of ty.now))) }
{
    let agrees = types.agree_by_number(expected, number);
    place_if(!agrees, type_span(ty))
}

/// The earliest place at which a constant isn't of the type of a number, the values in it aside.
#[cycle(wrong)]
fn wrong_numbered(
    alloc: Global,
    types: &mut KnownTypes<'_>,
    number: Option<usize>,
    value: &ConstNode,
) -> Result<Option<Span>, AllocError>
    requires { IsWithin (table_of types.old) number }
    ensures place { IfOk result (λ o. o ≡ earliest (wrong_const (named_types types.old) (denoted (table_of types.old) number) (const_of value.now))) }
    ensures items { types.new.items ≡ types.old.items }
    ensures grows { Grows (table_of types.old) (table_of types.new) }
{
    match value {
        ConstNode::Val(_) => Ok(None),
        ConstNode::Bytes(literal) => Ok(wrong_bytes(types, number, literal)),
        ConstNode::Array(span, parts) => {
            let parts = parts.as_slice();
            let own = wrong_array(types, number, parts.len(), *span);
            let element = element_number(types, number);
            let inner = wrong_elements(alloc, types, element, parts)?;
            Ok(earlier(own, inner))
        }
        ConstNode::Struct(span, parts) => {
            let parts = parts.as_slice();
            let fields = field_numbers(alloc, types, number)?;
            let own = wrong_struct(types, number, fields.as_slice(), parts.len(), *span);
            let inner = wrong_fields(alloc, types, fields.as_slice(), parts)?;
            Ok(earlier(own, inner))
        }
    }
}

/// The earliest place at which a part of a constant isn't of the type that is asked for, or not of its own.
#[cycle(wrong)]
fn wrong_typed(
    alloc: Global,
    types: &mut KnownTypes<'_>,
    expected: Option<usize>,
    part: &TypedConst,
) -> Result<Option<Span>, AllocError>
    requires { IsWithin (table_of types.old) expected }
    ensures place { IfOk result (λ o. o ≡ earliest (part_row (named_types types.old) (denoted (table_of types.old) expected) (typed_const_of part.now))) }
    ensures items { types.new.items ≡ types.old.items }
    ensures grows { Grows (table_of types.old) (table_of types.new) }
{
    let number = types.number(&part.ty)?;
    let own = wrong_part(types, expected, number, &part.ty);
    let inner = wrong_numbered(alloc, types, number, &part.value)?;
    Ok(earlier(own, inner))
}

/// The earliest place at which an element isn't right.
#[cycle(wrong)]
fn wrong_elements(
    alloc: Global,
    types: &mut KnownTypes<'_>,
    element: Option<usize>,
    parts: &[TypedConst],
) -> Result<Option<Span>, AllocError>
    requires { IsWithin (table_of types.old) element }
    ensures place { IfOk result (λ o. o ≡ earliest (flat_map (part_row (named_types types.old) (denoted (table_of types.old) element)) (map typed_const_of parts.now))) }
    ensures items { types.new.items ≡ types.old.items }
    ensures grows { Grows (table_of types.old) (table_of types.new) }
{
    let mut found = None;
    for part in parts {
        let own = wrong_typed(alloc, types, element, part)?;
        found = earlier(found, own);
    }
    Ok(found)
}

/// The earliest place at which a field isn't right.
#[cycle(wrong)]
fn wrong_fields(
    alloc: Global,
    types: &mut KnownTypes<'_>,
    fields: &[usize],
    parts: &[TypedConst],
) -> Result<Option<Span>, AllocError>
    requires { AllWithin (table_of types.old) fields.now }
    ensures place { IfOk result (λ o. o ≡ earliest (flat_map (field_row (named_types types.old) (table_of types.old) fields.now) (enumerate_from 0 (map typed_const_of parts.now)))) }
    ensures items { types.new.items ≡ types.old.items }
    ensures grows { Grows (table_of types.old) (table_of types.new) }
{
    let mut found = None;
    for (place, part) in parts.iter().enumerate() {
        let field = field_in(types, fields, place);
        let own = wrong_typed(alloc, types, field, part)?;
        found = earlier(found, own);
    }
    Ok(found)
}

/// The earliest place at which a constant isn't of its type, the values in it aside.
pub(crate) fn wrong_const(
    alloc: Global,
    types: &TypeNumbers<'_>,
    value: &ConstNode,
    ty: &TypeNode,
) -> Result<Option<Span>, AllocError>
    ensures place { IfOk result (λ o. o ≡ earliest (wrong_const (named_types types.now) (resolved (named_types types.now) (ty_of ty.now)) (const_of value.now))) }
{
    let mut known = KnownTypes::new(types);
    let number = known.number(ty)?;
    wrong_numbered(alloc, &mut known, number, value)
}
