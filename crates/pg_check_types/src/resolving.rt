//! The number of a type, its names read through.

ghost use Rattle.std.specs.Prelude.{◌≡◌, ℕ, IfOk, Some, Option, List, map};
ghost use Rattle.pg_read_ast.specs.Syntax.{tys};
ghost use Rattle.pg_read_ast.specs.Views.{ty_of};
ghost use Rattle.pg_check_types.specs.Resolved.{ResolvedType, NoFields, part_type, array_type, with_field, type_by, fields_by};
ghost use Rattle.pg_check_types.specs.Table.{types_of, Grows};
ghost use Rattle.pg_check_types.specs.Known.{denoted, IsWithin, AreWithin, Names, item_number};

use crate::literals::element_count;
use crate::names::place_of_name;
use crate::shape::Shape;
use crate::table::TypeTable;
use indexmap::IndexMap;
use pg_read_ast::TypeNode;
use pg_read_ast::pg_num::Width;
use std::alloc::AllocError;

/// The number of the type of an item's name, if the item is known.
#[tactic(auto, unfolding(crate::specs::Known::item_number))]
fn named_number(
    places: &IndexMap<&[u8], usize>,
    items: &[Option<usize>],
    name: &[u8],
) -> Option<usize>
    ensures { result ≡ item_number places.now items.now name.now }
{
    match place_of_name(places, name) {
        Some(place) => match items.get(place) {
            Some(number) => *number,
            None => None,
        },
        None => None,
    }
}

/// A type as an element or a field, which isn't `void`.
fn part_number(table: &TypeTable<'_>, number: Option<usize>) -> Option<usize>
    requires { IsWithin (types_of table.now) number }
    ensures value { denoted (types_of table.now) result ≡ part_type (denoted (types_of table.now) number) }
    ensures within { IsWithin (types_of table.now) result }
{
    match number {
        Some(number) => match table.shape(number) {
            Shape::Void => None,
            _ => Some(number),
        },
        None => None,
    }
}

/// The number of an array, whose elements' type has a number.
fn array_number(
    table: &mut TypeTable<'_>,
    count: Option<u64>,
    element: Option<usize>,
) -> Result<Option<usize>, AllocError>
    requires { IsWithin (types_of table.old) element }
    ensures value { IfOk result (λ o. denoted (types_of table.new) o ≡
        array_type count (part_type (denoted (types_of table.old) element))) }
    ensures within { IfOk result (λ o. IsWithin (types_of table.new) o) }
    ensures grows { Grows (types_of table.old) (types_of table.new) }
{
    let part = part_number(table, element);
    match (count, part) {
        (Some(count), Some(element)) => Ok(Some(table.array(count, element)?)),
        _ => Ok(None),
    }
}

/// The number of a structure with one field more, whose type has a number.
fn field_number(
    table: &mut TypeTable<'_>,
    front: Option<usize>,
    field: Option<usize>,
) -> Result<Option<usize>, AllocError>
    requires front { IsWithin (types_of table.old) front }
    requires field { IsWithin (types_of table.old) field }
    ensures value { IfOk result (λ o. denoted (types_of table.new) o ≡
        with_field (denoted (types_of table.old) front) (part_type (denoted (types_of table.old) field))) }
    ensures within { IfOk result (λ o. IsWithin (types_of table.new) o) }
    ensures grows { Grows (types_of table.old) (types_of table.new) }
{
    let part = part_number(table, field);
    match (front, part) {
        (Some(front), Some(field)) => Ok(Some(table.with_field(front, field)?)),
        _ => Ok(None),
    }
}

/// The number of a type, whose names are those of items with these numbers; none where it isn't a type.
#[cycle(resolve)]
#[tactic(auto, unfolding(crate::specs::Resolved::type_by))]
pub fn type_number(
    table: &mut TypeTable<'_>,
    places: &IndexMap<&[u8], usize>,
    items: &[Option<usize>],
    ty: &TypeNode,
) -> Result<Option<usize>, AllocError>
    requires { AreWithin (types_of table.old) (item_number places.now items.now) }
    ensures value { (named : List ℕ → Option ResolvedType) →
        Names (types_of table.old) (item_number places.now items.now) named →
        IfOk result (λ o. denoted (types_of table.new) o ≡ type_by named (ty_of ty.now)) }
    ensures within { IfOk result (λ o. IsWithin (types_of table.new) o) }
    ensures grows { Grows (types_of table.old) (types_of table.new) }
{
    match ty {
        TypeNode::I1(_) => Ok(Some(table.integer(Width::W1)?)),
        TypeNode::I8(_) => Ok(Some(table.integer(Width::W8)?)),
        TypeNode::I16(_) => Ok(Some(table.integer(Width::W16)?)),
        TypeNode::I32(_) => Ok(Some(table.integer(Width::W32)?)),
        TypeNode::I64(_) => Ok(Some(table.integer(Width::W64)?)),
        TypeNode::Ptr(_) => Ok(Some(table.pointer()?)),
        TypeNode::Void(_) => Ok(Some(table.void()?)),
        TypeNode::Array(_, count, element) => {
            let number = type_number(table, places, items, element)?;
            array_number(table, element_count(count.text.as_slice()), number)
        }
        TypeNode::Struct(_, fields) => fields_number(table, places, items, fields.as_slice()),
        TypeNode::Named(name) => Ok(named_number(places, items, name.text.as_slice())),
    }
}

/// The number of a structure of fields.
#[cycle(resolve)]
fn fields_number(
    table: &mut TypeTable<'_>,
    places: &IndexMap<&[u8], usize>,
    items: &[Option<usize>],
    fields: &[TypeNode],
) -> Result<Option<usize>, AllocError>
    requires { AreWithin (types_of table.old) (item_number places.now items.now) }
    ensures value { (named : List ℕ → Option ResolvedType) →
        Names (types_of table.old) (item_number places.now items.now) named →
        IfOk result (λ o. denoted (types_of table.new) o ≡
        fields_by named (Some NoFields) (tys (map ty_of fields.now))) }
    ensures within { IfOk result (λ o. IsWithin (types_of table.new) o) }
    ensures grows { Grows (types_of table.old) (types_of table.new) }
{
    let mut front = Some(table.no_fields()?);
    for field in fields {
        let number = type_number(table, places, items, field)?;
        front = field_number(table, front, number)?;
    }
    Ok(front)
}
