//! The parts of types by number: the elements of an array, the fields of a structure.

ghost use Rattle.std.specs.Prelude.{◌≡◌, ◌<◌, ◌≤◌, ◌+◌, Some, IfOk, IfSome, length, slice_get, pos, None};
ghost use Rattle.pg_check_types.specs.Layout.{field_list};
ghost use Rattle.pg_check_types.specs.Table.{type_at, IsBeginning, IsShorter};
ghost use Rattle.pg_check_types.specs.Known.{denoted, IsWithin};
ghost use Rattle.pg_check_types.specs.NumberedTypes.{table_of};
ghost use Rattle.pg_check_rules.specs.ValueConditions.{element_of, field_at};
ghost use Rattle.pg_check_rules.specs.Fields.{HasNoFields, IsLast, IsChosen, AreFields, place_of_index};

use pg_check_types::{KnownTypes, Shape};
use std::alloc::{AllocError, Global};

/// The number of the type of an array's elements; none of another type.
pub fn element_in(types: &KnownTypes<'_>, number: usize) -> Option<usize>
    requires { number < length (table_of types.now) }
    ensures within { IsWithin (table_of types.now) result }
    ensures element { denoted (table_of types.now) result ≡ element_of (Some (type_at (table_of types.now) number)) }
{
    match types.shape_of_number(number) {
        Shape::Array(_, element) => Some(element),
        _ => None,
    }
}

/// The last field of a structure, and the structure of the fields before it, by the numbers of their types.
#[derive(Clone, Copy, Debug, PartialEq, Eq)]
pub struct LastField {
    pub front: usize,
    pub field: usize,
}

/// The last field of a structure; none of a type that has no fields.
fn last_field(types: &KnownTypes<'_>, number: usize) -> Option<LastField>
    requires { number < length (table_of types.now) }
    ensures last { IfSome result (IsLast (table_of types.now) number) }
    ensures none { result ≡ None → HasNoFields (type_at (table_of types.now) number) }
{
    match types.shape_of_number(number) {
        Shape::MoreFields(front, field) => Some(LastField { front, field }),
        _ => None,
    }
}

/// The structure of the fields before the last of a structure that has one.
fn front_of(types: &KnownTypes<'_>, number: usize) -> usize
    requires within { number < length (table_of types.now) }
    requires some { 1 ≤ length (field_list (type_at (table_of types.now) number)) }
    ensures shorter { IsShorter (table_of types.now) (type_at (table_of types.now) number) number result }
    ensures fields { length (field_list (type_at (table_of types.now) result)) + 1 ≡ length (field_list (type_at (table_of types.now) number)) }
{
    match last_field(types, number) {
        Some(last) => last.front,
        None => unreachable!(),
    }
}

/// Where the step back from a structure leads; none where that has fewer fields than these.
fn step_back(types: &KnownTypes<'_>, number: usize, count: usize) -> Option<usize>
    requires { number < length (table_of types.now) }
    ensures shorter { IfSome result (IsShorter (table_of types.now) (type_at (table_of types.now) number) number) }
    ensures fields { IfSome result (λ n. count ≤ length (field_list (type_at (table_of types.now) n))) }
{
    let layout = types.layout_of_number(number);
    match layout.shorter {
        Some(shorter) => {
            let there = types.layout_of_number(shorter);
            if there.fields < count {
                None
            } else {
                Some(shorter)
            }
        }
        None => None,
    }
}

/// A shorter structure on the way to that of the first fields, by the longest step that doesn't go past it.
fn nearer(types: &KnownTypes<'_>, number: usize, count: usize) -> usize
    requires within { number < length (table_of types.now) }
    requires fields { count < length (field_list (type_at (table_of types.now) number)) }
    ensures shorter { IsShorter (table_of types.now) (type_at (table_of types.now) number) number result }
    ensures fields { count ≤ length (field_list (type_at (table_of types.now) result)) }
{
    match step_back(types, number, count) {
        Some(shorter) => shorter,
        None => front_of(types, number),
    }
}

/// The structure of the first fields of a structure that has as many at least, found in the logarithm of their number.
fn up_to(types: &KnownTypes<'_>, number: usize, count: usize) -> usize
    requires within { number < length (table_of types.now) }
    requires fields { count ≤ length (field_list (type_at (table_of types.now) number)) }
    ensures within { result < length (table_of types.now) }
    ensures beginning { IsBeginning (type_at (table_of types.now) result) (type_at (table_of types.now) number) }
    ensures fields { length (field_list (type_at (table_of types.now) result)) ≡ count }
{
    let mut rest = number;
    // The label is for the proof: see docs/CONTRIBUTING.md.
    'rest: while types.layout_of_number(rest).fields > count {
        rest = nearer(types, rest, count);
    }
    rest
}

/// The field at a place of a structure, counted from 0, and the structure of the fields before it.
fn field_at(types: &KnownTypes<'_>, number: usize, place: usize) -> Option<LastField>
    requires { number < length (table_of types.now) }
    ensures chosen { IfSome result (IsChosen (table_of types.now) (type_at (table_of types.now) number) (Some (pos place))) }
    ensures none { result ≡ None → field_at (type_at (table_of types.now) number) (Some (pos place)) ≡ None }
{
    let layout = types.layout_of_number(number);
    if place < layout.fields {
        let front = up_to(types, number, place + 1);
        last_field(types, front)
    } else {
        None
    }
}

/// The place that an index chooses, counted from 0.
fn place_of_index(index: Option<i64>) -> Option<usize>
    ensures { result ≡ place_of_index index }
{
    match index {
        Some(index) => {
            if index < 0 {
                None
            } else {
                Some(index as usize)
            }
        }
        None => None,
    }
}

/// The field that an index chooses of a structure, and the structure of the fields before it; none where it chooses
/// none.
pub fn chosen_of(types: &KnownTypes<'_>, number: usize, index: Option<i64>) -> Option<LastField>
    requires { number < length (table_of types.now) }
    ensures chosen { IfSome result (IsChosen (table_of types.now) (type_at (table_of types.now) number) index) }
    ensures none { result ≡ None → field_at (type_at (table_of types.now) number) index ≡ None }
{
    match place_of_index(index) {
        Some(place) => field_at(types, number, place),
        None => None,
    }
}

/// The numbers of the types of a structure's fields, in order; none of another type.
pub fn fields_of(
    alloc: Global,
    types: &KnownTypes<'_>,
    number: usize,
) -> Result<Vec<usize>, AllocError>
    requires { number < length (table_of types.now) }
    ensures { IfOk result (λ v. AreFields (table_of types.now) (type_at (table_of types.now) number) v.items) }
{
    let mut fields = Vec::new(alloc);
    let mut rest = number;
    // The label is for the proof: see docs/CONTRIBUTING.md.
    'fields: loop {
        match last_field(types, rest) {
            Some(last) => {
                fields.push(last.field)?;
                rest = last.front;
            }
            None => break,
        }
    }
    fields.reverse();
    Ok(fields)
}

/// The field at a place among fields, counted from 0.
pub fn nth_field(fields: &[usize], place: usize) -> Option<usize>
    ensures { result ≡ slice_get fields.now place }
{
    fields.get(place).copied()
}
