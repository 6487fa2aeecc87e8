//! How constant indices move a pointer.

ghost use Rattle.std.specs.Prelude.{◌≡◌, ◌<◌, ◌≤◌, ◌+ℤ◌, IfOk, IfSome, length, pos, Some};
ghost use Rattle.pg_num.specs.Pointers.{moved_by, offset_of};
ghost use Rattle.pg_read_ast.specs.Views.{ty_of};
ghost use Rattle.pg_ir.specs.declared.value.Scale.TheVariants as scales;
ghost use Rattle.pg_check_types.specs.Resolved.{resolved};
ghost use Rattle.pg_num.specs.declared.limits.TheConstants.{SIZE_LIMIT};
ghost use Rattle.pg_check_types.specs.Layout.{size_of, fields_end};
ghost use Rattle.pg_check_types.specs.Table.{type_at};
ghost use Rattle.pg_check_types.specs.Known.{denoted, IsWithin};
ghost use Rattle.pg_check_types.specs.NumberedTypes.{named_types, table_of};
ghost use Rattle.pg_check_rules.specs.ValueConditions.{field_at};
ghost use Rattle.pg_check_rules.specs.Constants.{index_move, offset_at};
ghost use Rattle.pg_check_constants.specs.Sizes.{AllFit, TypeFits};
ghost use Rattle.pg_check_constants.specs.Indices.{scale_within, type_within, scales_within, scales_of, moves_of};

use crate::fields::{offset_behind, size_of, size_or_none};
use pg_check_rules::chosen_of;
use pg_check_types::{KnownTypes, Shape, TypeNumbers};
use pg_ir::Scale;
use pg_num::move_by;
use pg_read_ast::TypeNode;
use std::alloc::{AllocError, Global};

/// How an index moves a pointer, and the number of the type to which it goes.
#[derive(Clone, Copy, Debug, PartialEq, Eq)]
struct IndexStep {
    scale: Scale,
    next: Option<usize>,
}

/// How an index moves within a structure.
fn step_into_fields(types: &KnownTypes<'_>, number: usize, index: Option<i64>) -> IndexStep
    requires within { number < length (table_of types.now) }
    requires fits { fields_end (type_at (table_of types.now) number) ≤ SIZE_LIMIT }
    ensures scale { result.scale ≡ scales.Field (offset_at (type_at (table_of types.now) number) index) }
    ensures next { denoted (table_of types.now) result.next ≡ field_at (type_at (table_of types.now) number) index }
    ensures within { IsWithin (table_of types.now) result.next }
{
    match chosen_of(types, number, index) {
        Some(last) => IndexStep {
            scale: Scale::Field(offset_behind(types, last)),
            next: Some(last.field),
        },
        None => IndexStep {
            scale: Scale::Field(0),
            next: None,
        },
    }
}

/// How an index moves by whole elements.
fn step_into_elements(types: &KnownTypes<'_>, element: usize) -> IndexStep
    requires within { element < length (table_of types.now) }
    requires fits { size_of (type_at (table_of types.now) element) ≤ SIZE_LIMIT }
    ensures scale { result.scale ≡ scales.Times (size_of (type_at (table_of types.now) element)) }
    ensures next { result.next ≡ Some element }
{
    let size = size_of(types, element);
    IndexStep {
        scale: Scale::Times(size as u64),
        next: Some(element),
    }
}

/// How an index moves within a type.
fn step(types: &KnownTypes<'_>, number: Option<usize>, index: Option<i64>) -> IndexStep
    requires within { IsWithin (table_of types.now) number }
    requires fits { IfSome (denoted (table_of types.now) number) AllFit }
    ensures scale { result.scale ≡ scale_within (denoted (table_of types.now) number) index }
    ensures next { denoted (table_of types.now) result.next ≡ type_within (denoted (table_of types.now) number) index }
    ensures within { IsWithin (table_of types.now) result.next }
{
    let still = IndexStep {
        scale: Scale::Times(0),
        next: None,
    };
    match number {
        Some(number) => match types.shape_of_number(number) {
            Shape::Array(_, element) => step_into_elements(types, element),
            Shape::MoreFields(_, _) => step_into_fields(types, number, index),
            _ => still,
        },
        None => still,
    }
}

/// How indices move within a type, one after the other.
fn scales_within(
    alloc: Global,
    types: &KnownTypes<'_>,
    number: Option<usize>,
    indices: &[Option<i64>],
) -> Result<Vec<Scale>, AllocError>
    requires within { IsWithin (table_of types.now) number }
    requires fits { IfSome (denoted (table_of types.now) number) AllFit }
    ensures { IfOk result (λ v. v.items ≡ scales_within (denoted (table_of types.now) number) indices.now) }
{
    let mut scales = Vec::new(alloc);
    let mut current = number;
    for index in indices {
        let step = step(types, current, *index);
        scales.push(step.scale)?;
        current = step.next;
    }
    Ok(scales)
}

/// How indices move a pointer to a type that keeps within the limit of sizes: the first by the whole type, and the
/// others within it.
pub fn index_scales(
    alloc: Global,
    types: &TypeNumbers<'_>,
    ty: &TypeNode,
    indices: &[Option<i64>],
) -> Result<Vec<Scale>, AllocError>
    requires { TypeFits (named_types types.now) (ty_of ty.now) }
    ensures scales { IfOk result (λ v. v.items ≡ scales_of (resolved (named_types types.now) (ty_of ty.now)) indices.now) }
{
    let mut known = KnownTypes::new(types);
    let number = known.number(ty)?;
    match indices {
        [] => Ok(Vec::new(alloc)),
        [_, others @ ..] => {
            let size = size_or_none(&known, number);
            let mut scales = scales_within(alloc, &known, number, others)?;
            scales.insert(0, Scale::Times(size as u64))?;
            Ok(scales)
        }
    }
}

/// An offset that an index moves, modulo two to the 21.
fn moved_offset(offset: u32, scale: Scale, index: Option<i64>) -> u32
    ensures { result ≡ offset_of (pos offset +ℤ index_move scale index) }
{
    match scale {
        Scale::Times(bytes) => match index {
            Some(index) => {
                (offset as i128 + index as i128 * bytes as i128).rem_euclid(0x20_0000) as u32
            }
            None => offset % 0x20_0000,
        },
        Scale::Field(bytes) => ((offset as u64 + bytes as u64) % 0x20_0000) as u32,
    }
}

/// A pointer's word that indices move by constants.
pub(crate) fn moved_along(word: u64, scales: &[Scale], indices: &[Option<i64>]) -> u64
    requires { length scales.now ≡ length indices.now }
    ensures { result ≡ moved_by word (moves_of scales.now indices.now) }
{
    let mut offset = 0;
    for place in 0..scales.len() {
        offset = moved_offset(offset, scales[place], indices[place]);
    }
    move_by(word, offset as i64)
}
