//! The bytes of initialisers.

ghost use Rattle.std.specs.Prelude.{◌≡◌, ◌<◌, ◌≤◌, ◌+◌, ◌-◌, ◌++◌, OnOk, IfOk, IfSome, None, [], length, map, drop, replicate};
ghost use Rattle.pg_num.specs.declared.limits.TheConstants.{SIZE_LIMIT};
ghost use Rattle.pg_read_ast.specs.Syntax.{consts};
ghost use Rattle.pg_read_ast.specs.Views.{val_of, const_of, typed_const_of, tree_of};
ghost use Rattle.pg_check_types.specs.Table.{type_at};
ghost use Rattle.pg_check_types.specs.Known.{denoted, IsWithin};
ghost use Rattle.pg_check_types.specs.NumberedTypes.{table_of};
ghost use Rattle.pg_check_types.specs.Layout.{field_list, size_of, alignment_of, round_up};
ghost use Rattle.pg_check_rules.specs.Constants.{value_bytes, const_bytes, element_bytes, field_bytes};
ghost use Rattle.pg_check_rules.specs.Fields.{AreFields};
ghost use Rattle.pg_check_constants.specs.Initialisers.{kind_bytes, IsFieldAt};
ghost use Rattle.pg_check_constants.specs.Sizes.{AllFit, ValFits, ConstFits, PartsFit};

use crate::bytes::{add_little_endian, add_zeros};
use crate::constants::pointer_word;
use crate::fields::{field_range, size_of};
use crate::globals::Globals;
use pg_check_rules::{constant_number, element_in, fields_of, nth_field};
use pg_check_types::{KnownTypes, TypeKind, bytes_of};
use pg_read_ast::{ConstNode, TypedConst, ValNode};
use std::alloc::AllocError;

/// Adds the bytes of a value of a kind of type, which has a size.
fn add_of_kind(
    globals: &Globals<'_>,
    bytes: &mut Vec<u8>,
    kind: TypeKind,
    size: u32,
    value: &ValNode,
) -> Result<(), AllocError>
    requires fits { ValFits (tree_of globals.now.symbols.tree.now).types (val_of value.now) }
    ensures bytes { OnOk result (bytes.new.items ≡ bytes.old.items
        ++ kind_bytes (tree_of globals.now.symbols.tree.now) kind size (val_of value.now)) }
{
    match kind {
        TypeKind::Integer(width) => {
            let number = constant_number(width, value).unwrap_or(0);
            add_little_endian(bytes, bytes_of(width), number)
        }
        TypeKind::Pointer => {
            let word = pointer_word(globals, value)?;
            add_little_endian(bytes, 8, word)
        }
        _ => add_zeros(bytes, size),
    }
}

/// Adds the bytes of a value at a type, which `known` knows by its number.
#[tactic(auto, using(crate::proofs::ConstantBytes::bytes_of_kind))]
fn add_value(
    globals: &Globals<'_>,
    known: &KnownTypes<'_>,
    bytes: &mut Vec<u8>,
    number: usize,
    value: &ValNode,
) -> Result<(), AllocError>
    requires within { number < length (table_of known.now) }
    requires size { size_of (type_at (table_of known.now) number) ≤ SIZE_LIMIT }
    requires fits { ValFits (tree_of globals.now.symbols.tree.now).types (val_of value.now) }
    ensures bytes { OnOk result (bytes.new.items ≡ bytes.old.items
        ++ value_bytes (tree_of globals.now.symbols.tree.now) (type_at (table_of known.now) number) (val_of value.now)) }
{
    let kind = known.kind_of_number(number);
    let size = size_of(known, number);
    add_of_kind(globals, bytes, kind, size, value)
}

/// Adds bytes as they are written.
fn add_written(bytes: &mut Vec<u8>, text: &[u8]) -> Result<(), AllocError>
    ensures { OnOk result (bytes.new.items ≡ bytes.old.items ++ text.now) }
{
    bytes.extend_from_slice(text)
}

/// Adds the zeros that a structure of a size lacks, whose bytes are those from `start` on.
fn fill(bytes: &mut Vec<u8>, start: usize, size: u32) -> Result<(), AllocError>
    ensures { OnOk result (bytes.new.items ≡ bytes.old.items ++ replicate (size - (length bytes.old.items - start)) 0) }
{
    add_zeros(bytes, missing(size, bytes.len(), start))
}

/// How many bytes lack up to a size, where there are those from `start` to `end`.
fn missing(size: u32, end: usize, start: usize) -> u32
    ensures { result ≡ size - (end - start) }
{
    let count = end.saturating_sub(start);
    if count < size as usize {
        size - count as u32
    } else {
        0
    }
}

/// Adds the zeros before a field, where there are `at` bytes of its structure, and gives where the field ends.
fn add_padding(
    known: &KnownTypes<'_>,
    bytes: &mut Vec<u8>,
    at: u32,
    number: usize,
) -> Result<u32, AllocError>
    requires within { number < length (table_of known.now) }
    requires at { at ≤ SIZE_LIMIT }
    requires fits { round_up at (alignment_of (type_at (table_of known.now) number)) + size_of (type_at (table_of known.now) number) ≤ SIZE_LIMIT }
    ensures end { IfOk result (λ n. n ≡ round_up at (alignment_of (type_at (table_of known.now) number)) + size_of (type_at (table_of known.now) number)) }
    ensures bytes { OnOk result (bytes.new.items ≡ bytes.old.items
        ++ replicate (round_up at (alignment_of (type_at (table_of known.now) number)) - at) 0) }
{
    let range = field_range(known, at, number);
    add_zeros(bytes, range.start - at)?;
    Ok(range.end)
}

/// The field at a place of a structure, whose fields these are.
fn field_at(known: &KnownTypes<'_>, number: usize, fields: &[usize], place: usize) -> Option<usize>
    requires { AreFields (table_of known.now) (type_at (table_of known.now) number) fields.now }
    ensures within { IsWithin (table_of known.now) result }
    ensures field { IfSome result (IsFieldAt (table_of known.now) (field_list (type_at (table_of known.now) number)) place) }
    ensures none { result ≡ None → drop place (field_list (type_at (table_of known.now) number)) ≡ [] }
{
    nth_field(fields, place)
}

/// Adds the bytes of a constant of a type, which `known` knows by its number.
#[cycle(bytes)]
#[tactic(auto, unfolding(pg_check_rules::specs::Constants::const_bytes))]
pub(crate) fn add_const(
    globals: &Globals<'_>,
    known: &KnownTypes<'_>,
    bytes: &mut Vec<u8>,
    number: usize,
    value: &ConstNode,
) -> Result<(), AllocError>
    requires within { number < length (table_of known.now) }
    requires ty { AllFit (type_at (table_of known.now) number) }
    requires fits { ConstFits (tree_of globals.now.symbols.tree.now).types (const_of value.now) }
    ensures bytes { OnOk result (bytes.new.items ≡ bytes.old.items
        ++ const_bytes (tree_of globals.now.symbols.tree.now) (type_at (table_of known.now) number) (const_of value.now)) }
{
    match value {
        ConstNode::Val(value) => add_value(globals, known, bytes, number, value),
        ConstNode::Bytes(literal) => add_written(bytes, literal.text.as_slice()),
        ConstNode::Array(_, parts) => match element_in(known, number) {
            Some(element) => { add_elements(globals, known, bytes, element, parts.as_slice()) }
            None => Ok(()),
        },
        ConstNode::Struct(_, parts) => {
            let size = size_of(known, number);
            let start = bytes.len();
            add_fields(globals, known, bytes, number, parts.as_slice())?;
            fill(bytes, start, size)
        }
    }
}

/// Adds the bytes of an element or a field at the type of that.
#[cycle(bytes)]
fn add_part(
    globals: &Globals<'_>,
    known: &KnownTypes<'_>,
    bytes: &mut Vec<u8>,
    number: usize,
    part: &TypedConst,
) -> Result<(), AllocError>
    requires within { number < length (table_of known.now) }
    requires ty { AllFit (type_at (table_of known.now) number) }
    requires fits { ConstFits (tree_of globals.now.symbols.tree.now).types (typed_const_of part.now).value }
    ensures bytes { OnOk result (bytes.new.items ≡ bytes.old.items
        ++ const_bytes (tree_of globals.now.symbols.tree.now) (type_at (table_of known.now) number) (typed_const_of part.now).value) }
{
    add_const(globals, known, bytes, number, &part.value)
}

/// Adds the bytes of elements of a type.
#[cycle(bytes)]
fn add_elements(
    globals: &Globals<'_>,
    known: &KnownTypes<'_>,
    bytes: &mut Vec<u8>,
    element: usize,
    parts: &[TypedConst],
) -> Result<(), AllocError>
    requires within { element < length (table_of known.now) }
    requires ty { AllFit (type_at (table_of known.now) element) }
    requires fits { PartsFit (tree_of globals.now.symbols.tree.now).types (consts (map typed_const_of parts.now)) }
    ensures bytes { OnOk result (bytes.new.items ≡ bytes.old.items
        ++ element_bytes (tree_of globals.now.symbols.tree.now) (type_at (table_of known.now) element) (consts (map typed_const_of parts.now))) }
{
    for part in parts {
        add_part(globals, known, bytes, element, part)?;
    }
    Ok(())
}

/// Adds the bytes of the fields of a structure, from its first byte on; none of another type.
#[cycle(bytes)]
fn add_fields(
    globals: &Globals<'_>,
    known: &KnownTypes<'_>,
    bytes: &mut Vec<u8>,
    number: usize,
    parts: &[TypedConst],
) -> Result<(), AllocError>
    requires within { number < length (table_of known.now) }
    requires ty { AllFit (type_at (table_of known.now) number) }
    requires fits { PartsFit (tree_of globals.now.symbols.tree.now).types (consts (map typed_const_of parts.now)) }
    ensures bytes { OnOk result (bytes.new.items ≡ bytes.old.items
        ++ field_bytes (tree_of globals.now.symbols.tree.now) 0 (field_list (type_at (table_of known.now) number)) (consts (map typed_const_of parts.now))) }
{
    let fields = fields_of(globals.alloc, known, number)?;
    let mut at = 0;
    for (place, part) in parts.iter().enumerate() {
        match field_at(known, number, fields.as_slice(), place) {
            Some(field) => {
                at = add_padding(known, bytes, at, field)?;
                add_part(globals, known, bytes, field, part)?;
            }
            None => return Ok(()),
        }
    }
    Ok(())
}
