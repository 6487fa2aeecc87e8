//! Where the fields of a structure lie.

ghost use Rattle.std.specs.Prelude.{◌≡◌, ◌<◌, ◌≤◌, ◌+◌, length};
ghost use Rattle.pg_num.specs.declared.limits.TheConstants.{SIZE_LIMIT};
ghost use Rattle.pg_check_types.specs.Layout.{size_of, size_or_none, alignment_of, round_up, next_offset};
ghost use Rattle.pg_check_types.specs.Table.{type_at};
ghost use Rattle.pg_check_types.specs.Known.{denoted, IsWithin};
ghost use Rattle.pg_check_types.specs.NumberedTypes.{table_of};

use pg_check_rules::LastField;
use pg_check_types::{KnownTypes, round_up};

/// The size of a type in bytes.
pub(crate) fn size_of(types: &KnownTypes<'_>, number: usize) -> u32
    requires within { number < length (table_of types.now) }
    requires fits { size_of (type_at (table_of types.now) number) ≤ SIZE_LIMIT }
    ensures size { result ≡ size_of (type_at (table_of types.now) number) }
    ensures small { result ≤ SIZE_LIMIT }
{
    types.layout_of_number(number).size
}

/// The size of a type in bytes, and 0 of one that is none.
pub fn size_or_none(types: &KnownTypes<'_>, number: Option<usize>) -> u32
    requires within { IsWithin (table_of types.now) number }
    requires fits { size_or_none (denoted (table_of types.now) number) ≤ SIZE_LIMIT }
    ensures size { result ≡ size_or_none (denoted (table_of types.now) number) }
    ensures small { result ≤ SIZE_LIMIT }
{
    match number {
        Some(number) => size_of(types, number),
        None => 0,
    }
}

/// Where a field begins in its structure, and where it ends.
#[derive(Clone, Copy, Debug, PartialEq, Eq)]
pub(crate) struct FieldRange {
    pub start: u32,
    pub end: u32,
}

/// Where a field lies that comes behind `at` bytes of its structure.
pub(crate) fn field_range(types: &KnownTypes<'_>, at: u32, number: usize) -> FieldRange
    requires within { number < length (table_of types.now) }
    requires at { at ≤ SIZE_LIMIT }
    requires fits { round_up at (alignment_of (type_at (table_of types.now) number)) + size_of (type_at (table_of types.now) number) ≤ SIZE_LIMIT }
    ensures start { result.start ≡ round_up at (alignment_of (type_at (table_of types.now) number)) }
    ensures end { result.end ≡ round_up at (alignment_of (type_at (table_of types.now) number)) + size_of (type_at (table_of types.now) number) }
    ensures behind { at ≤ result.start }
{
    let layout = types.layout_of_number(number);
    let start = round_up(at, layout.alignment);
    FieldRange {
        start,
        end: start + layout.size,
    }
}

/// Where a field begins that comes behind those of another structure.
pub(crate) fn offset_behind(types: &KnownTypes<'_>, last: LastField) -> u32
    requires front { last.front < length (table_of types.now) }
    requires field { last.field < length (table_of types.now) }
    requires fits { next_offset (type_at (table_of types.now) last.front) (type_at (table_of types.now) last.field)
        + size_of (type_at (table_of types.now) last.field) ≤ SIZE_LIMIT }
    ensures { result ≡ next_offset (type_at (table_of types.now) last.front) (type_at (table_of types.now) last.field) }
{
    let front = types.layout_of_number(last.front);
    let range = field_range(types, front.fields_end, last.field);
    range.start
}
