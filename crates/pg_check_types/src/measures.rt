//! Sizes and alignments of types from those of their parts.

ghost use Rattle.std.specs.Prelude.{◌≡◌, ◌≤◌, ◌<◌, ◌+◌, ◌^◌, Some, None};
ghost use Rattle.pg_check_types.specs.declared.cap.TheConstants.{LAYOUT_CAP};
ghost use Rattle.pg_check_types.specs.Resolved.{ResolvedType, ArrayType, NoFields, MoreFields, PointerType, VoidType, IntegerType};
ghost use Rattle.pg_check_types.specs.Layout.{round_up, bytes_of};
ghost use Rattle.pg_check_types.specs.Capped.{capped, IsLayout};

use crate::cap::LAYOUT_CAP;
use crate::layout::Layout;
use pg_read_ast::pg_num::Width;

fn capped(bytes: u128) -> u32
    ensures value { result ≡ capped bytes }
    ensures small { result ≤ LAYOUT_CAP }
{
    bytes.min(LAYOUT_CAP as u128) as u32
}

/// The next multiple of an alignment.
pub fn round_up(at: u32, alignment: u32) -> u32
    requires least { 1 ≤ alignment }
    requires greatest { alignment ≤ 8 }
    requires small { at ≤ LAYOUT_CAP }
    ensures value { result ≡ round_up at alignment }
    ensures near { result < at + alignment }
{
    (at + (alignment - 1)) / alignment * alignment
}

/// The bytes that an integer of a width takes in memory.
pub fn bytes_of(width: Width) -> u32
    ensures value { result ≡ bytes_of width }
    ensures least { 1 ≤ result }
    ensures greatest { result ≤ 8 }
{
    match width {
        Width::W1 => 1,
        Width::W8 => 1,
        Width::W16 => 2,
        Width::W32 => 4,
        Width::W64 => 8,
    }
}

/// The layout of a type that isn't an aggregate.
fn scalar_layout(bytes: u32) -> Layout
    requires least { 1 ≤ bytes }
    requires greatest { bytes ≤ 8 }
    ensures size { result.size ≡ bytes }
    ensures fields_end { result.fields_end ≡ 0 }
    ensures alignment { result.alignment ≡ bytes }
    ensures fields { result.fields ≡ 0 }
    ensures shorter { result.shorter ≡ None }
{
    Layout {
        size: bytes,
        fields_end: 0,
        alignment: bytes,
        fields: 0,
        shorter: None,
    }
}

pub(crate) fn integer_layout(width: Width) -> Layout
    ensures layout { IsLayout result (IntegerType width) }
    ensures shorter { result.shorter ≡ None }
{
    scalar_layout(bytes_of(width))
}

pub(crate) fn pointer_layout() -> Layout
    ensures layout { IsLayout result PointerType }
    ensures shorter { result.shorter ≡ None }
{
    scalar_layout(8)
}

/// The layout of what takes no bytes.
fn empty_layout() -> Layout
    ensures size { result.size ≡ 0 }
    ensures fields_end { result.fields_end ≡ 0 }
    ensures alignment { result.alignment ≡ 1 }
    ensures fields { result.fields ≡ 0 }
    ensures shorter { result.shorter ≡ None }
{
    Layout {
        size: 0,
        fields_end: 0,
        alignment: 1,
        fields: 0,
        shorter: None,
    }
}

pub(crate) fn void_layout() -> Layout
    ensures layout { IsLayout result VoidType }
    ensures shorter { result.shorter ≡ None }
{
    empty_layout()
}

/// The layout of a structure without fields.
pub(crate) fn no_fields_layout() -> Layout
    ensures layout { IsLayout result NoFields }
    ensures shorter { result.shorter ≡ None }
{
    empty_layout()
}

pub(crate) fn array_layout(count: u64, element: Layout) -> Layout
    ensures layout { (t : ResolvedType) → IsLayout element t → IsLayout result (ArrayType count t) }
    ensures shorter { result.shorter ≡ None }
{
    Layout {
        size: capped(count as u128 * element.size as u128),
        fields_end: 0,
        alignment: element.alignment,
        fields: 0,
        shorter: None,
    }
}

/// The layout of a structure with one more field, from which a way back leads to the structure of a number.
pub(crate) fn field_layout(front: Layout, field: Layout, shorter: usize) -> Layout
    requires { front.fields + 1 < 2 ^ 64 }
    ensures layout { (s t : ResolvedType) → IsLayout front s → IsLayout field t → IsLayout result (MoreFields s t) }
    ensures shorter { result.shorter ≡ Some shorter }
{
    let alignment = front.alignment.max(field.alignment);
    let at = round_up(front.fields_end, field.alignment);
    let fields_end = capped(at as u128 + field.size as u128);
    let size = capped(round_up(fields_end, alignment) as u128);
    Layout {
        size,
        fields_end,
        alignment,
        fields: front.fields + 1,
        shorter: Some(shorter),
    }
}
