//! Where globals end in memory, as far as a program may have them.

ghost use Rattle.std.specs.Prelude.{◌≡◌, ◌+◌, ◌<◌, ◌≤◌, nat_lt, length, IfOk};
ghost use Rattle.pg_num.specs.declared.layout.TheConstants.{GLOBALS_END};
ghost use Rattle.pg_ir.specs.WellFormed.{granules_for};
ghost use Rattle.pg_read_ast.specs.Views.{ty_of};
ghost use Rattle.pg_check_types.specs.Resolved.{resolved};
ghost use Rattle.pg_check_types.specs.Layout.{size_of, size_or_none};
ghost use Rattle.pg_check_types.specs.Table.{type_at};
ghost use Rattle.pg_check_types.specs.Known.{denoted, IsWithin};
ghost use Rattle.pg_check_types.specs.NumberedTypes.{named_types, table_of};
ghost use Rattle.pg_check_heads.specs.Ends.{ended};

use pg_check_rules::granules_for;
use pg_check_types::{KnownTypes, TypeNumbers};
use pg_num::layout::GLOBALS_END;
use pg_read_ast::TypeNode;
use std::alloc::AllocError;

/// A number of granules as it is kept: a larger one as the first that is too many.
fn kept(granules: u32) -> u32
    ensures { result ≡ ended granules }
{
    granules.min(GLOBALS_END + 1)
}

/// The granules that a global of the type of a number takes, as they are kept.
fn granules_of_type(types: &KnownTypes<'_>, number: usize) -> u32
    requires { number < length (table_of types.now) }
    ensures { result ≡ ended (granules_for (size_of (type_at (table_of types.now) number))) }
{
    kept(granules_for(types.layout_of_number(number).size))
}

/// The granules that a global of the type of a number takes, and those of nothing where there is no number.
fn granules_of_number(types: &KnownTypes<'_>, number: Option<usize>) -> u32
    requires { IsWithin (table_of types.now) number }
    ensures { result ≡ ended (granules_for (size_or_none (denoted (table_of types.now) number))) }
{
    match number {
        Some(number) => granules_of_type(types, number),
        None => 1,
    }
}

/// The granules that a global of a type takes, or one more than the globals may take if it takes more than that.
fn granules(types: &TypeNumbers<'_>, ty: &TypeNode) -> Result<u32, AllocError>
    ensures count { IfOk result (λ n. n ≡ ended (granules_for (size_or_none (resolved (named_types types.now) (ty_of ty.now))))) }
{
    let mut known = KnownTypes::new(types);
    let number = known.number(ty)?;
    Ok(granules_of_number(&known, number))
}

fn sum_of(one: u32, other: u32) -> u32
    requires one { one ≤ GLOBALS_END + 1 }
    requires other { other ≤ GLOBALS_END + 1 }
    ensures { result ≡ ended (one + other) }
{
    kept(one + other)
}

/// Where a global of a type ends that begins at a granule, or the first granule at which none may end if it ends behind
/// that.
pub(crate) fn end_after(
    types: &TypeNumbers<'_>,
    start: u32,
    ty: &TypeNode,
) -> Result<u32, AllocError>
    requires { start ≤ GLOBALS_END + 1 }
    ensures count { IfOk result (λ n. n ≡ ended (start + granules_for (size_or_none (resolved (named_types types.now) (ty_of ty.now))))) }
{
    let size = granules(types, ty)?;
    Ok(sum_of(start, size))
}

/// Whether globals end where none may.
pub(crate) fn is_past_end(end: u32) -> bool
    ensures { result ≡ nat_lt GLOBALS_END end }
{
    GLOBALS_END < end
}
