//! The globals of a program, one behind the other in memory.

ghost use Rattle.std.specs.Prelude.{◌≡◌, ℕ, ◌+◌, ◌≤◌, IfOk, IfSome, map};
ghost use Rattle.pg_num.specs.declared.limits.TheConstants.{SIZE_LIMIT};
ghost use Rattle.pg_num.specs.declared.layout.TheConstants.{GLOBALS_END};
ghost use Rattle.std.specs.List.{enumerate_from};
ghost use Rattle.pg_ir.specs.WellFormed.{granules_for};
ghost use Rattle.pg_read_ast.specs.Syntax.{Variable};
ghost use Rattle.pg_read_ast.specs.Views.{const_of, global_of, tree_of};
ghost use Rattle.pg_check_types.specs.Known.{denoted, IsWithin};
ghost use Rattle.pg_check_types.specs.NumberedTypes.{table_of};
ghost use Rattle.pg_check_rules.specs.Constants.{bytes_at, trimmed};
ghost use Rattle.pg_check_rules.specs.Numbered.{global_at};
ghost use Rattle.pg_check_constants.specs.Initialisers.{info_from};
ghost use Rattle.pg_check_constants.specs.Sizes.{AllFit, ConstFits, GlobalFits, GlobalsFit};

use crate::bytes::trimmed_length;
use crate::fields::size_or_none;
use crate::globals::Globals;
use crate::initialisers::add_const;
use pg_check_rules::granules_for;
use pg_check_types::KnownTypes;
use pg_ir::{Bytes, GlobalInfo};
use pg_read_ast::{ConstNode, GlobalItem};
use std::alloc::AllocError;

/// The bytes of an initialiser of a type, which `known` knows by its number; none where the type isn't one.
fn initial_bytes(
    globals: &Globals<'_>,
    known: &KnownTypes<'_>,
    number: Option<usize>,
    value: &ConstNode,
) -> Result<Vec<u8>, AllocError>
    requires within { IsWithin (table_of known.now) number }
    requires ty { IfSome (denoted (table_of known.now) number) AllFit }
    requires value { ConstFits (tree_of globals.now.symbols.tree.now).types (const_of value.now) }
    ensures bytes { IfOk result (λ v. v.items ≡ bytes_at (tree_of globals.now.symbols.tree.now) (denoted (table_of known.now) number) (const_of value.now)) }
{
    let mut bytes = Vec::new(globals.alloc);
    match number {
        Some(number) => {
            add_const(globals, known, &mut bytes, number, value)?;
            Ok(bytes)
        }
        None => Ok(bytes),
    }
}

/// Bytes without the zeros at their end.
fn without_zeros(all: Vec<u8>) -> Vec<u8>
    ensures { result.items ≡ trimmed all.items }
{
    let mut bytes = all;
    let kept = trimmed_length(bytes.as_slice());
    bytes.truncate(kept);
    bytes
}

/// A global that starts at a granule.
fn info_from(globals: &Globals<'_>, start: u32, item: &GlobalItem) -> Result<GlobalInfo, AllocError>
    requires fits { GlobalFits (tree_of globals.now.symbols.tree.now).types (global_of item.now) }
    ensures info { IfOk result (λ g. g ≡ info_from (tree_of globals.now.symbols.tree.now) start (global_of item.now)) }
{
    let mut known = KnownTypes::new(globals.types);
    let number = known.number(&item.ty)?;
    let size = size_or_none(&known, number);
    let bytes = initial_bytes(globals, &known, number, &item.value)?;
    Ok(GlobalInfo {
        start,
        size,
        bytes: Bytes::from_vec(without_zeros(bytes)),
    })
}

/// The granule behind a global of a size.
fn granule_behind(start: u32, size: u32) -> u32
    requires start { start ≤ GLOBALS_END }
    requires size { size ≤ SIZE_LIMIT }
    ensures { result ≡ start + granules_for size }
{
    start + granules_for(size)
}

/// The globals of a program, where these are its variables.
fn infos(globals: &Globals<'_>, variables: &[GlobalItem]) -> Result<Vec<GlobalInfo>, AllocError>
    requires variables { variables.now ≡ globals.now.symbols.tree.now.globals.items }
    requires fits { GlobalsFit (tree_of globals.now.symbols.tree.now).types (tree_of globals.now.symbols.tree.now).globals }
    ensures rows { IfOk result (λ v. v.items ≡ map (λ (v : ℕ × Variable). global_at (tree_of globals.now.symbols.tree.now) v.0 v.1)
        (enumerate_from 0 (tree_of globals.now.symbols.tree.now).globals)) }
{
    let mut rows = Vec::new(globals.alloc);
    let mut start = 1;
    for item in variables {
        let row = info_from(globals, start, item)?;
        start = granule_behind(start, row.size);
        rows.push(row)?;
    }
    Ok(rows)
}

/// The globals of a program in text order, whose types and constants keep within the limits of sizes.
pub fn add_globals(globals: &Globals<'_>) -> Result<Vec<GlobalInfo>, AllocError>
    requires fits { GlobalsFit (tree_of globals.now.symbols.tree.now).types (tree_of globals.now.symbols.tree.now).globals }
    ensures rows { IfOk result (λ v. v.items ≡ map (λ (v : ℕ × Variable). global_at (tree_of globals.now.symbols.tree.now) v.0 v.1)
        (enumerate_from 0 (tree_of globals.now.symbols.tree.now).globals)) }
{
    infos(globals, globals.symbols.tree.globals.as_slice())
}
