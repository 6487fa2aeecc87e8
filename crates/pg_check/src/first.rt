//! The first refusal of a module, phase by phase.

ghost use Rattle.std.specs.Prelude.{◌≡◌, ℕ, List, IfOk};
ghost use Rattle.pg_read_ast.specs.Views.{tree_of};
ghost use Rattle.pg_check_types.specs.NameIndex.{known_place};
ghost use Rattle.pg_check_rules.specs.Names.{symbol_names};
ghost use Rattle.pg_check_rules.specs.Starts.{first_start};
ghost use Rattle.pg_check_rules.specs.Earliest.{IsFirstAmong};
ghost use Rattle.pg_check.specs.Checked.{IsFoundIn, last_phases, phases_from_globals};

use crate::main_function::main_refusal;
use indexmap::IndexMap;
use pg_check_bodies::first_of_bodies;
use pg_check_heads::{globals_refusal, heads_refusal, types_refusal};
use pg_check_rules::{CheckRefusal, Symbols, index_symbols, symbol_starts};
use pg_check_types::TypeNumbers;
use pg_read_ast::Module;
use std::alloc::{AllocError, Global};

/// The first refusal of the functions' bodies, and then of a program without `main`.
fn first_behind_heads(
    alloc: Global,
    types: &TypeNumbers<'_>,
    symbols: &Symbols<'_>,
) -> Result<Option<CheckRefusal>, AllocError>
    requires { types.now.items ≡ symbols.now.tree.now.types.items }
    ensures first { IfOk result (λ o. IsFirstAmong (last_phases (tree_of symbols.now.tree.now)) o) }
{
    let first = first_of_bodies(alloc, types, symbols)?;
    match first {
        Some(refusal) => Ok(Some(refusal)),
        None => Ok(main_refusal(symbols.tree)),
    }
}

/// The first refusal of the globals, then of the functions' heads, and then of what stands behind.
fn first_from_globals(
    alloc: Global,
    types: &TypeNumbers<'_>,
    symbols: &Symbols<'_>,
    starts: &IndexMap<&[u8], u32>,
) -> Result<Option<CheckRefusal>, AllocError>
    requires items { types.now.items ≡ symbols.now.tree.now.types.items }
    requires starts { (text : List ℕ) → known_place starts.now text ≡ first_start (symbol_names (tree_of symbols.now.tree.now)) text }
    ensures first { IfOk result (λ o. IsFirstAmong (phases_from_globals (tree_of symbols.now.tree.now)) o) }
{
    let first = globals_refusal(alloc, types, symbols, starts)?;
    match first {
        Some(refusal) => Ok(Some(refusal)),
        None => {
            let next = heads_refusal(alloc, types, starts, symbols.tree)?;
            match next {
                Some(refusal) => Ok(Some(refusal)),
                None => first_behind_heads(alloc, types, symbols),
            }
        }
    }
}

/// The first refusal behind the type items.
fn first_behind_types(
    alloc: Global,
    types: &TypeNumbers<'_>,
    tree: &Module,
) -> Result<Option<CheckRefusal>, AllocError>
    requires { types.now.items ≡ tree.now.types.items }
    ensures first { IfOk result (λ o. IsFirstAmong (phases_from_globals (tree_of tree.now)) o) }
{
    let symbols = index_symbols(alloc, tree)?;
    let starts = symbol_starts(alloc, symbols.tree)?;
    first_from_globals(alloc, types, &symbols, &starts)
}

/// The first refusal of a module, phase by phase; none where it isn't refused.
pub(crate) fn first_of_module(
    alloc: Global,
    types: &TypeNumbers<'_>,
    tree: &Module,
) -> Result<Option<CheckRefusal>, AllocError>
    requires { types.now.items ≡ tree.now.types.items }
    ensures first { IfOk result (λ o. IsFoundIn (tree_of tree.now) o) }
{
    let first = types_refusal(alloc, types, tree)?;
    match first {
        Some(refusal) => Ok(Some(refusal)),
        None => first_behind_types(alloc, types, tree),
    }
}
