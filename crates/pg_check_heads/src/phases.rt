//! The first refusal of the heads of a module's functions.

ghost use Rattle.std.specs.Prelude.{◌≡◌, IfOk, List, ℕ, map};
ghost use Rattle.std.specs.List.{enumerate_from};
ghost use Rattle.pg_read_ast.specs.Syntax.{Tree};
ghost use Rattle.pg_read_ast.specs.Numbers.{numbered};
ghost use Rattle.pg_read_ast.specs.Views.{declare_of, define_of, tree_of};
ghost use Rattle.pg_check_types.specs.NameIndex.{known_place};
ghost use Rattle.pg_check_types.specs.NumberedTypes.{named_types};
ghost use Rattle.pg_check_rules.specs.Names.{symbol_names};
ghost use Rattle.pg_check_rules.specs.Starts.{first_start};
ghost use Rattle.pg_check_rules.specs.Earliest.{IsFirstIn};
ghost use Rattle.pg_check_rules.specs.Conditions.{all_of, declaration_refused, definition_refused, heads_refused};

use crate::definitions::definition_refusal;
use crate::heads::declaration_refusal;
use indexmap::IndexMap;
use pg_check_rules::{CheckRefusal, earlier_refusal};
use pg_check_types::TypeNumbers;
use pg_read_ast::{DeclareItem, DefineItem, Module};
use std::alloc::{AllocError, Global};

/// The first refusal of declared functions.
fn declarations_refusal(
    alloc: Global,
    types: &TypeNumbers<'_>,
    starts: &IndexMap<&[u8], u32>,
    items: &[DeclareItem],
) -> Result<Option<CheckRefusal>, AllocError>
    ensures first { (m : Tree) → m.types ≡ named_types types.now → ((text : List ℕ) → known_place starts.now text ≡ first_start (symbol_names m) text) →
        IfOk result (λ o. IsFirstIn (all_of (declaration_refused m) (map declare_of items.now)) o) }
{
    let mut found = None;
    for item in items {
        let own = declaration_refusal(alloc, types, starts, item)?;
        found = earlier_refusal(found, own);
    }
    Ok(found)
}

/// The first refusal of the heads of functions that are defined.
fn definitions_refusal(
    alloc: Global,
    types: &TypeNumbers<'_>,
    starts: &IndexMap<&[u8], u32>,
    items: &[DefineItem],
) -> Result<Option<CheckRefusal>, AllocError>
    ensures first { (m : Tree) → m.types ≡ named_types types.now → ((text : List ℕ) → known_place starts.now text ≡ first_start (symbol_names m) text) →
        IfOk result (λ o. IsFirstIn (all_of (definition_refused m) (enumerate_from 0 (map (λ d. numbered m.types (define_of d)) items.now))) o) }
{
    let mut found = None;
    for number in 0..items.len() {
        let own = definition_refusal(alloc, types, starts, number, &items[number])?;
        found = earlier_refusal(found, own);
    }
    Ok(found)
}

/// The first refusal of the heads of a module's functions.
pub fn heads_refusal(
    alloc: Global,
    types: &TypeNumbers<'_>,
    starts: &IndexMap<&[u8], u32>,
    tree: &Module,
) -> Result<Option<CheckRefusal>, AllocError>
    ensures first { (tree_of tree.now).types ≡ named_types types.now → ((text : List ℕ) → known_place starts.now text ≡ first_start (symbol_names (tree_of tree.now)) text) →
        IfOk result (λ o. IsFirstIn (heads_refused (tree_of tree.now)) o) }
{
    let declared = declarations_refusal(alloc, types, starts, tree.declares.as_slice())?;
    let defined = definitions_refusal(alloc, types, starts, tree.functions.as_slice())?;
    Ok(earlier_refusal(declared, defined))
}
