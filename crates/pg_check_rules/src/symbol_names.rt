//! Where the first global or function of each name begins.

ghost use Rattle.std.specs.Prelude.{◌≡◌, ◌++◌, IfOk, OnOk, List, ℕ, map};
ghost use Rattle.pg_read_ast.specs.Syntax.{Variable, Declaration, Definition};
ghost use Rattle.pg_read_ast.specs.Views.{global_of, declare_of, define_of, tree_of};
ghost use Rattle.pg_check_types.specs.NameIndex.{known_place};
ghost use Rattle.pg_check_rules.specs.Names.{symbol_names};
ghost use Rattle.pg_check_rules.specs.Starts.{first_start, names_behind};

use crate::starts::index_starts;
use indexmap::IndexMap;
use pg_read_ast::{DeclareItem, DefineItem, GlobalItem, Module, Name};
use std::alloc::{AllocError, Global};

fn add_variables<'a>(all: &mut Vec<&'a Name>, items: &'a [GlobalItem]) -> Result<(), AllocError>
    ensures { OnOk result (names_behind all.new.items ≡ names_behind all.old.items ++ map (λ (g : Variable). g.name) (map global_of items.now)) }
{
    for item in items {
        all.push(&item.name)?;
    }
    Ok(())
}

fn add_declarations<'a>(all: &mut Vec<&'a Name>, items: &'a [DeclareItem]) -> Result<(), AllocError>
    ensures { OnOk result (names_behind all.new.items ≡ names_behind all.old.items ++ map (λ (d : Declaration). d.name) (map declare_of items.now)) }
{
    for item in items {
        all.push(&item.name)?;
    }
    Ok(())
}

fn add_definitions<'a>(all: &mut Vec<&'a Name>, items: &'a [DefineItem]) -> Result<(), AllocError>
    ensures { OnOk result (names_behind all.new.items ≡ names_behind all.old.items ++ map (λ (d : Definition). d.name) (map define_of items.now)) }
{
    for item in items {
        all.push(&item.name)?;
    }
    Ok(())
}

/// The names of a module's globals and functions.
fn symbol_names<'a>(alloc: Global, tree: &'a Module) -> Result<Vec<&'a Name>, AllocError>
    ensures { IfOk result (λ v. names_behind v.items ≡ symbol_names (tree_of tree.now)) }
{
    let mut all = Vec::new(alloc);
    add_variables(&mut all, tree.globals.as_slice())?;
    add_declarations(&mut all, tree.declares.as_slice())?;
    add_definitions(&mut all, tree.functions.as_slice())?;
    Ok(all)
}

/// Where the first global or function of each name begins.
pub fn symbol_starts<'a>(
    alloc: Global,
    tree: &'a Module,
) -> Result<IndexMap<&'a [u8], u32>, AllocError>
    ensures { IfOk result (λ m. (text : List ℕ) → known_place m text ≡ first_start (symbol_names (tree_of tree.now)) text) }
{
    let names = symbol_names(alloc, tree)?;
    index_starts(alloc, names.as_slice())
}
