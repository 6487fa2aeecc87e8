//! The canonical text of a whole module.

ghost use Rattle.std.specs.Prelude.{◌≡◌, ◌++◌, OnOk, IfOk, map, flat_map};
ghost use Rattle.pg_read_ast.specs.Text.{type_item_text, global_item_text, declare_text, define_text};
ghost use Rattle.pg_read_ast.specs.Numbers.{numbered, canonical_text};
ghost use Rattle.pg_read_ast.specs.Views.{type_item_of, global_of, declare_of, define_of, tree_of};

use crate::nodes::{DeclareItem, DefineItem, GlobalItem, Module, TypeItem};
use crate::print::functions::put_define;
use crate::print::items::{put_declare, put_global_item, put_type_item};
use std::alloc::{AllocError, Global};

/// The canonical text of a module: its types, globals, declared and defined functions, each kind in text order.
/// Each label and each instruction stands on a line of its own, and each parameter, block and result that has no
/// name has its number, which is one more than the greatest that the function's text has used before it, or 0.
/// An error is want of memory.
#[tactic(auto, unfolding(crate::specs::Numbers::canonical_text, crate::specs::Numbers::numbered_tree))]
pub fn print_module(alloc: Global, program: &Module) -> Result<Vec<u8>, AllocError>
    ensures { IfOk result (λ text. text.items ≡ canonical_text (tree_of program.now)) }
{
    let mut out = Vec::new(alloc);
    put_types(&mut out, program.types.as_slice())?;
    put_globals(&mut out, program.globals.as_slice())?;
    put_declares(&mut out, program.declares.as_slice())?;
    put_functions(
        alloc,
        &mut out,
        program.types.as_slice(),
        program.functions.as_slice(),
    )?;
    Ok(out)
}

fn put_types(out: &mut Vec<u8>, all: &[TypeItem]) -> Result<(), AllocError>
    ensures { OnOk result (out.new.items ≡ out.old.items ++ flat_map type_item_text (map type_item_of all.now)) }
{
    for each in all {
        put_type_item(out, each)?;
    }
    Ok(())
}

fn put_globals(out: &mut Vec<u8>, all: &[GlobalItem]) -> Result<(), AllocError>
    ensures { OnOk result (out.new.items ≡ out.old.items ++ flat_map global_item_text (map global_of all.now)) }
{
    for each in all {
        put_global_item(out, each)?;
    }
    Ok(())
}

fn put_declares(out: &mut Vec<u8>, all: &[DeclareItem]) -> Result<(), AllocError>
    ensures { OnOk result (out.new.items ≡ out.old.items ++ flat_map declare_text (map declare_of all.now)) }
{
    for each in all {
        put_declare(out, each)?;
    }
    Ok(())
}

fn put_functions(
    alloc: Global,
    out: &mut Vec<u8>,
    types: &[TypeItem],
    all: &[DefineItem],
) -> Result<(), AllocError>
    ensures { OnOk result (out.new.items ≡ out.old.items ++ flat_map define_text (map (numbered (map type_item_of types.now)) (map define_of all.now))) }
{
    for each in all {
        put_define(alloc, out, types, each)?;
    }
    Ok(())
}
