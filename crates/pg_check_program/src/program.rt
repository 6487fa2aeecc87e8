//! The parts of a module's numbered program, put together.

ghost use Rattle.std.specs.Prelude.{◌≡◌, ◌+◌, ◌≤◌, ℕ, IfOk, length, map, sum_by, unwrap_or};
ghost use Rattle.std.specs.List.{enumerate_from, position_from};
ghost use Rattle.pg_ir.specs.Program.{numbered_program};
ghost use Rattle.pg_read_ast.specs.Syntax.{Variable};
ghost use Rattle.pg_read_ast.specs.Views.{define_of, tree_of};
ghost use Rattle.pg_num.specs.declared.limits.TheConstants.{FUNCTION_LIMIT, INSTRUCTION_LIMIT};
ghost use Rattle.pg_check_rules.specs.Names.{line_count};
ghost use Rattle.pg_check_rules.specs.Conditions.{IsUnrefused};
ghost use Rattle.pg_check_rules.specs.Numbered.{global_at, program_of};
ghost use Rattle.pg_check_constants.specs.Sizes.{GlobalsFit};
ghost use Rattle.pg_check_program.specs.FunctionRows.{rows_from, function_row, block_row, instr_row, is_main_item};
ghost use Rattle.pg_check_program.specs.Room.{FewSymbols, FunctionsFit, ProgramFits};

use crate::block_rows::add_blocks;
use crate::function_rows::{add_function, function_at};
use pg_check_constants::{Globals, add_globals, index_globals};
use pg_check_rules::is_main;
use pg_check_types::TypeNumbers;
use pg_ir::{Block, Function, GlobalInfo, Instr};
use pg_read_ast::{DefineItem, Module};
use std::alloc::{AllocError, Global};

/// The parts of a numbered program, each kind in text order, and the number of its `main`.
#[derive(Drop)]
pub struct ProgramParts {
    pub functions: Vec<Function>,
    pub blocks: Vec<Block>,
    pub instrs: Vec<Instr>,
    pub globals: Vec<GlobalInfo>,
    pub main: u32,
}

/// The number of the basic block behind those of a function, whose first has this number.
#[tactic(auto, using(crate::proofs::ProgramRows::count_blocks))]
fn block_behind(first: u32, item: &DefineItem) -> u32
    requires { first + length (define_of item.now).blocks ≤ INSTRUCTION_LIMIT }
    ensures { result ≡ first + length (define_of item.now).blocks }
{
    let count = item.blocks.len() as u32;
    first + count
}

/// The functions of a module by number.
#[tactic(auto, using(crate::proofs::ProgramRows::rows_none, crate::proofs::ProgramRows::first_block_none))]
fn functions_of(globals: &Globals<'_>, all: &[DefineItem]) -> Result<Vec<Function>, AllocError>
    requires fits { FunctionsFit (tree_of globals.now.symbols.tree.now).types (map define_of all.now) }
    ensures functions { IfOk result (λ v. v.items ≡ rows_from (function_row (tree_of globals.now.symbols.tree.now) (map define_of all.now)) 0 all.now) }
{
    let mut found = Vec::new(globals.alloc);
    let mut first = 0;
    for item in all {
        let one = function_at(globals, item, first)?;
        found.push(one)?;
        first = block_behind(first, item);
    }
    Ok(found)
}

/// The basic blocks of functions by number.
#[tactic(auto, using(crate::proofs::ProgramRows::rows_none, crate::proofs::ProgramRows::first_line_none))]
fn blocks_of(alloc: Global, all: &[DefineItem]) -> Result<Vec<Block>, AllocError>
    requires few { length all.now ≤ FUNCTION_LIMIT }
    requires lines { sum_by line_count (map define_of all.now) ≤ INSTRUCTION_LIMIT }
    ensures { IfOk result (λ v. v.items ≡ rows_from (block_row (map define_of all.now)) 0 all.now) }
{
    let mut found = Vec::new(alloc);
    let mut function = 0;
    let mut first = 0;
    for item in all {
        let blocks = item.blocks.as_slice();
        first = add_blocks(&mut found, function, first, blocks)?;
        function += 1;
    }
    Ok(found)
}

/// The instructions of functions by number.
#[tactic(auto, using(crate::proofs::ProgramRows::rows_none, crate::proofs::ProgramRows::first_block_none))]
fn instrs_of(globals: &Globals<'_>, all: &[DefineItem]) -> Result<Vec<Instr>, AllocError>
    requires symbols { FewSymbols (tree_of globals.now.symbols.tree.now) }
    requires fits { FunctionsFit (tree_of globals.now.symbols.tree.now).types (map define_of all.now) }
    ensures instrs { IfOk result (λ v. v.items ≡ rows_from (instr_row (tree_of globals.now.symbols.tree.now) (map define_of all.now)) 0 all.now) }
{
    let mut found = Vec::new(globals.alloc);
    let mut first = 0;
    for item in all {
        add_function(globals, &mut found, item, first)?;
        first = block_behind(first, item);
    }
    Ok(found)
}

/// The number of the first function that is `main`.
#[tactic(auto, using(crate::proofs::MainPlace::main_begin, crate::proofs::MainPlace::main_skip, crate::proofs::MainPlace::main_here, crate::proofs::MainPlace::main_none))]
fn main_place(all: &[DefineItem]) -> Option<usize>
    ensures { result ≡ position_from is_main_item 0 all.now }
{
    let mut place = 0;
    while place < all.len() {
        if is_main(all[place].name.text.as_slice()) {
            return Some(place);
        }
        place += 1;
    }
    None
}

/// The number of `main`, and 0 where there is none.
fn main_number(all: &[DefineItem]) -> u32
    requires { length all.now ≤ FUNCTION_LIMIT }
    ensures { result ≡ unwrap_or (position_from is_main_item 0 all.now) 0 }
{
    match main_place(all) {
        Some(place) => place as u32,
        None => 0,
    }
}

/// The functions and the basic blocks of a module by number.
fn function_parts(
    globals: &Globals<'_>,
    all: &[DefineItem],
) -> Result<(Vec<Function>, Vec<Block>), AllocError>
    requires fits { FunctionsFit (tree_of globals.now.symbols.tree.now).types (map define_of all.now) }
    requires few { length all.now ≤ FUNCTION_LIMIT }
    requires lines { sum_by line_count (map define_of all.now) ≤ INSTRUCTION_LIMIT }
    ensures functions { IfOk result (λ v. v.0.items ≡ rows_from (function_row (tree_of globals.now.symbols.tree.now) (map define_of all.now)) 0 all.now) }
    ensures blocks { IfOk result (λ v. v.1.items ≡ rows_from (block_row (map define_of all.now)) 0 all.now) }
{
    let functions = functions_of(globals, all)?;
    let blocks = blocks_of(globals.alloc, all)?;
    Ok((functions, blocks))
}

/// The instructions of functions and the globals of their module by number.
fn instr_parts(
    globals: &Globals<'_>,
    all: &[DefineItem],
) -> Result<(Vec<Instr>, Vec<GlobalInfo>), AllocError>
    requires symbols { FewSymbols (tree_of globals.now.symbols.tree.now) }
    requires fits { FunctionsFit (tree_of globals.now.symbols.tree.now).types (map define_of all.now) }
    requires sizes { GlobalsFit (tree_of globals.now.symbols.tree.now).types (tree_of globals.now.symbols.tree.now).globals }
    ensures instrs { IfOk result (λ v. v.0.items ≡ rows_from (instr_row (tree_of globals.now.symbols.tree.now) (map define_of all.now)) 0 all.now) }
    ensures rows { IfOk result (λ v. v.1.items ≡
        map (λ (v : ℕ × Variable). global_at (tree_of globals.now.symbols.tree.now) v.0 v.1) (enumerate_from 0 (tree_of globals.now.symbols.tree.now).globals)) }
{
    let instrs = instrs_of(globals, all)?;
    let variables = add_globals(globals)?;
    Ok((instrs, variables))
}

/// The parts of a module's numbered program, where its globals are known.
fn parts_among(globals: &Globals<'_>) -> Result<ProgramParts, AllocError>
    requires fits { ProgramFits (tree_of globals.now.symbols.tree.now) }
    ensures program { IfOk result (λ p. numbered_program p.functions.items p.blocks.items p.instrs.items p.globals.items p.main
        ≡ program_of (tree_of globals.now.symbols.tree.now)) }
{
    let all = globals.symbols.tree.functions.as_slice();
    let (functions, blocks) = function_parts(globals, all)?;
    let (instrs, variables) = instr_parts(globals, all)?;
    let main = main_number(all);
    Ok(ProgramParts {
        functions,
        blocks,
        instrs,
        globals: variables,
        main,
    })
}

/// The parts of a module's numbered program, where its numbers and sizes fit.
fn parts_of<'a>(
    alloc: Global,
    types: &'a TypeNumbers<'a>,
    tree: &'a Module,
) -> Result<ProgramParts, AllocError>
    requires items { types.now.items ≡ tree.now.types.items }
    requires fits { ProgramFits (tree_of tree.now) }
    ensures program { IfOk result (λ p. numbered_program p.functions.items p.blocks.items p.instrs.items p.globals.items p.main ≡ program_of (tree_of tree.now)) }
{
    let globals = index_globals(alloc, types, tree)?;
    parts_among(&globals)
}

/// The numbered program of a module that isn't refused: functions, basic blocks, instructions, globals, registers and
/// labels by their numbers. It is an error where there is no memory left.
pub fn program_parts(
    alloc: Global,
    types: &TypeNumbers<'_>,
    tree: &Module,
) -> Result<ProgramParts, AllocError>
    requires items { types.now.items ≡ tree.now.types.items }
    requires accepted { IsUnrefused (tree_of tree.now) }
    ensures program { IfOk result (λ p. numbered_program p.functions.items p.blocks.items p.instrs.items p.globals.items p.main ≡ program_of (tree_of tree.now)) }
{
    parts_of(alloc, types, tree)
}
