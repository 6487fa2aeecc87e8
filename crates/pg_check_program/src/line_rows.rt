//! A line as an instruction, and the register of its result.

ghost use Rattle.std.specs.Prelude.{◌≡◌, ◌≤◌, ◌+◌, ◌++◌, true, IfOk, OnOk, length, map, drop};
ghost use Rattle.pg_read_ast.specs.Numbers.{gives};
ghost use Rattle.pg_read_ast.specs.Views.{op_of, line_of, block_of, tree_of};
ghost use Rattle.pg_check_rules.specs.Names.{register_number};
ghost use Rattle.pg_num.specs.declared.limits.TheConstants.{INSTRUCTION_LIMIT};
ghost use Rattle.pg_check_program.specs.Room.{OpFits, LineFits, BlockFits, Each};
ghost use Rattle.pg_check_program.specs.ScopeNames.{ScopeNames, scope_in};
ghost use Rattle.pg_check_program.specs.ScopeSizes.{types_in};
ghost use Rattle.pg_check_program.specs.LineRows.{result_by, names_after, op_instr, lines_by, names_after_lines, blocks_by};

use crate::function_scope::FunctionScope;
use crate::instructions::op_at;
use pg_check_names::gives;
use pg_check_types::place_of_name;
use pg_ir::{BlockNo, Instr};
use pg_read_ast::{BlockNode, LineNode, Name, OpNode};
use std::alloc::AllocError;

/// The number of a register, if one has this name.
fn number_of_name(scope: &FunctionScope<'_>, name: &Name) -> Option<u32>
    ensures { (own : ScopeNames scope.now) → result ≡ register_number own.registers name.now.text }
{
    match place_of_name(scope.registers, name.text.as_slice()) {
        Some(place) => Some(place as u32),
        None => None,
    }
}

/// The register whose name stands at a place.
fn named_result(scope: &FunctionScope<'_>, names: &[Name], at: usize) -> Option<u32>
    ensures { (own : ScopeNames scope.now) →
        result ≡ result_by (scope_in scope.now own) true (drop at names.now) }
{
    if at < names.len() {
        number_of_name(scope, &names[at])
    } else {
        None
    }
}

/// The register of a line's result, if it gives one: its name stands at a place.
fn result_by(scope: &FunctionScope<'_>, has_result: bool, names: &[Name], at: usize) -> Option<u32>
    ensures { (own : ScopeNames scope.now) →
        result ≡ result_by (scope_in scope.now own) has_result (drop at names.now) }
{
    if has_result {
        named_result(scope, names, at)
    } else {
        None
    }
}

/// The place behind one, where a name stands there.
#[tactic(auto, using(crate::proofs::LineSteps::name_behind))]
fn place_behind(names: &[Name], at: usize) -> usize
    ensures { drop result names.now ≡ names_after true (drop at names.now) }
{
    if at < names.len() { at + 1 } else { at }
}

/// Where the names of the lines behind one begin.
fn place_after(has_result: bool, names: &[Name], at: usize) -> usize
    ensures { drop result names.now ≡ names_after has_result (drop at names.now) }
{
    if has_result {
        place_behind(names, at)
    } else {
        at
    }
}

/// The instruction of an operation. Where that has a result, the name at a place is the result's.
fn op_instr(
    scope: &FunctionScope<'_>,
    block: u32,
    has_result: bool,
    names: &[Name],
    at: usize,
    op: &OpNode,
) -> Result<Instr, AllocError>
    requires given { has_result ≡ gives (types_in scope.now) (op_of op.now) }
    requires fits { OpFits (types_in scope.now) (op_of op.now) }
    ensures instr { (own : ScopeNames scope.now) → IfOk result (λ i. i ≡
        op_instr (scope_in scope.now own) scope.now.first block (drop at names.now) (op_of op.now)) }
{
    let result = result_by(scope, has_result, names, at);
    let op = op_at(scope, op)?;
    Ok(Instr {
        op,
        block: BlockNo(block),
        result,
    })
}

/// Adds the instructions of lines of a basic block. The names of their results begin at a place; those of the lines behind
/// them begin at the place that is returned.
fn add_lines(
    scope: &FunctionScope<'_>,
    found: &mut Vec<Instr>,
    block: u32,
    names: &[Name],
    start: usize,
    lines: &[LineNode],
) -> Result<usize, AllocError>
    requires fits { Each (LineFits (types_in scope.now)) (map line_of lines.now) }
    ensures instrs { (own : ScopeNames scope.now) → OnOk result (found.new.items ≡ found.old.items
        ++ lines_by (scope_in scope.now own) scope.now.first block (drop start names.now) (map line_of lines.now)) }
    ensures names { IfOk result (λ at. drop at names.now ≡
        names_after_lines (tree_of scope.now.globals.now.symbols.tree.now).types (drop start names.now) (map line_of lines.now)) }
{
    let mut at = start;
    for line in lines {
        let has_result = gives(scope.globals.types, &line.op)?;
        let one = op_instr(scope, block, has_result, names, at, &line.op)?;
        found.push(one)?;
        at = place_after(has_result, names, at);
    }
    Ok(at)
}

/// Adds the instructions of a function's basic blocks. The names of their results begin at a place.
pub(crate) fn add_block_lines(
    scope: &FunctionScope<'_>,
    found: &mut Vec<Instr>,
    names: &[Name],
    start: usize,
    blocks: &[BlockNode],
) -> Result<(), AllocError>
    requires room { scope.now.first + length blocks.now ≤ INSTRUCTION_LIMIT }
    requires fits { Each (BlockFits (types_in scope.now)) (map block_of blocks.now) }
    ensures instrs { (own : ScopeNames scope.now) → OnOk result (found.new.items ≡ found.old.items
        ++ blocks_by (scope_in scope.now own) scope.now.first scope.now.first (drop start names.now) (map block_of blocks.now)) }
{
    let mut at = start;
    let mut number = scope.first;
    for block in blocks {
        let lines = block.lines.as_slice();
        at = add_lines(scope, found, number, names, at, lines)?;
        number += 1;
    }
    Ok(())
}
