//! Blocks without an ending line, and too many instructions.

ghost use Rattle.std.specs.Prelude.{◌≡◌, ◌+◌, ◌||◌, ◌==◌, not, nat_lt, ℕ, map, length};
ghost use Rattle.std.specs.List.{list_any, sum_by};
ghost use Rattle.pg_num.specs.declared.limits.TheConstants.{INSTRUCTION_LIMIT, FUNCTION_REGISTER_LIMIT};
ghost use Rattle.pg_read_ast.specs.Syntax.{Line};
ghost use Rattle.pg_read_ast.specs.Views.{op_of, line_of, block_of};
ghost use Rattle.pg_check_rules.specs.Written.{is_ending};
ghost use Rattle.pg_check_rules.specs.BlockConditions.{is_endless};
ghost use Rattle.pg_check_bodies.specs.BodyBlocks.{node_count, capped};

use pg_num::limits::{FUNCTION_REGISTER_LIMIT, INSTRUCTION_LIMIT};
use pg_read_ast::{BlockNode, LineNode, OpNode};

fn is_ending(op: &OpNode) -> bool
    ensures { result ≡ is_ending (op_of op.now) }
{
    match op {
        OpNode::Br { .. } => true,
        OpNode::CondBr { .. } => true,
        OpNode::Switch { .. } => true,
        OpNode::RetVoid { .. } => true,
        OpNode::Ret { .. } => true,
        OpNode::Unreachable { .. } => true,
        _ => false,
    }
}

/// Whether none of the lines ends a block.
fn has_no_ending(lines: &[LineNode]) -> bool
    ensures { result ≡ not (list_any (λ (l : Line). is_ending l.op) (map line_of lines.now)) }
{
    for line in lines {
        if is_ending(&line.op) {
            return false;
        }
    }
    true
}

fn has_endless(blocks: &[BlockNode]) -> bool
    ensures { result ≡ list_any is_endless (map block_of blocks.now) }
{
    for block in blocks {
        if has_no_ending(block.lines.as_slice()) {
            return true;
        }
    }
    false
}

/// Whether there is no block, or one without an ending line.
pub(crate) fn is_unfinished(blocks: &[BlockNode]) -> bool
    ensures { result ≡ ((length blocks.now == 0) || list_any is_endless (map block_of blocks.now)) }
{
    let endless = has_endless(blocks);
    blocks.is_empty() || endless
}

/// Whether so many instructions are more than a program may have.
pub(crate) fn are_too_many(lines: usize) -> bool
    ensures { (count : ℕ) → lines ≡ capped count → result ≡ nat_lt INSTRUCTION_LIMIT count }
{
    lines > INSTRUCTION_LIMIT as usize
}

pub(crate) fn is_over_limits(large: bool, registers: usize, lines: bool) -> bool
    ensures { result ≡ (large || nat_lt FUNCTION_REGISTER_LIMIT registers || lines) }
{
    large || registers > FUNCTION_REGISTER_LIMIT as usize || lines
}

/// The instructions of the functions before one, and its own; the greatest number that fits where there are more.
pub(crate) fn lines_until(before: usize, blocks: &[BlockNode]) -> usize
    ensures { (lines : ℕ) → before ≡ capped lines → result ≡ capped (lines + sum_by node_count blocks.now) }
{
    let mut count = before;
    for block in blocks {
        count = count.saturating_add(block.lines.len());
    }
    count
}
