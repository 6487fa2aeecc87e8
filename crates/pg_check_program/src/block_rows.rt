//! Basic blocks by number.

ghost use Rattle.std.specs.Prelude.{◌≡◌, ◌++◌, ◌+◌, ◌≤◌, OnOk, IfOk, length, map, sum_by};
ghost use Rattle.pg_num.specs.declared.limits.TheConstants.{INSTRUCTION_LIMIT};
ghost use Rattle.pg_read_ast.specs.Syntax as syntax;
ghost use Rattle.pg_read_ast.specs.Views.{block_of};
ghost use Rattle.pg_check_rules.specs.Numbered.{blocks_from};

use pg_ir::{Block, InstrId};
use pg_read_ast::BlockNode;
use std::alloc::AllocError;

/// Adds the basic blocks of a function, whose instructions are numbered from `first` on, and gives the number of the
/// instruction behind them.
pub(crate) fn add_blocks(
    found: &mut Vec<Block>,
    function: u32,
    first: u32,
    blocks: &[BlockNode],
) -> Result<u32, AllocError>
    requires { first + sum_by (λ (b : syntax.Block). length b.lines) (map block_of blocks.now) ≤ INSTRUCTION_LIMIT }
    ensures blocks { OnOk result (found.new.items ≡ found.old.items ++ blocks_from function first (map block_of blocks.now)) }
    ensures next { IfOk result (λ n. n ≡ first + sum_by (λ (b : syntax.Block). length b.lines) (map block_of blocks.now)) }
{
    let mut at = first;
    for block in blocks {
        let lines = block.lines.as_slice();
        let count = lines.len() as u32;
        found.push(Block {
            function,
            first: InstrId(at),
            count,
        })?;
        at += count;
    }
    Ok(at)
}
