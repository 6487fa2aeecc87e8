//! How many accesses summaries have.

ghost use Rattle.std.specs.Prelude.{◌≡◌, ◌<◌, ◌≤◌, ◌+◌, length, nat_le, All};
ghost use Rattle.pg_region_accesses.specs.Accesses.{summary_of};
ghost use Rattle.pg_region_summaries.specs.declared.limits.TheConstants.{SUMMARY_LIMIT};
ghost use Rattle.pg_region_summaries.specs.Counts.{count_in, op_count, block_count, blocks_count, within_limit};

use crate::limits::SUMMARY_LIMIT;
use pg_ir::{BlockNo, InstrId, Op, Program};
use pg_region_accesses::Summary;

/// How many accesses the summary of a function has.
fn summary_size(sums: &[Option<Summary>], f: u32) -> usize
    ensures { result ≡ count_in (summary_of sums.now f) }
{
    match sums.get(f as usize) {
        Some(Some(summary)) => summary.accesses.len(),
        _ => 0,
    }
}

/// How many accesses an operation has.
fn op_count(sums: &[Option<Summary>], op: &Op) -> usize
    ensures { result ≡ op_count (summary_of sums.now) op.now }
{
    match op {
        Op::Load { .. } | Op::Store { .. } => 1,
        Op::Call { function, .. } => summary_size(sums, *function),
        _ => 0,
    }
}

/// The sum of two numbers of accesses, if a summary may have as many.
fn sum(count: usize, more: usize) -> Option<usize>
    requires { count ≤ SUMMARY_LIMIT }
    ensures { result ≡ within_limit (count + more) }
{
    if more > SUMMARY_LIMIT - count {
        return None;
    }
    Some(count + more)
}

/// The number of accesses behind a block, by that before it, if a summary may have as many.
fn count_block(p: &Program, sums: &[Option<Summary>], b: BlockNo, before: usize) -> Option<usize>
    requires block { b.0 < length p.now.blocks }
    requires few { before ≤ SUMMARY_LIMIT }
    ensures { result ≡ within_limit (before + block_count p.now (summary_of sums.now) b.0) }
{
    p.facts();
    let block = *p.block(b);
    let mut count = before;
    for k in 0..block.count {
        let instr = p.instr(InstrId(block.first.0 + k));
        count = sum(count, op_count(sums, &instr.op))?;
    }
    Some(count)
}

#[tactic(auto, using(crate::proofs::AccessCounts::few_more, crate::proofs::AccessCounts::counted_more, crate::proofs::AccessCounts::counted_over, crate::proofs::AccessCounts::counted_all))]
/// Whether these blocks, if all is quiet, have as few accesses as a summary may have.
pub(crate) fn has_few(p: &Program, sums: &[Option<Summary>], blocks: &[u32]) -> bool
    requires { All (λ b. b < length p.now.blocks) blocks.now }
    ensures { result ≡ nat_le (blocks_count p.now (summary_of sums.now) blocks.now) SUMMARY_LIMIT }
{
    let mut count = 0;
    for b in blocks {
        match count_block(p, sums, BlockNo(*b), count) {
            Some(more) => count = more,
            None => return false,
        }
    }
    true
}
