//! The blocks to which control may go on.

ghost use Rattle.std.specs.Prelude.{◌≡◌, ℕ, ◌<◌, ◌^◌, length, ◌∷◌, map, IfOk};
ghost use Rattle.pg_ir.specs.declared.edge.Case.{Case};
ghost use Rattle.pg_ir.specs.Edges.{successors, targets_of as op_targets};
ghost use Rattle.pg_region.specs.Regions.{flow_of};
ghost use Rattle.pg_cfg.specs.Graphs.{IsClosed};

use pg_cfg::Graph;
use pg_ir::{BlockNo, Case, InstrId, Op, Program};
use pg_region_accesses::block_count;
use std::alloc::{AllocError, Global};

/// The blocks to which a `switch` may go on.
fn switch_targets(alloc: Global, other: u32, cases: &[Case]) -> Result<Vec<u32>, AllocError>
    ensures { IfOk result (λ xs. xs.items ≡ other ∷ map (λ (c : Case). c.to.0) cases.now) }
{
    let mut targets = [other].to_vec(alloc)?;
    for case in cases {
        targets.push(case.to.0)?;
    }
    Ok(targets)
}

/// The blocks to which an operation may go on.
fn targets(alloc: Global, op: &Op) -> Result<Vec<u32>, AllocError>
    ensures { IfOk result (λ xs. xs.items ≡ op_targets op.now) }
{
    match op {
        Op::Br { to } => [to.0].to_vec(alloc),
        Op::CondBr { yes, no, .. } => [yes.0, no.0].to_vec(alloc),
        Op::Switch { other, cases, .. } => switch_targets(alloc, other.0, cases.as_slice()),
        _ => Ok(Vec::new(alloc)),
    }
}

/// The blocks to which a block may go on: those of its last instruction.
fn successors(alloc: Global, p: &Program, b: BlockNo) -> Result<Vec<u32>, AllocError>
    requires { b.0 < length p.now.blocks }
    ensures { IfOk result (λ xs. xs.items ≡ successors p.now b.0) }
{
    p.facts();
    let block = p.block(b);
    let last = InstrId(block.first.0 + (block.count - 1));
    targets(alloc, &p.instr(last).op)
}

/// The flow of control between the blocks of a program. Want of memory comes where there are two to the 32 blocks.
pub(crate) fn flow(alloc: Global, p: &Program) -> Result<Graph, AllocError>
    ensures flow { IfOk result (λ g. g ≡ flow_of p.now) }
    ensures closed { IfOk result (λ g. IsClosed g) }
    ensures few { IfOk result (λ g. length g < 2 ^ 32) }
{
    p.facts();
    let count = block_count(p);
    if count > u32::MAX as u64 {
        return Err(AllocError);
    }
    let mut graph = Graph::new(alloc);
    for b in 0..count {
        let targets = successors(alloc, p, BlockNo(b as u32))?;
        graph.push(targets.as_slice())?;
    }
    Ok(graph)
}
