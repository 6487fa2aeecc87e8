//! The functions that a function calls.

ghost use Rattle.std.specs.Prelude.{◌≡◌, ℕ, ◌<◌, ◌++◌, length, All, IfOk, OnOk};
ghost use Rattle.pg_cfg.specs.Graphs.{IsClosed};
ghost use Rattle.pg_region_summaries.specs.Callees.{op_calls, block_calls, blocks_calls, calls_of};
ghost use Rattle.pg_region_summaries.specs.Spans.{span_at, Covers};

use crate::blocks::blocks_of;
use crate::span::{Span, span_at};
use pg_cfg::Graph;
use pg_ir::{BlockNo, InstrId, Op, Program};
use std::alloc::{AllocError, Global};

/// Adds the function that an operation calls, if it calls one of the program's own.
fn push_called(callees: &mut Vec<u32>, op: &Op) -> Result<(), AllocError>
    ensures { OnOk result (callees.new.items ≡ callees.old.items ++ op_calls op.now) }
{
    if let Op::Call { function, .. } = op {
        callees.push(*function)?;
    }
    Ok(())
}

/// Adds the functions that a block calls.
fn push_callees(callees: &mut Vec<u32>, p: &Program, b: BlockNo) -> Result<(), AllocError>
    requires { b.0 < length p.now.blocks }
    ensures { OnOk result (callees.new.items ≡ callees.old.items ++ block_calls p.now b.0) }
{
    p.facts();
    let block = *p.block(b);
    for k in 0..block.count {
        let instr = p.instr(InstrId(block.first.0 + k));
        push_called(callees, &instr.op)?;
    }
    Ok(())
}

/// The functions that these blocks call, one for each call.
fn callees(alloc: Global, p: &Program, blocks: &[u32]) -> Result<Vec<u32>, AllocError>
    requires { All (λ b. b < length p.now.blocks) blocks.now }
    ensures { IfOk result (λ callees. callees.items ≡ blocks_calls p.now blocks.now) }
{
    let mut callees = Vec::new(alloc);
    for b in blocks {
        push_callees(&mut callees, p, BlockNo(*b))?;
    }
    Ok(callees)
}

/// Which functions call which: an edge for each call.
pub(crate) fn calls(alloc: Global, p: &Program, spans: &[Span]) -> Result<Graph, AllocError>
    requires spans { (f : ℕ) → f < length p.now.functions → Covers p.now (length p.now.blocks) f (span_at spans.now f) }
    ensures calls { IfOk result (λ g. g ≡ calls_of p.now) }
    ensures closed { IfOk result (λ g. IsClosed g) }
{
    p.facts();
    let mut graph = Graph::new(alloc);
    for f in 0..p.function_count() {
        let blocks = blocks_of(alloc, p, span_at(spans, f), f)?;
        let callees = callees(alloc, p, blocks.as_slice())?;
        graph.push(callees.as_slice())?;
    }
    Ok(graph)
}
