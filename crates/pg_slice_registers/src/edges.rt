//! What `phi`s take along an edge.

ghost use Rattle.std.specs.Prelude.{◌≡◌, ◌<◌, Some, length, map, IfOk, IfSome, OnOk, OnErr};
ghost use Rattle.pg_ir.specs.declared.edge.Incoming.{Incoming};
ghost use Rattle.pg_ir.specs.Edges.{incoming_from, incoming_of};
ghost use Rattle.pg_slice_rules.specs.Known.{phi_symbolic};
ghost use Rattle.pg_slice_rules.specs.Known as known;
ghost use Rattle.pg_slice_values.specs.SymbolicNodes.{Grew};
ghost use Rattle.pg_slice_registers.specs.SymbolicRegisterNodes.{AreSymbolicNodes, registers_by};

use crate::operands::push_optional;
use crate::registers::set_phis;
use pg_ir::{BlockNo, Incoming, Instr, Op, Program, Value};
use pg_precondition::Nodes;
use pg_slice_values::SymbolicNode;
use std::alloc::{AllocError, Global};

/// The value that is listed first for the block that is left.
fn incoming(listed: &[Incoming], from: u32) -> Option<Value>
    ensures { result ≡ incoming_from listed.now from }
{
    for incoming in listed {
        if incoming.block.0 == from {
            return Some(incoming.value);
        }
    }
    None
}

/// The value that a `phi` takes, where this block is left.
pub fn phi_operand(x: &Instr, from: u32) -> Option<Value>
    ensures { result ≡ incoming_from (incoming_of x.now.op) from }
{
    match &x.op {
        Op::Phi { from: listed } => incoming(listed.as_slice(), from),
        _ => None,
    }
}

/// The values that the `phi`s of a block take, where this block is left.
fn phi_symbolic_nodes(
    alloc: Global,
    nodes: &mut Nodes,
    p: &Program,
    from: u32,
    phis: &[Instr],
    registers: &[SymbolicNode],
) -> Result<Vec<SymbolicNode>, AllocError>
    requires symbolic_nodes { AreSymbolicNodes (length nodes.old) registers.now }
    ensures grew { Grew nodes.old nodes.new }
    ensures is { IfOk result (λ v. AreSymbolicNodes (length nodes.new) v.items) }
    ensures value { IfOk result (λ v. registers_by nodes.new v.items ≡ map (phi_symbolic p.now (registers_by nodes.old registers.now) from) phis.now) }
{
    let mut symbolic_nodes = Vec::new(alloc);
    for i in 0..phis.len() {
        let value = phi_operand(&phis[i], from);
        push_optional(nodes, p, value, registers, &mut symbolic_nodes)?;
    }
    Ok(symbolic_nodes)
}

/// Enters a block: all its `phi`s take their values together.
fn enter(
    alloc: Global,
    nodes: &mut Nodes,
    p: &Program,
    from: BlockNo,
    to: BlockNo,
    registers: &mut [SymbolicNode],
) -> Result<(), AllocError>
    requires block { to.0 < length p.now.blocks }
    requires symbolic_nodes { AreSymbolicNodes (length nodes.old) registers.old }
    ensures grew { Grew nodes.old nodes.new }
    ensures is { OnOk result (AreSymbolicNodes (length nodes.new) registers.new) }
    ensures same { OnErr result (registers.new ≡ registers.old) }
    ensures value { OnOk result (registers_by nodes.new registers.new ≡ known.along_edge p.now from.0 (Some to.0) (registers_by nodes.old registers.old)) }
{
    let phis = p.phis(to);
    let symbolic_nodes = phi_symbolic_nodes(alloc, nodes, p, from.0, phis, registers)?;
    set_phis(registers, phis, symbolic_nodes.as_slice());
    Ok(())
}

/// The registers of a call after an edge, if one is taken.
#[tactic(auto, using(pg_slice_values::proofs::GrowingNodes::grew_none))]
pub(crate) fn along_edge(
    alloc: Global,
    nodes: &mut Nodes,
    p: &Program,
    from: BlockNo,
    edge: Option<u32>,
    registers: &mut [SymbolicNode],
) -> Result<(), AllocError>
    requires block { IfSome edge (λ b. b < length p.now.blocks) }
    requires symbolic_nodes { AreSymbolicNodes (length nodes.old) registers.old }
    ensures grew { Grew nodes.old nodes.new }
    ensures is { OnOk result (AreSymbolicNodes (length nodes.new) registers.new) }
    ensures same { OnErr result (registers.new ≡ registers.old) }
    ensures value { OnOk result (registers_by nodes.new registers.new ≡ known.along_edge p.now from.0 edge (registers_by nodes.old registers.old)) }
{
    match edge {
        Some(to) => enter(alloc, nodes, p, from, BlockNo(to), registers),
        None => Ok(()),
    }
}
