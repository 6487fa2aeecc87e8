//! The registers of a call that begins.

ghost use Rattle.std.specs.Prelude.{◌≡◌, ◌++◌, ◌-◌, length, map, replicate, IfOk, OnOk};
ghost use Rattle.pg_ir.specs.Program.{types_of};
ghost use Rattle.pg_slice_rules.specs.SymbolicValues as symbolics;
ghost use Rattle.pg_slice_rules.specs.SymbolicValues.{symbolic_of};
ghost use Rattle.pg_slice_rules.specs.Known as known;
ghost use Rattle.pg_slice_values.specs.SymbolicNodes.{Grew};
ghost use Rattle.pg_slice_registers.specs.SymbolicRegisterNodes.{AreSymbolicNodes, registers_by};

use crate::operands::values;
use pg_ir::{Program, Value};
use pg_precondition::Nodes;
use pg_slice_values::{SymbolicNode, unset};
use std::alloc::{AllocError, Global};

/// How many registers a function has, none where there is no such function.
#[tactic(auto, unfolding(pg_ir::specs::Program::types_of), using(crate::proofs::MissingFunctions::no_types))]
pub fn register_count(p: &Program, f: u32) -> usize
    ensures { result ≡ length (types_of p.now f) }
{
    if f < p.function_count() {
        p.function(f).registers.as_slice().len()
    } else {
        0
    }
}

/// Adds a symbolic value so many times.
fn push_each(
    symbolic_nodes: &mut Vec<SymbolicNode>,
    s: SymbolicNode,
    count: usize,
) -> Result<(), AllocError>
    ensures { OnOk result (symbolic_nodes.new.items ≡ symbolic_nodes.old.items ++ replicate count s) }
{
    for _ in 0..count {
        symbolic_nodes.push(s)?;
    }
    Ok(())
}

/// Adds so many registers that were never set.
fn push_unset(
    nodes: &mut Nodes,
    symbolic_nodes: &mut Vec<SymbolicNode>,
    count: usize,
) -> Result<(), AllocError>
    requires { AreSymbolicNodes (length nodes.old) symbolic_nodes.old.items }
    ensures grew { Grew nodes.old nodes.new }
    ensures is { OnOk result (AreSymbolicNodes (length nodes.new) symbolic_nodes.new.items) }
    ensures value { OnOk result (registers_by nodes.new symbolic_nodes.new.items ≡ registers_by nodes.old symbolic_nodes.old.items ++ replicate count symbolics.unset) }
{
    let blank = unset(nodes)?;
    push_each(symbolic_nodes, blank, count)
}

/// The registers of a call that begins, by the symbolic values of its arguments.
#[tactic(auto, using(pg_slice_values::proofs::GrowingNodes::grew_then))]
pub(crate) fn entered(
    alloc: Global,
    nodes: &mut Nodes,
    p: &Program,
    g: u32,
    args: &[Value],
    registers: &[SymbolicNode],
) -> Result<Vec<SymbolicNode>, AllocError>
    requires symbolic_nodes { AreSymbolicNodes (length nodes.old) registers.now }
    ensures grew { Grew nodes.old nodes.new }
    ensures is { IfOk result (λ v. AreSymbolicNodes (length nodes.new) v.items) }
    ensures value { IfOk result (λ v. registers_by nodes.new v.items ≡ known.entered p.now g (map (symbolic_of p.now (registers_by nodes.old registers.now)) args.now)) }
{
    let mut symbolic_nodes = values(alloc, nodes, p, args, registers)?;
    push_unset(
        nodes,
        &mut symbolic_nodes,
        register_count(p, g).saturating_sub(args.len()),
    )?;
    Ok(symbolic_nodes)
}

/// The registers of a thread's first call, none of which was set.
pub(crate) fn fresh(
    alloc: Global,
    nodes: &mut Nodes,
    p: &Program,
    f: u32,
) -> Result<Vec<SymbolicNode>, AllocError>
    ensures grew { Grew nodes.old nodes.new }
    ensures is { IfOk result (λ v. AreSymbolicNodes (length nodes.new) v.items) }
    ensures value { IfOk result (λ v. registers_by nodes.new v.items ≡ known.fresh_registers p.now f) }
{
    let mut symbolic_nodes = Vec::new(alloc);
    push_unset(nodes, &mut symbolic_nodes, register_count(p, f))?;
    Ok(symbolic_nodes)
}
