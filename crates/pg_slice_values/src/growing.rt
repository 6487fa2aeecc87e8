//! Nodes that are added.

ghost use Rattle.std.specs.Prelude.{◌≡◌, ◌<◌, ℤ, List, length, IfOk};
ghost use Rattle.pg_precondition.specs.Nodes.{IsNode};
ghost use Rattle.pg_precondition.specs.Values.{node_number, numbers_of};
ghost use Rattle.pg_slice_rules.specs.SymbolicValues.{valued};
ghost use Rattle.pg_slice_values.specs.SymbolicNodes.{Grew, IsSymbolicNode, number_by, symbolic_by};

use crate::symbolic_node::SymbolicNode;
use pg_precondition::{Node, Nodes};
use std::alloc::AllocError;

/// Adds a node, and gives its number.
///
/// # Errors
///
/// Where no memory is left for it.
#[tactic(auto, using(crate::proofs::GrowingNodes::grew_one, crate::proofs::GrowingNodes::grew_none, crate::proofs::GrowingNodes::number_of_new, crate::proofs::GrowingNodes::length_more))]
pub fn added(nodes: &mut Nodes, node: Node) -> Result<u32, AllocError>
    requires { IsNode (length nodes.old) node }
    ensures grew { Grew nodes.old nodes.new }
    ensures is { IfOk result (λ k. k < length nodes.new) }
    ensures value { IfOk result (λ k. (input : List ℤ) → number_by nodes.new k input ≡ node_number input (numbers_of input nodes.old) node) }
{
    nodes.push(node)
}

/// Adds a node, and gives its value.
pub(crate) fn known(nodes: &mut Nodes, node: Node) -> Result<SymbolicNode, AllocError>
    requires { IsNode (length nodes.old) node }
    ensures grew { Grew nodes.old nodes.new }
    ensures is { IfOk result (IsSymbolicNode (length nodes.new)) }
    ensures value { IfOk result (λ s. symbolic_by nodes.new s ≡ valued (λ input. node_number input (numbers_of input nodes.old) node)) }
{
    let number = added(nodes, node)?;
    Ok(SymbolicNode::Known {
        value: number,
        bounds: number,
    })
}
