//! The symbolic values of moved pointers.

ghost use Rattle.std.specs.Prelude.{◌≡◌, ℤ, ◌<◌, ◌+◌, None, Some, List, drop, length, IfOk};
ghost use Rattle.std.specs.List.{AllByRecursion};
ghost use Rattle.pg_num.specs.Numbers.{product_of, sign_extended, truncated};
ghost use Rattle.pg_num.specs.declared.width.Width.TheVariants.{W64};
ghost use Rattle.pg_precondition.specs.Values.{with_one};
ghost use Rattle.pg_slice_values.specs.SymbolicNodes.{Grew, IsSymbolicNode, number_by};
ghost use Rattle.pg_slice_values.specs.SymbolicNodes as symbolic_nodes;
ghost use Rattle.pg_slice_values.specs.Forms.{distance_of, moved_each, moved_if, numbers_from};
ghost use Rattle.pg_slice_values.specs.Forms as forms;

use crate::form::node_at;
use crate::growing::added;
use crate::symbolic_node::SymbolicNode;
use pg_ir::{Index, Scale};
use pg_num::Width;
use pg_precondition::{CastKind, Node, Nodes, Operation};
use std::alloc::AllocError;

/// The node of an index, read with its sign, times its scale.
#[tactic(auto, using(crate::proofs::GrowingNodes::grew_then, crate::proofs::GrowingNodes::grew_length, crate::proofs::GrowingNodes::number_kept, crate::proofs::Widths::within_64))]
fn scaled(nodes: &mut Nodes, width: Width, scale: u64, index: u32) -> Result<u32, AllocError>
    requires { index < length nodes.old }
    ensures grew { Grew nodes.old nodes.new }
    ensures is { IfOk result (λ k. k < length nodes.new) }
    ensures value { IfOk result
        (λ k. (input : List ℤ) → number_by nodes.new k input ≡ with_one (number_by nodes.old index input)
        (λ m. Some (product_of W64 (truncated W64 (sign_extended width W64 (truncated width m))) (truncated W64 scale)))) }
{
    let wide = added(
        nodes,
        Node::Cast {
            cast: CastKind::Sext,
            from: width,
            to: Width::W64,
            of: index,
        },
    )?;
    let scale = added(nodes, Node::Const(scale))?;
    added(
        nodes,
        Node::Op {
            op: Operation::Mul,
            width: Width::W64,
            left: wide,
            right: scale,
        },
    )
}

/// The node of a constant that has a number only where the index has one.
#[tactic(auto, using(crate::proofs::GrowingNodes::grew_then, crate::proofs::GrowingNodes::grew_length, crate::proofs::GrowingNodes::number_kept))]
fn fixed(nodes: &mut Nodes, bytes: u64, index: u32) -> Result<u32, AllocError>
    requires { index < length nodes.old }
    ensures grew { Grew nodes.old nodes.new }
    ensures is { IfOk result (λ k. k < length nodes.new) }
    ensures value { IfOk result (λ k. (input : List ℤ) → number_by nodes.new k input ≡ with_one (number_by nodes.old index input) (λ m. Some bytes)) }
{
    let bytes = added(nodes, Node::Const(bytes))?;
    added(
        nodes,
        Node::Select {
            cond: index,
            yes: bytes,
            no: bytes,
        },
    )
}

/// The node of the bytes by which an index moves a pointer.
fn distance(nodes: &mut Nodes, index: Index, node: u32) -> Result<u32, AllocError>
    requires { node < length nodes.old }
    ensures grew { Grew nodes.old nodes.new }
    ensures is { IfOk result (λ k. k < length nodes.new) }
    ensures value { IfOk result (λ k. (input : List ℤ) → number_by nodes.new k input ≡ with_one (number_by nodes.old node input) (λ m. Some (distance_of index index.scale m))) }
{
    match index.scale {
        Scale::Times(scale) => scaled(nodes, index.width, scale, node),
        Scale::Field(bytes) => fixed(nodes, bytes as u64, node),
    }
}

/// The node of a word that is moved by an index.
#[tactic(auto, using(crate::proofs::GrowingNodes::grew_then, crate::proofs::GrowingNodes::grew_length, crate::proofs::GrowingNodes::number_kept))]
fn moved_once(nodes: &mut Nodes, word: u32, index: Index, node: u32) -> Result<u32, AllocError>
    requires word { word < length nodes.old }
    requires index { node < length nodes.old }
    ensures grew { Grew nodes.old nodes.new }
    ensures is { IfOk result (λ k. k < length nodes.new) }
    ensures value { IfOk result (λ k. (input : List ℤ) → number_by nodes.new k input ≡ moved_if index (number_by nodes.old word input) (number_by nodes.old node input)) }
{
    let delta = distance(nodes, index, node)?;
    added(nodes, Node::Gep { base: word, delta })
}

/// The node of the first operand's word, moved along indices, whose nodes are those of the operands behind it.
#[tactic(auto, using(crate::proofs::GrowingNodes::grew_none, crate::proofs::GrowingNodes::grew_then, crate::proofs::GrowingNodes::grew_length, crate::proofs::Operands::known_below))]
pub(crate) fn moved_along(
    nodes: &mut Nodes,
    indices: &[Index],
    operands: &[SymbolicNode],
) -> Result<u32, AllocError>
    requires known { symbolic_nodes.blamed operands.now ≡ None }
    requires symbolic_nodes { AllByRecursion (IsSymbolicNode (length nodes.old)) operands.now }
    requires count { length operands.now ≡ length indices.now + 1 }
    ensures grew { Grew nodes.old nodes.new }
    ensures is { IfOk result (λ k. k < length nodes.new) }
    ensures value { IfOk result
        (λ k. (input : List ℤ) → number_by nodes.new k input ≡ moved_each (number_by nodes.old (forms.node_at operands.now 0) input)
        indices.now (drop 1 (numbers_from nodes.old operands.now input))) }
{
    let mut word = node_at(operands, 0);
    for i in 0..indices.len() {
        word = moved_once(nodes, word, indices[i], node_at(operands, i + 1))?;
    }
    Ok(word)
}
