//! The symbolic values of operands.

ghost use Rattle.std.specs.Prelude.{◌≡◌, ◌<◌, ◌%◌, length, map, slice_index_or, IfOk, Some, None};
ghost use Rattle.std.specs.List.{AllByRecursion};
ghost use Rattle.pg_num.specs.Numbers.{modulus};
ghost use Rattle.pg_slice_rules.specs.SymbolicValues.{Known, always, cut, symbolic_of, valued};
ghost use Rattle.pg_slice_rules.specs.SymbolicValues as symbolics;
ghost use Rattle.pg_slice_rules.specs.Rules.{moved_symbolic};
ghost use Rattle.pg_slice_rules.specs.Known as along;
ghost use Rattle.pg_slice_values.specs.SymbolicNodes.{Grew, IsSymbolicNode, number_by, symbolic_by};

use crate::growing::{added, known};
use crate::symbolic_node::SymbolicNode;
use pg_ir::{Program, Value};
use pg_num::{Division, Width};
use pg_precondition::{CastKind, Node, Nodes, Operation};
use std::alloc::AllocError;

/// A number that is the same on each input.
///
/// # Errors
///
/// Where no memory is left for its node.
pub fn constant(nodes: &mut Nodes, n: u64) -> Result<SymbolicNode, AllocError>
    ensures grew { Grew nodes.old nodes.new }
    ensures is { IfOk result (IsSymbolicNode (length nodes.new)) }
    ensures value { IfOk result (λ s. symbolic_by nodes.new s ≡ always n) }
{
    known(nodes, Node::Const(n))
}

/// A value that has a number on no input, as a register that was never set.
///
/// # Errors
///
/// Where no memory is left for its nodes. Some of them may have been added.
#[tactic(auto, using(crate::proofs::GrowingNodes::grew_then))]
pub fn unset(nodes: &mut Nodes) -> Result<SymbolicNode, AllocError>
    ensures grew { Grew nodes.old nodes.new }
    ensures is { IfOk result (IsSymbolicNode (length nodes.new)) }
    ensures value { IfOk result (λ s. symbolic_by nodes.new s ≡ symbolics.unset) }
{
    let zero = added(nodes, Node::Const(0))?;
    known(
        nodes,
        Node::Op {
            op: Operation::Divide(Division::Udiv),
            width: Width::W64,
            left: zero,
            right: zero,
        },
    )
}

/// A number that is the same on each input, or has none on any.
#[tactic(auto, using(crate::proofs::GrowingNodes::grew_none))]
fn fixed(nodes: &mut Nodes, n: Option<u64>) -> Result<SymbolicNode, AllocError>
    ensures grew { Grew nodes.old nodes.new }
    ensures is { IfOk result (IsSymbolicNode (length nodes.new)) }
    ensures value { IfOk result (λ s. symbolic_by nodes.new s ≡ valued (λ input. n)) }
{
    match n {
        Some(n) => constant(nodes, n),
        None => unset(nodes),
    }
}

/// The symbolic value of a register; one that isn't there was never set.
#[tactic(auto, using(crate::proofs::GrowingNodes::grew_none, crate::proofs::Registers::register_at, crate::proofs::Registers::register_is, crate::proofs::Registers::no_register))]
fn register(
    nodes: &mut Nodes,
    r: u32,
    registers: &[SymbolicNode],
) -> Result<SymbolicNode, AllocError>
    requires { AllByRecursion (IsSymbolicNode (length nodes.old)) registers.now }
    ensures grew { Grew nodes.old nodes.new }
    ensures is { IfOk result (IsSymbolicNode (length nodes.new)) }
    ensures value { IfOk result (λ s. symbolic_by nodes.new s ≡ slice_index_or (map (symbolic_by nodes.old) registers.now) r symbolics.unset) }
{
    match registers.get(r as usize).copied() {
        Some(s) => Ok(s),
        None => unset(nodes),
    }
}

/// An operand, by the registers of its frame; a register that isn't there was never set, and a global that isn't there has no
/// pointer.
///
/// # Errors
///
/// Where no memory is left for its nodes. Some of them may have been added.
pub fn value(
    nodes: &mut Nodes,
    p: &Program,
    v: Value,
    registers: &[SymbolicNode],
) -> Result<SymbolicNode, AllocError>
    requires { AllByRecursion (IsSymbolicNode (length nodes.old)) registers.now }
    ensures grew { Grew nodes.old nodes.new }
    ensures is { IfOk result (IsSymbolicNode (length nodes.new)) }
    ensures value { IfOk result (λ s. symbolic_by nodes.new s ≡ symbolic_of p.now (map (symbolic_by nodes.old) registers.now) v) }
{
    match v {
        Value::Register(r) => register(nodes, r, registers),
        Value::Const(n) => constant(nodes, n),
        Value::Global(g) => fixed(nodes, p.global_pointer(g)),
        Value::Function(f) => constant(nodes, f as u64),
    }
}

/// A number modulo two to a width.
///
/// # Errors
///
/// Where no memory is left for its node.
#[tactic(auto, using(crate::proofs::GrowingNodes::grew_none, crate::proofs::Widths::within_64))]
pub fn within(nodes: &mut Nodes, w: Width, s: SymbolicNode) -> Result<SymbolicNode, AllocError>
    requires { IsSymbolicNode (length nodes.old) s }
    ensures grew { Grew nodes.old nodes.new }
    ensures is { IfOk result (IsSymbolicNode (length nodes.new)) }
    ensures value { IfOk result (λ r. symbolic_by nodes.new r ≡ cut (λ n. n % modulus w) (symbolic_by nodes.old s)) }
{
    match s {
        SymbolicNode::Known { value: of, .. } => known(
            nodes,
            Node::Cast {
                cast: CastKind::Zext,
                from: w,
                to: Width::W64,
                of,
            },
        ),
        SymbolicNode::Bounded(_, by) | SymbolicNode::Unknown(by) => Ok(SymbolicNode::Unknown(by)),
    }
}

/// The low byte of a number.
///
/// # Errors
///
/// Where no memory is left for its node.
pub fn low_byte(nodes: &mut Nodes, s: SymbolicNode) -> Result<SymbolicNode, AllocError>
    requires { IsSymbolicNode (length nodes.old) s }
    ensures grew { Grew nodes.old nodes.new }
    ensures is { IfOk result (IsSymbolicNode (length nodes.new)) }
    ensures value { IfOk result (λ r. symbolic_by nodes.new r ≡ along.low_byte (symbolic_by nodes.old s)) }
{
    within(nodes, Width::W8, s)
}

/// A word that is moved by so many bytes, as to the address of a load.
///
/// # Errors
///
/// Where no memory is left for its nodes. Some of them may have been added.
#[tactic(auto, using(crate::proofs::GrowingNodes::grew_none, crate::proofs::GrowingNodes::grew_then))]
pub fn offset(nodes: &mut Nodes, k: u64, s: SymbolicNode) -> Result<SymbolicNode, AllocError>
    requires { IsSymbolicNode (length nodes.old) s }
    ensures grew { Grew nodes.old nodes.new }
    ensures is { IfOk result (IsSymbolicNode (length nodes.new)) }
    ensures value { IfOk result (λ r. symbolic_by nodes.new r ≡ moved_symbolic k (symbolic_by nodes.old s)) }
{
    match s {
        SymbolicNode::Known { value, bounds } => moved_word(nodes, k, value, bounds),
        SymbolicNode::Bounded(..) | SymbolicNode::Unknown(_) => Ok(s),
    }
}

/// The value of a node's word, moved by so many bytes, with the bounds of another node's word.
#[tactic(auto, using(crate::proofs::GrowingNodes::grew_then, crate::proofs::GrowingNodes::grew_length))]
fn moved_word(nodes: &mut Nodes, k: u64, base: u32, bounds: u32) -> Result<SymbolicNode, AllocError>
    requires base { base < length nodes.old }
    requires bounds { bounds < length nodes.old }
    ensures grew { Grew nodes.old nodes.new }
    ensures is { IfOk result (IsSymbolicNode (length nodes.new)) }
    ensures value { IfOk result (λ r. symbolic_by nodes.new r ≡ moved_symbolic k (Known (number_by nodes.old base) (number_by nodes.old bounds))) }
{
    let delta = added(nodes, Node::Const(k))?;
    let value = added(nodes, Node::Gep { base, delta })?;
    Ok(SymbolicNode::Known { value, bounds })
}

/// The input's number at an index, which is read with its sign; 0 outside of the input.
///
/// # Errors
///
/// Where no memory is left for its node.
#[tactic(auto, using(crate::proofs::GrowingNodes::grew_none))]
pub fn from_input(nodes: &mut Nodes, s: SymbolicNode) -> Result<SymbolicNode, AllocError>
    requires { IsSymbolicNode (length nodes.old) s }
    ensures grew { Grew nodes.old nodes.new }
    ensures is { IfOk result (IsSymbolicNode (length nodes.new)) }
    ensures value { IfOk result (λ r. symbolic_by nodes.new r ≡ along.from_input (symbolic_by nodes.old s)) }
{
    match s {
        SymbolicNode::Known { value: index, .. } => known(nodes, Node::In(index)),
        SymbolicNode::Bounded(_, by) | SymbolicNode::Unknown(by) => Ok(SymbolicNode::Unknown(by)),
    }
}

/// How many numbers the input has.
///
/// # Errors
///
/// Where no memory is left for its node.
pub fn input_length(nodes: &mut Nodes) -> Result<SymbolicNode, AllocError>
    ensures grew { Grew nodes.old nodes.new }
    ensures is { IfOk result (IsSymbolicNode (length nodes.new)) }
    ensures value { IfOk result (λ r. symbolic_by nodes.new r ≡ valued (λ input. Some (length input))) }
{
    known(nodes, Node::InLen)
}
