//! The number of one node.

ghost use Rattle.std.specs.Prelude.{◌≡◌, ◌<◌, ◌≤◌, ◌+◌, drop, length, IfSome};
ghost use Rattle.pg_num.specs.Numbers.{signed};
ghost use Rattle.pg_num.specs.declared.width.Width.TheVariants.{W64};
ghost use Rattle.pg_precondition.specs.Nodes.{IsNode, NamesParts};
ghost use Rattle.pg_precondition.specs.Values.{chosen, joined, node_number, number_of};
ghost use Rattle.pg_num.specs.Inputs.{input_at};
ghost use Rattle.pg_precondition.specs.Bounds.{bound_of};

use crate::node::Node;
use crate::operation::{cast, operated_on};
use pg_num::{Width, from_signed, move_by, to_signed};

/// The input's number at an index, which is read as a number with a sign; 0 outside of the input.
fn input_at(input: &[i64], index: u64) -> u64
    ensures { result ≡ input_at input.now (signed W64 index) }
{
    let index = to_signed(Width::W64, index);
    if index < 0 {
        return 0;
    }
    match input.get(index as usize) {
        Some(&n) => from_signed(Width::W64, n),
        None => 0,
    }
}

/// The number of an earlier node, if it has one.
fn number_of(known: &[Option<u64>], node: u32) -> Option<u64>
    requires { node < length known.now }
    ensures { result ≡ number_of known.now node }
{
    known[node as usize]
}

/// The second where the condition is odd, else the third.
fn chosen(c: u64, yes: Option<u64>, no: Option<u64>) -> Option<u64>
    ensures { result ≡ chosen c yes no }
{
    if c % 2 == 0 { no } else { yes }
}

#[tactic(auto, using(crate::proofs::JoinedBytes::joined_none, crate::proofs::JoinedBytes::joined_next, crate::proofs::JoinedBytes::bound_zero, crate::proofs::JoinedBytes::bound_next, crate::proofs::JoinedBytes::bound_small))]
/// The number whose bytes are those of `count` nodes from part `first` on, the lowest first.
fn joined(known: &[Option<u64>], parts: &[u32; 8], first: u8, count: u8) -> Option<u64>
    requires within { first + count ≤ 8 }
    requires names { NamesParts (length known.now) parts.now (first + count) }
    ensures number { result ≡ joined known.now (drop first parts.now) count }
    ensures bound { IfSome result (λ n. n < bound_of count) }
{
    if count == 0 {
        return Some(0);
    }
    let byte = number_of(known, parts[first as usize])?;
    let rest = joined(known, parts, first + 1, count - 1)?;
    Some(rest * 0x100 + byte % 0x100)
}

/// The number of a node by those of the nodes before it, if it has one.
pub(crate) fn node_number(node: &Node, known: &[Option<u64>], input: &[i64]) -> Option<u64>
    requires { IsNode (length known.now) node.now }
    ensures { result ≡ node_number input.now known.now node.now }
{
    match *node {
        Node::Const(n) => Some(n),
        Node::In(at) => Some(input_at(input, number_of(known, at)?)),
        Node::InLen => Some(input.len() as u64),
        Node::Op {
            op,
            width,
            left,
            right,
        } => operated_on(op, width, number_of(known, left)?, number_of(known, right)?),
        Node::Cast {
            cast: kind,
            from,
            to,
            of,
        } => Some(cast(kind, from, to, number_of(known, of)?)),
        Node::Select { cond, yes, no } => chosen(
            number_of(known, cond)?,
            number_of(known, yes),
            number_of(known, no),
        ),
        Node::Gep { base, delta } => {
            let word = number_of(known, base)?;
            let bytes = number_of(known, delta)?;
            Some(move_by(word, to_signed(Width::W64, bytes)))
        }
        Node::Byte { of, at } => Some((number_of(known, of)? >> (8 * at)) % 0x100),
        Node::Join { parts, count } => joined(known, &parts, 0, count),
    }
}
