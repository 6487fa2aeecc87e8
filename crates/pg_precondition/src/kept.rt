//! Nodes that are kept and numbered anew.

ghost use Rattle.std.specs.Prelude.{◌≡◌, ◌<◌, ◌≤◌, ◌++◌, ◌+◌, ℕ, IfOk, OnOk, drop, length, map, slice_index, take};
ghost use Rattle.pg_precondition.specs.Nodes.{AreNodes, IsNode, NamesParts};
ghost use Rattle.pg_precondition.specs.Kept.{HasParts, kept, renamed};
ghost use Rattle.pg_precondition.specs.Marks.{AreClosed, ArePlaces};

use crate::marks::is_set;
use crate::node::Node;
use crate::nodes::Nodes;
use std::alloc::{AllocError, Global};

/// The place of a node.
pub(crate) fn place_of(places: &[u32], node: u32) -> u32
    requires { node < length places.now }
    ensures { result ≡ slice_index places.now node }
{
    places[node as usize]
}

/// The parts of a join, of which the first are renamed.
fn renamed_parts(places: &[u32], parts: [u32; 8], count: u8) -> [u32; 8]
    requires few { count ≤ 8 }
    requires names { NamesParts (length places.now) parts count }
    ensures { result ≡ map (slice_index places.now) (take count parts) ++ drop count parts }
{
    let mut renamed = parts;
    for i in 0..count {
        renamed[i as usize] = place_of(places, parts[i as usize]);
    }
    renamed
}

/// The node with the places of the nodes that it names.
fn renamed(places: &[u32], node: Node) -> Node
    requires { IsNode (length places.now) node }
    ensures node { result ≡ renamed (slice_index places.now) node }
    ensures parts { HasParts node }
{
    match node {
        Node::Const(n) => Node::Const(n),
        Node::InLen => Node::InLen,
        Node::In(of) => Node::In(place_of(places, of)),
        Node::Op {
            op,
            width,
            left,
            right,
        } => Node::Op {
            op,
            width,
            left: place_of(places, left),
            right: place_of(places, right),
        },
        Node::Cast { cast, from, to, of } => Node::Cast {
            cast,
            from,
            to,
            of: place_of(places, of),
        },
        Node::Select { cond, yes, no } => Node::Select {
            cond: place_of(places, cond),
            yes: place_of(places, yes),
            no: place_of(places, no),
        },
        Node::Gep { base, delta } => Node::Gep {
            base: place_of(places, base),
            delta: place_of(places, delta),
        },
        Node::Byte { of, at } => Node::Byte {
            of: place_of(places, of),
            at,
        },
        Node::Join { parts, count } => Node::Join {
            parts: renamed_parts(places, parts, count),
            count,
        },
    }
}

/// Adds node `i`, renamed, if it is marked, to those of the nodes before it.
fn keep(
    list: &mut Nodes,
    nodes: &Nodes,
    marks: &[bool],
    places: &[u32],
    i: u32,
) -> Result<(), AllocError>
    requires within { i < length nodes.now }
    requires as_many { length marks.now ≡ length nodes.now }
    requires closed { AreClosed nodes.now marks.now 0 }
    requires places { ArePlaces marks.now places.now }
    requires list { list.old ≡ kept (slice_index places.now) (take i marks.now) (take i nodes.now) }
    ensures { OnOk result (list.new ≡ kept (slice_index places.now) (take (i + 1) marks.now) (take (i + 1) nodes.now)) }
{
    if !is_set(marks, i) {
        return Ok(());
    }
    let node = nodes.node(i);
    list.push(renamed(places, node))?;
    Ok(())
}

/// The marked nodes, renamed.
pub(crate) fn kept(
    alloc: Global,
    nodes: &Nodes,
    marks: &[bool],
    places: &[u32],
) -> Result<Nodes, AllocError>
    requires as_many { length marks.now ≡ length nodes.now }
    requires closed { AreClosed nodes.now marks.now 0 }
    requires places { ArePlaces marks.now places.now }
    ensures { IfOk result (λ v. v ≡ kept (slice_index places.now) marks.now nodes.now) }
{
    let mut kept = Nodes::new(alloc);
    for i in 0..nodes.len() {
        keep(&mut kept, nodes, marks, places, i)?;
    }
    Ok(kept)
}
