//! The symbolic value of a number that is loaded.

ghost use Rattle.std.specs.Prelude.{◌≡◌, ◌≤◌, ◌<◌, ◌+◌, ℕ, IfOk, length, true};
ghost use Rattle.pg_slice_values.specs.pg_slice_rules.SymbolicValues as symbolics;
ghost use Rattle.pg_stamps.specs.declared.stamps.TheConstants.{PLACE_COUNT};
ghost use Rattle.pg_slice_values.specs.SymbolicNodes.{Grew, number_by};
ghost use Rattle.pg_slice_memory.specs.Loads.{AreKnown, AreNamed, IsByteNode, is_known_byte, symbolics_from};
ghost use Rattle.pg_slice_memory.specs.SymbolicNodes.{IsPart, IsSymbolicNode, byte_symbolic};

use crate::initial::{initial_byte, initial_number};
use crate::parts::{are_initial, whole};
use crate::symbolic_node::SymbolicByte;
use pg_ir::Program;
use pg_num::Width;
use pg_precondition::{CastKind, Node, Nodes};
use pg_slice_values::added;
use std::alloc::AllocError;

/// The node of a byte that is known.
fn byte_node(
    p: &Program,
    nodes: &mut Nodes,
    byte: u64,
    symbolic_node: SymbolicByte,
) -> Result<u32, AllocError>
    requires known { is_known_byte symbolic_node ≡ true }
    requires names { IsSymbolicNode (length nodes.old) symbolic_node }
    requires part { IsPart symbolic_node }
    ensures grew { Grew nodes.old nodes.new }
    ensures node { IfOk result (λ k. IsByteNode nodes.new k (byte_symbolic p.now nodes.old byte symbolic_node)) }
{
    match symbolic_node {
        SymbolicByte::Initial => added(nodes, Node::Const(initial_byte(p, byte) as u64)),
        SymbolicByte::Part { of, at } => added(nodes, Node::Byte { of, at }),
        SymbolicByte::Unknown(_) => unreachable!(),
    }
}

/// The node of the number that known bytes from a place on make, the lowest first.
pub(crate) fn number_node(
    p: &Program,
    nodes: &mut Nodes,
    start: u64,
    symbolic_nodes: &[SymbolicByte; 8],
    count: u8,
) -> Result<u32, AllocError>
    requires some { 1 ≤ count }
    requires count { count ≤ 8 }
    requires end { start + count ≤ PLACE_COUNT }
    requires known { AreKnown symbolic_nodes.now count }
    requires named { AreNamed (length nodes.old) symbolic_nodes.now count }
    ensures grew { Grew nodes.old nodes.new }
    ensures is { IfOk result (λ k. k < length nodes.new) }
    ensures value { IfOk result (λ k. symbolics.valued (number_by nodes.new k) ≡ symbolics.loaded (symbolics_from p.now nodes.old start symbolic_nodes.now) start count) }
{
    if let Some((of, width)) = whole(symbolic_nodes, count) {
        return added(
            nodes,
            Node::Cast {
                cast: CastKind::Zext,
                from: width,
                to: Width::W64,
                of,
            },
        );
    }
    if are_initial(symbolic_nodes, count) {
        return added(nodes, Node::Const(initial_number(p, start, count)));
    }
    let mut parts = [0; 8];
    for k in 0..count {
        parts[k as usize] = byte_node(p, nodes, start + k as u64, symbolic_nodes[k as usize])?;
    }
    added(nodes, Node::Join { parts, count })
}
