//! Whether bytes are those of one number.

ghost use Rattle.std.specs.Prelude.{◌≡◌, ◌≤◌, ◌*◌, ℕ, IfNone, IfSome, IsTrue};
ghost use Rattle.pg_ir.specs.Program.{NumberedProgram};
ghost use Rattle.pg_precondition.specs.Nodes.{NodeList};
ghost use Rattle.pg_num.specs.Numbers.{width_bits};
ghost use Rattle.pg_slice_values.specs.pg_slice_rules.SymbolicValues as symbolics;
ghost use Rattle.pg_slice_memory.specs.Loads.{AreInitial, AreKnown, ArePartsOf, is_part, symbolics_from};

use crate::symbolic_node::SymbolicByte;
use pg_num::Width;
use pg_slice_values::pg_slice_rules::Decision;

/// The decision that is blamed for the first byte that isn't known.
pub(crate) fn first_unknown(symbolic_nodes: &[SymbolicByte; 8], count: u8) -> Option<Decision>
    requires { count ≤ 8 }
    ensures some { IfSome result (λ x. (p : NumberedProgram) (ns : NodeList) (start : ℕ) → symbolics.loaded (symbolics_from p ns start symbolic_nodes.now) start count ≡ symbolics.Unknown x) }
    ensures none { IfNone result (AreKnown symbolic_nodes.now count) }
{
    for k in 0..count {
        if let SymbolicByte::Unknown(by) = symbolic_nodes[k as usize] {
            return Some(by);
        }
    }
    None
}

/// Whether a byte is this one of a node's number.
fn is_part(symbolic_node: SymbolicByte, of: u32, place: u8) -> bool
    ensures { result ≡ is_part of place symbolic_node }
{
    match symbolic_node {
        SymbolicByte::Part { of: node, at } => node == of && at == place,
        SymbolicByte::Initial | SymbolicByte::Unknown(_) => false,
    }
}

/// Whether the bytes are those of a node's number, the lowest first.
fn are_parts(symbolic_nodes: &[SymbolicByte; 8], count: u8, of: u32) -> bool
    requires { count ≤ 8 }
    ensures { IsTrue result → ArePartsOf of symbolic_nodes.now count }
{
    for k in 0..count {
        if !is_part(symbolic_nodes[k as usize], of, k) {
            return false;
        }
    }
    true
}

/// The width of a number of so many bytes, where there is one.
fn width_of(count: u8) -> Option<Width>
    ensures { IfSome result (λ w. width_bits w ≡ 8 * count) }
{
    match count {
        1 => Some(Width::W8),
        2 => Some(Width::W16),
        4 => Some(Width::W32),
        8 => Some(Width::W64),
        _ => None,
    }
}

/// The node of whose number the bytes are the lowest, and the width that they have together, where they are so.
pub(crate) fn whole(symbolic_nodes: &[SymbolicByte; 8], count: u8) -> Option<(u32, Width)>
    requires { count ≤ 8 }
    ensures { IfSome result (λ r. ArePartsOf r.0 symbolic_nodes.now count × (width_bits r.1 ≡ 8 * count)) }
{
    let width = width_of(count)?;
    match symbolic_nodes[0] {
        SymbolicByte::Part { of, .. } => {
            if are_parts(symbolic_nodes, count, of) {
                Some((of, width))
            } else {
                None
            }
        }
        SymbolicByte::Initial | SymbolicByte::Unknown(_) => None,
    }
}

/// Whether the bytes are as at the start.
pub(crate) fn are_initial(symbolic_nodes: &[SymbolicByte; 8], count: u8) -> bool
    requires { count ≤ 8 }
    ensures { IsTrue result → AreInitial symbolic_nodes.now count }
{
    for k in 0..count {
        match symbolic_nodes[k as usize] {
            SymbolicByte::Initial => {}
            SymbolicByte::Part { .. } | SymbolicByte::Unknown(_) => return false,
        }
    }
    true
}
