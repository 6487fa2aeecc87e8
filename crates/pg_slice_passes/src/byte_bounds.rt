//! Places of memory, and values that are stored.

ghost use Rattle.std.specs.Prelude.{◌≡◌, ◌+◌, ◌≤◌, ℕ, length};
ghost use Rattle.pg_precondition.specs.Nodes.{NodeList};
ghost use Rattle.pg_slice_rules.specs.Freeable.{bounds_of};
ghost use Rattle.pg_slice_rules.specs.SymbolicValues.{byte_in};
ghost use Rattle.pg_slice_values.specs.SymbolicNodes.{IsSymbolicNode, symbolic_by};
ghost use Rattle.pg_slice_checks.specs.pg_slice_memory.SymbolicNodes.{IsHeld, held_symbolic};
ghost use Rattle.pg_stamps.specs.declared.stamps.TheConstants.{PLACE_COUNT};

use pg_num::layout::GRANULE_BYTES;
use pg_num::unpack;
use pg_slice_checks::pg_slice_memory::Held;
use pg_slice_values::SymbolicNode;

/// The bytes within bounds: the first one, and how many there are.
#[derive(Clone, Copy)]
pub struct ByteBounds {
    pub start: u64,
    pub bytes: u64,
}

/// The bounds of a pointer.
pub fn bounds(word: u64) -> ByteBounds
    ensures start { result.start ≡ (bounds_of word).start }
    ensures bytes { result.bytes ≡ (bounds_of word).bytes }
    ensures within { result.start + result.bytes ≤ PLACE_COUNT }
{
    let pointer = unpack(word);
    ByteBounds {
        start: GRANULE_BYTES as u64 * pointer.start as u64,
        bytes: pointer.length as u64,
    }
}

/// A value as memory keeps it, which knows no bounds of a number that isn't known.
pub(crate) fn held(s: SymbolicNode) -> Held
    ensures is { (n : ℕ) → IsSymbolicNode n s → IsHeld n result }
    ensures bytes { (ns : NodeList) (k : ℕ) → byte_in k (held_symbolic ns result) ≡ byte_in k (symbolic_by ns s) }
{
    match s {
        SymbolicNode::Known { value, .. } => Held::Known(value),
        SymbolicNode::Bounded(_, by) | SymbolicNode::Unknown(by) => Held::Unknown(by),
    }
}

/// A value that was loaded.
pub(crate) fn loaded(held: Held) -> SymbolicNode
    ensures is { (n : ℕ) → IsHeld n held → IsSymbolicNode n result }
    ensures value { (ns : NodeList) → symbolic_by ns result ≡ held_symbolic ns held }
{
    match held {
        Held::Known(node) => SymbolicNode::Known {
            value: node,
            bounds: node,
        },
        Held::Unknown(by) => SymbolicNode::Unknown(by),
    }
}
