//! Root paths, followed in what is known.

ghost use Rattle.std.specs.Prelude.{◌≡◌, ◌<◌, ◌+◌, ◌≤◌, ◌∷◌, [], pos, List, length, IfOk};
ghost use Rattle.pg_num.specs.Places.{ByteRange};
ghost use Rattle.pg_num.specs.Pointers.{moved_by};
ghost use Rattle.pg_precondition.specs.Nodes.{NodeList};
ghost use Rattle.pg_slice_memory.specs.pg_slice_rules.Rules as rules;
ghost use Rattle.pg_slice_memory.specs.pg_slice_rules.SymbolicValues.{loaded};
ghost use Rattle.pg_slice_memory.specs.pg_slice_values.SymbolicNodes.{Grew, IsSymbolicNode, symbolic_by};
ghost use Rattle.pg_slice_memory.specs.Changes.{AreSymbolicNodes, symbolics_of};
ghost use Rattle.pg_stamps.specs.declared.stamps.TheConstants.{PLACE_COUNT};
ghost use Rattle.pg_slice_checks.specs.Asks.{Adds};
ghost use Rattle.pg_slice_checks.specs.Paths.{AreCells};

use crate::asked::Asked;
use pg_ir::Program;
use pg_num::move_by;
use pg_precondition::{Nodes, Test};
use pg_slice_memory::pg_slice_values::{SymbolicNode, offset};
use pg_slice_memory::{Held, SymbolicMemory, place_of};
use std::alloc::AllocError;

/// The word moved by so many bytes, which count modulo two to the 21.
fn move_word(word: u64, bytes: u64) -> u64
    ensures { result ≡ moved_by word (pos bytes) }
{
    move_by(word, (bytes % 0x20_0000) as i64)
}

/// What is known of eight bytes of memory.
fn load(
    p: &Program,
    nodes: &mut Nodes,
    memory: &SymbolicMemory,
    start: u64,
) -> Result<SymbolicNode, AllocError>
    requires end { start + 8 ≤ PLACE_COUNT }
    requires names { AreSymbolicNodes (length nodes.old) memory.now }
    ensures grew { Grew nodes.old nodes.new }
    ensures is { IfOk result (IsSymbolicNode (length nodes.new)) }
    ensures value { IfOk result (λ s. symbolic_by nodes.new s ≡ loaded (symbolics_of p.now nodes.old memory.now) start 8) }
{
    match memory.load(p, nodes, start, 8)? {
        Held::Known(node) => Ok(SymbolicNode::Known {
            value: node,
            bounds: node,
        }),
        Held::Unknown(by) => Ok(SymbolicNode::Unknown(by)),
    }
}

/// A path of a region's access at a step: what is known of its root; the offsets of its loads, and the pointers that these were
/// applied to in the run, as many at least; and the pointer to which it led.
#[derive(Clone, Copy)]
pub struct PathAt<'a> {
    pub root: SymbolicNode,
    pub offsets: &'a [u64],
    pub pointers: &'a [u64],
    pub last: u64,
}

/// What is asked of a path of a region's access at a step: that the address of each of its loads is known, and is what
/// it was, and that its last pointer has known bounds, which are those of the one to which it led.
///
/// # Errors
///
/// Where no memory is left. Some of it may have been noted.
pub fn path_needs(
    asked: &mut Asked,
    p: &Program,
    nodes: &mut Nodes,
    memory: &SymbolicMemory,
    path: &PathAt,
) -> Result<(), AllocError>
    requires count { length path.now.offsets.now ≤ length path.now.pointers.now }
    requires names { AreSymbolicNodes (length nodes.old) memory.now }
    requires root { IsSymbolicNode (length nodes.old) path.now.root }
    ensures grew { Grew nodes.old nodes.new }
    ensures adds { IfOk result (λ u. (ns : NodeList) (cells : List ByteRange) → Grew nodes.new ns → AreCells path.now.offsets.now path.now.pointers.now cells →
        Adds ns (rules.path_needs (symbolics_of p.now ns memory.now) (symbolic_by ns path.now.root) path.now.offsets.now path.now.pointers.now cells path.now.last) asked.old asked.new) }
{
    let mut s = path.root;
    for i in 0..path.offsets.len() {
        let at = offset(nodes, path.offsets[i], s)?;
        let address = move_word(path.pointers[i], path.offsets[i]);
        asked.need_value(at, Test::Eq(address))?;
        s = load(p, nodes, memory, place_of(address))?;
    }
    asked.need_bounds(s, path.last)?;
    Ok(())
}
