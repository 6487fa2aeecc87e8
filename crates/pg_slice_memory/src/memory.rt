//! What is known of the bytes of memory.

use crate::change::Change;
use crate::load::number_node;
use crate::parts::first_unknown;
use crate::symbolic_node::{Held, SymbolicByte};
use pg_ir::Program;
use pg_precondition::Nodes;
use pg_slice_values::pg_slice_rules::Decision;
use pg_stamps::{PLACE_COUNT, Stamps};
use std::alloc::{AllocError, Global};
use std::marker::Model;

/// The symbolic values of the bytes of memory, those below `PLACE_COUNT`: the changes that were made, in order. A byte's last change
/// is found by a stamp, the number of changes with it.
#[derive(Drop)]
pub struct SymbolicMemory {
    changes: Vec<Change>,
    stamps: Stamps,
}

impl Model for SymbolicMemory {
    ghost use Rattle.pg_slice_memory.specs.Changes.{Changes};
    ghost use Rattle.pg_slice_memory.specs.Stamped.{AreStamps};

    ghost Value = { Changes };

    ghost view = { λ m. m.changes.items };

    ghost invariant = { λ m. AreStamps m.changes.items m.stamps };
}

impl SymbolicMemory {
    ghost use Rattle.std.specs.Prelude.{◌≡◌, ◌≤◌, ◌<◌, ◌+◌, ◌++◌, ◌∷◌, [], ℕ, IfOk, OnErr, OnOk, length};
    ghost use Rattle.pg_ir.specs.Program.{NumberedProgram};
    ghost use Rattle.pg_precondition.specs.Nodes.{NodeList};
    ghost use Rattle.pg_slice_values.specs.pg_slice_rules.Known.{start_of};
    ghost use Rattle.pg_slice_values.specs.pg_slice_rules.SymbolicValues.{loaded, spoiled, stored};
    ghost use Rattle.pg_slice_memory.specs.declared.symbolic_node.Held.TheVariants.{Unknown};
    ghost use Rattle.pg_slice_values.specs.SymbolicNodes.{Grew};
    ghost use Rattle.pg_slice_memory.specs.Loads.{symbolic_node_in};
    ghost use Rattle.pg_slice_memory.specs.SymbolicNodes.{IsHeld, IsPart, IsPlaceIn, changed, held_symbolic};
    ghost use Rattle.pg_slice_memory.specs.Changes.{AreSymbolicNodes, symbolics_of, symbolic_nodes_of};

    /// Memory before the first step.
    pub fn new(alloc: Global) -> SymbolicMemory
        ensures changes { result ≡ [] }
        ensures symbolic { (p : NumberedProgram) (ns : NodeList) → symbolics_of p ns result ≡ (start_of p).bytes }
        ensures names { (n : ℕ) → AreSymbolicNodes n result }
    {
        SymbolicMemory {
            changes: Vec::new(alloc),
            stamps: Stamps::new(alloc),
        }
    }

    /// What is known of a byte.
    pub fn at(&self, byte: u64) -> SymbolicByte
        ensures symbolic_node { result ≡ symbolic_nodes_of self.now byte }
        ensures part { IsPart result }
    {
        let changes = self.changes.as_slice();
        if byte >= PLACE_COUNT {
            return SymbolicByte::Initial;
        }
        let count = self.stamps.greatest(byte) as usize;
        if count == 0 {
            return SymbolicByte::Initial;
        }
        changes[count - 1].symbolic_node(byte)
    }

    /// Makes one change more.
    fn change(&mut self, change: Change) -> Result<(), AllocError>
        requires end { change.start + change.bytes ≤ PLACE_COUNT }
        requires places { (k : ℕ) → k < change.bytes → IsPlaceIn change.to k }
        ensures ok { OnOk result (self.new ≡ self.old ++ change ∷ []) }
        ensures same { OnErr result (self.new ≡ self.old) }
    {
        self.changes.push(change)?;
        match self.stamps.stamp(
            change.start,
            change.start + change.bytes,
            self.changes.len() as u64,
        ) {
            Ok(()) => Ok(()),
            Err(error) => {
                let _change = self.changes.pop();
                Err(error)
            }
        }
    }

    /// Stores a number: the bytes from `start` on, `count` of them, become its bytes, the lowest first.
    ///
    /// # Errors
    ///
    /// Where no memory is left. The bytes are then as before.
    pub fn store(&mut self, start: u64, count: u8, of: Held) -> Result<(), AllocError>
        requires count { count ≤ 8 }
        requires end { start + count ≤ PLACE_COUNT }
        ensures symbolic_nodes { OnOk result (symbolic_nodes_of self.new ≡ changed (record { start = start; bytes = count }) of (symbolic_nodes_of self.old)) }
        ensures symbolic { OnOk result ((p : NumberedProgram) (ns : NodeList) → symbolics_of p ns self.new
            ≡ stored (record { start = start; bytes = count }) (held_symbolic ns of) (symbolics_of p ns self.old)) }
        ensures names { OnOk result ((n : ℕ) → AreSymbolicNodes n self.old → IsHeld n of → AreSymbolicNodes n self.new) }
        ensures same { OnErr result (self.new ≡ self.old) }
    {
        self.change(Change {
            start,
            bytes: u64::from(count),
            to: of,
        })
    }

    /// Forgets the bytes from `start` on, so many of them; the decision is blamed.
    ///
    /// # Errors
    ///
    /// Where no memory is left. The bytes are then as before.
    pub fn spoil(&mut self, start: u64, bytes: u64, by: Decision) -> Result<(), AllocError>
        requires end { start + bytes ≤ PLACE_COUNT }
        ensures symbolic_nodes { OnOk result (symbolic_nodes_of self.new ≡ changed (record { start = start; bytes = bytes }) (Unknown by) (symbolic_nodes_of self.old)) }
        ensures symbolic { OnOk result ((p : NumberedProgram) (ns : NodeList) → symbolics_of p ns self.new ≡ spoiled (record { start = start; bytes = bytes }) by (symbolics_of p ns self.old)) }
        ensures names { OnOk result ((n : ℕ) → AreSymbolicNodes n self.old → AreSymbolicNodes n self.new) }
        ensures same { OnErr result (self.new ≡ self.old) }
    {
        self.change(Change {
            start,
            bytes,
            to: Held::Unknown(by),
        })
    }
    /// The symbolic values of the bytes from `start` on, `count` of them, before bytes as at the start.
    fn symbolic_nodes(&self, start: u64, count: u8) -> [SymbolicByte; 8]
        requires count { count ≤ 8 }
        requires end { start + count ≤ PLACE_COUNT }
        ensures symbolic_nodes { (k : ℕ) → k < count → symbolic_node_in result k ≡ symbolic_nodes_of self.now (start + k) }
        ensures parts { (k : ℕ) → k < count → IsPart (symbolic_node_in result k) }
    {
        let mut symbolic_nodes = [SymbolicByte::Initial; 8];
        for k in 0..count {
            symbolic_nodes[k as usize] = self.at(start + k as u64);
        }
        symbolic_nodes
    }

    /// What is known of the number that the bytes from `start` on make, `count` of them, the lowest first. Nodes for it are
    /// added. The decision of the lowest byte that isn't known is blamed.
    ///
    /// # Errors
    ///
    /// Where no memory is left. Nodes may then be added.
    pub fn load(
        &self,
        p: &Program,
        nodes: &mut Nodes,
        start: u64,
        count: u8,
    ) -> Result<Held, AllocError>
        requires some { 1 ≤ count }
        requires count { count ≤ 8 }
        requires end { start + count ≤ PLACE_COUNT }
        requires names { AreSymbolicNodes (length nodes.old) self.now }
        ensures grew { Grew nodes.old nodes.new }
        ensures is { IfOk result (IsHeld (length nodes.new)) }
        ensures value { IfOk result (λ h. held_symbolic nodes.new h ≡ loaded (symbolics_of p.now nodes.old self.now) start count) }
    {
        let symbolic_nodes = self.symbolic_nodes(start, count);
        if let Some(by) = first_unknown(&symbolic_nodes, count) {
            return Ok(Held::Unknown(by));
        }
        Ok(Held::Known(number_node(p, nodes, start, &symbolic_nodes, count)?))
    }
}
