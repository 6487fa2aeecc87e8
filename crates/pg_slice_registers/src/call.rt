//! What is known of the registers of one call.

use crate::edges::along_edge;
use crate::registers::{forget, set};
use pg_ir::{BlockNo, Program};
use pg_precondition::Nodes;
use pg_slice_rules::Decision;
use pg_slice_values::SymbolicNode;
use std::alloc::{AllocError, Global};
use std::marker::Model;

/// The symbolic values of the registers of one call.
#[derive(Debug, Drop)]
pub(crate) struct Registers {
    items: Vec<SymbolicNode>,
}

impl Model for Registers {
    ghost use Rattle.pg_slice_values.specs.SymbolicNodes.{SymbolicNodeList};

    ghost Value = { SymbolicNodeList };

    ghost view = { λ s. s.items.items };
}

impl Registers {
    ghost use Rattle.std.specs.Prelude.{◌≡◌, ◌<◌, ℕ, length, IfSome, OnOk, OnErr};
    ghost use Rattle.pg_precondition.specs.Nodes.{NodeList};
    ghost use Rattle.pg_slice_rules.specs.Known.{forgotten_from, set_symbolic};
    ghost use Rattle.pg_slice_rules.specs.Known as known;
    ghost use Rattle.pg_slice_values.specs.SymbolicNodes.{Grew, IsSymbolicNode, symbolic_by};
    ghost use Rattle.pg_slice_registers.specs.SymbolicRegisterNodes.{AreSymbolicNodes, marked, registers_by};

    /// The registers with these symbolic values.
    pub(crate) fn from_vec(items: Vec<SymbolicNode>) -> Registers
        ensures { result ≡ items.items }
    {
        Registers { items }
    }

    /// The symbolic values, in order.
    pub(crate) fn as_slice(&self) -> &[SymbolicNode]
        ensures { result.now ≡ self.now }
    {
        self.items.as_slice()
    }

    /// Sets a register, if there is one to set.
    pub(crate) fn set(&mut self, target: Option<u32>, s: SymbolicNode)
        ensures value { (ns : NodeList) → registers_by ns self.new ≡ set_symbolic target (symbolic_by ns s) (registers_by ns self.old) }
        ensures is { (n : ℕ) → AreSymbolicNodes n self.old → IsSymbolicNode n s → AreSymbolicNodes n self.new }
    {
        set(&mut self.items, target, s);
    }

    /// Forgets the registers that a table marks; the decision is blamed.
    pub(crate) fn forget(&mut self, sets: &[bool], by: Decision)
        ensures value { (ns : NodeList) → registers_by ns self.new ≡ forgotten_from 0 (marked sets.now) by (registers_by ns self.old) }
        ensures is { (n : ℕ) → AreSymbolicNodes n self.old → AreSymbolicNodes n self.new }
    {
        forget(&mut self.items, sets, by);
    }

    /// The registers after an edge, if one is taken.
    pub(crate) fn along_edge(
        &mut self,
        alloc: Global,
        nodes: &mut Nodes,
        p: &Program,
        from: BlockNo,
        edge: Option<u32>,
    ) -> Result<(), AllocError>
        requires block { IfSome edge (λ b. b < length p.now.blocks) }
        requires symbolic_nodes { AreSymbolicNodes (length nodes.old) self.old }
        ensures grew { Grew nodes.old nodes.new }
        ensures is { OnOk result (AreSymbolicNodes (length nodes.new) self.new) }
        ensures same { OnErr result (self.new ≡ self.old) }
        ensures value { OnOk result (registers_by nodes.new self.new ≡ known.along_edge p.now from.0 edge (registers_by nodes.old self.old)) }
    {
        along_edge(alloc, nodes, p, from, edge, &mut self.items)
    }
}
