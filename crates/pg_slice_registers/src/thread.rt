//! What is known of the registers of a thread.

use crate::call::Registers;
use crate::entered::{entered, fresh};
use pg_ir::{BlockNo, Program, Value};
use pg_precondition::Nodes;
use pg_slice_rules::Decision;
use pg_slice_values::SymbolicNode;
use std::alloc::{AllocError, Global};
use std::marker::Model;
use std::mem;

/// What is known of the registers of a thread's calls, the present one first.
#[derive(Debug, Drop)]
pub struct SymbolicRegisters {
    present: Registers,
    callers: Vec<Registers>,
    ended: bool,
}

impl Model for SymbolicRegisters {
    ghost use Rattle.pg_slice_registers.specs.SymbolicRegisterNodes.{CallList, calls_of};

    ghost Value = { CallList };

    ghost view = { λ s. calls_of s.present s.callers.items s.ended };
}

impl SymbolicRegisters {
    ghost use Rattle.std.specs.Prelude.{◌≡◌, ◌<◌, ◌∷◌, [], ℕ, length, map, IfOk, IfSome, OnOk, OnErr};
    ghost use Rattle.pg_precondition.specs.Nodes.{NodeList};
    ghost use Rattle.pg_slice_rules.specs.SymbolicValues.{symbolic_of};
    ghost use Rattle.pg_slice_rules.specs.Known.{forgotten_from, fresh_registers, set_symbolic, top_of, under_top, with_top};
    ghost use Rattle.pg_slice_rules.specs.Known as known;
    ghost use Rattle.pg_slice_values.specs.SymbolicNodes.{Grew, IsSymbolicNode, symbolic_by};
    ghost use Rattle.pg_slice_registers.specs.SymbolicRegisterNodes.{AreCalls, calls_by, marked, top_symbolic_nodes, under_symbolic_nodes};

    /// A thread that will begin with a function, none of whose registers was set.
    ///
    /// # Errors
    ///
    /// Where no memory is left. Nodes may have been added.
    pub fn new(
        alloc: Global,
        nodes: &mut Nodes,
        p: &Program,
        f: u32,
    ) -> Result<SymbolicRegisters, AllocError>
        ensures grew { Grew nodes.old nodes.new }
        ensures is { IfOk result (AreCalls (length nodes.new)) }
        ensures value { IfOk result (λ t. calls_by nodes.new t ≡ fresh_registers p.now f ∷ []) }
    {
        let registers = fresh(alloc, nodes, p, f)?;
        Ok(SymbolicRegisters {
            present: Registers::from_vec(registers),
            callers: Vec::new(alloc),
            ended: false,
        })
    }

    /// The registers of the present call; none where the thread has ended.
    pub fn registers(&self) -> &[SymbolicNode]
        ensures { result.now ≡ top_symbolic_nodes self.now }
    {
        if self.ended {
            &[]
        } else {
            self.present.as_slice()
        }
    }

    /// Sets a register of the present call, if there is one to set.
    pub(crate) fn set(&mut self, target: Option<u32>, s: SymbolicNode)
        ensures value { (ns : NodeList) → calls_by ns self.new ≡ with_top (set_symbolic target (symbolic_by ns s)) (calls_by ns self.old) }
        ensures is { (n : ℕ) → AreCalls n self.old → IsSymbolicNode n s → AreCalls n self.new }
    {
        self.present.set(target, s);
    }

    /// Forgets the registers of the present call that a table marks; the decision is blamed.
    pub(crate) fn forget(&mut self, sets: &[bool], by: Decision)
        ensures value { (ns : NodeList) → calls_by ns self.new ≡ with_top (forgotten_from 0 (marked sets.now) by) (calls_by ns self.old) }
        ensures is { (n : ℕ) → AreCalls n self.old → AreCalls n self.new }
    {
        self.present.forget(sets, by);
    }

    /// Takes an edge in the present call, if one is taken.
    #[tactic(auto, using(pg_slice_values::proofs::GrowingNodes::grew_none, crate::proofs::ThreadCalls::ended_same, crate::proofs::ThreadCalls::ended_are))]
    pub(crate) fn along_edge(
        &mut self,
        alloc: Global,
        nodes: &mut Nodes,
        p: &Program,
        from: BlockNo,
        edge: Option<u32>,
    ) -> Result<(), AllocError>
        requires block { IfSome edge (λ b. b < length p.now.blocks) }
        requires symbolic_nodes { AreCalls (length nodes.old) self.old }
        ensures grew { Grew nodes.old nodes.new }
        ensures is { OnOk result (AreCalls (length nodes.new) self.new) }
        ensures same { OnErr result (self.new ≡ self.old) }
        ensures value { OnOk result (calls_by nodes.new self.new ≡ with_top (known.along_edge p.now from.0 edge) (calls_by nodes.old self.old)) }
    {
        if self.ended {
            Ok(())
        } else {
            self.present.along_edge(alloc, nodes, p, from, edge)
        }
    }

    /// Begins a call with these registers, the thread's first where it has none.
    fn push(&mut self, registers: Vec<SymbolicNode>) -> Result<(), AllocError>
        ensures pushed { OnOk result (self.new ≡ registers.items ∷ self.old) }
        ensures same { OnErr result (self.new ≡ self.old) }
    {
        if self.ended {
            self.callers.clear();
            self.present = Registers::from_vec(registers);
            self.ended = false;
            return Ok(());
        }
        self.callers.reserve(1)?;
        let caller = mem::replace(&mut self.present, Registers::from_vec(registers));
        self.callers.push_reserved(caller);
        Ok(())
    }

    /// Begins a call of a function, the thread's first where it has none.
    pub(crate) fn enter(
        &mut self,
        alloc: Global,
        nodes: &mut Nodes,
        p: &Program,
        g: u32,
        args: &[Value],
    ) -> Result<(), AllocError>
        requires symbolic_nodes { AreCalls (length nodes.old) self.old }
        ensures grew { Grew nodes.old nodes.new }
        ensures is { OnOk result (AreCalls (length nodes.new) self.new) }
        ensures same { OnErr result (self.new ≡ self.old) }
        ensures value { OnOk result (calls_by nodes.new self.new ≡ known.entered p.now g (map (symbolic_of p.now (top_of (calls_by nodes.old self.old))) args.now) ∷ calls_by nodes.old self.old) }
    {
        let registers = entered(alloc, nodes, p, g, args, self.registers())?;
        self.push(registers)
    }

    /// Ends the present call.
    fn pop(&mut self)
        ensures { self.new ≡ under_symbolic_nodes self.old }
    {
        match self.callers.pop() {
            Some(caller) => self.present = caller,
            None => self.ended = true,
        }
    }

    /// Ends the present call, and sets a register of its caller, if there is one to set.
    pub(crate) fn leave(&mut self, target: Option<u32>, s: SymbolicNode)
        ensures value { (ns : NodeList) → calls_by ns self.new ≡ with_top (set_symbolic target (symbolic_by ns s)) (under_top (calls_by ns self.old)) }
        ensures is { (n : ℕ) → AreCalls n self.old → IsSymbolicNode n s → AreCalls n self.new }
    {
        self.pop();
        self.set(target, s);
    }

    /// Ends the thread.
    pub(crate) fn end(&mut self)
        ensures { self.new ≡ [] }
    {
        self.ended = true;
    }
}
