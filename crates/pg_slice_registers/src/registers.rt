//! Symbolic values at numbers.

ghost use Rattle.std.specs.Prelude.{◌≡◌, ℕ, length, slice_index_or, slice_set, cond};
ghost use Rattle.pg_precondition.specs.Nodes.{NodeList};
ghost use Rattle.pg_slice_rules.specs.Known.{forgotten_from, set_symbolic};
ghost use Rattle.pg_slice_rules.specs.Known as along;
ghost use Rattle.pg_slice_values.specs.declared.symbolic_node.SymbolicNode.TheVariants.{Unknown};
ghost use Rattle.pg_slice_values.specs.SymbolicNodes.{IsSymbolicNode, symbolic_by};
ghost use Rattle.pg_slice_registers.specs.SymbolicRegisterNodes.{AreSymbolicNodes, marked, registers_by};

use pg_ir::Instr;
use pg_slice_rules::Decision;
use pg_slice_values::SymbolicNode;

/// Puts a symbolic value in its place; past the end there is none.
#[tactic(auto, using(crate::proofs::SetRegisters::set_past))]
fn put(registers: &mut [SymbolicNode], r: usize, s: SymbolicNode)
    ensures { registers.new ≡ slice_set registers.old r s }
{
    if r < registers.len() {
        registers[r] = s;
    }
}

/// Sets a register, if there is one to set.
#[tactic(auto, using(crate::proofs::SetRegisters::set_by, crate::proofs::SetRegisters::set_symbolic_nodes))]
pub(crate) fn set(registers: &mut [SymbolicNode], target: Option<u32>, s: SymbolicNode)
    ensures value { (ns : NodeList) → registers_by ns registers.new ≡ set_symbolic target (symbolic_by ns s) (registers_by ns registers.old) }
    ensures is { (n : ℕ) → AreSymbolicNodes n registers.old → IsSymbolicNode n s → AreSymbolicNodes n registers.new }
{
    if let Some(r) = target {
        put(registers, r as usize, s);
    }
}

/// Whether a table marks a number.
fn is_marked(marks: &[bool], k: usize) -> bool
    ensures { result ≡ marked marks.now k }
{
    match marks.get(k) {
        Some(is_marked) => *is_marked,
        None => false,
    }
}

/// A symbolic value, or where a table marks its register, nothing but the decision that is blamed.
fn unless_marked(sets: &[bool], r: usize, by: Decision, s: SymbolicNode) -> SymbolicNode
    ensures { result ≡ cond (marked sets.now r) (Unknown by) s }
{
    if is_marked(sets, r) {
        SymbolicNode::Unknown(by)
    } else {
        s
    }
}

/// Forgets the registers that a table marks; the decision is blamed.
#[tactic(auto, using(crate::proofs::SetRegisters::forgotten_by, crate::proofs::SetRegisters::forgotten_symbolic_nodes))]
pub(crate) fn forget(registers: &mut [SymbolicNode], sets: &[bool], by: Decision)
    ensures value { (ns : NodeList) → registers_by ns registers.new ≡ forgotten_from 0 (marked sets.now) by (registers_by ns registers.old) }
    ensures is { (n : ℕ) → AreSymbolicNodes n registers.old → AreSymbolicNodes n registers.new }
{
    for i in 0..registers.len() {
        registers[i] = unless_marked(sets, i, by, registers[i]);
    }
}

/// Gives the `phi`s of a block these values.
pub(crate) fn set_phis(registers: &mut [SymbolicNode], phis: &[Instr], values: &[SymbolicNode])
    requires { length values.now ≡ length phis.now }
    ensures value { (ns : NodeList) → registers_by ns registers.new ≡ along.set_phis (registers_by ns registers.old) phis.now (registers_by ns values.now) }
    ensures is { (n : ℕ) → AreSymbolicNodes n registers.old → AreSymbolicNodes n values.now → AreSymbolicNodes n registers.new }
{
    for i in 0..phis.len() {
        set(registers, phis[i].result, values[i]);
    }
}
