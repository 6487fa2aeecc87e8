//! What is known of operands.

ghost use Rattle.std.specs.Prelude.{◌≡◌, ℕ, List, ◌∷◌, ◌++◌, [], IsTrue, length, map, IfOk, OnOk};
ghost use Rattle.pg_ir.specs.declared.value.Index.{Index};
ghost use Rattle.pg_run_thread.specs.Compute.{computes};
ghost use Rattle.pg_run_thread.specs.Operands.{operands_of};
ghost use Rattle.pg_precondition.specs.Nodes.{NodeList};
ghost use Rattle.pg_slice_rules.specs.SymbolicValues.{Symbolic, result_of, symbolic_of};
ghost use Rattle.pg_slice_rules.specs.Known.{operand_symbolics, optional_symbolic};
ghost use Rattle.pg_slice_values.specs.SymbolicNodes.{Grew, IsSymbolicNode, symbolic_by};
ghost use Rattle.pg_slice_values.specs.Forms.{CastFits};
ghost use Rattle.pg_slice_registers.specs.SymbolicRegisterNodes.{AreSymbolicNodes, registers_by, result_by};

use pg_ir::{Index, Op, Program, Value};
use pg_precondition::Nodes;
use pg_slice_values::{SymbolicNode, operation, unset, value};
use std::alloc::{AllocError, Global};

/// An operand that there may be, by the registers of its frame; one that is missing was never set.
pub(crate) fn optional(
    nodes: &mut Nodes,
    p: &Program,
    v: Option<Value>,
    registers: &[SymbolicNode],
) -> Result<SymbolicNode, AllocError>
    requires { AreSymbolicNodes (length nodes.old) registers.now }
    ensures grew { Grew nodes.old nodes.new }
    ensures is { IfOk result (IsSymbolicNode (length nodes.new)) }
    ensures value { IfOk result (λ s. symbolic_by nodes.new s ≡ optional_symbolic p.now (registers_by nodes.old registers.now) v) }
{
    match v {
        Some(v) => value(nodes, p, v, registers),
        None => unset(nodes),
    }
}

/// Adds an operand that there may be to a list of symbolic values.
pub(crate) fn push_optional(
    nodes: &mut Nodes,
    p: &Program,
    v: Option<Value>,
    registers: &[SymbolicNode],
    symbolic_nodes: &mut Vec<SymbolicNode>,
) -> Result<(), AllocError>
    requires registers { AreSymbolicNodes (length nodes.old) registers.now }
    requires symbolic_nodes { AreSymbolicNodes (length nodes.old) symbolic_nodes.old.items }
    ensures grew { Grew nodes.old nodes.new }
    ensures is { OnOk result (AreSymbolicNodes (length nodes.new) symbolic_nodes.new.items) }
    ensures value { OnOk result (registers_by nodes.new symbolic_nodes.new.items ≡ registers_by nodes.old symbolic_nodes.old.items ++ optional_symbolic p.now (registers_by nodes.old registers.now) v ∷ []) }
{
    let s = optional(nodes, p, v, registers)?;
    symbolic_nodes.push(s)?;
    Ok(())
}

/// The operands of a list, by the registers of their frame.
pub(crate) fn values(
    alloc: Global,
    nodes: &mut Nodes,
    p: &Program,
    args: &[Value],
    registers: &[SymbolicNode],
) -> Result<Vec<SymbolicNode>, AllocError>
    requires symbolic_nodes { AreSymbolicNodes (length nodes.old) registers.now }
    ensures grew { Grew nodes.old nodes.new }
    ensures is { IfOk result (λ v. AreSymbolicNodes (length nodes.new) v.items) }
    ensures value { IfOk result (λ v. registers_by nodes.new v.items ≡ map (symbolic_of p.now (registers_by nodes.old registers.now)) args.now) }
{
    let mut symbolic_nodes = Vec::new(alloc);
    for arg in args {
        push_optional(nodes, p, Some(*arg), registers, &mut symbolic_nodes)?;
    }
    Ok(symbolic_nodes)
}

/// The operands of a `getelementptr`: its base, and its indices.
fn index_list(alloc: Global, base: Value, indices: &[Index]) -> Result<Vec<Value>, AllocError>
    ensures { IfOk result (λ v. v.items ≡ base ∷ map (λ (i : Index). i.value) indices.now) }
{
    let mut list = Vec::new(alloc);
    list.push(base)?;
    for index in indices {
        list.push(index.value)?;
    }
    Ok(list)
}

/// The operands of an operation that only computes.
fn operand_list(alloc: Global, op: &Op) -> Result<Vec<Value>, AllocError>
    requires { IsTrue (computes op.now) }
    ensures { IfOk result (λ v. v.items ≡ operands_of op.now) }
{
    match op {
        Op::Add { left, right, .. }
        | Op::Sub { left, right, .. }
        | Op::Mul { left, right, .. }
        | Op::Divide { left, right, .. }
        | Op::Shift { left, right, .. }
        | Op::Bits { left, right, .. }
        | Op::Compare { left, right, .. } => Vec::from_slice(alloc, &[*left, *right]),
        Op::Trunc { of, .. }
        | Op::Zext { of, .. }
        | Op::Sext { of, .. }
        | Op::PtrToInt { of, .. }
        | Op::IntToPtr { of, .. } => Vec::from_slice(alloc, &[*of]),
        Op::Select { cond, yes, no } => Vec::from_slice(alloc, &[*cond, *yes, *no]),
        Op::Gep { base, indices } => index_list(alloc, *base, indices.as_slice()),
        _ => unreachable!(),
    }
}

/// The operands of an operation that only computes, by the registers of their frame.
fn operands(
    alloc: Global,
    nodes: &mut Nodes,
    p: &Program,
    op: &Op,
    registers: &[SymbolicNode],
) -> Result<Vec<SymbolicNode>, AllocError>
    requires computes { IsTrue (computes op.now) }
    requires symbolic_nodes { AreSymbolicNodes (length nodes.old) registers.now }
    ensures grew { Grew nodes.old nodes.new }
    ensures is { IfOk result (λ v. AreSymbolicNodes (length nodes.new) v.items) }
    ensures value { IfOk result (λ v. registers_by nodes.new v.items ≡ operand_symbolics p.now (registers_by nodes.old registers.now) op.now) }
{
    let list = operand_list(alloc, op)?;
    values(alloc, nodes, p, list.as_slice(), registers)
}

/// A result, which has the bounds of its base where it is a moved pointer.
fn with_bounds(op: &Op, operands: &[SymbolicNode], s: SymbolicNode) -> SymbolicNode
    ensures value { (ns : NodeList) (ss : List Symbolic) → symbolic_by ns s ≡ result_of op.now ss
        → registers_by ns operands.now ≡ ss → length operands.now ≡ length (operands_of op.now) → symbolic_by ns result ≡ result_by op.now ss }
    ensures is { (n : ℕ) → AreSymbolicNodes n operands.now → IsSymbolicNode n s → IsSymbolicNode n result }
{
    match op {
        Op::Gep { .. } => match operands.first() {
            Some(base) => s.moved(*base),
            None => s,
        },
        _ => s,
    }
}

/// The result of an operation that only computes, by its operands.
fn result(nodes: &mut Nodes, op: &Op, operands: &[SymbolicNode]) -> Result<SymbolicNode, AllocError>
    requires computes { IsTrue (computes op.now) }
    requires cast { CastFits op.now }
    requires count { length operands.now ≡ length (operands_of op.now) }
    requires symbolic_nodes { AreSymbolicNodes (length nodes.old) operands.now }
    ensures grew { Grew nodes.old nodes.new }
    ensures is { IfOk result (IsSymbolicNode (length nodes.new)) }
    ensures value { IfOk result (λ s. symbolic_by nodes.new s ≡ result_by op.now (registers_by nodes.old operands.now)) }
{
    let s = operation(nodes, op, operands)?;
    Ok(with_bounds(op, operands, s))
}

/// The result of an operation that only computes, by the registers of its frame.
pub(crate) fn computed(
    alloc: Global,
    nodes: &mut Nodes,
    p: &Program,
    op: &Op,
    registers: &[SymbolicNode],
) -> Result<SymbolicNode, AllocError>
    requires computes { IsTrue (computes op.now) }
    requires cast { CastFits op.now }
    requires symbolic_nodes { AreSymbolicNodes (length nodes.old) registers.now }
    ensures grew { Grew nodes.old nodes.new }
    ensures is { IfOk result (IsSymbolicNode (length nodes.new)) }
    ensures value { IfOk result (λ s. symbolic_by nodes.new s ≡ result_by op.now (operand_symbolics p.now (registers_by nodes.old registers.now) op.now)) }
{
    let operands = operands(alloc, nodes, p, op, registers)?;
    result(nodes, op, operands.as_slice())
}
