//! Arguments and operands by a frame's registers.

ghost use Rattle.std.specs.Prelude.{◌≡◌, length, map, slice_index_or, IsTrue, IfOk, IfSome};
ghost use Rattle.std.specs.Option.{option_map};
ghost use Rattle.pg_slice_rules.specs.Known as along;
ghost use Rattle.pg_slice_rules.specs.Known.{operand_at};
ghost use Rattle.pg_slice_rules.specs.SymbolicValues.{symbolic_of, unset};
ghost use Rattle.pg_slice_values.specs.SymbolicNodes.{Grew, IsSymbolicNode, symbolic_by};
ghost use Rattle.pg_slice_values.specs.Forms.{CastFits};
ghost use Rattle.pg_slice_registers.specs.SymbolicRegisterNodes.{AreSymbolicNodes, registers_by};
ghost use Rattle.pg_slice_registers.specs.Events.{IsAsked, IsLibraryCall};
ghost use Rattle.pg_slice_registers.specs.Steps.{given_symbolic, is_straight, known_symbolic};

use crate::operands::{computed, optional};
use pg_ir::{LibraryCall, Op, Program, Value};
use pg_precondition::Nodes;
use pg_slice_values::{SymbolicNode, constant, from_input, input_length, low_byte, value};
use std::alloc::{AllocError, Global};

/// An argument of a call, by the registers of its frame; where there is none, one that was never set.
#[tactic(auto, using(crate::proofs::DefinedSteps::argument_is))]
fn argument(
    nodes: &mut Nodes,
    p: &Program,
    args: &[Value],
    k: usize,
    registers: &[SymbolicNode],
) -> Result<SymbolicNode, AllocError>
    requires symbolic_nodes { AreSymbolicNodes (length nodes.old) registers.now }
    ensures grew { Grew nodes.old nodes.new }
    ensures is { IfOk result (IsSymbolicNode (length nodes.new)) }
    ensures value { IfOk result (λ s. symbolic_by nodes.new s ≡ slice_index_or (map (symbolic_of p.now (registers_by nodes.old registers.now)) args.now) k unset) }
{
    optional(nodes, p, args.get(k).copied(), registers)
}

/// An operand that decisions and conditions ask for, by the registers of its frame; where there is none, one that was never
/// set.
///
/// # Errors
///
/// Where no memory is left for its node.
pub fn operand(
    nodes: &mut Nodes,
    p: &Program,
    op: &Op,
    k: usize,
    registers: &[SymbolicNode],
) -> Result<SymbolicNode, AllocError>
    requires asked { IsAsked op.now k }
    requires symbolic_nodes { AreSymbolicNodes (length nodes.old) registers.now }
    ensures grew { Grew nodes.old nodes.new }
    ensures is { IfOk result (IsSymbolicNode (length nodes.new)) }
    ensures value { IfOk result (λ s. symbolic_by nodes.new s ≡ operand_at p.now (registers_by nodes.old registers.now) op.now k) }
{
    match op {
        Op::CondBr { cond, .. } => argument(nodes, p, &[*cond], k, registers),
        Op::Switch { on, .. } => value(nodes, p, *on, registers),
        Op::Load { from, .. } => argument(nodes, p, &[*from], k, registers),
        Op::Store { value, at, .. } => argument(nodes, p, &[*value, *at], k, registers),
        Op::CallLibrary { args, .. } => argument(nodes, p, args.as_slice(), k, registers),
        _ => unreachable!(),
    }
}

/// The number that is printed.
#[tactic(auto, using(pg_slice_values::proofs::GrowingNodes::grew_then, crate::proofs::DefinedSteps::call_asked))]
pub(crate) fn printed(
    nodes: &mut Nodes,
    p: &Program,
    op: &Op,
    registers: &[SymbolicNode],
) -> Result<SymbolicNode, AllocError>
    requires call { IsLibraryCall op.now }
    requires symbolic_nodes { AreSymbolicNodes (length nodes.old) registers.now }
    ensures grew { Grew nodes.old nodes.new }
    ensures is { IfOk result (IsSymbolicNode (length nodes.new)) }
    ensures value { IfOk result (λ s. symbolic_by nodes.new s ≡ along.low_byte (operand_at p.now (registers_by nodes.old registers.now) op.now 0)) }
{
    let s = operand(nodes, p, op, 0, registers)?;
    low_byte(nodes, s)
}

/// The number that is read from the input.
#[tactic(auto, using(pg_slice_values::proofs::GrowingNodes::grew_then))]
fn read_input(
    nodes: &mut Nodes,
    p: &Program,
    args: &[Value],
    registers: &[SymbolicNode],
) -> Result<SymbolicNode, AllocError>
    requires symbolic_nodes { AreSymbolicNodes (length nodes.old) registers.now }
    ensures grew { Grew nodes.old nodes.new }
    ensures is { IfOk result (IsSymbolicNode (length nodes.new)) }
    ensures value { IfOk result (λ s. symbolic_by nodes.new s ≡ along.from_input (slice_index_or (map (symbolic_of p.now (registers_by nodes.old registers.now)) args.now) 0 unset)) }
{
    let index = argument(nodes, p, args, 0, registers)?;
    from_input(nodes, index)
}

/// What the call of a known function gives its register.
#[tactic(auto, using(pg_slice_values::proofs::GrowingNodes::grew_none))]
fn known_given(
    nodes: &mut Nodes,
    p: &Program,
    function: LibraryCall,
    args: &[Value],
    word: u64,
    registers: &[SymbolicNode],
) -> Result<Option<SymbolicNode>, AllocError>
    requires symbolic_nodes { AreSymbolicNodes (length nodes.old) registers.now }
    ensures grew { Grew nodes.old nodes.new }
    ensures is { IfOk result (λ o. IfSome o (IsSymbolicNode (length nodes.new))) }
    ensures value { IfOk result (λ o. option_map (symbolic_by nodes.new) o
        ≡ known_symbolic function word (slice_index_or (map (symbolic_of p.now (registers_by nodes.old registers.now)) args.now) 0 unset)) }
{
    match function {
        LibraryCall::PgIn => Ok(Some(read_input(nodes, p, args, registers)?)),
        LibraryCall::PgInLen => Ok(Some(input_length(nodes)?)),
        LibraryCall::Malloc => Ok(Some(constant(nodes, word)?)),
        _ => Ok(None),
    }
}

/// What an instruction gives its register that does nothing else.
pub(crate) fn given(
    alloc: Global,
    nodes: &mut Nodes,
    p: &Program,
    op: &Op,
    word: u64,
    registers: &[SymbolicNode],
) -> Result<Option<SymbolicNode>, AllocError>
    requires straight { IsTrue (is_straight op.now) }
    requires cast { CastFits op.now }
    requires symbolic_nodes { AreSymbolicNodes (length nodes.old) registers.now }
    ensures grew { Grew nodes.old nodes.new }
    ensures is { IfOk result (λ o. IfSome o (IsSymbolicNode (length nodes.new))) }
    ensures value { IfOk result (λ o. option_map (symbolic_by nodes.new) o ≡ given_symbolic p.now word op.now (registers_by nodes.old registers.now)) }
{
    match op {
        Op::Alloca { .. } => Ok(Some(constant(nodes, word)?)),
        Op::CallLibrary { function, args } => known_given(
            nodes,
            p,
            *function,
            args.as_slice(),
            word,
            registers,
        ),
        _ => Ok(Some(computed(alloc, nodes, p, op, registers)?)),
    }
}
