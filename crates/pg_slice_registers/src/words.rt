//! What returns and exits hand on.

ghost use Rattle.std.specs.Prelude.{◌≡◌, length, slice_set, IfOk, OnOk, OnErr};
ghost use Rattle.pg_slice_rules.specs.Known.{exit_symbolic, returned_symbolic};
ghost use Rattle.pg_slice_rules.specs.Known as along;
ghost use Rattle.pg_slice_values.specs.SymbolicNodes.{Grew, IsSymbolicNode, symbolic_by};
ghost use Rattle.pg_slice_registers.specs.SymbolicRegisterNodes.{AreSymbolicNodes, registers_by};
ghost use Rattle.pg_slice_registers.specs.Events.{HasOperands, IsExit};

use crate::given::operand;
use pg_ir::{Op, Program, Value};
use pg_precondition::Nodes;
use pg_run_trace::TurnKind;
use pg_slice_values::{SymbolicNode, constant, value};
use std::alloc::AllocError;

/// The value that a return hands on, 0 where it has none.
fn returned(
    nodes: &mut Nodes,
    p: &Program,
    v: Option<Value>,
    registers: &[SymbolicNode],
) -> Result<SymbolicNode, AllocError>
    requires symbolic_nodes { AreSymbolicNodes (length nodes.old) registers.now }
    ensures grew { Grew nodes.old nodes.new }
    ensures is { IfOk result (IsSymbolicNode (length nodes.new)) }
    ensures value { IfOk result (λ s. symbolic_by nodes.new s ≡ returned_symbolic p.now (registers_by nodes.old registers.now) v) }
{
    match v {
        Some(v) => value(nodes, p, v, registers),
        None => constant(nodes, 0),
    }
}

/// What an exit hands on; the `pthread_exit` of main hands on 0.
fn exit_symbolic_node(
    nodes: &mut Nodes,
    p: &Program,
    thread: usize,
    op: &Op,
    registers: &[SymbolicNode],
) -> Result<SymbolicNode, AllocError>
    requires call { IsExit op.now }
    requires symbolic_nodes { AreSymbolicNodes (length nodes.old) registers.now }
    ensures grew { Grew nodes.old nodes.new }
    ensures is { IfOk result (IsSymbolicNode (length nodes.new)) }
    ensures value { IfOk result (λ s. symbolic_by nodes.new s ≡ exit_symbolic p.now thread (registers_by nodes.old registers.now) op.now) }
{
    match op {
        Op::Ret { value } => returned(nodes, p, *value, registers),
        Op::CallLibrary { .. } => {
            if thread == 0 {
                constant(nodes, 0)
            } else {
                operand(nodes, p, op, 0, registers)
            }
        }
        _ => unreachable!(),
    }
}

/// Puts a word in its place; past the end there is none.
#[tactic(auto, using(crate::proofs::SetRegisters::set_past))]
fn put_word(words: &mut Vec<SymbolicNode>, thread: usize, s: SymbolicNode)
    ensures { words.new.items ≡ slice_set words.old.items thread s }
{
    if thread < words.len() {
        words[thread] = s;
    }
}

/// The words of the threads after an event: a thread's argument until it ends, then its exit value.
///
/// # Errors
///
/// Where no memory is left. Nodes may have been added; the words are as before.
#[tactic(auto, using(pg_slice_values::proofs::GrowingNodes::grew_none))]
pub fn words_after(
    nodes: &mut Nodes,
    p: &Program,
    thread: usize,
    kind: TurnKind,
    op: &Op,
    registers: &[SymbolicNode],
    words: &mut Vec<SymbolicNode>,
) -> Result<(), AllocError>
    requires call { HasOperands kind op.now }
    requires registers { AreSymbolicNodes (length nodes.old) registers.now }
    requires words { AreSymbolicNodes (length nodes.old) words.old.items }
    ensures grew { Grew nodes.old nodes.new }
    ensures is { OnOk result (AreSymbolicNodes (length nodes.new) words.new.items) }
    ensures same { OnErr result (words.new.items ≡ words.old.items) }
    ensures value { OnOk result (registers_by nodes.new words.new.items
        ≡ along.words_after p.now thread kind (registers_by nodes.old registers.now) op.now (registers_by nodes.old words.old.items)) }
{
    match kind {
        TurnKind::Exit => {
            let s = exit_symbolic_node(nodes, p, thread, op, registers)?;
            put_word(words, thread, s);
            Ok(())
        }
        TurnKind::Create => {
            let s = operand(nodes, p, op, 3, registers)?;
            words.push(s)?;
            Ok(())
        }
        _ => Ok(()),
    }
}
