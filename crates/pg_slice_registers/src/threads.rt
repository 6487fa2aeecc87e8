//! What is known of the registers of all threads.

ghost use Rattle.std.specs.Prelude.{◌≡◌, ◌<◌, ◌++◌, ◌∷◌, [], List, length, slice_index, IfOk, OnOk, OnErr};
ghost use Rattle.pg_run_trace.specs.declared.turn.TurnKind.TheVariants.{Create};
ghost use Rattle.pg_slice_rules.specs.Extents.{Extent};
ghost use Rattle.pg_slice_rules.specs.Known as along;
ghost use Rattle.pg_slice_values.specs.SymbolicNodes.{Grew};
ghost use Rattle.pg_slice_registers.specs.Threads.{AreThreads, threads_by};

use crate::thread::SymbolicRegisters;
use pg_ir::Program;
use pg_precondition::Nodes;
use pg_run_trace::{Event, TurnKind};
use std::alloc::{AllocError, Global};

/// Adds a thread that will begin with a function.
fn push_thread(
    alloc: Global,
    nodes: &mut Nodes,
    p: &Program,
    f: u32,
    threads: &mut Vec<SymbolicRegisters>,
) -> Result<(), AllocError>
    requires symbolic_nodes { AreThreads (length nodes.old) threads.old.items }
    ensures grew { Grew nodes.old nodes.new }
    ensures is { OnOk result (AreThreads (length nodes.new) threads.new.items) }
    ensures same { OnErr result (threads.new.items ≡ threads.old.items) }
    ensures value { (extents : List (List Extent)) → length extents ≡ length threads.old.items
        → OnOk result (threads_by nodes.new threads.new.items (extents ++ [] ∷ []) ≡ threads_by nodes.old threads.old.items extents ++ along.fresh_thread p.now f ∷ []) }
{
    let thread = SymbolicRegisters::new(alloc, nodes, p, f)?;
    threads.push(thread)?;
    Ok(())
}

/// The threads after a create, which makes one more, in no extent.
///
/// # Errors
///
/// Where no memory is left. Nodes may have been added; the threads are as before.
pub fn after_create(
    alloc: Global,
    nodes: &mut Nodes,
    p: &Program,
    e: Event,
    threads: &mut Vec<SymbolicRegisters>,
) -> Result<(), AllocError>
    requires kind { e.kind ≡ Create }
    requires function { slice_index e.operands 2 < length p.now.functions }
    requires symbolic_nodes { AreThreads (length nodes.old) threads.old.items }
    ensures grew { Grew nodes.old nodes.new }
    ensures is { OnOk result (AreThreads (length nodes.new) threads.new.items) }
    ensures same { OnErr result (threads.new.items ≡ threads.old.items) }
    ensures value { (extents : List (List Extent)) → length extents ≡ length threads.old.items
        → OnOk result (threads_by nodes.new threads.new.items (extents ++ [] ∷ []) ≡ along.threads_after p.now e e.kind (threads_by nodes.old threads.old.items extents)) }
{
    p.facts();
    push_thread(alloc, nodes, p, e.operands[2] as u32, threads)
}
