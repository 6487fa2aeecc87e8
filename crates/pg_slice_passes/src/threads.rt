//! The calls of the threads along a run, and where the open extents of each end.

ghost use Rattle.std.specs.Prelude.{◌≡◌, ◌<◌, [], ◌∷◌, ℕ, List, Bool, Option, IfOk, IfSome, IsTrue, OnOk, length, slice_index, slice_index_or};
ghost use Rattle.pg_ir.specs.declared.instr.Op.TheVariants.{Load};
ghost use Rattle.pg_ir.specs.declared.value.Value.{Value};
ghost use Rattle.pg_ir.specs.Program.{NumberedProgram};
ghost use Rattle.pg_num.specs.declared.width.Width.{Width};
ghost use Rattle.pg_precondition.specs.Nodes.{NodeList};
ghost use Rattle.pg_run_trace.specs.declared.step.Access.{Access};
ghost use Rattle.pg_run_trace.specs.declared.turn.TurnKind.TheVariants.{Create};
ghost use Rattle.pg_slice_rules.specs.Extents.{open_after};
ghost use Rattle.pg_slice_rules.specs.Freeable.{FreeRegion};
ghost use Rattle.pg_slice_rules.specs.Known.{SymbolicThread, fresh_thread, function_in, load_of, no_thread, on_thread, threads_after, with_extents, with_top};
ghost use Rattle.pg_slice_rules.specs.Known as along;
ghost use Rattle.pg_slice_rules.specs.Moments.{Moment};
ghost use Rattle.pg_slice_rules.specs.SymbolicValues.{Symbolic};
ghost use Rattle.pg_slice_decisions.specs.declared.open.OpenExtents.{OpenExtents as AnOpen};
ghost use Rattle.pg_slice_decisions.specs.Open.{left_free};
ghost use Rattle.pg_slice_values.specs.Forms.{CastFits};
ghost use Rattle.pg_slice_values.specs.SymbolicNodes.{Grew, IsSymbolicNode, symbolic_by};
ghost use Rattle.pg_slice_registers.specs.Events.{HasOperands};
ghost use Rattle.pg_slice_registers.specs.SymbolicRegisterNodes.{top_symbolic_nodes};
ghost use Rattle.pg_slice_registers.specs.Steps.{IsStepAt, is_plain};
ghost use Rattle.pg_slice_registers.specs.Threads.{AreThreads};
ghost use Rattle.pg_slice_passes.specs.State.{EachOpen, KnowsThreads, extents_in};

use crate::step::{EventAt, StepAt};
use pg_ir::{Instr, Program};
use pg_precondition::Nodes;
use pg_run_trace::{Event, TurnKind};
use pg_slice_decisions::OpenExtents;
use pg_slice_registers::{OpStep, SymbolicRegisters, after_create};
use pg_slice_values::SymbolicNode;
use std::alloc::{AllocError, Global};

/// The main thread before the first step.
pub(crate) fn first_threads(
    alloc: Global,
    nodes: &mut Nodes,
    p: &Program,
) -> Result<Vec<SymbolicRegisters>, AllocError>
    ensures grew { Grew nodes.old nodes.new }
    ensures is { IfOk result (λ v. AreThreads (length nodes.new) v.items) }
    ensures knows { IfOk result (λ v. (pinned : ℕ → Bool) (opens : List AnOpen) → EachOpen pinned ([] ∷ []) opens
        → KnowsThreads nodes.new pinned v.items opens (fresh_thread p.now p.now.main ∷ [])) }
{
    let main = SymbolicRegisters::new(alloc, nodes, p, p.main())?;
    let mut threads = Vec::new(alloc);
    threads.push(main)?;
    Ok(threads)
}

/// The main thread stands in no extent before the first step.
pub(crate) fn first_extents(alloc: Global) -> Result<Vec<OpenExtents>, AllocError>
    ensures { IfOk result (λ v. (pinned : ℕ → Bool) → EachOpen pinned ([] ∷ []) v.items) }
{
    let mut extents = Vec::new(alloc);
    extents.push(OpenExtents::new(alloc))?;
    Ok(extents)
}

/// The registers of the present call of a thread; none where there is no such thread, or it has ended.
pub(crate) fn thread_registers(threads: &[SymbolicRegisters], t: usize) -> &[SymbolicNode]
    ensures { result.now ≡ top_symbolic_nodes (slice_index_or threads.now t []) }
{
    match threads.get(t) {
        Some(thread) => thread.registers(),
        None => &[],
    }
}

/// The calls of the threads after a live load or store of one of them, by what a load gives.
pub(crate) fn after_access(
    threads: &mut Vec<SymbolicRegisters>,
    t: usize,
    x: &Instr,
    loaded: SymbolicNode,
)
    ensures is { (n : ℕ) → AreThreads n threads.old.items → IsSymbolicNode n loaded → AreThreads n threads.new.items }
    ensures value { (ns : NodeList) (p : NumberedProgram) (exact : Bool) (n : ℕ) (a : Access) (bytes : ℕ → Symbolic) (pinned : ℕ → Bool) (opens : List AnOpen) (ks : List SymbolicThread)
        → ((w : Width) (from : Value) → x.now.op ≡ Load w from → symbolic_by ns loaded ≡ load_of exact n w a bytes)
        → AreThreads (length ns) threads.old.items → KnowsThreads ns pinned threads.old.items opens ks
        → KnowsThreads ns pinned threads.new.items opens (on_thread (with_top (along.after_access p exact n a bytes x.now x.now.op)) t ks) }
{
    if t < threads.len() {
        let thread = &mut threads[t];
        thread.after_access(x, loaded);
    }
}

/// The calls of the threads after an event of one of them.
pub(crate) fn after_event(
    nodes: &mut Nodes,
    s: &StepAt,
    t: usize,
    at: EventAt,
    threads: &mut Vec<SymbolicRegisters>,
) -> Result<(), AllocError>
    requires call { HasOperands at.event.kind s.now.x.now.op }
    requires argument { IsSymbolicNode (length nodes.old) at.argument }
    requires symbolic_nodes { AreThreads (length nodes.old) threads.old.items }
    ensures grew { Grew nodes.old nodes.new }
    ensures is { OnOk result (AreThreads (length nodes.new) threads.new.items) }
    ensures value { (m : Moment) (pinned : ℕ → Bool) (opens : List AnOpen) (ks : List SymbolicThread) → function_in m.calls ≡ at.function
        → KnowsThreads nodes.old pinned threads.old.items opens ks
        → OnOk result (KnowsThreads nodes.new pinned threads.new.items opens
        (on_thread (along.after_event s.now.p.now m at.event at.event.kind (symbolic_by nodes.old at.argument) s.now.x.now) t ks)) }
{
    if t < threads.len() {
        let thread = &mut threads[t];
        thread.after_event(nodes, s.p, s.x, at.event, at.function, at.argument)
    } else {
        Ok(())
    }
}

/// The calls of the threads after a live step of one of them that is neither an access nor an event, by what the run has at it.
pub(crate) fn after_op(
    nodes: &mut Nodes,
    s: &StepAt,
    t: usize,
    step: OpStep,
    sets: &[bool],
    threads: &mut Vec<SymbolicRegisters>,
) -> Result<(), AllocError>
    requires plain { IsTrue (is_plain s.now.x.now.op) }
    requires cast { CastFits s.now.x.now.op }
    requires block { IfSome step.edge (λ b. b < length s.now.p.now.blocks) }
    requires symbolic_nodes { AreThreads (length nodes.old) threads.old.items }
    ensures grew { Grew nodes.old nodes.new }
    ensures is { OnOk result (AreThreads (length nodes.new) threads.new.items) }
    ensures value { (m : Moment) (region : Option FreeRegion) (pinned : ℕ → Bool) (opens : List AnOpen) (ks : List SymbolicThread) → IsStepAt s.now.p.now s.now.x.now step sets.now m region
        → KnowsThreads nodes.old pinned threads.old.items opens ks
        → OnOk result (KnowsThreads nodes.new pinned threads.new.items opens (on_thread (along.after_op s.now.p.now step.pinned step.number m region step.word s.now.x.now s.now.x.now.op) t ks)) }
{
    if t < threads.len() {
        let thread = &mut threads[t];
        thread.after_op(s.alloc, nodes, s.p, s.x, step, sets)
    } else {
        Ok(())
    }
}

/// The threads after an event: a create makes one more, in no extent.
pub(crate) fn with_created(
    alloc: Global,
    nodes: &mut Nodes,
    p: &Program,
    e: Event,
    threads: &mut Vec<SymbolicRegisters>,
    extents: &mut Vec<OpenExtents>,
) -> Result<(), AllocError>
    requires create { e.kind ≡ Create → slice_index e.operands 2 < length p.now.functions }
    requires symbolic_nodes { AreThreads (length nodes.old) threads.old.items }
    ensures grew { Grew nodes.old nodes.new }
    ensures is { OnOk result (AreThreads (length nodes.new) threads.new.items) }
    ensures value { (pinned : ℕ → Bool) (ks : List SymbolicThread) → KnowsThreads nodes.old pinned threads.old.items extents.old.items ks
        → OnOk result (KnowsThreads nodes.new pinned threads.new.items extents.new.items (threads_after p.now e e.kind ks)) }
{
    if let TurnKind::Create = e.kind {
        after_create(alloc, nodes, p, e, threads)?;
        extents.push(OpenExtents::new(alloc))?;
        Ok(())
    } else {
        Ok(())
    }
}

/// The extents that a step of a thread leaves open, where its calls are so deep: `free` is the join of its region where it is
/// freeable and isn't pinned.
pub(crate) fn pass_extents(
    alloc: Global,
    t: usize,
    depth: u32,
    free: Option<u32>,
    edge: Option<u32>,
    extents: &mut Vec<OpenExtents>,
) -> Result<(), AllocError>
    ensures { OnOk result ((pinned : ℕ → Bool) (n : ℕ) (region : Option FreeRegion) (ks : List SymbolicThread) → free ≡ left_free (pinned n) region
        → EachOpen pinned (extents_in ks) extents.old.items
        → EachOpen pinned (extents_in (with_extents t (open_after n depth region edge (slice_index_or ks t no_thread).extents) ks)) extents.new.items) }
{
    if t < extents.len() {
        let open = &mut extents[t];
        open.pass(alloc, depth, free, edge)
    } else {
        Ok(())
    }
}
