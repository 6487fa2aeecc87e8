//! Memory and the threads' words along a run.

ghost use Rattle.std.specs.Prelude.{◌≡◌, ◌∷◌, [], ◌≤◌, ◌+◌, ◌&&◌, ◌||◌, not, ℕ, drop, length, slice_index_or, IfOk, IfSome, OnOk, is_some, if◌then◌else◌};
ghost use Rattle.pg_ir.specs.declared.instr.Op.TheVariants.{Store};
ghost use Rattle.pg_ir.specs.declared.value.Value.{Value as AValue};
ghost use Rattle.pg_ir.specs.Program.{NumberedProgram};
ghost use Rattle.pg_num.specs.declared.width.Width.{Width as AWidth};
ghost use Rattle.pg_precondition.specs.Nodes.{NodeList};
ghost use Rattle.pg_slice_rules.specs.declared.decision.Decision.TheVariants.{Pinned};
ghost use Rattle.pg_slice_rules.specs.Freeable.{bounds_of};
ghost use Rattle.pg_slice_rules.specs.Known.{bytes_by, bytes_freed, bytes_stored, forgotten_bytes, load_of, written_symbolic};
ghost use Rattle.pg_slice_rules.specs.SymbolicValues as symbolics;
ghost use Rattle.pg_slice_replay.specs.Kept.{landmark_at};
ghost use Rattle.pg_slice_values.specs.SymbolicNodes.{Grew, IsSymbolicNode, symbolic_by};
ghost use Rattle.pg_slice_checks.specs.pg_slice_memory.Changes as bytes;
ghost use Rattle.pg_slice_registers.specs.SymbolicRegisterNodes.{AreSymbolicNodes, registers_by};

use crate::byte_bounds::{bounds, held, loaded};
use crate::step::AccessAt;
use pg_ir::{Program, Value};
use pg_num::Width;
use pg_precondition::Nodes;
use pg_run_trace::{Event, TurnKind, Write};
use pg_slice_checks::pg_slice_memory::{SymbolicMemory, place_of};
use pg_slice_registers::OpStep;
use pg_slice_replay::{FreeAccess, ReferenceRun};
use pg_slice_rules::Decision;
use pg_slice_values::{SymbolicNode, constant, unset, value, within};
use std::alloc::{AllocError, Global};

/// The word of the main thread before the first step.
pub(crate) fn first_words(alloc: Global, nodes: &mut Nodes) -> Result<Vec<SymbolicNode>, AllocError>
    ensures grew { Grew nodes.old nodes.new }
    ensures is { IfOk result (λ v. AreSymbolicNodes (length nodes.new) v.items) }
    ensures value { IfOk result (λ v. registers_by nodes.new v.items ≡ symbolics.always 0 ∷ []) }
{
    let zero = constant(nodes, 0)?;
    let mut words = Vec::new(alloc);
    words.push(zero)?;
    Ok(words)
}

/// The word of a thread; one that isn't there was never set.
pub(crate) fn word_of(
    nodes: &mut Nodes,
    words: &[SymbolicNode],
    t: usize,
) -> Result<SymbolicNode, AllocError>
    requires { AreSymbolicNodes (length nodes.old) words.now }
    ensures grew { Grew nodes.old nodes.new }
    ensures is { IfOk result (IsSymbolicNode (length nodes.new)) }
    ensures value { IfOk result (λ s. symbolic_by nodes.new s ≡ slice_index_or (registers_by nodes.old words.now) t symbolics.unset) }
{
    match words.get(t).copied() {
        Some(s) => Ok(s),
        None => unset(nodes),
    }
}

/// What a live load gives: an unknown number where it isn't exact.
pub(crate) fn load(
    nodes: &mut Nodes,
    p: &Program,
    memory: &SymbolicMemory,
    width: Width,
    at: AccessAt,
) -> Result<SymbolicNode, AllocError>
    requires some { 1 ≤ at.access.bytes }
    requires count { at.access.bytes ≤ 8 }
    requires names { bytes.AreSymbolicNodes (length nodes.old) memory.now }
    ensures grew { Grew nodes.old nodes.new }
    ensures is { IfOk result (IsSymbolicNode (length nodes.new)) }
    ensures value { IfOk result (λ s. symbolic_by nodes.new s ≡ load_of at.exact at.number width at.access (bytes.symbolics_of p.now nodes.old memory.now)) }
{
    if !at.exact {
        return Ok(SymbolicNode::Unknown(Decision::Exact(at.number)));
    }
    let number = memory.load(p, nodes, place_of(at.access.pointer), at.access.bytes)?;
    within(nodes, width, loaded(number))
}

/// Whether a store passes its value on: it is exact, or an event.
fn is_passed_on(at: AccessAt) -> bool
    ensures { result ≡ (at.exact || at.access.event) }
{
    at.exact || at.access.event
}

/// Memory after a live store: where it is exact or an event it has the value, else what lies within its bounds isn't known.
pub(crate) fn store(
    nodes: &mut Nodes,
    p: &Program,
    memory: &mut SymbolicMemory,
    v: Value,
    registers: &[SymbolicNode],
    at: AccessAt,
) -> Result<(), AllocError>
    requires count { at.access.bytes ≤ 8 }
    requires registers { AreSymbolicNodes (length nodes.old) registers.now }
    requires names { bytes.AreSymbolicNodes (length nodes.old) memory.old }
    ensures grew { Grew nodes.old nodes.new }
    ensures is { OnOk result (bytes.AreSymbolicNodes (length nodes.new) memory.new) }
    ensures value { (w : AWidth) (address : AValue) (b : ℕ) → OnOk result (bytes.symbolics_of p.now nodes.new memory.new b
        ≡ bytes_stored p.now (at.exact || at.access.event) at.number at.access (registers_by nodes.old registers.now) (Store w v address) (bytes.symbolics_of p.now nodes.old memory.old) b) }
{
    if is_passed_on(at) {
        let s = value(nodes, p, v, registers)?;
        memory.store(place_of(at.access.pointer), at.access.bytes, held(s))
    } else {
        let f = bounds(at.access.pointer);
        memory.spoil(f.start, f.bytes, Decision::Exact(at.number))
    }
}

/// What an event writes: a create the number of its thread, a join the word of the joined one.
fn written(
    nodes: &mut Nodes,
    e: &Event,
    w: Write,
    words: &[SymbolicNode],
) -> Result<SymbolicNode, AllocError>
    requires { AreSymbolicNodes (length nodes.old) words.now }
    ensures grew { Grew nodes.old nodes.new }
    ensures is { IfOk result (IsSymbolicNode (length nodes.new)) }
    ensures value { IfOk result (λ s. symbolic_by nodes.new s ≡ written_symbolic e.now w e.now.kind (registers_by nodes.old words.now)) }
{
    match e.kind {
        TurnKind::Join => word_of(nodes, words, e.object as usize),
        _ => constant(nodes, w.number),
    }
}

/// Memory after a live event.
#[tactic(auto, using(pg_slice_values::proofs::GrowingNodes::grew_none))]
pub(crate) fn write(
    nodes: &mut Nodes,
    memory: &mut SymbolicMemory,
    e: &Event,
    words: &[SymbolicNode],
) -> Result<(), AllocError>
    requires words { AreSymbolicNodes (length nodes.old) words.now }
    requires names { bytes.AreSymbolicNodes (length nodes.old) memory.old }
    ensures grew { Grew nodes.old nodes.new }
    ensures is { OnOk result (bytes.AreSymbolicNodes (length nodes.new) memory.new) }
    ensures value { (p : NumberedProgram) (b : ℕ) → OnOk result (bytes.symbolics_of p nodes.new memory.new b
        ≡ bytes_by e.now e.now.write (registers_by nodes.old words.now) (bytes.symbolics_of p nodes.old memory.old) b) }
{
    match e.write {
        Some(w) => {
            let s = written(nodes, e, w, words)?;
            memory.store(place_of(w.pointer), 8, held(s))
        }
        None => Ok(()),
    }
}

/// Memory after an access of an instance's region: what lies within the bounds of a store isn't known, a load changes nothing.
fn forget_access(
    memory: &mut SymbolicMemory,
    access: FreeAccess,
    n: usize,
) -> Result<(), AllocError>
    ensures is { OnOk result ((k : ℕ) → bytes.AreSymbolicNodes k memory.old → bytes.AreSymbolicNodes k memory.new) }
    ensures value { (p : NumberedProgram) (ns : NodeList) → OnOk result (bytes.symbolics_of p ns memory.new
        ≡ (if access.writes then symbolics.spoiled (bounds_of access.last) (Pinned n) (bytes.symbolics_of p ns memory.old) else bytes.symbolics_of p ns memory.old)) }
{
    if access.writes {
        let f = bounds(access.last);
        memory.spoil(f.start, f.bytes, Decision::Pinned(n))
    } else {
        Ok(())
    }
}

/// Memory after the access with this number of an instance's region, if there is one.
fn forget_next(
    memory: &mut SymbolicMemory,
    r: &ReferenceRun,
    n: usize,
    k: usize,
) -> Result<(), AllocError>
    ensures is { OnOk result ((j : ℕ) → bytes.AreSymbolicNodes j memory.old → bytes.AreSymbolicNodes j memory.new) }
    ensures value { (p : NumberedProgram) (ns : NodeList) → IfSome (landmark_at r.now n) (λ l. IfSome l.region (λ f. OnOk result
        (forgotten_bytes (drop (k + 1) f.accesses) (Pinned n) (bytes.symbolics_of p ns memory.new) ≡ forgotten_bytes (drop k f.accesses) (Pinned n) (bytes.symbolics_of p ns memory.old)))) }
{
    match r.access(n, k) {
        Some(access) => forget_access(memory, access, n),
        None => Ok(()),
    }
}

/// Memory after a live instance of a region: what lies within the bounds of its stores isn't known.
fn forget(memory: &mut SymbolicMemory, r: &ReferenceRun, n: usize) -> Result<(), AllocError>
    ensures is { OnOk result ((k : ℕ) → bytes.AreSymbolicNodes k memory.old → bytes.AreSymbolicNodes k memory.new) }
    ensures value { (p : NumberedProgram) (ns : NodeList) → IfSome (landmark_at r.now n) (λ l. IfSome l.region (λ f. OnOk result (bytes.symbolics_of p ns memory.new
        ≡ forgotten_bytes f.accesses (Pinned n) (bytes.symbolics_of p ns memory.old)))) }
{
    for k in 0..r.access_count(n) {
        forget_next(memory, r, n, k)?;
    }
    Ok(())
}

/// Whether a step is an instance of its branch's region: the branch is freeable, and the step isn't pinned.
fn is_instance(step: OpStep) -> bool
    ensures { result ≡ (step.freed && not step.pinned) }
{
    step.freed && !step.pinned
}

/// Memory after a live step that is neither an access nor an event: an instance forgets what lies within those of its stores.
pub(crate) fn forget_instance(
    memory: &mut SymbolicMemory,
    r: &ReferenceRun,
    n: usize,
    step: OpStep,
) -> Result<(), AllocError>
    ensures is { OnOk result ((k : ℕ) → bytes.AreSymbolicNodes k memory.old → bytes.AreSymbolicNodes k memory.new) }
    ensures value { (p : NumberedProgram) (ns : NodeList) (b : ℕ) → IfSome (landmark_at r.now n) (λ l. step.freed ≡ is_some l.region
        → OnOk result (bytes.symbolics_of p ns memory.new b ≡ bytes_freed step.pinned n l.region (bytes.symbolics_of p ns memory.old) b)) }
{
    if is_instance(step) {
        forget(memory, r, n)
    } else {
        Ok(())
    }
}
