//! What a live step asks by itself: its pin, the values and the bounds that have to be known.

ghost use Rattle.std.specs.Prelude.{◌≡◌, ◌<◌, ◌≤◌, Some, take, slice_get, ◌++◌, ◌∷◌, [], not, ◌&&◌, if◌then◌else◌, length, IfOk, IfSome, OnOk};
ghost use Rattle.pg_run_trace.specs.declared.step.StepKind.TheVariants as kinds;
ghost use Rattle.pg_precondition.specs.Nodes.{NodeList};
ghost use Rattle.pg_slice_rules.specs.declared.decision.Decision.TheVariants as decisions;
ghost use Rattle.pg_slice_rules.specs.Freeable.{FreeAccess as AnAccess};
ghost use Rattle.pg_slice_rules.specs.Known.{Reference, Seen};
ghost use Rattle.pg_slice_rules.specs.Rules as rules;
ghost use Rattle.pg_slice_rules.specs.SymbolicValues.{Symbolic, always};
ghost use Rattle.pg_slice_decisions.specs.Steps.{taken_by};
ghost use Rattle.pg_slice_checks.specs.Asks.{Adds, AreNamed};
ghost use Rattle.pg_slice_replay.specs.Given.{access_as};
ghost use Rattle.pg_slice_replay.specs.Kept.{landmark_at, step_count};
ghost use Rattle.pg_slice_checks.specs.pg_slice_memory.Changes as bytes;
ghost use Rattle.pg_slice_registers.specs.SymbolicRegisterNodes.{AreSymbolicNodes, registers_by};
ghost use Rattle.pg_slice_values.specs.SymbolicNodes.{Grew, IsSymbolicNode, symbolic_by};
ghost use Rattle.pg_slice_passes.specs.Given.{FitsBranch, FitsEvent, FitsKind, IsAccess};
ghost use Rattle.pg_slice_passes.specs.Passes.{is_library_call};
ghost use Rattle.pg_slice_passes.specs.State.{AreKept};
ghost use Rattle.std.specs.Prelude.{ℕ, false, true, ℤ, List, is_some};
ghost use Rattle.pg_run_trace.specs.declared.step.Access.{Access as AStepAccess};
ghost use Rattle.pg_run_trace.specs.declared.step.Event.{Event as AnEvent};
ghost use Rattle.pg_region_paths.specs.Paths.{offsets_of};
ghost use Rattle.pg_slice_rules.specs.Closed.{conditions_at};
ghost use Rattle.pg_slice_rules.specs.Known.{is_branch, operand_at, operand_symbolics};
ghost use Rattle.pg_slice_checks.specs.Asks.{all_hold, all_met};
ghost use Rattle.pg_slice_checks.specs.Steps as steps;
ghost use Rattle.pg_slice_registers.specs.Events.{IsLibraryCall};
ghost use Rattle.pg_slice_passes.specs.Along.{own_asks};
ghost use Rattle.pg_slice_passes.specs.Passes.{IsAt, fixed_by};

use crate::state::SymbolicRun;
use crate::step::StepAt;
use pg_ir::{LibraryCall, Op, Program, Value};
use pg_precondition::Nodes;
use pg_region_paths::{Loads, Root, RootPath};
use pg_run_trace::StepKind;
use pg_slice_checks::pg_slice_memory::SymbolicMemory;
use pg_slice_checks::{Asked, PathAt, path_needs, step_needs};
use pg_slice_decisions::DecisionSet;
use pg_slice_registers::operand;
use pg_slice_replay::{FreeAccess, ReferenceRun, offsets};
use pg_slice_rules::Decision;
use pg_slice_values::{SymbolicNode, constant, unset, value};
use std::alloc::AllocError;

/// What is known of the root of a path, by the registers of the present call.
fn root(
    nodes: &mut Nodes,
    p: &Program,
    root: Root,
    registers: &[SymbolicNode],
) -> Result<SymbolicNode, AllocError>
    requires { AreSymbolicNodes (length nodes.old) registers.now }
    ensures grew { Grew nodes.old nodes.new }
    ensures is { IfOk result (IsSymbolicNode (length nodes.new)) }
    ensures value { IfOk result (λ s. symbolic_by nodes.new s ≡ rules.root_symbolic p.now (registers_by nodes.old registers.now) root) }
{
    match root {
        Root::Register(r) => value(nodes, p, Value::Register(r), registers),
        Root::Global(g) => value(nodes, p, Value::Global(g), registers),
        Root::Const(n) => constant(nodes, n),
        Root::Param(_) => unset(nodes),
    }
}

/// So many of the first words.
fn first(words: &[u64], count: usize) -> &[u64]
    requires { count ≤ length words.now }
    ensures words { result.now ≡ take count words.now }
    ensures count { length result.now ≡ count }
{
    &words[..count]
}

/// The registers of a frame, and memory, in a program.
#[derive(Clone, Copy)]
struct Frame<'a> {
    p: &'a Program,
    memory: &'a SymbolicMemory,
    registers: &'a [SymbolicNode],
}

/// Whether a root is this word on each input.
fn is_fixed_root(p: &Program, root: Root, word: u64) -> bool
    ensures { result ≡ true → (rs : List Symbolic) → rules.root_symbolic p.now rs root ≡ always word }
{
    match root {
        Root::Global(g) => p.global_pointer(g) == Some(word),
        Root::Const(n) => n == word,
        Root::Register(_) | Root::Param(_) => false,
    }
}

/// Whether a path loads nothing, and leads to this word on each input.
fn is_fixed_path(p: &Program, path: RootPath, word: u64) -> bool
    ensures loads { result ≡ true → offsets_of path.loads ≡ [] }
    ensures root { result ≡ true → (rs : List Symbolic) → rules.root_symbolic p.now rs path.root ≡ always word }
{
    match path.loads {
        Loads::Never => is_fixed_root(p, path.root, word),
        _ => false,
    }
}

/// What a path of a region's access asks, followed in what is known.
fn followed_needs(
    asked: &mut Asked,
    nodes: &mut Nodes,
    frame: &Frame,
    access: &FreeAccess,
) -> Result<(), AllocError>
    requires registers { AreSymbolicNodes (length nodes.old) frame.now.registers.now }
    requires names { bytes.AreSymbolicNodes (length nodes.old) frame.now.memory.now }
    ensures grew { Grew nodes.old nodes.new }
    ensures adds { IfOk result (λ u. (ns : NodeList) (a : AnAccess) → Grew nodes.new ns → access_as access.now ≡ a
        → Adds ns (rules.path_needs (bytes.symbolics_of frame.now.p.now ns frame.now.memory.now)
        (rules.root_symbolic frame.now.p.now (registers_by ns frame.now.registers.now) a.path.root) (offsets_of a.path.loads) a.at.pointers a.at.cells a.at.last) asked.old asked.new) }
{
    let from = root(nodes, frame.p, access.path.root, frame.registers)?;
    let (offsets, count) = offsets(access.path.loads);
    let at = first(&offsets, count);
    let pointers = first(&access.pointers, count);
    let path = PathAt {
        root: from,
        offsets: at,
        pointers,
        last: access.last,
    };
    path_needs(asked, frame.p, nodes, frame.memory, &path)?;
    Ok(())
}

/// What a path of a region's access asks: nothing, where it leads to the same word on each input.
fn access_needs(
    asked: &mut Asked,
    nodes: &mut Nodes,
    frame: &Frame,
    access: &FreeAccess,
) -> Result<(), AllocError>
    requires registers { AreSymbolicNodes (length nodes.old) frame.now.registers.now }
    requires names { bytes.AreSymbolicNodes (length nodes.old) frame.now.memory.now }
    ensures grew { Grew nodes.old nodes.new }
    ensures adds { IfOk result (λ u. (ns : NodeList) (a : AnAccess) → Grew nodes.new ns → access_as access.now ≡ a
        → Adds ns (rules.path_needs (bytes.symbolics_of frame.now.p.now ns frame.now.memory.now)
        (rules.root_symbolic frame.now.p.now (registers_by ns frame.now.registers.now) a.path.root) (offsets_of a.path.loads) a.at.pointers a.at.cells a.at.last) asked.old asked.new) }
{
    if is_fixed_path(frame.p, access.path, access.last) {
        return Ok(());
    }
    followed_needs(asked, nodes, frame, access)?;
    Ok(())
}

/// What the access with this number asks of those of a freeable step's region, if there is one.
fn free_access_needs(
    asked: &mut Asked,
    nodes: &mut Nodes,
    frame: &Frame,
    r: &ReferenceRun,
    n: usize,
    k: usize,
) -> Result<(), AllocError>
    requires registers { AreSymbolicNodes (length nodes.old) frame.now.registers.now }
    requires names { bytes.AreSymbolicNodes (length nodes.old) frame.now.memory.now }
    ensures grew { Grew nodes.old nodes.new }
    ensures adds { IfSome (landmark_at r.now n) (λ l. IfSome l.region (λ f. IfOk result (λ u. (ns : NodeList) (a : AnAccess) → Grew nodes.new ns → slice_get f.accesses k ≡ Some a
        → Adds ns (rules.path_needs (bytes.symbolics_of frame.now.p.now ns frame.now.memory.now) (rules.root_symbolic frame.now.p.now (registers_by ns frame.now.registers.now) a.path.root)
        (offsets_of a.path.loads) a.at.pointers a.at.cells a.at.last) asked.old asked.new))) }
{
    if let Some(access) = r.access(n, k) {
        access_needs(asked, nodes, frame, &access)?;
    }
    Ok(())
}

/// What the region of a freeable step asks.
fn region_needs(
    asked: &mut Asked,
    nodes: &mut Nodes,
    frame: &Frame,
    r: &ReferenceRun,
    n: usize,
) -> Result<(), AllocError>
    requires number { n < step_count r.now }
    requires registers { AreSymbolicNodes (length nodes.old) frame.now.registers.now }
    requires names { bytes.AreSymbolicNodes (length nodes.old) frame.now.memory.now }
    ensures grew { Grew nodes.old nodes.new }
    ensures adds { IfSome (landmark_at r.now n) (λ l. IfOk result (λ u. (ns : NodeList) (x : Seen) → Grew nodes.new ns → rules.registers_before x ≡ registers_by ns frame.now.registers.now
        → x.before.bytes ≡ bytes.symbolics_of frame.now.p.now ns frame.now.memory.now → Adds ns (rules.region_needs_in frame.now.p.now x l.region) asked.old asked.new)) }
{
    if !r.is_free(n) {
        return Ok(());
    }
    for k in 0..r.access_count(n) {
        free_access_needs(asked, nodes, frame, r, n, k)?;
    }
    Ok(())
}

/// What is known of the address of a load or a store.
fn address(
    nodes: &mut Nodes,
    p: &Program,
    op: &Op,
    registers: &[SymbolicNode],
) -> Result<SymbolicNode, AllocError>
    requires access { IsAccess op.now }
    requires symbolic_nodes { AreSymbolicNodes (length nodes.old) registers.now }
    ensures grew { Grew nodes.old nodes.new }
    ensures is { IfOk result (IsSymbolicNode (length nodes.new)) }
    ensures value { IfOk result (λ s. symbolic_by nodes.new s ≡ operand_at p.now (registers_by nodes.old registers.now) op.now (rules.address_index op.now)) }
{
    match op {
        Op::Load { .. } => operand(nodes, p, op, 0, registers),
        Op::Store { .. } => operand(nodes, p, op, 1, registers),
        _ => unreachable!(),
    }
}

/// A live step's operation, its kind, and the registers of its frame in a program.
#[derive(Clone, Copy)]
struct LiveOp<'a> {
    p: &'a Program,
    op: &'a Op,
    kind: &'a StepKind,
    registers: &'a [SymbolicNode],
}

/// What a load or a store asks.
fn at_needs(asked: &mut Asked, nodes: &mut Nodes, s: &LiveOp, fixed: bool) -> Result<(), AllocError>
    requires access { IsAccess s.now.op.now }
    requires kind { (a : AStepAccess) × (s.now.kind.now ≡ kinds.Access a) }
    requires symbolic_nodes { AreSymbolicNodes (length nodes.old) s.now.registers.now }
    ensures grew { Grew nodes.old nodes.new }
    ensures adds { IfOk result (λ u. (ns : NodeList) → Grew nodes.new ns
        → Adds ns (steps.step_needs fixed (operand_symbolics s.now.p.now (registers_by ns s.now.registers.now) s.now.op.now) s.now.op.now s.now.kind.now) asked.old asked.new) }
{
    let at = address(nodes, s.p, s.op, s.registers)?;
    step_needs(asked, s.op, s.kind, &[at, at], fixed)?;
    Ok(())
}

/// What an event asks that is a call: its first three operands are read.
fn call_needs(asked: &mut Asked, nodes: &mut Nodes, s: &LiveOp) -> Result<(), AllocError>
    requires call { IsLibraryCall s.now.op.now }
    requires kind { (e : AnEvent) × (s.now.kind.now ≡ kinds.Event e) }
    requires symbolic_nodes { AreSymbolicNodes (length nodes.old) s.now.registers.now }
    ensures grew { Grew nodes.old nodes.new }
    ensures adds { IfOk result (λ u. (ns : NodeList) → Grew nodes.new ns
        → Adds ns (steps.step_needs false (operand_symbolics s.now.p.now (registers_by ns s.now.registers.now) s.now.op.now) s.now.op.now s.now.kind.now) asked.old asked.new) }
{
    let first = operand(nodes, s.p, s.op, 0, s.registers)?;
    let second = operand(nodes, s.p, s.op, 1, s.registers)?;
    let third = operand(nodes, s.p, s.op, 2, s.registers)?;
    step_needs(asked, s.op, s.kind, &[first, second, third], false)?;
    Ok(())
}

/// What a branch asks: where it is pinned, its condition.
fn branch_needs(
    asked: &mut Asked,
    nodes: &mut Nodes,
    s: &LiveOp,
    fixed: bool,
) -> Result<(), AllocError>
    requires fits { FitsBranch s.now.op.now }
    requires kind { (condition : ℕ) × (s.now.kind.now ≡ kinds.Branch condition) }
    requires symbolic_nodes { AreSymbolicNodes (length nodes.old) s.now.registers.now }
    ensures grew { Grew nodes.old nodes.new }
    ensures adds { IfOk result (λ u. (ns : NodeList) → Grew nodes.new ns
        → Adds ns (steps.step_needs fixed (operand_symbolics s.now.p.now (registers_by ns s.now.registers.now) s.now.op.now) s.now.op.now s.now.kind.now) asked.old asked.new) }
{
    if !fixed {
        return Ok(());
    }
    let on = operand(nodes, s.p, s.op, 0, s.registers)?;
    step_needs(asked, s.op, s.kind, &[on], fixed)?;
    Ok(())
}

/// Whether an instruction is a call of `malloc`.
pub fn is_malloc(op: &Op) -> bool
    ensures { result ≡ rules.is_malloc op.now }
{
    match op {
        Op::CallLibrary { function, .. } => matches!(function, LibraryCall::Malloc),
        _ => false,
    }
}

/// What an allocation asks: the size of a `malloc`.
fn size_needs(asked: &mut Asked, nodes: &mut Nodes, s: &LiveOp) -> Result<(), AllocError>
    requires kind { (size : ℕ) × (place : ℕ) × (s.now.kind.now ≡ kinds.Allocation size place) }
    requires symbolic_nodes { AreSymbolicNodes (length nodes.old) s.now.registers.now }
    ensures grew { Grew nodes.old nodes.new }
    ensures adds { IfOk result (λ u. (ns : NodeList) → Grew nodes.new ns
        → Adds ns (steps.step_needs false (operand_symbolics s.now.p.now (registers_by ns s.now.registers.now) s.now.op.now) s.now.op.now s.now.kind.now) asked.old asked.new) }
{
    if !is_malloc(s.op) {
        return Ok(());
    }
    let size = operand(nodes, s.p, s.op, 0, s.registers)?;
    step_needs(asked, s.op, s.kind, &[size], false)?;
    Ok(())
}

/// Whether an instruction is a call of a function that the program doesn't define.
fn is_call(op: &Op) -> bool
    ensures { result ≡ is_library_call op.now }
{
    match op {
        Op::CallLibrary { .. } => true,
        _ => false,
    }
}

/// What an event asks that is no load or store: a start and an exit by a return ask nothing.
fn event_needs(asked: &mut Asked, nodes: &mut Nodes, s: &LiveOp) -> Result<(), AllocError>
    requires kind { (e : AnEvent) × (s.now.kind.now ≡ kinds.Event e) × FitsEvent e s.now.op.now }
    requires symbolic_nodes { AreSymbolicNodes (length nodes.old) s.now.registers.now }
    ensures grew { Grew nodes.old nodes.new }
    ensures adds { IfOk result (λ u. (ns : NodeList) → Grew nodes.new ns
        → Adds ns (steps.step_needs false (operand_symbolics s.now.p.now (registers_by ns s.now.registers.now) s.now.op.now) s.now.op.now s.now.kind.now) asked.old asked.new) }
{
    if is_call(s.op) {
        call_needs(asked, nodes, s)?;
    }
    Ok(())
}

/// What the values and the bounds of a live step's operands ask. A step is fixed where it is pinned or exact.
fn operand_needs(
    asked: &mut Asked,
    nodes: &mut Nodes,
    s: &LiveOp,
    fixed: bool,
) -> Result<(), AllocError>
    requires fits { FitsKind s.now.op.now s.now.kind.now }
    requires symbolic_nodes { AreSymbolicNodes (length nodes.old) s.now.registers.now }
    ensures grew { Grew nodes.old nodes.new }
    ensures adds { IfOk result (λ u. (ns : NodeList) → Grew nodes.new ns
        → Adds ns (steps.step_needs fixed (operand_symbolics s.now.p.now (registers_by ns s.now.registers.now) s.now.op.now) s.now.op.now s.now.kind.now) asked.old asked.new) }
{
    match s.kind {
        StepKind::Access(_) => at_needs(asked, nodes, s, fixed),
        StepKind::Branch { .. } => branch_needs(asked, nodes, s, fixed),
        StepKind::Allocation { .. } => size_needs(asked, nodes, s),
        StepKind::Event(_) => event_needs(asked, nodes, s),
        StepKind::Other => Ok(()),
    }
}

/// Whether a step is fixed: a branch where it is pinned, an access where it is exact.
fn is_fixed(d: &DecisionSet, kind: &StepKind, n: usize) -> bool
    ensures { result ≡ fixed_by (taken_by d.now) kind.now n }
{
    match kind {
        StepKind::Branch { .. } => d.is_pinned(n),
        StepKind::Access(_) => d.is_exact(n),
        _ => false,
    }
}

/// The first rule: a live branch step that isn't freeable is pinned.
fn pin_needs(
    missing: &mut Vec<Decision>,
    d: &DecisionSet,
    r: &ReferenceRun,
    kind: &StepKind,
    n: usize,
) -> Result<(), AllocError>
    requires { n < step_count r.now }
    ensures { IfSome (landmark_at r.now n) (λ l. OnOk result (missing.new.items
        ≡ missing.old.items ++ (if (is_branch kind.now && not (is_some l.region)) && not ((taken_by d.now).pinned n) then decisions.Pinned n ∷ [] else []))) }
{
    if let StepKind::Branch { .. } = kind {
        if !r.is_free(n) && !d.is_pinned(n) {
            missing.push(Decision::Pinned(n))?;
        }
    }
    Ok(())
}

/// What a live step asks by itself.
///
/// # Errors
///
/// Where no memory is left. Some of it may have been noted.
pub(crate) fn needs(
    asked: &mut Asked,
    nodes: &mut Nodes,
    s: &SymbolicRun,
    at: &StepAt,
) -> Result<(), AllocError>
    requires fits { FitsKind at.now.x.now.op at.now.step.now.kind }
    requires number { at.now.n < step_count at.now.r.now }
    requires symbolic_nodes { AreKept (length nodes.old) s.now }
    ensures grew { Grew nodes.old nodes.new }
    ensures missing { IfOk result (λ u. (R : Reference) (y : Seen) → IsAt R (taken_by at.now.d.now) at.now.p.now nodes.old s.now at.now.r.now at.now.n at.now.step.now at.now.x.now y
        → asked.new.missing.items ≡ asked.old.missing.items ++ own_asks R (taken_by at.now.d.now) y) }
    ensures checks { IfOk result (λ u. (R : Reference) (y : Seen) (ns : NodeList) (input : List ℤ) → Grew nodes.new ns
        → IsAt R (taken_by at.now.d.now) at.now.p.now nodes.old s.now at.now.r.now at.now.n at.now.step.now at.now.x.now y
        → all_hold ns asked.new.checks.items input ≡ (all_hold ns asked.old.checks.items input && all_met (conditions_at R (taken_by at.now.d.now) y) input)) }
    ensures named { IfOk result (λ u. AreNamed (length nodes.old) asked.old.checks.items → AreNamed (length nodes.new) asked.new.checks.items) }
{
    let t = at.step.thread.0 as usize;
    if !s.is_live(t) {
        return Ok(());
    }
    pin_needs(&mut asked.missing, at.d, at.r, &at.step.kind, at.n)?;
    let registers = s.registers(t);
    let live = LiveOp {
        p: at.p,
        op: &at.x.op,
        kind: &at.step.kind,
        registers,
    };
    operand_needs(asked, nodes, &live, is_fixed(at.d, &at.step.kind, at.n))?;
    let frame = Frame {
        p: at.p,
        memory: &s.memory,
        registers,
    };
    region_needs(asked, nodes, &frame, at.r, at.n)?;
    Ok(())
}
