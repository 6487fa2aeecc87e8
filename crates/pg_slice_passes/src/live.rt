//! Live steps of a run.

ghost use Rattle.std.specs.Prelude.{◌≡◌, ◌<◌, ◌≤◌, ℕ, Bool, true, length, slice_index, IsTrue, IfSome, Option, Some, OnOk, is_some};
ghost use Rattle.pg_ir.specs.Program.{NumberedProgram};
ghost use Rattle.pg_run_trace.specs.declared.step.StepKind.{StepKind as AKind};
ghost use Rattle.pg_run_trace.specs.declared.step.StepKind.TheVariants as kinds;
ghost use Rattle.pg_run_trace.specs.declared.turn.TurnKind.TheVariants.{Create};
ghost use Rattle.pg_slice_rules.specs.Freeable.{FreeRegion, Regions};
ghost use Rattle.pg_slice_rules.specs.Known.{SymbolicState, Taken, bytes_by, function_in, live_after, live_by, on_thread, region_of, registers_of, result_in, threads_after};
ghost use Rattle.pg_slice_rules.specs.Known as along;
ghost use Rattle.pg_slice_rules.specs.Moments.{Moment, instr_in, thread_in};
ghost use Rattle.pg_slice_decisions.specs.Steps.{taken_by};
ghost use Rattle.pg_slice_replay.specs.Kept.{landmark_at, step_count};
ghost use Rattle.pg_slice_replay.specs.Landmarks.{landmark_of};
ghost use Rattle.pg_slice_values.specs.Forms.{CastFits};
ghost use Rattle.pg_slice_values.specs.SymbolicNodes.{Grew, IsSymbolicNode, symbolic_by};
ghost use Rattle.pg_slice_registers.specs.Events.{HasOperands};
ghost use Rattle.pg_slice_registers.specs.Steps.{is_plain};
ghost use Rattle.pg_slice_passes.specs.Given.{CanGo, FitsEvent, IsAccess, is_op};
ghost use Rattle.pg_slice_passes.specs.State.{AreKept, Knows};

use crate::memory::{forget_instance, load, store, word_of, write};
use crate::state::SymbolicRun;
use crate::step::{AccessAt, EventAt, StepAt};
use crate::threads::{after_access, after_event, after_op, thread_registers, with_created};
use pg_ir::{Instr, Op, Program};
use pg_precondition::Nodes;
use pg_run_trace::{Event, StepKind, TurnKind};
use pg_slice_decisions::DecisionSet;
use pg_slice_registers::{OpStep, words_after};
use pg_slice_replay::ReferenceRun;
use std::alloc::AllocError;

/// What is read of the run at a step that is neither an access nor an event.
pub(crate) fn op_step(d: &DecisionSet, r: &ReferenceRun, n: usize, word: u64) -> OpStep
    requires { n < step_count r.now }
    ensures number { result.number ≡ n }
    ensures pinned { result.pinned ≡ (taken_by d.now).pinned n }
    ensures word { result.word ≡ word }
    ensures landmark { IfSome (landmark_at r.now n) (λ l. (result.freed ≡ is_some l.region) × (result.edge ≡ l.edge) × (result.target ≡ l.target)) }
{
    OpStep {
        number: n,
        pinned: d.is_pinned(n),
        freed: r.is_free(n),
        edge: r.edge(n),
        target: r.target(n),
        word,
    }
}

impl SymbolicRun {
    /// A live load or store.
    fn live_access(
        &mut self,
        nodes: &mut Nodes,
        s: &StepAt,
        t: usize,
        at: AccessAt,
    ) -> Result<(), AllocError>
        requires access { IsAccess s.now.x.now.op }
        requires some { 1 ≤ at.access.bytes }
        requires count { at.access.bytes ≤ 8 }
        requires symbolic_nodes { AreKept (length nodes.old) self.old }
        ensures grew { Grew nodes.old nodes.new }
        ensures is { OnOk result (AreKept (length nodes.new) self.new) }
        ensures value { (d : Taken) (m : Moment) (region : Option FreeRegion) (k : SymbolicState) → d.exact at.number ≡ at.exact → thread_in m ≡ t → Knows s.now.p.now nodes.old d.pinned self.old k
            → OnOk result (Knows s.now.p.now nodes.new d.pinned self.new (live_by s.now.p.now d at.number m region s.now.x.now (kinds.Access at.access) k)) }
    {
        match &s.x.op {
            Op::Load { width, .. } => {
                let loaded = load(nodes, s.p, &self.memory, *width, at)?;
                after_access(&mut self.threads, t, s.x, loaded);
                Ok(())
            }
            Op::Store { value, .. } => store(
                nodes,
                s.p,
                &mut self.memory,
                *value,
                thread_registers(self.threads.as_slice(), t),
                at,
            ),
            _ => unreachable!(),
        }
    }

    /// What a live event writes.
    fn event_bytes(&mut self, nodes: &mut Nodes, e: &Event) -> Result<(), AllocError>
        requires symbolic_nodes { AreKept (length nodes.old) self.old }
        ensures grew { Grew nodes.old nodes.new }
        ensures is { OnOk result (AreKept (length nodes.new) self.new) }
        ensures value { (p : NumberedProgram) (pinned : ℕ → Bool) (k : SymbolicState) → Knows p nodes.old pinned self.old k
            → OnOk result (Knows p nodes.new pinned self.new (record k { bytes = bytes_by e.now e.now.write k.words k.bytes })) }
    {
        write(nodes, &mut self.memory, e, self.words.as_slice())
    }

    /// The words after a live event.
    fn event_words(
        &mut self,
        nodes: &mut Nodes,
        p: &Program,
        x: &Instr,
        t: usize,
        kind: TurnKind,
    ) -> Result<(), AllocError>
        requires call { HasOperands kind x.now.op }
        requires symbolic_nodes { AreKept (length nodes.old) self.old }
        ensures grew { Grew nodes.old nodes.new }
        ensures is { OnOk result (AreKept (length nodes.new) self.new) }
        ensures value { (pinned : ℕ → Bool) (k : SymbolicState) → Knows p.now nodes.old pinned self.old k
            → OnOk result (Knows p.now nodes.new pinned self.new (record k { words = along.words_after p.now t kind (registers_of k t) x.now.op k.words })) }
    {
        words_after(
            nodes,
            p,
            t,
            kind,
            &x.op,
            thread_registers(self.threads.as_slice(), t),
            &mut self.words,
        )
    }

    /// The threads after a live event.
    fn event_threads(
        &mut self,
        nodes: &mut Nodes,
        s: &StepAt,
        t: usize,
        at: EventAt,
    ) -> Result<(), AllocError>
        requires call { HasOperands at.event.kind s.now.x.now.op }
        requires create { at.event.kind ≡ Create → slice_index at.event.operands 2 < length s.now.p.now.functions }
        requires argument { IsSymbolicNode (length nodes.old) at.argument }
        requires symbolic_nodes { AreKept (length nodes.old) self.old }
        ensures grew { Grew nodes.old nodes.new }
        ensures is { OnOk result (AreKept (length nodes.new) self.new) }
        ensures value { (m : Moment) (pinned : ℕ → Bool) (k : SymbolicState) → function_in m.calls ≡ at.function → Knows s.now.p.now nodes.old pinned self.old k
            → OnOk result (Knows s.now.p.now nodes.new pinned self.new (record k {
              threads = threads_after s.now.p.now at.event at.event.kind
                  (on_thread (along.after_event s.now.p.now m at.event at.event.kind (symbolic_by nodes.old at.argument) s.now.x.now) t k.threads);
            })) }
    {
        after_event(nodes, s, t, at, &mut self.threads)?;
        with_created(
            s.alloc,
            nodes,
            s.p,
            at.event,
            &mut self.threads,
            &mut self.extents,
        )
    }

    /// A live event, by the function of the present call.
    fn live_event(
        &mut self,
        nodes: &mut Nodes,
        s: &StepAt,
        t: usize,
        e: &Event,
        function: u32,
    ) -> Result<(), AllocError>
        requires call { FitsEvent e.now s.now.x.now.op }
        requires create { e.now.kind ≡ Create → slice_index e.now.operands 2 < length s.now.p.now.functions }
        requires symbolic_nodes { AreKept (length nodes.old) self.old }
        ensures grew { Grew nodes.old nodes.new }
        ensures is { OnOk result (AreKept (length nodes.new) self.new) }
        ensures value { (d : Taken) (n : ℕ) (m : Moment) (region : Option FreeRegion) (k : SymbolicState) → function_in m.calls ≡ function → thread_in m ≡ t
            → Knows s.now.p.now nodes.old d.pinned self.old k
            → OnOk result (Knows s.now.p.now nodes.new d.pinned self.new (live_by s.now.p.now d n m region s.now.x.now (kinds.Event e.now) k)) }
    {
        let argument = word_of(nodes, self.words.as_slice(), t)?;
        self.event_bytes(nodes, e)?;
        self.event_words(nodes, s.p, s.x, t, e.kind)?;
        let at = EventAt {
            event: *e,
            function,
            argument,
        };
        self.event_threads(nodes, s, t, at)
    }

    /// A live step that is neither an access nor an event.
    fn live_op(
        &mut self,
        nodes: &mut Nodes,
        s: &StepAt,
        t: usize,
        word: u64,
    ) -> Result<(), AllocError>
        requires plain { IsTrue (is_plain s.now.x.now.op) }
        requires cast { CastFits s.now.x.now.op }
        requires number { s.now.n < step_count s.now.r.now }
        requires block { IfSome (landmark_at s.now.r.now s.now.n) (λ l. IfSome l.edge (λ b. b < length s.now.p.now.blocks)) }
        requires symbolic_nodes { AreKept (length nodes.old) self.old }
        ensures grew { Grew nodes.old nodes.new }
        ensures is { OnOk result (AreKept (length nodes.new) self.new) }
        ensures value { (m : Moment) (regions : Regions) (kind : AKind) (k : SymbolicState) → landmark_at s.now.r.now s.now.n ≡ Some (landmark_of s.now.p.now regions m) → is_op kind ≡ true
            → result_in kind ≡ word
            → m.did.did.kind ≡ kind → thread_in m ≡ t → instr_in s.now.p.now m ≡ Some s.now.x.now → Knows s.now.p.now nodes.old (taken_by s.now.d.now).pinned self.old k
            → OnOk result (Knows s.now.p.now nodes.new (taken_by s.now.d.now).pinned self.new
            (live_by s.now.p.now (taken_by s.now.d.now) s.now.n m (region_of s.now.p.now regions m (Some s.now.x.now)) s.now.x.now kind k)) }
    {
        let step = op_step(s.d, s.r, s.n, word);
        after_op(nodes, s, t, step, s.r.marks(s.n), &mut self.threads)?;
        forget_instance(&mut self.memory, s.r, s.n, step)
    }

    /// A live step.
    pub(crate) fn live(&mut self, nodes: &mut Nodes, s: &StepAt) -> Result<(), AllocError>
        requires go { CanGo s.now.p.now s.now.x.now s.now.step.now s.now.r.now s.now.n }
        requires symbolic_nodes { AreKept (length nodes.old) self.old }
        ensures grew { Grew nodes.old nodes.new }
        ensures is { OnOk result (AreKept (length nodes.new) self.new) }
        ensures value { (m : Moment) (regions : Regions) (k : SymbolicState) → landmark_at s.now.r.now s.now.n ≡ Some (landmark_of s.now.p.now regions m) → m.did.did ≡ s.now.step.now
            → instr_in s.now.p.now m ≡ Some s.now.x.now
            → Knows s.now.p.now nodes.old (taken_by s.now.d.now).pinned self.old k
            → OnOk result (Knows s.now.p.now nodes.new (taken_by s.now.d.now).pinned self.new
            (live_after s.now.p.now (taken_by s.now.d.now) s.now.n m (region_of s.now.p.now regions m (instr_in s.now.p.now m)) (instr_in s.now.p.now m) k)) }
    {
        let t = s.step.thread.0 as usize;
        match &s.step.kind {
            StepKind::Access(a) => {
                let at = AccessAt {
                    access: *a,
                    number: s.n,
                    exact: s.d.is_exact(s.n),
                };
                self.live_access(nodes, s, t, at)
            }
            StepKind::Event(e) => self.live_event(nodes, s, t, e, s.r.function(s.n)),
            StepKind::Allocation { result, .. } => self.live_op(nodes, s, t, *result),
            StepKind::Branch { .. } | StepKind::Other => self.live_op(nodes, s, t, 0),
        }
    }
}
