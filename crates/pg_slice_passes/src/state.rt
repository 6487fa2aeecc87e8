//! What is known before a step.

ghost use Rattle.std.specs.Prelude.{◌≡◌, ◌<◌, ℕ, Bool, length, slice_get, IfOk, IfSome, Some, OnOk, if◌then◌else◌};
ghost use Rattle.pg_ir.specs.Program.{NumberedProgram};
ghost use Rattle.pg_precondition.specs.Nodes.{NodeList};
ghost use Rattle.pg_slice_rules.specs.Extents as extents;
ghost use Rattle.pg_slice_rules.specs.Extents.{open_after};
ghost use Rattle.pg_slice_rules.specs.Freeable.{Regions};
ghost use Rattle.pg_slice_rules.specs.Known.{Reference, SymbolicState, after_step, live_after, region_of, start_of, thread_of, with_extents};
ghost use Rattle.pg_slice_rules.specs.Moments.{Moment, instr_in, thread_in};
ghost use Rattle.pg_slice_decisions.specs.Steps.{taken_by};
ghost use Rattle.pg_slice_decisions.specs.Open.{left_free};
ghost use Rattle.pg_slice_replay.specs.Kept.{landmark_at, step_count};
ghost use Rattle.pg_slice_replay.specs.Landmarks.{landmark_of};
ghost use Rattle.pg_slice_values.specs.SymbolicNodes.{Grew};
ghost use Rattle.pg_slice_passes.specs.Given.{CanGo};
ghost use Rattle.pg_slice_passes.specs.State.{AreKept, Knows, symbolic_nodes_in};

use crate::memory::first_words;
use crate::step::StepAt;
use crate::threads::{first_extents, first_threads, pass_extents, thread_registers};
use pg_ir::Program;
use pg_precondition::Nodes;
use pg_slice_checks::pg_slice_memory::SymbolicMemory;
use pg_slice_decisions::{DecisionSet, OpenExtents};
use pg_slice_registers::SymbolicRegisters;
use pg_slice_replay::ReferenceRun;
use pg_slice_values::SymbolicNode;
use std::alloc::{AllocError, Global};

/// What is known before a step of a reference run: of the registers of each thread's calls, of the bytes of memory, of each
/// thread's word, and where the open extents of each thread end.
#[derive(Drop)]
pub struct SymbolicRun {
    pub(crate) threads: Vec<SymbolicRegisters>,
    pub(crate) memory: SymbolicMemory,
    pub(crate) words: Vec<SymbolicNode>,
    pub(crate) extents: Vec<OpenExtents>,
}

/// The join of the region of a freeable step that isn't pinned.
fn left_join(d: &DecisionSet, r: &ReferenceRun, n: usize) -> Option<u32>
    requires { n < step_count r.now }
    ensures { IfSome (landmark_at r.now n) (λ l. result ≡ left_free ((taken_by d.now).pinned n) l.region) }
{
    if d.is_pinned(n) { None } else { r.join(n) }
}

impl SymbolicRun {
    /// What is known before the first step.
    ///
    /// # Errors
    ///
    /// Where no memory is left.
    pub(crate) fn start(
        alloc: Global,
        nodes: &mut Nodes,
        p: &Program,
    ) -> Result<SymbolicRun, AllocError>
        ensures grew { Grew nodes.old nodes.new }
        ensures is { IfOk result (AreKept (length nodes.new)) }
        ensures knows { IfOk result (λ s. (pinned : ℕ → Bool) → Knows p.now nodes.new pinned s (start_of p.now)) }
    {
        let extents = first_extents(alloc)?;
        let words = first_words(alloc, nodes)?;
        let threads = first_threads(alloc, nodes, p)?;
        Ok(SymbolicRun {
            threads,
            memory: SymbolicMemory::new(alloc),
            words,
            extents,
        })
    }

    /// The registers of the present call of a thread; none where there is no such thread, or it has ended.
    pub(crate) fn registers(&self, t: usize) -> &[SymbolicNode]
        ensures { result.now ≡ symbolic_nodes_in self.now t }
    {
        thread_registers(self.threads.as_slice(), t)
    }

    /// Whether a step of a thread is live; where there is no such thread it is.
    pub(crate) fn is_live(&self, t: usize) -> bool
        ensures { (p : NumberedProgram) (ns : NodeList) (pinned : ℕ → Bool) (k : SymbolicState) → Knows p ns pinned self.now k
            → result ≡ extents.is_live pinned (thread_of k t).extents }
    {
        match self.extents.get(t) {
            Some(open) => open.is_live(),
            None => true,
        }
    }

    /// The extents that a step leaves open.
    fn pass(
        &mut self,
        alloc: Global,
        t: usize,
        d: &DecisionSet,
        r: &ReferenceRun,
        n: usize,
    ) -> Result<(), AllocError>
        requires { n < step_count r.now }
        ensures kept { OnOk result ((k : ℕ) → AreKept k self.old → AreKept k self.new) }
        ensures value { (p : NumberedProgram) (ns : NodeList) (k : SymbolicState) → Knows p ns (taken_by d.now).pinned self.old k → IfSome (landmark_at r.now n) (λ l. OnOk result
            (Knows p ns (taken_by d.now).pinned self.new (record k { threads = with_extents t (open_after n l.depth l.region l.edge (thread_of k t).extents) k.threads }))) }
    {
        let free = left_join(d, r, n);
        pass_extents(alloc, t, r.depth(n), free, r.edge(n), &mut self.extents)
    }

    /// A step as far as it is live: what isn't live passes without a trace.
    fn live_if(&mut self, nodes: &mut Nodes, s: &StepAt) -> Result<(), AllocError>
        requires go { CanGo s.now.p.now s.now.x.now s.now.step.now s.now.r.now s.now.n }
        requires symbolic_nodes { AreKept (length nodes.old) self.old }
        ensures grew { Grew nodes.old nodes.new }
        ensures is { OnOk result (AreKept (length nodes.new) self.new) }
        ensures value { (m : Moment) (regions : Regions) (k : SymbolicState) → landmark_at s.now.r.now s.now.n ≡ Some (landmark_of s.now.p.now regions m) → m.did.did ≡ s.now.step.now
            → instr_in s.now.p.now m ≡ Some s.now.x.now
            → Knows s.now.p.now nodes.old (taken_by s.now.d.now).pinned self.old k
            → OnOk result (Knows s.now.p.now nodes.new (taken_by s.now.d.now).pinned self.new
            (if extents.is_live (taken_by s.now.d.now).pinned (thread_of k (thread_in m)).extents
            then live_after s.now.p.now (taken_by s.now.d.now) s.now.n m (region_of s.now.p.now regions m (instr_in s.now.p.now m)) (instr_in s.now.p.now m) k else k)) }
    {
        if self.is_live(s.step.thread.0 as usize) {
            self.live(nodes, s)
        } else {
            Ok(())
        }
    }

    /// A step.
    ///
    /// # Errors
    ///
    /// Where no memory is left. Nothing is said of what is kept then.
    pub(crate) fn step(&mut self, nodes: &mut Nodes, s: &StepAt) -> Result<(), AllocError>
        requires go { CanGo s.now.p.now s.now.x.now s.now.step.now s.now.r.now s.now.n }
        requires symbolic_nodes { AreKept (length nodes.old) self.old }
        ensures grew { Grew nodes.old nodes.new }
        ensures is { OnOk result (AreKept (length nodes.new) self.new) }
        ensures value { (R : Reference) (m : Moment) (k : SymbolicState) → R.program ≡ s.now.p.now → landmark_at s.now.r.now s.now.n ≡ Some (landmark_of s.now.p.now R.regions m)
            → m.did.did ≡ s.now.step.now
            → slice_get s.now.p.now.instrs s.now.step.now.instr.0 ≡ Some s.now.x.now → Knows s.now.p.now nodes.old (taken_by s.now.d.now).pinned self.old k
            → OnOk result (Knows s.now.p.now nodes.new (taken_by s.now.d.now).pinned self.new (after_step R (taken_by s.now.d.now) s.now.n m k)) }
    {
        self.live_if(nodes, s)?;
        self.pass(s.alloc, s.step.thread.0 as usize, s.d, s.r, s.n)
    }
}
