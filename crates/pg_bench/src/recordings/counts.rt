//! What is counted of a recording.
ghost use Rattle.std.specs.Prelude.{◌≡◌, length, count_by};
ghost use Rattle.pg_slice_rules.specs.Known as known;
ghost use Rattle.pg_run_trace.specs.declared.step.Step.{Step as AStep};

use pg_run_trace::{Schedule, StepKind, Trace};
use pg_slice_rules::Decisions;

/// The steps of the guided run, its turns, its steps at branches, the decisions of its slice; whether its input is admitted, and
/// how many turns the guided run does again.
#[derive(Clone, Copy)]
pub(crate) struct Counts {
    pub(crate) steps: usize,
    pub(crate) turns: usize,
    pub(crate) branches: usize,
    pub(crate) pinned: usize,
    pub(crate) exact: usize,
    pub(crate) admitted: bool,
    pub(crate) done: u32,
}

impl Counts {
    /// Nothing is counted so far.
    pub(crate) fn none() -> Counts {
        Counts {
            steps: 0,
            turns: 0,
            branches: 0,
            pinned: 0,
            exact: 0,
            admitted: false,
            done: 0,
        }
    }

    /// The guided run and its turns.
    pub(crate) fn run(&mut self, t: &Trace, s: &Schedule)
        ensures { self.new ≡ record self.old { steps = length t.now.steps; turns = length s.now.turns; branches = count_by (λ (x : AStep). known.is_branch x.kind) t.now.steps } }
    {
        self.steps = t.len();
        self.turns = s.turns.as_slice().len();
        self.branches = branch_count(t);
    }

    /// The decisions of its slice.
    pub(crate) fn slice(&mut self, d: &Decisions)
        ensures { self.new ≡ record self.old { pinned = length d.now.pinned.items; exact = length d.now.exact.items } }
    {
        self.pinned = d.pinned.len();
        self.exact = d.exact.len();
    }
}

/// Whether a step is at a branch.
fn is_branch(kind: &StepKind) -> bool
    ensures { result ≡ known.is_branch kind.now }
{
    match kind {
        StepKind::Branch { .. } => true,
        _ => false,
    }
}

/// How many steps of a trace are at branches.
fn branch_count(t: &Trace) -> usize
    ensures { result ≡ count_by (λ (x : AStep). known.is_branch x.kind) t.now.steps }
{
    let mut count: usize = 0;
    for i in 0..t.len() {
        let step = t.step(i);
        if is_branch(&step.kind) {
            count += 1;
        }
    }
    count
}
