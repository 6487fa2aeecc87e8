//! One pass over a reference run.

ghost use Rattle.std.specs.Prelude.{◌≡◌, ◌<◌, ◌+◌, ◌↔◌, ℤ, List, [], Contains, Some, length, slice_get, IfOk, OnOk};
ghost use Rattle.pg_ir.specs.declared.ids.InstrId.{InstrId};
ghost use Rattle.pg_slice_rules.specs.Closed.{admits, asks};
ghost use Rattle.pg_slice_rules.specs.declared.decision.Decision.{Decision as ADecision};
ghost use Rattle.pg_slice_rules.specs.Freeable.{Regions};
ghost use Rattle.pg_slice_decisions.specs.Steps.{taken_by};
ghost use Rattle.pg_precondition.specs.Names.{AreNeeded};
ghost use Rattle.pg_slice_checks.specs.Asks.{AreNamed, all_hold};
ghost use Rattle.pg_precondition.specs.Values.{is_admitted};
ghost use Rattle.pg_slice_values.specs.SymbolicNodes.{Grew};
ghost use Rattle.pg_slice_passes.specs.Given.{AreGiven, HasLandmarks, reference_of};
ghost use Rattle.std.specs.Prelude.{◌++◌, map};
ghost use Rattle.pg_slice_conflicts.specs.Meets.{InOrder, is_met};
ghost use Rattle.pg_slice_passes.specs.Footprints.{asks_of_met};
ghost use Rattle.pg_slice_passes.specs.Rows.{AreRows, all_footprints, all_owners};
ghost use Rattle.pg_slice_passes.specs.Passes.{HasPassed};
ghost use Rattle.pg_slice_passes.specs.Timed.{AreEarlier};
ghost use Rattle.pg_slice_passes.specs.State.{AreKept};

use crate::footprints::{Footprints, TimedStep, add_footprints, ask_met};
use crate::given::GivenRun;
use crate::needs::needs;
use crate::state::SymbolicRun;
use crate::step::StepAt;
use pg_precondition::{Check, Nodes, Precondition, needed};
use pg_schedule::interval_at;
use pg_slice_checks::Asked;
use pg_slice_conflicts::conflicts;
use pg_slice_decisions::DecisionSet;
use pg_slice_rules::Decision;
use std::alloc::{AllocError, Global};

/// What a pass over a reference run gives: the decisions that are missing, and what an input must give.
#[derive(Drop)]
pub struct Passed {
    pub missing: Vec<Decision>,
    pub precondition: Precondition,
}

/// What is gathered along a pass: what is known before the next step, what the steps before it asked by themselves, and their
/// footprints.
#[derive(Drop)]
pub struct Gathered {
    pub(crate) symbolic_nodes: SymbolicRun,
    pub(crate) asked: Asked,
    pub(crate) footprints: Footprints,
}

/// The check with this number.
fn check_at(checks: &[Check], i: usize) -> Check
    requires { i < length checks.now }
    ensures { slice_get checks.now i ≡ Some result }
{
    checks[i]
}

/// The checks over only those nodes that they need.
fn precondition(alloc: Global, nodes: Nodes, checks: &[Check]) -> Result<Precondition, AllocError>
    requires { AreNamed (length nodes) checks.now }
    ensures admits { IfOk result (λ c. (input : List ℤ) → is_admitted input c ≡ all_hold nodes checks.now input) }
    ensures needed { IfOk result (λ c. AreNeeded c) }
{
    let mut c = Precondition::new(alloc, nodes);
    for i in 0..checks.len() {
        c.push(check_at(checks, i))?;
    }
    // In two lines for the proof: see docs/CONTRIBUTING.md.
    let r = needed(alloc, &c)?;
    Ok(r)
}

/// Step n of a pass.
fn pass_step(
    alloc: Global,
    nodes: &mut Nodes,
    g: &mut Gathered,
    run: &GivenRun,
    d: &DecisionSet,
    n: usize,
) -> Result<(), AllocError>
    requires given { AreGiven run.now.p.now run.now.t.now.steps run.now.intervals.now run.now.r.now }
    requires number { n < length run.now.t.now.steps }
    requires symbolic_nodes { AreKept (length nodes.old) g.old.symbolic_nodes }
    requires rows { AreRows g.old.footprints }
    ensures grew { Grew nodes.old nodes.new }
    ensures symbolic_nodes { OnOk result (AreKept (length nodes.new) g.new.symbolic_nodes) }
    ensures earlier { OnOk result (AreEarlier run.now.t.now.steps n g.old.footprints → AreEarlier run.now.t.now.steps (n + 1) g.new.footprints) }
    ensures named { OnOk result (AreNamed (length nodes.old) g.old.asked.checks.items → AreNamed (length nodes.new) g.new.asked.checks.items) }
    ensures passed { OnOk result ((regions : Regions) (gated : List InstrId) (input : List ℤ) → HasLandmarks (reference_of run.now.p.now regions gated input run.now.t.now.steps) run.now.r.now
        → HasPassed (reference_of run.now.p.now regions gated input run.now.t.now.steps) (taken_by d.now) n nodes.old g.old
        → HasPassed (reference_of run.now.p.now regions gated input run.now.t.now.steps) (taken_by d.now) (n + 1) nodes.new g.new) }
{
    let step = run.t.step(n);
    let x = run.p.instr(step.instr);
    let interval = interval_at(run.intervals, n);
    let s = StepAt {
        alloc,
        p: run.p,
        x,
        step: &step,
        d,
        r: run.r,
        n,
    };
    needs(&mut g.asked, nodes, &g.symbolic_nodes, &s)?;
    let at = TimedStep {
        step: &step,
        interval,
        r: run.r,
        n,
    };
    add_footprints(&mut g.footprints, &g.symbolic_nodes, &at)?;
    g.symbolic_nodes.step(nodes, &s)?;
    Ok(())
}

/// What is gathered over all steps.
fn gather(
    alloc: Global,
    nodes: &mut Nodes,
    run: &GivenRun,
    d: &DecisionSet,
) -> Result<Gathered, AllocError>
    requires given { AreGiven run.now.p.now run.now.t.now.steps run.now.intervals.now run.now.r.now }
    requires nodes { nodes.old ≡ [] }
    ensures order { IfOk result (λ g. InOrder g.footprints.kept.items) }
    ensures rows { IfOk result (λ g. AreRows g.footprints) }
    ensures named { IfOk result (λ g. AreNamed (length nodes.new) g.asked.checks.items) }
    ensures passed { IfOk result (λ g. (regions : Regions) (gated : List InstrId) (input : List ℤ)
        → HasLandmarks (reference_of run.now.p.now regions gated input run.now.t.now.steps) run.now.r.now
        → HasPassed (reference_of run.now.p.now regions gated input run.now.t.now.steps) (taken_by d.now) (length run.now.t.now.steps) nodes.new g) }
{
    let symbolic_nodes = SymbolicRun::start(alloc, nodes, run.p)?;
    let footprints = Footprints::new(alloc)?;
    let mut g = Gathered {
        symbolic_nodes,
        asked: Asked::new(alloc),
        footprints,
    };
    for n in 0..run.t.len() {
        pass_step(alloc, nodes, &mut g, run, d, n)?;
    }
    Ok(g)
}

/// What is missing, with what the footprints ask that are met.
fn all_missing(
    alloc: Global,
    mut missing: Vec<Decision>,
    footprints: &Footprints,
    d: &DecisionSet,
) -> Result<Vec<Decision>, AllocError>
    requires order { InOrder footprints.now.kept.items }
    requires rows { AreRows footprints.now }
    ensures { IfOk result (λ v. v.items ≡ missing.items
        ++ asks_of_met (taken_by d.now) (all_footprints footprints.now) (all_owners footprints.now) (map (is_met (all_footprints footprints.now)) (all_footprints footprints.now))) }
{
    let kept = footprints.kept.as_slice();
    let rows = footprints.rows.as_slice();
    let met = conflicts(alloc, kept)?;
    let marks = met.as_slice();
    ask_met(&mut missing, d, kept, rows, marks)?;
    Ok(missing)
}

/// What a pass gives, by what is gathered along it.
fn finished(alloc: Global, nodes: Nodes, g: Gathered, d: &DecisionSet) -> Result<Passed, AllocError>
    requires order { InOrder g.footprints.kept.items }
    requires rows { AreRows g.footprints }
    requires named { AreNamed (length nodes) g.asked.checks.items }
    ensures missing { IfOk result (λ s. s.missing.items ≡ g.asked.missing.items
        ++ asks_of_met (taken_by d.now) (all_footprints g.footprints) (all_owners g.footprints) (map (is_met (all_footprints g.footprints)) (all_footprints g.footprints))) }
    ensures admits { IfOk result (λ s. (input : List ℤ) → is_admitted input s.precondition ≡ all_hold nodes g.asked.checks.items input) }
    ensures needed { IfOk result (λ s. AreNeeded s.precondition) }
{
    let Gathered {
        asked,
        footprints,
        ..
    } = g;
    let precondition = precondition(alloc, nodes, asked.checks.as_slice())?;
    let missing = all_missing(alloc, asked.missing, &footprints, d)?;
    Ok(Passed {
        missing,
        precondition,
    })
}

/// A pass over a reference run under some decisions: the decisions that are missing, and what an input must give.
///
/// # Errors
///
/// Where no memory is left.
pub fn pass_over(alloc: Global, run: &GivenRun, d: &DecisionSet) -> Result<Passed, AllocError>
    requires given { AreGiven run.now.p.now run.now.t.now.steps run.now.intervals.now run.now.r.now }
    ensures missing { IfOk result (λ s. (regions : Regions) (gated : List InstrId) (input : List ℤ)
        → HasLandmarks (reference_of run.now.p.now regions gated input run.now.t.now.steps) run.now.r.now
        → (x : ADecision) → Contains s.missing.items x ↔ Contains (asks (reference_of run.now.p.now regions gated input run.now.t.now.steps) (taken_by d.now)) x) }
    ensures admits { IfOk result (λ s. (regions : Regions) (gated : List InstrId) (input other : List ℤ)
        → HasLandmarks (reference_of run.now.p.now regions gated input run.now.t.now.steps) run.now.r.now
        → is_admitted other s.precondition ≡ admits (reference_of run.now.p.now regions gated input run.now.t.now.steps) (taken_by d.now) other) }
    ensures needed { IfOk result (λ s. AreNeeded s.precondition) }
{
    let mut nodes = Nodes::new(alloc);
    let g = gather(alloc, &mut nodes, run, d)?;
    // In two lines for the proof: see docs/CONTRIBUTING.md.
    let passed = finished(alloc, nodes, g, d)?;
    Ok(passed)
}
