//! Guided runs along turns of which one full run is ordered: each law is the clause of a function that does nothing.

ghost use Rattle.std.specs.Prelude.{◌≡◌, ◌≢◌, ◌≤◌, ℤ, List, false, length};
ghost use Rattle.pg_ir.specs.declared.ids.InstrId.{InstrId};
ghost use Rattle.pg_ir.specs.Program.{NumberedProgram};
ghost use Rattle.pg_run_trace.specs.declared.step.Step.{Step};
ghost use Rattle.pg_run_trace.specs.declared.turn.Turn.{Turn};
ghost use Rattle.pg_run.specs.State.{State};
ghost use Rattle.pg_run.specs.Guided.{guided_of};
ghost use Rattle.pg_run.specs.FullGuided.{full_guided_of};
ghost use Rattle.pg_run.specs.Runs.{events};
ghost use Rattle.pg_run.specs.Permitted.{full_end};
ghost use Rattle.pg_law_runs.specs.Cuts.{CanRun, EndsAs, IsOrderedFull};

use pg_run::GuidedEnd;

/// The full guided run along the turns, where it doesn't stray, ends as the ordered full run: with the same state, the
/// same output and the same end.
pub fn the_full_guided_run_ends_as_the_ordered_one()
    ensures run { (p : NumberedProgram) (input : List ℤ) (turns : List Turn) (gated : List InstrId) (full : List Step) (w : State) → CanRun p input
        → IsOrderedFull p input turns gated full w → (guided_of p input turns gated).end ≢ GuidedEnd.Strayed
        → EndsAs p input turns full w (full_guided_of p input turns gated).trace (full_guided_of p input turns gated).state }
    ensures end { (p : NumberedProgram) (input : List ℤ) (turns : List Turn) (gated : List InstrId) (full : List Step) (w : State) → CanRun p input
        → IsOrderedFull p input turns gated full w → (guided_of p input turns gated).end ≢ GuidedEnd.Strayed
        → (guided_of p input turns gated).end ≡ full_end p turns full w }
{}

/// A guided run strays, if at all, behind the turns that the ordered full run does.
pub fn a_guided_run_strays_late()
    ensures { (p : NumberedProgram) (input : List ℤ) (turns : List Turn) (gated : List InstrId) (full : List Step) (w : State) → CanRun p input
        → IsOrderedFull p input turns gated full w → (guided_of p input turns gated).end ≡ GuidedEnd.Strayed → length (events full) ≤ (guided_of p input turns gated).turns }
{}
