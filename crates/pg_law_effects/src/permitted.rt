//! Permitted runs one step at a time, and the full guided run: each law is the clause of a function that does nothing.

ghost use Rattle.std.specs.Prelude.{◌≡◌, ◌≢◌, ◌↔◌, ◌+◌, ◌++◌, ◌∷◌, [], ℕ, ℤ, List};
ghost use Rattle.pg_ir.specs.declared.ids.InstrId.{InstrId};
ghost use Rattle.pg_ir.specs.Program.{NumberedProgram};
ghost use Rattle.pg_run.specs.pg_run_trace.declared.turn.Turn.{Turn};
ghost use Rattle.pg_run.specs.pg_run_trace.declared.step.Step.{Step};
ghost use Rattle.pg_run.specs.State.{State, initial};
ghost use Rattle.pg_run.specs.Runs.{steps_of};
ghost use Rattle.pg_run.specs.Guided.{guided_of};
ghost use Rattle.pg_run.specs.FullGuided.{full_guided_of};
ghost use Rattle.pg_run.specs.Permitted.{IsFull, IsPermitted, full_end, turns_left};
ghost use Rattle.pg_law_effects.specs.PermittedSteps.{MayTake, PermittedSteps, none_taken};

use pg_run::GuidedEnd;

/// A run is permitted exactly where its steps may be taken one after another from the first state on: each thread
/// has a turn left and a step left, and an event is the next turn.
pub fn a_permitted_run_is_permitted_step_by_step()
    ensures { (p : NumberedProgram) (input : List ℤ) (turns : List Turn) (gated : List InstrId) (xs : List Step) (s : State) → IsPermitted p input turns gated xs s
        ↔ PermittedSteps gated p input (initial p) turns none_taken xs s }
{}

/// One list of steps behind another is permitted exactly where the first is, and the second is from the state, the
/// turns and the counts of steps that the first leaves.
pub fn permitted_steps_join()
    ensures { (gated : List InstrId) (p : NumberedProgram) (input : List ℤ) (s z : State) (us : List Turn) (counts : ℕ → ℕ) (xs ys : List Step)
        → PermittedSteps gated p input s us counts (xs ++ ys) z
        ↔ ((v : State) × PermittedSteps gated p input s us counts xs v × PermittedSteps gated p input v (turns_left us xs) (λ t. counts t + steps_of t xs) ys z) }
{}

/// A permitted run with one step more at its end is permitted exactly where this step may be taken in the state that
/// it leaves, with the turns that are left and by the steps that were taken.
pub fn a_permitted_run_may_take_a_step()
    ensures { (p : NumberedProgram) (input : List ℤ) (turns : List Turn) (gated : List InstrId) (xs : List Step) (x : Step) (z : State) → IsPermitted p input turns gated (xs ++ x ∷ []) z
        ↔ ((s : State) × IsPermitted p input turns gated xs s × ((m : MayTake gated p input s (turns_left turns xs) (λ t. steps_of t xs) x) × (m.takes.after ≡ z))) }
{}

/// The full guided run is a permitted run, and ends as the guided run does. Where that doesn't stray, it is full, and
/// its end is that of a full run.
pub fn a_full_guided_run_is_permitted_and_full()
    ensures permitted { (p : NumberedProgram) (input : List ℤ) (turns : List Turn) (gated : List InstrId)
        → IsPermitted p input turns gated (full_guided_of p input turns gated).trace (full_guided_of p input turns gated).state }
    ensures end { (p : NumberedProgram) (input : List ℤ) (turns : List Turn) (gated : List InstrId) → (full_guided_of p input turns gated).end ≡ (guided_of p input turns gated).end }
    ensures full { (p : NumberedProgram) (input : List ℤ) (turns : List Turn) (gated : List InstrId) → (guided_of p input turns gated).end ≢ GuidedEnd.Strayed
        → IsFull gated p turns (full_guided_of p input turns gated).trace (full_guided_of p input turns gated).state
        × (full_end p turns (full_guided_of p input turns gated).trace (full_guided_of p input turns gated).state ≡ (full_guided_of p input turns gated).end) }
{}
