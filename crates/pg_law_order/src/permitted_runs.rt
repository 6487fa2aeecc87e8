//! Runs along turns of which one full run is ordered: each law is the clause of a function that does nothing.

ghost use Rattle.std.specs.Prelude.{◌≡◌, ◌≤◌, ◌<◌, ◌⊎◌, ◌||◌, ◌∷◌, ℕ, ℤ, List, false, length, true};
ghost use Rattle.pg_ir.specs.declared.ids.InstrId.{InstrId};
ghost use Rattle.pg_ir.specs.Program.{NumberedProgram};
ghost use Rattle.pg_run_trace.specs.declared.step.Step.{Step};
ghost use Rattle.pg_run_trace.specs.declared.turn.Turn.{Turn};
ghost use Rattle.pg_run.specs.State.{State};
ghost use Rattle.pg_run.specs.Runs.{events};
ghost use Rattle.pg_run.specs.Permitted.{IsFull, IsPermitted, full_end, has_spent, traps, turns_left};
ghost use Rattle.pg_law_runs.specs.Cuts.{CanRun, CanStep, EndsAs, HasEndedAs, IsAtCut, IsOrderedAlong, IsOrderedFull};

/// Each permitted run stands at a cut of the ordered full run: each thread has done the first of its steps in that
/// run, with the same local states after them; the turns that are done are those below one number; and the state is
/// that which the steps that are done leave in that run's order.
pub fn a_permitted_run_stands_at_a_cut()
    ensures { (p : NumberedProgram) (input : List ℤ) (turns : List Turn) (gated : List InstrId) (full xs : List Step) (w z : State) → CanRun p input
        → IsOrderedFull p input turns gated full w → IsPermitted p input turns gated xs z → IsAtCut p input turns gated full xs z }
{}

/// Each permitted run is ordered.
pub fn a_permitted_run_is_ordered()
    ensures { (p : NumberedProgram) (input : List ℤ) (turns : List Turn) (gated : List InstrId) (full xs : List Step) (w z : State) → CanRun p input
        → IsOrderedFull p input turns gated full w → IsPermitted p input turns gated xs z → IsOrderedAlong turns xs }
{}

/// A permitted run isn't stuck: it is full, or it can be prolonged by a step. No permitted run has more steps than the
/// ordered full one, so prolonging it ends.
pub fn a_permitted_run_goes_on()
    ensures goes_on { (p : NumberedProgram) (input : List ℤ) (turns : List Turn) (gated : List InstrId) (full xs : List Step) (w z : State) → CanRun p input
        → IsOrderedFull p input turns gated full w → IsPermitted p input turns gated xs z → IsFull gated p turns xs z ⊎ ((t : ℕ) × CanStep p input turns gated xs t) }
    ensures ends { (p : NumberedProgram) (input : List ℤ) (turns : List Turn) (gated : List InstrId) (full xs : List Step) (w z : State) → CanRun p input
        → IsOrderedFull p input turns gated full w → IsPermitted p input turns gated xs z → length xs ≤ length full }
{}

/// The owner of the next turn can step where the ordered full run does this turn; and else, too, where its next action
/// doesn't trap and it has steps left.
pub fn the_owner_of_the_next_turn_can_step()
    ensures performed { (p : NumberedProgram) (input : List ℤ) (turns later : List Turn) (next : Turn) (gated : List InstrId) (full xs : List Step) (w z : State) → CanRun p input
        → IsOrderedFull p input turns gated full w → IsPermitted p input turns gated xs z → turns_left turns xs ≡ next ∷ later → length (events xs) < length (events full)
        → CanStep p input turns gated xs next.thread.0 }
    ensures free { (p : NumberedProgram) (input : List ℤ) (turns later : List Turn) (next : Turn) (gated : List InstrId) (full xs : List Step) (w z : State) → CanRun p input
        → IsOrderedFull p input turns gated full w → IsPermitted p input turns gated xs z → turns_left turns xs ≡ next ∷ later → traps p z next.thread.0 ≡ false
        → has_spent xs next.thread.0 ≡ false → CanStep p input turns gated xs next.thread.0 }
{}

/// A full permitted run ends as the ordered one: with the same state, and so with the same output, with the same events
/// and end, and in each thread with the same steps and the same local states after them.
pub fn a_full_run_ends_as_the_ordered_one()
    ensures { (p : NumberedProgram) (input : List ℤ) (turns : List Turn) (gated : List InstrId) (full xs : List Step) (w z : State) → CanRun p input
        → IsOrderedFull p input turns gated full w → IsPermitted p input turns gated xs z → IsFull gated p turns xs z → EndsAs p input turns full w xs z }
{}

/// Two full permitted runs along turns of which one full run is ordered end alike: with the same state, the same output
/// and the same end.
pub fn two_full_runs_end_alike()
    ensures { (p : NumberedProgram) (input : List ℤ) (turns : List Turn) (gated : List InstrId) (full xs ys : List Step) (w z v : State) → CanRun p input
        → IsOrderedFull p input turns gated full w → IsPermitted p input turns gated xs z → IsFull gated p turns xs z → IsPermitted p input turns gated ys v → IsFull gated p turns ys v
        → (z ≡ v) × (z.printed ≡ v.printed) × (full_end p turns xs z ≡ full_end p turns ys v) }
{}

/// A permitted run whose next turn's owner traps or has spent its steps has come as far as others see as the ordered full run: it
/// did the same turns, printed the same bytes, main has the same value, and it ends alike, whatever steps other threads still take.
pub fn a_held_run_has_ended()
    ensures { (p : NumberedProgram) (input : List ℤ) (turns later : List Turn) (next : Turn) (gated : List InstrId) (full xs : List Step) (w z : State) → CanRun p input
        → IsOrderedFull p input turns gated full w → IsPermitted p input turns gated xs z → turns_left turns xs ≡ next ∷ later
        → (traps p z next.thread.0 || has_spent xs next.thread.0) ≡ true → HasEndedAs p turns full w xs z }
{}
