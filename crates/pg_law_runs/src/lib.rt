//! Runs of the machine as runs of threads that share cells and objects: each law is the clause of a function that does
//! nothing.
// How goals are searched for: see docs/CONTRIBUTING.md.
#![tactic(auto)]

ghost use Rattle.std.specs.Prelude.{◌≡◌, ◌++◌, ◌∷◌, [], ℕ, ℤ, List};
ghost use Rattle.pg_ir.specs.declared.ids.InstrId.{InstrId};
ghost use Rattle.pg_ir.specs.Program.{NumberedProgram};
ghost use Rattle.pg_law_threads.specs.Effects.{Same, effects};
ghost use Rattle.pg_law_threads.specs.Machines.{AreDetermined};
ghost use Rattle.pg_law_threads.specs.Machines as machines;
ghost use Rattle.pg_run_trace.specs.declared.step.Step.{Step};
ghost use Rattle.pg_run_trace.specs.declared.turn.Turn.{Turn};
ghost use Rattle.pg_run.specs.State.{State, initial};
ghost use Rattle.pg_run.specs.Runs.{steps_of};
ghost use Rattle.pg_run.specs.Permitted.{IsFull, IsPermitted};
ghost use Rattle.pg_law_effects.specs.PermittedSteps.{none_taken};
ghost use Rattle.pg_law_effects.specs.Reached.{IsReached};
ghost use Rattle.pg_law_runs.specs.Cuts.{CanRun};
ghost use Rattle.pg_law_runs.specs.Deeds.{Does, deeds_of, owners_of, rules, seen};

/// What a step does rests on its thread's local state, on the cells that it reads, and, where it is an event, on the
/// objects and the printed bytes.
pub fn a_step_is_determined()
    ensures { (gated : List InstrId) (p : NumberedProgram) (input : List ℤ) → AreDetermined (rules gated p) (Does gated p input) }
{}

/// A permitted run of the machine is a permitted run of what its steps do, along the threads that own the turns; and
/// these leave what is seen of its last state.
pub fn a_permitted_run_is_one_of_deeds()
    ensures permitted { (p : NumberedProgram) (input : List ℤ) (turns : List Turn) (gated : List InstrId) (xs : List Step) (z : State) → CanRun p input → IsPermitted p input turns gated xs z
        → machines.IsPermitted (rules gated p) (Does gated p input) (owners_of turns) (seen (initial p) none_taken) 0 (deeds_of p input (initial p) none_taken xs) }
    ensures leaves { (p : NumberedProgram) (input : List ℤ) (turns : List Turn) (gated : List InstrId) (xs : List Step) (z : State) → CanRun p input → IsPermitted p input turns gated xs z
        → Same (effects (seen (initial p) none_taken) (deeds_of p input (initial p) none_taken xs)) (seen z (λ t. steps_of t xs)) }
{}

/// A full run can't be prolonged.
pub fn a_full_run_is_maximal()
    ensures { (p : NumberedProgram) (input : List ℤ) (turns : List Turn) (gated : List InstrId) (xs : List Step) (x : Step) (z w : State) → CanRun p input
        → IsPermitted p input turns gated xs z → IsFull gated p turns xs z
        → IsPermitted p input turns gated (xs ++ x ∷ []) w → ⊥ }
{}

/// Two states that runs reach and in which the same is seen are equal.
pub fn states_that_look_alike_are_equal()
    ensures { (p : NumberedProgram) (s z : State) (m n : ℕ → ℕ) → IsReached p s → IsReached p z → Same (seen s m) (seen z n) → s ≡ z }
{}
