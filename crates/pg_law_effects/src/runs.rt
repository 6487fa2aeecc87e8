//! Runs as functions of the threads that step: each law is the clause of a function that does nothing.

ghost use Rattle.std.specs.Prelude.{◌≡◌, ◌↔◌, ◌++◌, ◌∷◌, ◌<◌, ℤ, List, Some, false, length};
ghost use Rattle.pg_num.specs.declared.layout.TheConstants.{GRANULE_COUNT};
ghost use Rattle.pg_ir.specs.declared.ids.InstrId.{InstrId};
ghost use Rattle.pg_ir.specs.Program.{NumberedProgram};
ghost use Rattle.pg_run.specs.pg_run_objects.Sync.{over};
ghost use Rattle.pg_run.specs.pg_run_trace.declared.step.Step.{Step};
ghost use Rattle.pg_run.specs.State.{State};
ghost use Rattle.pg_run.specs.Runs.{IsRun};
ghost use Rattle.pg_law_effects.specs.Effect.{effect, effect_of};
ghost use Rattle.pg_law_effects.specs.Meets.{AreApart};
ghost use Rattle.pg_law_effects.specs.StatesAlong.{after_effects, effects_of, run_of, state_after, threads_of};

/// Steps are a run to a state exactly where their threads, stepping one after another, take these steps and
/// leave this state.
pub fn a_run_is_told_by_its_threads()
    ensures { (gated : List InstrId) (p : NumberedProgram) (input : List ℤ) (s z : State) (xs : List Step) → IsRun gated p input s xs z
        ↔ (run_of gated p input s (threads_of xs) ≡ Some (record { steps = xs; state = z })) }
{}

/// Two runs of the same threads from one state have the same steps and leave the same state.
pub fn a_run_leaves_one_state()
    ensures steps { (gated : List InstrId) (p : NumberedProgram) (input : List ℤ) (s z w : State) (xs ys : List Step) → IsRun gated p input s xs z → IsRun gated p input s ys w
        → threads_of xs ≡ threads_of ys → (xs ≡ ys) × (z ≡ w) }
    ensures state { (gated : List InstrId) (p : NumberedProgram) (input : List ℤ) (s z : State) (xs : List Step) → IsRun gated p input s xs z → state_after gated p input s xs ≡ Some z }
{}

/// The state that a run leaves is what the effects of its steps leave, one after another.
pub fn a_run_has_its_effects()
    ensures { (gated : List InstrId) (p : NumberedProgram) (input : List ℤ) (s z : State) (xs : List Step) → IsRun gated p input s xs z
        → z ≡ after_effects s (effects_of p input s (threads_of xs)) }
{}

/// A run of two lists of steps is a run of the first, and from the state behind it one of the second.
pub fn runs_join()
    ensures { (gated : List InstrId) (p : NumberedProgram) (input : List ℤ) (s z : State) (xs ys : List Step) → IsRun gated p input s (xs ++ ys) z
        ↔ ((v : State) × IsRun gated p input s xs v × IsRun gated p input v ys z) }
{}

/// The first two steps of a run may change places where they are apart, the thread of the second was made, and
/// its step doesn't end the run.
pub fn first_steps_change_places()
    ensures { (gated : List InstrId) (p : NumberedProgram) (input : List ℤ) (s v : State) (x y : Step) (xs : List Step) → IsRun gated p input s (x ∷ y ∷ xs) v
        → AreApart (effect_of p input s x.thread.0) (effect_of p input s y.thread.0) → y.thread.0 < length s.locals → length s.memory ≡ GRANULE_COUNT
        → over (effect s (effect_of p input s y.thread.0)).sync ≡ false → IsRun gated p input s (y ∷ x ∷ xs) v }
{}
