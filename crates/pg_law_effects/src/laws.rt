//! What a step of the machine does: each law is the clause of a function that does nothing.

ghost use Rattle.std.specs.Prelude.{◌≡◌, ℕ, ◌<◌, ℤ, List, is_some, length};
ghost use Rattle.pg_ir.specs.declared.ids.InstrId.{InstrId};
ghost use Rattle.pg_ir.specs.Program.{NumberedProgram};
ghost use Rattle.pg_run.specs.State.{State};
ghost use Rattle.pg_num.specs.declared.layout.TheConstants.{GRANULE_COUNT};
ghost use Rattle.pg_run.specs.pg_run_objects.Sync.{over};
ghost use Rattle.pg_run.specs.pg_run_trace.declared.step.Step.{Step};
ghost use Rattle.pg_run.specs.pg_run_trace.Steps.{access_of};
ghost use Rattle.pg_run.specs.MachineStep.{Did, ready, step};
ghost use Rattle.pg_run.specs.Locality.{IfDid};
ghost use Rattle.pg_law_effects.specs.Effect.{Effect, effect, effect_of};
ghost use Rattle.pg_law_effects.specs.Meets.{AgreeFor, AreApart};
ghost use Rattle.pg_law_effects.specs.Places.{ChangePlaces};
ghost use Rattle.pg_law_effects.specs.Told.{TellsAccess, asks, tells};

/// The state after a step that was done is the effect of the step on the state before it.
pub fn a_step_has_its_effect()
    ensures { (gated : List InstrId) (p : NumberedProgram) (input : List ℤ) (s : State) (t : ℕ) → IfDid (step gated p input s t) (λ x z. z ≡ effect s (effect_of p input s t)) }
{}

/// What a step tells of its access is what its effect reads or writes of memory, and it tells an event of another
/// kind exactly where its effect is that of a request.
pub fn a_step_tells_its_effect()
    ensures access { (gated : List InstrId) (p : NumberedProgram) (input : List ℤ) (s : State) (t : ℕ)
        → IfDid (step gated p input s t) (λ x z. TellsAccess (access_of x) (effect_of p input s t)) }
    ensures request { (gated : List InstrId) (p : NumberedProgram) (input : List ℤ) (s : State) (t : ℕ)
        → IfDid (step gated p input s t) (λ x z. asks x.kind ≡ is_some (effect_of p input s t).request) }
{}

/// A step depends on its thread's local state, on the bytes and the word that it reads, and, where it is a
/// request, on the objects: two states that agree on these give the same effect, and the same step or the
/// same trap.
pub fn a_step_depends_on_what_it_reads()
    ensures effects { (p : NumberedProgram) (input : List ℤ) (s z : State) (t : ℕ) → AgreeFor (effect_of p input s t) s z → effect_of p input s t ≡ effect_of p input z t }
    ensures steps { (gated : List InstrId) (p : NumberedProgram) (input : List ℤ) (s z : State) (t : ℕ) → AgreeFor (effect_of p input s t) s z
        → tells (step gated p input s t) ≡ tells (step gated p input z t) }
{}

/// Effects of two threads that were made, which meet at no byte and aren't both those of requests, may change
/// places.
pub fn effects_apart_change_places()
    ensures { (s : State) (e f : Effect) → AreApart e f → e.thread < length s.locals → f.thread < length s.locals → effect (effect s e) f ≡ effect (effect s f) e }
{}

/// The step of one thread leaves what the step of another depends on, where the two are apart. So this tells the
/// same behind it, and is ready behind it exactly where it was, but for a step that ends the run.
pub fn a_step_apart_leaves_what_another_depends_on()
    ensures agrees { (p : NumberedProgram) (input : List ℤ) (s : State) (t u : ℕ) → AreApart (effect_of p input s t) (effect_of p input s u) → u < length s.locals
        → length s.memory ≡ GRANULE_COUNT
        → AgreeFor (effect_of p input s u) s (effect s (effect_of p input s t)) }
    ensures readiness { (p : NumberedProgram) (input : List ℤ) (s z : State) (u : ℕ) → AgreeFor (effect_of p input s u) s z → over z.sync ≡ over s.sync → ready p z u ≡ ready p s u }
{}

/// Steps of two threads that were made, which meet at no byte and aren't both requests, may change places: in
/// both orders they tell the same and leave the same state.
pub fn steps_apart_change_places()
    ensures { (gated : List InstrId) (p : NumberedProgram) (input : List ℤ) (s z w : State) (t u : ℕ) (x y : Step) → step gated p input s t ≡ Did x z → step gated p input s u ≡ Did y w
        → AreApart (effect_of p input s t) (effect_of p input s u) → t < length s.locals → u < length s.locals → length s.memory ≡ GRANULE_COUNT → ChangePlaces gated p input t u x y z w }
{}
