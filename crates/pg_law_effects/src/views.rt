//! Steps on states that are seen as local states, cells and objects: each law is the clause of a function that does
//! nothing.

ghost use Rattle.std.specs.Prelude.{◌≡◌, ◌<◌, ℕ, ℤ, List, length, true};
ghost use Rattle.pg_ir.specs.declared.ids.InstrId.{InstrId};
ghost use Rattle.pg_ir.specs.Program.{NumberedProgram};
ghost use Rattle.pg_run.specs.pg_run_trace.declared.step.Step.{Step};
ghost use Rattle.pg_run.specs.State.{State};
ghost use Rattle.pg_run.specs.MachineStep.{Did, ready, step};
ghost use Rattle.pg_law_effects.specs.Effect.{effect_of};
ghost use Rattle.pg_law_effects.specs.Meets.{AgreeFor};
ghost use Rattle.pg_law_effects.specs.Reached.{IsReached};
ghost use Rattle.pg_law_effects.specs.Views.{AreLikeFor, LeadsTo};

/// A step changes its own thread's local state alone, each cell that it writes, and the objects as a request alone.
pub fn a_step_leads_to_what_it_writes()
    ensures { (gated : List InstrId) (p : NumberedProgram) (input : List ℤ) (s z : State) (t : ℕ) (x : Step) → IsReached p s → ready p s t ≡ true → step gated p input s t ≡ Did x z
        → LeadsTo (effect_of p input s t) s z }
{}

/// States that are alike in its thread's local state, in the cells that a step reads, and for a request in the objects,
/// agree on what the step depends on.
pub fn alike_states_agree()
    ensures { (p : NumberedProgram) (input : List ℤ) (s z : State) (t : ℕ) → IsReached p s → IsReached p z → t < length s.locals → AreLikeFor (effect_of p input s t) s z
        → AgreeFor (effect_of p input s t) s z }
{}
