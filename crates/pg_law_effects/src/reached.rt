//! What holds of each state that a run reaches: each law is the clause of a function that does nothing.

ghost use Rattle.std.specs.Prelude.{◌≡◌, ◌<◌, ◌^◌, ℕ, ℤ, List, length, true};
ghost use Rattle.pg_ir.specs.declared.ids.InstrId.{InstrId};
ghost use Rattle.pg_ir.specs.Program.{NumberedProgram};
ghost use Rattle.pg_ir.specs.WellFormed.{IsProgram};
ghost use Rattle.pg_run.specs.pg_run_trace.declared.step.Step.{Step};
ghost use Rattle.pg_run.specs.State.{State, initial};
ghost use Rattle.pg_run.specs.MachineStep.{Did, ready, step};
ghost use Rattle.pg_run.specs.Runs.{IsRun};
ghost use Rattle.pg_law_effects.specs.Reached.{HoldBytes, IsReached};

/// The first state of a program's run is one that runs reach, where its globals begin with bytes.
pub fn the_first_state_is_reached()
    ensures { (p : NumberedProgram) → IsProgram p → HoldBytes p.globals → IsReached p (initial p) }
{}

/// A step of a thread that is ready leads from a state that runs reach to one, where the input's length has 64 bits;
/// and so does a run.
pub fn a_step_stays_reached()
    ensures step { (gated : List InstrId) (p : NumberedProgram) (input : List ℤ) (s z : State) (t : ℕ) (x : Step) → IsProgram p → length input < 2 ^ 64 → IsReached p s
        → ready p s t ≡ true → step gated p input s t ≡ Did x z → IsReached p z }
    ensures run { (gated : List InstrId) (p : NumberedProgram) (input : List ℤ) (s z : State) (xs : List Step) → IsProgram p → length input < 2 ^ 64 → IsReached p s
        → IsRun gated p input s xs z → IsReached p z }
{}
