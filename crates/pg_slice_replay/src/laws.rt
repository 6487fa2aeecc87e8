//! What holds of reference runs: each law is the clause of a function that does nothing.

ghost use Rattle.std.specs.Prelude.{◌≡◌, ℕ, ℤ, List};
ghost use Rattle.pg_ir.specs.declared.ids.InstrId.{InstrId};
ghost use Rattle.pg_ir.specs.Program.{NumberedProgram};
ghost use Rattle.pg_run_trace.specs.declared.step.Step.{Step};
ghost use Rattle.pg_run_trace.specs.declared.turn.Turn.{Turn};
ghost use Rattle.pg_law_effects.specs.pg_run.Follow.{Exits, following_of};
ghost use Rattle.pg_law_effects.specs.pg_run.Guided.{guided_of};
ghost use Rattle.pg_law_effects.specs.pg_run.Runs.{IsRun};
ghost use Rattle.pg_law_effects.specs.pg_run.State.{initial};

/// Where following a schedule exits, its steps are a run of the machine from the first state on.
pub fn a_followed_run_is_a_run()
    ensures { (p : NumberedProgram) (input : List ℤ) (turns : List Turn) (gated : List InstrId) (xs : List Step) (output : List ℕ) (value : ℤ)
        → following_of p input turns gated ≡ Exits xs output value → IsRun gated p input (initial p) xs (guided_of p input turns gated).state }
{}
