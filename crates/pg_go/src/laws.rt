//! Which runs may be made ready: each law is the clause of a function that does nothing.

ghost use Rattle.std.specs.Prelude.{ℤ, List};
ghost use Rattle.pg_rounds.specs.pg_ir.Program.{NumberedProgram};
ghost use Rattle.pg_rounds.specs.pg_run_trace.declared.step.Step.{Step};
ghost use Rattle.pg_rounds.specs.pg_run_trace.Races.{schedule_of};
ghost use Rattle.pg_rounds.specs.pg_run.State.{State};
ghost use Rattle.pg_rounds.specs.pg_law_runs.Cuts.{CanRun};
ghost use Rattle.pg_rounds.specs.pg_law_runs.LastTurns.{IsRecorded};
ghost use Rattle.pg_rounds.specs.pg_law_order.Good.{IsGoodRun};

/// The full guided run along the schedule of a recorded run is good on the recorded run's own input.
pub fn a_recorded_run_is_good()
    ensures { (p : NumberedProgram) (input : List ℤ) (xs : List Step) (z : State) → CanRun p input → IsRecorded p input xs z → IsGoodRun p input (schedule_of xs) }
{}
