//! The schedule of a recorded run: each law is the clause of a function that does nothing.

ghost use Rattle.std.specs.Prelude.{◌≡◌, ℕ, ℤ, IsTrue, List, map, true};
ghost use Rattle.pg_ir.specs.declared.ids.InstrId.{InstrId};
ghost use Rattle.pg_ir.specs.Program.{NumberedProgram};
ghost use Rattle.pg_law_threads.specs.Intervals.{IsOrdered, owners};
ghost use Rattle.pg_run_trace.specs.declared.step.Step.{Step};
ghost use Rattle.pg_run_trace.specs.Races.{is_one_of, recorded, schedule_of, with_gated};
ghost use Rattle.pg_run.specs.State.{State, exit_value_of};
ghost use Rattle.pg_run.specs.Rotation.{rotation_of};
ghost use Rattle.pg_law_runs.specs.Cuts.{CanRun};
ghost use Rattle.pg_law_runs.specs.LastTurns.{IsRecorded};
ghost use Rattle.pg_law_order.specs.Schedules.{GuidesAs, IsOrderedUpTo};

use pg_run::Outcome;

/// Steps that are ordered along their events stay ordered where more loads and stores are events.
pub fn more_gates_keep_the_order()
    ensures { (gated more : List InstrId) (xs : List Step) → ((i : ℕ) → is_one_of gated i ≡ true → is_one_of more i ≡ true)
        → IsOrdered recorded (owners recorded (map (with_gated gated) xs)) (map (with_gated gated) xs)
        → IsOrdered recorded (owners recorded (map (with_gated more) xs)) (map (with_gated more) xs) }
{}

/// A run that exits is, up to each thread's last turn, an ordered full run along the schedule of its trace, and that
/// prints the same and exits with the same value.
pub fn a_recorded_run_is_ordered_up_to_its_last_turns()
    ensures { (p : NumberedProgram) (input : List ℤ) (xs : List Step) (z : State) → CanRun p input → IsRecorded p input xs z → IsOrderedUpTo p input (schedule_of xs) xs z }
{}

/// The guided run along the schedule of a run's trace exits with the same value, prints the same, is an ordered full
/// run, and does in each thread the run's steps up to its last turn.
pub fn the_schedule_of_a_recorded_run_is_good()
    ensures { (p : NumberedProgram) (input : List ℤ) (xs : List Step) (z : State) → CanRun p input → IsRecorded p input xs z → GuidesAs p input (schedule_of xs) xs z }
{}

/// A rotation run that exits is such a run.
pub fn the_schedule_of_a_rotation_run_is_good()
    ensures recorded { (p : NumberedProgram) (input : List ℤ) (q : ℕ) (value : ℤ) → (rotation_of p input q).end ≡ Outcome.Exit value
        → IsRecorded p input (rotation_of p input q).trace (rotation_of p input q).state × (value ≡ exit_value_of (rotation_of p input q).state) }
    ensures good { (p : NumberedProgram) (input : List ℤ) (q : ℕ) (value : ℤ) → CanRun p input → (rotation_of p input q).end ≡ Outcome.Exit value
        → GuidesAs p input (schedule_of (rotation_of p input q).trace) (rotation_of p input q).trace (rotation_of p input q).state }
{}
