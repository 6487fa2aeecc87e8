//! What holds of recorded runs and of the guided runs along their schedules: each law is the clause of a function that does
//! nothing.
ghost use Rattle.std.specs.Prelude.{◌≡◌, ◌<◌, ℕ, ℤ, All, List, length, true};
ghost use Rattle.pg_ir.specs.declared.ids.InstrId.{InstrId};
ghost use Rattle.pg_ir.specs.Program.{NumberedProgram};
ghost use Rattle.pg_precondition.specs.Nodes.{Conditions};
ghost use Rattle.pg_precondition.specs.Values.{is_admitted};
ghost use Rattle.pg_run_trace.specs.declared.step.Step.{Step};
ghost use Rattle.pg_run_trace.specs.declared.turn.Turn.{Turn};
ghost use Rattle.pg_run_trace.specs.Races.{schedule_of};
ghost use Rattle.pg_run.specs.Follow.{Exits, following_of};
ghost use Rattle.pg_run.specs.Guided.{guided_of};
ghost use Rattle.pg_run.specs.State.{State, exit_value_of};
ghost use Rattle.pg_slice_rules.specs.Known.{Taken};
ghost use Rattle.pg_law_order.specs.pg_law_runs.Cuts.{CanRun};
ghost use Rattle.pg_law_order.specs.pg_law_runs.LastTurns.{IsRecorded};
ghost use Rattle.pg_session_entry.specs.Entries.{AreAlike, EntryParts, IsEntry, IsSliced};

use pg_law_order::permitted_runs::a_permitted_run_goes_on;
use pg_law_order::recorded::{
    a_recorded_run_is_ordered_up_to_its_last_turns, the_schedule_of_a_recorded_run_is_good,
};
use pg_law_own_input::reference_runs::a_reference_run_admits_its_own_input;
use pg_law_reference::fits::runs_fit;
use pg_law_reference::laws::regions_exist;
use pg_run::guided_laws::a_guided_run_is_permitted;

/// Following the schedule of a run that exits, it exits with the same value and prints the same.
pub fn the_schedule_of_a_recorded_run_is_followed()
    ensures { (p : NumberedProgram) (input : List ℤ) (xs : List Step) (z : State) → CanRun p input → IsRecorded p input xs z
        → following_of p input (schedule_of xs).turns (schedule_of xs).gated ≡ Exits (guided_of p input (schedule_of xs).turns (schedule_of xs).gated).trace z.printed (exit_value_of z) }
{
    the_schedule_of_a_recorded_run_is_good();
    a_recorded_run_is_ordered_up_to_its_last_turns();
    a_permitted_run_goes_on();
    a_guided_run_is_permitted();
}

/// The loads and stores that the schedule of a recorded run makes turns are instructions of the program.
pub fn races_are_at_instructions()
    ensures { (p : NumberedProgram) (input : List ℤ) (xs : List Step) (z : State) → CanRun p input → IsRecorded p input xs z
        → All (λ (g : InstrId). g.0 < length p.instrs) (schedule_of xs).gated }
{
    runs_fit();
}

/// Where a guided run exits, its input is admitted by the precondition of its slice.
pub fn the_own_input_is_admitted()
    ensures { (p : NumberedProgram) (input : List ℤ) (turns : List Turn) (gated : List InstrId) (steps : List Step) (printed : List ℕ) (value : ℤ) → CanRun p input
        → following_of p input turns gated ≡ Exits steps printed value → (d : Taken) (c : Conditions) → IsSliced p input gated steps d c → is_admitted input c ≡ true }
{
    a_reference_run_admits_its_own_input();
    regions_exist();
}

/// Two entries of one run have the same turns, replies and races, and admit the same inputs.
pub fn entries_of_one_run_are_alike()
    ensures { (p : NumberedProgram) (input : List ℤ) (xs : List Step) (z : State) (e k : EntryParts) → CanRun p input
        → IsEntry p input xs z e → IsEntry p input xs z k → AreAlike e k }
{}
