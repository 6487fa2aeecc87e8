//! Schedules that serve an input: each law is the clause of a function that does nothing.

ghost use Rattle.std.specs.Prelude.{◌≡◌, ◌≢◌, ℕ, ℤ, List, true};
ghost use Rattle.pg_ir.specs.Program.{NumberedProgram};
ghost use Rattle.pg_run_trace.specs.declared.schedule.Schedule.{Schedule};
ghost use Rattle.pg_run.specs.Follow.{Strays, following_of};
ghost use Rattle.pg_run.specs.Runs.{events};
ghost use Rattle.pg_law_runs.specs.Cuts.{CanRun, IsOrderedFull};
ghost use Rattle.pg_law_order.specs.Good.{IsGoodRun, run_along};
ghost use Rattle.pg_law_order.specs.Served.{IsServed, guided_along};

use pg_run::GuidedEnd;

/// Where the full guided run along a schedule is good, it is a run that the schedule's turns permit, full and ordered.
pub fn a_good_run_is_an_ordered_full_run()
    ensures { (p : NumberedProgram) (input : List ℤ) (s : Schedule) → IsGoodRun p input s
        → IsOrderedFull p input s.turns s.gated (run_along p input s).trace (run_along p input s).state }
{}

/// Where the full guided run along a schedule is good, the schedule serves the input: each run that its turns permit stands at a
/// cut of the full guided run, is ordered, has the schedule's replies and isn't stuck, and where it is full prints and ends as
/// the guided run.
pub fn a_good_run_serves()
    ensures { (p : NumberedProgram) (input : List ℤ) (s : Schedule) → CanRun p input → IsGoodRun p input s → IsServed p input s }
{}

/// Where a schedule serves an input, following its turns never strays.
pub fn what_is_served_does_not_stray()
    ensures end { (p : NumberedProgram) (input : List ℤ) (s : Schedule) → IsServed p input s → (guided_along p input s).end ≢ GuidedEnd.Strayed }
    ensures follows { (p : NumberedProgram) (input : List ℤ) (s : Schedule) → IsServed p input s → (k : ℕ) → following_of p input s.turns s.gated ≢ Strays k }
{}

/// A guided run that exits has done all turns.
pub fn a_guided_run_that_exits_has_all_turns()
    ensures { (p : NumberedProgram) (input : List ℤ) (s : Schedule) (value : ℤ) → (guided_along p input s).end ≡ GuidedEnd.Exit value → events (guided_along p input s).trace ≡ s.turns }
{}
