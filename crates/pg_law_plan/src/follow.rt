//! Whole runs on an admitted input against a plan without instances: the law is the clause of a function that does nothing.

ghost use Rattle.std.specs.Prelude.{◌≡◌, ◌<◌, ◌^◌, ℤ, List, length, true};
ghost use Rattle.pg_law_threads.specs.Cuts.{kept};
ghost use Rattle.pg_law_threads.specs.Effects.{deeds, effects};
ghost use Rattle.pg_law_threads.specs.Intervals.{IsOrdered, did_of, turns_done};
ghost use Rattle.pg_law_threads.specs.Plans.{Alike, Follows, Moves, Performs};
ghost use Rattle.pg_law_runs.specs.Deeds.{owners_of};
ghost use Rattle.pg_run_trace.specs.declared.turn.Turn.{Turn};
ghost use Rattle.pg_slice_rules.specs.Closed.{IsClosed, admits};
ghost use Rattle.pg_slice_rules.specs.Known.{Taken};
ghost use Rattle.pg_law_plan.specs.Fits.{IsWithoutInstances};
ghost use Rattle.pg_law_plan.specs.Likes.{like};
ghost use Rattle.pg_law_plan.specs.Moves.{IsMove, RunDeed, RunState};
ghost use Rattle.pg_law_plan.specs.Order.{IsOrderedRun};
ghost use Rattle.pg_law_plan.specs.Units.{ExtentsArePlain, ReferenceRun, plan_of, plan_start, reference_of, turns_of};

/// Under closed decisions without instances, on an input that they admit, moves along the same threads' turns from a state that
/// is like the plan's first follow the plan: they are the units done by then, the same turns with the same replies, and the state that
/// they leave is like the one that these units leave. And of each two moves that meet at a cell that one of them writes, the one's
/// next turn stands before the other's last turn.
pub fn a_run_follows_the_plan()
    ensures { (r : ReferenceRun) (d : Taken) (input : List ℤ) (turns : List Turn) (s : RunState) (ds : List RunDeed)
        → IsOrderedRun r → ExtentsArePlain r d → IsWithoutInstances r d
        → IsClosed (reference_of r) d → admits (reference_of r) d input ≡ true → length input < 2 ^ 64 → owners_of turns ≡ turns_of r
        → Alike (like input) (plan_start r) s → Moves (IsMove r.gated r.program input turns) s 0 ds
        → (cut : Follows (like input) (turns_of r) (plan_start r) (plan_of r d) (turns_done deeds 0 ds) (effects s ds))
        × Performs (like input) (did_of (kept cut.marks)) ds × IsOrdered deeds (turns_of r) ds }
{}
