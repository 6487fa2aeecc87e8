//! The plan of a reference run: each law is the clause of a function that does nothing.

ghost use Rattle.std.specs.Prelude.{◌≡◌, map};
ghost use Rattle.pg_law_threads.specs.Effects.{deeds};
ghost use Rattle.pg_law_threads.specs.Intervals.{AreTurns, times};
ghost use Rattle.pg_law_threads.specs.Plans.{IsPlan};
ghost use Rattle.pg_slice_rules.specs.Closed.{IsClosed};
ghost use Rattle.pg_slice_rules.specs.Known.{Taken};
ghost use Rattle.pg_law_plan.specs.Order.{IsOrderedRun, interval_of, interval_seen};
ghost use Rattle.pg_law_plan.specs.Units.{ExtentsArePlain, ReferenceRun, plan_of, reference_of, turns_of, units_of};

/// The events among the units are all the turns of the run, in order, and each unit has among them the interval that its
/// step has in the run: no event lies in an instance.
pub fn units_are_turns()
    ensures turns { (r : ReferenceRun) (d : Taken) → ExtentsArePlain r d → AreTurns deeds (turns_of r) 0 (plan_of r d) }
    ensures intervals { (r : ReferenceRun) (d : Taken) → ExtentsArePlain r d → map interval_of (times deeds (turns_of r) 0 (plan_of r d)) ≡ map interval_seen (units_of r d) }
{}

/// The units of an ordered run under closed decisions are a plan: of two units of different threads that may touch one cell,
/// one of them to write it, the one's next turn stands before the other's last turn.
pub fn units_are_ordered()
    ensures { (r : ReferenceRun) (d : Taken) → IsOrderedRun r → IsClosed (reference_of r) d → ExtentsArePlain r d → IsPlan deeds (turns_of r) (plan_of r d) }
{}
