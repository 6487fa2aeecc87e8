//! Steps of a run on an admitted input against the units of a plan: each law is the clause of a function that does nothing.

ghost use Rattle.std.specs.Prelude.{◌≡◌, ◌<◌, ◌^◌, ℕ, ℤ, List, false, length, true};
ghost use Rattle.pg_law_threads.specs.Plans.{Fits};
ghost use Rattle.pg_run_trace.specs.declared.turn.Turn.{Turn};
ghost use Rattle.pg_slice_rules.specs.Closed.{IsClosed, admits};
ghost use Rattle.pg_slice_rules.specs.Known.{Taken};
ghost use Rattle.pg_slice_rules.specs.Moments.{thread_in};
ghost use Rattle.pg_law_plan.specs.Fits.{IsAlikeFor};
ghost use Rattle.pg_law_plan.specs.Likes.{like};
ghost use Rattle.pg_law_plan.specs.Lists.{Has};
ghost use Rattle.pg_law_plan.specs.Moves.{IsMove, RunDeed, RunState};
ghost use Rattle.pg_law_plan.specs.Order.{IsOrderedRun};
ghost use Rattle.pg_law_plan.specs.Units.{ExtentsArePlain, PlanUnit, ReferenceRun, deed_of, is_instance, reference_of, units_of};

/// Under closed decisions, on an input that they admit, a step does what the unit that its thread is to do allows, where all
/// that the unit rests on is alike: the thread, the cells that it reads, and for an event the objects. It leaves a thread and
/// cells that are alike, the same objects, and is the same turn with the same reply. The unit is a single step, of whatever kind.
pub fn a_step_fits()
    ensures { (r : ReferenceRun) (d : Taken) (input : List ℤ) (turns : List Turn) (u : PlanUnit) (a : RunState) (g : ℕ) (e : RunDeed)
        → IsOrderedRun r → ExtentsArePlain r d → IsClosed (reference_of r) d → admits (reference_of r) d input ≡ true → length input < 2 ^ 64
        → Has (units_of r d) u → is_instance d u.seen ≡ false → IsMove r.gated r.program input turns a g e → IsAlikeFor input d u a → e.thread ≡ thread_in u.seen.moment
        → Fits (like input) (deed_of d u) e }
{}
