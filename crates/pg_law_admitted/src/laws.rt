//! An admitted input keeps the schedule: each law is the clause of a function that does nothing.

ghost use Rattle.std.specs.Prelude.{◌≡◌, ◌<◌, ◌^◌, ℕ, ℤ, List, Option, length, true};
ghost use Rattle.pg_ir.specs.declared.ids.InstrId.{InstrId};
ghost use Rattle.pg_ir.specs.Program.{NumberedProgram};
ghost use Rattle.pg_region_accesses.specs.Accesses.{RootedList};
ghost use Rattle.pg_law_threads.specs.Cuts.{kept};
ghost use Rattle.pg_law_threads.specs.Effects.{deeds, effects};
ghost use Rattle.pg_law_threads.specs.Intervals.{IsOrdered, did_of, turns_done};
ghost use Rattle.pg_law_threads.specs.Plans.{Alike, Fits, Follows, Moves, Performs};
ghost use Rattle.pg_run_trace.specs.declared.schedule.Schedule.{Schedule};
ghost use Rattle.pg_run_trace.specs.declared.step.Step.{Step};
ghost use Rattle.pg_run_trace.specs.declared.turn.Turn.{Turn};
ghost use Rattle.pg_run.specs.declared.guided_end.GuidedEnd.TheVariants as GuidedEnd;
ghost use Rattle.pg_run.specs.FullGuided.{full_guided_of};
ghost use Rattle.pg_run.specs.Permitted.{IsPermitted};
ghost use Rattle.pg_run.specs.State.{State};
ghost use Rattle.pg_law_effects.specs.Reached.{IsReached};
ghost use Rattle.pg_slice_rules.specs.Freeable.{Regions};
ghost use Rattle.pg_slice_rules.specs.Known.{Taken};
ghost use Rattle.pg_slice_rules.specs.Moments.{thread_in};
ghost use Rattle.pg_law_instances.specs.References.{IsReferenceRun};
ghost use Rattle.pg_law_order.specs.Good.{IsGoodRun, replies_of};
ghost use Rattle.pg_law_plan.specs.pg_law_runs.Cuts.{IsAtCut, IsFrontOf, IsOrderedAlong, IsOrderedFull};
ghost use Rattle.pg_law_plan.specs.Fits.{IsAlikeFor};
ghost use Rattle.pg_law_plan.specs.Likes.{like};
ghost use Rattle.pg_law_plan.specs.Lists.{Has};
ghost use Rattle.pg_law_plan.specs.Moves.{LooksTo, RunDeed, RunState, moved};
ghost use Rattle.pg_law_plan.specs.Units.{PlanUnit, deed_of, is_instance, plan_of, plan_start, turns_of, units_of};
ghost use Rattle.pg_law_admitted.specs.Covered.{QuietSetsAreCovered};
ghost use Rattle.pg_law_admitted.specs.Falls.{FallIntoMoves};
ghost use Rattle.pg_law_admitted.specs.Free.{BeginsInstance, IsAnyMove, IsPartMove, IsWholeMove, UnitsJoinAgain};
ghost use Rattle.pg_law_admitted.specs.Recorded.{Admits, IsOrderedReference, recording};
ghost use Rattle.pg_law_admitted.specs.Unbroken.{IsUnbroken};

/// On an input that closed decisions on a recording admit, the full guided run along the recording's schedule doesn't stray, is
/// ordered, ends by no trap of a check on the objects, and has at each turn that it does the schedule's reply.
pub fn an_admitted_input_has_a_good_run()
    ensures { (p : NumberedProgram) (recorded input : List ℤ) (s : Schedule) (sums : ℕ → Option RootedList) (regions : Regions) (xs : List Step) (d : Taken)
        → IsOrderedReference p recorded s sums regions xs → Admits p recorded s regions xs d input → IsGoodRun p input s }
{}

/// In a reference run the thread of a branch step that is left free comes to the join of its region, in the branch's call, and its
/// next unit begins there.
pub fn a_reference_run_joins_again()
    ensures { (p : NumberedProgram) (input : List ℤ) (turns : List Turn) (gated : List InstrId) (sums : ℕ → Option RootedList) (regions : Regions) (xs : List Step) (d : Taken)
        → IsReferenceRun p input turns gated sums regions xs
        → UnitsJoinAgain (record { program = p; input = input; gated = gated; regions = regions; steps = xs }) sums d }
{}

/// Of each path by which a quiet set of blocks accesses memory, what it loads last is itself one of the set's accesses, which reads:
/// so all that paths load lies where the set reads.
pub fn quiet_sets_are_covered()
    ensures { QuietSetsAreCovered }
{}

/// On an admitted input a thread whose next unit is a branch step that is left free, and for which all is alike that the unit
/// rests on, stands at that branch, and the region's paths lead from there where they were recorded to lead: its steps from
/// there on stay within the region as it was recorded.
pub fn a_free_branch_begins_an_instance()
    ensures { (p : NumberedProgram) (recorded input : List ℤ) (s : Schedule) (sums : ℕ → Option RootedList) (regions : Regions) (xs : List Step) (d : Taken) (u : PlanUnit) (a : RunState)
        (z : State) (moves : ℕ → ℕ)
        → IsOrderedReference p recorded s sums regions xs → Admits p recorded s regions xs d input
        → Has (units_of (recording p recorded s regions xs) d) u → is_instance d u.seen ≡ true → IsAlikeFor input d u a → LooksTo (thread_in u.seen.moment) a (moved z moves)
        → IsReached p z
        → BeginsInstance (recording p recorded s regions xs) sums u z }
{}

/// A move of a whole instance fits its unit: from its branch to the region's join a thread does what the unit allows, where all is
/// alike that the unit rests on. It leaves the thread alike, touches and writes no more cells, and is no event.
pub fn a_whole_instance_fits()
    ensures { (p : NumberedProgram) (recorded input : List ℤ) (s : Schedule) (sums : ℕ → Option RootedList) (regions : Regions) (xs : List Step) (d : Taken) (u : PlanUnit) (a : RunState)
        (g : ℕ) (e : RunDeed)
        → IsOrderedReference p recorded s sums regions xs
        → length input < 2 ^ 64 → Has (units_of (recording p recorded s regions xs) d) u → is_instance d u.seen ≡ true → IsAlikeFor input d u a
        → IsWholeMove (recording p recorded s regions xs) input sums s.turns u a g e → Fits (like input) (deed_of d u) e }
{}

/// And so does a part of an instance, behind which the thread takes no more steps: wherever it is left, it has touched and written
/// no more cells, and is no event.
pub fn a_part_of_an_instance_fits()
    ensures { (p : NumberedProgram) (recorded input : List ℤ) (s : Schedule) (sums : ℕ → Option RootedList) (regions : Regions) (xs : List Step) (d : Taken) (u : PlanUnit) (a : RunState)
        (g : ℕ) (e : RunDeed)
        → IsOrderedReference p recorded s sums regions xs → Has (units_of (recording p recorded s regions xs) d) u → is_instance d u.seen ≡ true → IsAlikeFor input d u a
        → IsPartMove (recording p recorded s regions xs) input sums s.turns u a g e → Fits (like input) (deed_of d u) e }
{}

/// On an input that closed decisions on a recording admit, moves along its turns follow the recording's plan: each a single step,
/// or an instance, whole or as a thread's last move a part of it, where the thread's next unit is a branch step that is left free.
/// They are the units done by then, the same turns with the same replies, and leave a state that is like the one that these units
/// leave; and of each two moves that meet at a cell that one of them writes, the one's next turn stands before the other's last
/// turn.
pub fn moves_follow_the_plan()
    ensures { (p : NumberedProgram) (recorded input : List ℤ) (s : Schedule) (sums : ℕ → Option RootedList) (regions : Regions) (xs : List Step) (d : Taken) (a : RunState) (ds : List RunDeed)
        → IsOrderedReference p recorded s sums regions xs → Admits p recorded s regions xs d input
        → Alike (like input) (plan_start (recording p recorded s regions xs)) a → Moves (IsAnyMove (recording p recorded s regions xs) d input sums s.turns) a 0 ds
        → (cut : Follows (like input) (turns_of (recording p recorded s regions xs)) (plan_start (recording p recorded s regions xs)) (plan_of (recording p recorded s regions xs) d)
        (turns_done deeds 0 ds) (effects a ds))
        × Performs (like input) (did_of (kept cut.marks)) ds × IsOrdered deeds (turns_of (recording p recorded s regions xs)) ds }
{}

/// In a full guided run a thread that has taken a step that is no event goes on, or takes no more steps: so what it does between
/// two events is one stretch of the run.
pub fn full_guided_runs_are_unbroken()
    ensures { (p : NumberedProgram) (input : List ℤ) (turns : List Turn) (gated : List InstrId) → IsUnbroken (full_guided_of p input turns gated).trace }
{}

/// On an input that closed decisions on a recording admit, the steps of the full guided run along the recording's schedule fall into
/// moves: each a single step, or where the thread's next unit is a branch step that is left free an instance, whole or as the
/// thread's last move a part of it.
pub fn a_full_guided_run_falls_into_moves()
    ensures { (p : NumberedProgram) (recorded input : List ℤ) (s : Schedule) (sums : ℕ → Option RootedList) (regions : Regions) (xs : List Step) (d : Taken)
        → IsOrderedReference p recorded s sums regions xs → Admits p recorded s regions xs d input
        → FallIntoMoves (recording p recorded s regions xs) d input sums s.turns (full_guided_of p input s.turns s.gated).trace }
{}

/// That run is ordered, and has at each turn that it does the schedule's reply.
pub fn an_admitted_input_keeps_order_and_replies()
    ensures { (p : NumberedProgram) (recorded input : List ℤ) (s : Schedule) (sums : ℕ → Option RootedList) (regions : Regions) (xs : List Step) (d : Taken)
        → IsOrderedReference p recorded s sums regions xs → Admits p recorded s regions xs d input
        → IsOrderedAlong s.turns (full_guided_of p input s.turns s.gated).trace × IsFrontOf (replies_of (full_guided_of p input s.turns s.gated).trace) s.replies }
{}

/// That run is an ordered full run, and where it exits it has had each of the schedule's replies. So each permitted run along the
/// schedule's turns stands at a cut of it, and is ordered.
pub fn an_admitted_input_has_an_ordered_full_run()
    ensures full { (p : NumberedProgram) (recorded input : List ℤ) (s : Schedule) (sums : ℕ → Option RootedList) (regions : Regions) (xs : List Step) (d : Taken)
        → IsOrderedReference p recorded s sums regions xs → Admits p recorded s regions xs d input
        → IsOrderedFull p input s.turns s.gated (full_guided_of p input s.turns s.gated).trace (full_guided_of p input s.turns s.gated).state }
    ensures permitted { (p : NumberedProgram) (recorded input : List ℤ) (s : Schedule) (sums : ℕ → Option RootedList) (regions : Regions) (xs : List Step) (d : Taken) (ys : List Step)
        (z : State)
        → IsOrderedReference p recorded s sums regions xs → Admits p recorded s regions xs d input → IsPermitted p input s.turns s.gated ys z
        → IsAtCut p input s.turns s.gated (full_guided_of p input s.turns s.gated).trace ys z × IsOrderedAlong s.turns ys }
    ensures exits { (p : NumberedProgram) (recorded input : List ℤ) (s : Schedule) (sums : ℕ → Option RootedList) (regions : Regions) (xs : List Step) (d : Taken) (value : ℤ)
        → IsOrderedReference p recorded s sums regions xs → Admits p recorded s regions xs d input → (full_guided_of p input s.turns s.gated).end ≡ GuidedEnd.Exit value
        → replies_of (full_guided_of p input s.turns s.gated).trace ≡ s.replies }
{}
