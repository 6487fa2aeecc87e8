//! What holds of each prefix of the full guided run on an admitted input, in four parts: each law is the clause of a function that
//! does nothing.

ghost use Rattle.std.specs.Prelude.{◌≡◌, ◌++◌, ℕ, ℤ, List, Option};
ghost use Rattle.pg_ir.specs.Program.{NumberedProgram};
ghost use Rattle.pg_region_accesses.specs.Accesses.{RootedList};
ghost use Rattle.pg_run_trace.specs.declared.schedule.Schedule.{Schedule};
ghost use Rattle.pg_run_trace.specs.declared.step.Step.{Step};
ghost use Rattle.pg_run_trace.specs.declared.turn.Turn.{Turn};
ghost use Rattle.pg_run.specs.FullGuided.{full_guided_of};
ghost use Rattle.pg_run.specs.Runs.{IsRun};
ghost use Rattle.pg_run.specs.State.{State, initial};
ghost use Rattle.pg_slice_rules.specs.Freeable.{Regions};
ghost use Rattle.pg_slice_rules.specs.Known.{Taken};
ghost use Rattle.pg_law_plan.specs.pg_law_runs.Cuts.{IsOrderedAlong};
ghost use Rattle.pg_law_plan.specs.Units.{ReferenceRun};
ghost use Rattle.pg_law_admitted.specs.Invariant.{Invariant};
ghost use Rattle.pg_law_admitted.specs.Prefixes.{KeepsMemory, KeepsRegions, KeepsValues};
ghost use Rattle.pg_law_admitted.specs.Recorded.{Admits, IsOrderedReference, recording};

/// On an input that closed decisions on a recording admit, each prefix of the full guided run along the recording's schedule falls
/// into portions: each does one live step of the recording, from a state in which all is alike that this step rests on, or an
/// instance of a region, whole or in part; and these are done in the recording's order, but for what doesn't meet.
pub fn each_prefix_keeps_the_invariant()
    ensures { (p : NumberedProgram) (recorded input : List ℤ) (s : Schedule) (sums : ℕ → Option RootedList) (regions : Regions) (xs : List Step) (d : Taken) (front rest : List Step) (z : State)
        → IsOrderedReference p recorded s sums regions xs → Admits p recorded s regions xs d input
        → (full_guided_of p input s.turns s.gated).trace ≡ front ++ rest → IsRun s.gated p input (initial p) front z
        → Invariant (recording p recorded s regions xs) d input sums s.turns front z }
{}

/// Values: outside instances each thread has done a prefix of its live steps of the reference run, the same instructions in the
/// same order; and a register that is known before such a step has the number that its function gives on this input.
pub fn known_values_are_kept()
    ensures { (r : ReferenceRun) (d : Taken) (input : List ℤ) (sums : ℕ → Option RootedList) (turns : List Turn) (xs : List Step) (z : State)
        → (h : Invariant r d input sums turns xs z) → KeepsValues r d input h.portions }
{}

/// Memory: each byte that a live step may read, and so each that an exact load has read, was last written by the store that is its
/// source under the decisions, where that is exact or an event, and is initial where neither a store nor an instance is its source.
pub fn memory_is_from_its_sources()
    ensures { (r : ReferenceRun) (d : Taken) (input : List ℤ) (sums : ℕ → Option RootedList) (turns : List Turn) (xs : List Step) (z : State)
        → (h : Invariant r d input sums turns xs z) → KeepsMemory r d h.portions }
{}

/// Free regions: a thread that has a turn left and doesn't stand at its next live step is inside an instance. In each instance,
/// finished or not, its thread has done no event, and has read and written only within the recorded bounds.
pub fn free_regions_are_kept_to()
    ensures { (r : ReferenceRun) (d : Taken) (input : List ℤ) (sums : ℕ → Option RootedList) (turns : List Turn) (xs : List Step) (z : State)
        → (h : Invariant r d input sums turns xs z) → KeepsRegions r d input sums turns h.portions xs z }
{}

/// Order: each conflicting pair of accesses in the prefix is ordered.
pub fn a_prefix_is_ordered()
    ensures { (r : ReferenceRun) (d : Taken) (input : List ℤ) (sums : ℕ → Option RootedList) (turns : List Turn) (xs : List Step) (z : State)
        → Invariant r d input sums turns xs z → IsOrderedAlong turns xs }
{}
