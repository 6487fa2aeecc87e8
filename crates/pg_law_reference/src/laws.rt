//! What the laws on reference runs speak of is there for each program: each law is the clause of a function that does
//! nothing.

ghost use Rattle.pg_ir.specs.Program.{NumberedProgram};
ghost use Rattle.pg_ir.specs.WellFormed.{IsProgram};
ghost use Rattle.pg_ir.specs.declared.ids.InstrId.{InstrId};
ghost use Rattle.pg_slice_passes.specs.pg_law_effects.Reached.{HoldBytes};
ghost use Rattle.pg_law_instances.specs.References.{IsReferenceRun};
ghost use Rattle.pg_law_reference.specs.Sliceable.{CanBeSliced, HasItsLandmarks};
ghost use Rattle.pg_region.specs.Regions.{RegionOf};
ghost use Rattle.pg_region.specs.declared.region.Region.{Region};
ghost use Rattle.pg_region_accesses.specs.Accesses.{RootedList, is_gated};
ghost use Rattle.pg_region_summaries.specs.Summaries.{AreSummaries};
ghost use Rattle.pg_run.specs.Follow.{Exits, following_of};
ghost use Rattle.pg_run_trace.specs.declared.step.Step.{Step};
ghost use Rattle.pg_run_trace.specs.declared.turn.Turn.{Turn};
ghost use Rattle.pg_slice_passes.specs.Given.{EdgesStand};
ghost use Rattle.pg_slice_passes.specs.pg_slice_replay.OfRegions.{AreRegions};
ghost use Rattle.pg_slice_passes.specs.pg_slice_replay.declared.run.ReferenceRun.{ReferenceRun};
ghost use Rattle.pg_slice_passes.specs.pg_slice_rules.Freeable.{Regions};
ghost use Rattle.std.specs.Prelude.{◌≡◌, ◌<◌, ◌^◌, ℕ, ℤ, List, Bool, Option, length};

/// The functions of each program have summaries, whatever is gated.
pub fn summaries_exist()
    ensures { (p : NumberedProgram) (gated : ℕ → Bool) → IsProgram p → (sums : ℕ → Option RootedList) × AreSummaries p gated sums }
{}

/// Each function of a program has one summary.
pub fn a_function_has_one_summary()
    ensures { (p : NumberedProgram) (gated : ℕ → Bool) (sums others : ℕ → Option RootedList) → IsProgram p → AreSummaries p gated sums → AreSummaries p gated others
        → (f : ℕ) → f < length p.functions → sums f ≡ others f }
{}

/// By the summaries of a program's functions, the branch at the end of each block has its region, or has none.
pub fn a_branch_has_its_region()
    ensures { (p : NumberedProgram) (gated : ℕ → Bool) (sums : ℕ → Option RootedList) → IsProgram p → AreSummaries p gated sums → (c : ℕ)
        → (region : Option Region) × RegionOf p gated sums c region }
{}

/// The branches of each program have regions, by the summaries of its functions.
pub fn regions_exist()
    ensures { (p : NumberedProgram) (gated : ℕ → Bool) (sums : ℕ → Option RootedList) → IsProgram p → AreSummaries p gated sums → (regions : Regions) × AreRegions p gated sums regions }
{}

/// Where the guided run of a program along turns exits, it is a reference run, with summaries of the program's functions and
/// regions of its branches.
pub fn exiting_runs_are_reference_runs()
    ensures { (p : NumberedProgram) (input : List ℤ) (turns : List Turn) (gated : List InstrId) (xs : List Step) (printed : List ℕ) (value : ℤ) → IsProgram p → HoldBytes p.globals
        → length input < 2 ^ 64
        → following_of p input turns gated ≡ Exits xs printed value → (sums : ℕ → Option RootedList) × (regions : Regions) × IsReferenceRun p input turns gated sums regions xs }
{}

/// Where the guided run of a program along turns exits, its steps can be sliced.
pub fn exiting_runs_can_be_sliced()
    ensures { (p : NumberedProgram) (input : List ℤ) (turns : List Turn) (gated : List InstrId) (xs : List Step) (printed : List ℕ) (value : ℤ) → IsProgram p
        → HoldBytes p.globals → length input < 2 ^ 64 → following_of p input turns gated ≡ Exits xs printed value → CanBeSliced p input gated xs }
{}

/// Each edge of a replay leads to a block of the program.
pub fn replays_have_edges()
    ensures { (p : NumberedProgram) (input : List ℤ) (gated : List InstrId) (sums : ℕ → Option RootedList) (xs : List Step) (r : ReferenceRun) → IsProgram p
        → AreSummaries p (is_gated gated) sums
        → HasItsLandmarks p input gated sums xs r → EdgesStand p r }
{}
