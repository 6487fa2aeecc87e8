//! What a slice asks of a run holds of every run: each law is the clause of a function that does nothing.

ghost use Rattle.std.specs.Prelude.{◌<◌, ◌^◌, ℤ, List, length};
ghost use Rattle.pg_slice_rules.specs.Known.{Reference};
ghost use Rattle.pg_slice_replay.specs.pg_law_effects.Reached.{HoldBytes};
ghost use Rattle.pg_ir.specs.Program.{NumberedProgram};
ghost use Rattle.pg_ir.specs.WellFormed.{IsProgram};
ghost use Rattle.pg_ir.specs.declared.ids.InstrId.{InstrId};
ghost use Rattle.pg_run.specs.Runs.{IsRun};
ghost use Rattle.pg_run.specs.State.{State, initial};
ghost use Rattle.pg_slice_replay.specs.declared.run.ReferenceRun.{ReferenceRun};
ghost use Rattle.pg_slice_passes.specs.Given.{AreSteps, EdgesStand, HasLandmarks};
ghost use Rattle.pg_run_trace.specs.declared.step.Step.{Step};

/// Each step of a run of a program is one of its instruction.
pub fn runs_fit()
    ensures { (gated : List InstrId) (p : NumberedProgram) (input : List ℤ) (z : State) (xs : List Step) → IsProgram p → HoldBytes p.globals → length input < 2 ^ 64
        → IsRun gated p input (initial p) xs z → AreSteps p xs }
{}

/// Each edge of a replay of a program's run leads to a block of the program.
pub fn edges_stand()
    ensures { (R : Reference) (r : ReferenceRun) → IsProgram R.program → HasLandmarks R r → EdgesStand R.program r }
{}
