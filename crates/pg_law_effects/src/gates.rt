//! Steps and runs with other gates: each law is the clause of a function that does nothing.

ghost use Rattle.std.specs.Prelude.{◌≡◌, ℕ, ℤ, List, map};
ghost use Rattle.pg_ir.specs.declared.ids.InstrId.{InstrId};
ghost use Rattle.pg_ir.specs.Program.{NumberedProgram};
ghost use Rattle.pg_run.specs.pg_run_trace.declared.step.Step.{Step};
ghost use Rattle.pg_run.specs.State.{State, initial};
ghost use Rattle.pg_run.specs.MachineStep.{step};
ghost use Rattle.pg_run.specs.Rotation.{rotation_of};
ghost use Rattle.pg_run.specs.Runs.{IsRun};
ghost use Rattle.pg_law_effects.specs.Gates.{gated_as, with_gates};

/// Which loads and stores are events changes nothing but how a step is told.
pub fn a_step_is_the_same_with_other_gates()
    ensures { (gated other : List InstrId) (p : NumberedProgram) (input : List ℤ) (s : State) (t : ℕ) → step gated p input s t ≡ gated_as gated (step other p input s t) }
{}

/// A run is one with other gates, told with them; so the rotation run is a run along its hybrid turns.
pub fn a_run_is_one_with_other_gates()
    ensures runs { (gated other : List InstrId) (p : NumberedProgram) (input : List ℤ) (s z : State) (xs : List Step) → IsRun other p input s xs z
        → IsRun gated p input s (map (with_gates gated) xs) z }
    ensures rotations { (gated : List InstrId) (p : NumberedProgram) (input : List ℤ) (q : ℕ)
        → IsRun gated p input (initial p) (map (with_gates gated) (rotation_of p input q).trace) (rotation_of p input q).state }
{}
