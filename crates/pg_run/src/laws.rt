//! What holds of each step of the machine and of each run: each law is the clause of a function that does nothing.

ghost use Rattle.std.specs.Prelude.{◌≡◌, ℕ, ◌<◌, ℤ, List, [], length, false, slice_get};
ghost use Rattle.pg_run_trace.specs.pg_ir.declared.ids.InstrId.{InstrId};
ghost use Rattle.pg_run_trace.specs.pg_ir.Program.{NumberedProgram};
ghost use Rattle.pg_run.specs.State.{State, initial, next_of};
ghost use Rattle.pg_run.specs.MachineStep.{step, turn_of};
ghost use Rattle.pg_run.specs.Recordings.{IsRecording};
ghost use Rattle.pg_run.specs.Rotation.{rotation_of};
ghost use Rattle.pg_run.specs.Locality.{Agree, AreAlike, AsTold, IfDid, LeavesRest, is_request};
ghost use Rattle.pg_run.specs.Runs.{IsRun};
ghost use Rattle.pg_run_trace.specs.Steps.{access_of, event_of};

/// A step changes the local state of its own thread alone, of those that were made.
pub fn a_step_is_of_one_thread()
    ensures { (gated : List InstrId) (p : NumberedProgram) (input : List ℤ) (s : State) (t u : ℕ) → (u ≡ t → ⊥) → u < length s.locals
        → IfDid (step gated p input s t) (λ x z. slice_get z.locals u ≡ slice_get s.locals u) }
{}

/// A step reads and changes memory as its access tells, or leaves it; a step that asks nothing of other
/// threads leaves the objects, the words, the printed bytes and main's value.
pub fn a_step_changes_little()
    ensures memory { (gated : List InstrId) (p : NumberedProgram) (input : List ℤ) (s : State) (t : ℕ)
        → IfDid (step gated p input s t) (λ x z. AsTold (access_of x) s.memory z.memory) }
    ensures rest { (gated : List InstrId) (p : NumberedProgram) (input : List ℤ) (s : State) (t : ℕ) → is_request (next_of p s t) ≡ false
        → IfDid (step gated p input s t) (λ x z. LeavesRest s z) }
{}

/// The event that a step tells is the turn that it was.
pub fn a_step_tells_its_event()
    ensures { (gated : List InstrId) (p : NumberedProgram) (input : List ℤ) (s : State) (t : ℕ)
        → IfDid (step gated p input s t) (λ x z. event_of x ≡ turn_of gated p s t) }
{}

/// A step depends on its thread's local state, on the bytes that it loads, and, where it asks something
/// of other threads, on the objects and the words that the request reads.
pub fn a_step_depends_on_little()
    ensures { (gated : List InstrId) (p : NumberedProgram) (input : List ℤ) (s z : State) (t : ℕ) → t < length s.locals → t < length z.locals
        → slice_get s.locals t ≡ slice_get z.locals t → Agree (next_of p s t) t s z → AreAlike t (step gated p input s t) (step gated p input z t) }
{}

/// The rotation run is a list of steps of the machine from its first state on, and with its end it is a recording.
pub fn a_rotation_is_a_run()
    ensures run { (p : NumberedProgram) (input : List ℤ) (q : ℕ) → IsRun [] p input (initial p) (rotation_of p input q).trace (rotation_of p input q).state }
    ensures recording { (p : NumberedProgram) (input : List ℤ) (q : ℕ) → IsRecording p input (rotation_of p input q).trace (rotation_of p input q).state (rotation_of p input q).end }
{}
