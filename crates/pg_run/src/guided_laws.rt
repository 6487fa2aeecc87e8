//! What holds of guided runs: each law is the clause of a function that does nothing.

ghost use Rattle.std.specs.Prelude.{◌≡◌, ◌↔◌, ℤ, IsTrue, List, take};
ghost use Rattle.pg_run_trace.specs.pg_ir.declared.ids.InstrId.{InstrId};
ghost use Rattle.pg_run_trace.specs.pg_ir.Program.{NumberedProgram};
ghost use Rattle.pg_run_trace.specs.declared.turn.Turn.{Turn};
ghost use Rattle.pg_run.specs.State.{initial};
ghost use Rattle.pg_run.specs.Guided.{guided_of, is_turn};
ghost use Rattle.pg_run.specs.Runs.{IsRun, events};
ghost use Rattle.pg_run.specs.Permitted.{IsFull, IsPermitted, full_end};

use crate::guided_end::GuidedEnd;

/// The test whether two turns are one says whether they are equal.
pub fn equal_turns_are_one_turn()
    ensures { (a b : Turn) → IsTrue (is_turn a b) ↔ (a ≡ b) }
{}

/// The steps of a guided run are steps of the machine from the first state to its last, and their events
/// are the turns that were done, in order.
pub fn a_guided_run_is_a_run()
    ensures steps { (p : NumberedProgram) (input : List ℤ) (turns : List Turn) (gated : List InstrId)
        → IsRun gated p input (initial p) (guided_of p input turns gated).trace (guided_of p input turns gated).state }
    ensures events { (p : NumberedProgram) (input : List ℤ) (turns : List Turn) (gated : List InstrId)
        → events (guided_of p input turns gated).trace ≡ take (guided_of p input turns gated).turns turns }
{}

/// A guided run is permitted: its k-th event is the k-th turn, no thread takes more than its steps, and
/// each step's thread had a turn left.
pub fn a_guided_run_is_permitted()
    ensures { (p : NumberedProgram) (input : List ℤ) (turns : List Turn) (gated : List InstrId)
        → IsPermitted p input turns gated (guided_of p input turns gated).trace (guided_of p input turns gated).state }
{}

/// A guided run that exits is a full permitted run, and ends as one.
pub fn a_guided_run_that_exits_is_full()
    ensures { (p : NumberedProgram) (input : List ℤ) (turns : List Turn) (gated : List InstrId) (value : ℤ) → (guided_of p input turns gated).end ≡ GuidedEnd.Exit value
        → IsFull gated p turns (guided_of p input turns gated).trace (guided_of p input turns gated).state
        × (full_end p turns (guided_of p input turns gated).trace (guided_of p input turns gated).state ≡ GuidedEnd.Exit value) }
{}
