//! The call that does a step.

ghost use Rattle.std.specs.Prelude.{◌≡◌, IfSome};
ghost use Rattle.pg_slice_passes.specs.pg_slice_replay.Kept.{landmark_at};

use pg_run_trace::Step;
use pg_slice_demands::Call;
use pg_slice_passes::pg_slice_replay::ReferenceRun;

/// The call that does a step.
pub fn call_of(reference: &ReferenceRun, step: &Step, number: usize) -> Call
    ensures thread { result.thread.0 ≡ step.now.thread.0 }
    ensures depth { IfSome (landmark_at reference.now number) (λ l. result.depth ≡ l.depth) }
{
    Call {
        thread: step.thread,
        depth: reference.depth(number),
    }
}
