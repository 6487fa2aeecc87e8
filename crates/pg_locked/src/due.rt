//! Whether a thread may take its next step.

ghost use Rattle.std.specs.Prelude.{◌≡◌, None, Some, IfErr, IfOk, is_some};
ghost use Rattle.pg_law_course.specs.pg_run.Guided.{is_turn};
ghost use Rattle.pg_law_course.specs.pg_run.Machine.{IsMachine};
ghost use Rattle.pg_law_course.specs.pg_run.MachineStep.{turn_of};
ghost use Rattle.pg_law_course.specs.pg_run.Permitted.{has_turn};
ghost use Rattle.pg_locked.specs.Tries.{refusal, unless_first};

use crate::tried::Tried;
use pg_law_course::pg_ir::{Program, ThreadNo};
use pg_law_course::pg_num::limits::GUIDED_STEP_LIMIT;
use pg_law_course::pg_run::{Machine, Next};
use pg_law_course::pg_run_trace::Turn;

/// Whether two turns are equal.
fn is_turn(a: &Turn, b: &Turn) -> bool
    ensures { result ≡ is_turn a.now b.now }
{
    a.thread.0 == b.thread.0 && a.instr.0 == b.instr.0 && a.kind == b.kind && a.object == b.object
}

/// Why a thread at an event may not do it, where these turns are left; none where the event is the first of them.
fn unless_first(event: &Turn, left: &[Turn]) -> Option<Tried>
    ensures { result ≡ unless_first event.now left.now }
{
    match left {
        [first, ..] if is_turn(event, first) => None,
        _ => Some(Tried::Waiting),
    }
}

/// Whether a thread has one of these turns.
fn has_turn(left: &[Turn], t: ThreadNo) -> bool
    ensures { result ≡ has_turn t.0 left.now }
{
    left.iter().any(|u| u.thread.0 == t.0)
}

/// Whether the next step of a thread, which has taken so many, is an event, where it may be taken. These turns are left.
///
/// # Errors
///
/// Why it may not be taken.
pub(crate) fn due(
    p: &Program,
    machine: &Machine,
    left: &[Turn],
    taken: u32,
    t: ThreadNo,
) -> Result<bool, Tried>
    requires of { IsMachine p.now machine.now.state }
    ensures refused { IfErr result (λ why. refusal p.now machine.now left.now taken t.0 ≡ Some why) }
    ensures may { IfOk result (λ _. refusal p.now machine.now left.now taken t.0 ≡ None) }
    ensures event { IfOk result (λ e. is_some (turn_of machine.now.gated p.now machine.now.state t.0) ≡ e) }
{
    match machine.next(p, t) {
        Next::NotMade => Err(Tried::NotMade),
        Next::Ended => Err(Tried::Ended),
        _ if !has_turn(left, t) => Err(Tried::Ended),
        Next::Trap(..) => Err(Tried::Stopped),
        _ if taken >= GUIDED_STEP_LIMIT => Err(Tried::Stopped),
        Next::Event(turn) => match unless_first(&turn, left) {
            None => Ok(true),
            Some(why) => Err(why),
        },
        Next::Other(_) => Ok(false),
    }
}
