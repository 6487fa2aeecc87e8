//! The walk of a thread to its next turn.

ghost use Rattle.std.specs.Prelude.{◌≡◌, ◌<◌, ◌≤◌, ◌-◌, length, false, true, IfNone, IfOk, IfSome, OnErr, OnOk};
ghost use Rattle.pg_run.specs.Machine.{IsMachine};
ghost use Rattle.pg_run.specs.State.{next_of};
ghost use Rattle.pg_run.specs.Guided.{behind, walk};
ghost use Rattle.pg_run.specs.WithSteps.{EndsBefore, OwnerStepped, WalkEnds};

use crate::guided_end::GuidedEnd;
use crate::recording::{record_own, take_step};
use crate::run::Run;
use crate::state::MachineState;
use pg_run_thread::Action;
use pg_run_trace::{Trace, Turn};
use std::alloc::AllocError;

/// How the walk to a turn went: how many steps the turn's owner has left, and the end of the run where
/// the turn wasn't done.
#[derive(Drop)]
pub(crate) struct Walked {
    pub(crate) left: u32,
    pub(crate) end: Option<GuidedEnd>,
}

/// Whether steps are recorded, and there is no room for the next one.
#[inline(always)]
fn is_full(trace: &Trace, records: bool) -> bool
    ensures full { result ≡ true → (records ≡ true) × (trace.now.room ≤ length trace.now.steps) }
    ensures room { result ≡ false → records ≡ true → length trace.now.steps < trace.now.room }
{
    if records {
        trace.room_left() == 0
    } else {
        false
    }
}

/// Takes the next step of a turn's owner, which is this action, and says whether it is the turn, or gives the
/// end that comes before it.
fn asked_step(
    run: &Run,
    state: &mut MachineState,
    trace: &mut Trace,
    records: bool,
    turn: &Turn,
    action: &Action,
) -> Result<Result<bool, GuidedEnd>, AllocError>
    requires of { IsMachine run.now.program.now state.old }
    requires next { action.now ≡ next_of run.now.program.now state.old turn.now.thread.0 }
    requires room { records ≡ true → length trace.old.steps < trace.old.room }
    ensures step { IfOk result (OwnerStepped run.now.gated.now run.now.program.now run.now.input.now turn.now state.old state.new records trace.old trace.new) }
    ensures of { OnOk result (IsMachine run.now.program.now state.new) }
    ensures kept { OnErr result (trace.new ≡ trace.old) }
{
    match state.due(run.program, run.gated, turn, action) {
        Err(end) => Ok(Err(end)),
        Ok(is_due) => match take_step(run, state, trace, records, turn.thread, action)? {
            Some((name, id)) => Ok(Err(GuidedEnd::Trap(name, id))),
            None => Ok(Ok(is_due)),
        },
    }
}

/// Takes the next step of a turn's owner, and says whether it is the turn, or gives the end that comes before
/// it.
#[inline(always)]
fn owner_step(
    run: &Run,
    state: &mut MachineState,
    trace: &mut Trace,
    records: bool,
    turn: &Turn,
) -> Result<Result<bool, GuidedEnd>, AllocError>
    requires of { IsMachine run.now.program.now state.old }
    requires room { records ≡ true → length trace.old.steps < trace.old.room }
    ensures step { IfOk result (OwnerStepped run.now.gated.now run.now.program.now run.now.input.now turn.now state.old state.new records trace.old trace.new) }
    ensures of { OnOk result (IsMachine run.now.program.now state.new) }
    ensures kept { OnErr result (trace.new ≡ trace.old) }
{
    if state.is_over() {
        return Ok(Err(GuidedEnd::Strayed));
    }
    match record_own(run.program, state, trace, records, turn.thread) {
        None => Ok(Ok(false)),
        Some(action) => asked_step(run, state, trace, records, turn, &action),
    }
}

/// The end that comes before the next step of a turn's owner, if one comes, with so many steps left.
fn end_before(run: &Run, state: &MachineState, turn: &Turn, left: u32) -> Option<Walked>
    requires { IsMachine run.now.program.now state.now }
    ensures { EndsBefore run.now.gated.now run.now.program.now turn.now state.now left result }
{
    let action = state.next(run.program, turn.thread);
    match state.due(run.program, run.gated, turn, &action) {
        Err(end) => Some(Walked {
            left,
            end: Some(end),
        }),
        Ok(_) => None,
    }
}

/// The owner of a turn, with so many steps left, steps until it has done an event. Its steps go into the
/// trace, if steps are recorded; none where there is no room there for the next one.
pub(crate) fn walk(
    run: &Run,
    state: &mut MachineState,
    trace: &mut Trace,
    records: bool,
    turn: &Turn,
    left: u32,
) -> Result<Option<Walked>, AllocError>
    requires of { IsMachine run.now.program.now state.old }
    requires few { length trace.old.steps ≤ trace.old.room }
    ensures walk { IfOk result (λ o. IfSome o
        (λ w. WalkEnds (walk left run.now.gated.now run.now.program.now run.now.input.now turn.now state.old) state.new w.left w.end records trace.old trace.new)) }
    ensures full { IfOk result (λ o. IfNone o
        ((records ≡ true) × (trace.old.room < length (behind trace.old.steps (walk left run.now.gated.now run.now.program.now run.now.input.now turn.now state.old)).trace))) }
    ensures less { IfOk result (λ o. IfSome o (λ w. IfNone w.end (w.left < left))) }
    ensures of { OnOk result (IsMachine run.now.program.now state.new) }
    ensures room { trace.new.room ≡ trace.old.room }
    ensures fits { OnOk result (length trace.new.steps ≤ trace.new.room) }
{
    for spent in 0..left {
        if is_full(trace, records) {
            return Ok(end_before(run, state, turn, left - spent));
        }
        match owner_step(run, state, trace, records, turn)? {
            Err(end) => {
                return Ok(Some(Walked {
                    left: left - spent,
                    end: Some(end),
                }));
            }
            Ok(is_turn) => {
                if is_turn {
                    return Ok(Some(Walked {
                        left: left - spent - 1,
                        end: None,
                    }));
                }
            }
        }
    }
    Ok(Some(Walked {
        left: 0,
        end: Some(state.spent(run.program, turn)),
    }))
}
