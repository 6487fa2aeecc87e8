//! Rotation runs of main alone, of which no step is kept.

ghost use Rattle.std.specs.Prelude.{◌≡◌, ◌<◌, ◌≤◌, ◌+◌, ◌^◌, ◌==◌, [], length, map, true, IfOk, IfSome, OnOk, if◌then◌else◌};
ghost use Rattle.std.specs.List.{list_all};
ghost use Rattle.pg_run_trace.specs.pg_num.declared.limits.TheConstants.{QUANTUM_LIMIT};
ghost use Rattle.pg_run_trace.specs.declared.step.Step.{Step};
ghost use Rattle.pg_run_trace.specs.Races.{with_gated};
ghost use Rattle.pg_run_trace.specs.Steps.{events};
ghost use Rattle.pg_run.specs.Alone.{RunAlone, StepLeft, TurnLeft, is_asking};
ghost use Rattle.pg_run.specs.Machine.{IsMachine};
ghost use Rattle.pg_run.specs.MachineStep.{MayTake};
ghost use Rattle.pg_run.specs.Rotation.{first_share, rotation_of, run as run_from};
ghost use Rattle.pg_run.specs.State.{initial, next_of};

use crate::gated::Gated;
use crate::outcome::{Outcome, Refusal};
use crate::recording::step_on;
use crate::rotation::{at_limit, choose};
use crate::run::Run;
use crate::share::Share;
use crate::state::MachineState;
use pg_run_thread::{Action, Advance};
use pg_run_trace::pg_ir::{Program, ThreadNo};
use pg_run_trace::pg_num::limits::RECORDING_STEP_LIMIT;
use std::alloc::{AllocError, Global};

/// What a rotation run of main alone printed, how it ended, and how many of its steps were events, where no loads and
/// stores are.
#[derive(Drop)]
pub struct Counted {
    pub output: Vec<u8>,
    pub end: Outcome,
    pub events: usize,
}

/// What is left of a thread's share after a step, and whether the step was an event.
#[derive(Clone, Copy, Debug, PartialEq, Eq)]
pub(crate) struct Left {
    pub(crate) share: Share,
    pub(crate) is_event: bool,
}

/// The last state of a run of main alone, how it ended, and how many of its steps were events.
#[derive(Drop)]
struct RunOfMain {
    state: MachineState,
    end: Outcome,
    events: usize,
}

/// Whether an action is an event where no loads and stores are.
fn is_asking(action: &Action) -> bool
    ensures { result ≡ is_asking action.now }
{
    match action {
        Action::Event(_) => true,
        _ => false,
    }
}

/// As many, and one more for an event.
fn with_event(events: usize, is_event: bool) -> usize
    requires { events < 2 ^ 32 }
    ensures { result ≡ events + (if is_event then 1 else 0) }
{
    if is_event { events + 1 } else { events }
}

/// Takes a step of a thread that is ready, which is this action, and gives what is left of its share,
/// or the end where it traps.
fn step_of(
    run: &Run,
    state: &mut MachineState,
    u: Share,
    action: &Action,
) -> Result<Result<Left, Outcome>, AllocError>
    requires of { IsMachine run.now.program.now state.old }
    requires take { MayTake run.now.program.now state.old u.thread.0 action.now }
    requires left { 0 < u.left }
    ensures step { IfOk result (StepLeft run.now.program.now run.now.input.now state.old u state.new) }
    ensures of { OnOk result (IsMachine run.now.program.now state.new) }
{
    match step_on(run, state, u.thread, action)? {
        Some((name, id)) => Ok(Err(Outcome::Refused(Refusal::Trap(name, id)))),
        None => {
            let share = Share {
                thread: u.thread,
                left: u.left - 1,
            };
            let is_event = is_asking(action);
            Ok(Ok(Left { share, is_event }))
        }
    }
}

/// As `turn`, by what the next step of the thread is whose share it is.
fn asked_turn(
    run: &Run,
    q: u32,
    state: &mut MachineState,
    u: Share,
    action: &Action,
) -> Result<Result<Left, Outcome>, AllocError>
    requires of { IsMachine run.now.program.now state.old }
    requires next { action.now ≡ next_of run.now.program.now state.old u.thread.0 }
    requires some { 0 < q }
    ensures turn { IfOk result (TurnLeft run.now.program.now run.now.input.now q state.old u state.new) }
    ensures of { OnOk result (IsMachine run.now.program.now state.new) }
{
    if state.can_take(run.program, u.thread, action) && 0 < u.left {
        return step_of(run, state, u, action);
    }
    match choose(state, run.program, q, u) {
        Err(end) => Ok(Err(end)),
        Ok(v) => {
            let action = state.next(run.program, v.thread);
            step_of(run, state, v, &action)
        }
    }
}

/// Takes the next step of the run, and gives what is left of its thread's share, or the end that comes
/// in its place.
#[inline(always)]
fn turn(
    run: &Run,
    q: u32,
    state: &mut MachineState,
    u: Share,
) -> Result<Result<Left, Outcome>, AllocError>
    requires of { IsMachine run.now.program.now state.old }
    requires some { 0 < q }
    ensures turn { IfOk result (TurnLeft run.now.program.now run.now.input.now q state.old u state.new) }
    ensures of { OnOk result (IsMachine run.now.program.now state.new) }
{
    if u.left == 0 || state.is_over() {
        let action = state.next(run.program, u.thread);
        return asked_turn(run, q, state, u, &action);
    }
    match state.go_on(run.program, u.thread) {
        Advance::Done(_) => {
            let share = Share {
                thread: u.thread,
                left: u.left - 1,
            };
            Ok(Ok(Left {
                share,
                is_event: false,
            }))
        }
        Advance::Asks(action) => asked_turn(run, q, state, u, &action),
    }
}

/// Whether there is no thread but main.
fn is_alone(state: &MachineState) -> bool
    ensures { result ≡ true → length state.now.locals ≤ 1 }
{
    state.count() <= 1
}

/// The rotation run up to a number of steps, where main makes no thread; none where it makes one.
fn rotate_within(
    alloc: Global,
    p: &Program,
    input: &[i64],
    q: u32,
    limit: u32,
) -> Result<Option<RunOfMain>, AllocError>
    requires some { 0 < q }
    ensures run { IfOk result (λ o. IfSome o (λ r. RunAlone (run_from limit p.now input.now q (initial p.now) (first_share q)) r.state r.end r.events)) }
{
    let mut state = MachineState::new(alloc, p)?;
    let gated = Gated::none(alloc);
    let run = Run {
        alloc,
        program: p,
        input,
        gated: &gated,
    };
    let mut share = Share {
        thread: ThreadNo(0),
        left: q,
    };
    let mut events = 0;
    for _ in 0..limit {
        match turn(&run, q, &mut state, share)? {
            Ok(left) => {
                if !is_alone(&state) {
                    return Ok(None);
                }
                share = left.share;
                events = with_event(events, left.is_event);
            }
            Err(end) => {
                return Ok(Some(RunOfMain { state, end, events }));
            }
        }
    }
    let end = at_limit(&state, p, input, q, share);
    Ok(Some(RunOfMain { state, end, events }))
}

/// The rotation run of a program on an input, of which no step is kept, where main makes no thread; none where it makes
/// one. It takes two fifths less time than a run that is recorded.
///
/// # Errors
///
/// Where no memory is left for it.
#[tactic(auto, unfolding(crate::specs::Rotation::rotation_of))]
pub fn rotate_alone(
    alloc: Global,
    p: &Program,
    input: &[i64],
    q: u32,
) -> Result<Option<Counted>, AllocError>
    requires some { 1 ≤ q }
    requires few { q ≤ QUANTUM_LIMIT }
    ensures output { IfOk result (λ o. IfSome o (λ r. r.output.items ≡ (rotation_of p.now input.now q).state.printed)) }
    ensures end { IfOk result (λ o. IfSome o (λ r. r.end ≡ (rotation_of p.now input.now q).end)) }
    ensures alone { IfOk result (λ o. IfSome o (λ r. list_all (λ (x : Step). x.thread.0 == 0) (rotation_of p.now input.now q).trace ≡ true)) }
    ensures events { IfOk result (λ o. IfSome o (λ r. r.events ≡ length (events (map (with_gated []) (rotation_of p.now input.now q).trace)))) }
{
    match rotate_within(alloc, p, input, q, RECORDING_STEP_LIMIT)? {
        None => Ok(None),
        Some(RunOfMain { state, end, events }) => Ok(Some(Counted {
            output: state.into_printed(),
            end,
            events,
        })),
    }
}
