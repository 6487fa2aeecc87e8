//! Rotation runs: threads take shares of steps in number order.

ghost use Rattle.std.specs.Prelude.{◌≡◌, ◌<◌, ◌≤◌, ◌+◌, [], ℕ, suc, length, not, true, IfOk, IfSome, OnOk};
ghost use Rattle.pg_run_trace.specs.pg_num.declared.limits.TheConstants.{RECORDING_STEP_LIMIT, THREAD_LIMIT, QUANTUM_LIMIT};
ghost use Rattle.pg_run_trace.specs.Recording.{empty_with};
ghost use Rattle.pg_run.specs.State.{State, initial, next_of};
ghost use Rattle.pg_run.specs.MachineStep.{MayTake, ready, step};
ghost use Rattle.pg_run.specs.Machine.{IsMachine};
ghost use Rattle.pg_run.specs.Runs.{IsRun};
ghost use Rattle.pg_run.specs.Taken.{on_turn};
ghost use Rattle.pg_run.specs.Rotation.{around, chosen, deadlock_of, exit_of, first_share, first_true, hasnt_ended, lowest, next_share, on_step, onto, rotation_of, run as run_from};
ghost use Rattle.pg_run.specs.Rotation.{stop, RunResult};

use crate::gated::Gated;
use crate::outcome::{Outcome, Refusal};
use crate::recording::{record_own, record_step};
use crate::run::Run;
use crate::share::Share;
use crate::state::{MachineState, is_ended};
use pg_run_thread::Action;
use pg_run_trace::Trace;
use pg_run_trace::pg_ir::{Program, ThreadNo, TrapName};
use pg_run_trace::pg_num::limits::RECORDING_STEP_LIMIT;
use std::alloc::{AllocError, Global};

/// The steps of a rotation run, what it printed, and how it ended.
#[derive(Drop)]
pub struct Recorded {
    pub trace: Trace,
    pub output: Vec<u8>,
    pub end: Outcome,
}

/// What a rotation run printed, and how it ended.
#[derive(Drop)]
pub struct Ended {
    pub output: Vec<u8>,
    pub end: Outcome,
}

/// The last state of a run, and how it ended.
#[derive(Drop)]
struct Rotated {
    state: MachineState,
    end: Outcome,
}

/// How far behind a thread the next one is that is ready, going round.
#[tactic(auto, using(crate::proofs::Rotations::first_none, crate::proofs::Rotations::first_found, crate::proofs::Rotations::first_past, crate::proofs::Rotations::first_zero))]
fn next_ready(state: &MachineState, p: &Program, t: ThreadNo) -> Option<usize>
    requires { IsMachine p.now state.now }
    ensures bound { IfSome result (λ d. d < length state.now.locals) }
    ensures ready { IfSome result (λ d. ready p.now state.now (around state.now t.0 d) ≡ true) }
    ensures least { result ≡ first_true (λ d. ready p.now state.now (around state.now t.0 d)) (length state.now.locals) }
{
    let n = state.count();
    for d in 0..n {
        let u = (t.0 as usize + 1 + d) % n;
        if state.ready(p, ThreadNo(u as u8)) {
            return Some(d);
        }
    }
    None
}

/// The lowest-numbered thread that is ready.
#[tactic(auto, using(crate::proofs::Rotations::first_none, crate::proofs::Rotations::first_found, crate::proofs::Rotations::first_past, crate::proofs::Rotations::first_zero))]
pub(crate) fn first_ready(state: &MachineState, p: &Program) -> Option<usize>
    requires { IsMachine p.now state.now }
    ensures bound { IfSome result (λ t. t < length state.now.locals) }
    ensures ready { IfSome result (λ t. ready p.now state.now t ≡ true) }
    ensures least { result ≡ first_true (ready p.now state.now) (length state.now.locals) }
{
    let n = state.count();
    for t in 0..n {
        if state.ready(p, ThreadNo(t as u8)) {
            return Some(t);
        }
    }
    None
}

/// The lowest-numbered thread that hasn't ended.
#[tactic(auto, using(crate::proofs::Rotations::first_none, crate::proofs::Rotations::first_found, crate::proofs::Rotations::first_past, crate::proofs::Rotations::first_zero))]
fn first_going(state: &MachineState, p: &Program) -> Option<usize>
    requires { IsMachine p.now state.now }
    ensures bound { IfSome result (λ t. t < length state.now.locals) }
    ensures least { result ≡ first_true (hasnt_ended p.now state.now) (length state.now.locals) }
{
    let n = state.count();
    for t in 0..n {
        if !is_ended(&state.next(p, ThreadNo(t as u8))) {
            return Some(t);
        }
    }
    None
}

/// Whose step is next: the present thread's while it is ready and has steps left, else that of the
/// next that is ready.
#[tactic(auto, unfolding(crate::specs::Rotation::next_share))]
fn next_share(state: &MachineState, p: &Program, q: u32, u: Share) -> Option<Share>
    requires of { IsMachine p.now state.now }
    requires some { 0 < q }
    ensures ready { IfSome result (λ v. ready p.now state.now v.thread.0 ≡ true) }
    ensures left { IfSome result (λ v. 0 < v.left) }
    ensures share { result ≡ next_share p.now q state.now u }
{
    if state.ready(p, u.thread) && 0 < u.left {
        return Some(u);
    }
    match next_ready(state, p, u.thread) {
        None => None,
        Some(d) => {
            let thread = (u.thread.0 as usize + 1 + d) % state.count();
            Some(Share {
                thread: ThreadNo(thread as u8),
                left: q,
            })
        }
    }
}

/// The end where no thread is ready.
#[tactic(auto, unfolding(crate::specs::Rotation::deadlock_of))]
pub(crate) fn deadlock(state: &MachineState, p: &Program) -> Outcome
    requires { IsMachine p.now state.now }
    ensures { result ≡ deadlock_of p.now state.now }
{
    let lowest = match first_going(state, p) {
        Some(t) => t as u8,
        None => 0,
    };
    Outcome::Refused(Refusal::Trap(TrapName::Deadlock, state.id(ThreadNo(lowest))))
}

/// The end where the run is over.
fn exit(state: &MachineState) -> Outcome
    ensures { result ≡ exit_of state.now }
{
    Outcome::Exit(state.exit_value())
}

/// Whose step is next, or the end that comes before it.
#[tactic(auto, unfolding(crate::specs::Rotation::chosen))]
pub(crate) fn choose(state: &MachineState, p: &Program, q: u32, u: Share) -> Result<Share, Outcome>
    requires of { IsMachine p.now state.now }
    requires some { 0 < q }
    ensures ready { IfOk result (λ v. ready p.now state.now v.thread.0 ≡ true) }
    ensures left { IfOk result (λ v. 0 < v.left) }
    ensures chosen { result ≡ chosen p.now q state.now u }
{
    if state.is_over() {
        return Err(exit(state));
    }
    match next_share(state, p, q, u) {
        None => Err(deadlock(state, p)),
        Some(v) => Ok(v),
    }
}

/// The end where no step is left.
#[tactic(auto, unfolding(crate::specs::Rotation::run))]
pub(crate) fn at_limit(
    state: &MachineState,
    p: &Program,
    input: &[i64],
    q: u32,
    u: Share,
) -> Outcome
    requires of { IsMachine p.now state.now }
    requires some { 0 < q }
    ensures { run_from 0 p.now input.now q state.now u ≡ stop state.now result }
{
    match choose(state, p, q, u) {
        Ok(_) => Outcome::Refused(Refusal::Budget),
        Err(end) => end,
    }
}

/// Takes a step of a thread that is ready, which is this action, and gives what is left of its share,
/// or the end where it traps.
fn step_of(
    run: &Run,
    state: &mut MachineState,
    trace: &mut Trace,
    u: Share,
    action: &Action,
) -> Result<Result<Share, Outcome>, AllocError>
    requires of { IsMachine run.now.program.now state.old }
    requires take { MayTake run.now.program.now state.old u.thread.0 action.now }
    requires left { 0 < u.left }
    requires gated { run.now.gated.now ≡ [] }
    requires room { length trace.old.steps < trace.old.room }
    ensures turn { IfOk result (λ r. (more : State → Share → RunResult)
        → onto trace.old.steps (on_step state.old u (step [] run.now.program.now run.now.input.now state.old u.thread.0) more) ≡ on_turn r trace.new.steps state.new more) }
    ensures of { OnOk result (IsMachine run.now.program.now state.new) }
    ensures room { trace.new.room ≡ trace.old.room }
    ensures more { OnOk result (length trace.new.steps ≤ length trace.old.steps + 1) }
{
    match record_step(run, state, trace, u.thread, action)? {
        Some((name, id)) => Ok(Err(Outcome::Refused(Refusal::Trap(name, id)))),
        None => Ok(Ok(Share {
            thread: u.thread,
            left: u.left - 1,
        })),
    }
}

/// As `turn`, by what the next step of the thread is whose share it is.
fn asked_turn(
    run: &Run,
    q: u32,
    state: &mut MachineState,
    trace: &mut Trace,
    u: Share,
    action: &Action,
) -> Result<Result<Share, Outcome>, AllocError>
    requires of { IsMachine run.now.program.now state.old }
    requires next { action.now ≡ next_of run.now.program.now state.old u.thread.0 }
    requires some { 0 < q }
    requires gated { run.now.gated.now ≡ [] }
    requires room { length trace.old.steps < trace.old.room }
    ensures turn { IfOk result (λ r. (n : ℕ)
        → onto trace.old.steps (run_from (suc n) run.now.program.now run.now.input.now q state.old u) ≡ on_turn r trace.new.steps state.new (run_from n run.now.program.now run.now.input.now q)) }
    ensures of { OnOk result (IsMachine run.now.program.now state.new) }
    ensures room { trace.new.room ≡ trace.old.room }
    ensures more { OnOk result (length trace.new.steps ≤ length trace.old.steps + 1) }
{
    if state.can_take(run.program, u.thread, action) && 0 < u.left {
        return step_of(run, state, trace, u, action);
    }
    match choose(state, run.program, q, u) {
        Err(end) => Ok(Err(end)),
        Ok(v) => {
            let action = state.next(run.program, v.thread);
            step_of(run, state, trace, v, &action)
        }
    }
}

/// Takes the next step of the run, and gives what is left of its thread's share, or the end that comes
/// in its place. While a thread goes on, nothing is asked of the others.
#[inline(always)]
fn turn(
    run: &Run,
    q: u32,
    state: &mut MachineState,
    trace: &mut Trace,
    u: Share,
) -> Result<Result<Share, Outcome>, AllocError>
    requires of { IsMachine run.now.program.now state.old }
    requires some { 0 < q }
    requires gated { run.now.gated.now ≡ [] }
    requires room { length trace.old.steps < trace.old.room }
    ensures turn { IfOk result (λ r. (n : ℕ)
        → onto trace.old.steps (run_from (suc n) run.now.program.now run.now.input.now q state.old u) ≡ on_turn r trace.new.steps state.new (run_from n run.now.program.now run.now.input.now q)) }
    ensures of { OnOk result (IsMachine run.now.program.now state.new) }
    ensures room { trace.new.room ≡ trace.old.room }
    ensures more { OnOk result (length trace.new.steps ≤ length trace.old.steps + 1) }
{
    if u.left == 0 || state.is_over() {
        let action = state.next(run.program, u.thread);
        return asked_turn(run, q, state, trace, u, &action);
    }
    match record_own(run.program, state, trace, true, u.thread) {
        None => {
            let left = u.left - 1;
            Ok(Ok(Share {
                thread: u.thread,
                left,
            }))
        }
        Some(action) => asked_turn(run, q, state, trace, u, &action),
    }
}

/// The rotation run, up to a number of steps, which are recorded.
fn rotate_within(
    alloc: Global,
    p: &Program,
    input: &[i64],
    q: u32,
    limit: u32,
    trace: &mut Trace,
) -> Result<Rotated, AllocError>
    requires some { 0 < q }
    requires empty { trace.old ≡ empty_with limit }
    ensures run { IfOk result (λ r. run_from limit p.now input.now q (initial p.now) (first_share q) ≡ record { trace = trace.new.steps; state = r.state; end = r.end }) }
    ensures room { trace.new.room ≡ limit }
{
    let mut state = MachineState::new(alloc, p)?;
    let gated = Gated::none(alloc);
    let run = Run {
        alloc,
        program: p,
        input,
        gated: &gated,
    };
    let mut share = Share {
        thread: ThreadNo(0),
        left: q,
    };
    for _ in 0..limit {
        match turn(&run, q, &mut state, trace, share)? {
            Ok(left) => share = left,
            Err(end) => {
                return Ok(Rotated { state, end });
            }
        }
    }
    let end = at_limit(&state, p, input, q, share);
    Ok(Rotated { state, end })
}

/// As `rotate`, with its steps in a trace that is there, which has room for as many as a recording may have.
/// The steps that it had are gone; its room stays, also where no memory is left.
///
/// # Errors
///
/// Where no memory is left for it.
#[tactic(auto, unfolding(crate::specs::Rotation::rotation_of))]
pub fn rotate_into(
    alloc: Global,
    p: &Program,
    input: &[i64],
    q: u32,
    trace: &mut Trace,
) -> Result<Ended, AllocError>
    requires some { 1 ≤ q }
    requires few { q ≤ QUANTUM_LIMIT }
    requires room { trace.old.room ≡ RECORDING_STEP_LIMIT }
    ensures trace { OnOk result (trace.new.steps ≡ (rotation_of p.now input.now q).trace) }
    ensures run { OnOk result (IsRun [] p.now input.now (initial p.now) trace.new.steps (rotation_of p.now input.now q).state) }
    ensures output { IfOk result (λ r. r.output.items ≡ (rotation_of p.now input.now q).state.printed) }
    ensures end { IfOk result (λ r. r.end ≡ (rotation_of p.now input.now q).end) }
    ensures room { trace.new.room ≡ RECORDING_STEP_LIMIT }
{
    trace.clear();
    let Rotated { state, end } = rotate_within(alloc, p, input, q, RECORDING_STEP_LIMIT, trace)?;
    Ok(Ended {
        output: state.into_printed(),
        end,
    })
}

/// The rotation run of a program on an input: threads take their turns in number order, each with a
/// quantum of up to `q` steps.
///
/// # Errors
///
/// Where no memory is left for it.
pub fn rotate(alloc: Global, p: &Program, input: &[i64], q: u32) -> Result<Recorded, AllocError>
    requires some { 1 ≤ q }
    requires few { q ≤ QUANTUM_LIMIT }
    ensures trace { IfOk result (λ r. r.trace.steps ≡ (rotation_of p.now input.now q).trace) }
    ensures run { IfOk result (λ r. IsRun [] p.now input.now (initial p.now) r.trace.steps (rotation_of p.now input.now q).state) }
    ensures output { IfOk result (λ r. r.output.items ≡ (rotation_of p.now input.now q).state.printed) }
    ensures end { IfOk result (λ r. r.end ≡ (rotation_of p.now input.now q).end) }
    ensures room { IfOk result (λ r. r.trace.room ≡ RECORDING_STEP_LIMIT) }
{
    let mut trace = Trace::with_room(alloc, RECORDING_STEP_LIMIT as usize)?;
    let Ended { output, end } = rotate_into(alloc, p, input, q, &mut trace)?;
    Ok(Recorded { trace, output, end })
}
