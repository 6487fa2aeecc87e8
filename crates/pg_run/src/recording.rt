//! Steps that are recorded as they are done.

ghost use Rattle.std.specs.Prelude.{◌≡◌, ◌<◌, ◌≤◌, ◌+◌, ◌∷◌, [], length, false, true, List, Some, IfNone, IfOk, IfSome, OnErr, OnOk};
ghost use Rattle.pg_run_trace.specs.pg_ir.declared.ids.InstrId.{InstrId};
ghost use Rattle.pg_run_objects.specs.Sync.{over};
ghost use Rattle.pg_run.specs.Machine.{IsMachine};
ghost use Rattle.pg_run.specs.MachineStep.{MayTake, ready, step};
ghost use Rattle.pg_run.specs.Taken.{state_with, steps_with, trapped_in};
ghost use Rattle.pg_run.specs.Went.{WentRecorded};
ghost use Rattle.pg_run.specs.WithSteps.{told_by, with_steps};

use crate::run::Run;
use crate::state::MachineState;
use crate::tell::{filled, told_as};
use pg_run_thread::{Action, Advance};
use pg_run_trace::pg_ir::{InstrId, Program, ThreadNo, TrapName};
use pg_run_trace::{Step, Trace};
use std::alloc::AllocError;

/// Adds a step to a trace, if steps are recorded.
#[inline(always)]
pub(crate) fn keep(trace: &mut Trace, records: bool, step: Step)
    requires { records ≡ true → length trace.old.steps < trace.old.room }
    ensures { trace.new ≡ with_steps records trace.old (step ∷ []) }
{
    if records {
        trace.push(step);
    }
}

/// Takes the next step of a thread, while the run isn't over, if only the thread's own state decides and sees
/// it, and records it; else nothing changes, and it gives what the step asks.
#[inline(always)]
pub(crate) fn record_own(
    p: &Program,
    state: &mut MachineState,
    trace: &mut Trace,
    records: bool,
    t: ThreadNo,
) -> Option<Action>
    requires of { IsMachine p.now state.old }
    requires going { over state.old.sync ≡ false }
    requires room { records ≡ true → length trace.old.steps < trace.old.room }
    ensures step { WentRecorded p.now state.old state.new t.0 records trace.old trace.new result }
    ensures of { IsMachine p.now state.new }
{
    let id = state.id(t);
    match state.go_on(p, t) {
        Advance::Asks(action) => Some(action),
        Advance::Done(told) => {
            keep(
                trace,
                records,
                Step {
                    thread: t,
                    instr: id,
                    kind: told_as(told),
                },
            );
            None
        }
    }
}

/// Takes the next step of a thread that is ready, which is this action, and records it, or gives its
/// trap and the instruction.
pub(crate) fn record_step(
    run: &Run,
    state: &mut MachineState,
    trace: &mut Trace,
    t: ThreadNo,
    action: &Action,
) -> Result<Option<(TrapName, InstrId)>, AllocError>
    requires of { IsMachine run.now.program.now state.old }
    requires take { MayTake run.now.program.now state.old t.0 action.now }
    requires room { length trace.old.steps < trace.old.room }
    ensures trap { IfOk result (λ o. o ≡ trapped_in (step run.now.gated.now run.now.program.now run.now.input.now state.old t.0)) }
    ensures trace { OnOk result (trace.new ≡ record trace.old { steps = steps_with trace.old.steps (step run.now.gated.now run.now.program.now run.now.input.now state.old t.0) }) }
    ensures state { OnOk result (state.new ≡ state_with state.old (step run.now.gated.now run.now.program.now run.now.input.now state.old t.0)) }
    ensures of { OnOk result (IsMachine run.now.program.now state.new) }
    ensures few { OnOk result (length trace.new.steps ≤ length trace.old.steps + 1) }
    ensures kept { OnErr result (trace.new ≡ trace.old) }
    ensures more { IfOk result (λ o. IfNone o (length trace.old.steps < length trace.new.steps)) }
{
    let id = state.id(t);
    let told = state.tell(run.program, run.gated, t, action);
    match state.take(run, t, action)? {
        Err(name) => Ok(Some((name, id))),
        Ok(done) => {
            trace.push(Step {
                thread: t,
                instr: id,
                kind: filled(told, done.answer, done.number),
            });
            Ok(None)
        }
    }
}

/// Takes the next step of a thread that is ready, which is this action, or gives its trap and the instruction.
/// Which accesses are events makes no difference to either.
pub(crate) fn step_on(
    run: &Run,
    state: &mut MachineState,
    t: ThreadNo,
    action: &Action,
) -> Result<Option<(TrapName, InstrId)>, AllocError>
    requires of { IsMachine run.now.program.now state.old }
    requires take { MayTake run.now.program.now state.old t.0 action.now }
    ensures trap { IfOk result (λ o. (gated : List InstrId) → o ≡ trapped_in (step gated run.now.program.now run.now.input.now state.old t.0)) }
    ensures state { OnOk result ((gated : List InstrId) → state.new ≡ state_with state.old (step gated run.now.program.now run.now.input.now state.old t.0)) }
    ensures of { OnOk result (IsMachine run.now.program.now state.new) }
{
    let id = state.id(t);
    match state.take(run, t, action)? {
        Err(name) => Ok(Some((name, id))),
        Ok(_) => Ok(None),
    }
}

/// As `record_step`, where the step is told only if steps are recorded.
pub(crate) fn take_step(
    run: &Run,
    state: &mut MachineState,
    trace: &mut Trace,
    records: bool,
    t: ThreadNo,
    action: &Action,
) -> Result<Option<(TrapName, InstrId)>, AllocError>
    requires of { IsMachine run.now.program.now state.old }
    requires take { MayTake run.now.program.now state.old t.0 action.now }
    requires room { records ≡ true → length trace.old.steps < trace.old.room }
    ensures trap { IfOk result (λ o. o ≡ trapped_in (step run.now.gated.now run.now.program.now run.now.input.now state.old t.0)) }
    ensures trace { OnOk result (trace.new ≡ with_steps records trace.old (told_by (step run.now.gated.now run.now.program.now run.now.input.now state.old t.0))) }
    ensures state { OnOk result (state.new ≡ state_with state.old (step run.now.gated.now run.now.program.now run.now.input.now state.old t.0)) }
    ensures of { OnOk result (IsMachine run.now.program.now state.new) }
    ensures kept { OnErr result (trace.new ≡ trace.old) }
{
    if records {
        record_step(run, state, trace, t, action)
    } else {
        step_on(run, state, t, action)
    }
}
