//! What a step did, as a trace keeps it.

ghost use Rattle.std.specs.Prelude.{◌≡◌, ◌≤◌, length, slice_get, false, true, IfOk, OnErr, OnOk};
ghost use Rattle.pg_run_objects.specs.Sync.{over};
ghost use Rattle.pg_run.specs.State.{next_of};
ghost use Rattle.pg_run.specs.Went.{GoesOn};
ghost use Rattle.pg_run.specs.MachineStep.{MayTake, answered, number_in, ready, step, taken};
ghost use Rattle.pg_run.specs.Answer.{answer_in};
ghost use Rattle.pg_run.specs.Machine.{IsMachine};
ghost use Rattle.pg_run.specs.Bound.{stepped_as, IfTrapped};

use crate::machine::Stepped;
use crate::run::Run;
use crate::state::MachineState;
use crate::tell::filled;
use pg_run_thread::{Action, Advance};
use pg_run_trace::Step;
use pg_run_trace::pg_ir::{Program, ThreadNo, TrapName};
use std::alloc::AllocError;

/// The answer to the action of a step, and the number that its instruction's own register got.
#[derive(Clone, Copy, Debug, PartialEq, Eq)]
pub(crate) struct Advanced {
    pub(crate) answer: u64,
    pub(crate) number: u64,
}

impl MachineState {
    /// Takes the next step of a thread, while the run isn't over, if only the thread's own state decides and
    /// sees it, and gives what is told of it; else nothing changes, and it gives what the step asks.
    #[inline(always)]
    pub(crate) fn go_on(&mut self, p: &Program, t: ThreadNo) -> Advance
        requires of { IsMachine p.now self.old }
        requires going { over self.old.sync ≡ false }
        ensures step { GoesOn p.now self.old self.new t.0 result }
        ensures of { IsMachine p.now self.new }
    {
        p.facts();
        self.advance_thread(p, t)
    }

    /// Takes the next step of a thread that is ready, which is this action, and gives the answer to it
    /// and the number that its instruction's own register got, or its trap.
    pub(crate) fn take(
        &mut self,
        run: &Run,
        t: ThreadNo,
        action: &Action,
    ) -> Result<Result<Advanced, TrapName>, AllocError>
        requires of { IsMachine run.now.program.now self.old }
        requires take { MayTake run.now.program.now self.old t.0 action.now }
        ensures state { IfOk result (λ r. (self.new, answer_in r)
            ≡ taken run.now.program.now self.old t.0 (answered run.now.program.now run.now.input.now self.old t.0 (next_of run.now.program.now self.old t.0))) }
        ensures number { IfOk result (λ r. IfOk r (λ a. a.number ≡ number_in run.now.program.now (slice_get self.old.locals t.0) a.answer)) }
        ensures of { OnOk result (IsMachine run.now.program.now self.new) }
        ensures trap { IfOk result (λ r. OnErr r (self.new ≡ self.old)) }
        ensures kept { OnErr result (self.new ≡ self.old) }
        ensures more { OnOk result (length self.old.locals ≤ length self.new.locals) }
    {
        run.program.facts();
        match self.answer(run, t, action)? {
            Err(name) => Ok(Err(name)),
            Ok(answer) => {
                let number = self.advance(run.program, t, answer);
                Ok(Ok(Advanced { answer, number }))
            }
        }
    }

    /// Takes the next step of a thread that is ready, and tells what it was.
    #[tactic(auto, unfolding(crate::specs::MachineStep::step))]
    pub(crate) fn step(&mut self, run: &Run, t: ThreadNo) -> Result<Stepped, AllocError>
        requires of { IsMachine run.now.program.now self.old }
        requires ready { ready run.now.program.now self.old t.0 ≡ true }
        ensures step { IfOk result (λ r. stepped_as r self.new ≡ step run.now.gated.now run.now.program.now run.now.input.now self.old t.0) }
        ensures of { OnOk result (IsMachine run.now.program.now self.new) }
        ensures trap { IfOk result (λ r. IfTrapped r (self.new ≡ self.old)) }
        ensures kept { OnErr result (self.new ≡ self.old) }
        ensures more { OnOk result (length self.old.locals ≤ length self.new.locals) }
    {
        let action = self.next(run.program, t);
        let id = self.id(t);
        let told = self.tell(run.program, run.gated, t, &action);
        match self.take(run, t, &action)? {
            Err(name) => Ok(Stepped::Trapped(name, id)),
            Ok(done) => Ok(Stepped::Did(Step {
                thread: t,
                instr: id,
                kind: filled(told, done.answer, done.number),
            })),
        }
    }
}
