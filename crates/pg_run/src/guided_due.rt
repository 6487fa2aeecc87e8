//! Whether an event is the turn that is due.

ghost use Rattle.std.specs.Prelude.{◌≡◌, true, IfOk};
ghost use Rattle.pg_run.specs.Machine.{IsMachine};
ghost use Rattle.pg_run.specs.State.{next_of};
ghost use Rattle.pg_run.specs.MachineStep.{ready, trap_of};
ghost use Rattle.pg_run.specs.Guided.{cannot_go, due, due_by, end_after, is_turn, spent};

use crate::gated::Gated;
use crate::guided_end::GuidedEnd;
use crate::state::{MachineState, is_ended};
use pg_run_thread::Action;
use pg_run_trace::Turn;
use pg_run_trace::pg_ir::{Program, ThreadNo, TrapName};

/// Whether two turns are equal.
fn is_turn(a: &Turn, b: &Turn) -> bool
    ensures { result ≡ is_turn a.now b.now }
{
    a.thread.0 == b.thread.0 && a.instr.0 == b.instr.0 && a.kind == b.kind && a.object == b.object
}

impl MachineState {
    /// The trap of a thread's action, if it traps: the thread's own, or that of a check on the objects.
    fn trap(&self, t: ThreadNo, action: &Action) -> Option<TrapName>
        ensures { result ≡ trap_of self.now t.0 action.now }
    {
        match action {
            Action::Trap(name) => Some(*name),
            Action::Event(r) => self.check(t, r),
            _ => None,
        }
    }

    /// Whether the run is over, or the thread of this action isn't made or has ended.
    fn cannot_go(&self, action: &Action) -> bool
        ensures { result ≡ cannot_go self.now action.now }
    {
        self.is_over() || is_ended(action)
    }

    /// Whether an action of a turn's owner is this turn, or the end that comes before it.
    fn due_by(&self, gated: &Gated, turn: &Turn, action: &Action) -> Result<bool, GuidedEnd>
        ensures { result ≡ due_by gated.now turn.now self.now action.now }
    {
        let t = turn.thread;
        if self.cannot_go(action) {
            return Err(GuidedEnd::Strayed);
        }
        if let Some(name) = self.trap(t, action) {
            return Err(GuidedEnd::Trap(name, self.id(t)));
        }
        match self.turn(gated, t, action) {
            None => Ok(false),
            Some(event) => if is_turn(&event, turn) && self.may_act(t, action) {
                Ok(true)
            } else {
                Err(GuidedEnd::Strayed)
            },
        }
    }

    /// Whether the next step of a turn's owner, which is this action, is this turn, or the end that comes
    /// before it.
    #[tactic(auto, unfolding(crate::specs::Guided::due))]
    pub(crate) fn due(
        &self,
        p: &Program,
        gated: &Gated,
        turn: &Turn,
        action: &Action,
    ) -> Result<bool, GuidedEnd>
        requires { action.now ≡ next_of p.now self.now turn.now.thread.0 }
        ensures due { result ≡ due gated.now p.now turn.now self.now }
        ensures ready { IfOk result (λ _. ready p.now self.now turn.now.thread.0 ≡ true) }
    {
        self.due_by(gated, turn, action)
    }

    /// The end where a turn's owner has no step left.
    #[tactic(auto, unfolding(crate::specs::Guided::spent))]
    pub(crate) fn spent(&self, p: &Program, turn: &Turn) -> GuidedEnd
        requires { IsMachine p.now self.now }
        ensures { result ≡ spent p.now turn.now self.now }
    {
        if self.cannot_go(&self.next(p, turn.thread)) {
            GuidedEnd::Strayed
        } else {
            GuidedEnd::Budget(turn.thread)
        }
    }

    /// The end after the last turn.
    pub(crate) fn end_after(&self) -> GuidedEnd
        ensures { result ≡ end_after self.now }
    {
        if self.is_over() {
            GuidedEnd::Exit(self.exit_value())
        } else {
            GuidedEnd::Strayed
        }
    }
}
