//! What a trace is told of a step.

ghost use Rattle.std.specs.Prelude.{◌≡◌, slice_get};
ghost use Rattle.std.specs.List.{All};
ghost use Rattle.pg_run_thread.specs.States.{IsOf};
ghost use Rattle.pg_run.specs.State.{instr_of, next_of};
ghost use Rattle.pg_run.specs.Filled.{filled};
ghost use Rattle.pg_run.specs.Went.{kind_of};
ghost use Rattle.pg_run.specs.MachineStep.{access_told, event_told, happening_if, happening_of, instr_told, kind_told, op_told, operands_in, turn_with, write_told};

use crate::gated::Gated;
use crate::state::MachineState;
use pg_run_thread::{Action, LocalStep};
use pg_run_trace::pg_ir::{InstrId, LibraryCall, Op, Program, Request, ThreadNo};
use pg_run_trace::pg_num::Place;
use pg_run_trace::{
    Access, Event, Happening, StepKind, Turn, TurnKind, Write, happening_of, kind_of, object_of,
};

/// An event of this kind and object, where it is one.
fn happening_if(is_event: bool, kind: TurnKind, object: u64) -> Option<Happening>
    ensures { result ≡ happening_if is_event kind object }
{
    if is_event {
        Some(Happening { kind, object })
    } else {
        None
    }
}

/// What is told of a step with the answer to its action, and the number that its register got.
#[inline(always)]
pub(crate) fn filled(kind: StepKind, answer: u64, number: u64) -> StepKind
    ensures { result ≡ filled kind answer number }
{
    match kind {
        StepKind::Allocation { operand, .. } => StepKind::Allocation {
            operand,
            result: number,
        },
        StepKind::Access(access) if !access.writes => StepKind::Access(Access {
            number: answer,
            ..access
        }),
        StepKind::Event(event) => StepKind::Event(Event {
            reply: number,
            ..event
        }),
        _ => kind,
    }
}

/// What the trace tells of a step that only its thread's own state decides and sees.
#[inline(always)]
pub(crate) fn told_as(step: LocalStep) -> StepKind
    ensures { result ≡ kind_of step }
{
    match step {
        LocalStep::Other => StepKind::Other,
        LocalStep::Branch { condition } => StepKind::Branch { condition },
        LocalStep::Allocation { operand, result } => StepKind::Allocation { operand, result },
    }
}

impl MachineState {
    /// The event that an action of a thread is, if it is one.
    // Most actions are no event, which a step that isn't told finds out here.
    #[inline(always)]
    pub(crate) fn happening(&self, gated: &Gated, t: ThreadNo, action: &Action) -> Option<Happening>
        ensures { result ≡ happening_of gated.now self.now t.0 action.now }
    {
        match action {
            Action::Event(r) => Some(happening_of(t, self.thread_count(), r)),
            Action::Load(at) => happening_if(
                gated.has(self.id(t)),
                TurnKind::Load,
                at.start() as u64,
            ),
            Action::Store(at, _) => happening_if(
                gated.has(self.id(t)),
                TurnKind::Store,
                at.start() as u64,
            ),
            _ => None,
        }
    }

    /// The turn that a thread's action is, if it is an event.
    pub(crate) fn turn(&self, gated: &Gated, t: ThreadNo, action: &Action) -> Option<Turn>
        ensures { result ≡ turn_with self.now t.0 (happening_of gated.now self.now t.0 action.now) }
    {
        match self.happening(gated, t, action) {
            None => None,
            Some(event) => Some(Turn {
                thread: t,
                instr: self.id(t),
                kind: event.kind,
                object: event.object,
            }),
        }
    }

    /// The access of a thread through the pointer that this word is.
    fn tell_access(
        &self,
        gated: &Gated,
        t: ThreadNo,
        pointer: u64,
        at: Place,
        writes: bool,
        number: u64,
    ) -> StepKind
        ensures { result ≡ access_told gated.now self.now t.0 pointer at writes number }
    {
        StepKind::Access(Access {
            pointer,
            number,
            bytes: at.bytes(),
            writes,
            event: gated.has(self.id(t)),
        })
    }

    /// The write of a create through its first operand, and of a join with a place through its second.
    fn tell_write(&self, operands: &[u64; 4], r: &Request) -> Option<Write>
        ensures { result ≡ write_told self.now operands.now r.now }
    {
        match *r {
            Request::Create { .. } => Some(Write {
                pointer: operands[0],
                number: self.count() as u64,
            }),
            Request::Join {
                target,
                at: Some(_),
            } => Some(Write {
                pointer: operands[1],
                number: self.word(target),
            }),
            _ => None,
        }
    }

    /// What a request is, but for the number that its register gets.
    fn tell_event(&self, t: ThreadNo, operands: [u64; 4], r: &Request) -> StepKind
        ensures { result ≡ event_told self.now t.0 operands 0 r.now }
    {
        StepKind::Event(Event {
            kind: kind_of(r),
            object: object_of(t, self.thread_count(), r),
            operands,
            reply: 0,
            write: self.tell_write(&operands, r),
        })
    }

    /// What an operation is that only the thread's own state decides, but for the number that its register
    /// gets.
    fn tell_operation(&self, p: &Program, t: ThreadNo, op: &Op) -> StepKind
        requires { All (IsOf p.now) self.now.locals }
        ensures { result ≡ op_told (operands_in p.now (slice_get self.now.locals t.0)) 0 op.now }
    {
        match op {
            Op::CondBr { .. } | Op::Switch { .. } => StepKind::Branch {
                condition: self.operands(p, t)[0],
            },
            Op::Alloca { .. } => StepKind::Allocation {
                operand: 0,
                result: 0,
            },
            Op::CallLibrary {
                function: LibraryCall::Malloc,
                ..
            } => StepKind::Allocation {
                operand: self.operands(p, t)[0],
                result: 0,
            },
            _ => StepKind::Other,
        }
    }

    /// As `tell_operation` of the instruction of this number.
    fn tell_instr(&self, p: &Program, t: ThreadNo, id: InstrId) -> StepKind
        requires { All (IsOf p.now) self.now.locals }
        ensures { result ≡ instr_told (operands_in p.now (slice_get self.now.locals t.0)) 0 (slice_get p.now.instrs id.0) }
    {
        if id.0 < p.instr_count() {
            self.tell_operation(p, t, &p.instr(id).op)
        } else {
            StepKind::Other
        }
    }

    /// What the trace tells of the next step of a thread, which is this action, but for the answer to it
    /// and the number that its register gets.
    pub(crate) fn tell(&self, p: &Program, gated: &Gated, t: ThreadNo, action: &Action) -> StepKind
        requires { All (IsOf p.now) self.now.locals }
        ensures { result ≡ kind_told gated.now p.now self.now t.0 (operands_in p.now (slice_get self.now.locals t.0)) 0 0 action.now }
    {
        match action {
            Action::Local => self.tell_instr(p, t, self.id(t)),
            Action::Load(at) => self.tell_access(gated, t, self.operands(p, t)[0], *at, false, 0),
            Action::Store(at, number) => {
                self.tell_access(gated, t, self.operands(p, t)[1], *at, true, *number)
            }
            Action::Event(r) => self.tell_event(t, self.operands(p, t), r),
            _ => StepKind::Other,
        }
    }
}
