//! One step of the machine.

ghost use Rattle.std.specs.Prelude.{◌≡◌, ℕ, false, length, option_map, true, IfNone, IfOk, IfSome, OnErr, OnOk};
ghost use Rattle.pg_run_trace.specs.pg_ir.declared.ids.ThreadNo.{ThreadNo as AThreadNo};
ghost use Rattle.pg_run_objects.specs.Sync.{over};
ghost use Rattle.pg_run.specs.State.{exit_value_of, initial};
ghost use Rattle.pg_run_memory.specs.Memory.{read};
ghost use Rattle.pg_run.specs.Readers.{depth_of, register_of};
ghost use Rattle.pg_run.specs.MachineStep.{is_gated, ready, step};
ghost use Rattle.pg_run.specs.Machine.{IsMachine};
ghost use Rattle.pg_run.specs.Rotation.{deadlock_of, first_true};
ghost use Rattle.pg_run.specs.Bound.{next_by, next_step, stepped_as, IfTrapped};

use crate::gated::{Gated, listed};
use crate::outcome::Outcome;
use crate::rotation::{deadlock, first_ready};
use crate::run::Run;
use crate::state::MachineState;
use pg_run_thread::Action;
use pg_run_trace::pg_ir::{InstrId, Program, ThreadNo, TrapName};
use pg_run_trace::pg_num::Place;
use pg_run_trace::{Step, Turn};
use std::alloc::{AllocError, Global};
use std::marker::Model;

/// What a step was: done, or the trap of the thread's next action at its instruction.
#[derive(Clone, Copy, Debug, PartialEq, Eq)]
pub enum Stepped {
    Did(Step),
    Trapped(TrapName, InstrId),
}

/// What a thread's next step is.
#[derive(Clone, Copy, Debug, PartialEq, Eq)]
pub enum Next {
    /// There is no thread of this number.
    NotMade,
    /// The thread has ended.
    Ended,
    /// The thread's own state makes it trap, at this instruction.
    Trap(TrapName, InstrId),
    /// An event, as the turn that it would be.
    Event(Turn),
    /// A step that is no event, at this instruction.
    Other(InstrId),
}

/// The machine of a program's run on an input, with the instructions whose loads and stores are events.
#[derive(Drop)]
pub struct Machine {
    state: MachineState,
    input: Vec<i64>,
    gated: Gated,
}

impl Model for Machine {
    ghost use Rattle.pg_run.specs.Bound.{BoundState};

    ghost Value = { BoundState };

    ghost view = { λ m. record { state = m.state; input = m.input.items; gated = m.gated } };
}

impl MachineState {
    /// What an action of a thread is as its next step.
    fn next_by(&self, gated: &Gated, t: ThreadNo, action: &Action) -> Next
        ensures { result ≡ next_by gated.now self.now t.0 action.now }
    {
        match action {
            Action::Ended => Next::Ended,
            Action::Trap(name) => Next::Trap(*name, self.id(t)),
            _ => match self.turn(gated, t, action) {
                None => Next::Other(self.id(t)),
                Some(turn) => Next::Event(turn),
            },
        }
    }
}

impl Machine {
    /// The machine of a program before the first step of its run on an input. The loads and stores of
    /// the gated instructions are events.
    ///
    /// # Errors
    ///
    /// Where no memory is left for it.
    pub fn new(
        alloc: Global,
        p: &Program,
        input: &[i64],
        gated: &[InstrId],
    ) -> Result<Machine, AllocError>
        ensures state { IfOk result (λ m. m ≡ record { state = initial p.now; input = input.now; gated = gated.now }) }
        ensures of { IfOk result (λ m. IsMachine p.now m.state) }
    {
        Ok(Machine {
            state: MachineState::new(alloc, p)?,
            input: listed(alloc, input)?,
            gated: Gated::new(alloc, p, gated)?,
        })
    }

    /// Whether a thread's next step can be taken now, or traps: the run isn't over, the thread is made
    /// and hasn't ended, and what it waits for has come.
    pub fn ready(&self, p: &Program, t: ThreadNo) -> bool
        requires of { IsMachine p.now self.now.state }
        ensures ready { result ≡ ready p.now self.now.state t.0 }
    {
        self.state.ready(p, t)
    }

    /// Takes the next step of a thread that is ready: one instruction of one thread. Where it traps,
    /// and where no memory is left for it, the machine is as before.
    ///
    /// # Errors
    ///
    /// Where no memory is left for it.
    pub fn step(&mut self, alloc: Global, p: &Program, t: ThreadNo) -> Result<Stepped, AllocError>
        requires of { IsMachine p.now self.old.state }
        requires ready { ready p.now self.old.state t.0 ≡ true }
        ensures step { IfOk result (λ r. stepped_as r self.new.state ≡ step self.old.gated p.now self.old.input self.old.state t.0) }
        ensures of { OnOk result (IsMachine p.now self.new.state) }
        ensures trap { IfOk result (λ r. IfTrapped r (self.new ≡ self.old)) }
        ensures kept { OnErr result (self.new ≡ self.old) }
        ensures input { self.new.input ≡ self.old.input }
        ensures gated { self.new.gated ≡ self.old.gated }
    {
        let run = Run {
            alloc,
            program: p,
            input: self.input.as_slice(),
            gated: &self.gated,
        };
        self.state.step(&run, t)
    }

    /// What a thread's next step is.
    pub fn next(&self, p: &Program, t: ThreadNo) -> Next
        requires of { IsMachine p.now self.now.state }
        ensures next { result ≡ next_step p.now self.now t.0 }
    {
        if (t.0 as usize) < self.state.count() {
            self.state.next_by(&self.gated, t, &self.state.next(p, t))
        } else {
            Next::NotMade
        }
    }

    /// The value of a register of a thread's present call; none where it was never set or isn't there, and
    /// where the thread isn't made or has ended.
    pub fn register(&self, t: ThreadNo, r: u32) -> Option<u64>
        ensures value { result ≡ register_of self.now.state t.0 r }
    {
        self.state.register(t, r)
    }

    /// How many calls of a thread are open; none where it isn't made or has ended.
    pub fn depth(&self, t: ThreadNo) -> u32
        ensures count { result ≡ depth_of self.now.state t.0 }
    {
        self.state.depth(t)
    }

    /// The number that stands in these bytes of memory.
    pub fn read(&self, at: Place) -> u64
        ensures number { result ≡ read self.now.state.memory at }
    {
        self.state.read(at)
    }

    /// Whether the loads and stores of an instruction are events.
    pub fn is_gated(&self, id: InstrId) -> bool
        ensures gated { result ≡ is_gated self.now.gated id.0 }
    {
        self.gated.has(id)
    }

    /// The bytes that were printed so far.
    pub fn output(&self) -> &[u8]
        ensures bytes { result.now ≡ self.now.state.printed }
    {
        self.state.printed()
    }

    /// Main's value, 0 before it has one.
    pub fn value(&self) -> i32
        ensures value { result ≡ exit_value_of self.now.state }
    {
        self.state.exit_value()
    }
    /// Whether the run is over.
    pub fn is_over(&self) -> bool
        ensures over { result ≡ over self.now.state.sync }
    {
        self.state.is_over()
    }

    /// How many threads were made.
    pub fn count(&self) -> usize
        ensures count { result ≡ length self.now.state.locals }
    {
        self.state.count()
    }

    /// The lowest-numbered thread that is ready; none where no thread is.
    #[tactic(auto, using(crate::proofs::Recordings::none_from))]
    pub fn first_ready(&self, p: &Program) -> Option<ThreadNo>
        requires of { IsMachine p.now self.now.state }
        ensures least { option_map (λ (t : AThreadNo). t.0) result ≡ first_true (ready p.now self.now.state) (length self.now.state.locals) }
        ensures ready { IfSome result (λ t. ready p.now self.now.state t.0 ≡ true) }
        ensures none { IfNone result ((t : ℕ) → ready p.now self.now.state t ≡ false) }
    {
        match first_ready(&self.state, p) {
            None => None,
            Some(t) => Some(ThreadNo(t as u8)),
        }
    }

    /// The end of a run that isn't over and in which no thread is ready.
    pub fn deadlock(&self, p: &Program) -> Outcome
        requires of { IsMachine p.now self.now.state }
        ensures end { result ≡ deadlock_of p.now self.now.state }
    {
        deadlock(&self.state, p)
    }

    /// The bytes that were printed.
    pub fn into_output(self) -> Vec<u8>
        ensures bytes { result.items ≡ self.state.printed }
    {
        self.state.into_printed()
    }
}
