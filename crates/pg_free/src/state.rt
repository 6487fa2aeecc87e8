//! What lies under the lock: a machine and its list of steps.
ghost use Rattle.std.specs.Prelude.{◌≡◌, ◌≤◌, ◌<◌, [], None, Some, length, true, IfNone, IfOk, IfSome};
ghost use Rattle.pg_num.specs.declared.limits.TheConstants.{RECORDING_STEP_LIMIT};
ghost use Rattle.pg_run.specs.Recordings.{EndsBy, IsRecording};
ghost use Rattle.pg_free.specs.States.{Attempts, IsDone, IsFor};
ghost use Rattle.pg_free.specs.declared.noted.Noted.TheVariants.{NoMemory};

use crate::noted::Noted;
use pg_ir::{Program, ThreadNo};
use pg_num::limits::RECORDING_STEP_LIMIT;
use pg_run::{Machine, Outcome, Recorded, Refusal, Stepped};
use pg_run_trace::Trace;
use std::alloc::{AllocError, Global};
use std::marker::Model;

/// A machine with its program, and the steps that led to its state. Beside them stands what was noted: a trap, or want of memory.
/// Each change is a call of `attempt`.
#[derive(Drop)]
pub struct FreeState<'a> {
    program: &'a Program,
    machine: Machine,
    trace: Trace,
    noted: Option<Noted>,
}

impl<'a> Model for FreeState<'a> {
    ghost use Rattle.pg_free.specs.States.{FreeRun, IsHistory};

    ghost Value = { FreeRun };

    ghost view = { λ s. record { program = s.program.now; input = s.machine.input; steps = s.trace.steps; state = s.machine.state; noted = s.noted } };

    ghost invariant = { λ s. IsHistory s.program.now s.machine s.trace s.noted };
}

impl<'a> FreeState<'a> {
    /// The machine before the first step.
    pub(crate) fn new(
        alloc: Global,
        program: &'a Program,
        input: &[i64],
    ) -> Result<FreeState<'a>, AllocError>
        ensures of { IfOk result (IsFor program.now input.now) }
    {
        Ok(FreeState {
            program,
            machine: Machine::new(alloc, program, input, &[])?,
            trace: Trace::with_room(alloc, RECORDING_STEP_LIMIT as usize)?,
            noted: None,
        })
    }

    /// Takes one step of a thread. It takes none where the run is over, where the thread isn't made, has ended or isn't ready,
    /// where a recording may have no step more, or where something was noted before; nor where the thread's next step traps or
    /// there is no memory for it, which is then noted. Whether it took one.
    pub fn attempt(&mut self, alloc: Global, t: ThreadNo) -> bool
        ensures tells { Attempts t self.old result self.new }
    {
        if self.noted.is_some() || self.trace.room_left() == 0 {
            return false;
        }
        if !self.machine.ready(self.program, t) {
            return false;
        }
        match self.machine.step(alloc, self.program, t) {
            Ok(Stepped::Did(step)) => {
                self.trace.push(step);
                true
            }
            Ok(Stepped::Trapped(name, id)) => {
                self.noted = Some(Noted::Trap(t, name, id));
                false
            }
            Err(AllocError) => {
                self.noted = Some(Noted::NoMemory);
                false
            }
        }
    }

    /// Takes up to so many steps of a thread, one after another. Whether it took all of them.
    pub(crate) fn attempts(&mut self, alloc: Global, t: ThreadNo, most: u32) -> bool
        ensures of { IsFor self.old.program self.old.input self.new }
    {
        for _ in 0..most {
            if !self.attempt(alloc, t) {
                return false;
            }
        }
        true
    }

    /// How many threads were made.
    pub(crate) fn count(&self) -> usize {
        self.machine.count()
    }

    /// Whether no thread can take a step more.
    pub(crate) fn is_done(&self) -> bool {
        self.noted.is_some()
            || self.trace.room_left() == 0
            || self.machine.first_ready(self.program).is_none()
    }

    /// How the run ends, where no thread can take a step more; none where there was no memory for a step.
    fn end(&self) -> Option<Outcome>
        requires done { IsDone self.now }
        ensures end { IfSome result (EndsBy RECORDING_STEP_LIMIT self.now.program self.now.input self.now.steps self.now.state) }
        ensures none { IfNone result (self.now.noted ≡ Some NoMemory) }
    {
        match self.noted {
            Some(Noted::Trap(_, name, id)) => Some(Outcome::Refused(Refusal::Trap(name, id))),
            Some(Noted::NoMemory) => None,
            None => {
                if self.machine.is_over() {
                    return Some(Outcome::Exit(self.machine.value()));
                }
                match self.machine.first_ready(self.program) {
                    Some(_) => Some(Outcome::Refused(Refusal::Budget)),
                    None => Some(self.machine.deadlock(self.program)),
                }
            }
        }
    }

    /// The thread of each step, and then that of the trap that was noted.
    ///
    /// # Errors
    ///
    /// Where no memory is left for them, or none was for a step.
    pub(crate) fn threads(&self, alloc: Global) -> Result<Vec<ThreadNo>, AllocError> {
        let mut threads = Vec::with_capacity(alloc, self.trace.len())?;
        for i in 0..self.trace.len() {
            let step = self.trace.step(i);
            threads.push(step.thread)?;
        }
        match self.noted {
            Some(Noted::NoMemory) => return Err(AllocError),
            Some(Noted::Trap(t, _, _)) => threads.push(t)?,
            None => {}
        }
        Ok(threads)
    }

    /// Takes a step of each of these threads that can, one after another.
    pub(crate) fn take(&mut self, alloc: Global, threads: &[ThreadNo])
        ensures of { IsFor self.old.program self.old.input self.new }
    {
        for t in threads {
            self.attempt(alloc, *t);
        }
    }

    /// Takes the steps that are left, each of the lowest-numbered thread that is ready.
    pub(crate) fn finish(&mut self, alloc: Global)
        ensures of { IsFor self.old.program self.old.input self.new }
        ensures done { IsDone self.new }
    {
        for _ in 0..RECORDING_STEP_LIMIT {
            let Some(t) = self.machine.first_ready(self.program) else {
                return;
            };
            if !self.attempt(alloc, t) {
                return;
            }
        }
        // Called for the proof: see docs/CONTRIBUTING.md. No list of steps is longer than a recording.
        let _left = self.trace.room_left();
    }

    /// The recording, where no thread can take a step more.
    ///
    /// # Errors
    ///
    /// Where there was no memory for a step.
    pub(crate) fn recorded(self) -> Result<Recorded, AllocError>
        requires done { IsDone self }
        ensures recording { IfOk result (λ r. IsRecording self.entry.program self.entry.input r.trace.steps self.entry.state r.end) }
        ensures output { IfOk result (λ r. r.output.items ≡ self.entry.state.printed) }
        ensures room { IfOk result (λ r. r.trace.room ≡ RECORDING_STEP_LIMIT) }
    {
        let Some(end) = self.end() else {
            return Err(AllocError);
        };
        let FreeState { machine, trace, .. } = self;
        Ok(Recorded {
            trace,
            output: machine.into_output(),
            end,
        })
    }
}
