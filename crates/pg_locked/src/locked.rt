//! What lies under the lock.

ghost use Rattle.std.specs.Prelude.{◌≡◌, ◌+◌, ◌<◌, ◌≤◌, ◌^◌, None, Some, IfErr, IfNone, IfOk, IfSome, drop, if◌then◌else◌, is_some, length, slice_get, slice_index, slice_set};
ghost use Rattle.pg_law_course.specs.pg_num.declared.limits.TheConstants.{GUIDED_STEP_LIMIT};
ghost use Rattle.pg_law_course.specs.pg_run.State.{exit_value_of, initial};
ghost use Rattle.pg_law_course.specs.pg_run.declared.guided_end.GuidedEnd.TheVariants.{Exit};
ghost use Rattle.pg_law_course.specs.pg_run.MachineStep.{turn_of};
ghost use Rattle.pg_law_course.specs.pg_law_order.Good.{IsGoodRun};
ghost use Rattle.pg_law_course.specs.pg_law_runs.Cuts.{CanRun};
ghost use Rattle.pg_locked.specs.Standing.{EndsAsGuided, GoesOn, StandsAtCut, given};
ghost use Rattle.pg_locked.specs.Tries.{Answers, refusal_of};

use crate::due::due;
use crate::named::Named;
use crate::tried::Tried;
use pg_law_course::pg_ir::{Program, ThreadNo};
use pg_law_course::pg_num::limits::{GUIDED_STEP_LIMIT, THREAD_LIMIT};
use pg_law_course::pg_run::{Guided, GuidedEnd, Machine, Next, Stepped};
use pg_law_course::pg_run_trace::{Schedule, Turn};
use std::alloc::{AllocError, Global};
use std::marker::{Model, PhantomData};

/// The machine of the run that `J` names, how many steps each thread has taken, and how many turns are done. Each change is a call
/// of `try_step`.
#[derive(Drop)]
pub struct Locked<'a, J: Named> {
    program: &'a Program,
    schedule: &'a Schedule,
    machine: Machine,
    taken: Vec<u32>,
    done: u32,
    of: PhantomData<J>,
}

impl<'a, J: Named> Model for Locked<'a, J> {
    ghost use Rattle.pg_locked.specs.Standing.{IsLocked, Standing};

    ghost Value = { Standing };

    ghost view = { λ l. record { state = l.machine.state; taken = l.taken.items; done = l.done } };

    ghost invariant = { λ l. IsLocked J.run l.program.now l.schedule.now l.machine l.taken.items l.done };
}

/// How many steps a thread has taken, by these counts.
fn count_of(taken: &[u32], t: ThreadNo) -> u32
    ensures { result ≡ slice_index taken.now t.0 }
{
    match taken.get(t.0 as usize) {
        Some(&n) => n,
        None => 0,
    }
}

/// Counts a step of a thread.
fn count_step(taken: &mut Vec<u32>, t: ThreadNo)
    requires there { t.0 < length taken.old.items }
    requires few { slice_index taken.old.items t.0 < GUIDED_STEP_LIMIT }
    ensures { taken.new.items ≡ slice_set taken.old.items t.0 (slice_index taken.old.items t.0 + 1) }
{
    taken[t.0 as usize] += 1;
}

/// How many turns are done behind a step, which is an event or not.
fn count_turn(done: u32, is_event: bool) -> u32
    requires { done + 1 < 2 ^ 32 }
    ensures { result ≡ done + (if is_event then 1 else 0) }
{
    if is_event { done + 1 } else { done }
}

/// The end of a run whose turns are all done.
fn exit_of(machine: &Machine) -> GuidedEnd
    ensures { result ≡ Exit (exit_value_of machine.now.state) }
{
    GuidedEnd::Exit(machine.value())
}

/// The turns that are left where so many are done.
fn left_of(turns: &[Turn], done: u32) -> &[Turn]
    requires { done ≤ length turns.now }
    ensures { result.now ≡ drop done turns.now }
{
    &turns[done as usize..]
}

/// The turn of this number.
fn turn_at(turns: &[Turn], number: u32) -> Option<Turn>
    ensures { result ≡ slice_get turns.now number }
{
    turns.get(number as usize).copied()
}

impl<'a, J: Named> Locked<'a, J> {
    /// Before the first step.
    ///
    /// # Errors
    ///
    /// Where no memory is left for it.
    pub fn new(
        alloc: Global,
        program: &'a Program,
        schedule: &'a Schedule,
        input: &[i64],
    ) -> Result<Locked<'a, J>, AllocError>
        requires named { J.run ≡ given program.now schedule.now input.now }
        requires can { CanRun program.now input.now }
        requires good { IsGoodRun program.now input.now schedule.now }
        ensures state { IfOk result (λ l. l.state ≡ initial program.now) }
        ensures turns { IfOk result (λ l. l.done ≡ 0) }
    {
        let machine = Machine::new(alloc, program, input, schedule.gated.as_slice())?;
        let taken = vec![in alloc; 0; THREAD_LIMIT as usize]?;
        Ok(Locked {
            program,
            schedule,
            machine,
            taken,
            done: 0,
            of: PhantomData,
        })
    }

    /// Whether the next step of a thread is an event, where it may be taken.
    ///
    /// # Errors
    ///
    /// Why it may not be taken.
    fn due(&self, t: ThreadNo) -> Result<bool, Tried>
        ensures refused { IfErr result (λ why. refusal_of J.run t.0 self.now ≡ Some why) }
        ensures may { IfOk result (λ _. refusal_of J.run t.0 self.now ≡ None) }
        ensures event { IfOk result (λ e. is_some (turn_of J.run.schedule.gated J.run.program self.now.state t.0) ≡ e) }
    {
        let left = left_of(self.schedule.turns.as_slice(), self.done);
        let taken = count_of(self.taken.as_slice(), t);
        due(self.program, &self.machine, left, taken, t)
    }

    /// Takes the next step of a thread, which may be taken and is an event or not. It did, or there was no memory for the step.
    fn take(&mut self, alloc: Global, t: ThreadNo, is_event: bool) -> Tried
        requires may { refusal_of J.run t.0 self.old ≡ None }
        requires event { is_some (turn_of J.run.schedule.gated J.run.program self.old.state t.0) ≡ is_event }
        ensures answer { Answers J.run t.0 self.old result self.new }
    {
        match self.machine.step(alloc, self.program, t) {
            Ok(Stepped::Did(_)) => {
                count_step(&mut self.taken, t);
                let done = count_turn(self.done, is_event);
                self.done = done;
                Tried::Did
            }
            Ok(Stepped::Trapped(..)) => unreachable!(),
            Err(AllocError) => Tried::OutOfMemory,
        }
    }

    /// Takes the next step of a thread, if it may be taken: it is made and hasn't ended, it has a turn and a step left and doesn't
    /// trap by itself, and an event is the next turn. All is as before where no step was taken.
    pub fn try_step(&mut self, alloc: Global, t: ThreadNo) -> Tried
        ensures answer { Answers J.run t.0 self.old result self.new }
    {
        match self.due(t) {
            Ok(is_event) => self.take(alloc, t, is_event),
            Err(why) => why,
        }
    }

    /// It stands at a cut of the full guided run.
    pub fn stands_at_a_cut(&self)
        ensures cut { StandsAtCut J.run self.now }
    {
        // Read for the proof: see docs/CONTRIBUTING.md.
        let _done = self.done;
    }

    /// How many threads are made.
    pub fn count(&self) -> usize
        ensures { result ≡ length self.now.state.locals }
    {
        self.machine.count()
    }

    /// How the run ends, where no turn is left, or the owner of the next one has stopped. Gives none where it goes on.
    pub fn end(&self) -> Option<GuidedEnd>
        ensures ends { IfSome result (EndsAsGuided J.run self.now) }
        ensures goes { IfNone result (GoesOn J.run self.now) }
    {
        let Some(turn) = turn_at(self.schedule.turns.as_slice(), self.done) else {
            return Some(exit_of(&self.machine));
        };
        let owner = turn.thread;
        if count_of(self.taken.as_slice(), owner) >= GUIDED_STEP_LIMIT {
            return Some(GuidedEnd::Budget(owner));
        }
        match self.machine.next(self.program, owner) {
            Next::Trap(name, id) => Some(GuidedEnd::Trap(name, id)),
            _ => None,
        }
    }

    /// What the run printed, with its end, and how many turns it did.
    pub fn into_guided(self, end: GuidedEnd) -> Guided
        ensures output { result.output.items ≡ self.entry.state.printed }
        ensures end { result.end ≡ end }
        ensures turns { result.turns ≡ self.entry.done }
    {
        let Locked { machine, done, .. } = self;
        Guided {
            output: machine.into_output(),
            end,
            turns: done,
        }
    }
}
