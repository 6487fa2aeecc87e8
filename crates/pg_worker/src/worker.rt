//! A worker, and why it pauses.

ghost use Rattle.std.specs.Prelude.{◌≡◌, ◌<◌, [], Some, length, max};
ghost use Rattle.pg_seats.specs.pg_run_thread.States.{IsOf};
ghost use Rattle.pg_seats.specs.Views.{seen_of};
ghost use Rattle.pg_seats.specs.declared.run.View.TheVariants.{Note};
ghost use Rattle.pg_worker.specs.Standing.{IsAt, end_by, looks_of, next_turn_of, noted_in, run_in, table_in};

use crate::pages::Pages;
use crate::shared::Shared;
use pg_seats::pg_ir::{Program, ThreadNo};
use pg_seats::pg_run::GuidedEnd;
use pg_seats::pg_run_thread::{Action, Fiber};
use pg_seats::{Place, seats};

/// Runs one thread of a program along a schedule: the thread's seat at the shared words, its own state, how many steps it may still
/// take, the numbers of its turns in the schedule, how many of these are done, the numbers that it printed, with room for all, the
/// value with which it exited, 0 before, and the pages that it wrote.
#[derive(Drop)]
pub struct Worker {
    pub(crate) seat: Place,
    pub(crate) fiber: Fiber,
    pub(crate) left: u32,
    pub(crate) thread: ThreadNo,
    pub(crate) turns: Vec<u64>,
    pub(crate) done: usize,
    pub(crate) prints: Vec<u64>,
    pub(crate) value: u64,
    pub(crate) pages: Pages,
}

/// Why a worker pauses.
#[derive(Clone, Copy, Debug, PartialEq, Eq)]
pub enum Paused {
    /// Its last turn is done.
    Done,
    /// Its next turn isn't due.
    Waiting,
    /// A turn is left, and it traps by itself or has taken all steps that a thread may take.
    Stopped,
}

/// What became of a worker's next step.
#[derive(Clone, Copy, Debug, PartialEq, Eq)]
pub(crate) enum Taken {
    /// It is done.
    Step,
    /// It is a turn, or behind the run's last one, and isn't due.
    Waits,
    /// It traps by the thread's own state.
    Traps,
}

impl Worker {
    /// Its thread.
    pub fn thread(&self) -> ThreadNo
        ensures { result ≡ self.now.thread }
    {
        self.thread
    }

    /// How many of its turns are done.
    pub fn turns_done(&self) -> usize
        ensures { result ≡ self.now.done }
    {
        self.done
    }

    /// The number of its next turn.
    pub(crate) fn next_turn(&self) -> u64
        requires { self.now.done < length self.now.turns.items }
        ensures { next_turn_of self.now ≡ Some result }
    {
        self.turns[self.done]
    }

    /// The number of its next turn, if a turn is left.
    pub fn next(&self) -> Option<u64>
        ensures { result ≡ next_turn_of self.now }
    {
        self.turns.as_slice().get(self.done).copied()
    }

    /// The numbers that it printed, one for each of its print turns that are done.
    pub fn prints(&self) -> &[u64]
        ensures { result.now ≡ self.now.prints.items }
    {
        self.prints.as_slice()
    }

    /// The value with which it exited, 0 before.
    pub fn value(&self) -> u64
        ensures { result ≡ self.now.value }
    {
        self.value
    }

    /// The end of the run where it owns the next turn and is stopped: that its steps are spent, or else its trap.
    pub fn end(&self, p: &Program) -> GuidedEnd
        requires { IsOf p.now self.now.fiber }
        ensures { result ≡ end_by p.now self.now }
    {
        if self.left == 0 {
            return GuidedEnd::Budget(self.thread);
        }
        match self.fiber.next(p) {
            Action::Trap(name) => GuidedEnd::Trap(name, self.fiber.id()),
            _ => GuidedEnd::Strayed,
        }
    }

    /// A note of the turns that its seat knows to be done.
    pub fn note(&mut self, shared: &Shared<'_>) -> Place
        requires at { IsAt (run_in shared.now) (table_in shared.now) 0 self.old }
        ensures at { IsAt (run_in shared.now) (table_in shared.now) 0 self.new }
        ensures same { self.new ≡ record self.old { seat = self.new.seat } }
        ensures view { self.new.seat.me ≡ self.old.seat.me }
        ensures given { (result.table_id ≡ table_in shared.now) × (result.me ≡ (Note (run_in shared.now) (seen_of self.old.seat.me.0), [])) }
    {
        seats::note(&shared.words, &mut self.seat)
    }

    /// Takes a note of the same run: its seat knows of the turns that either knew of.
    pub fn take_note(&mut self, shared: &Shared<'_>, note: Place)
        requires at { IsAt (run_in shared.now) (table_in shared.now) 0 self.old }
        requires own { note.table_id ≡ table_in shared.now }
        requires note { note.me ≡ (Note (run_in shared.now) (noted_in note.me.0), []) }
        ensures at { IsAt (run_in shared.now) (table_in shared.now) 0 self.new }
        ensures same { self.new ≡ record self.old { seat = self.new.seat } }
        ensures seen { seen_of self.new.seat.me.0 ≡ max (seen_of self.old.seat.me.0) (noted_in note.me.0) }
        ensures looks { looks_of self.new.seat.me.0 ≡ looks_of self.old.seat.me.0 }
    {
        seats::take_note(&shared.words, &mut self.seat, note);
    }

    /// Its seat, which the pool takes back, and the pages that it wrote.
    pub fn into_parts(self) -> (Place, Pages)
        ensures { result ≡ (self.seat, self.pages) }
    {
        let Worker {
            seat,
            fiber: _,
            left: _,
            thread: _,
            turns: _,
            done: _,
            prints: _,
            value: _,
            pages,
        } = self;
        (seat, pages)
    }
}
