//! The turns of a worker: it waits until its next turn is due, does what the turn reads and leaves, and ends it.

ghost use Rattle.std.specs.Prelude.{◌≡◌, ℕ, ◌++◌, ◌<◌, ◌≤◌, Some, [], length, true, false, vec_capacity};
ghost use Rattle.std.specs.List.{cons_option};
ghost use Rattle.pg_seats.specs.pg_num.Places.{ByteRange, IsPlace};
ghost use Rattle.pg_seats.specs.pg_run_thread.Step.{next};
ghost use Rattle.pg_seats.specs.pg_law_threads.Effects.{or_old};
ghost use Rattle.pg_seats.specs.pg_law_course.Prints.{number_printed};
ghost use Rattle.pg_seats.specs.Views.{may_advance};
ghost use Rattle.pg_worker.specs.Standing.{HasKept, HasToWait, IsAnswered, IsAt, IsDue, TookTurn, WentOn, place_stored, run_in, stands_at_event, table_in, value_left, waits_there};
ghost use Rattle.pg_worker.specs.Pages.{is_marked, page_of};

use crate::awaits::await_turn;
use crate::shared::Shared;
use crate::worker::Worker;
use pg_seats::pg_ir::Request;
use pg_seats::pg_num::Place as Range;
use pg_seats::pg_run_thread::Action;
use pg_seats::turns;

/// The number that an action prints, if it prints one.
fn printed_by(action: &Action) -> Option<u64>
    ensures { result ≡ number_printed action.now }
{
    match action {
        Action::Event(Request::Out { value, .. } | Request::Putchar { value }) => Some(*value),
        _ => None,
    }
}

/// Where an action stores, if it stores.
fn stored_by(action: &Action) -> Option<Range>
    ensures { result ≡ place_stored action.now }
{
    match action {
        Action::Store(at, _) => Some(*at),
        Action::Event(Request::Create { at, .. }) => Some(*at),
        Action::Event(Request::Join { at, .. }) => *at,
        _ => None,
    }
}

/// The value with which an action ends its thread, if it does.
fn value_of(action: &Action) -> Option<u64>
    ensures { result ≡ value_left action.now }
{
    match action {
        Action::Event(Request::Exit { value, .. }) => Some(*value),
        _ => None,
    }
}

impl Worker {
    /// Waits for its next turn, and reads the turn word through its seat. Says whether the turn is due.
    pub(crate) fn comes(&mut self, shared: &Shared<'_>) -> bool
        requires at { IsAt (run_in shared.now) (table_in shared.now) 0 self.old }
        requires left { 0 < self.old.left }
        requires turn { self.old.done < length self.old.turns.items }
        requires waits { waits_there (run_in shared.now) self.old.fiber ≡ true }
        ensures at { IsAt (run_in shared.now) (table_in shared.now) 0 self.new }
        ensures same { self.new ≡ record self.old { seat = self.new.seat } }
        ensures went { WentOn self.old self.new }
        ensures due { result ≡ true → IsDue self.new }
        ensures early { result ≡ false → HasToWait self.old self.new }
    {
        let turn = self.next_turn();
        await_turn(shared, turn);
        let found = turns::look(&shared.words, &mut self.seat);
        found == turn
    }

    /// Keeps the number that a turn prints, if it prints one.
    fn print(&mut self, printed: Option<u64>)
        requires room { length self.old.prints.items < vec_capacity self.old.prints }
        ensures items { self.new.prints.items ≡ self.old.prints.items ++ cons_option printed [] }
        ensures room { vec_capacity self.old.prints ≤ vec_capacity self.new.prints }
        ensures same { self.new ≡ record self.old { prints = self.new.prints } }
    {
        if let Some(number) = printed {
            if let Err(_) = self.prints.push(number) {
                unreachable!();
            }
        }
    }

    /// Marks the page in which a turn stores, if it stores.
    fn mark(&mut self, stored: Option<Range>)
        ensures stored { (q : ByteRange) → stored ≡ Some q → IsPlace q × (is_marked self.new.pages.words.items (page_of q.start) ≡ true) }
        ensures marked { (page : ℕ) → is_marked self.old.pages.words.items page ≡ true → is_marked self.new.pages.words.items page ≡ true }
        ensures same { self.new ≡ record self.old { pages = self.new.pages } }
    {
        if let Some(at) = stored {
            self.pages.mark(at);
        }
    }

    /// Keeps the value with which the thread ends, if it does.
    fn leave(&mut self, value: Option<u64>)
        ensures value { self.new.value ≡ or_old value self.old.value }
        ensures same { self.new ≡ record self.old { value = self.new.value } }
    {
        if let Some(value) = value {
            self.value = value;
        }
    }

    /// Keeps what an action prints, the page in which it stores, and the value that it leaves.
    fn keep(&mut self, action: &Action)
        requires room { length self.old.prints.items < vec_capacity self.old.prints }
        ensures { HasKept action.now self.old self.new }
    {
        self.print(printed_by(action));
        self.mark(stored_by(action));
        self.leave(value_of(action));
    }

    /// Ends the turn that is due, with the answer to its action.
    pub(crate) fn end_turn(&mut self, shared: &Shared<'_>, action: Action, answer: u64)
        requires at { IsAnswered (run_in shared.now) (table_in shared.now) answer self.old }
        requires left { 0 < self.old.left }
        requires turn { self.old.done < length self.old.turns.items }
        requires event { stands_at_event (run_in shared.now) self.old.fiber ≡ true }
        requires due { IsDue self.old }
        requires parts { may_advance self.old.seat.me.0 ≡ true }
        requires next { next shared.now.program.now self.old.fiber ≡ action }
        ensures at { IsAt (run_in shared.now) (table_in shared.now) 0 self.new }
        ensures took { TookTurn self.old self.new }
    {
        // Called for the proof: see docs/CONTRIBUTING.md.
        let _turn = self.next_turn();
        self.keep(&action);
        turns::advance(&shared.words, &mut self.seat);
        self.done += 1;
        self.resume(shared.program, answer);
    }
}
