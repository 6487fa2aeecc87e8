//! What each kind of turn reads and leaves.

ghost use Rattle.std.specs.Prelude.{◌≡◌, ℕ, ℤ, ◌<◌, List, Some, length, slice_get, slice_index, true};
ghost use Rattle.pg_seats.specs.pg_num.declared.limits.TheConstants.{THREAD_LIMIT};
ghost use Rattle.pg_seats.specs.pg_ir.declared.request.Request.TheVariants as requests;
ghost use Rattle.pg_seats.specs.pg_run_thread.Step.{next};
ghost use Rattle.pg_seats.specs.pg_run_thread.declared.action.Action.TheVariants as actions;
ghost use Rattle.pg_seats.specs.pg_law_course.Steps.{answer_by, made_by};
ghost use Rattle.pg_worker.specs.Standing.{IsAt, IsDue, TookTurn, is_bare, next_turn_of, run_in, stands_at_event, table_in};

use crate::shared::Shared;
use crate::worker::Worker;
use pg_seats::pg_ir::{Request, ThreadNo};
use pg_seats::pg_num::Place as Range;
use pg_seats::pg_run_thread::Action;
use pg_seats::{accesses, turns};

/// The answer to a request that reads and leaves nothing, by the schedule's reply.
fn answer_to(request: &Request, reply: u64) -> u64
    requires { is_bare request.now ≡ true }
    ensures { (input : List ℤ) (cells : ℕ → ℕ) (t : ℕ) → result ≡ answer_by input cells t reply (actions.Event request.now) }
{
    match *request {
        Request::Putchar { value } => value % 256,
        _ => reply,
    }
}

/// A thread by its number.
fn thread_of(number: u64) -> ThreadNo
    requires inside { number < THREAD_LIMIT }
    ensures { result.0 ≡ number }
{
    ThreadNo(number as u8)
}

impl Worker {
    /// The schedule's reply at the worker's next turn.
    fn reply(&self, shared: &Shared<'_>) -> u64
        requires turn { self.now.done < length self.now.turns.items }
        ensures { (g : ℕ) → next_turn_of self.now ≡ Some g → result ≡ slice_index shared.now.schedule.now.replies g }
    {
        match shared
            .schedule
            .replies
            .as_slice()
            .get(self.next_turn() as usize)
        {
            Some(&reply) => reply,
            None => 0,
        }
    }

    /// The number of the thread that the worker's next turn makes, where it is a create.
    fn made(&self, shared: &Shared<'_>) -> u64
        requires turn { self.now.done < length self.now.turns.items }
        ensures { (g : ℕ) → next_turn_of self.now ≡ Some g → result ≡ made_by (slice_get shared.now.schedule.now.turns g) }
    {
        match shared
            .schedule
            .turns
            .as_slice()
            .get(self.next_turn() as usize)
        {
            Some(turn) => turn.object,
            None => 0,
        }
    }

    /// A load that is a turn.
    fn load_due(&mut self, shared: &Shared<'_>, at: Range)
        requires at { IsAt (run_in shared.now) (table_in shared.now) 0 self.old }
        requires left { 0 < self.old.left }
        requires turn { self.old.done < length self.old.turns.items }
        requires event { stands_at_event (run_in shared.now) self.old.fiber ≡ true }
        requires due { IsDue self.old }
        requires next { next shared.now.program.now self.old.fiber ≡ actions.Load at }
        ensures at { IsAt (run_in shared.now) (table_in shared.now) 0 self.new }
        ensures took { TookTurn self.old self.new }
    {
        let number = accesses::load_due(&shared.words, &mut self.seat, at);
        self.end_turn(shared, Action::Load(at), number);
    }

    /// A store that is a turn.
    fn store_due(&mut self, shared: &Shared<'_>, at: Range, number: u64)
        requires at { IsAt (run_in shared.now) (table_in shared.now) 0 self.old }
        requires left { 0 < self.old.left }
        requires turn { self.old.done < length self.old.turns.items }
        requires event { stands_at_event (run_in shared.now) self.old.fiber ≡ true }
        requires due { IsDue self.old }
        requires next { next shared.now.program.now self.old.fiber ≡ actions.Store at number }
        ensures at { IsAt (run_in shared.now) (table_in shared.now) 0 self.new }
        ensures took { TookTurn self.old self.new }
    {
        accesses::store_due(&shared.words, &mut self.seat, at, number);
        self.end_turn(shared, Action::Store(at, number), 0);
    }

    /// The start of the thread, which reads its argument.
    fn start(&mut self, shared: &Shared<'_>)
        requires at { IsAt (run_in shared.now) (table_in shared.now) 0 self.old }
        requires left { 0 < self.old.left }
        requires turn { self.old.done < length self.old.turns.items }
        requires due { IsDue self.old }
        requires next { next shared.now.program.now self.old.fiber ≡ actions.Event requests.Start }
        ensures at { IsAt (run_in shared.now) (table_in shared.now) 0 self.new }
        ensures took { TookTurn self.old self.new }
    {
        let argument = turns::get_word(&shared.words, &mut self.seat, self.thread);
        self.end_turn(shared, Action::Event(Request::Start), argument);
    }

    /// The exit of the thread, which leaves its value.
    fn exit(&mut self, shared: &Shared<'_>, value: u64, is_return: bool)
        requires at { IsAt (run_in shared.now) (table_in shared.now) 0 self.old }
        requires left { 0 < self.old.left }
        requires turn { self.old.done < length self.old.turns.items }
        requires due { IsDue self.old }
        requires next { next shared.now.program.now self.old.fiber ≡ actions.Event (requests.Exit value is_return) }
        ensures at { IsAt (run_in shared.now) (table_in shared.now) 0 self.new }
        ensures took { TookTurn self.old self.new }
    {
        turns::put_word(&shared.words, &mut self.seat, self.thread, value);
        let reply = self.reply(shared);
        self.end_turn(
            shared,
            Action::Event(Request::Exit { value, is_return }),
            reply,
        );
    }

    /// A create, which leaves the new thread's argument and stores its number.
    fn create(&mut self, shared: &Shared<'_>, at: Range, function: u32, argument: u64)
        requires at { IsAt (run_in shared.now) (table_in shared.now) 0 self.old }
        requires left { 0 < self.old.left }
        requires turn { self.old.done < length self.old.turns.items }
        requires due { IsDue self.old }
        requires next { next shared.now.program.now self.old.fiber ≡ actions.Event (requests.Create at function argument) }
        ensures at { IsAt (run_in shared.now) (table_in shared.now) 0 self.new }
        ensures took { TookTurn self.old self.new }
    {
        let made = self.made(shared);
        let thread = thread_of(made);
        turns::put_word(&shared.words, &mut self.seat, thread, argument);
        accesses::store_due(&shared.words, &mut self.seat, at, made);
        let reply = self.reply(shared);
        self.end_turn(
            shared,
            Action::Event(Request::Create {
                at,
                function,
                argument,
            }),
            reply,
        );
    }

    /// A join with a place, which stores the value of the thread that it joins.
    fn join(&mut self, shared: &Shared<'_>, target: u64, at: Range)
        requires at { IsAt (run_in shared.now) (table_in shared.now) 0 self.old }
        requires left { 0 < self.old.left }
        requires turn { self.old.done < length self.old.turns.items }
        requires due { IsDue self.old }
        requires next { next shared.now.program.now self.old.fiber ≡ actions.Event (requests.Join target (Some at)) }
        ensures at { IsAt (run_in shared.now) (table_in shared.now) 0 self.new }
        ensures took { TookTurn self.old self.new }
    {
        let thread = thread_of(target);
        let value = turns::get_word(&shared.words, &mut self.seat, thread);
        accesses::store_due(&shared.words, &mut self.seat, at, value);
        let reply = self.reply(shared);
        self.end_turn(
            shared,
            Action::Event(Request::Join {
                target,
                at: Some(at),
            }),
            reply,
        );
    }

    /// A turn that leaves no word and stores nothing.
    fn bare(&mut self, shared: &Shared<'_>, request: Request)
        requires at { IsAt (run_in shared.now) (table_in shared.now) 0 self.old }
        requires left { 0 < self.old.left }
        requires turn { self.old.done < length self.old.turns.items }
        requires due { IsDue self.old }
        requires next { next shared.now.program.now self.old.fiber ≡ actions.Event request }
        requires bare { is_bare request ≡ true }
        ensures at { IsAt (run_in shared.now) (table_in shared.now) 0 self.new }
        ensures took { TookTurn self.old self.new }
    {
        let reply = self.reply(shared);
        let answer = answer_to(&request, reply);
        self.end_turn(shared, Action::Event(request), answer);
    }

    /// The request of the turn that is due.
    #[tactic(auto, using(crate::proofs::TurnKinds::other_bare, crate::proofs::TurnKinds::none_bare))]
    fn ask(&mut self, shared: &Shared<'_>, request: Request)
        requires at { IsAt (run_in shared.now) (table_in shared.now) 0 self.old }
        requires left { 0 < self.old.left }
        requires turn { self.old.done < length self.old.turns.items }
        requires due { IsDue self.old }
        requires next { next shared.now.program.now self.old.fiber ≡ actions.Event request }
        ensures at { IsAt (run_in shared.now) (table_in shared.now) 0 self.new }
        ensures took { TookTurn self.old self.new }
    {
        match &request {
            Request::Start => self.start(shared),
            Request::Exit { value, is_return } => self.exit(shared, *value, *is_return),
            Request::Create {
                at,
                function,
                argument,
            } => self.create(shared, *at, *function, *argument),
            Request::Join { target, at } => match at {
                Some(at) => self.join(shared, *target, *at),
                None => self.bare(shared, request),
            },
            _ => self.bare(shared, request),
        }
    }

    /// The turn that is due: an event of the thread, or a load or store that is one.
    pub(crate) fn take_turn(&mut self, shared: &Shared<'_>, action: Action)
        requires at { IsAt (run_in shared.now) (table_in shared.now) 0 self.old }
        requires left { 0 < self.old.left }
        requires turn { self.old.done < length self.old.turns.items }
        requires event { stands_at_event (run_in shared.now) self.old.fiber ≡ true }
        requires due { IsDue self.old }
        requires next { next shared.now.program.now self.old.fiber ≡ action }
        ensures at { IsAt (run_in shared.now) (table_in shared.now) 0 self.new }
        ensures took { TookTurn self.old self.new }
    {
        match action {
            Action::Load(at) => self.load_due(shared, at),
            Action::Store(at, number) => self.store_due(shared, at, number),
            Action::Event(request) => self.ask(shared, request),
            _ => unreachable!(),
        }
    }
}
