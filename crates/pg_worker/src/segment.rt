//! Segments: the steps of a worker until its next turn isn't due.

ghost use Rattle.std.specs.Prelude.{◌≡◌, ◌<◌, IfNone, IfSome, length, true};
ghost use Rattle.pg_seats.specs.pg_run_thread.States.{IsOf};
ghost use Rattle.pg_seats.specs.pg_run_thread.Step.{after, next};
ghost use Rattle.pg_seats.specs.pg_run_thread.declared.action.Action.TheVariants as actions;
ghost use Rattle.pg_worker.specs.Standing.{HasDone, HasPaused, IsAt, TookOne, WentOn, run_in, table_in, waits_there};

use crate::hook::Hook;
use crate::shared::Shared;
use crate::worker::{Paused, Taken, Worker};
use pg_seats::pg_ir::Program;
use pg_seats::pg_num::Place as Range;
use pg_seats::pg_run_thread::{Action, Advance, Fiber};

/// Does a thread's next step if only its own state decides and sees it, or else gives what it asks.
fn ask(p: &Program, fiber: &mut Fiber) -> Option<Action>
    requires of { IsOf p.now fiber.old }
    ensures of { IsOf p.now fiber.new }
    ensures asks { IfSome result (λ a. (fiber.new ≡ fiber.old) × (a ≡ next p.now fiber.old)) }
    ensures does { IfNone result ((next p.now fiber.old ≡ actions.Local) × (fiber.new ≡ after p.now fiber.old 0)) }
{
    match fiber.advance(p) {
        Advance::Done(_) => None,
        Advance::Asks(action) => Some(action),
    }
}

impl Worker {
    /// A turn, or an action behind which none is left: it waits until its next turn is due, and does it.
    fn turn(&mut self, shared: &Shared<'_>, action: Action) -> Taken
        requires at { IsAt (run_in shared.now) (table_in shared.now) 0 self.old }
        requires left { 0 < self.old.left }
        requires turn { self.old.done < length self.old.turns.items }
        requires next { next shared.now.program.now self.old.fiber ≡ action }
        requires waits { waits_there (run_in shared.now) self.old.fiber ≡ true }
        ensures at { IsAt (run_in shared.now) (table_in shared.now) 0 self.new }
        ensures done { HasDone (run_in shared.now) result self.old self.new }
    {
        // Called for the proof: see docs/CONTRIBUTING.md.
        let _turn = self.next_turn();
        if !self.comes(shared) {
            return Taken::Waits;
        }
        self.take_turn(shared, action);
        Taken::Step
    }

    /// A load, as a turn where it is gated.
    fn load_or_turn(&mut self, shared: &Shared<'_>, at: Range) -> Taken
        requires at { IsAt (run_in shared.now) (table_in shared.now) 0 self.old }
        requires gated { shared.now.gated ≡ shared.now.schedule.now.gated }
        requires left { 0 < self.old.left }
        requires turn { self.old.done < length self.old.turns.items }
        requires next { next shared.now.program.now self.old.fiber ≡ actions.Load at }
        ensures at { IsAt (run_in shared.now) (table_in shared.now) 0 self.new }
        ensures done { HasDone (run_in shared.now) result self.old self.new }
    {
        if shared.gated.has(self.fiber.id()) {
            return self.turn(shared, Action::Load(at));
        }
        self.load(shared, at);
        Taken::Step
    }

    /// A store, as a turn where it is gated.
    fn store_or_turn(&mut self, shared: &Shared<'_>, at: Range, number: u64) -> Taken
        requires at { IsAt (run_in shared.now) (table_in shared.now) 0 self.old }
        requires gated { shared.now.gated ≡ shared.now.schedule.now.gated }
        requires left { 0 < self.old.left }
        requires turn { self.old.done < length self.old.turns.items }
        requires next { next shared.now.program.now self.old.fiber ≡ actions.Store at number }
        ensures at { IsAt (run_in shared.now) (table_in shared.now) 0 self.new }
        ensures done { HasDone (run_in shared.now) result self.old self.new }
    {
        if shared.gated.has(self.fiber.id()) {
            return self.turn(shared, Action::Store(at, number));
        }
        self.store(shared, at, number);
        Taken::Step
    }

    /// Its next action, which isn't done yet, by kinds.
    fn asked(&mut self, shared: &Shared<'_>, action: Action) -> Taken
        requires at { IsAt (run_in shared.now) (table_in shared.now) 0 self.old }
        requires gated { shared.now.gated ≡ shared.now.schedule.now.gated }
        requires left { 0 < self.old.left }
        requires turn { self.old.done < length self.old.turns.items }
        requires next { next shared.now.program.now self.old.fiber ≡ action }
        ensures at { IsAt (run_in shared.now) (table_in shared.now) 0 self.new }
        ensures done { HasDone (run_in shared.now) result self.old self.new }
    {
        match action {
            Action::Trap(_) => Taken::Traps,
            Action::Local => {
                self.local(shared);
                Taken::Step
            }
            Action::In(index) => {
                self.read(shared, index);
                Taken::Step
            }
            Action::InLen => {
                self.count_input(shared);
                Taken::Step
            }
            Action::Load(at) => self.load_or_turn(shared, at),
            Action::Store(at, number) => self.store_or_turn(shared, at, number),
            Action::Event(request) => self.turn(shared, Action::Event(request)),
            Action::Ended => self.turn(shared, Action::Ended),
        }
    }

    /// Its next step, if it can take one.
    fn step(&mut self, shared: &Shared<'_>) -> Taken
        requires at { IsAt (run_in shared.now) (table_in shared.now) 0 self.old }
        requires gated { shared.now.gated ≡ shared.now.schedule.now.gated }
        requires left { 0 < self.old.left }
        requires turn { self.old.done < length self.old.turns.items }
        ensures at { IsAt (run_in shared.now) (table_in shared.now) 0 self.new }
        ensures done { HasDone (run_in shared.now) result self.old self.new }
    {
        match ask(shared.program, &mut self.fiber) {
            None => {
                self.left -= 1;
                Taken::Step
            }
            Some(action) => self.asked(shared, action),
        }
    }

    /// Takes its next step, or says why it pauses.
    fn go_on<H: Hook>(&mut self, shared: &Shared<'_>, hook: &H) -> Option<Paused>
        requires at { IsAt (run_in shared.now) (table_in shared.now) 0 self.old }
        requires gated { shared.now.gated ≡ shared.now.schedule.now.gated }
        requires turn { self.old.done < length self.old.turns.items }
        ensures at { IsAt (run_in shared.now) (table_in shared.now) 0 self.new }
        ensures steps { IfNone result (TookOne self.old self.new) }
        ensures paused { IfSome result (λ p. WentOn self.old self.new × HasPaused (run_in shared.now) p self.old self.new) }
    {
        if self.left == 0 {
            return Some(Paused::Stopped);
        }
        hook.at_action(self.thread, self.fiber.id(), !self.fiber.has_begun());
        match self.step(shared) {
            Taken::Step => None,
            Taken::Waits => Some(Paused::Waiting),
            Taken::Traps => Some(Paused::Stopped),
        }
    }

    /// Steps until its next turn isn't due, or until it has no turn or no step left.
    #[tactic(auto, using(crate::proofs::Segments::went_step))]
    pub fn segment<H: Hook>(&mut self, shared: &Shared<'_>, hook: &H) -> Paused
        requires at { IsAt (run_in shared.now) (table_in shared.now) 0 self.old }
        requires gated { shared.now.gated ≡ shared.now.schedule.now.gated }
        ensures at { IsAt (run_in shared.now) (table_in shared.now) 0 self.new }
        ensures went { WentOn self.old self.new }
        ensures paused { HasPaused (run_in shared.now) result self.old self.new }
    {
        while self.done < self.turns.len() {
            if let Some(paused) = self.go_on(shared, hook) {
                return paused;
            }
        }
        Paused::Done
    }
}
