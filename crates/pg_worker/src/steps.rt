//! The steps of a worker that are no turns: those that its own state decides, reads of the input, and plain loads and stores.

ghost use Rattle.std.specs.Prelude.{◌≡◌, ◌<◌, length, false};
ghost use Rattle.pg_seats.specs.pg_run.MachineStep.{is_gated};
ghost use Rattle.pg_seats.specs.pg_run_thread.States.{CanStep, IsOf};
ghost use Rattle.pg_seats.specs.pg_run_thread.Step.{next};
ghost use Rattle.pg_seats.specs.pg_run_thread.Told.{id_of};
ghost use Rattle.pg_seats.specs.pg_run_thread.declared.action.Action.TheVariants as actions;
ghost use Rattle.pg_worker.specs.Standing.{IsAt, IsResumed, TookOne, run_in, table_in};

use crate::shared::Shared;
use crate::worker::Worker;
use pg_seats::accesses;
use pg_seats::pg_ir::Program;
use pg_seats::pg_num::Place as Range;
use pg_seats::pg_run::number_at;

impl Worker {
    /// Goes on with the answer to its next action: one step more is taken.
    pub(crate) fn resume(&mut self, p: &Program, answer: u64)
        requires of { IsOf p.now self.old.fiber }
        requires can { CanStep (next p.now self.old.fiber) }
        requires left { 0 < self.old.left }
        ensures resumed { IsResumed p.now answer self.old self.new }
        ensures seat { self.new.seat ≡ self.old.seat }
    {
        self.fiber.resume(p, answer);
        self.left -= 1;
    }

    /// A step that only its own state decides and sees.
    pub(crate) fn local(&mut self, shared: &Shared<'_>)
        requires at { IsAt (run_in shared.now) (table_in shared.now) 0 self.old }
        requires left { 0 < self.old.left }
        requires turn { self.old.done < length self.old.turns.items }
        requires next { next shared.now.program.now self.old.fiber ≡ actions.Local }
        ensures at { IsAt (run_in shared.now) (table_in shared.now) 0 self.new }
        ensures took { TookOne self.old self.new }
    {
        self.resume(shared.program, 0);
    }

    /// Reads the input's number at an index.
    pub(crate) fn read(&mut self, shared: &Shared<'_>, index: i64)
        requires at { IsAt (run_in shared.now) (table_in shared.now) 0 self.old }
        requires left { 0 < self.old.left }
        requires turn { self.old.done < length self.old.turns.items }
        requires next { next shared.now.program.now self.old.fiber ≡ actions.In index }
        ensures at { IsAt (run_in shared.now) (table_in shared.now) 0 self.new }
        ensures took { TookOne self.old self.new }
    {
        let number = number_at(shared.input, index);
        self.resume(shared.program, number);
    }

    /// Reads how many numbers the input has.
    pub(crate) fn count_input(&mut self, shared: &Shared<'_>)
        requires at { IsAt (run_in shared.now) (table_in shared.now) 0 self.old }
        requires left { 0 < self.old.left }
        requires turn { self.old.done < length self.old.turns.items }
        requires next { next shared.now.program.now self.old.fiber ≡ actions.InLen }
        ensures at { IsAt (run_in shared.now) (table_in shared.now) 0 self.new }
        ensures took { TookOne self.old self.new }
    {
        self.resume(shared.program, shared.input.len() as u64);
    }

    /// A plain load.
    pub(crate) fn load(&mut self, shared: &Shared<'_>, at: Range)
        requires at { IsAt (run_in shared.now) (table_in shared.now) 0 self.old }
        requires left { 0 < self.old.left }
        requires turn { self.old.done < length self.old.turns.items }
        requires next { next shared.now.program.now self.old.fiber ≡ actions.Load at }
        requires plain { is_gated shared.now.schedule.now.gated (id_of self.old.fiber) ≡ false }
        ensures at { IsAt (run_in shared.now) (table_in shared.now) 0 self.new }
        ensures took { TookOne self.old self.new }
    {
        let number = accesses::load(&shared.words, &mut self.seat, at);
        self.resume(shared.program, number);
    }

    /// A plain store.
    pub(crate) fn store(&mut self, shared: &Shared<'_>, at: Range, number: u64)
        requires at { IsAt (run_in shared.now) (table_in shared.now) 0 self.old }
        requires left { 0 < self.old.left }
        requires turn { self.old.done < length self.old.turns.items }
        requires next { next shared.now.program.now self.old.fiber ≡ actions.Store at number }
        requires plain { is_gated shared.now.schedule.now.gated (id_of self.old.fiber) ≡ false }
        ensures at { IsAt (run_in shared.now) (table_in shared.now) 0 self.new }
        ensures took { TookOne self.old self.new }
    {
        self.pages.mark(at);
        accesses::store(&shared.words, &mut self.seat, at, number);
        self.resume(shared.program, 0);
    }
}
