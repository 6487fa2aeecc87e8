//! Workers of a list, of which one goes on.

ghost use Rattle.std.specs.Prelude.{◌≡◌, ◌<◌, [], length};
ghost use Rattle.pg_crew.specs.pg_seats.declared.run.View.TheVariants.{Note};
ghost use Rattle.pg_crew.specs.pg_worker.Standing.{noted_in, run_in, table_in};
ghost use Rattle.pg_crew.specs.Workers.{AreWorkers};

use pg_crew::pg_seats::Place;
use pg_crew::pg_worker::{Hook, Paused, Shared, Worker};

/// A note of the turns that one of them knows to be done.
fn note(shared: &Shared<'_>, workers: &mut [Worker], from: usize) -> Place
    requires workers { AreWorkers (run_in shared.now) (table_in shared.now) workers.old }
    requires within { from < length workers.old }
    ensures workers { AreWorkers (run_in shared.now) (table_in shared.now) workers.new }
    ensures own { result.table_id ≡ table_in shared.now }
    ensures note { result.me ≡ (Note (run_in shared.now) (noted_in result.me.0), []) }
{
    workers[from].note(shared)
}

/// One of them takes a note.
fn take(shared: &Shared<'_>, workers: &mut [Worker], to: usize, note: Place)
    requires workers { AreWorkers (run_in shared.now) (table_in shared.now) workers.old }
    requires within { to < length workers.old }
    requires own { note.table_id ≡ table_in shared.now }
    requires note { note.me ≡ (Note (run_in shared.now) (noted_in note.me.0), []) }
    ensures workers { AreWorkers (run_in shared.now) (table_in shared.now) workers.new }
{
    workers[to].take_note(shared, note);
}

/// A segment of one of them.
fn segment<H: Hook>(shared: &Shared<'_>, hook: &H, workers: &mut [Worker], thread: usize) -> Paused
    requires workers { AreWorkers (run_in shared.now) (table_in shared.now) workers.old }
    requires gated { shared.now.gated ≡ shared.now.schedule.now.gated }
    requires within { thread < length workers.old }
    ensures workers { AreWorkers (run_in shared.now) (table_in shared.now) workers.new }
{
    workers[thread].segment(shared, hook)
}

/// One of them is told which turns main's worker knows to be done, and takes a segment.
pub(crate) fn go_on<H: Hook>(
    shared: &Shared<'_>,
    hook: &H,
    workers: &mut [Worker],
    thread: usize,
) -> Paused
    requires workers { AreWorkers (run_in shared.now) (table_in shared.now) workers.old }
    requires gated { shared.now.gated ≡ shared.now.schedule.now.gated }
    requires within { thread < length workers.old }
    ensures workers { AreWorkers (run_in shared.now) (table_in shared.now) workers.new }
{
    let known = note(shared, workers, 0);
    take(shared, workers, thread, known);
    segment(shared, hook, workers, thread)
}
