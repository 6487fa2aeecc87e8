//! The seats of workers, taken back at the end of a run.

ghost use Rattle.std.specs.Prelude.{◌≡◌, ◌<◌, [], length, ℕ, slice_index_or, true};
ghost use Rattle.pg_crew.specs.pg_seats.declared.run.View.TheVariants.{Pool};
ghost use Rattle.pg_crew.specs.pg_worker.declared.worker.Worker.{Worker as WorkerData};
ghost use Rattle.pg_crew.specs.pg_worker.Pages.{is_marked};
ghost use Rattle.pg_crew.specs.pg_worker.Standing.{run_in, table_in};
ghost use Rattle.pg_crew.specs.Workers.{AreWorkers};

use pg_crew::pg_seats::{Place, end};
use pg_crew::pg_worker::pages::Pages;
use pg_crew::pg_worker::{Shared, Worker};

/// Takes back the seats of all workers, and marks the pages that they wrote. Takes no memory.
pub(crate) fn gather_all(
    shared: &Shared<'_>,
    pool: &mut Place,
    workers: Vec<Worker>,
    written: &mut Pages,
)
    requires own { pool.old.table_id ≡ table_in shared.now }
    requires view { pool.old.me ≡ (Pool (run_in shared.now) (length workers.items) 0, []) }
    requires workers { AreWorkers (run_in shared.now) (table_in shared.now) workers.items }
    ensures own { (pool.new.table_id ≡ pool.old.table_id) × (pool.new.id ≡ pool.old.id) }
    ensures view { pool.new.me ≡ (Pool (run_in shared.now) (length workers.items) (length workers.items), []) }
    ensures kept { (page : ℕ) → is_marked written.old.words.items page ≡ true → is_marked written.new.words.items page ≡ true }
    ensures added { (t page : ℕ) (d : WorkerData) → t < length workers.items → is_marked (slice_index_or workers.items t d).pages.words.items page ≡ true → is_marked written.new.words.items page ≡ true }
{
    for worker in workers {
        let (seat, pages) = worker.into_parts();
        end::gather(&shared.words, pool, seat);
        written.add(&pages);
    }
}
