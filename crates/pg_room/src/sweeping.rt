//! Words made 0 again behind a run.

ghost use Rattle.std.specs.Prelude.{◌≡◌, ◌<◌, ◌≤◌, ◌+◌, ◌*◌, []};
ghost use Rattle.pg_crew.specs.pg_num.declared.layout.TheConstants.{GRANULE_COUNT};
ghost use Rattle.pg_crew.specs.pg_seats.declared.run.View.TheVariants.{Sweeping};
ghost use Rattle.pg_crew.specs.pg_worker.declared.pages.TheConstants.{PAGE_COUNT, PAGE_WORDS};
ghost use Rattle.pg_crew.specs.pg_worker.Standing.{run_in, table_in};
ghost use Rattle.pg_room.specs.Sweeping.{AreWritten, IsSweptBelow};

use pg_crew::pg_ir::ThreadNo;
use pg_crew::pg_num::Place as Range;
use pg_crew::pg_num::limits::THREAD_LIMIT;
use pg_crew::pg_seats::{Place, end};
use pg_crew::pg_worker::Shared;
use pg_crew::pg_worker::pages::{PAGE_WORDS, Pages};

/// The granules of a page.
const PAGE_GRANULES: u32 = 64;

/// Makes the words of threads 0 again.
pub(crate) fn clear_threads(shared: &Shared<'_>, pool: &mut Place)
    requires own { pool.old.table_id ≡ table_in shared.now }
    requires view { pool.old.me ≡ (Sweeping (run_in shared.now) 1, []) }
    ensures own { (pool.new.table_id ≡ pool.old.table_id) × (pool.new.id ≡ pool.old.id) }
    ensures swept { IsSweptBelow (run_in shared.now) 0 pool.new.me }
{
    for thread in 0..THREAD_LIMIT as u8 {
        end::clear_word(&shared.words, pool, ThreadNo(thread));
    }
}

/// Makes a granule 0 again.
fn wipe(shared: &Shared<'_>, pool: &mut Place, granule: u32)
    requires own { pool.old.table_id ≡ table_in shared.now }
    requires before { IsSweptBelow (run_in shared.now) granule pool.old.me }
    requires inside { granule < GRANULE_COUNT }
    ensures own { (pool.new.table_id ≡ pool.old.table_id) × (pool.new.id ≡ pool.old.id) }
    ensures swept { IsSweptBelow (run_in shared.now) (granule + 1) pool.new.me }
{
    let at = Range::whole_granule(granule);
    end::wipe(&shared.words, pool, at);
}

/// Makes the granules of a page 0 again.
fn wipe_page(shared: &Shared<'_>, pool: &mut Place, page: u32)
    requires own { pool.old.table_id ≡ table_in shared.now }
    requires before { IsSweptBelow (run_in shared.now) (PAGE_GRANULES * page) pool.old.me }
    requires inside { page < PAGE_COUNT }
    ensures own { (pool.new.table_id ≡ pool.old.table_id) × (pool.new.id ≡ pool.old.id) }
    ensures swept { IsSweptBelow (run_in shared.now) (PAGE_GRANULES * (page + 1)) pool.new.me }
{
    for granule in PAGE_GRANULES * page..PAGE_GRANULES * (page + 1) {
        wipe(shared, pool, granule);
    }
}

/// Makes the granules of a page 0 again, if it is marked.
fn sweep_page(shared: &Shared<'_>, pool: &mut Place, written: &Pages, page: u32)
    requires own { pool.old.table_id ≡ table_in shared.now }
    requires before { IsSweptBelow (run_in shared.now) (PAGE_GRANULES * page) pool.old.me }
    requires inside { page < PAGE_COUNT }
    requires written { AreWritten (run_in shared.now) written.now.words.items }
    ensures own { (pool.new.table_id ≡ pool.old.table_id) × (pool.new.id ≡ pool.old.id) }
    ensures swept { IsSweptBelow (run_in shared.now) (PAGE_GRANULES * (page + 1)) pool.new.me }
{
    let marked = written.has(page);
    if !marked {
        return;
    }
    wipe_page(shared, pool, page);
}

/// Makes the granules of those of 64 pages 0 again that are marked, whose marks are a word.
fn sweep_word(shared: &Shared<'_>, pool: &mut Place, written: &Pages, index: u32)
    requires own { pool.old.table_id ≡ table_in shared.now }
    requires before { IsSweptBelow (run_in shared.now) (PAGE_GRANULES * (64 * index)) pool.old.me }
    requires inside { index < PAGE_WORDS }
    requires written { AreWritten (run_in shared.now) written.now.words.items }
    ensures own { (pool.new.table_id ≡ pool.old.table_id) × (pool.new.id ≡ pool.old.id) }
    ensures swept { IsSweptBelow (run_in shared.now) (PAGE_GRANULES * (64 * (index + 1))) pool.new.me }
{
    let marks = written.word(index);
    if marks == 0 {
        return;
    }
    for page in 64 * index..64 * (index + 1) {
        sweep_page(shared, pool, written, page);
    }
}

/// Makes the granules of all marked pages 0 again.
pub(crate) fn sweep(shared: &Shared<'_>, pool: &mut Place, written: &Pages)
    requires own { pool.old.table_id ≡ table_in shared.now }
    requires before { IsSweptBelow (run_in shared.now) 0 pool.old.me }
    requires written { AreWritten (run_in shared.now) written.now.words.items }
    ensures own { (pool.new.table_id ≡ pool.old.table_id) × (pool.new.id ≡ pool.old.id) }
    ensures swept { IsSweptBelow (run_in shared.now) GRANULE_COUNT pool.new.me }
{
    for index in 0..PAGE_WORDS {
        sweep_word(shared, pool, written, index);
    }
}
