//! The bytes that globals begin with, laid into words at the begin of a run.

ghost use Rattle.std.specs.Prelude.{◌≡◌, ◌<◌, ◌≤◌, ◌+◌, ◌*◌, ◌^◌, ℕ, slice_index};
ghost use Rattle.pg_crew.specs.pg_num.declared.layout.TheConstants.{GRANULE_COUNT};
ghost use Rattle.pg_crew.specs.pg_run_memory.Bytes.{byte_of};
ghost use Rattle.pg_crew.specs.pg_run_memory.Initial.{initial_byte};
ghost use Rattle.pg_crew.specs.pg_worker.Standing.{run_in, table_in};
ghost use Rattle.pg_room.specs.Laying.{BeginsWith, IsLaidBelow, granules_of};

use pg_crew::pg_num::Place as Range;
use pg_crew::pg_seats::{Place, begin};
use pg_crew::pg_worker::Shared;
use pg_crew::pg_worker::pages::Pages;

/// The number of eight bytes of a list from an index on, low byte first; those past its end are 0.
fn word_at(bytes: &[u8], from: usize) -> u64
    requires { from + 8 < 2 ^ 64 }
    ensures { (k : ℕ) → k < 8 → byte_of result k ≡ slice_index bytes.now (from + k) }
{
    let mut word: u64 = 0;
    let mut left: usize = 8;
    while left > 0 {
        left -= 1;
        let byte = byte_at(bytes, from + left);
        word = word * 256 + byte as u64;
    }
    word
}

/// The byte at an index, 0 past the end.
fn byte_at(bytes: &[u8], index: usize) -> u8
    ensures { result ≡ slice_index bytes.now index }
{
    match bytes.get(index) {
        Some(&byte) => byte,
        None => 0,
    }
}

/// Lays a granule of a global's first bytes, and marks its page.
fn lay_granule(shared: &Shared<'_>, pool: &mut Place, laid: &mut Pages, granule: u32, word: u64)
    requires own { pool.old.table_id ≡ table_in shared.now }
    requires before { IsLaidBelow (run_in shared.now) granule pool.old.me laid.old.words.items }
    requires inside { granule < GRANULE_COUNT }
    requires bytes { (k : ℕ) → k < 8 → byte_of word k ≡ initial_byte shared.now.program.now.globals (8 * granule + k) }
    ensures own { (pool.new.table_id ≡ pool.old.table_id) × (pool.new.id ≡ pool.old.id) }
    ensures laid { IsLaidBelow (run_in shared.now) (granule + 1) pool.new.me laid.new.words.items }
{
    let at = Range::whole_granule(granule);
    laid.mark(at);
    begin::lay(&shared.words, pool, at, word);
}

/// Lays the granules that hold a global's first bytes, and marks their pages.
fn lay_global(shared: &Shared<'_>, pool: &mut Place, laid: &mut Pages, start: u32, bytes: &[u8])
    requires own { pool.old.table_id ≡ table_in shared.now }
    requires before { IsLaidBelow (run_in shared.now) start pool.old.me laid.old.words.items }
    requires inside { start + granules_of bytes.now ≤ GRANULE_COUNT }
    requires bytes { BeginsWith (run_in shared.now) start bytes.now }
    ensures own { (pool.new.table_id ≡ pool.old.table_id) × (pool.new.id ≡ pool.old.id) }
    ensures laid { IsLaidBelow (run_in shared.now) (start + granules_of bytes.now) pool.new.me laid.new.words.items }
{
    for number in 0..(bytes.len() + 7) / 8 {
        let word = word_at(bytes, 8 * number);
        lay_granule(shared, pool, laid, start + number as u32, word);
    }
}

/// Lays the first bytes of all globals, one after another.
pub(crate) fn lay_globals(shared: &Shared<'_>, pool: &mut Place, laid: &mut Pages)
    requires own { pool.old.table_id ≡ table_in shared.now }
    requires before { IsLaidBelow (run_in shared.now) 1 pool.old.me laid.old.words.items }
    ensures own { (pool.new.table_id ≡ pool.old.table_id) × (pool.new.id ≡ pool.old.id) }
    ensures laid { IsLaidBelow (run_in shared.now) GRANULE_COUNT pool.new.me laid.new.words.items }
{
    let p = shared.program;
    p.facts();
    for number in 0..p.global_count() {
        let global = p.global(number);
        lay_global(shared, pool, laid, global.start, global.bytes.as_slice());
    }
}
