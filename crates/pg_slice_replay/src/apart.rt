//! Whether the bounds of accesses are apart.

ghost use Rattle.std.specs.Prelude.{◌≡◌, length};
ghost use Rattle.std.specs.List.{list_any};
ghost use Rattle.pg_run_trace.specs.Races.{share};
ghost use Rattle.pg_slice_rules.specs.Freeable.{bounds_of, stores_on};
ghost use Rattle.pg_slice_replay.specs.Paths.{access_at, accesses_with};
ghost use Rattle.pg_slice_replay.specs.Apart.{is_stored, stores_to};

use crate::at::At;
use crate::follow::offsets;
use pg_num::layout::GRANULE_BYTES;
use pg_num::unpack;
use pg_region_accesses::Rooted;

/// Whether the bounds of two pointers have a byte in common.
fn share(word: u64, other: u64) -> bool
    ensures { result ≡ share (bounds_of word) (bounds_of other) }
{
    let a = unpack(word);
    let b = unpack(other);
    let from = (GRANULE_BYTES * a.start).max(GRANULE_BYTES * b.start);
    from < GRANULE_BYTES * a.start + a.length && from < GRANULE_BYTES * b.start + b.length
}

/// Whether an access is a store whose bounds share a byte with those of a pointer.
fn stores_to(access: &Rooted, at: &At, word: u64) -> bool
    ensures { result ≡ stores_to word (access_at access.now at.now) }
{
    access.writes && share(at.last, word)
}

/// Whether a store's bounds share a byte with those of a pointer.
fn is_stored(accesses: &[Rooted], ats: &[At], word: u64) -> bool
    requires { length ats.now ≡ length accesses.now }
    ensures { result ≡ is_stored (accesses_with accesses.now ats.now) word }
{
    for i in 0..accesses.len() {
        if stores_to(&accesses[i], &ats[i], word) {
            return true;
        }
    }
    false
}

/// Whether a store's bounds share a byte with those of one of these pointers.
fn are_stored(accesses: &[Rooted], ats: &[At], words: &[u64]) -> bool
    requires { length ats.now ≡ length accesses.now }
    ensures { result ≡ list_any (is_stored (accesses_with accesses.now ats.now)) words.now }
{
    for word in words {
        if is_stored(accesses, ats, *word) {
            return true;
        }
    }
    false
}

/// Whether a store's bounds share a byte with those from which a path loads.
pub(crate) fn store_on_loads(accesses: &[Rooted], ats: &[At]) -> bool
    requires { length ats.now ≡ length accesses.now }
    ensures { result ≡ list_any (stores_on (accesses_with accesses.now ats.now)) (accesses_with accesses.now ats.now) }
{
    for i in 0..accesses.len() {
        let (_, count) = offsets(accesses[i].path.loads);
        let at = ats[i];
        if are_stored(accesses, ats, &at.pointers[..count]) {
            return true;
        }
    }
    false
}
