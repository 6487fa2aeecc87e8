//! The bytes of accesses and of bounds.

ghost use Rattle.std.specs.Prelude.{◌≡◌, ◌<◌, ℕ};
ghost use Rattle.pg_slice_rules.specs.Freeable.{bounds_of};
ghost use Rattle.pg_slice_rules.specs.SymbolicValues.{is_within};
ghost use Rattle.pg_run_trace.specs.Steps.{range_of};
ghost use Rattle.pg_slice_back.specs.Bytes.{is_in};

use pg_num::layout::GRANULE_BYTES;
use pg_num::unpack;
use pg_run_trace::Access;

/// Bytes from one on to before another.
#[derive(Clone, Copy)]
pub(crate) struct Bytes {
    pub(crate) from: u64,
    pub(crate) to: u64,
}

/// The bytes of an access.
pub(crate) fn own_bytes(a: Access) -> Bytes
    ensures from { result.from ≡ (range_of a).start }
    ensures few { result.from < 4294967296 }
    ensures is { (b : ℕ) → is_in result b ≡ is_within (range_of a) b }
{
    let from = a.start() as u64;
    Bytes {
        from,
        to: from + a.bytes as u64,
    }
}

/// The bytes of the bounds of a pointer.
pub(crate) fn bytes_in_bounds(word: u64) -> Bytes
    ensures { (b : ℕ) → is_in result b ≡ is_within (bounds_of word) b }
{
    let pointer = unpack(word);
    let from = GRANULE_BYTES as u64 * pointer.start as u64;
    Bytes {
        from,
        to: from + pointer.length as u64,
    }
}
