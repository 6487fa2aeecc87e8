//! Places of bytes of memory.

ghost use Rattle.std.specs.Prelude.{◌≡◌, ◌+◌, ◌≤◌};
ghost use Rattle.pg_num.specs.Pointers.{byte_place};
ghost use Rattle.pg_stamps.specs.declared.stamps.TheConstants.{PLACE_COUNT};

use pg_num::layout::GRANULE_BYTES;
use pg_num::unpack;

/// The place of the byte to which a pointer points.
pub fn place_of(word: u64) -> u64
    ensures place { result ≡ byte_place word }
    ensures within { result + 8 ≤ PLACE_COUNT }
{
    let pointer = unpack(word);
    GRANULE_BYTES as u64 * pointer.start as u64 + pointer.offset as u64
}
