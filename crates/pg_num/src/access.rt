//! The place of an access through a pointer.

ghost use Rattle.std.specs.Prelude.{◌≡◌, IsTrue};
ghost use Rattle.pg_num.specs.Places.{is_size};
ghost use Rattle.pg_num.specs.Pointers.{place_of};

use crate::layout::{GRANULE_BYTES, MEMORY_BYTES};
use crate::places::{Place, PlaceFault};
use crate::pointer::unpack;

/// The place of an access of `bytes` bytes through the pointer that `word` is.
///
/// # Errors
///
/// `OutOfRange` where the bytes don't lie within the pointer's bounds and within memory. Else `Misaligned` where the
/// pointer's offset is no multiple of `bytes`.
pub fn place(word: u64, bytes: u8) -> Result<Place, PlaceFault>
    requires { IsTrue (is_size bytes) }
    ensures { result ≡ place_of word bytes }
{
    let pointer = unpack(word);
    let size = bytes as u32;
    let start = GRANULE_BYTES * pointer.start + pointer.offset;
    if pointer.offset + size > pointer.length || start + size > MEMORY_BYTES {
        return Err(PlaceFault::OutOfRange);
    }
    if pointer.offset % size != 0 {
        return Err(PlaceFault::Misaligned);
    }
    let first = (start % GRANULE_BYTES) as u8;
    Ok(Place::new(start / GRANULE_BYTES, first, bytes))
}
