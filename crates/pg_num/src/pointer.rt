//! Pointers as words, with their bounds.

ghost use Rattle.std.specs.Prelude.{◌≡◌, ◌<◌, ◌-◌, ◌^◌, ◌*ℤ◌, ◌≤ℤ◌, ◌<ℤ◌, pos, negsuc};
ghost use Rattle.pg_num.specs.Numbers.{modulus, signed};
ghost use Rattle.pg_num.specs.Pointers.{IsPointer, word_of, pointer_of, moved_by};

use crate::width::Width;

/// The parts of a pointer. The bytes from granule `start` on, `length` of them, are its bounds, and `offset` is
/// where it points within them or behind them.
#[derive(Clone, Copy, Debug, PartialEq, Eq)]
pub struct Pointer {
    /// The number of the granule at which the bounds begin, below two to the 22.
    pub start: u32,
    /// How many bytes lie within the bounds, below two to the 21.
    pub length: u32,
    /// The distance from the begin of the bounds in bytes, below two to the 21.
    pub offset: u32,
}

/// The word of a pointer. The word of the null pointer, whose parts are 0, is 0.
pub fn pack(p: Pointer) -> u64
    requires { IsPointer p }
    ensures word { result ≡ word_of p }
    ensures again { pointer_of result ≡ p }
{
    p.start as u64 * 0x400_0000_0000 + p.length as u64 * 0x20_0000 + p.offset as u64
}

/// The pointer that a word is. Each word is one.
pub fn unpack(word: u64) -> Pointer
    ensures parts { result ≡ pointer_of word }
    ensures fits { IsPointer result }
    ensures again { word_of result ≡ word }
{
    Pointer {
        start: (word >> 42) as u32,
        length: ((word >> 21) % 0x20_0000) as u32,
        offset: (word % 0x20_0000) as u32,
    }
}

/// The word with its offset moved by `delta` bytes, modulo two to the 21, and its other parts as they were.
pub fn move_by(word: u64, delta: i64) -> u64
    ensures { result ≡ moved_by word delta }
{
    move_by_wide(word, delta as i128)
}

/// As `move_by`, by `scale` bytes for each unit of an index, which is read as a signed number of its width.
pub fn move_by_index(word: u64, w: Width, index: u64, scale: u64) -> u64
    requires { index < modulus w }
    ensures { result ≡ moved_by word (signed w index *ℤ pos scale) }
{
    move_by_wide(word, w.signed(index) * scale as i128)
}

fn move_by_wide(word: u64, delta: i128) -> u64
    requires low { negsuc (2 ^ 127 - 1) ≤ℤ delta }
    requires high { delta <ℤ pos (2 ^ 127 - 2 ^ 63) }
    ensures { result ≡ moved_by word delta }
{
    let Pointer {
        start,
        length,
        offset,
    } = unpack(word);
    let offset = (offset as i128 + delta).rem_euclid(0x20_0000) as u32;
    pack(Pointer {
        start,
        length,
        offset,
    })
}
