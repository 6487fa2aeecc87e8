//! Parts of a word.

ghost use Rattle.std.specs.Prelude.{◌≡◌, ◌<◌, ◌≤◌, ◌+◌, ◌-◌, ◌*◌, ◌^◌};
ghost use Rattle.pg_run_memory.specs.Words.{part_of, with_part};

/// The number in some bytes of a word, from byte `first` on.
pub(crate) fn part(word: u64, first: u8, bytes: u8) -> u64
    requires some { 1 ≤ bytes }
    requires fits { first + bytes ≤ 8 }
    ensures value { result ≡ part_of word first bytes }
    ensures in_range { result < 2 ^ (8 * bytes) }
{
    (word >> (8 * first)) & mask(bytes)
}

/// The word whose low bytes, as many as asked for, have all bits set.
fn mask(bytes: u8) -> u64
    requires some { 1 ≤ bytes }
    requires fits { bytes ≤ 8 }
    ensures { result ≡ 2 ^ (8 * bytes) - 1 }
{
    u64::MAX >> (64 - 8 * bytes)
}

/// The word with a number in these bytes.
pub(crate) fn replaced(word: u64, first: u8, bytes: u8, number: u64) -> u64
    requires some { 1 ≤ bytes }
    requires fits { first + bytes ≤ 8 }
    requires small { number < 2 ^ (8 * bytes) }
    ensures { result ≡ with_part word first bytes number }
{
    let old = part(word, first, bytes);
    (word - (old << (8 * first))) + (number << (8 * first))
}
