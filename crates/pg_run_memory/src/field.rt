//! A part of a granule, as a change of the whole word.

ghost use Rattle.std.specs.Prelude.{◌≡◌, ℕ, ◌<◌, ◌≤◌, ◌+◌, ◌*◌, ◌%◌, ◌^◌};
ghost use Rattle.pg_run_memory.specs.Bytes.{byte_of, number_of, with_bytes};
ghost use Rattle.pg_run_memory.specs.Words.{changed_by, part_of, with_part};

use crate::delta::Delta;
use pg_ir::pg_num::Place;

/// The change by which each granule whose bytes at the place hold `from` gets `to` there and keeps its other bytes.
/// So a part of a granule can be stored by one addition or subtraction on the whole.
pub fn field_delta(from: u64, to: u64, at: Place) -> Delta
    requires from { from < 2 ^ (8 * at.bytes) }
    requires to { to < 2 ^ (8 * at.bytes) }
    ensures part { (word : ℕ) → word < 2 ^ 64 → part_of word (at.start % 8) at.bytes ≡ from → changed_by result word ≡ with_part word (at.start % 8) at.bytes to }
    ensures bytes { (word : ℕ) → word < 2 ^ 64 → number_of (byte_of word) (at.start % 8) at.bytes ≡ from
        → (k : ℕ) → k < 8 → byte_of (changed_by result word) k ≡ with_bytes (byte_of word) (record { start = at.start % 8; bytes = at.bytes }) to k }
{
    let shift = 8 * at.first();
    if from <= to {
        Delta::Add((to - from) << shift)
    } else {
        Delta::Sub((from - to) << shift)
    }
}
