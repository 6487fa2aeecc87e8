//! What holds of memory as a map from places to bytes: each law is the clause of a function that does nothing.

ghost use Rattle.std.specs.Prelude.{◌≡◌, ℕ, false, ◌<◌, ◌≤◌, ◌+◌, ◌*◌, ◌/◌, ◌%◌, ◌^◌, slice_index, slice_set};
ghost use Rattle.pg_ir.specs.pg_num.Places.{ByteRange, IsPlace, meet};
ghost use Rattle.pg_ir.specs.pg_num.declared.layout.TheConstants.{MEMORY_BYTES};
ghost use Rattle.pg_run_memory.specs.Bytes.{number_of, with_bytes};
ghost use Rattle.pg_run_memory.specs.Memory.{Words, IsMemory, byte_at, memory_of, read, written};
ghost use Rattle.pg_run_memory.specs.Words.{part_of, with_part};

/// What is read is the number that the bytes make, and it has as many bits as they have.
#[tactic(auto, unfolding(crate::specs::Memory::read))]
pub fn a_read_is_of_bytes()
    ensures value { (m : Words) (r : ByteRange) → read m r ≡ number_of (byte_at m) r.start r.bytes }
    ensures in_range { (m : Words) (r : ByteRange) → read m r < 2 ^ (8 * r.bytes) }
{}

/// A write, of any number in any range, gives the bytes of its range those of the number, and changes no other byte
/// of memory. What it leaves is a memory, and behind memory's end each byte is zero.
pub fn a_write_changes_its_bytes()
    ensures memory { (m : Words) (r : ByteRange) (v : ℕ) → IsMemory (written m r v) }
    ensures bytes { (m : Words) (r : ByteRange) (v at : ℕ) → at < MEMORY_BYTES → byte_at (written m r v) at ≡ with_bytes (byte_at m) r v at }
    ensures behind { (m : Words) (at : ℕ) → IsMemory m → MEMORY_BYTES ≤ at → byte_at m at ≡ 0 }
{}

/// A read of memory after a write gives the low bytes of the number at the same range, what was there before at a
/// range apart, and at a range that overlaps, as a part or a whole, what the bytes say.
pub fn a_read_sees_the_write()
    ensures same { (m : Words) (r : ByteRange) (v : ℕ) → r.start + r.bytes ≤ MEMORY_BYTES → read (written m r v) r ≡ v % 2 ^ (8 * r.bytes) }
    ensures apart { (m : Words) (r s : ByteRange) (v : ℕ) → s.start + s.bytes ≤ MEMORY_BYTES → meet r s ≡ false
        → read (written m r v) s ≡ read m s }
    ensures overlapping { (m : Words) (r s : ByteRange) (v : ℕ) → s.start + s.bytes ≤ MEMORY_BYTES
        → read (written m r v) s ≡ number_of (with_bytes (byte_at m) r v) s.start s.bytes }
{}

/// Two writes to ranges apart may change their order.
pub fn writes_apart_commute()
    ensures { (m : Words) (r s : ByteRange) (v w : ℕ) → meet r s ≡ false → written (written m r v) s w ≡ written (written m s w) r v }
{}

/// A memory is its bytes: with given bytes there is one, and no other has the same.
pub fn a_memory_is_its_bytes()
    ensures some { (f : ℕ → ℕ) → ((at : ℕ) → f at < 2 ^ 8) → IsMemory (memory_of f) }
    ensures bytes { (f : ℕ → ℕ) (at : ℕ) → ((i : ℕ) → f i < 2 ^ 8) → at < MEMORY_BYTES → byte_at (memory_of f) at ≡ f at }
    ensures one { (m n : Words) → IsMemory m → IsMemory n → ((at : ℕ) → at < MEMORY_BYTES → byte_at m at ≡ byte_at n at) → m ≡ n }
{}

/// An access is one of a part of one granule.
pub fn an_access_is_of_one_granule()
    ensures read { (m : Words) (r : ByteRange) → IsPlace r → read m r ≡ part_of (slice_index m (r.start / 8)) (r.start % 8) r.bytes }
    ensures written { (m : Words) (r : ByteRange) (v : ℕ) → IsMemory m → IsPlace r → v < 2 ^ (8 * r.bytes)
        → written m r v ≡ slice_set m (r.start / 8) (with_part (slice_index m (r.start / 8)) (r.start % 8) r.bytes v) }
{}
