//! Whether something has to be known that the region of a freeable step may set.

ghost use Rattle.std.specs.Prelude.{◌≡◌, ◌<◌, ◌&&◌, ℕ, nat_lt, true, false, Some, None, IfSome, slice_get};
ghost use Rattle.pg_region_accesses.specs.Tables.{in_table};
ghost use Rattle.pg_slice_rules.specs.Freeable.{bounds_of};
ghost use Rattle.pg_slice_rules.specs.SymbolicValues.{is_within};
ghost use Rattle.pg_law_least.specs.Keeps.{may_write};
ghost use Rattle.pg_slice_passes.specs.pg_slice_replay.Kept.{landmark_at};
ghost use Rattle.pg_slice_demands.specs.Asked.{asks_byte};
ghost use Rattle.pg_slice_back.specs.Sets.{AsksByte, AsksOfAccess, AsksRegion, AsksRegister};

use crate::bytes::bytes_in_bounds;
use pg_slice_demands::{Call, Demanded};
use pg_slice_passes::pg_slice_replay::{FreeAccess, ReferenceRun};

/// Whether a register is marked and among the first so many.
fn is_marked(marks: &[bool], register: u32, count: usize) -> bool
    ensures { result ≡ (nat_lt register count && in_table marks.now register) }
{
    if register as usize >= count {
        return false;
    }
    match marks.get(register as usize) {
        Some(mark) => *mark,
        None => false,
    }
}

/// Whether a register of a call has to be known that is marked and among the first so many.
fn asks_marked(demanded: &Demanded, at: Call, marks: &[bool], count: usize) -> bool
    ensures some { result ≡ true → AsksRegister (in_table marks.now) at.thread.0 at.depth count demanded.now }
    ensures none { result ≡ false → AsksRegister (in_table marks.now) at.thread.0 at.depth count demanded.now → ⊥ }
{
    let mut from = 0;
    while let Some(register) = demanded.register_from(at, from) {
        if is_marked(marks, register, count) {
            return true;
        }
        if register == u32::MAX {
            return false;
        }
        from = register + 1;
    }
    false
}

/// Whether a byte has to be known that an access of a region may write.
fn asks_written(demanded: &Demanded, access: &FreeAccess) -> bool
    ensures some { result ≡ true → AsksByte (λ b. access.now.writes && is_within (bounds_of access.now.last) b) demanded.now }
    ensures none { result ≡ false → AsksByte (λ b. access.now.writes && is_within (bounds_of access.now.last) b) demanded.now → ⊥ }
{
    if !access.writes {
        return false;
    }
    let bounds = bytes_in_bounds(access.last);
    demanded.byte_in(bounds.from, bounds.to).is_some()
}

/// Whether a byte has to be known that the access with this number of a freeable step's region may write, if there is one.
fn asks_one(demanded: &Demanded, reference: &ReferenceRun, number: usize, k: usize) -> bool
    ensures some { IfSome (landmark_at reference.now number) (λ l. IfSome l.region (λ q. result ≡ true → AsksByte (may_write q.accesses) demanded.now)) }
    ensures none { IfSome (landmark_at reference.now number) (λ l. IfSome l.region (λ q. result ≡ false → AsksOfAccess (slice_get q.accesses k) demanded.now → ⊥)) }
{
    match reference.access(number, k) {
        Some(access) => asks_written(demanded, &access),
        None => false,
    }
}

/// Whether a byte has to be known.
fn asks_bytes(demanded: &Demanded) -> bool
    ensures { result ≡ false → (b : ℕ) → asks_byte demanded.now b ≡ true → ⊥ }
{
    let found = demanded.byte_in(0, u64::MAX);
    found.is_some()
}

/// Whether a byte has to be known that a freeable step's region may write.
fn asks_any(demanded: &Demanded, reference: &ReferenceRun, number: usize) -> bool
    ensures some { IfSome (landmark_at reference.now number) (λ l. IfSome l.region (λ q. result ≡ true → AsksByte (may_write q.accesses) demanded.now)) }
    ensures none { IfSome (landmark_at reference.now number) (λ l. IfSome l.region (λ q. result ≡ false → AsksByte (may_write q.accesses) demanded.now → ⊥)) }
{
    if !asks_bytes(demanded) {
        return false;
    }
    for k in 0..reference.access_count(number) {
        if asks_one(demanded, reference, number, k) {
            return true;
        }
    }
    false
}

/// Whether something has to be known that the region of a step may set, if it is freeable: a byte, or a register among the first
/// so many of a call.
pub fn sets_any(
    demanded: &Demanded,
    reference: &ReferenceRun,
    at: Call,
    number: usize,
    count: usize,
) -> bool
    ensures some { IfSome (landmark_at reference.now number) (λ l. result ≡ true → AsksRegion l.region at.thread.0 at.depth count demanded.now) }
    ensures none { IfSome (landmark_at reference.now number) (λ l. result ≡ false → AsksRegion l.region at.thread.0 at.depth count demanded.now → ⊥) }
{
    if !reference.is_free(number) {
        return false;
    }
    asks_any(demanded, reference, number)
        || asks_marked(demanded, at, reference.marks(number), count)
}
