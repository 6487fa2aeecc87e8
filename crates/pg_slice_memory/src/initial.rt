//! The bytes that memory begins with.

ghost use Rattle.std.specs.Prelude.{◌≡◌, ◌≤◌, ◌+◌, ◌*◌, ℕ, IfNone, IfSome};
ghost use Rattle.pg_run_memory.specs.Bytes.{number_of};
ghost use Rattle.pg_run_memory.specs.Initial.{initial_byte, with_bytes_at};
ghost use Rattle.pg_stamps.specs.declared.stamps.TheConstants.{PLACE_COUNT};

use pg_ir::{GlobalInfo, Program};

/// The byte of a place that a global begins with, if the place is one of those.
fn global_byte(global: &GlobalInfo, byte: u64) -> Option<u8>
    ensures some { IfSome result (λ x. (rest : ℕ → ℕ) → with_bytes_at (global.now.start * 8) global.now.bytes rest byte ≡ x) }
    ensures none { IfNone result ((rest : ℕ → ℕ) → with_bytes_at (global.now.start * 8) global.now.bytes rest byte ≡ rest byte) }
{
    let start = global.start as u64 * 8;
    if byte < start {
        return None;
    }
    let bytes = global.bytes.as_slice();
    let place = (byte - start) as usize;
    if place < bytes.len() {
        Some(bytes[place])
    } else {
        None
    }
}

/// The byte at a place before the first step.
pub(crate) fn initial_byte(p: &Program, byte: u64) -> u8
    ensures { result ≡ initial_byte p.now.globals byte }
{
    for g in 0..p.global_count() {
        if let Some(found) = global_byte(p.global(g), byte) {
            return found;
        }
    }
    0
}

/// The number that the bytes from a place on make before the first step, the lowest first.
pub(crate) fn initial_number(p: &Program, start: u64, count: u8) -> u64
    requires count { count ≤ 8 }
    requires end { start + count ≤ PLACE_COUNT }
    ensures { result ≡ number_of (initial_byte p.now.globals) start count }
{
    let mut number = 0;
    for k in 0..count {
        let byte = initial_byte(p, start + (count - 1 - k) as u64);
        number = number * 0x100 + byte as u64;
    }
    number
}
