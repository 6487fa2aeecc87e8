//! The places of calls and registers on a line.

ghost use Rattle.std.specs.Prelude.{◌≡◌, ◌<◌, ◌+◌, ◌&&◌, nat_lt, Some, None, if◌then◌else◌};
ghost use Rattle.pg_slice_demands.specs.Places as places;

use crate::call::Call;
use pg_ir::ThreadNo;

/// How many places the bytes have.
pub(crate) const BYTE_PLACES: u64 = 0x400_0000;

/// How many calls of a thread have places, by how many calls the thread has with one on top.
pub(crate) const CALLS: u64 = 512;

/// How many registers of a call have places.
const REGISTERS: u64 = 4_096;

/// The place of the first register of a thread's call, by how many calls the thread has with it on top.
pub(crate) fn call_place(thread: ThreadNo, depth: u64) -> u64
    requires { depth < 4294967297 }
    ensures { result ≡ places.call_place thread.0 depth }
{
    BYTE_PLACES + (thread.0 as u64 * CALLS + depth) * REGISTERS
}

/// The place of a register of a call, if it has one.
pub(crate) fn register_place(at: Call, register: u32) -> Option<u64>
    ensures { result ≡ (if nat_lt at.depth 512 && nat_lt register 4096 then Some (places.register_place at.thread.0 at.depth register) else None) }
{
    if (at.depth as u64) < CALLS && (register as u64) < REGISTERS {
        Some(call_place(at.thread, at.depth as u64) + register as u64)
    } else {
        None
    }
}
