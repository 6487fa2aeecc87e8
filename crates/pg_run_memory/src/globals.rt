//! The bytes that globals begin with.

ghost use Rattle.std.specs.Prelude.{◌≡◌, ℕ, ◌<◌, ◌≤◌, ◌+◌, ◌*◌, length};
ghost use Rattle.pg_ir.specs.pg_num.declared.layout.TheConstants.{MEMORY_BYTES};
ghost use Rattle.pg_run_memory.specs.Initial.{initial_byte, with_bytes_at};
ghost use Rattle.pg_run_memory.specs.Memory.{byte_at};

use crate::memory::Memory;
use pg_ir::Program;

/// Puts bytes at consecutive places, from the begin of a granule on.
pub(crate) fn lay(memory: &mut Memory, granule: u32, bytes: &[u8])
    requires { granule * 8 + length bytes.now ≤ MEMORY_BYTES }
    ensures { (b : ℕ) → byte_at memory.new b ≡ with_bytes_at (granule * 8) bytes.now (byte_at memory.old) b }
{
    for (i, byte) in bytes.iter().enumerate() {
        memory.put_byte(granule * 8 + i as u32, *byte);
    }
}

/// Puts the first bytes of each global at their places. Those of an earlier global are put later.
pub(crate) fn lay_globals(memory: &mut Memory, p: &Program)
    requires { (b : ℕ) → byte_at memory.old b ≡ 0 }
    ensures { (b : ℕ) → byte_at memory.new b ≡ initial_byte p.now.globals b }
{
    let mut left = p.global_count();
    while left > 0 {
        left -= 1;
        let global = p.global(left);
        lay(memory, global.start, global.bytes.as_slice());
    }
}
