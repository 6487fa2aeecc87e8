//! The number of a program's basic blocks.

ghost use Rattle.std.specs.Prelude.{◌≡◌, ◌≤◌, ◌^◌, length};

use pg_region_paths::pg_ir::{InstrId, Program};

/// How many basic blocks a program has.
pub fn block_count(p: &Program) -> u64
    ensures count { result ≡ length p.now.blocks }
    ensures few { result ≤ 2 ^ 32 }
{
    p.facts();
    let mut count = 0;
    for i in 0..p.instr_count() {
        let block = p.instr(InstrId(i)).block.0 as u64;
        if block >= count {
            count = block + 1;
        }
    }
    count
}
