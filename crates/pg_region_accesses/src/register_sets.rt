//! The registers that blocks may set.

ghost use Rattle.std.specs.Prelude.{◌≡◌, ℕ, ◌<◌, length, All, ◌||◌, IfOk, IfSome, false, replicate};
ghost use Rattle.pg_region_paths.specs.pg_ir.declared.ids.InstrId.{InstrId};
ghost use Rattle.pg_region_paths.specs.pg_num.declared.limits.TheConstants.{FUNCTION_REGISTER_LIMIT};
ghost use Rattle.pg_region_paths.specs.Registers.{is_register};
ghost use Rattle.pg_region_accesses.specs.Accesses.{block_sets, is_gated, sets};
ghost use Rattle.pg_region_accesses.specs.Tables.{in_table};

use pg_region_paths::pg_ir::{BlockNo, InstrId, Program};
use pg_region_paths::pg_num::limits::FUNCTION_REGISTER_LIMIT;
use std::alloc::{AllocError, Global};

/// Adds a number to a set, if there is one.
#[tactic(auto, using(crate::proofs::SetTables::added_one, crate::proofs::SetTables::added_none))]
pub fn add_set(set: &mut Vec<bool>, register: Option<u32>)
    requires { IfSome register (λ r. r < length set.old.items) }
    ensures sets { (r : ℕ) → in_table set.new.items r ≡ (is_register register r || in_table set.old.items r) }
    ensures size { length set.new.items ≡ length set.old.items }
{
    if let Some(r) = register {
        set[r as usize] = true;
    }
}

/// Adds the registers that a block sets.
pub fn add_sets(set: &mut Vec<bool>, p: &Program, b: BlockNo)
    requires block { b.0 < length p.now.blocks }
    requires size { length set.old.items ≡ FUNCTION_REGISTER_LIMIT }
    ensures sets { (r : ℕ) → in_table set.new.items r ≡ (block_sets p.now r b.0 || in_table set.old.items r) }
    ensures size { length set.new.items ≡ FUNCTION_REGISTER_LIMIT }
{
    p.facts();
    let block = *p.block(b);
    // Called for the proof: see docs/CONTRIBUTING.md.
    let _function = p.function(block.function);
    for k in 0..block.count {
        let instr = p.instr(InstrId(block.first.0 + k));
        add_set(set, instr.result);
    }
}

/// The registers that a set of blocks sets.
pub fn sets_of(alloc: Global, p: &Program, blocks: &[u32]) -> Result<Vec<bool>, AllocError>
    requires { All (λ b. b < length p.now.blocks) blocks.now }
    ensures { IfOk result (λ set. (length set.items ≡ FUNCTION_REGISTER_LIMIT) × ((r : ℕ) → in_table set.items r ≡ sets p.now blocks.now r)) }
{
    let mut set = none_of(alloc, FUNCTION_REGISTER_LIMIT as usize)?;
    for b in blocks {
        add_sets(&mut set, p, BlockNo(*b));
    }
    Ok(set)
}

/// The set of none of so many numbers.
pub(crate) fn none_of(alloc: Global, count: usize) -> Result<Vec<bool>, AllocError>
    ensures { IfOk result (λ set. set.items ≡ replicate count false) }
{
    vec![in alloc; false; count]
}

/// The gated set as a table of so many instructions.
pub fn gated_table(alloc: Global, count: usize, gated: &[InstrId]) -> Result<Vec<bool>, AllocError>
    requires { All (λ (g : InstrId). g.0 < count) gated.now }
    ensures { IfOk result (λ t. (i : ℕ) → in_table t.items i ≡ is_gated gated.now i) }
{
    let mut table = none_of(alloc, count)?;
    for id in gated {
        add_set(&mut table, Some(id.0));
    }
    Ok(table)
}
