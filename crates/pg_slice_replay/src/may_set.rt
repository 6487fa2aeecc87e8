//! The registers that the blocks of a region may set.

ghost use Rattle.std.specs.Prelude.{◌≡◌, ℕ, ◌<◌, ◌≤◌, ◌||◌, length, All, IfOk, false};
ghost use Rattle.pg_num.specs.declared.limits.TheConstants.{FUNCTION_REGISTER_LIMIT};
ghost use Rattle.pg_region_accesses.specs.Accesses.{sets};
ghost use Rattle.pg_region_accesses.specs.Tables.{in_table};
ghost use Rattle.pg_slice_replay.specs.OfRegions.{phis_set};

use pg_ir::{BlockNo, Program};
use pg_region_accesses::{add_set, sets_of};
use std::alloc::{AllocError, Global};

/// Adds the registers that the `phi`s of a block set.
fn add_phis(set: &mut Vec<bool>, p: &Program, b: BlockNo)
    requires block { b.0 < length p.now.blocks }
    requires size { length set.old.items ≡ FUNCTION_REGISTER_LIMIT }
    ensures sets { (r : ℕ) → in_table set.new.items r ≡ (phis_set p.now b.0 r || in_table set.old.items r) }
    ensures size { length set.new.items ≡ FUNCTION_REGISTER_LIMIT }
{
    p.facts();
    for phi in p.phis(b) {
        add_set(set, phi.result);
    }
}

/// One more than the greatest number of a set.
fn end_of(set: &[bool]) -> usize
    ensures within { result ≤ length set.now }
    ensures rest { (r : ℕ) → result ≤ r → in_table set.now r ≡ false }
{
    let mut end = 0;
    for i in 0..set.len() {
        if set[i] {
            end = i + 1;
        }
    }
    end
}

/// The same set in as short a table as may be.
fn shortened(alloc: Global, set: &[bool]) -> Result<Vec<bool>, AllocError>
    ensures { IfOk result (λ short. (r : ℕ) → in_table short.items r ≡ in_table set.now r) }
{
    let end = end_of(set);
    set[..end].to_vec(alloc)
}

/// The registers that a set of blocks and the `phi`s of a join set.
pub(crate) fn may_set(
    alloc: Global,
    p: &Program,
    blocks: &[u32],
    join: u32,
) -> Result<Vec<bool>, AllocError>
    requires blocks { All (λ b. b < length p.now.blocks) blocks.now }
    requires join { join < length p.now.blocks }
    ensures { IfOk result (λ set. (r : ℕ) → in_table set.items r ≡ (sets p.now blocks.now r || phis_set p.now join r)) }
{
    let mut set = sets_of(alloc, p, blocks)?;
    add_phis(&mut set, p, BlockNo(join));
    shortened(alloc, set.as_slice())
}
