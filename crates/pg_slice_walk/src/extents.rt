//! The extents in which a step stands and of which it isn't known that their branch steps are pinned.
ghost use Rattle.std.specs.Prelude.{◌≡◌, ◌==◌, ◌||◌, ◌-◌, ℕ, List, true, false, IfOk, slice_index_or};
ghost use Rattle.pg_slice_rules.specs.Known.{Taken};
ghost use Rattle.pg_slice_walk.specs.Chains.{AreOlder};
ghost use Rattle.pg_slice_walk.specs.Settled.{ArePinned, AreSettled, Leads};

use crate::holders::holder_at;
use crate::marks::mark_at;
use std::alloc::{AllocError, Global};

/// Whether a branch step is settled, by the number behind its own: it and those in whose extents it stands are pinned. So it is
/// where the number is 0, for there is none.
pub fn is_settled(settled: &[bool], holder: u32) -> bool
    ensures pinned { result ≡ true → (hs : List ℕ) (d : Taken) → AreSettled hs d settled.now → ArePinned hs d holder }
    ensures some { result ≡ false → holder ≡ 0 → ⊥ }
    ensures value { result ≡ (holder == 0 || slice_index_or settled.now (holder - 1) false) }
{
    holder == 0 || mark_at(settled, holder as usize - 1)
}

/// The branch steps in whose extents a step stands and that aren't settled, the innermost first.
pub(crate) fn unsettled(
    alloc: Global,
    holders: &[u32],
    settled: &[bool],
    number: usize,
) -> Result<Vec<usize>, AllocError>
    requires { AreOlder holders.now }
    ensures { IfOk result (λ v. (rest : ℕ) × Leads holders.now (slice_index_or holders.now number 0) v.items rest
        × ((d : Taken) → AreSettled holders.now d settled.now → ArePinned holders.now d rest)) }
{
    let mut list = Vec::new(alloc);
    let mut holder = holder_at(holders, number);
    while !is_settled(settled, holder) {
        list.push(holder as usize - 1)?;
        holder = holder_at(holders, holder as usize - 1);
    }
    Ok(list)
}
