//! Sets of vertices, as a mark for each.

ghost use Rattle.std.specs.Prelude.{◌≡◌, [], ◌∷◌, ◌<◌, ℕ, ◌≤◌, ◌^◌, length, vec_len, Contains, IfOk, OnOk, false, replicate, slice_set};
ghost use Rattle.pg_cfg.specs.Searches.{IsFoundFrom, is_in, members_from};

use std::alloc::{AllocError, Global};

/// Whether a vertex is in the set.
pub(crate) fn contains(set: &[bool], vertex: u32) -> bool
    ensures { result ≡ is_in set.now vertex }
{
    match set.get(vertex as usize) {
        Some(is_in) => *is_in,
        None => false,
    }
}

/// The set of none of so many vertices.
pub(crate) fn none_of(alloc: Global, count: usize) -> Result<Vec<bool>, AllocError>
    ensures { IfOk result (λ set. set.items ≡ replicate count false) }
{
    vec![in alloc; false; count]
}

#[tactic(auto, using(crate::proofs::Found::set_past))]
/// Puts a vertex into the set or takes it out, if the set is of so many.
pub(crate) fn put(set: &mut Vec<bool>, vertex: u32, is_in: bool)
    ensures items { set.new.items ≡ slice_set set.old.items vertex is_in }
{
    if (vertex as usize) < set.len() {
        set[vertex as usize] = is_in;
    }
}

#[tactic(auto, using(crate::proofs::Found::found_already, crate::proofs::Found::found_first))]
/// Adds a vertex to those that were found, and to those that are still to be followed where it is new.
fn find_one(found: &mut Vec<bool>, pending: &mut Vec<u32>, target: u32) -> Result<(), AllocError>
    requires { target < vec_len found.old }
    ensures { OnOk result (IsFoundFrom (target ∷ []) found.old.items pending.old.items found.new.items pending.new.items) }
{
    let at = target as usize;
    if found.as_slice()[at] {
        return Ok(());
    }
    found[at] = true;
    pending.push(target)?;
    Ok(())
}

#[tactic(auto, using(crate::proofs::Found::found_none, crate::proofs::Found::found_more))]
/// Adds these vertices to those that were found, and the new ones of them to those that are still to be followed.
pub(crate) fn find(
    found: &mut Vec<bool>,
    pending: &mut Vec<u32>,
    targets: &[u32],
) -> Result<(), AllocError>
    requires { (x : ℕ) → Contains targets.now x → x < vec_len found.old }
    ensures { OnOk result (IsFoundFrom targets.now found.old.items pending.old.items found.new.items pending.new.items) }
{
    for target in targets {
        find_one(found, pending, *target)?;
    }
    Ok(())
}

/// The numbers of the vertices in a set, ascending.
pub(crate) fn members(alloc: Global, set: &[bool]) -> Result<Vec<u32>, AllocError>
    requires { length set.now ≤ 2 ^ 32 }
    ensures { IfOk result (λ xs. xs.items ≡ members_from 0 set.now) }
{
    let mut members = Vec::new(alloc);
    for (vertex, is_in) in set.iter().enumerate() {
        if *is_in {
            members.push(vertex as u32)?;
        }
    }
    Ok(members)
}
