//! Which footprints conflict, pair by pair.

ghost use Rattle.std.specs.Prelude.{◌≡◌, IfOk, map};
ghost use Rattle.pg_slice_conflicts.specs.Meets as meets;

use crate::footprint::{Footprint, footprint_at};
use std::alloc::{AllocError, Global};

/// Whether the two have a byte in common.
fn share(x: &Footprint, y: &Footprint) -> bool
    ensures { result ≡ meets.share (meets.bytes_of x.now) (meets.bytes_of y.now) }
{
    let from = x.start.max(y.start);
    from - x.start < x.bytes && from - y.start < y.bytes
}

/// Whether a footprint conflicts with another that it minds.
fn meets(x: &Footprint, y: &Footprint) -> bool
    ensures { result ≡ meets.meets x.now y.now }
{
    (x.of_region || !y.of_region)
        && x.thread.0 != y.thread.0
        && x.high >= y.low
        && y.high >= x.low
        && (x.writes || y.writes)
        && share(x, y)
}

/// Whether a footprint conflicts with one of these that it minds.
fn is_met(footprints: &[Footprint], x: &Footprint) -> bool
    ensures { result ≡ meets.is_met footprints.now x.now }
{
    for j in 0..footprints.len() {
        if meets(x, &footprint_at(footprints, j)) {
            return true;
        }
    }
    false
}

/// Of each footprint whether it conflicts with one that it minds, by comparing each with all others.
///
/// # Errors
///
/// Where no memory is left for the answers.
pub fn conflicts_by_pairs(alloc: Global, footprints: &[Footprint]) -> Result<Vec<bool>, AllocError>
    ensures { IfOk result (λ v. v.items ≡ map (meets.is_met footprints.now) footprints.now) }
{
    let mut met = Vec::with_capacity(alloc, footprints.len())?;
    for i in 0..footprints.len() {
        met.push(is_met(footprints, &footprint_at(footprints, i)))?;
    }
    Ok(met)
}
