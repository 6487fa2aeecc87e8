//! Footprints with their places among the first bytes of all.

ghost use Rattle.std.specs.Prelude.{◌≡◌, ◌+◌, ℕ, All, Contains, IfOk, map};
ghost use Rattle.std.specs.List.Sorted.{IsNonDecreasing};
ghost use Rattle.pg_slice_conflicts.specs.Places.{IsPlace, IsPlaced, footprint_of, start_of};

use crate::footprint::{Footprint, footprint_at};
use std::alloc::{AllocError, Global};

/// A footprint with its places: at how many bytes footprints begin before its first byte, and at how many before its end.
#[derive(Clone, Copy)]
pub(crate) struct Placed {
    pub footprint: Footprint,
    pub first: usize,
    pub end: usize,
}

/// The first bytes of the footprints, ascending, each once.
pub(crate) fn starts(alloc: Global, footprints: &[Footprint]) -> Result<Vec<u64>, AllocError>
    ensures ascending { IfOk result (λ v. IsNonDecreasing v.items) }
    ensures all { IfOk result (λ v. (b : ℕ) → Contains (map start_of footprints.now) b → Contains v.items b) }
{
    let mut starts = Vec::with_capacity(alloc, footprints.len())?;
    for footprint in footprints {
        starts.push(footprint.start)?;
    }
    starts.sort_unstable();
    starts.dedup();
    Ok(starts)
}

/// How many of these bytes, which ascend, lie below a byte.
fn place(bytes: &[u64], byte: u64) -> usize
    requires { IsNonDecreasing bytes.now }
    ensures { IsPlace bytes.now byte result }
{
    bytes.partition_point(|b| *b < byte)
}

/// How many of these bytes, which ascend, lie below the end of a range.
fn place_of_end(bytes: &[u64], start: u64, count: u64) -> usize
    requires { IsNonDecreasing bytes.now }
    ensures { IsPlace bytes.now (start + count) result }
{
    match start.checked_add(count) {
        Some(end) => place(bytes, end),
        None => bytes.len(),
    }
}

/// The footprint with its places among these bytes.
fn placed_at(bytes: &[u64], footprint: Footprint) -> Placed
    requires ascending { IsNonDecreasing bytes.now }
    requires start { Contains bytes.now footprint.start }
    ensures placed { IsPlaced bytes.now result }
    ensures footprint { result.footprint ≡ footprint }
{
    // Read for the proof: see docs/CONTRIBUTING.md.
    let _low = footprint.low;
    let _high = footprint.high;
    Placed {
        footprint,
        first: place(bytes, footprint.start),
        end: place_of_end(bytes, footprint.start, footprint.bytes),
    }
}

/// The footprints with their places among these bytes.
pub(crate) fn place_all(
    alloc: Global,
    bytes: &[u64],
    footprints: &[Footprint],
) -> Result<Vec<Placed>, AllocError>
    requires ascending { IsNonDecreasing bytes.now }
    requires all { (b : ℕ) → Contains (map start_of footprints.now) b → Contains bytes.now b }
    ensures placed { IfOk result (λ v. All (IsPlaced bytes.now) v.items) }
    ensures footprints { IfOk result (λ v. map footprint_of v.items ≡ footprints.now) }
{
    let mut placed = Vec::with_capacity(alloc, footprints.len())?;
    for i in 0..footprints.len() {
        placed.push(placed_at(bytes, footprint_at(footprints, i)))?;
    }
    Ok(placed)
}
