//! The functions that calls reach.

ghost use Rattle.std.specs.Prelude.{◌≡◌, ℕ, ◌<◌, ◌≤◌, ◌^◌, length, IfOk};
ghost use Rattle.pg_cfg.specs.Graphs.{IsClosed, IsReach};
ghost use Rattle.pg_region_summaries.specs.Reaches.{AreReaches, IsReachOf, reach_at};

use pg_cfg::{Graph, is_among, reach_without};
use std::alloc::{AllocError, Global};

/// How many functions the calls of a function reach, and whether it is one of them.
#[derive(Clone, Copy)]
pub struct Reach {
    pub size: usize,
    pub is_recursive: bool,
}

/// Follows the calls of a function.
fn reach_of(alloc: Global, calls: &Graph, f: u32) -> Result<Reach, AllocError>
    requires closed { IsClosed calls.now }
    requires function { f < length calls.now }
    ensures { IfOk result (IsReachOf calls.now f) }
{
    let reached = reach_without(alloc, calls, f, u32::MAX)?;
    Ok(Reach {
        size: reached.len(),
        is_recursive: is_among(reached.as_slice(), f),
    })
}

/// What the calls of each function reach.
pub(crate) fn reaches(alloc: Global, calls: &Graph) -> Result<Vec<Reach>, AllocError>
    requires closed { IsClosed calls.now }
    requires few { length calls.now < 2 ^ 32 }
    ensures size { IfOk result (λ reaches. length reaches.items ≡ length calls.now) }
    ensures reaches { IfOk result (λ reaches. AreReaches calls.now (length calls.now) reaches.items) }
{
    let mut reaches = Vec::new(alloc);
    for f in 0..calls.len() {
        let next = reach_of(alloc, calls, f as u32)?;
        reaches.push(next)?;
    }
    Ok(reaches)
}

/// What the calls of a function reach.
pub(crate) fn reach_at(reaches: &[Reach], f: u32) -> Reach
    ensures { result ≡ reach_at reaches.now f }
{
    match reaches.get(f as usize) {
        Some(reach) => *reach,
        None => Reach {
            size: 0,
            is_recursive: false,
        },
    }
}

/// The size of the largest of these.
pub(crate) fn largest(reaches: &[Reach]) -> usize
    ensures { (f : ℕ) → f < length reaches.now → (reach_at reaches.now f).size ≤ result }
{
    let mut largest = 0;
    for reach in reaches {
        if reach.size > largest {
            largest = reach.size;
        }
    }
    largest
}
