//! Branches that are alike: they have the same region.

ghost use Rattle.std.specs.Prelude.{◌≡◌, ℕ, Contains, IfOk, false, true, replicate, slice_set};
ghost use Rattle.pg_region_accesses.specs.Tables.{in_table};

use crate::region::Region;
use std::alloc::{AllocError, Global};

/// How many blocks are before the join of branches that are kept as alike, at least: of fewer each branch has its own.
const LEAST_BEFORE: usize = 64;

/// Branches that were found to be alike: the block of the first, its join, how many blocks are before that and which, and
/// the loud blocks with those whose branches are like the first.
#[derive(Debug, Drop)]
pub struct Alike {
    pub(crate) first: u32,
    pub(crate) join: u32,
    pub(crate) count: usize,
    pub(crate) before: Vec<bool>,
    pub(crate) marks: Vec<bool>,
}

/// What is found of a branch: its region, if it has one, or another block whose branch has the same.
#[derive(Debug, Drop)]
pub enum Found {
    Of(Option<Region>),
    Like(u32),
}

impl Alike {
    ghost use Rattle.pg_region.specs.Alike.{AreKept};
    ghost use Rattle.pg_region.specs.Finders.{FinderParts};

    /// No branches so far.
    pub fn none(alloc: Global) -> Alike
        ensures kept { (f : FinderParts) → AreKept f result }
    {
        Alike {
            first: 0,
            join: 0,
            count: 0,
            before: Vec::new(alloc),
            marks: Vec::new(alloc),
        }
    }

    /// Whether a branch with so many blocks before its join is kept in their place: where it isn't among them, or has more
    /// than half as many.
    pub(crate) fn yields_to(&self, block: u32, count: usize) -> bool {
        let is_before = contains(self.before.as_slice(), block);
        count >= LEAST_BEFORE && (!is_before || self.count / 2 < count)
    }
}

/// Whether a block is in a set.
pub(crate) fn contains(set: &[bool], block: u32) -> bool
    ensures { result ≡ in_table set.now block }
{
    match set.get(block as usize) {
        Some(is_in) => *is_in,
        None => false,
    }
}

/// Puts a block into a set, if that is of so many.
#[tactic(auto, using(pg_cfg::proofs::Found::set_past))]
pub(crate) fn put(set: &mut Vec<bool>, block: u32)
    ensures items { set.new.items ≡ slice_set set.old.items block true }
{
    if (block as usize) < set.len() {
        set[block as usize] = true;
    }
}

/// The set of none of so many blocks.
fn none_of(alloc: Global, count: usize) -> Result<Vec<bool>, AllocError>
    ensures { IfOk result (λ set. set.items ≡ replicate count false) }
{
    vec![in alloc; false; count]
}

/// A set of none but these blocks, all of them that are among so many.
pub(crate) fn set_of(alloc: Global, count: usize, blocks: &[u32]) -> Result<Vec<bool>, AllocError>
    ensures { IfOk result (λ set. (x : ℕ) → in_table set.items x ≡ true → Contains blocks.now x) }
{
    let mut set = none_of(alloc, count)?;
    for block in blocks {
        put(&mut set, *block);
    }
    Ok(set)
}
