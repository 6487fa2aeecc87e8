//! The region of a branch.

use pg_region_accesses::Rooted;

/// The region of a branch: the block at which its ways meet again, the numbers of the blocks that can be reached
/// before, ascending, and what these access, in text order.
#[derive(Debug, Drop)]
pub struct Region {
    pub join: u32,
    pub blocks: Vec<u32>,
    pub accesses: Vec<Rooted>,
}
