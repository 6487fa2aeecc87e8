//! What was found of a branch's region.

use pg_region_accesses::Rooted;

/// The region of a branch: its join, the registers that it may set, and its accesses.
#[derive(Drop)]
pub struct FoundRegion {
    pub(crate) join: u32,
    pub(crate) sets: Vec<bool>,
    pub(crate) accesses: Vec<Rooted>,
}

/// What is known of the branch at the end of a block: nothing, that it has no region, or the number of its region.
#[derive(Clone, Copy)]
pub enum Sought {
    Unsought,
    Nothing,
    At(u32),
}

/// The regions of those blocks whose branches were sought.
#[derive(Drop)]
pub(crate) struct Regions {
    pub(crate) blocks: Vec<Sought>,
    pub(crate) regions: Vec<FoundRegion>,
}
