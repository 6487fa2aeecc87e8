//! Quiet regions: the blocks between a branch and the join at which its ways meet again, where these do nothing that
//! another thread can see but access memory.
// How goals are searched for: see docs/CONTRIBUTING.md.
#![tactic(auto)]

mod alike;
mod finder;
mod finding;
mod flow;
pub mod laws;
mod region;

pub use alike::{Alike, Found};
pub use finder::{Finder, region_of};
pub use region::Region;
