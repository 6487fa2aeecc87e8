//! Which of the byte ranges that steps may access conflict with one of another thread in an overlapping interval.
// How goals are searched for: see docs/CONTRIBUTING.md.
#![tactic(auto)]

mod fast;
mod footprint;
pub mod laws;
mod merged;
mod nodes;
mod pairs;
mod pass;
mod places;
mod table;
mod tree;

pub use fast::conflicts;
pub use footprint::Footprint;
pub use pairs::conflicts_by_pairs;
