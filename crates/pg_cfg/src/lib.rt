//! Directed graphs: what walks meet before a vertex, and the nearest vertex that separates from others.
// How goals are searched for: see docs/CONTRIBUTING.md.
#![tactic(auto)]

mod among;
mod graph;
pub mod laws;
mod marks;
mod rank;
mod reach;
mod separator;

pub use among::is_among;
pub use graph::Graph;
pub use rank::ranks;
pub use reach::reach_without;
pub use separator::{Separator, nearest_separator};
