//! For each place of a line the greatest number that was put on a range which holds it. A range is marked without going over it.
// How goals are searched for: see docs/CONTRIBUTING.md.
#![tactic(auto)]

mod marks;
mod stamps;

pub use stamps::{PLACE_COUNT, Stamps};
