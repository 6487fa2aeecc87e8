//! Which inputs may use the schedule of a recorded run: nothing here runs.
// How goals are searched for: see docs/CONTRIBUTING.md.
#![tactic(auto)]

pub mod laws;
pub mod prefixes;

pub use pg_law_order;
