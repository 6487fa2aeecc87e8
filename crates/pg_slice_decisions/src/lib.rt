//! Decisions as sets of steps, as tables and as ascending lists; and whether a thread stands in an extent of a branch step that
//! isn't pinned, step by step along a run.
// How goals are searched for: see docs/CONTRIBUTING.md.
#![tactic(auto)]

mod marks;
mod open;
mod steps;

pub use open::OpenExtents;
pub use steps::DecisionSet;
