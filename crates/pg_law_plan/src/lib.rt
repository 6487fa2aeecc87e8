//! Laws on the plan that a reference run makes for a run on another input: nothing here runs.
// How goals are searched for: see docs/CONTRIBUTING.md.
#![tactic(auto)]

pub mod fits;
pub mod follow;
pub mod plan;
