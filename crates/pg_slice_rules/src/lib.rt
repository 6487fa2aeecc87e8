//! Definitions: which inputs may use the order of a recorded run again. Nothing runs.
// How goals are searched for: see docs/CONTRIBUTING.md.
#![tactic(auto)]

mod decision;
pub mod examples;

pub use decision::{Decision, Decisions};
