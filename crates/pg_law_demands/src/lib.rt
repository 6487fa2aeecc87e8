//! Laws on what has to be known along a reference run, and which decisions this needs. Nothing runs.
// How goals are searched for: see docs/CONTRIBUTING.md.
#![tactic(auto)]

pub mod laws;
