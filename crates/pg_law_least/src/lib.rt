//! Laws on closed decisions: some are contained in all that are closed; and what the rules on conflicts ask is told by the answers
//! on footprints. Nothing runs.
// How goals are searched for: see docs/CONTRIBUTING.md.
#![tactic(auto)]

pub mod laws;
