//! Laws on what a thread does between a freeable branch step and the join of its region: nothing here runs.
// How goals are searched for: see docs/CONTRIBUTING.md.
#![tactic(auto)]

pub mod laws;

pub use pg_slice_replay;
