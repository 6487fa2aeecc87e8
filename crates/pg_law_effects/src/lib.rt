//! Laws on what the steps of the machine do, and on its runs: nothing here runs.
// How goals are searched for: see docs/CONTRIBUTING.md.
#![tactic(auto)]

pub mod gates;
pub mod laws;
pub mod permitted;
pub mod reached;
pub mod runs;
pub mod views;

pub use pg_run;
