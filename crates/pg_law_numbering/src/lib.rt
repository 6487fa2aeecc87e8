//! The numbered program of an accepted module is a program.
// How goals are searched for: see docs/CONTRIBUTING.md.
#![tactic(auto)]

pub mod laws;
