//! The rule of shared words, computed on small runs: which turn is due, what a seat may do and what it finds, and what words hold at cuts.
//! Each law is the clause of a function that does nothing.
// How goals are searched for: see docs/CONTRIBUTING.md.
#![tactic(auto)]

pub mod halves;
pub mod sums;
