//! Tests of races: the two forms compared on runs of the sample programs, and worked rows.
// How goals are searched for: see docs/CONTRIBUTING.md.
#![tactic(auto)]

#[cfg(test)]
mod runs;
