//! Tests of shared words, under a rule that says nothing.
// How goals are searched for: see docs/CONTRIBUTING.md.
#![tactic(auto)]

mod anything;
#[cfg(test)]
mod tests;
