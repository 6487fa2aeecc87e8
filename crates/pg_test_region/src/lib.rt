//! Tests of quiet functions and their summaries, of walks in graphs, and of regions.
// How goals are searched for: see docs/CONTRIBUTING.md.
#![tactic(auto)]

#[cfg(test)]
mod region;
#[cfg(test)]
mod summaries;
