//! Tests of numbers, of sources, sinks and shelves, of trials, of the bounded cache, of command lines, and of preconditions.
// How goals are searched for: see docs/CONTRIBUTING.md.
#![tactic(auto)]

#[cfg(test)]
mod needed;
mod preconditions;
#[cfg(test)]
mod tests;
