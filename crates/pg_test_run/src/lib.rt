//! Tests of the parts that runs are made of, and of rotation runs and guided runs of sample programs.
// How goals are searched for: see docs/CONTRIBUTING.md.
#![tactic(auto)]

#[cfg(test)]
mod parts;
#[cfg(test)]
mod runs;
