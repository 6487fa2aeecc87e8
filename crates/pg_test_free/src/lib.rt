//! Tests of recordings in any order of the threads.
// How goals are searched for: see docs/CONTRIBUTING.md.
#![tactic(auto)]

#[cfg(test)]
mod crews;
#[cfg(test)]
mod host_threads;
#[cfg(test)]
mod seeds;
