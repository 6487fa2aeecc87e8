//! The slice of a reference run by few passes: what a walk from its end back asks, and what live steps ask by their bounds, is
//! taken in before each.
// How goals are searched for: see docs/CONTRIBUTING.md.
#![tactic(auto)]

mod footprints;
mod meetings;
mod rivals;
mod slicing;
mod spread;

pub use slicing::slice;
