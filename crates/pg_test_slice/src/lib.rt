//! Tests of slices, and of what they are made of: known values, memory, conflicts, replays.
// How goals are searched for: see docs/CONTRIBUTING.md.
#![tactic(auto)]

#[cfg(test)]
mod conflicts;
#[cfg(test)]
mod memory;
#[cfg(test)]
mod replays;
#[cfg(test)]
mod slices;
mod values;
