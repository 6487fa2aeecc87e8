//! Tests of seats: runs of small programs in a room, whose threads take turns on one processor, with the shared words looked at before each
//! step.
// How goals are searched for: see docs/CONTRIBUTING.md.
#![tactic(auto)]

#[cfg(test)]
mod checks;
#[cfg(test)]
mod looks;
#[cfg(test)]
mod rooms;
#[cfg(test)]
mod rows;
#[cfg(test)]
mod runs;
#[cfg(test)]
mod schedules;
#[cfg(test)]
mod workers;
