//! Tests of whole runs by workers, and entries along whose schedules workers may run.
#![tactic(auto)]

mod entries;
#[cfg(test)]
mod rooms;
#[cfg(test)]
mod rows;
#[cfg(test)]
mod serving;
#[cfg(test)]
mod stalls;
#[cfg(test)]
mod under_lock;

pub use entries::{entry_of, may_run};
