//! Runs along a schedule with the whole machine under one lock: a worker for each thread takes the lock for each of its steps. They
//! come to what the guided run comes to, and are a yardstick for runs by workers on shared words.
// How goals are searched for: see docs/CONTRIBUTING.md.
#![tactic(auto)]

mod due;
pub mod locked;
pub mod named;
mod run;
pub mod tried;

pub use run::run_locked;
