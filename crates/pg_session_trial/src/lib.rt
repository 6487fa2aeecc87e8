//! The trial: its program, and its lines of input.
// How goals are searched for: see docs/CONTRIBUTING.md.
#![tactic(auto)]

pub mod laws;
mod line;
mod program;

pub use line::{TRIAL_LIMIT, TRIAL_LINES, trial_line};
pub use program::trial_program;
