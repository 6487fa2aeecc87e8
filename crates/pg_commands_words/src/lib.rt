//! The words of the command line: which command they are, with its options and its numbers.
// How goals are searched for: see docs/CONTRIBUTING.md.
#![tactic(auto)]

mod commands;
pub mod laws;
mod matches;
mod names;
mod parse;
mod positions;
mod values;

pub use commands::{Book, Command, Conditions, Once, RecordingWay, Serve, Show};
pub use parse::command;
pub use values::DEFAULT_QUANTUM;
