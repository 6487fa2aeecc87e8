//! The reader of program texts.
// How goals are searched for: see docs/CONTRIBUTING.md.
#![tactic(auto)]

mod body;
mod dropped;
mod functions;
mod globals;
mod items;
mod lines;
mod next;
mod params;
mod parts;
mod program;
mod returns;
mod text;

pub use text::parse;
