//! What the bodies of functions are refused for.
// How goals are searched for: see docs/CONTRIBUTING.md.
#![tactic(auto)]

mod blocks;
mod bodies;
mod body;
mod body_lines;
mod doubled_names;
mod limits;
mod line_parts;
mod lines;
mod name_index;
mod phis;
mod targets;

pub use bodies::first_of_bodies;
