//! Sample programs for tests, and how a program is built of a table of plain data.
// How goals are searched for: see docs/CONTRIBUTING.md.
#![tactic(auto)]

mod building;
mod line;
mod lists;
mod objects;
mod operations;
mod parts;
mod racing;
mod sample;
mod straight;
mod threads;

pub use building::build;
pub use line::Line;
pub use parts::{Body, I1, I8, I32, I64, NULL, PTR, Parts};
pub use sample::Sample;
