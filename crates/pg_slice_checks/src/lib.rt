//! What a step of a reference run asks to be known, and what an input must give of it.
// How goals are searched for: see docs/CONTRIBUTING.md.
#![tactic(auto)]

mod asked;
mod path;
mod step;

pub use asked::Asked;
pub use path::{PathAt, path_needs};
pub use pg_slice_memory;
pub use step::{checked_of, is_start, step_needs};
