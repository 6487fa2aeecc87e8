//! A walk from the end of a reference run back: what has to be known before each step makes decisions that each closed set
//! above the present ones has.
// How goals are searched for: see docs/CONTRIBUTING.md.
#![tactic(auto)]

pub mod extents;
pub mod holders;
pub mod marks;
mod walk;
mod words;

pub use pg_slice_back;
pub use pg_slice_back::{pg_slice_passes, pg_slice_replay};
pub use walk::{Walk, widen};
