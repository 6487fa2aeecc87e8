//! Each program has the summaries of functions and the regions of branches of which laws on reference runs speak, and what the
//! slice of a run asks of it holds of each run that exits along a schedule, and of its replay. Nothing runs.
// How goals are searched for: see docs/CONTRIBUTING.md.
#![tactic(auto)]

pub mod laws;

pub use pg_law_instances::pg_slice_replay;
pub use pg_slice_passes::{GivenRun, Slice, fits};
