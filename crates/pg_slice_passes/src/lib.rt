//! The slice of a reference run: passes over the run under a set of decisions, each of which gives the decisions that are
//! missing and what an input must give, until none is missing.
// How goals are searched for: see docs/CONTRIBUTING.md.
#![tactic(auto)]

mod byte_bounds;
pub mod fits;
mod footprints;
mod given;
pub mod laws;
mod live;
mod memory;
mod needs;
mod pass;
mod rows;
mod slice;
mod state;
mod step;
mod threads;

pub use byte_bounds::{ByteBounds, bounds};
pub use given::GivenRun;
pub use needs::is_malloc;
pub use pass::{Passed, pass_over};
pub use pg_slice_checks;
pub use pg_slice_decisions;
pub use pg_slice_registers;
pub use pg_slice_replay;
pub use slice::{Slice, slice_by_passes, sliced, take_new};
pub use state::SymbolicRun;
