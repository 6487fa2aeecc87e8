//! Back over one live step of a run: what has to be known behind it makes what has to be known before it.
// How goals are searched for: see docs/CONTRIBUTING.md.
#![tactic(auto)]

mod access;
mod arguments;
mod bytes;
mod call;
mod counts;
mod event;
mod live;
mod moves;
mod operations;
mod own;
mod paths;
mod phis;
mod region;
mod registers;
mod step;

pub use arguments::put_argument;
pub use call::call_of;
pub use event::is_exit;
pub use live::back_live;
pub use moves::put_optional;
pub use pg_slice_passes;
pub use pg_slice_passes::{pg_slice_decisions, pg_slice_registers, pg_slice_replay};
pub use region::sets_any;
pub use registers::{Counts, register_counts};
pub use step::StepAt;
