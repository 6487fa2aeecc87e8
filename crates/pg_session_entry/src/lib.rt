//! Entries: what is kept of a recorded run, so that its schedule serves other inputs.
// How goals are searched for: see docs/CONTRIBUTING.md.
#![tactic(auto)]

mod entry;
mod ids;
pub mod laws;
mod recorded;
mod recording;
mod reference;
mod replies;
mod turns;

pub use entry::Entry;
pub use recorded::Record;
pub use recording::{from_recorded, record};
pub use turns::{FromFault, follow_to_exit, from_turns};
