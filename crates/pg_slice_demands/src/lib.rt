//! What has to be known at a moment of a run: registers of the calls of threads, whole or by their bounds alone, and bytes.
// How goals are searched for: see docs/CONTRIBUTING.md.
#![tactic(auto)]

mod call;
mod cells;
mod demanded;
mod places;

pub use call::Call;
pub use demanded::Demanded;
