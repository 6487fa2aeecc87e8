//! Quiet functions: those whose calls do nothing that another thread can see but access memory, and what a call of one
//! accesses, by the arguments of the call.
// How goals are searched for: see docs/CONTRIBUTING.md.
#![tactic(auto)]

mod blocks;
mod callees;
mod count;
mod creates;
pub mod laws;
pub mod limits;
mod reaches;
mod seen;
mod span;
mod summary;

pub use summary::summaries;
