//! Sessions: each line of input is answered, by the schedule of an entry that is kept or by a recording that is kept
//! then. What is recorded and how a run along a schedule is made is left to a `Runner`.
// How goals are searched for: see docs/CONTRIBUTING.md.
#![tactic(auto)]

mod answers;
mod fault;
mod keeping;
mod lines;
mod runner;
mod serving;
mod session;
mod trials;

pub use fault::ServeFault;
pub use keeping::kept_by;
pub use pg_session_texts;
pub use runner::{Recording, Run, Runner};
pub use serving::serve;
pub use session::begin;
pub use trials::{trial, turns_of};
