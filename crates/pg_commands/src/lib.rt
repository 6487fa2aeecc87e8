//! The commands of the program: their words, their input and their text.
// How goals are searched for: see docs/CONTRIBUTING.md.
#![tactic(auto)]

mod books;
mod conditions;
pub mod laws;
mod once;
mod programs;
mod refusals;
mod replies;
mod runs;
mod saving;
mod serve;
mod session;
mod show;
mod status;
mod texts;
mod trial;
mod turns;
mod verdicts;

pub use pg_io::{ReadAllFault, read_all, write_all};
pub use pg_session_book::{pg_free, pg_go};
pub use refusals::TextRefusal;
pub use session::peregrine;
pub use status::Status;
