//! The entries of a book, with which a session begins, or the line that refuses the book; and the book of what a session keeps.
//! The runners of sessions are handed on.
// How goals are searched for: see docs/CONTRIBUTING.md.
#![tactic(auto)]

mod book;
pub mod laws;
mod opening;
mod refusals;
mod saving;

pub use book::{LoadRefusal, load};
pub use opening::{OpenedBook, open_book, refused_book};
pub use pg_book;
pub use pg_session_runner::{
    Entry, FreeRunner, ProgramRunner, TestedRunner, conditions_freely, conditions_in_rotation,
    pg_free, pg_go, pg_law_order, pg_run, pg_run_trace, pg_session, show_freely, show_in_rotation,
};
pub use refusals::BookRefusal;
pub use saving::{book_of, saved_book};
