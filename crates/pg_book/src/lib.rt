//! A book: what is kept of a session's entries, as JSON.
//!
//! Every entry of a book is derived anew by whoever loads it, so nothing of the file is trusted.
// How goals are searched for: see docs/CONTRIBUTING.md.
#![tactic(auto)]

mod book;
pub mod laws;
mod ranges;
mod read;
mod values;
mod write;

pub use book::{Book, BookEntry};
pub use read::{BookFault, read_book};
pub use write::write_book;
