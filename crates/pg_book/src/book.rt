//! What a book has.

use pg_ir::InstrId;
use pg_run_trace::Turn;

/// What is kept of an entry.
#[derive(Drop, Debug)]
pub struct BookEntry {
    /// The input that was recorded.
    pub input: Vec<i64>,
    /// The turns of its schedule.
    pub turns: Vec<Turn>,
    /// The loads and stores that are turns, ascending.
    pub gated: Vec<InstrId>,
}

/// The entries of a session, in the order of their numbers.
#[derive(Drop, Debug)]
pub struct Book {
    pub entries: Vec<BookEntry>,
}
