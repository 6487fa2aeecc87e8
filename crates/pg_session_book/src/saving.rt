//! The book of what a session keeps.
ghost use Rattle.std.specs.Prelude.{◌≡◌, map, IfOk};
ghost use Rattle.pg_book.specs.Parts.{parts_in, parts_of};
ghost use Rattle.pg_session_book.specs.SavedBooks.{IsSaved, kept_parts};
ghost use Rattle.pg_session_runner.specs.Limits.{AreWithinLimits};

use pg_book::{Book, BookEntry, write_book};
use pg_session_runner::Entry;
use pg_session_runner::pg_cache::Cache;
use std::alloc::{AllocError, Global};

fn copied<T: Copy>(alloc: Global, items: &[T]) -> Result<Vec<T>, AllocError>
    ensures { IfOk result (λ copy. copy.items ≡ items.now) }
{
    let mut copy = Vec::new(alloc);
    copy.extend_from_slice(items)?;
    Ok(copy)
}

// What a book keeps of an entry.
fn saved(alloc: Global, entry: &Entry) -> Result<BookEntry, AllocError>
    ensures { IfOk result (λ b. parts_of b ≡ kept_parts entry.now) }
{
    let input = copied(alloc, entry.input())?;
    let turns = copied(alloc, entry.schedule().turns.as_slice())?;
    let gated = copied(alloc, entry.schedule().gated.as_slice())?;
    Ok(BookEntry {
        input,
        turns,
        gated,
    })
}

/// The book of the entries that a session keeps, in the order of their numbers.
///
/// # Errors
///
/// Where no memory is left.
pub fn book_of(alloc: Global, kept: &Cache<Entry>) -> Result<Book, AllocError>
    ensures { IfOk result (λ b. parts_in b ≡ map kept_parts kept.now.values) }
{
    let mut entries = Vec::new(alloc);
    let held = kept.values();
    // The label is for the proof: see docs/CONTRIBUTING.md.
    'held: for place in 0..held.len() {
        let entry = saved(alloc, &held[place])?;
        entries.push(entry)?;
    }
    Ok(Book { entries })
}

/// The text of the book of the entries that a session keeps.
///
/// # Errors
///
/// Where no memory is left.
pub fn saved_book(alloc: Global, kept: &Cache<Entry>) -> Result<Vec<u8>, AllocError>
    requires { AreWithinLimits kept.now.values }
    ensures { IfOk result (λ text. IsSaved kept.now.values text.items) }
{
    let book = book_of(alloc, kept)?;
    // In two lines for the proof: see docs/CONTRIBUTING.md.
    let text = write_book(alloc, &book)?;
    Ok(text)
}
