//! From bytes to a book.

ghost use Rattle.std.specs.Prelude.{◌≡◌, ◌≤◌, ◌++◌, ◌∷◌, [], length, map, IfErr, IfOk, OnOk, Some};
ghost use Rattle.serde_json.specs.Errors.{IsMemory};
ghost use Rattle.serde_json.specs.View.{items_view, view};
ghost use Rattle.pg_num.specs.declared.limits.TheConstants.{CACHE_LIMIT};
ghost use Rattle.pg_book.specs.declared.read.BookFault.TheVariants.{NotJson, OutOfMemory};
ghost use Rattle.pg_book.specs.Books.{IsBook, IsFault, IsJson, IsFaultOfItems};
ghost use Rattle.pg_book.specs.Parts.{parts_in, parts_of};
ghost use Rattle.pg_book.specs.Values.{all_as, as_entry, entries_in};

use crate::book::{Book, BookEntry};
use crate::values::{count_of, entries_in, entry_of};
use pg_num::limits::CACHE_LIMIT;
use serde_json::{Error, Value};
use std::alloc::{AllocError, Global};
use thiserror::Error;

/// Why bytes are no book: the first of these that holds; or want of memory.
#[derive(Clone, Copy, Debug, PartialEq, Eq, Drop, Error)]
pub enum BookFault {
    /// The bytes are no JSON.
    #[error("the book is not JSON")]
    NotJson,
    /// The value isn't an object with just the keys `entries`, with a list, and `peregrine`, with the number 1.
    #[error("the book is not an object with a list of entries and its version")]
    Outer,
    /// The list has more entries than `CACHE_LIMIT`.
    #[error("the book has too many entries")]
    TooMany,
    /// The item of this number is the first that is no entry.
    #[error("what stands as entry {0} of the book is none")]
    Shape(u32),
    #[error("out of memory")]
    OutOfMemory,
}

impl From<AllocError> for BookFault {
    ghost from_gives = { λ _ e. e ≡ OutOfMemory };

    fn from(_error: AllocError) -> BookFault {
        BookFault::OutOfMemory
    }
}

fn fault_of(error: serde_json::Error) -> BookFault
    ensures memory { IsMemory error → result ≡ OutOfMemory }
    ensures other { ¬ IsMemory error → result ≡ NotJson }
{
    if error.is_memory() {
        BookFault::OutOfMemory
    } else {
        BookFault::NotJson
    }
}

/// The value that bytes are JSON of.
fn value_of(alloc: Global, bytes: &[u8]) -> Result<Value, BookFault>
    ensures value { IfOk result (λ v. IsJson bytes.now (view v)) }
    ensures fault { IfErr result (λ e. IsFault e bytes.now) }
{
    match Value::from_slice(alloc, bytes) {
        Ok(value) => Ok(value),
        Err(error) => Err(fault_of(error)),
    }
}

fn add(entries: &mut Vec<BookEntry>, entry: BookEntry) -> Result<(), AllocError>
    ensures { OnOk result (map parts_of entries.new.items ≡ map parts_of entries.old.items ++ parts_of entry ∷ []) }
{
    entries.push(entry)?;
    Ok(())
}

/// The entries that items are, or the number of the first that is none.
fn entries_of(alloc: Global, items: &[Value]) -> Result<Vec<BookEntry>, BookFault>
    requires few { length items.now ≤ CACHE_LIMIT }
    ensures entries { IfOk result (λ v. all_as as_entry (items_view items.now) ≡ Some (map parts_of v.items)) }
    ensures fault { IfErr result (λ e. IsFaultOfItems e (items_view items.now)) }
{
    let mut entries = Vec::with_capacity(alloc, items.len())?;
    for place in 0..items.len() {
        match entry_of(alloc, &items[place])? {
            Some(entry) => add(&mut entries, entry)?,
            None => return Err(BookFault::Shape(place as u32)),
        }
    }
    Ok(entries)
}

/// The entries of the book that the bytes are, if they are JSON of a value with these items as entries.
fn entries_with(
    alloc: Global,
    bytes: &[u8],
    value: &Value,
    items: &[Value],
) -> Result<Vec<BookEntry>, BookFault>
    requires json { IsJson bytes.now (view value.now) }
    requires outer { entries_in (view value.now) ≡ Some (items_view items.now) }
    ensures book { IfOk result (λ v. IsBook bytes.now (map parts_of v.items)) }
    ensures fault { IfErr result (λ e. IsFault e bytes.now) }
{
    if count_of(items) > CACHE_LIMIT {
        return Err(BookFault::TooMany);
    }
    match entries_of(alloc, items) {
        Ok(entries) => Ok(entries),
        Err(fault) => Err(fault),
    }
}

/// The entries of the book that the bytes are, if they are JSON of this value.
fn entries_by(alloc: Global, bytes: &[u8], value: &Value) -> Result<Vec<BookEntry>, BookFault>
    requires json { IsJson bytes.now (view value.now) }
    ensures book { IfOk result (λ v. IsBook bytes.now (map parts_of v.items)) }
    ensures fault { IfErr result (λ e. IsFault e bytes.now) }
{
    match entries_in(value) {
        Some(items) => entries_with(alloc, bytes, value, items),
        None => Err(BookFault::Outer),
    }
}

/// The book that bytes are. Blanks, the order of keys and how numbers and strings are spelled don't matter, and of equal keys of
/// an object the last counts.
///
/// # Errors
///
/// The first of `NotJson`, `Outer`, `TooMany` and `Shape` that holds; `OutOfMemory` where no memory is left.
pub fn read_book(alloc: Global, bytes: &[u8]) -> Result<Book, BookFault>
    ensures book { IfOk result (λ b. IsBook bytes.now (parts_in b)) }
    ensures fault { IfErr result (λ e. IsFault e bytes.now) }
{
    let value = value_of(alloc, bytes)?;
    let entries = entries_by(alloc, bytes, &value)?;
    Ok(Book { entries })
}
