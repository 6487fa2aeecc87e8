//! What the bytes of a book give a session of a program: its first entries, or the line that refuses the book.
ghost use Rattle.std.specs.Prelude.{◌≡◌, ◌≤◌, ℕ, List, length, IfOk};
ghost use Rattle.pg_session_runner.specs.pg_ir.Program.{NumberedProgram};
ghost use Rattle.pg_session_runner.specs.pg_num.declared.limits.TheConstants.{BOOK_LIMIT};
ghost use Rattle.pg_book.specs.Books.{IsBook, IsFault};
ghost use Rattle.pg_book.specs.Parts.{parts_in};
ghost use Rattle.pg_session_book.specs.LoadedBooks.{IsLoadRefusal};
ghost use Rattle.pg_session_book.specs.OpenedBooks.{IsOpenedBook};
ghost use Rattle.pg_session_book.specs.Refusals.{IsBookRefusedFor};

use crate::book::{LoadRefusal, load};
use crate::refusals::{BookRefusal, book_refusal_line};
use pg_book::laws::what_is_read_is_within_limits;
use pg_book::{Book, BookFault, read_book};
use pg_session_runner::Entry;
use pg_session_runner::pg_cache::Cache;
use pg_session_runner::pg_ir::Program;
use std::alloc::{AllocError, Global};

/// What a book gives.
#[derive(Drop)]
pub enum OpenedBook {
    /// The entries with which a session begins.
    Entries(Cache<Entry>),
    /// The line that refuses it.
    Refused(Vec<u8>),
}

/// A refusal of a book, as its line.
///
/// # Errors
///
/// Where no memory is left.
pub fn refused_book(alloc: Global, refusal: BookRefusal) -> Result<OpenedBook, AllocError>
    ensures { IfOk result (λ o. (p : NumberedProgram) (bytes : List ℕ) → IsBookRefusedFor p bytes refusal → IsOpenedBook p bytes o) }
{
    let line = book_refusal_line(alloc, refusal)?;
    Ok(OpenedBook::Refused(line))
}

/// What bytes that are no book give, by their fault.
fn unread(
    alloc: Global,
    program: &Program,
    bytes: &[u8],
    fault: BookFault,
) -> Result<OpenedBook, AllocError>
    requires within { length bytes.now ≤ BOOK_LIMIT }
    requires fault { IsFault fault bytes.now }
    ensures { IfOk result (IsOpenedBook program.now bytes.now) }
{
    match fault {
        BookFault::OutOfMemory => Err(AllocError),
        _ => {
            // In two lines for the proof: see docs/CONTRIBUTING.md.
            let opened = refused_book(alloc, BookRefusal::Read(fault))?;
            Ok(opened)
        }
    }
}

/// What the bytes of a book give that can't be loaded.
fn unloaded(
    alloc: Global,
    program: &Program,
    bytes: &[u8],
    book: &Book,
    refusal: LoadRefusal,
) -> Result<OpenedBook, AllocError>
    requires within { length bytes.now ≤ BOOK_LIMIT }
    requires book { IsBook bytes.now (parts_in book.now) }
    requires refusal { IsLoadRefusal program.now (parts_in book.now) refusal }
    ensures { IfOk result (IsOpenedBook program.now bytes.now) }
{
    match refusal {
        LoadRefusal::OutOfMemory => Err(AllocError),
        LoadRefusal::Entry(number, fault) => {
            // In two lines for the proof: see docs/CONTRIBUTING.md.
            let opened = refused_book(alloc, BookRefusal::Entry(number, fault))?;
            Ok(opened)
        }
    }
}

/// What the bytes of a book give.
fn opened(
    alloc: Global,
    program: &Program,
    bytes: &[u8],
    book: &Book,
) -> Result<OpenedBook, AllocError>
    requires within { length bytes.now ≤ BOOK_LIMIT }
    requires book { IsBook bytes.now (parts_in book.now) }
    ensures { IfOk result (IsOpenedBook program.now bytes.now) }
{
    what_is_read_is_within_limits();
    match load(alloc, program, book) {
        Ok(entries) => Ok(OpenedBook::Entries(entries)),
        Err(refusal) => unloaded(alloc, program, bytes, book, refusal),
    }
}

/// What a book's bytes, which aren't too many, give a session of the program.
///
/// # Errors
///
/// Where no memory is left.
pub fn open_book(alloc: Global, program: &Program, bytes: &[u8]) -> Result<OpenedBook, AllocError>
    requires { length bytes.now ≤ BOOK_LIMIT }
    ensures { IfOk result (IsOpenedBook program.now bytes.now) }
{
    match read_book(alloc, bytes) {
        Ok(book) => opened(alloc, program, bytes, &book),
        Err(fault) => unread(alloc, program, bytes, fault),
    }
}
