//! Why a book is refused for a program, and the line that says so.
ghost use Rattle.std.specs.Prelude.{◌≡◌, IfOk, string_bytes};
ghost use Rattle.pg_session_book.specs.Refusals.{book_refusal_line, entry_text, fault_text, refusal_text};

use pg_book::BookFault;
use pg_session_runner::{FromFault, LoadFault};
use std::alloc::{AllocError, Global};

/// Why a book is refused for a program.
#[derive(Clone, Copy, Debug, PartialEq, Eq)]
pub enum BookRefusal {
    /// It has more bytes than the limit.
    TooLong,
    /// Its bytes are JSON of no book, for this reason.
    Read(BookFault),
    /// Its entries before the one of this number, from 0 on, are entries of the program, and this one isn't, for this reason.
    Entry(usize, LoadFault),
}

// What is told of an entry that can't be loaded.
fn entry_text(alloc: Global, number: usize, fault: LoadFault) -> Result<String, AllocError>
    ensures { IfOk result (λ line. string_bytes line ≡ entry_text number fault) }
{
    match fault {
        LoadFault::Gate => format!(in alloc; "Gate {number}"),
        LoadFault::Turns(FromFault::Strayed(turn)) => {
            format!(in alloc; "Strayed {number} at {turn}")
        }
        LoadFault::Turns(FromFault::Unfinished) => format!(in alloc; "Unfinished {number}"),
        LoadFault::Turns(FromFault::Unordered(first, second)) => {
            format!(in alloc; "Unordered {number} steps {first} {second}")
        }
        LoadFault::Turns(FromFault::OutOfMemory) => format!(in alloc; "OutOfMemory"),
    }
}

// What is told of bytes that are no book.
fn fault_text(alloc: Global, fault: BookFault) -> Result<String, AllocError>
    ensures { IfOk result (λ line. string_bytes line ≡ fault_text fault) }
{
    match fault {
        BookFault::NotJson => format!(in alloc; "NotJson"),
        BookFault::Outer => format!(in alloc; "Outer"),
        BookFault::TooMany => format!(in alloc; "TooMany"),
        BookFault::Shape(number) => format!(in alloc; "Shape {number}"),
        BookFault::OutOfMemory => format!(in alloc; "OutOfMemory"),
    }
}

// What is told of a refusal.
fn refusal_text(alloc: Global, refusal: BookRefusal) -> Result<String, AllocError>
    ensures { IfOk result (λ line. string_bytes line ≡ refusal_text refusal) }
{
    match refusal {
        BookRefusal::TooLong => format!(in alloc; "TooLong"),
        BookRefusal::Read(fault) => fault_text(alloc, fault),
        BookRefusal::Entry(number, fault) => entry_text(alloc, number, fault),
    }
}

/// The line that refuses a book.
pub(crate) fn book_refusal_line(alloc: Global, refusal: BookRefusal) -> Result<Vec<u8>, AllocError>
    ensures { IfOk result (λ line. line.items ≡ book_refusal_line refusal) }
{
    let text = refusal_text(alloc, refusal)?;
    let line = format!(in alloc; "book refused {text}\n")?;
    Ok(line.into_bytes())
}
