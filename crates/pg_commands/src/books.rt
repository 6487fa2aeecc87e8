//! The book of a session, by its name.
ghost use Rattle.std.specs.Prelude.{◌≡◌, ◌<◌, ◌⊎◌, ℕ, List, length, IfOk, IsErrOf};
ghost use Rattle.pg_io.specs.Faults.{Rose};
ghost use Rattle.pg_session_book.specs.OpenedBooks.{IsOpenedBook};
ghost use Rattle.pg_commands.specs.Commands.{Fetched};

use crate::programs::{NoProgram, unfetched};
use pg_io::Shelf;
use pg_ir::Program;
use pg_num::limits::BOOK_LIMIT;
use pg_session_book::{BookRefusal, OpenedBook, open_book, refused_book};
use std::alloc::Global;

/// What the book of this name gives a session of the program.
pub(crate) fn fetch_book<F: Shelf>(
    alloc: Global,
    shelf: &mut F,
    program: &Program,
    name: &str,
) -> Result<OpenedBook, NoProgram>
    ensures opened { IfOk result (λ o. Fetched (F.text shelf.old) name.now (λ bytes. IsOpenedBook program.now bytes o)) }
    ensures cause { IsErrOf result NoProgram.ShelfFault → Rose (F.faults shelf.old name.now) (F.faults shelf.new name.now) }
    ensures counts { (other : List ℕ) → IsErrOf result NoProgram.ShelfFault ⊎ (F.faults shelf.new other ≡ F.faults shelf.old other) }
    ensures texts_stay { (other : List ℕ) → F.text shelf.new other ≡ F.text shelf.old other }
{
    match shelf.fetch(alloc, name, BOOK_LIMIT) {
        Ok(bytes) => Ok(open_book(alloc, program, &bytes)?),
        Err(fault) => match unfetched(fault) {
            Some(cause) => Err(cause),
            None => Ok(refused_book(alloc, BookRefusal::TooLong)?),
        },
    }
}
