//! Loading: each entry of a book is derived anew from its input and turns.
ghost use Rattle.std.specs.Prelude.{◌≡◌, ◌≤◌, List, length, IfErr, IfOk};
ghost use Rattle.pg_session_runner.specs.pg_ir.Program.{NumberedProgram};
ghost use Rattle.pg_book.specs.Parts.{BookEntryParts, parts_in, parts_of};
ghost use Rattle.pg_session_runner.specs.pg_session.Sessions.{opened};
ghost use Rattle.pg_session_book.specs.LoadedBooks.{AreLoaded, IsFirstRefused, IsLoaded, IsLoadRefusal, IsWhyNot};
ghost use Rattle.pg_session_runner.specs.pg_num.declared.limits.TheConstants.{CACHE_LIMIT};
ghost use Rattle.pg_session_book.specs.declared.book.LoadRefusal.TheVariants.{OutOfMemory};

use pg_book::{Book, BookEntry};
use pg_session_runner::pg_cache::Cache;
use pg_session_runner::pg_ir::Program;
use pg_session_runner::pg_num::limits::CACHE_LIMIT;
use pg_session_runner::{Entry, FromFault, LoadFault, load_turns};
use std::alloc::{AllocError, Global};

/// Why what a book keeps are no entries of a program.
#[derive(Clone, Copy, Debug, PartialEq, Eq)]
pub enum LoadRefusal {
    /// The entry of this number, from 0 on, is none, for this reason; those before it are.
    Entry(usize, LoadFault),
    /// No memory was left.
    OutOfMemory,
}

impl From<AllocError> for LoadRefusal {
    ghost from_gives = { λ _ e. e ≡ OutOfMemory };

    fn from(_e: AllocError) -> LoadRefusal {
        LoadRefusal::OutOfMemory
    }
}

/// The entry of what a book keeps of one.
fn loaded(alloc: Global, p: &Program, kept: &BookEntry) -> Result<Entry, LoadFault>
    ensures entry { IfOk result (IsLoaded p.now (parts_of kept.now)) }
    ensures fault { IfErr result (IsWhyNot p.now (parts_of kept.now)) }
{
    load_turns(
        alloc,
        p,
        kept.input.as_slice(),
        kept.turns.as_slice(),
        kept.gated.as_slice(),
    )
}

/// The refusal of a book by the fault of its entry of this number.
fn refusal_of(number: usize, fault: LoadFault) -> LoadRefusal
    ensures { (p : NumberedProgram) (bs : List BookEntryParts) → IsFirstRefused p bs number fault → IsLoadRefusal p bs result }
{
    match fault {
        LoadFault::Gate => LoadRefusal::Entry(number, fault),
        LoadFault::Turns(why) => match why {
            FromFault::OutOfMemory => LoadRefusal::OutOfMemory,
            _ => LoadRefusal::Entry(number, fault),
        },
    }
}

/// Loads a book: what a session keeps at first that begins with its entries.
///
/// # Errors
///
/// `Entry` with the number of the first entry that is none of the program, and why; `OutOfMemory` where no memory is left.
pub fn load(alloc: Global, p: &Program, book: &Book) -> Result<Cache<Entry>, LoadRefusal>
    requires few { length book.now.entries.items ≤ CACHE_LIMIT }
    ensures opened { IfOk result (λ c. c ≡ opened c.values) }
    ensures loaded { IfOk result (λ c. AreLoaded p.now (parts_in book.now) c.values) }
    ensures refusal { IfErr result (IsLoadRefusal p.now (parts_in book.now)) }
{
    let mut cache = Cache::new(alloc, CACHE_LIMIT)?;
    let entries = book.entries.as_slice();
    // The label is for the proof: see docs/CONTRIBUTING.md.
    'entries: for place in 0..entries.len() {
        let made = loaded(alloc, p, &entries[place]);
        match made {
            Ok(entry) => {
                let _number = cache.insert(entry);
            }
            Err(fault) => return Err(refusal_of(place, fault)),
        }
    }
    Ok(cache)
}
