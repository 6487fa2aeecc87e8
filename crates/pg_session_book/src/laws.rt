//! What holds of the books of sessions: each law is the clause of a function that does nothing.
ghost use Rattle.std.specs.Prelude.{◌≡◌, ℕ, List, map};
ghost use Rattle.pg_session_runner.specs.pg_ir.Program.{NumberedProgram};
ghost use Rattle.pg_session_runner.specs.pg_cache.Kept.{Kept};
ghost use Rattle.pg_book.specs.Books.{IsBook};
ghost use Rattle.pg_session_runner.specs.pg_session.Sessions.{begin};
ghost use Rattle.pg_session_runner.specs.pg_session.Texts.{KeepsAll};
ghost use Rattle.pg_session_runner.specs.Entries.{EntryParts};
ghost use Rattle.pg_session_runner.specs.Limits.{AreWithinLimits};
ghost use Rattle.pg_session_runner.specs.Runs.{Way, entry_admits, runs_by};
ghost use Rattle.pg_session_book.specs.OpenedBooks.{BeginsWith};
ghost use Rattle.pg_session_book.specs.Refusals.{IsBookRefusedFor};
ghost use Rattle.pg_session_book.specs.declared.refusals.BookRefusal.{BookRefusal};
ghost use Rattle.pg_session_book.specs.SavedBooks.{kept_parts};

use pg_book::laws::{bytes_are_one_book_or_have_one_fault, what_is_read_is_within_limits};
use pg_session_runner::laws::what_a_session_keeps_is_within_limits;

/// What a session keeps at its end can be saved: a session that begins with no entries, and one that begins with those of a book.
pub fn what_a_session_keeps_can_be_saved()
    ensures recorded { (p : NumberedProgram) (way : Way) (kept : Kept EntryParts) (input : List ℕ) → KeepsAll entry_admits (runs_by p way) begin kept input
        → AreWithinLimits kept.values }
    ensures loaded { (p : NumberedProgram) (way : Way) (bytes : List ℕ) (first kept : Kept EntryParts) (input : List ℕ) → BeginsWith p bytes first
        → KeepsAll entry_admits (runs_by p way) first kept input → AreWithinLimits kept.values }
{
    what_a_session_keeps_is_within_limits();
    what_is_read_is_within_limits();
}

/// What a session begins with is what the book has: saved again it is the same book.
pub fn a_loaded_book_is_saved_as_it_was()
    ensures { (p : NumberedProgram) (bytes : List ℕ) (first : Kept EntryParts) → BeginsWith p bytes first → IsBook bytes (map kept_parts first.values) }
{}

/// A session begins with the entries of a book, or the book is refused, and not both; and there is one reason at most why.
pub fn a_book_is_opened_or_refused_for_one_reason()
    ensures not_both { (p : NumberedProgram) (bytes : List ℕ) (first : Kept EntryParts) (refusal : BookRefusal) → BeginsWith p bytes first
        → IsBookRefusedFor p bytes refusal → ⊥ }
    ensures one { (p : NumberedProgram) (bytes : List ℕ) (refusal other : BookRefusal) → IsBookRefusedFor p bytes refusal → IsBookRefusedFor p bytes other
        → refusal ≡ other }
{
    bytes_are_one_book_or_have_one_fault();
}
