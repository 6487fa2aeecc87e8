//! What holds of the texts of books: each law is the clause of a function that does nothing.

ghost use Rattle.std.specs.Prelude.{◌≡◌, ◌≢◌, ◌⊎◌, ℕ, List};
ghost use Rattle.pg_book.specs.declared.read.BookFault.{BookFault};
ghost use Rattle.pg_book.specs.declared.read.BookFault.TheVariants.{OutOfMemory};
ghost use Rattle.pg_book.specs.Books.{AreLimited, AreWithin, IsBook, IsFault};
ghost use Rattle.pg_book.specs.Parts.{BookEntryParts};
ghost use Rattle.pg_book.specs.Texts.{book_text};

use pg_run_trace::laws::a_kind_has_a_name_of_its_own;

/// The text of a book is read as the same book.
pub fn a_written_book_is_read_again()
    ensures { (es : List BookEntryParts) → AreWithin es → IsBook (book_text es) es }
{
    a_kind_has_a_name_of_its_own();
}

/// Bytes are a book or have a fault, and not both. They are one book at most, and have one fault at most. Want of memory is no
/// fault of bytes.
pub fn bytes_are_one_book_or_have_one_fault()
    ensures one { (bytes : List ℕ) → ((es : List BookEntryParts) × IsBook bytes es) ⊎ ((e : BookFault) × (e ≢ OutOfMemory) × IsFault e bytes) }
    ensures not_both { (bytes : List ℕ) (es : List BookEntryParts) (e : BookFault) → e ≢ OutOfMemory → IsBook bytes es → IsFault e bytes → ⊥ }
    ensures book { (bytes : List ℕ) (es fs : List BookEntryParts) → IsBook bytes es → IsBook bytes fs → es ≡ fs }
    ensures fault { (bytes : List ℕ) (e f : BookFault) → e ≢ OutOfMemory → f ≢ OutOfMemory → IsFault e bytes → IsFault f bytes → e ≡ f }
{}

/// What is read as a book has few entries, each with few numbers and few turns of threads that a program may have, and with loads
/// and stores that ascend.
pub fn what_is_read_is_within_limits()
    ensures { (bytes : List ℕ) (es : List BookEntryParts) → IsBook bytes es → AreLimited es }
{}
