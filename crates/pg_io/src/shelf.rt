//! Where texts are kept by name.
ghost use Rattle.std.specs.Prelude.{◌≡◌, ℕ, ◌<◌, ◌≤◌, ◌⊎◌, List, length, Option, IfOk, IfSome, IsErrOf};
ghost use Rattle.pg_io.specs.Faults.{Rose};
ghost use Rattle.pg_io.specs.declared.shelf.FetchFault.TheVariants.{OutOfMemory};

use std::alloc::{AllocError, Global};

/// Why a fetch gave no text.
#[derive(Clone, Copy, Debug, PartialEq, Eq)]
pub enum FetchFault {
    /// There is no such text, or it can't be read.
    Failed,
    /// The text is longer than the limit.
    TooLong,
    /// There was no memory.
    OutOfMemory,
}

impl From<AllocError> for FetchFault {
    ghost from_gives = { λ _ e. e ≡ OutOfMemory };

    fn from(_e: AllocError) -> FetchFault {
        FetchFault::OutOfMemory
    }
}

/// Texts, each under its name.
pub trait Shelf {
    // The text of each name, where it tells that.
    ghost text: { Self → List ℕ → Option (List ℕ) };

    // How many fetches of each name failed, at most the greatest `u64`.
    ghost faults: { Self → List ℕ → ℕ };

    /// The text of this name, if it has at most `limit` bytes. The name's count of faults rises at a fetch that is
    /// answered by `Failed` and at no other. Texts stay, and so do the counts of other names.
    fn fetch(&mut self, alloc: Global, name: &str, limit: usize) -> Result<Vec<u8>, FetchFault>
        ensures whole { IfOk result (λ v. IfSome (text self.old name.now) (λ t. v.items ≡ t)) }
        ensures within { IfOk result (λ v. length v.items ≤ limit) }
        ensures too_long { IsErrOf result FetchFault.TooLong → IfSome (text self.old name.now) (λ t. limit < length t) }
        ensures texts_stay { (m : List ℕ) → text self.new m ≡ text self.old m }
        ensures others_stay { (m : List ℕ) → (m ≡ name.now → ⊥) → faults self.new m ≡ faults self.old m }
        ensures count_stays { IsErrOf result FetchFault.Failed ⊎ (faults self.new name.now ≡ faults self.old name.now) }
        ensures count_never_falls { faults self.old name.now ≤ faults self.new name.now }
        ensures cause { IsErrOf result FetchFault.Failed → Rose (faults self.old name.now) (faults self.new name.now) };
}
