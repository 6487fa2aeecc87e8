//! Where bytes go.
ghost use Rattle.std.specs.Prelude.{◌≡◌, ℕ, ◌<◌, ◌≤◌, List, length, take, Option, IfOk, OnErr, OnOk, is_some};
ghost use Rattle.std.specs.Io.KnownBytes.{Appends, Keeps};
ghost use Rattle.pg_io.specs.Faults.{Rose};

use crate::fault::Failed;

/// A place that takes bytes one piece after another.
pub trait Sink {
    // The bytes that it has taken, where it tells them.
    ghost taken: { Self → Option (List ℕ) };

    // How many calls failed, at most the greatest `u64`.
    ghost faults: { Self → ℕ };

    /// Takes bytes from the front of `piece`, at least one, and gives their number. A call that
    /// fails takes none. The count of faults rises at a call that fails and at no other.
    fn write(&mut self, piece: &[u8]) -> Result<usize, Failed>
        requires { 0 < length piece.now }
        ensures some { IfOk result (λ n. 0 < n) }
        ensures bound { IfOk result (λ n. n ≤ length piece.now) }
        ensures takes { IfOk result (λ n. Appends (taken self.old) (taken self.new) (take n piece.now)) }
        ensures keeps { OnErr result (Keeps (taken self.old) (taken self.new)) }
        ensures tells { is_some (taken self.new) ≡ is_some (taken self.old) }
        ensures count_stays { OnOk result (faults self.new ≡ faults self.old) }
        ensures count_never_falls { faults self.old ≤ faults self.new }
        ensures cause { OnErr result (Rose (faults self.old) (faults self.new)) };
}
