//! Where bytes come from.
ghost use Rattle.std.specs.Prelude.{◌≡◌, ℕ, ◌<◌, ◌≤◌, List, length, take, Option, IfOk, OnErr, OnOk, is_some};
ghost use Rattle.std.specs.Io.KnownBytes.{Consumes, IsAtEnd, Keeps};
ghost use Rattle.pg_io.specs.Faults.{Rose};

use crate::fault::Failed;

/// Bytes that come one piece after another.
pub trait Source {
    // The bytes that it still has, where it tells them.
    ghost rest: { Self → Option (List ℕ) };

    // How many calls failed, at most the greatest `u64`.
    ghost faults: { Self → ℕ };

    // A read gave no byte. From then on each read gives none.
    ghost has_ended: { Self → Type 0 };

    /// Puts the next bytes into the front of `buf`, takes them from the source, and gives their number.
    ///
    /// Where the source tells its bytes, 0 comes exactly at their end. A call that fails takes none, and is no end.
    /// The count of faults rises at a call that fails and at no other.
    fn read(&mut self, buf: &mut [u8]) -> Result<usize, Failed>
        requires { 0 < length buf.old }
        ensures bound { IfOk result (λ n. n ≤ length buf.new) }
        ensures takes { IfOk result (λ n. Consumes (rest self.old) (rest self.new) (take n buf.new)) }
        ensures keeps { OnErr result (Keeps (rest self.old) (rest self.new)) }
        ensures tells { is_some (rest self.new) ≡ is_some (rest self.old) }
        ensures at_end { result ≡ Ok 0 → IsAtEnd (rest self.old) }
        ensures ends { result ≡ Ok 0 → has_ended self.new }
        ensures gives_none { has_ended self.old → result ≡ Ok 0 }
        ensures no_end { OnErr result (has_ended self.new → has_ended self.old) }
        ensures count_stays { OnOk result (faults self.new ≡ faults self.old) }
        ensures count_never_falls { faults self.old ≤ faults self.new }
        ensures cause { OnErr result (Rose (faults self.old) (faults self.new)) };
}
