//! Two tests as one value.

ghost use Rattle.std.specs.Prelude.{◌≡◌, ◌||◌};

/// Whether one of two tests holds. Both are taken before: as an argument the choice is one value, where `||` in a
/// condition is a branch, behind which the proof of the caller would go on twice.
pub fn either(one: bool, other: bool) -> bool
    ensures { result ≡ (one || other) }
{
    one || other
}
