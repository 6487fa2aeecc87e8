//! Whether a number is in a list.

ghost use Rattle.std.specs.Prelude.{◌≡◌, ◌↔◌, true, Contains};

/// Whether a number is one of these.
pub fn is_among(numbers: &[u32], number: u32) -> bool
    ensures { (result ≡ true) ↔ Contains numbers.now number }
{
    for other in numbers {
        if *other == number {
            return true;
        }
    }
    false
}
