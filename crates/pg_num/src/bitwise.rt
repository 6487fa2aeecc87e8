//! Operations bit by bit.

ghost use Rattle.std.specs.Prelude.{◌≡◌, ◌<◌};
ghost use Rattle.pg_num.specs.Numbers.{bits_of, modulus};
ghost use Rattle.pg_num.specs.declared.width.Width.{Width};

use crate::operations::Bits;

/// The bits of two values of one width, joined one by one. The result is a value of that width.
pub fn bits(op: Bits, a: u64, b: u64) -> u64
    ensures value { result ≡ bits_of op a b }
    ensures in_range { (w : Width) → a < modulus w → b < modulus w → result < modulus w }
{
    match op {
        Bits::And => a & b,
        Bits::Or => a | b,
        Bits::Xor => a ^ b,
    }
}
