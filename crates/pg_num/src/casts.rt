//! Changes of a value's width.

ghost use Rattle.std.specs.Prelude.{◌≡◌, ◌<◌};
ghost use Rattle.pg_num.specs.Numbers.{modulus, truncated, sign_extended};

use crate::width::Width;

/// A value cut to a narrower width (`trunc`, LLVM Language Reference).
pub fn trunc(to: Width, a: u64) -> u64
    ensures value { result ≡ truncated to a }
    ensures in_range { result < modulus to }
{
    to.reduce(a as u128)
}

/// A value of the width `from` with its sign copied into the new bits of the width `to` (`sext`, LLVM Language
/// Reference). A value extended with zeros (`zext`) is the same number.
pub fn sext(from: Width, to: Width, a: u64) -> u64
    requires { a < modulus from }
    ensures value { result ≡ sign_extended from to a }
    ensures in_range { result < modulus to }
{
    to.wrap(from.signed(a))
}
