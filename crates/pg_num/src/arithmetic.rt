//! Sums, differences and products.

ghost use Rattle.std.specs.Prelude.{◌≡◌, ◌<◌};
ghost use Rattle.pg_num.specs.Numbers.{modulus, sum_of, difference_of, product_of};

use crate::width::Width;

/// The sum of two values, modulo two to the width (`add`, LLVM Language Reference).
pub fn add(w: Width, a: u64, b: u64) -> u64
    ensures value { result ≡ sum_of w a b }
    ensures in_range { result < modulus w }
{
    w.reduce(a as u128 + b as u128)
}

/// The difference of two values, modulo two to the width (`sub`, LLVM Language Reference).
pub fn sub(w: Width, a: u64, b: u64) -> u64
    ensures value { result ≡ difference_of w a b }
    ensures in_range { result < modulus w }
{
    w.wrap(a as i128 - b as i128)
}

/// The product of two values, modulo two to the width (`mul`, LLVM Language Reference).
pub fn mul(w: Width, a: u64, b: u64) -> u64
    ensures value { result ≡ product_of w a b }
    ensures in_range { result < modulus w }
{
    w.reduce(a as u128 * b as u128)
}
