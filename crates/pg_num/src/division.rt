//! Quotients and remainders.

ghost use Rattle.std.specs.Prelude.{◌≡◌, ◌<◌, ◌&&◌, ◌==◌, ◌≢◌, IfOk, int_div, int_rem};
ghost use Rattle.pg_num.specs.Numbers.{modulus, divided, overflows, least, minus_one, signed, residue};

use crate::operations::{DivideFault, Division};
use crate::width::Width;

/// The quotient or remainder of two values. A signed quotient is cut toward zero, and a signed remainder has the
/// dividend's sign (LLVM Language Reference).
///
/// # Errors
///
/// `Zero` where the divisor is zero. `Overflow` where a signed division has the least number as its dividend and -1
/// as its divisor.
pub fn divide(op: Division, w: Width, a: u64, b: u64) -> Result<u64, DivideFault>
    requires dividend { a < modulus w }
    requires divisor { b < modulus w }
    ensures value { result ≡ divided op w a b }
    ensures in_range { IfOk result (λ q. q < modulus w) }
{
    if b == 0 {
        return Err(DivideFault::Zero);
    }
    if is_overflow(op, w, a, b) {
        return Err(DivideFault::Overflow);
    }
    Ok(match op {
        Division::Udiv => a / b,
        Division::Sdiv => signed_quotient(w, a, b),
        Division::Urem => a % b,
        Division::Srem => signed_remainder(w, a, b),
    })
}

/// Whether a signed operation divides the least number of the width by -1.
fn is_overflow(op: Division, w: Width, a: u64, b: u64) -> bool
    ensures { result ≡ overflows op w a b }
{
    match op {
        Division::Sdiv | Division::Srem => is_least_by_minus_one(w, a, b),
        Division::Udiv | Division::Urem => false,
    }
}

/// Whether the dividend is the least number of the width and the divisor is -1.
fn is_least_by_minus_one(w: Width, a: u64, b: u64) -> bool
    ensures { result ≡ (a == least w && b == minus_one w) }
{
    a == w.half() && b as u128 == w.modulus() - 1
}

fn signed_quotient(w: Width, a: u64, b: u64) -> u64
    requires dividend { a < modulus w }
    requires divisor { b < modulus w }
    requires not_zero { b ≢ 0 }
    ensures value { result ≡ residue w (int_div (signed w a) (signed w b)) }
    ensures in_range { result < modulus w }
{
    let dividend = w.signed(a);
    let divisor = w.signed(b);
    w.wrap(dividend / divisor)
}

fn signed_remainder(w: Width, a: u64, b: u64) -> u64
    requires dividend { a < modulus w }
    requires divisor { b < modulus w }
    requires not_zero { b ≢ 0 }
    ensures value { result ≡ residue w (int_rem (signed w a) (signed w b)) }
    ensures in_range { result < modulus w }
{
    let dividend = w.signed(a);
    let divisor = w.signed(b);
    w.wrap(dividend % divisor)
}
