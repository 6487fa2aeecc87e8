//! Shifts.

ghost use Rattle.std.specs.Prelude.{◌≡◌, ◌<◌};
ghost use Rattle.pg_num.specs.Numbers.{modulus, width_bits, shifted, shifted_out, shifted_within};

use crate::operations::Shift;
use crate::width::Width;

/// A value shifted by `n` places. A shift by the width or more, which is poison in LLVM, gives 0 for `shl` and
/// `lshr`, and the sign in every bit for `ashr`.
pub fn shift(op: Shift, w: Width, a: u64, n: u64) -> u64
    requires { a < modulus w }
    ensures value { result ≡ shifted op w a n }
    ensures in_range { result < modulus w }
{
    if n < w.bits() as u64 {
        shift_within(op, w, a, n as u32)
    } else {
        shift_out(op, w, a)
    }
}

/// A shift by fewer places than the width.
fn shift_within(op: Shift, w: Width, a: u64, n: u32) -> u64
    requires in_range { a < modulus w }
    requires within { n < width_bits w }
    ensures value { result ≡ shifted_within op w a n }
    ensures in_range { result < modulus w }
{
    match op {
        Shift::Shl => w.reduce((a as u128) << n),
        Shift::Lshr => a >> n,
        Shift::Ashr => w.wrap(w.signed(a) >> n),
    }
}

/// A shift by the width or more.
fn shift_out(op: Shift, w: Width, a: u64) -> u64
    requires { a < modulus w }
    ensures value { result ≡ shifted_out op w a }
    ensures in_range { result < modulus w }
{
    match op {
        Shift::Ashr if a >= w.half() => (w.modulus() - 1) as u64,
        Shift::Ashr | Shift::Shl | Shift::Lshr => 0,
    }
}
