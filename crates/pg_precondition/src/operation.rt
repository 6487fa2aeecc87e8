//! The operations of nodes.

ghost use Rattle.std.specs.Prelude.{◌≡◌, ◌<◌};
ghost use Rattle.pg_num.specs.Numbers.{modulus, truncated};
ghost use Rattle.pg_precondition.specs.Nodes.{FitsCast};
ghost use Rattle.pg_precondition.specs.Values.{bit_of, cast_by, if_divided, operated};
ghost use Rattle.pg_num.specs.Numbers as numbers;

use crate::node::{CastKind, Operation};
use pg_num::{Division, Width, add, bits, compare, divide, mul, sext, shift, sub, trunc};

/// The quotient or remainder, if there is one.
fn divided(d: Division, w: Width, a: u64, b: u64) -> Option<u64>
    requires dividend { a < modulus w }
    requires divisor { b < modulus w }
    ensures { result ≡ if_divided (numbers.divided d w a b) }
{
    match divide(d, w, a, b) {
        Ok(n) => Some(n),
        Err(_) => None,
    }
}

/// The result of an operation on two numbers of a width.
fn operated(op: Operation, w: Width, a: u64, b: u64) -> Option<u64>
    requires left { a < modulus w }
    requires right { b < modulus w }
    ensures { result ≡ operated op w a b }
{
    match op {
        Operation::Add => Some(add(w, a, b)),
        Operation::Sub => Some(sub(w, a, b)),
        Operation::Mul => Some(mul(w, a, b)),
        Operation::Divide(d) => divided(d, w, a, b),
        Operation::Shift(s) => Some(shift(s, w, a, b)),
        Operation::Bits(o) => Some(bits(o, a, b)),
        Operation::Compare(c) => Some(u64::from(compare(c, w, a, b))),
    }
}

/// The result of an operation on two numbers modulo two to a width.
pub(crate) fn operated_on(op: Operation, w: Width, a: u64, b: u64) -> Option<u64>
    ensures { result ≡ operated op w (truncated w a) (truncated w b) }
{
    operated(op, w, trunc(w, a), trunc(w, b))
}

/// A number modulo two to a width, in another width.
pub(crate) fn cast(cast: CastKind, from: Width, to: Width, n: u64) -> u64
    ensures { result ≡ cast_by cast from to (truncated from n) }
{
    let n = trunc(from, n);
    match cast {
        CastKind::Trunc => trunc(to, n),
        CastKind::Zext => n,
        CastKind::Sext => sext(from, to, n),
    }
}
