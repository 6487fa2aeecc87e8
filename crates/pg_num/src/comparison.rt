//! Comparisons of two values.

ghost use Rattle.std.specs.Prelude.{◌≡◌, ◌<◌};
ghost use Rattle.pg_num.specs.Numbers.{modulus, compared};

use crate::operations::Compare;
use crate::width::Width;

/// Whether the predicate holds of two values; the predicates with `S` compare the signed readings.
pub fn compare(op: Compare, w: Width, a: u64, b: u64) -> bool
    requires left { a < modulus w }
    requires right { b < modulus w }
    ensures { result ≡ compared op w a b }
{
    match op {
        Compare::Eq => a == b,
        Compare::Ne => a != b,
        Compare::Ugt => a > b,
        Compare::Uge => a >= b,
        Compare::Ult => a < b,
        Compare::Ule => a <= b,
        Compare::Sgt => w.signed(a) > w.signed(b),
        Compare::Sge => w.signed(a) >= w.signed(b),
        Compare::Slt => w.signed(a) < w.signed(b),
        Compare::Sle => w.signed(a) <= w.signed(b),
    }
}
