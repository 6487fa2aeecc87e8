//! The signed readings of values.

ghost use Rattle.std.specs.Prelude.{◌≡◌, ◌<◌};
ghost use Rattle.pg_num.specs.Numbers.{modulus, signed, residue};

use crate::width::Width;

/// The signed reading of a value (two's complement).
pub fn to_signed(w: Width, value: u64) -> i64
    requires { value < modulus w }
    ensures { result ≡ signed w value }
{
    w.signed(value) as i64
}

/// The value of the width that an integer is, modulo two to the width.
pub fn from_signed(w: Width, integer: i64) -> u64
    ensures value { result ≡ residue w integer }
    ensures in_range { result < modulus w }
{
    w.wrap(integer as i128)
}
