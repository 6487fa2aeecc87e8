//! The numbers that literals write, in the ranges of their types.

ghost use Rattle.std.specs.Prelude.{◌≡◌, ◌-◌, ◌<◌, ◌≤ℤ◌, pos, neg_ℤ, Some, IfSome};
ghost use Rattle.pg_read_ast.specs.pg_num.Decimal.{decimal_between, is_between};
ghost use Rattle.pg_read_ast.specs.pg_num.Numbers.{modulus, half, residue};
ghost use Rattle.pg_check_types.specs.Literals.{literal_in};
ghost use Rattle.pg_check_types.specs.Resolved.{element_count};

use pg_read_ast::pg_num::{Width, digits_in_64_bits, from_signed};

fn is_between(low: i128, high: i128, integer: i128) -> bool
    ensures { result ≡ is_between low high integer }
{
    low <= integer && integer <= high
}

/// The integer of decimal text, if it lies in a range.

fn integer_between(text: &[u8], low: i128, high: i128) -> Option<i128>
    requires low { i64.MIN ≤ℤ low }
    requires high { high ≤ℤ pos u64.MAX }
    ensures value { result ≡ decimal_between low high text.now }
    ensures above { IfSome result (λ n. low ≤ℤ n) }
    ensures below { IfSome result (λ n. n ≤ℤ high) }
{
    match digits_in_64_bits(text) {
        Some(integer) => {
            if is_between(low, high, integer) {
                Some(integer)
            } else {
                None
            }
        }
        None => None,
    }
}

/// The number of elements that an array type writes, if it is one of 64 bits.
pub fn element_count(text: &[u8]) -> Option<u64>
    ensures { result ≡ element_count text.now }
{
    match integer_between(text, 0, u64::MAX as i128) {
        Some(count) => Some(count as u64),
        None => None,
    }
}

/// The least integer of a width, as a signed number.
fn least_integer(width: Width) -> i128
    ensures { result ≡ neg_ℤ (pos (half width)) }
{
    match width {
        Width::W1 => -1,
        Width::W8 => -0x80,
        Width::W16 => -0x8000,
        Width::W32 => -0x8000_0000,
        Width::W64 => -0x8000_0000_0000_0000,
    }
}

/// The greatest integer of a width, as a number without a sign.
fn greatest_integer(width: Width) -> i128
    ensures { result ≡ pos (modulus width - 1) }
{
    match width {
        Width::W1 => 1,
        Width::W8 => 0xff,
        Width::W16 => 0xffff,
        Width::W32 => 0xffff_ffff,
        Width::W64 => 0xffff_ffff_ffff_ffff,
    }
}

/// The value of an integer of a width, with a sign or without one.
fn value_of_integer(width: Width, integer: i128) -> u64
    requires low { neg_ℤ (pos (half width)) ≤ℤ integer }
    requires high { integer ≤ℤ pos (modulus width - 1) }
    ensures { result ≡ residue width integer }
{
    if integer < 0 {
        from_signed(width, integer as i64)
    } else {
        integer as u64
    }
}

/// The value that a literal is at a width of n bits, if it lies between -2^(n - 1) and 2^n - 1.
pub fn literal_in(width: Width, text: &[u8]) -> Option<u64>
    ensures { result ≡ literal_in width text.now }
{
    match integer_between(text, least_integer(width), greatest_integer(width)) {
        Some(integer) => Some(value_of_integer(width, integer)),
        None => None,
    }
}
