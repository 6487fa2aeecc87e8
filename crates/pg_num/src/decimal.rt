//! Numbers from decimal text, and back.

ghost use Rattle.std.specs.Prelude.{◌≡◌, ◌+◌, ◌-◌, ◌^◌, ◌≤◌, ◌<◌, ◌≤ℤ◌, min, pos, negsuc, neg_ℤ, Some, None, IfSome, if◌then◌else◌};
ghost use Rattle.std.specs.List.{list_all};
ghost use Rattle.pg_num.specs.Decimal.{are_digits, is_digit, digits_after, natural_of, is_decimal, is_negative, digits_of, integer_of, decimal_between, digits_up_to};

/// Above each number that the public calls give, so a number may stop growing here.
const CAP: u128 = 0x1_0000_0000_0000_0000;

/// The number that a text of digits with or without a minus sign before them writes, if it fits.
/// Leading zeros are allowed, and a plus sign isn't.
pub fn digits_in_i64(text: &[u8]) -> Option<i64>
    ensures { result ≡ decimal_between i64.MIN i64.MAX text.now }
{
    match integer_between(text, i64::MIN as i128, i64::MAX as i128) {
        Some(integer) => Some(integer as i64),
        None => None,
    }
}

/// As `digits_in_i64`, for a number that fits 64 bits with or without a sign: from `i64::MIN` to `u64::MAX`.
pub fn digits_in_64_bits(text: &[u8]) -> Option<i128>
    ensures { result ≡ decimal_between i64.MIN (pos u64.MAX) text.now }
{
    integer_between(text, i64::MIN as i128, u64::MAX as i128)
}

/// The number that a text of digits alone writes, if it fits. Leading zeros are allowed.
pub fn digits_in_u64(text: &[u8]) -> Option<u64>
    ensures { result ≡ digits_up_to u64.MAX text.now }
{
    if !are_all_digits(text) {
        return None;
    }
    let number = capped(text);
    if number < CAP {
        Some(number as u64)
    } else {
        None
    }
}

/// The integer of decimal text, if it lies in a range.
fn integer_between(text: &[u8], low: i128, high: i128) -> Option<i128>
    requires low { negsuc (2 ^ 63) ≤ℤ low }
    requires high { high ≤ℤ pos (2 ^ 64 - 1) }
    ensures value { result ≡ decimal_between low high text.now }
    ensures above { IfSome result (λ n. low ≤ℤ n) }
    ensures below { IfSome result (λ n. n ≤ℤ high) }
{
    let digits = without_sign(text);
    if !are_all_digits(digits) {
        return None;
    }
    let number = capped(digits) as i128;
    let integer = if has_minus(text) { -number } else { number };
    if low <= integer && integer <= high {
        Some(integer)
    } else {
        None
    }
}

fn has_minus(text: &[u8]) -> bool
    ensures { result ≡ is_negative text.now }
{
    match text {
        [first, ..] => *first == b'-',
        [] => false,
    }
}

fn without_sign(text: &[u8]) -> &[u8]
    ensures { result.now ≡ digits_of text.now }
{
    match text {
        [b'-', digits @ ..] => digits,
        digits => digits,
    }
}

/// Whether a text is one or more decimal digits, and nothing else.
pub fn are_all_digits(text: &[u8]) -> bool
    ensures { result ≡ are_digits text.now }
{
    !text.is_empty() && has_only_digits(text)
}

fn has_only_digits(text: &[u8]) -> bool
    ensures { result ≡ list_all is_digit text.now }
{
    text.iter().all(|&byte| b'0' <= byte && byte <= b'9')
}

/// The number that digits write, or `CAP` where it is more.
#[tactic(auto, using(crate::proofs::Digits::digits_step, crate::proofs::Digits::digits_end))]
fn capped(digits: &[u8]) -> u128
    ensures { result ≡ min (natural_of digits.now) CAP }
{
    let mut number = 0;
    for &digit in digits {
        number = (number * 10 + digit.saturating_sub(b'0') as u128).min(CAP);
    }
    number
}
