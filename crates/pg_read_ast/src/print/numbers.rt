//! Decimal text of any length, and the next number that names a thing.

ghost use Rattle.std.specs.Prelude.{◌≡◌, ◌++◌, ◌+◌, ◌-◌, ◌≤◌, ◌<◌, OnOk, max, ◌||◌, ◌&&◌, ◌==◌, nat_lt, IfOk, true, length, take, replicate, get_or};
ghost use Rattle.std.specs.List.{list_all};
ghost use Rattle.pg_read_lex.specs.pg_num.Decimal.{is_digit, natural_of};
ghost use Rattle.pg_read_ast.specs.Numbers.{digits_text, decimal_text, after_name};
ghost use Rattle.pg_read_ast.specs.Digits.{IsPlain, padded};

use crate::print::names::{put, put_text};
use pg_read_lex::pg_num::are_all_digits;
use std::alloc::{AllocError, Global};
use std::marker::Model;

/// The number that the next unnamed thing of a function gets: a whole number without limit, since a name of
/// digits alone may be of any length.
#[derive(Drop)]
pub struct NextNumber {
    digits: Vec<u8>,
}

impl Model for NextNumber {
    ghost use Rattle.std.specs.Prelude.{ℕ};
    ghost use Rattle.pg_read_lex.specs.pg_num.Decimal.{natural_of};
    ghost use Rattle.pg_read_ast.specs.Digits.{IsPlain};

    ghost Value = { ℕ };

    ghost view = { λ n. natural_of n.digits.items };

    ghost invariant = { λ n. IsPlain n.digits.items };
}

impl NextNumber {
    /// 0. No memory is taken.
    #[tactic(auto, using(crate::proofs::Decimals::plain_none))]
    pub fn zero(alloc: Global) -> Self
        ensures { result ≡ 0 }
    {
        NextNumber {
            digits: Vec::new(alloc),
        }
    }

    /// One more.
    #[tactic(auto, using(crate::proofs::Decimals::plain_text, crate::proofs::Decimals::natural_text))]
    pub fn count_up(&mut self, alloc: Global) -> Result<(), AllocError>
        ensures { OnOk result (self.new ≡ self.old + 1) }
    {
        let digits = successor(alloc, self.digits.as_slice())?;
        self.digits = digits;
        Ok(())
    }

    #[tactic(auto, using(crate::proofs::Decimals::plain_text, crate::proofs::Decimals::natural_text))]
    /// One more than the number that a name of digits alone is, if it isn't less.
    pub fn pass(&mut self, alloc: Global, text: &[u8]) -> Result<(), AllocError>
        ensures { OnOk result (self.new ≡ after_name self.old text.now) }
    {
        let digits = after_digits(alloc, self.digits.as_slice(), text)?;
        self.digits = digits;
        Ok(())
    }

    /// Appends the number's decimal text.
    pub fn put(&self, out: &mut Vec<u8>) -> Result<(), AllocError>
        ensures { OnOk result (out.new.items ≡ out.old.items ++ decimal_text self.now) }
    {
        put_digits(out, self.digits.as_slice())
    }
}

#[tactic(auto, using(crate::proofs::Decimals::decimal_of), unfolding(crate::specs::Numbers::decimal_text))]
fn put_digits(out: &mut Vec<u8>, digits: &[u8]) -> Result<(), AllocError>
    requires { IsPlain digits.now }
    ensures { OnOk result (out.new.items ≡ out.old.items ++ decimal_text (natural_of digits.now)) }
{
    if digits.is_empty() {
        put_text(out, "0")
    } else {
        put(out, digits)
    }
}

/// The digits of the next number after a name.
#[tactic(auto, unfolding(crate::specs::Numbers::after_name))]
fn after_digits(alloc: Global, digits: &[u8], text: &[u8]) -> Result<Vec<u8>, AllocError>
    requires { IsPlain digits.now }
    ensures { IfOk result (λ v. v.items ≡ digits_text (after_name (natural_of digits.now) text.now)) }
{
    if are_all_digits(text) {
        greater(alloc, digits, text)
    } else {
        digits.to_vec(alloc)
    }
}

#[tactic(auto, using(crate::proofs::Decimals::plain_digits, crate::proofs::Decimals::greater_new, crate::proofs::Decimals::greater_old))]
fn greater(alloc: Global, digits: &[u8], text: &[u8]) -> Result<Vec<u8>, AllocError>
    requires plain { IsPlain digits.now }
    requires digits { list_all is_digit text.now ≡ true }
    ensures { IfOk result (λ v. v.items ≡ digits_text (max (natural_of digits.now) (natural_of text.now + 1))) }
{
    if is_less(text, digits) {
        digits.to_vec(alloc)
    } else {
        successor(alloc, behind_zeros(text))
    }
}

/// The same number without leading zeros.
#[tactic(auto, using(crate::proofs::Decimals::stripped_begin, crate::proofs::Decimals::stripped_step, crate::proofs::Decimals::stripped_slice))]
fn behind_zeros(text: &[u8]) -> &[u8]
    requires { list_all is_digit text.now ≡ true }
    ensures number { natural_of result.now ≡ natural_of text.now }
    ensures plain { IsPlain result.now }
{
    let mut at = 0;
    while at < text.len() && text[at] == b'0' {
        at += 1;
    }
    &text[at..]
}

/// The digits of one more.
fn successor(alloc: Global, digits: &[u8]) -> Result<Vec<u8>, AllocError>
    requires { IsPlain digits.now }
    ensures { IfOk result (λ v. v.items ≡ digits_text (natural_of digits.now + 1)) }
{
    let end = before_nines(digits);
    let mut more = raised(alloc, &digits[..end])?;
    put_zeros(&mut more, digits.len() - end)?;
    Ok(more)
}

/// Where the nines at the end begin.
#[tactic(auto, using(crate::proofs::Decimals::nines_begin, crate::proofs::Decimals::nines_step, crate::proofs::Decimals::nines_stop))]
fn before_nines(digits: &[u8]) -> usize
    requires { IsPlain digits.now }
    ensures within { result ≤ length digits.now }
    ensures plain { IsPlain (take result digits.now) }
    ensures other { 0 < result → get_or digits.now (result - 1) 0 < 57 }
    ensures number { digits_text (natural_of digits.now + 1)
        ≡ digits_text (natural_of (take result digits.now) + 1) ++ replicate (length digits.now - result) 48 }
{
    let mut end = digits.len();
    while end > 0 && digits[end - 1] == b'9' {
        end -= 1;
    }
    end
}

/// The digits of one more than a number that doesn't end in nine.
#[tactic(auto, using(crate::proofs::Decimals::raised_none, crate::proofs::Decimals::raised_some))]
fn raised(alloc: Global, digits: &[u8]) -> Result<Vec<u8>, AllocError>
    requires plain { IsPlain digits.now }
    requires other { 0 < length digits.now → get_or digits.now (length digits.now - 1) 0 < 57 }
    ensures { IfOk result (λ v. v.items ≡ digits_text (natural_of digits.now + 1)) }
{
    let mut more = Vec::new(alloc);
    if digits.is_empty() {
        more.push(b'1')?;
        return Ok(more);
    }
    let front = digits.len() - 1;
    more.extend_from_slice(&digits[..front])?;
    more.push(digits[front] + 1)?;
    Ok(more)
}

#[tactic(auto, using(crate::proofs::Decimals::zeros_more))]
fn put_zeros(out: &mut Vec<u8>, count: usize) -> Result<(), AllocError>
    ensures { OnOk result (out.new.items ≡ out.old.items ++ replicate count 48) }
{
    for _ in 0..count {
        out.push(b'0')?;
    }
    Ok(())
}

/// Whether one number is less than another.
#[tactic(auto, using(crate::proofs::Decimals::compared_begin, crate::proofs::Decimals::compared_step, crate::proofs::Decimals::compared_end))]
fn is_less(left: &[u8], right: &[u8]) -> bool
    requires left { list_all is_digit left.now ≡ true }
    requires right { list_all is_digit right.now ≡ true }
    ensures { result ≡ nat_lt (natural_of left.now) (natural_of right.now) }
{
    let width = left.len().max(right.len());
    let mut less = false;
    let mut same = true;
    let mut at = 0;
    while at < width {
        let first = digit_at(left, width, at);
        let second = digit_at(right, width, at);
        less = less_after(less, same, first, second);
        same = same_after(same, first, second);
        at += 1;
    }
    less
}

fn less_after(less: bool, same: bool, first: u8, second: u8) -> bool
    ensures { result ≡ (less || (same && nat_lt first second)) }
{
    less || (same && first < second)
}

fn same_after(same: bool, first: u8, second: u8) -> bool
    ensures { result ≡ (same && (first == second)) }
{
    same && first == second
}

fn digit_at(digits: &[u8], width: usize, at: usize) -> u8
    requires digits { list_all is_digit digits.now ≡ true }
    requires width { length digits.now ≤ width }
    requires at { at < width }
    ensures value { result ≡ get_or (padded width digits.now) at 0 }
    ensures digit { is_digit result ≡ true }
{
    let zeros = width - digits.len();
    if at < zeros { b'0' } else { digits[at - zeros] }
}
