//! The numbers on a line of input.
ghost use Rattle.std.specs.Prelude.{◌≡◌, ◌≤◌, length, IfOk, IfSome};
ghost use Rattle.std.specs.Option.{option_map};
ghost use Rattle.pg_num.specs.declared.limits.TheConstants.{NUMBERS_LIMIT};
ghost use Rattle.pg_session.specs.Lines.{input_of, is_blank, numbers_of, words_of};

use pg_num::digits_in_i64;
use pg_num::limits::{LINE_LIMIT, NUMBERS_LIMIT};
use std::alloc::{AllocError, Global};

// Whether a byte is a space or a tab.
fn is_blank(byte: u8) -> bool
    ensures { result ≡ is_blank byte }
{
    byte == b' ' || byte == b'\t'
}

// The numbers that the words of a line are, or `None` where a word is none.
fn numbers_of(alloc: Global, line: &[u8]) -> Result<Option<Vec<i64>>, AllocError>
    ensures { IfOk result (λ found. option_map (λ v. v.items) found ≡ numbers_of (words_of line.now)) }
{
    let mut numbers = Vec::new(alloc);
    if line.is_empty() {
        return Ok(Some(numbers));
    }
    let mut start: usize = 0;
    for at in 0..line.len() {
        if is_blank(line[at]) {
            let Some(number) = digits_in_i64(&line[start..at]) else {
                return Ok(None);
            };
            numbers.push(number)?;
            start = at + 1;
        }
    }
    let Some(number) = digits_in_i64(&line[start..]) else {
        return Ok(None);
    };
    numbers.push(number)?;
    Ok(Some(numbers))
}

/// The numbers that a line is, or `None` where it is no line of numbers: of at most `LINE_LIMIT` bytes, and empty or up to
/// `NUMBERS_LIMIT` numbers with a single blank between two of them.
pub(crate) fn input_of(alloc: Global, line: &[u8]) -> Result<Option<Vec<i64>>, AllocError>
    ensures input { IfOk result (λ found. option_map (λ v. v.items) found ≡ input_of line.now) }
    ensures few { IfOk result (λ found. IfSome found (λ v. length v.items ≤ NUMBERS_LIMIT)) }
{
    if line.len() > LINE_LIMIT {
        return Ok(None);
    }
    match numbers_of(alloc, line)? {
        Some(numbers) if numbers.len() <= NUMBERS_LIMIT => Ok(Some(numbers)),
        _ => Ok(None),
    }
}
