//! The bytes that a token stands for, with its escapes read.

ghost use Rattle.std.specs.Prelude.{◌≡◌, ◌≤◌, ◌+◌, ◌-◌, ◌<◌, length, drop, IfOk, IsTrue};
ghost use Rattle.pg_read_lex.specs.Names.{is_hexadecimal, hexadecimal_value, escape_of, escape_in, unescaped, name_of, token_name, inside_quotes};
ghost use Rattle.pg_num.specs.declared.limits.TheConstants.{PROGRAM_TEXT_LIMIT};

use crate::token::TokenKind;
use std::alloc::{AllocError, Global};

/// The bytes that a token of this kind and text stands for: the name without `%`, `@` or `:`, the string
/// without its quotes, where `\\` is a backslash, `\hh` the byte with these two hexadecimal digits, and any
/// other backslash itself. The text of another kind stands for itself.
pub fn token_bytes(alloc: Global, kind: TokenKind, text: &[u8]) -> Result<Vec<u8>, AllocError>
    requires { length text.now ≤ PROGRAM_TEXT_LIMIT }
    ensures { IfOk result (λ bytes. bytes.items ≡ token_name kind text.now) }
{
    match kind {
        TokenKind::Label => {
            if text.is_empty() {
                return name_bytes(alloc, text);
            }
            name_bytes(alloc, &text[..text.len() - 1])
        }
        TokenKind::Local | TokenKind::Global | TokenKind::CStr => name_bytes(
            alloc,
            behind_first(text),
        ),
        TokenKind::Str => name_bytes(alloc, text),
        _ => text.to_vec(alloc),
    }
}

fn behind_first(text: &[u8]) -> &[u8]
    ensures value { result.now ≡ drop 1 text.now }
    ensures len { length result.now ≤ length text.now }
{
    match text {
        [] => text,
        [_, rest @ ..] => rest,
    }
}

fn name_bytes(alloc: Global, text: &[u8]) -> Result<Vec<u8>, AllocError>
    requires { length text.now ≤ PROGRAM_TEXT_LIMIT }
    ensures { IfOk result (λ bytes. bytes.items ≡ name_of text.now) }
{
    if text.len() != 0 && text[0] == b'"' {
        return unescape(alloc, inside(text));
    }
    text.to_vec(alloc)
}

fn inside(text: &[u8]) -> &[u8]
    ensures value { result.now ≡ inside_quotes text.now }
    ensures len { length result.now ≤ length text.now }
{
    if text.len() < 2 {
        return &[];
    }
    &text[1..text.len() - 1]
}

fn unescape(alloc: Global, text: &[u8]) -> Result<Vec<u8>, AllocError>
    requires { length text.now ≤ PROGRAM_TEXT_LIMIT }
    ensures { IfOk result (λ bytes. bytes.items ≡ unescaped text.now) }
{
    let mut bytes = Vec::new(alloc);
    let mut at = 0;
    // The label is for the proof: see docs/CONTRIBUTING.md.
    'reading: while at < text.len() {
        let (byte, size) = escape_at(text, at);
        bytes.push(byte)?;
        at += size;
    }
    Ok(bytes)
}

fn escape_at(text: &[u8], at: usize) -> (u8, usize)
    requires { at < length text.now }
    ensures byte { result.0 ≡ (escape_in (drop at text.now)).byte }
    ensures size { result.1 ≡ (escape_in (drop at text.now)).size }
    ensures some { 1 ≤ result.1 }
    ensures within { at + result.1 ≤ length text.now }
{
    match &text[at..] {
        [] => (0, 1),
        [first, rest @ ..] => escape(*first, rest),
    }
}

fn escape(first: u8, rest: &[u8]) -> (u8, usize)
    ensures byte { result.0 ≡ (escape_of first rest.now).byte }
    ensures size { result.1 ≡ (escape_of first rest.now).size }
    ensures some { 1 ≤ result.1 }
    ensures within { result.1 ≤ length rest.now + 1 }
{
    match rest {
        [] => (first, 1),
        [second] => {
            if first == b'\\' && *second == b'\\' {
                (b'\\', 2)
            } else {
                (first, 1)
            }
        }
        [second, third, ..] => {
            if first == b'\\' && *second == b'\\' {
                (b'\\', 2)
            } else if first == b'\\' && is_hex(*second) && is_hex(*third) {
                (hex_value(*second) * 16 + hex_value(*third), 3)
            } else {
                (first, 1)
            }
        }
    }
}

fn is_hex(byte: u8) -> bool
    ensures { result ≡ is_hexadecimal byte }
{
    (byte >= b'0' && byte <= b'9')
        || (byte >= b'A' && byte <= b'F')
        || (byte >= b'a' && byte <= b'f')
}

fn hex_value(digit: u8) -> u8
    requires { IsTrue (is_hexadecimal digit) }
    ensures value { result ≡ hexadecimal_value digit }
    ensures limit { result < 16 }
{
    if digit >= b'0' && digit <= b'9' {
        digit - b'0'
    } else if digit <= b'F' {
        digit - 55
    } else {
        digit - 87
    }
}
