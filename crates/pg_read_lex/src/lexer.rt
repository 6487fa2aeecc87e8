//! The tokens of a text, or its first lexical fault.

ghost use Rattle.std.specs.Prelude.{◌≡◌, ◌≤◌, ◌<◌, ◌+◌, ◌-◌, ◌≢◌, length, drop, IfOk, IfErr, IfSome, Ok, Err, not, take_while, position};
ghost use Rattle.std.specs.List.{list_any};
ghost use Rattle.pg_read_lex.specs.Bytes.{is_blank, is_line_feed, is_quote, is_colon, is_plus, is_letter, is_run_byte, begins};
ghost use Rattle.pg_read_lex.specs.Tokens.{run, string_length, is_name, is_dots, is_c, begins_word, with_string, run_piece};
ghost use Rattle.pg_read_lex.specs.Tokens.{string_piece, named_piece, mark_of, marked_piece, piece_of, IsWithin, tokens};
ghost use Rattle.pg_read_lex.specs.Tokens.{IsAscending};
ghost use Rattle.pg_num.specs.Decimal.{is_decimal, is_digit};
ghost use Rattle.pg_num.specs.declared.limits.TheConstants.{PROGRAM_TEXT_LIMIT};

use crate::token::{LexFault, Piece, Span, Token, TokenKind};
use pg_num::are_all_digits;
use std::alloc::Global;

/// The tokens of a text in order, or its first fault: the first place at which no token begins and no
/// blank or comment stands.
#[tactic(auto, unfolding(crate::specs::Tokens::IsWithin))]
pub fn lex(alloc: Global, text: &[u8]) -> Result<Vec<Token>, LexFault>
    requires { length text.now ≤ PROGRAM_TEXT_LIMIT }
    ensures found { IfOk result (λ ts. tokens text.now ≡ Ok ts.items) }
    ensures ascending { IfOk result (λ ts. IsAscending 0 ts.items (length text.now)) }
    ensures refused { IfErr result (λ e. e ≢ LexFault.OutOfMemory → tokens text.now ≡ Err e) }
{
    let mut found = Vec::new(alloc);
    let mut at = 0;
    // The label is for the proof: see docs/CONTRIBUTING.md.
    'lexing: while at < text.len() {
        match piece_at(text, at) {
            Piece::Gap(size) => at += size,
            Piece::Whole(kind, size) => {
                let span = Span {
                    start: at as u32,
                    end: (at + size) as u32,
                };
                if found.push(Token { kind, span }).is_err() {
                    return Err(LexFault::OutOfMemory);
                }
                at += size;
            }
            Piece::Bad => return Err(LexFault::BadByte(at as u32)),
            Piece::Open(before) => return Err(LexFault::OpenString((at + before) as u32)),
        }
    }
    Ok(found)
}

fn piece_at(text: &[u8], at: usize) -> Piece
    requires inside { at < length text.now }
    requires limit { length text.now ≤ PROGRAM_TEXT_LIMIT }
    ensures exact { result ≡ piece_of (drop at text.now) }
    ensures within { IsWithin result (length text.now - at) }
{
    piece(&text[at..])
}

#[tactic(auto, unfolding(crate::specs::Tokens::piece_of))]
fn piece(text: &[u8]) -> Piece
    requires some { 0 < length text.now }
    requires limit { length text.now ≤ PROGRAM_TEXT_LIMIT }
    ensures { result ≡ piece_of text.now }
{
    let first = text[0];
    let rest = &text[1..];
    if is_blank_byte(first) {
        return Piece::Gap(1);
    }
    if first == b';' {
        return Piece::Gap(1 + line_len(rest));
    }
    if is_run(first) {
        let size = run_len(text);
        return run_token(&text[..size], &text[size..]);
    }
    marked(first, text, rest)
}

/// What begins with a byte that isn't blank and stands in no run.
#[tactic(auto, unfolding(crate::specs::Tokens::marked_piece))]
fn marked(first: u8, text: &[u8], rest: &[u8]) -> Piece
    requires limit { length text.now ≤ PROGRAM_TEXT_LIMIT }
    requires rest { length rest.now ≤ length text.now }
    ensures { result ≡ marked_piece first text.now rest.now }
{
    if first == b'"' {
        return string(text);
    }
    if first == b'%' {
        return named(TokenKind::Local, rest);
    }
    if first == b'@' {
        return named(TokenKind::Global, rest);
    }
    let size = run_len(rest);
    if first == b'!' {
        return Piece::Whole(TokenKind::Meta, 1 + size);
    }
    if first == b'#' {
        return if size == 0 {
            Piece::Bad
        } else {
            Piece::Whole(TokenKind::Attr, 1 + size)
        };
    }
    match mark(first) {
        Some(kind) => Piece::Whole(kind, 1),
        None => Piece::Bad,
    }
}

#[tactic(auto, unfolding(crate::specs::Tokens::run_piece))]
fn run_token(run: &[u8], after: &[u8]) -> Piece
    requires limit { length run.now + length after.now ≤ PROGRAM_TEXT_LIMIT }
    ensures { result ≡ run_piece run.now after.now }
{
    let size = run.len();
    if is_run_name(run) && colon_first(after) {
        return Piece::Whole(TokenKind::Label, size + 1);
    }
    if is_integer(run) {
        return Piece::Whole(TokenKind::Int, size);
    }
    if are_dots(run) {
        return Piece::Whole(TokenKind::Dots, size);
    }
    if is_letter_c(run) && quote_first(after) {
        return behind(TokenKind::CStr, 1, string_len(after));
    }
    if word_first(run) {
        Piece::Whole(TokenKind::Word, size)
    } else {
        Piece::Whole(TokenKind::Odd, size)
    }
}

fn string(text: &[u8]) -> Piece
    requires { length text.now ≤ PROGRAM_TEXT_LIMIT }
    ensures { result ≡ string_piece text.now (string_length text.now) }
{
    match string_len(text) {
        None => Piece::Open(0),
        Some(size) => {
            if colon_first(&text[size..]) {
                Piece::Whole(TokenKind::Label, size + 1)
            } else {
                Piece::Whole(TokenKind::Str, size)
            }
        }
    }
}

fn named(kind: TokenKind, rest: &[u8]) -> Piece
    requires { length rest.now ≤ PROGRAM_TEXT_LIMIT }
    ensures { result ≡ named_piece kind rest.now }
{
    if quote_first(rest) {
        return behind(kind, 1, string_len(rest));
    }
    let size = run_len(rest);
    if is_run_name(&rest[..size]) {
        Piece::Whole(kind, 1 + size)
    } else {
        Piece::Bad
    }
}

fn behind(kind: TokenKind, before: usize, string: Option<usize>) -> Piece
    requires before { before ≤ 1 }
    requires string { IfSome string (λ n. n ≤ PROGRAM_TEXT_LIMIT) }
    ensures { result ≡ with_string kind before string }
{
    match string {
        None => Piece::Open(before),
        Some(size) => Piece::Whole(kind, before + size),
    }
}

#[tactic(auto, unfolding(crate::specs::Tokens::mark_of))]
fn mark(byte: u8) -> Option<TokenKind>
    ensures { result ≡ mark_of byte }
{
    let kind = match byte {
        b'(' => TokenKind::OpenRound,
        b')' => TokenKind::CloseRound,
        b'{' => TokenKind::OpenBrace,
        b'}' => TokenKind::CloseBrace,
        b'[' => TokenKind::OpenSquare,
        b']' => TokenKind::CloseSquare,
        b'<' => TokenKind::Less,
        b'>' => TokenKind::Greater,
        b',' => TokenKind::Comma,
        b'=' => TokenKind::Equals,
        b'*' => TokenKind::Star,
        b'|' => TokenKind::Bar,
        b':' => TokenKind::Colon,
        _ => return None,
    };
    Some(kind)
}

/// The bytes up to the line's end.
fn line_len(text: &[u8]) -> usize
    ensures exact { result ≡ length (take_while (λ c. not (is_line_feed c)) text.now) }
    ensures within { result ≤ length text.now }
{
    text.iter().take_while(|b| **b != b'\n').count()
}

fn run_len(text: &[u8]) -> usize
    ensures exact { result ≡ length (run text.now) }
    ensures within { result ≤ length text.now }
{
    text.iter().take_while(|b| is_run(**b)).count()
}

fn string_len(text: &[u8]) -> Option<usize>
    requires { length text.now ≤ PROGRAM_TEXT_LIMIT }
    ensures exact { result ≡ string_length text.now }
    ensures within { IfSome result (λ n. n ≤ length text.now) }
{
    let [_, rest @ ..] = text else { return None };
    match quote_place(rest) {
        None => None,
        Some(place) => Some(place + 2),
    }
}

fn quote_place(text: &[u8]) -> Option<usize>
    ensures exact { result ≡ position is_quote text.now }
    ensures within { IfSome result (λ n. n < length text.now) }
{
    text.iter().position(|b| *b == b'"')
}

fn is_run_name(run: &[u8]) -> bool
    ensures { result ≡ is_name run.now }
{
    match run {
        [] => false,
        [_, ..] => !has_plus(run),
    }
}

fn has_plus(run: &[u8]) -> bool
    ensures { result ≡ list_any is_plus run.now }
{
    run.iter().any(|b| *b == b'+')
}

fn is_integer(run: &[u8]) -> bool
    ensures { result ≡ is_decimal run.now }
{
    match run {
        [] => false,
        [first, rest @ ..] => {
            if *first == b'-' {
                are_all_digits(rest)
            } else {
                are_all_digits(run)
            }
        }
    }
}

fn are_dots(run: &[u8]) -> bool
    ensures { result ≡ is_dots run.now }
{
    let dots = run.iter().all(|b| *b == b'.');
    run.len() == 3 && dots
}

fn is_letter_c(run: &[u8]) -> bool
    ensures { result ≡ is_c run.now }
{
    let letters = run.iter().all(|b| *b == b'c');
    run.len() == 1 && letters
}

fn colon_first(text: &[u8]) -> bool
    ensures { result ≡ begins is_colon text.now }
{
    text.len() != 0 && text[0] == b':'
}

fn quote_first(text: &[u8]) -> bool
    ensures { result ≡ begins is_quote text.now }
{
    text.len() != 0 && text[0] == b'"'
}

fn word_first(run: &[u8]) -> bool
    ensures { result ≡ begins begins_word run.now }
{
    run.len() != 0 && (is_latin(run[0]) || run[0] == b'_')
}

fn is_blank_byte(byte: u8) -> bool
    ensures { result ≡ is_blank byte }
{
    byte == b' ' || byte == b'\t' || byte == b'\r' || byte == b'\n'
}

fn is_decimal_digit(byte: u8) -> bool
    ensures { result ≡ is_digit byte }
{
    byte >= b'0' && byte <= b'9'
}

fn is_latin(byte: u8) -> bool
    ensures { result ≡ is_letter byte }
{
    (byte >= b'A' && byte <= b'Z') || (byte >= b'a' && byte <= b'z')
}

fn is_run(byte: u8) -> bool
    ensures { result ≡ is_run_byte byte }
{
    is_latin(byte)
        || is_decimal_digit(byte)
        || byte == b'-'
        || byte == b'$'
        || byte == b'.'
        || byte == b'_'
        || byte == b'+'
}
