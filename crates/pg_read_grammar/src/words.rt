//! The tokens of a text with their classes.

ghost use Rattle.std.specs.Prelude.{◌≡◌, ◌≤◌, length, map, IfOk};
ghost use Rattle.pg_read_lex.specs.Tokens.{IsAscending};
ghost use Rattle.pg_num.specs.declared.limits.TheConstants.{PROGRAM_TEXT_LIMIT};
ghost use Rattle.pg_read_grammar.specs.Words.{is_integer_type, class_by_form, class_in, row_of, words, word_class, is_dropped, is_debug, class_of, bytes_at, seen, classified};

use crate::class::{Class, WORDS, WordClass};
use crate::token::Token;
use pg_num::are_all_digits;
use pg_read_ast::Bytes;
use pg_read_lex::{Span, TokenKind, token_bytes};
use std::alloc::{AllocError, Global};

/// The tokens of a text as the grammar sees them.
pub fn classify(
    alloc: Global,
    text: &[u8],
    tokens: &[pg_read_lex::Token],
) -> Result<Vec<Token>, AllocError>
    requires limit { length text.now ≤ PROGRAM_TEXT_LIMIT }
    requires ascending { IsAscending 0 tokens.now (length text.now) }
    ensures { IfOk result (λ all. all.items ≡ classified text.now tokens.now) }
{
    let mut all = Vec::new(alloc);
    for token in tokens {
        let next = see(alloc, text, token)?;
        if all.push(next).is_err() {
            return Err(AllocError);
        }
    }
    Ok(all)
}

fn see(alloc: Global, text: &[u8], token: &pg_read_lex::Token) -> Result<Token, AllocError>
    requires limit { length text.now ≤ PROGRAM_TEXT_LIMIT }
    requires start { token.now.span.start ≤ token.now.span.end }
    requires end { token.now.span.end ≤ length text.now }
    ensures { IfOk result (λ t. t ≡ seen text.now token.now) }
{
    let piece = bytes_of(text, token.span);
    let bytes = token_bytes(alloc, token.kind, piece)?;
    let class = class(token.kind, bytes.as_slice());
    Ok(Token {
        class,
        text: Bytes::new(bytes),
        span: token.span,
    })
}

fn bytes_of(text: &[u8], span: Span) -> &[u8]
    requires start { span.start ≤ span.end }
    requires end { span.end ≤ length text.now }
    ensures value { result.now ≡ bytes_at text.now span }
    ensures len { length result.now ≤ length text.now }
{
    &text[span.start as usize..span.end as usize]
}

fn class(kind: TokenKind, text: &[u8]) -> Class
    ensures { result ≡ class_of kind text.now }
{
    match kind {
        TokenKind::Word => class_of_word(text),
        TokenKind::Global => global_class(text),
        TokenKind::Meta => meta_class(text),
        TokenKind::Attr => attribute_class(text),
        TokenKind::Label => Class::Label,
        TokenKind::Int => Class::Int,
        TokenKind::Dots => Class::Dots,
        TokenKind::CStr => Class::CStr,
        TokenKind::Odd => Class::Odd,
        TokenKind::Str => Class::Str,
        TokenKind::Local => Class::Local,
        TokenKind::OpenRound => Class::OpenRound,
        TokenKind::CloseRound => Class::CloseRound,
        TokenKind::OpenBrace => Class::OpenBrace,
        TokenKind::CloseBrace => Class::CloseBrace,
        TokenKind::OpenSquare => Class::OpenSquare,
        TokenKind::CloseSquare => Class::CloseSquare,
        TokenKind::Less => Class::Less,
        TokenKind::Greater => Class::Greater,
        TokenKind::Comma => Class::Comma,
        TokenKind::Equals => Class::Equals,
        TokenKind::Star => Class::Star,
        TokenKind::Bar => Class::Bar,
        TokenKind::Colon => Class::Colon,
    }
}

fn global_class(name: &[u8]) -> Class
    ensures { result ≡ class_of TokenKind.Global name.now }
{
    if is_dropped_name(name) {
        Class::DroppedGlobal
    } else {
        Class::Global
    }
}

fn meta_class(text: &[u8]) -> Class
    ensures { result ≡ class_of TokenKind.Meta text.now }
{
    if text.len() == 1 {
        Class::Bang
    } else {
        Class::Meta
    }
}

fn attribute_class(text: &[u8]) -> Class
    ensures { result ≡ class_of TokenKind.Attr text.now }
{
    if is_debug_name(text) {
        Class::DebugAttr
    } else {
        Class::Attr
    }
}

#[tactic(auto, unfolding(crate::specs::Words::is_dropped))]
fn is_dropped_name(name: &[u8]) -> bool
    ensures { result ≡ is_dropped name.now }
{
    name.starts_with(b"llvm.lifetime.") || name.starts_with(b"llvm.dbg.")
}

#[tactic(auto, unfolding(crate::specs::Words::is_debug))]
fn is_debug_name(text: &[u8]) -> bool
    ensures { result ≡ is_debug text.now }
{
    text.starts_with(b"#dbg_")
}

#[tactic(auto, unfolding(crate::specs::Words::word_class))]
fn class_of_word(word: &[u8]) -> Class
    ensures { result ≡ word_class word.now }
{
    match known_class(word) {
        Some(class) => class,
        None => form_class(word),
    }
}

fn form_class(word: &[u8]) -> Class
    ensures { result ≡ class_by_form word.now }
{
    if is_sized(word) {
        Class::OtherType
    } else {
        Class::OtherWord
    }
}

fn known_class(word: &[u8]) -> Option<Class>
    ensures { result ≡ class_in words word.now }
{
    find_class(&WORDS, word)
}

fn find_class(rows: &[WordClass], word: &[u8]) -> Option<Class>
    ensures { result ≡ class_in (map row_of rows.now) word.now }
{
    for row in rows {
        if row.word == word {
            return Some(row.class);
        }
    }
    None
}

fn is_sized(word: &[u8]) -> bool
    ensures { result ≡ is_integer_type word.now }
{
    match word {
        [] => false,
        [first, rest @ ..] => *first == b'i' && are_all_digits(rest),
    }
}
