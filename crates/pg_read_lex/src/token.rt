//! Spans, tokens by their form, lexical faults.

use thiserror::Error;

/// A part of the text: the bytes from `start` to before `end`.
#[derive(Clone, Copy, Debug, PartialEq, Eq)]
pub struct Span {
    pub start: u32,
    pub end: u32,
}

/// What a token is by its form.
#[derive(Clone, Copy, Debug, PartialEq, Eq)]
pub enum TokenKind {
    /// A name or a string directly before a colon, which belongs to it.
    Label,
    /// Digits, after a minus sign or not.
    Int,
    /// Three dots.
    Dots,
    /// The letter `c` directly before a string.
    CStr,
    /// A run that begins with a letter or `_`.
    Word,
    /// Any other run.
    Odd,
    /// A string.
    Str,
    /// `%` and a name or a string.
    Local,
    /// `@` and a name or a string.
    Global,
    /// `!`, before a run or alone.
    Meta,
    /// `#` and a run.
    Attr,
    OpenRound,
    CloseRound,
    OpenBrace,
    CloseBrace,
    OpenSquare,
    CloseSquare,
    Less,
    Greater,
    Comma,
    Equals,
    Star,
    Bar,
    Colon,
}

/// A token and its place.
#[derive(Clone, Copy, Debug, PartialEq, Eq)]
pub struct Token {
    pub kind: TokenKind,
    pub span: Span,
}

/// Why a text has no tokens: the first place at which no token begins, or want of memory.
#[derive(Clone, Copy, Debug, PartialEq, Eq, Drop, Error)]
pub enum LexFault {
    /// The byte at this place begins no token.
    #[error("no token begins at byte {0}")]
    BadByte(u32),
    /// The string that begins with the quote at this place has no end.
    #[error("the string at byte {0} has no end")]
    OpenString(u32),
    #[error("out of memory")]
    OutOfMemory,
}

/// What a text begins with, and its number of bytes.
#[derive(Clone, Copy, Debug, PartialEq, Eq)]
pub enum Piece {
    /// Blank space or a comment.
    Gap(usize),
    /// A token.
    Whole(TokenKind, usize),
    /// A byte that begins no token.
    Bad,
    /// A string without an end, and the number of bytes before its quote.
    Open(usize),
}
