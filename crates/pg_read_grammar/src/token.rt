//! Tokens with their classes, and how they are refused.

ghost use Rattle.std.specs.Prelude.{◌≡◌};
ghost use Rattle.pg_read_grammar.specs.declared.token.ReadError.TheVariants.{Memory, Refused};

use crate::class::Class;
use pg_read_ast::Bytes;
use pg_read_lex::Span;
use std::alloc::AllocError;

/// A token as the grammar sees it: its class, the bytes that it stands for, and its place.
#[derive(Debug, Drop)]
pub struct Token {
    pub class: Class,
    pub text: Bytes,
    pub span: Span,
}

/// Why a token is refused, where it isn't merely unexpected.
#[derive(Clone, Copy, Debug, PartialEq, Eq)]
pub enum Fault {
    Unsupported,
    TooDeep,
}

/// The number of the refused token, and its fault.
#[derive(Clone, Copy, Debug)]
pub struct ReadRefusal {
    pub fault: Option<Fault>,
    pub at: usize,
}

/// No memory, or a token that is refused.
#[derive(Debug, Drop)]
pub enum ReadError {
    Memory,
    Refused(ReadRefusal),
}

impl From<ReadRefusal> for ReadError {
    ghost from_gives = { λ r e. e ≡ Refused r };

    fn from(refusal: ReadRefusal) -> ReadError {
        ReadError::Refused(refusal)
    }
}

impl From<AllocError> for ReadError {
    ghost from_gives = { λ _ e. e ≡ Memory };

    fn from(_error: AllocError) -> ReadError {
        ReadError::Memory
    }
}
