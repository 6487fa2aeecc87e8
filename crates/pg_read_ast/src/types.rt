//! Types, as they are written.

use crate::names::{Literal, Name};
use pg_read_lex::Span;

/// A type. Its span is that of its first token.
#[derive(Drop)]
pub enum TypeNode {
    I1(Span),
    I8(Span),
    I16(Span),
    I32(Span),
    I64(Span),
    Ptr(Span),
    Void(Span),
    /// The number of elements and their type.
    Array(Span, Literal, Box<TypeNode>),
    Struct(Span, Vec<TypeNode>),
    Named(Name),
}
