//! Values and constants, as they are written.

use crate::names::{Literal, Name};
use crate::types::TypeNode;
use pg_read_lex::Span;

/// A value and the type that is written before it.
#[cycle(values)]
#[derive(Drop)]
pub struct TypedVal {
    pub ty: TypeNode,
    pub value: ValNode,
}

/// A value. Its span is that of its first token.
#[cycle(values)]
#[derive(Drop)]
pub enum ValNode {
    Int(Literal),
    True(Span),
    False(Span),
    Null(Span),
    Undef(Span),
    Poison(Span),
    ZeroInitializer(Span),
    Local(Name),
    Global(Name),
    /// The type that the indices walk, the pointer's type, the pointer, and the indices.
    GetElementPtr(Span, TypeNode, TypeNode, Box<ValNode>, Vec<TypedVal>),
    /// The type of the integer, the integer, and the type of the result.
    IntToPtr(Span, TypeNode, Literal, TypeNode),
}

/// A constant and the type that is written before it.
#[cycle(constants)]
#[derive(Drop)]
pub struct TypedConst {
    pub ty: TypeNode,
    pub value: ConstNode,
}

/// A constant. Its span is that of its first token.
#[cycle(constants)]
#[derive(Drop)]
pub enum ConstNode {
    Val(ValNode),
    /// The bytes of `c".."`.
    Bytes(Literal),
    Array(Span, Vec<TypedConst>),
    Struct(Span, Vec<TypedConst>),
}
