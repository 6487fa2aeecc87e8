//! Where types and values begin.

ghost use Rattle.std.specs.Prelude.{◌≡◌};
ghost use Rattle.pg_read_ast.specs.Views.{ty_of, val_of};
ghost use Rattle.pg_check_rules.specs.Places.{type_span, val_span};

use pg_read_ast::pg_read_lex::Span;
use pg_read_ast::{TypeNode, ValNode};

/// The first token of a type.
pub fn type_span(ty: &TypeNode) -> Span
    ensures { result ≡ type_span (ty_of ty.now) }
{
    match ty {
        TypeNode::I1(span) => *span,
        TypeNode::I8(span) => *span,
        TypeNode::I16(span) => *span,
        TypeNode::I32(span) => *span,
        TypeNode::I64(span) => *span,
        TypeNode::Ptr(span) => *span,
        TypeNode::Void(span) => *span,
        TypeNode::Array(span, _, _) => *span,
        TypeNode::Struct(span, _) => *span,
        TypeNode::Named(name) => name.span,
    }
}

/// The first token of a value.
pub fn val_span(value: &ValNode) -> Span
    ensures { result ≡ val_span (val_of value.now) }
{
    match value {
        ValNode::Int(literal) => literal.span,
        ValNode::True(span) => *span,
        ValNode::False(span) => *span,
        ValNode::Null(span) => *span,
        ValNode::Undef(span) => *span,
        ValNode::Poison(span) => *span,
        ValNode::ZeroInitializer(span) => *span,
        ValNode::Local(name) => name.span,
        ValNode::Global(name) => name.span,
        ValNode::GetElementPtr(span, _, _, _, _) => *span,
        ValNode::IntToPtr(span, _, _, _) => *span,
    }
}
