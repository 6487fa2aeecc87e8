//! Operators and operations, as they are written.

use crate::names::{Literal, Name};
use crate::types::TypeNode;
use crate::values::{TypedVal, ValNode};
use pg_read_lex::Span;
use pg_read_lex::pg_num::Compare;

/// An operation on two integers.
#[derive(Clone, Copy, Debug, PartialEq, Eq)]
pub enum BinaryOp {
    Add,
    Sub,
    Mul,
    Udiv,
    Sdiv,
    Urem,
    Srem,
    Shl,
    Lshr,
    Ashr,
    And,
    Or,
    Xor,
}

/// A conversion to another type.
#[derive(Clone, Copy, Debug, PartialEq, Eq)]
pub enum CastOp {
    Trunc,
    Zext,
    Sext,
    PtrToInt,
    IntToPtr,
}

/// An argument of a call.
pub type ArgNode = TypedVal;

/// A value of a `phi`, and the block that it comes from.
#[derive(Drop)]
pub struct IncomingNode {
    pub value: ValNode,
    pub block: Name,
}

/// A case of a `switch`.
#[derive(Drop)]
pub struct CaseNode {
    pub value: TypedVal,
    pub block: Name,
}

/// The types that a call may write for its callee's parameters, and whether dots follow them.
#[derive(Drop)]
pub struct CallTypes {
    pub types: Vec<TypeNode>,
    pub dots: bool,
}

/// The number of elements of an `alloca`, and its type.
#[derive(Drop)]
pub struct CountNode {
    pub ty: TypeNode,
    pub count: Literal,
}

/// An instruction. Its `span` is that of its first token.
#[derive(Drop)]
pub enum OpNode {
    Binary {
        span: Span,
        op: BinaryOp,
        ty: TypeNode,
        left: ValNode,
        right: ValNode,
    },
    Icmp {
        span: Span,
        predicate: Compare,
        ty: TypeNode,
        left: ValNode,
        right: ValNode,
    },
    /// `ty` is the type to which the value is converted.
    Cast {
        span: Span,
        op: CastOp,
        value: TypedVal,
        ty: TypeNode,
    },
    Select {
        span: Span,
        condition: TypedVal,
        yes: TypedVal,
        no: TypedVal,
    },
    /// The values stand at the type `ty`; there is at least one.
    Phi {
        span: Span,
        ty: TypeNode,
        first: IncomingNode,
        others: Vec<IncomingNode>,
    },
    Br {
        span: Span,
        block: Name,
    },
    CondBr {
        span: Span,
        condition: TypedVal,
        yes: Name,
        no: Name,
    },
    /// `other` is the block of each value that has no case.
    Switch {
        span: Span,
        value: TypedVal,
        other: Name,
        cases: Vec<CaseNode>,
    },
    /// `ty` is the type of the result, and `written` what is written of the callee's parameters.
    Call {
        span: Span,
        ty: TypeNode,
        written: Option<CallTypes>,
        callee: Name,
        arguments: Vec<ArgNode>,
    },
    /// A return without a value; `void` is the place of that word.
    RetVoid {
        span: Span,
        void: Span,
    },
    Ret {
        span: Span,
        value: TypedVal,
    },
    Unreachable {
        span: Span,
    },
    /// One element of the type `ty`, or as many as `count` says.
    Alloca {
        span: Span,
        ty: TypeNode,
        count: Option<CountNode>,
    },
    /// `ty` is the type that is loaded.
    Load {
        span: Span,
        ty: TypeNode,
        pointer: TypedVal,
    },
    Store {
        span: Span,
        value: TypedVal,
        pointer: TypedVal,
    },
    /// `ty` is the type that the indices walk.
    GetElementPtr {
        span: Span,
        ty: TypeNode,
        pointer: TypedVal,
        indices: Vec<TypedVal>,
    },
}
