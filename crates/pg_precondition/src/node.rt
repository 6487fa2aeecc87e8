//! Nodes: numbers that are computed of an input.

use pg_num::{Bits, Compare, Division, Shift, Width};

/// An operation on two numbers of a width (LLVM Language Reference).
#[derive(Clone, Copy, Debug, PartialEq, Eq)]
pub enum Operation {
    Add,
    Sub,
    Mul,
    Divide(Division),
    Shift(Shift),
    Bits(Bits),
    Compare(Compare),
}

/// A change of a number's width (LLVM Language Reference).
#[derive(Clone, Copy, Debug, PartialEq, Eq)]
pub enum CastKind {
    Trunc,
    Zext,
    Sext,
}

/// How a number is computed of an input. A `u32` other than the bytes of a join is the number of a node that stands
/// before in a list. A division without a value, and all that rests on it, has no number.
#[derive(Clone, Copy, Debug, PartialEq, Eq)]
pub enum Node {
    /// The number itself.
    Const(u64),
    /// The input's number at an index, which is read as a number of 64 bits with a sign; 0 outside of the input.
    In(u32),
    /// How many numbers the input has.
    InLen,
    /// The result of an operation on the operands modulo two to the width.
    Op {
        op: Operation,
        width: Width,
        left: u32,
        right: u32,
    },
    /// The number modulo two to the width `from`, in the width `to`.
    Cast {
        cast: CastKind,
        from: Width,
        to: Width,
        of: u32,
    },
    /// The second where the condition is odd, else the third.
    Select {
        cond: u32,
        yes: u32,
        no: u32,
    },
    /// The word of a pointer, moved by so many bytes, which are read as a number of 64 bits with a sign.
    Gep {
        base: u32,
        delta: u32,
    },
    /// The byte `at` of a number, from 0 to 7, the lowest first.
    Byte {
        of: u32,
        at: u8,
    },
    /// The first `count` parts, from one to eight, each modulo 256, as bytes of a number, the lowest first.
    Join {
        parts: [u32; 8],
        count: u8,
    },
}
