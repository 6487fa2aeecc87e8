//! Types of registers, and operands.

use pg_num::Width;

/// The type of a register: an integer of a width, or a pointer, which has 64 bits.
#[derive(Clone, Copy, Debug, PartialEq, Eq)]
pub enum Scalar {
    Int(Width),
    Ptr,
}

/// An operand: a register of the function, a constant, a global's pointer, or a function's name.
#[derive(Clone, Copy, Debug, PartialEq, Eq)]
pub enum Value {
    Register(u32),
    Const(u64),
    Global(u32),
    Function(u32),
}

/// How an index of a `getelementptr` moves the pointer.
#[derive(Clone, Copy, Debug, PartialEq, Eq)]
pub enum Scale {
    /// By this number of bytes for each unit of the index.
    Times(u64),
    /// To the field of a structure at this number of bytes.
    Field(u32),
}

/// An index of a `getelementptr`: its operand, the width by which that is read as a signed number,
/// and how it moves the pointer.
#[derive(Clone, Copy, Debug, PartialEq, Eq)]
pub struct Index {
    pub value: Value,
    pub width: Width,
    pub scale: Scale,
}
