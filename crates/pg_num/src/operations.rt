//! The names of divisions, shifts, bit operations and comparisons.

/// The four divisions of the LLVM Language Reference: quotient and remainder, unsigned and signed.
#[derive(Clone, Copy, Debug, PartialEq, Eq)]
pub enum Division {
    Udiv,
    Sdiv,
    Urem,
    Srem,
}

/// Why a division has no value.
#[derive(Clone, Copy, Debug, PartialEq, Eq)]
pub enum DivideFault {
    /// The divisor is zero.
    Zero,
    /// A signed division or remainder of the least number by -1.
    Overflow,
}

/// The three shifts of the LLVM Language Reference: left, right with zeros, and right with the sign.
#[derive(Clone, Copy, Debug, PartialEq, Eq)]
pub enum Shift {
    Shl,
    Lshr,
    Ashr,
}

/// The three operations on the bits of two values (LLVM Language Reference).
#[derive(Clone, Copy, Debug, PartialEq, Eq)]
pub enum Bits {
    And,
    Or,
    Xor,
}

/// The predicates of `icmp` (LLVM Language Reference).
#[derive(Clone, Copy, Debug, PartialEq, Eq)]
pub enum Compare {
    Eq,
    Ne,
    Ugt,
    Uge,
    Ult,
    Ule,
    Sgt,
    Sge,
    Slt,
    Sle,
}
