//! What an instruction of a sample does, as plain data.

use pg_ir::{LibraryCall, Value};
use pg_num::{Bits, Compare, Division, Shift, Width};

/// What an instruction does: an operation of a program, with its lists as plain data. Blocks and functions are named by
/// their numbers in the program.
#[derive(Clone, Copy)]
pub enum Line {
    Add(Width, Value, Value),
    Sub(Width, Value, Value),
    Mul(Width, Value, Value),
    Divide(Division, Width, Value, Value),
    Shifts(Shift, Width, Value, Value),
    Bitwise(Bits, Width, Value, Value),
    Compares(Compare, Width, Value, Value),
    /// From the first width to the second.
    Trunc(Width, Width, Value),
    /// From the first width to the second.
    Zext(Width, Width, Value),
    /// From the first width to the second.
    Sext(Width, Width, Value),
    /// From the first width to the second.
    PtrToInt(Width, Width, Value),
    /// From the first width to the second.
    IntToPtr(Width, Width, Value),
    /// The condition, the value where it holds, and the other.
    Select(Value, Value, Value),
    /// From which block each value comes.
    Phi(&'static [(u32, Value)]),
    Branch(u32),
    BranchIf(Value, u32, u32),
    /// The value, the block for all others, and the block of each case's number.
    Switch(Width, Value, u32, &'static [(u64, u32)]),
    Call(u32, &'static [Value]),
    Return(Option<Value>),
    Unreachable,
    Alloca(u128),
    Load(Width, Value),
    /// The value, and its place.
    Store(Width, Value, Value),
    /// The pointer, and each index of 64 bits with how many bytes it steps over.
    Gep(Value, &'static [(Value, u64)]),
    /// A call of a known function.
    Knows(LibraryCall, &'static [Value]),
}
