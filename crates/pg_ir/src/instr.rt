//! Instructions and their operations.

use crate::ids::BlockNo;
use crate::library_call::LibraryCall;
use crate::lists::{Cases, Incomings, Indices, Values};
use crate::value::Value;
use pg_num::{Bits, Compare, Division, Shift, Width};

/// What an instruction does (LLVM Language Reference, "Instruction Reference"). A value of type `ptr`
/// has the width of 64 bits.
#[derive(Debug, Drop)]
pub enum Op {
    Add {
        width: Width,
        left: Value,
        right: Value,
    },
    Sub {
        width: Width,
        left: Value,
        right: Value,
    },
    Mul {
        width: Width,
        left: Value,
        right: Value,
    },
    Divide {
        op: Division,
        width: Width,
        left: Value,
        right: Value,
    },
    Shift {
        op: Shift,
        width: Width,
        left: Value,
        right: Value,
    },
    Bits {
        op: Bits,
        width: Width,
        left: Value,
        right: Value,
    },
    Compare {
        op: Compare,
        width: Width,
        left: Value,
        right: Value,
    },
    Trunc {
        from: Width,
        to: Width,
        of: Value,
    },
    Zext {
        from: Width,
        to: Width,
        of: Value,
    },
    Sext {
        from: Width,
        to: Width,
        of: Value,
    },
    PtrToInt {
        from: Width,
        to: Width,
        of: Value,
    },
    IntToPtr {
        from: Width,
        to: Width,
        of: Value,
    },
    Select {
        cond: Value,
        yes: Value,
        no: Value,
    },
    /// Done within the step that enters its basic block.
    Phi {
        from: Incomings,
    },
    Br {
        to: BlockNo,
    },
    CondBr {
        cond: Value,
        yes: BlockNo,
        no: BlockNo,
    },
    Switch {
        width: Width,
        on: Value,
        other: BlockNo,
        cases: Cases,
    },
    Call {
        function: u32,
        args: Values,
    },
    Ret {
        value: Option<Value>,
    },
    Unreachable,
    /// `bytes` is the size of the type times the count.
    Alloca {
        bytes: u128,
    },
    Load {
        width: Width,
        from: Value,
    },
    Store {
        width: Width,
        value: Value,
        at: Value,
    },
    Gep {
        base: Value,
        indices: Indices,
    },
    CallLibrary {
        function: LibraryCall,
        args: Values,
    },
}

/// An instruction: its operation, its basic block, and the register that it sets.
#[derive(Debug, Drop)]
pub struct Instr {
    pub op: Op,
    pub block: BlockNo,
    pub result: Option<u32>,
}
