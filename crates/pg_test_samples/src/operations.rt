//! The operations without lists.

use crate::line::Line;
use pg_ir::{BlockNo, Op};

/// The operation of a line that isn't one of arithmetic, a cast or a list: a branch, a return, or an access.
fn control(line: Line) -> Op {
    match line {
        Line::Branch(to) => Op::Br { to: BlockNo(to) },
        Line::BranchIf(cond, yes, no) => Op::CondBr {
            cond,
            yes: BlockNo(yes),
            no: BlockNo(no),
        },
        Line::Return(value) => Op::Ret { value },
        Line::Alloca(bytes) => Op::Alloca { bytes },
        Line::Load(width, from) => Op::Load { width, from },
        Line::Store(width, value, at) => Op::Store { width, value, at },
        _ => Op::Unreachable,
    }
}

/// The operation of a line that isn't one of arithmetic or a list.
fn cast(line: Line) -> Op {
    match line {
        Line::Trunc(from, to, of) => Op::Trunc { from, to, of },
        Line::Zext(from, to, of) => Op::Zext { from, to, of },
        Line::Sext(from, to, of) => Op::Sext { from, to, of },
        Line::PtrToInt(from, to, of) => Op::PtrToInt { from, to, of },
        Line::IntToPtr(from, to, of) => Op::IntToPtr { from, to, of },
        Line::Select(cond, yes, no) => Op::Select { cond, yes, no },
        _ => control(line),
    }
}

/// The operation of a line that has no list.
pub(crate) fn without_list(line: Line) -> Op {
    match line {
        Line::Add(width, left, right) => Op::Add { width, left, right },
        Line::Sub(width, left, right) => Op::Sub { width, left, right },
        Line::Mul(width, left, right) => Op::Mul { width, left, right },
        Line::Divide(op, width, left, right) => Op::Divide {
            op,
            width,
            left,
            right,
        },
        Line::Shifts(op, width, left, right) => Op::Shift {
            op,
            width,
            left,
            right,
        },
        Line::Bitwise(op, width, left, right) => Op::Bits {
            op,
            width,
            left,
            right,
        },
        Line::Compares(op, width, left, right) => Op::Compare {
            op,
            width,
            left,
            right,
        },
        _ => cast(line),
    }
}
