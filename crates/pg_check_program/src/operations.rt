//! Operations on numbers, comparisons and conversions.

ghost use Rattle.std.specs.Prelude.{◌≡◌};
ghost use Rattle.pg_ir.specs.declared.instr.Op.TheVariants as operation;
ghost use Rattle.pg_check_rules.specs.Numbered.{binary_op, cast_op};

use pg_ir::{Op, Value};
use pg_num::{Bits, Division, Shift, Width};
use pg_read_ast::{BinaryOp, CastOp};

/// An operation on two integers of a width.
pub(crate) fn binary_op(op: BinaryOp, width: Width, left: Value, right: Value) -> Op
    ensures { result ≡ binary_op op width left right }
{
    match op {
        BinaryOp::Add => Op::Add { width, left, right },
        BinaryOp::Sub => Op::Sub { width, left, right },
        BinaryOp::Mul => Op::Mul { width, left, right },
        BinaryOp::Udiv => divide(Division::Udiv, width, left, right),
        BinaryOp::Sdiv => divide(Division::Sdiv, width, left, right),
        BinaryOp::Urem => divide(Division::Urem, width, left, right),
        BinaryOp::Srem => divide(Division::Srem, width, left, right),
        BinaryOp::Shl => shift(Shift::Shl, width, left, right),
        BinaryOp::Lshr => shift(Shift::Lshr, width, left, right),
        BinaryOp::Ashr => shift(Shift::Ashr, width, left, right),
        BinaryOp::And => bits(Bits::And, width, left, right),
        BinaryOp::Or => bits(Bits::Or, width, left, right),
        BinaryOp::Xor => bits(Bits::Xor, width, left, right),
    }
}

fn divide(op: Division, width: Width, left: Value, right: Value) -> Op
    ensures { result ≡ operation.Divide op width left right }
{
    Op::Divide {
        op,
        width,
        left,
        right,
    }
}

fn shift(op: Shift, width: Width, left: Value, right: Value) -> Op
    ensures { result ≡ operation.Shift op width left right }
{
    Op::Shift {
        op,
        width,
        left,
        right,
    }
}

fn bits(op: Bits, width: Width, left: Value, right: Value) -> Op
    ensures { result ≡ operation.Bits op width left right }
{
    Op::Bits {
        op,
        width,
        left,
        right,
    }
}

/// A conversion of a value from one width to another.
pub(crate) fn cast_op(op: CastOp, from: Width, to: Width, of: Value) -> Op
    ensures { result ≡ cast_op op from to of }
{
    match op {
        CastOp::Trunc => Op::Trunc { from, to, of },
        CastOp::Zext => Op::Zext { from, to, of },
        CastOp::Sext => Op::Sext { from, to, of },
        CastOp::PtrToInt => Op::PtrToInt { from, to, of },
        CastOp::IntToPtr => Op::IntToPtr { from, to, of },
    }
}
