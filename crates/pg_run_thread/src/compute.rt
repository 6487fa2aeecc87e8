//! Operations that only compute.

ghost use Rattle.std.specs.Prelude.{◌≡◌, ◌<◌, length};
ghost use Rattle.std.specs.List.{AllByRecursion};
ghost use Rattle.pg_ir.specs.declared.value.Index.{Index};
ghost use Rattle.pg_ir.specs.Operands.{CanRead, CanReadAll};
ghost use Rattle.pg_ir.specs.pg_num.Numbers.{divided, modulus};
ghost use Rattle.pg_ir.specs.pg_num.Pointers.{moved_by};
ghost use Rattle.pg_run_thread.specs.Operands.{operand, given, number_at, operands_of};
ghost use Rattle.pg_run_thread.specs.Compute.{computed, chosen, number_of_bool, quotient_or_zero, index_bytes};
ghost use Rattle.pg_run_thread.specs.Needs.{HasKind, HasWidth, OperandsFit, moved_each};

use crate::operands::number_of;
use pg_ir::pg_num::{
    Division, Width, add, bits, compare, divide, move_by, move_by_index, mul, sext, shift, sub,
    trunc,
};
use pg_ir::{Index, Op, Program, Scale, Value};

/// The numbers of two operands.
fn pair(p: &Program, registers: &[Option<u64>], left: Value, right: Value) -> (u64, u64)
    requires left { CanRead p.now (length registers.now) left }
    requires right { CanRead p.now (length registers.now) right }
    ensures left { result.0 ≡ given (operand p.now registers.now left) }
    ensures right { result.1 ≡ given (operand p.now registers.now right) }
{
    (
        number_of(p, registers, left),
        number_of(p, registers, right),
    )
}

/// The result of an operation that only computes with its operands, by their numbers; 0 for one of
/// another kind.
pub(crate) fn computed_of(p: &Program, registers: &[Option<u64>], op: &Op) -> u64
    requires operands { CanReadAll p.now (length registers.now) op.now }
    requires widths { OperandsFit p.now registers.now op.now }
    ensures { result ≡ computed op.now (number_at p.now registers.now (operands_of op.now)) }
{
    match op {
        Op::Add { width, left, right } => {
            let (a, b) = pair(p, registers, *left, *right);
            add(*width, a, b)
        }
        Op::Sub { width, left, right } => {
            let (a, b) = pair(p, registers, *left, *right);
            sub(*width, a, b)
        }
        Op::Mul { width, left, right } => {
            let (a, b) = pair(p, registers, *left, *right);
            mul(*width, a, b)
        }
        Op::Divide { .. } | Op::Shift { .. } | Op::Bits { .. } | Op::Compare { .. } => by_kind(
            p, registers, op,
        ),
        Op::Trunc { to, of, .. } | Op::PtrToInt { to, of, .. } => trunc(
            *to,
            number_of(p, registers, *of),
        ),
        Op::Zext { of, .. } | Op::IntToPtr { of, .. } => number_of(p, registers, *of),
        Op::Sext { from, to, of } => sext(*from, *to, number_of(p, registers, *of)),
        Op::Select { cond, yes, no } => {
            let (a, b) = pair(p, registers, *yes, *no);
            chosen(number_of(p, registers, *cond), a, b)
        }
        Op::Gep { base, indices } => moved(
            p,
            registers,
            number_of(p, registers, *base),
            indices.as_slice(),
        ),
        _ => 0,
    }
}

/// The result of an operation that has a kind: a division, a shift, an operation on bits or a comparison.
fn by_kind(p: &Program, registers: &[Option<u64>], op: &Op) -> u64
    requires kind { HasKind op.now }
    requires operands { CanReadAll p.now (length registers.now) op.now }
    requires widths { OperandsFit p.now registers.now op.now }
    ensures { result ≡ computed op.now (number_at p.now registers.now (operands_of op.now)) }
{
    match op {
        Op::Divide {
            op,
            width,
            left,
            right,
        } => quotient(
            *op,
            *width,
            number_of(p, registers, *left),
            number_of(p, registers, *right),
        ),
        Op::Shift {
            op,
            width,
            left,
            right,
        } => shift(
            *op,
            *width,
            number_of(p, registers, *left),
            number_of(p, registers, *right),
        ),
        Op::Bits {
            op,
            left,
            right,
            ..
        } => bits(
            *op,
            number_of(p, registers, *left),
            number_of(p, registers, *right),
        ),
        Op::Compare {
            op,
            width,
            left,
            right,
        } => {
            let (a, b) = pair(p, registers, *left, *right);
            number_of_bool(compare(*op, *width, a, b))
        }
        _ => 0,
    }
}

/// The quotient or remainder, 0 where there is none.
fn quotient(op: Division, width: Width, a: u64, b: u64) -> u64
    requires left { a < modulus width }
    requires right { b < modulus width }
    ensures { result ≡ quotient_or_zero (divided op width a b) }
{
    match divide(op, width, a, b) {
        Ok(n) => n,
        Err(_) => 0,
    }
}

pub(crate) fn number_of_bool(holds: bool) -> u64
    ensures { result ≡ number_of_bool holds }
{
    if holds { 1 } else { 0 }
}

/// The first number where the condition isn't 0, else the second.
pub(crate) fn chosen(cond: u64, first: u64, second: u64) -> u64
    ensures { result ≡ chosen cond first second }
{
    if cond == 0 { second } else { first }
}

/// A pointer moved by an index.
pub(crate) fn moved_once(word: u64, index: &Index, n: u64) -> u64
    requires { n < modulus index.now.width }
    ensures { result ≡ moved_by word (index_bytes index.now index.now.scale n) }
{
    match index.scale {
        Scale::Times(bytes) => move_by_index(word, index.width, n, bytes),
        Scale::Field(bytes) => move_by(word, bytes as i64),
    }
}

/// A pointer moved along indices.
fn moved(p: &Program, registers: &[Option<u64>], word: u64, indices: &[Index]) -> u64
    requires operands { AllByRecursion (λ (i : Index). CanRead p.now (length registers.now) i.value) indices.now }
    requires widths { AllByRecursion (λ (i : Index). HasWidth p.now registers.now i.width i.value) indices.now }
    ensures { result ≡ moved_each p.now registers.now word indices.now }
{
    let mut word = word;
    for index in indices {
        let n = number_of(p, registers, index.value);
        word = moved_once(word, index, n);
    }
    word
}
