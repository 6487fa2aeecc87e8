//! Operations on values that may be missing.

ghost use Rattle.std.specs.Prelude.{◌≡◌, ℕ, ◌<◌, Option, length, None, Some, IfSome};
ghost use Rattle.std.specs.List.{AllByRecursion};
ghost use Rattle.pg_ir.specs.pg_num.Numbers.{divided, modulus};
ghost use Rattle.pg_ir.specs.declared.value.Index.{Index};
ghost use Rattle.pg_ir.specs.Operands.{CanRead, CanReadAll};
ghost use Rattle.pg_run_thread.specs.Operands.{argument, operand, operands_of};
ghost use Rattle.pg_run_thread.specs.Compute.{chosen, computed_if, quotient_of, with_value, with_values};
ghost use Rattle.pg_run_thread.specs.Needs.{HasWidth, OperandsFit, moved_each_if};

use crate::compute::{chosen, moved_once, number_of_bool};
use crate::operands::value_of;
use pg_ir::pg_num::{Division, Width, add, bits, compare, divide, mul, sext, shift, sub, trunc};
use pg_ir::{Index, Op, Program, Value};

/// The values of two operands, where both have one.
fn pair_of(p: &Program, registers: &[Option<u64>], left: Value, right: Value) -> Option<(u64, u64)>
    requires left { CanRead p.now (length registers.now) left }
    requires right { CanRead p.now (length registers.now) right }
    ensures left { IfSome result (λ q. operand p.now registers.now left ≡ Some q.0) }
    ensures right { IfSome result (λ q. operand p.now registers.now right ≡ Some q.1) }
    ensures none { result ≡ None → (f : ℕ → ℕ → Option ℕ) → with_values (operand p.now registers.now left) (operand p.now registers.now right) f ≡ None }
{
    let Some(a) = value_of(p, registers, left) else {
        return None;
    };
    let Some(b) = value_of(p, registers, right) else {
        return None;
    };
    Some((a, b))
}

/// The quotient or remainder, if there is one.
fn quotient(op: Division, width: Width, a: u64, b: u64) -> Option<u64>
    requires left { a < modulus width }
    requires right { b < modulus width }
    ensures { result ≡ quotient_of (divided op width a b) }
{
    match divide(op, width, a, b) {
        Ok(n) => Some(n),
        Err(_) => None,
    }
}

/// A pointer moved along indices, if each has a value.
fn moved(p: &Program, registers: &[Option<u64>], word: u64, indices: &[Index]) -> Option<u64>
    requires operands { AllByRecursion (λ (i : Index). CanRead p.now (length registers.now) i.value) indices.now }
    requires widths { AllByRecursion (λ (i : Index). HasWidth p.now registers.now i.width i.value) indices.now }
    ensures { result ≡ moved_each_if p.now registers.now word indices.now }
{
    let mut word = word;
    for index in indices {
        let Some(n) = value_of(p, registers, index.value) else {
            return None;
        };
        word = moved_once(word, index, n);
    }
    Some(word)
}

/// The result of an operation that only computes with its operands: none where one that it reads has no
/// value, where a division has none, or for an operation of another kind.
#[inline(always)]
pub(crate) fn computed_if(p: &Program, registers: &[Option<u64>], op: &Op) -> Option<u64>
    requires operands { CanReadAll p.now (length registers.now) op.now }
    requires widths { OperandsFit p.now registers.now op.now }
    ensures { result ≡ computed_if op.now (argument p.now registers.now (operands_of op.now)) }
{
    match op {
        Op::Add { width, left, right } => match pair_of(p, registers, *left, *right) {
            Some((a, b)) => Some(add(*width, a, b)),
            None => None,
        },
        Op::Sub { width, left, right } => match pair_of(p, registers, *left, *right) {
            Some((a, b)) => Some(sub(*width, a, b)),
            None => None,
        },
        Op::Mul { width, left, right } => match pair_of(p, registers, *left, *right) {
            Some((a, b)) => Some(mul(*width, a, b)),
            None => None,
        },
        Op::Divide {
            op,
            width,
            left,
            right,
        } => match pair_of(p, registers, *left, *right) {
            Some((a, b)) => quotient(*op, *width, a, b),
            None => None,
        },
        Op::Shift {
            op,
            width,
            left,
            right,
        } => match pair_of(p, registers, *left, *right) {
            Some((a, b)) => Some(shift(*op, *width, a, b)),
            None => None,
        },
        Op::Bits {
            op,
            left,
            right,
            ..
        } => match pair_of(p, registers, *left, *right) {
            Some((a, b)) => Some(bits(*op, a, b)),
            None => None,
        },
        Op::Compare {
            op,
            width,
            left,
            right,
        } => match pair_of(p, registers, *left, *right) {
            Some((a, b)) => Some(number_of_bool(compare(*op, *width, a, b))),
            None => None,
        },
        Op::Trunc { to, of, .. } | Op::PtrToInt { to, of, .. } => match value_of(
            p, registers, *of,
        ) {
            Some(n) => Some(trunc(*to, n)),
            None => None,
        },
        Op::Zext { of, .. } | Op::IntToPtr { of, .. } => value_of(p, registers, *of),
        Op::Sext { from, to, of } => match value_of(p, registers, *of) {
            Some(n) => Some(sext(*from, *to, n)),
            None => None,
        },
        Op::Select { cond, yes, no } => select(p, registers, *cond, *yes, *no),
        Op::Gep { base, indices } => match value_of(p, registers, *base) {
            Some(word) => moved(p, registers, word, indices.as_slice()),
            None => None,
        },
        _ => None,
    }
}

/// The result of a `select`, if each operand has a value.
fn select(p: &Program, registers: &[Option<u64>], cond: Value, yes: Value, no: Value) -> Option<u64>
    requires cond { CanRead p.now (length registers.now) cond }
    requires yes { CanRead p.now (length registers.now) yes }
    requires no { CanRead p.now (length registers.now) no }
    ensures { result ≡ with_value (operand p.now registers.now cond) (λ k. with_values (operand p.now registers.now yes) (operand p.now registers.now no) (λ m n. Some (chosen k m n))) }
{
    let Some(k) = value_of(p, registers, cond) else {
        return None;
    };
    match pair_of(p, registers, yes, no) {
        Some((a, b)) => Some(chosen(k, a, b)),
        None => None,
    }
}
