//! The values of operands.

ghost use Rattle.std.specs.Prelude.{◌≡◌, ◌<◌, ◌∷◌, [], length, map, slice_get};
ghost use Rattle.std.specs.List.{AllByRecursion};
ghost use Rattle.pg_ir.specs.declared.edge.Case.{Case};
ghost use Rattle.pg_ir.specs.declared.edge.Incoming.{Incoming};
ghost use Rattle.pg_ir.specs.declared.value.Index.{Index};
ghost use Rattle.pg_ir.specs.declared.value.Value.TheVariants.{Const};
ghost use Rattle.pg_ir.specs.Operands.{CanRead, CanReadAll};
ghost use Rattle.pg_run_thread.specs.Operands.{operand, optional_operand, argument, given, number_at, pointer_to, operands_of, first_four};
ghost use Rattle.pg_run_thread.specs.EdgeStep.{is_set};
ghost use Rattle.pg_run_thread.specs.Step.{are_set};

use pg_ir::pg_num::{Pointer, pack};
use pg_ir::{Case, Incoming, Index, Op, Program, Value};

/// The pointer to the first byte of a global.
fn global_pointer(p: &Program, g: u32) -> u64
    requires { g < length p.now.globals }
    ensures { pointer_to (slice_get p.now.globals g) ≡ Some result }
{
    let global = p.global(g);
    pack(Pointer {
        start: global.start,
        length: global.size,
        offset: 0,
    })
}

/// The value of an operand, none where it is a register that was never set.
pub(crate) fn value_of(p: &Program, registers: &[Option<u64>], of: Value) -> Option<u64>
    requires { CanRead p.now (length registers.now) of }
    ensures { result ≡ operand p.now registers.now of }
{
    match of {
        Value::Register(r) => registers[r as usize],
        Value::Const(n) => Some(n),
        Value::Global(g) => Some(global_pointer(p, g)),
        Value::Function(f) => Some(f as u64),
    }
}

/// The value of an operand, 0 where it is a register that was never set.
pub(crate) fn number_of(p: &Program, registers: &[Option<u64>], of: Value) -> u64
    requires { CanRead p.now (length registers.now) of }
    ensures { result ≡ given (operand p.now registers.now of) }
{
    match value_of(p, registers, of) {
        Some(n) => n,
        None => 0,
    }
}

/// Whether an operand has a value.
pub(crate) fn has_value(p: &Program, registers: &[Option<u64>], of: Value) -> bool
    requires { CanRead p.now (length registers.now) of }
    ensures { result ≡ is_set (operand p.now registers.now of) }
{
    match value_of(p, registers, of) {
        Some(_) => true,
        None => false,
    }
}

/// Whether each of the operands has a value.
pub(crate) fn are_set(p: &Program, registers: &[Option<u64>], args: &[Value]) -> bool
    requires { AllByRecursion (CanRead p.now (length registers.now)) args.now }
    ensures { result ≡ are_set p.now registers.now args.now }
{
    for arg in args {
        if !has_value(p, registers, *arg) {
            return false;
        }
    }
    true
}

/// Whether each of the indices has a value.
pub(crate) fn have_index_values(p: &Program, registers: &[Option<u64>], indices: &[Index]) -> bool
    requires { AllByRecursion (λ (i : Index). CanRead p.now (length registers.now) i.value) indices.now }
    ensures { result ≡ are_set p.now registers.now (map (λ (i : Index). i.value) indices.now) }
{
    for index in indices {
        if !has_value(p, registers, index.value) {
            return false;
        }
    }
    true
}

/// The value of the argument with this index, none where there is no such argument or it was never
/// set.
pub(crate) fn argument_of(
    p: &Program,
    registers: &[Option<u64>],
    args: &[Value],
    i: usize,
) -> Option<u64>
    requires { AllByRecursion (CanRead p.now (length registers.now)) args.now }
    ensures { result ≡ argument p.now registers.now args.now i }
{
    match args.get(i) {
        Some(arg) => value_of(p, registers, *arg),
        None => None,
    }
}

/// The value of the argument with this index, 0 where there is none.
pub(crate) fn argument_number(
    p: &Program,
    registers: &[Option<u64>],
    args: &[Value],
    i: usize,
) -> u64
    requires { AllByRecursion (CanRead p.now (length registers.now)) args.now }
    ensures { result ≡ number_at p.now registers.now args.now i }
{
    match argument_of(p, registers, args, i) {
        Some(n) => n,
        None => 0,
    }
}

/// The number of the index with this number, 0 where there is none.
fn index_number(p: &Program, registers: &[Option<u64>], indices: &[Index], i: usize) -> u64
    requires { AllByRecursion (λ (x : Index). CanRead p.now (length registers.now) x.value) indices.now }
    ensures { result ≡ number_at p.now registers.now (map (λ (x : Index). x.value) indices.now) i }
{
    match indices.get(i) {
        Some(index) => number_of(p, registers, index.value),
        None => 0,
    }
}

/// The number of the value of a `phi` with this number, 0 where there is none.
fn incoming_number(p: &Program, registers: &[Option<u64>], from: &[Incoming], i: usize) -> u64
    requires { AllByRecursion (λ (x : Incoming). CanRead p.now (length registers.now) x.value) from.now }
    ensures { result ≡ number_at p.now registers.now (map (λ (x : Incoming). x.value) from.now) i }
{
    match from.get(i) {
        Some(listed) => number_of(p, registers, listed.value),
        None => 0,
    }
}

/// The number of the case with this number, 0 where there is none.
fn case_number(p: &Program, registers: &[Option<u64>], cases: &[Case], i: usize) -> u64
    ensures { result ≡ number_at p.now registers.now (map (λ (x : Case). Const x.value) cases.now) i }
{
    match cases.get(i) {
        Some(case) => case.value,
        None => 0,
    }
}

fn four(p: &Program, registers: &[Option<u64>], args: &[Value]) -> [u64; 4]
    requires { AllByRecursion (CanRead p.now (length registers.now)) args.now }
    ensures { result ≡ first_four p.now registers.now args.now }
{
    [
        argument_number(p, registers, args, 0),
        argument_number(p, registers, args, 1),
        argument_number(p, registers, args, 2),
        argument_number(p, registers, args, 3),
    ]
}

/// The values of one operand.
fn one(p: &Program, registers: &[Option<u64>], of: Value) -> [u64; 4]
    requires { CanRead p.now (length registers.now) of }
    ensures { result ≡ first_four p.now registers.now (of ∷ []) }
{
    [number_of(p, registers, of), 0, 0, 0]
}

/// The values of two operands.
fn two(p: &Program, registers: &[Option<u64>], left: Value, right: Value) -> [u64; 4]
    requires left { CanRead p.now (length registers.now) left }
    requires right { CanRead p.now (length registers.now) right }
    ensures { result ≡ first_four p.now registers.now (left ∷ right ∷ []) }
{
    [
        number_of(p, registers, left),
        number_of(p, registers, right),
        0,
        0,
    ]
}

/// The values of an operation's first four operands.
pub(crate) fn operand_numbers(p: &Program, registers: &[Option<u64>], op: &Op) -> [u64; 4]
    requires { CanReadAll p.now (length registers.now) op.now }
    ensures { result ≡ first_four p.now registers.now (operands_of op.now) }
{
    match op {
        Op::Add { left, right, .. }
        | Op::Sub { left, right, .. }
        | Op::Mul { left, right, .. }
        | Op::Divide { left, right, .. }
        | Op::Shift { left, right, .. }
        | Op::Bits { left, right, .. }
        | Op::Compare { left, right, .. } => two(p, registers, *left, *right),
        Op::Trunc { of, .. }
        | Op::Zext { of, .. }
        | Op::Sext { of, .. }
        | Op::PtrToInt { of, .. }
        | Op::IntToPtr { of, .. } => one(p, registers, *of),
        Op::Select { cond, yes, no } => four(p, registers, &[*cond, *yes, *no]),
        Op::CondBr { cond, .. } => one(p, registers, *cond),
        Op::Load { from, .. } => one(p, registers, *from),
        Op::Store { value, at, .. } => two(p, registers, *value, *at),
        Op::Ret { value: Some(value) } => one(p, registers, *value),
        Op::Ret { value: None } | Op::Br { .. } | Op::Unreachable | Op::Alloca { .. } => [0; 4],
        Op::Call { args, .. } | Op::CallLibrary { args, .. } => four(p, registers, args.as_slice()),
        Op::Phi { from } => incoming_numbers(p, registers, from.as_slice()),
        Op::Switch { on, cases, .. } => switch_numbers(p, registers, *on, cases.as_slice()),
        Op::Gep { base, indices } => index_numbers(p, registers, *base, indices.as_slice()),
    }
}

fn incoming_numbers(p: &Program, registers: &[Option<u64>], from: &[Incoming]) -> [u64; 4]
    requires { AllByRecursion (λ (x : Incoming). CanRead p.now (length registers.now) x.value) from.now }
    ensures { result ≡ first_four p.now registers.now (map (λ (x : Incoming). x.value) from.now) }
{
    [
        incoming_number(p, registers, from, 0),
        incoming_number(p, registers, from, 1),
        incoming_number(p, registers, from, 2),
        incoming_number(p, registers, from, 3),
    ]
}

fn switch_numbers(p: &Program, registers: &[Option<u64>], on: Value, cases: &[Case]) -> [u64; 4]
    requires { CanRead p.now (length registers.now) on }
    ensures { result ≡ first_four p.now registers.now (on ∷ map (λ (x : Case). Const x.value) cases.now) }
{
    [
        number_of(p, registers, on),
        case_number(p, registers, cases, 0),
        case_number(p, registers, cases, 1),
        case_number(p, registers, cases, 2),
    ]
}

fn index_numbers(p: &Program, registers: &[Option<u64>], base: Value, indices: &[Index]) -> [u64; 4]
    requires base { CanRead p.now (length registers.now) base }
    requires indices { AllByRecursion (λ (x : Index). CanRead p.now (length registers.now) x.value) indices.now }
    ensures { result ≡ first_four p.now registers.now (base ∷ map (λ (x : Index). x.value) indices.now) }
{
    [
        number_of(p, registers, base),
        index_number(p, registers, indices, 0),
        index_number(p, registers, indices, 1),
        index_number(p, registers, indices, 2),
    ]
}
