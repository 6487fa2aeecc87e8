//! What a step asks of its operands, going back.

ghost use Rattle.std.specs.Prelude.{◌≡◌, ◌<◌, ◌-◌, ◌∷◌, ℕ, suc, Bool, Some, IfSome, IfOk, OnOk, length, slice_get};
ghost use Rattle.std.specs.List.{AllByRecursion};
ghost use Rattle.pg_ir.specs.declared.value.Value.{Value as AValue};
ghost use Rattle.pg_ir.specs.declared.instr.Op.TheVariants.{Gep};
ghost use Rattle.pg_slice_rules.specs.Known.{SymbolicState};
ghost use Rattle.pg_law_demands.specs.Cells.{IsMet};
ghost use Rattle.pg_law_demands.specs.Back.{back_moved, is_target, of_optional, of_value, of_values, register_demand};
ghost use Rattle.pg_slice_demands.specs.Asked.{asked_of};
ghost use Rattle.pg_slice_back.specs.Met.{AreMet};
ghost use Rattle.pg_slice_back.specs.Leaves.{IsLess, Leaves, Without, all, none};
ghost use Rattle.pg_slice_back.specs.Made.{index_values, made_by};
ghost use Rattle.pg_slice_back.specs.Wanted.{AreWanted};

use pg_ir::{Index, LibraryCall, Op, Value};
use pg_slice_demands::{Call, Demanded};
use std::alloc::{AllocError, Global};

/// The value of an operand in a call has to be known.
pub(crate) fn put_value(
    demanded: &mut Demanded,
    at: Call,
    value: Value,
    whole: bool,
) -> Result<(), AllocError>
    ensures { OnOk result ((s : SymbolicState) → AreMet s demanded.old → AllByRecursion (IsMet s) (of_value at.thread.0 at.depth whole value) → AreMet s demanded.new) }
{
    match value {
        Value::Register(register) => demanded.put_register(at, register, whole),
        _ => Ok(()),
    }
}

/// The value of an operand that there may be has to be known.
///
/// # Errors
///
/// Where no memory is left.
pub fn put_optional(
    demanded: &mut Demanded,
    at: Call,
    value: Option<Value>,
    whole: bool,
) -> Result<(), AllocError>
    ensures { OnOk result ((s : SymbolicState) → AreMet s demanded.old → AllByRecursion (IsMet s) (of_optional at.thread.0 at.depth whole value) → AreMet s demanded.new) }
{
    match value {
        Some(value) => put_value(demanded, at, value, whole),
        None => Ok(()),
    }
}

/// The value with this number.
fn value_at(values: &[Value], i: usize) -> Value
    requires { i < length values.now }
    ensures { slice_get values.now i ≡ Some result }
{
    values[i]
}

/// The values of a list have to be known.
fn put_values(demanded: &mut Demanded, at: Call, values: &[Value]) -> Result<(), AllocError>
    ensures { OnOk result ((s : SymbolicState) → AreMet s demanded.old → AllByRecursion (IsMet s) (of_values at.thread.0 at.depth values.now) → AreMet s demanded.new) }
{
    for i in 0..values.len() {
        put_value(demanded, at, value_at(values, i), true)?;
    }
    Ok(())
}

/// Nothing is asked any more of calls that began after one, and of a register of it that there may be; gives what was asked of
/// that.
pub(crate) fn leave(demanded: &mut Demanded, at: Call, target: Option<u32>) -> Option<bool>
    ensures without { Without at.thread.0 at.depth (is_target target) none demanded.old demanded.new }
    ensures was { IfSome result (λ v. (r : ℕ) × (target ≡ Some r) × (asked_of demanded.old at.thread.0 at.depth r ≡ Some v)) }
{
    demanded.clear_above(at);
    match target {
        Some(register) => demanded.take_register(at, register),
        None => None,
    }
}

/// Nothing is asked any more of the calls of a thread.
pub(crate) fn leave_thread(demanded: &mut Demanded, at: Call)
    ensures { Without at.thread.0 0 all none demanded.old demanded.new }
{
    demanded.clear_calls(Call {
        thread: at.thread,
        depth: 0,
    });
}

/// The value of the index with this number.
fn index_at(indices: &[Index], i: usize) -> Value
    requires { i < length indices.now }
    ensures { slice_get (index_values indices.now) i ≡ Some result }
{
    indices[i].value
}

/// The indices of a `getelementptr` have to be known.
fn put_indices(demanded: &mut Demanded, at: Call, indices: &[Index]) -> Result<(), AllocError>
    ensures { OnOk result ((s : SymbolicState) → AreMet s demanded.old → AllByRecursion (IsMet s) (of_values at.thread.0 at.depth (index_values indices.now))
        → AreMet s demanded.new) }
{
    for i in 0..indices.len() {
        put_value(demanded, at, index_at(indices, i), true)?;
    }
    Ok(())
}

/// All operands of a `getelementptr` have to be known.
fn put_both(
    demanded: &mut Demanded,
    at: Call,
    base: Value,
    indices: &[Index],
) -> Result<(), AllocError>
    ensures { OnOk result ((s : SymbolicState) → AreMet s demanded.old → AllByRecursion (IsMet s) (of_values at.thread.0 at.depth (base ∷ index_values indices.now))
        → AreMet s demanded.new) }
{
    put_value(demanded, at, base, true)?;
    put_indices(demanded, at, indices)?;
    Ok(())
}

/// The operands of a `getelementptr` have to be known: all of them, or the bounds of its base.
fn put_moved(
    demanded: &mut Demanded,
    at: Call,
    base: Value,
    indices: &[Index],
    whole: bool,
) -> Result<(), AllocError>
    ensures { OnOk result ((s : SymbolicState) → AreMet s demanded.old → AllByRecursion (IsMet s) (back_moved at.thread.0 at.depth (Gep base indices.now) whole)
        → AreMet s demanded.new) }
{
    if whole {
        put_both(demanded, at, base, indices)?;
        Ok(())
    } else {
        put_value(demanded, at, base, false)?;
        Ok(())
    }
}

/// The operands have to be known of an operation that computes, for its result to be known.
fn put_operands(demanded: &mut Demanded, at: Call, op: &Op, whole: bool) -> Result<(), AllocError>
    ensures { OnOk result ((s : SymbolicState) → AreMet s demanded.old → AllByRecursion (IsMet s) (made_by at.thread.0 at.depth op.now whole) → AreMet s demanded.new) }
{
    match op {
        Op::Add { left, right, .. }
        | Op::Sub { left, right, .. }
        | Op::Mul { left, right, .. }
        | Op::Divide { left, right, .. }
        | Op::Shift { left, right, .. }
        | Op::Bits { left, right, .. }
        | Op::Compare { left, right, .. } => put_values(demanded, at, &[*left, *right]),
        Op::Trunc { of, .. }
        | Op::Zext { of, .. }
        | Op::Sext { of, .. }
        | Op::PtrToInt { of, .. }
        | Op::IntToPtr { of, .. } => put_values(demanded, at, &[*of]),
        Op::Select { cond, yes, no } => put_values(demanded, at, &[*cond, *yes, *no]),
        Op::Gep { base, indices } => put_moved(demanded, at, *base, indices.as_slice(), whole),
        Op::CallLibrary {
            function: LibraryCall::PgIn,
            args,
        } => put_optional(demanded, at, args.as_slice().first().copied(), true),
        _ => Ok(()),
    }
}

/// Back over a step that sets a register, if there is one: what is asked of that is asked of the operands.
///
/// # Errors
///
/// Where no memory is left.
pub(crate) fn back_result(
    demanded: &mut Demanded,
    at: Call,
    target: Option<u32>,
    op: &Op,
) -> Result<(), AllocError>
    ensures { OnOk result ((after before : SymbolicState) → Leaves at.thread.0 at.depth (is_target target) none after before
        → ((r : ℕ) (v : Bool) → target ≡ Some r → IsMet after (register_demand at.thread.0 at.depth r v) → AllByRecursion (IsMet before) (made_by at.thread.0 at.depth op.now v))
        → AreMet after demanded.old → AreMet before demanded.new) }
{
    match leave(demanded, at, target) {
        Some(whole) => {
            put_operands(demanded, at, op, whole)?;
            Ok(())
        }
        None => Ok(()),
    }
}

/// A value that has to be known, whole or its bounds alone.
#[derive(Clone, Copy)]
pub(crate) struct Wanted {
    pub(crate) value: Value,
    pub(crate) whole: bool,
}

/// The one with this number.
fn wanted_at(wanted: &[Wanted], i: usize) -> Wanted
    requires { i < length wanted.now }
    ensures { slice_get wanted.now i ≡ Some result }
{
    wanted[i]
}

/// The values of a list have to be known.
pub(crate) fn put_wanted(
    demanded: &mut Demanded,
    at: Call,
    wanted: &[Wanted],
) -> Result<(), AllocError>
    ensures { OnOk result ((s : SymbolicState) → AreMet s demanded.old → AreWanted s at.thread.0 at.depth wanted.now → AreMet s demanded.new) }
{
    for i in 0..wanted.len() {
        let one = wanted_at(wanted, i);
        put_value(demanded, at, one.value, one.whole)?;
    }
    Ok(())
}

/// What is asked of a parameter goes to a list, as what is asked of its argument.
fn take_parameter(
    demanded: &mut Demanded,
    at: Call,
    i: usize,
    value: Value,
    wanted: &mut Vec<Wanted>,
) -> Result<(), AllocError>
    ensures less { OnOk result (IsLess demanded.old demanded.new) }
    ensures wanted { OnOk result ((after before : SymbolicState) → AreMet after demanded.old
        → ((v : Bool) → IsMet after (register_demand at.thread.0 (suc at.depth) i v) → AllByRecursion (IsMet before) (of_value at.thread.0 at.depth v value))
        → AreWanted before at.thread.0 at.depth wanted.old.items → AreWanted before at.thread.0 at.depth wanted.new.items) }
{
    if let Some(depth) = at.depth.checked_add(1) {
        if let Ok(register) = u32::try_from(i) {
            let called = Call {
                thread: at.thread,
                depth,
            };
            if let Some(whole) = demanded.take_register(called, register) {
                wanted.push(Wanted { value, whole })?;
            }
        }
    }
    Ok(())
}

/// What is asked of the parameters of a call goes to a list, as what is asked of its arguments.
fn take_parameters(
    alloc: Global,
    demanded: &mut Demanded,
    at: Call,
    args: &[Value],
) -> Result<Vec<Wanted>, AllocError>
    ensures less { OnOk result (IsLess demanded.old demanded.new) }
    ensures wanted { IfOk result (λ v. (after before : SymbolicState) → AreMet after demanded.old
        → ((i : ℕ) (z : AValue) (b : Bool) → slice_get args.now i ≡ Some z
        → IsMet after (register_demand at.thread.0 (suc at.depth) i b) → AllByRecursion (IsMet before) (of_value at.thread.0 at.depth b z))
        → AreWanted before at.thread.0 at.depth v.items) }
{
    let mut wanted = Vec::new(alloc);
    for i in 0..args.len() {
        take_parameter(demanded, at, i, value_at(args, i), &mut wanted)?;
    }
    Ok(wanted)
}

/// Back over a call: what is asked of its parameters is asked of its arguments.
///
/// # Errors
///
/// Where no memory is left.
pub(crate) fn back_call(
    alloc: Global,
    demanded: &mut Demanded,
    at: Call,
    target: Option<u32>,
    args: &[Value],
) -> Result<(), AllocError>
    ensures { OnOk result ((after before : SymbolicState) → Leaves at.thread.0 at.depth (is_target target) none after before
        → ((i : ℕ) (z : AValue) (b : Bool) → slice_get args.now i ≡ Some z
        → IsMet after (register_demand at.thread.0 (suc at.depth) i b) → AllByRecursion (IsMet before) (of_value at.thread.0 at.depth b z))
        → AreMet after demanded.old → AreMet before demanded.new) }
{
    let wanted = take_parameters(alloc, demanded, at, args)?;
    let _was = leave(demanded, at, target);
    put_wanted(demanded, at, wanted.as_slice())?;
    Ok(())
}

/// Back over a return: what is asked of the caller's register that it sets is asked of the value that is returned.
///
/// # Errors
///
/// Where no memory is left.
pub(crate) fn back_return(
    demanded: &mut Demanded,
    at: Call,
    target: Option<u32>,
    value: Option<Value>,
) -> Result<(), AllocError>
    requires { 0 < at.depth }
    ensures { OnOk result ((after before : SymbolicState) → Leaves at.thread.0 (at.depth - 1) (is_target target) none after before
        → ((r : ℕ) (v : Bool) → target ≡ Some r → IsMet after (register_demand at.thread.0 (at.depth - 1) r v)
        → AllByRecursion (IsMet before) (of_optional at.thread.0 at.depth v value))
        → AreMet after demanded.old → AreMet before demanded.new) }
{
    let caller = Call {
        thread: at.thread,
        depth: at.depth - 1,
    };
    match leave(demanded, caller, target) {
        Some(whole) => {
            put_optional(demanded, at, value, whole)?;
            Ok(())
        }
        None => Ok(()),
    }
}
