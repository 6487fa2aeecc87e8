//! What events and allocations ask of their operands, the arguments of calls of functions that the program doesn't define.

ghost use Rattle.std.specs.Prelude.{◌≡◌, true, [], Some, IfSome, OnOk, if◌then◌else◌, slice_get};
ghost use Rattle.std.specs.List.{AllByRecursion};
ghost use Rattle.pg_run_thread.specs.Operands.{operands_of};
ghost use Rattle.pg_run_trace.specs.declared.step.StepKind.TheVariants as kinds;
ghost use Rattle.pg_run_trace.specs.Steps.{access_by};
ghost use Rattle.pg_slice_rules.specs.Known.{SymbolicState, Seen};
ghost use Rattle.pg_slice_rules.specs.Moments.{thread_in};
ghost use Rattle.pg_slice_rules.specs.Rules as rules;
ghost use Rattle.pg_slice_rules.specs.Rules.{all_of};
ghost use Rattle.pg_law_least.specs.Keeps.{depth_of};
ghost use Rattle.pg_law_demands.specs.Cells.{IsMet};
ghost use Rattle.pg_law_demands.specs.Back.{of_operand};
ghost use Rattle.pg_law_demands.specs.Demands.{checked_demands, kind_demands, operand_demands, write_demands};
ghost use Rattle.pg_slice_rules.specs.Known.{Taken};
ghost use Rattle.pg_slice_back.specs.Met.{AreMet};

use crate::moves::put_optional;
use pg_ir::{Instr, LibraryCall, Op, Value};
use pg_run_trace::{Event, TurnKind, Write};
use pg_slice_demands::{Call, Demanded};
use pg_slice_passes::is_malloc;
use pg_slice_passes::pg_slice_checks::{checked_of, is_start};
use std::alloc::AllocError;

/// The value with this number, if there is one.
fn value_if(values: &[Value], i: usize) -> Option<Value>
    ensures { result ≡ slice_get values.now i }
{
    values.get(i).copied()
}

/// The argument with this number of a call of a function that the program doesn't define.
fn argument(op: &Op, i: usize) -> Option<Value>
    ensures { IfSome result (λ v. slice_get (operands_of op.now) i ≡ Some v) }
{
    match op {
        Op::CallLibrary { args, .. } => value_if(args.as_slice(), i),
        _ => None,
    }
}

/// An argument has to be known, whole or by its bounds alone.
///
/// # Errors
///
/// Where no memory is left.
pub fn put_argument(
    demanded: &mut Demanded,
    at: Call,
    op: &Op,
    i: usize,
    whole: bool,
) -> Result<(), AllocError>
    ensures { OnOk result ((s : SymbolicState) → AllByRecursion (IsMet s) (of_operand at.thread.0 at.depth whole op.now i) → AreMet s demanded.old → AreMet s demanded.new) }
{
    put_optional(demanded, at, argument(op, i), whole)?;
    Ok(())
}

/// The operands of an event that are checked have to be known.
fn put_checked(demanded: &mut Demanded, at: Call, instr: &Instr) -> Result<(), AllocError>
    ensures { OnOk result ((s : SymbolicState) (y : Seen) → thread_in y.moment ≡ at.thread.0 → depth_of y ≡ at.depth
        → AllByRecursion (IsMet s) (all_of (operand_demands y instr.now true) (rules.checked_of instr.now.op))
        → AreMet s demanded.old → AreMet s demanded.new) }
{
    for i in 0..checked_of(&instr.op) {
        put_argument(demanded, at, &instr.op, i, true)?;
    }
    Ok(())
}

/// What an event asks that calls a function: a start asks for nothing.
fn put_called(
    demanded: &mut Demanded,
    at: Call,
    instr: &Instr,
    kind: TurnKind,
) -> Result<(), AllocError>
    ensures { OnOk result ((s : SymbolicState) (y : Seen) → thread_in y.moment ≡ at.thread.0 → depth_of y ≡ at.depth
        → AllByRecursion (IsMet s) (checked_demands y instr.now kind) → AreMet s demanded.old → AreMet s demanded.new) }
{
    if is_start(kind) {
        return Ok(());
    }
    put_checked(demanded, at, instr)?;
    Ok(())
}

/// The operand that is the address of what an event writes.
fn write_index(op: &Op) -> usize
    ensures { result ≡ rules.write_index op.now }
{
    match op {
        Op::CallLibrary { function, .. } => {
            if matches!(function, LibraryCall::PthreadJoin) {
                1
            } else {
                0
            }
        }
        _ => 0,
    }
}

/// The bounds of the address have to be known to which an event writes, if it writes.
fn put_written(
    demanded: &mut Demanded,
    at: Call,
    instr: &Instr,
    write: Option<Write>,
) -> Result<(), AllocError>
    ensures { OnOk result ((s : SymbolicState) (y : Seen) → thread_in y.moment ≡ at.thread.0 → depth_of y ≡ at.depth
        → AllByRecursion (IsMet s) (write_demands y instr.now (access_by write)) → AreMet s demanded.old → AreMet s demanded.new) }
{
    match write {
        Some(_) => {
            put_argument(demanded, at, &instr.op, write_index(&instr.op), false)?;
            Ok(())
        }
        None => Ok(()),
    }
}

/// What an event asks: its operands that are checked, and the bounds of the address to which it writes.
pub(crate) fn put_event(
    demanded: &mut Demanded,
    at: Call,
    instr: &Instr,
    event: &Event,
) -> Result<(), AllocError>
    ensures { OnOk result ((d : Taken) (s : SymbolicState) (y : Seen) → thread_in y.moment ≡ at.thread.0 → depth_of y ≡ at.depth
        → AllByRecursion (IsMet s) (kind_demands d y instr.now (kinds.Event event.now))
        → AreMet s demanded.old → AreMet s demanded.new) }
{
    put_called(demanded, at, instr, event.kind)?;
    put_written(demanded, at, instr, event.write)?;
    Ok(())
}

/// What an allocation asks: the size of a `malloc`.
pub(crate) fn put_size(demanded: &mut Demanded, at: Call, op: &Op) -> Result<(), AllocError>
    ensures { OnOk result ((s : SymbolicState) → AllByRecursion (IsMet s) (if rules.is_malloc op.now then of_operand at.thread.0 at.depth true op.now 0 else [])
        → AreMet s demanded.old → AreMet s demanded.new) }
{
    if is_malloc(op) {
        put_argument(demanded, at, op, 0, true)?;
        return Ok(());
    }
    Ok(())
}
