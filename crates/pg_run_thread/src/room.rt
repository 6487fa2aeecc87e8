//! Registers in a list with room.

ghost use Rattle.std.specs.Prelude.{◌≡◌, ◌<◌, ◌≤◌, ◌+◌, ◌-◌, ◌++◌, ◌∷◌, [], drop, length, map, replicate, Some, None, IfOk, vec_len, vec_capacity};
ghost use Rattle.std.specs.List.{AllByRecursion};
ghost use Rattle.pg_ir.specs.Operands.{CanRead};
ghost use Rattle.pg_run_thread.specs.Operands.{operand};

use crate::head::Head;
use crate::operands::value_of;
use pg_ir::{Program, Value};
use std::alloc::{AllocError, Global};

/// This many unset registers, with room for `room` in all.
pub(crate) fn reserved(
    alloc: Global,
    count: usize,
    room: usize,
) -> Result<Vec<Option<u64>>, AllocError>
    requires { count ≤ room }
    ensures items { IfOk result (λ v. v.items ≡ replicate count None) }
    ensures room { IfOk result (λ v. room ≤ vec_capacity v) }
{
    let mut registers = Vec::with_capacity(alloc, room)?;
    for _ in 0..count {
        push_value(&mut registers, None);
    }
    Ok(registers)
}

/// Pushes where there is room.
pub(crate) fn push_head(heads: &mut Vec<Head>, head: Head)
    requires { vec_len heads.old < vec_capacity heads.old }
    ensures items { heads.new.items ≡ heads.old.items ++ head ∷ [] }
    ensures len { vec_len heads.new ≡ vec_len heads.old + 1 }
    ensures room { vec_capacity heads.old ≤ vec_capacity heads.new }
{
    if let Err(_) = heads.push(head) {
        unreachable!();
    }
}

/// Pushes where there is room.
pub(crate) fn push_value(values: &mut Vec<Option<u64>>, value: Option<u64>)
    requires { vec_len values.old < vec_capacity values.old }
    ensures items { values.new.items ≡ values.old.items ++ value ∷ [] }
    ensures len { vec_len values.new ≡ vec_len values.old + 1 }
    ensures room { vec_capacity values.old ≤ vec_capacity values.new }
{
    if let Err(_) = values.push(value) {
        unreachable!();
    }
}

/// Pushes the values that the arguments of a call have in the frame from `base` on.
fn push_arguments(p: &Program, registers: &mut Vec<Option<u64>>, base: usize, args: &[Value])
    requires base { base ≤ length registers.old.items }
    requires operands { AllByRecursion (CanRead p.now (length (drop base registers.old.items))) args.now }
    requires room { vec_len registers.old + length args.now ≤ vec_capacity registers.old }
    ensures items { registers.new.items ≡ registers.old.items ++ map (operand p.now (drop base registers.old.items)) args.now }
    ensures len { vec_len registers.new ≡ vec_len registers.old + length args.now }
    ensures room { vec_capacity registers.old ≤ vec_capacity registers.new }
{
    let used = registers.len();
    for arg in args {
        let value = value_of(p, &registers[base..used], *arg);
        push_value(registers, value);
    }
}

/// Pushes this many unset registers.
fn push_unset(registers: &mut Vec<Option<u64>>, count: usize)
    requires { vec_len registers.old + count ≤ vec_capacity registers.old }
    ensures items { registers.new.items ≡ registers.old.items ++ replicate count None }
    ensures room { vec_capacity registers.old ≤ vec_capacity registers.new }
{
    for _ in 0..count {
        push_value(registers, None);
    }
}

/// Pushes the registers of a new frame: its parameters first, which get the values that the arguments
/// have in the frame from `base` on, and the others unset.
pub(crate) fn push_call(
    p: &Program,
    registers: &mut Vec<Option<u64>>,
    base: usize,
    args: &[Value],
    count: usize,
)
    requires base { base ≤ length registers.old.items }
    requires operands { AllByRecursion (CanRead p.now (length (drop base registers.old.items))) args.now }
    requires parameters { length args.now ≤ count }
    requires room { vec_len registers.old + count ≤ vec_capacity registers.old }
    ensures items { registers.new.items ≡ registers.old.items ++ (map (operand p.now (drop base registers.old.items)) args.now ++ replicate (count - length args.now) None) }
    ensures room { vec_capacity registers.old ≤ vec_capacity registers.new }
{
    push_arguments(p, registers, base, args);
    push_unset(registers, count - args.len());
}
