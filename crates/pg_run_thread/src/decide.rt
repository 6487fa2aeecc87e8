//! The action of each operation: what the next step asks.
//!
//! This is one of three matches over `Op`, beside those of `steps` and `advance`: docs/CONTRIBUTING.md says why there are three.

ghost use Rattle.std.specs.Prelude.{◌≡◌, ◌<◌, ◌≤◌, ◌^◌, length, true, false, if◌then◌else◌};
ghost use Rattle.std.specs.List.{AllByRecursion};
ghost use Rattle.pg_ir.specs.pg_num.Numbers.{divided, modulus};
ghost use Rattle.pg_ir.specs.pg_num.declared.limits.TheConstants.{THREAD_REGISTER_LIMIT};
ghost use Rattle.pg_ir.specs.declared.request.TrapName.TheVariants as traps;
ghost use Rattle.pg_ir.specs.Operands.{CanRead, CanReadAll, CanReadReturned, CanGoOn};
ghost use Rattle.pg_run_thread.specs.declared.action.Action.TheVariants as actions;
ghost use Rattle.pg_run_thread.specs.Operands.{operand, operands_of};
ghost use Rattle.pg_run_thread.specs.Step.{bytes_of, edge_action, call_action, return_action, returning_action, divided_action, op_action, on_all, on_value, on_place, has_room};
ghost use Rattle.pg_ir.specs.WellFormed.{granules_for};
ghost use Rattle.pg_run_thread.specs.Needs.{EndsBlock, HasWidth, OperandsFit, IsBranch, IsPlain, block_taken};

use crate::action::Action;
use crate::edges::{edge_of, have_values};
use crate::library::{fault_action, library_action};
use crate::operands::{are_set, has_value, have_index_values, value_of};
use crate::present::Present;
use crate::thread_memory::{ThreadMemory, granules_for, has_room};
use pg_ir::pg_num::limits::{CALL_DEPTH_LIMIT, THREAD_REGISTER_LIMIT};
use pg_ir::pg_num::{DivideFault, Division, Width, divide, place};
use pg_ir::{Instr, Op, Program, Request, TrapName, Value};

/// A step by itself where the operands have values, else the trap.
fn local_if(are_set: bool) -> Action
    ensures { result ≡ (if are_set then actions.Local else actions.Trap traps.Unset) }
{
    if are_set {
        Action::Local
    } else {
        Action::Trap(TrapName::Unset)
    }
}

/// The action of an operation that only computes, and can't trap but for an operand that was never set.
fn plain_action(p: &Program, registers: &[Option<u64>], op: &Op) -> Action
    requires plain { IsPlain op.now }
    requires operands { CanReadAll p.now (length registers.now) op.now }
    ensures { result ≡ on_all p.now registers.now (operands_of op.now) actions.Local }
{
    match op {
        Op::Add { left, right, .. }
        | Op::Sub { left, right, .. }
        | Op::Mul { left, right, .. }
        | Op::Shift { left, right, .. }
        | Op::Bits { left, right, .. }
        | Op::Compare { left, right, .. } => local_if(are_set(p, registers, &[*left, *right])),
        Op::Trunc { of, .. }
        | Op::Zext { of, .. }
        | Op::Sext { of, .. }
        | Op::PtrToInt { of, .. }
        | Op::IntToPtr { of, .. } => local_if(has_value(p, registers, *of)),
        Op::Select { cond, yes, no } => local_if(are_set(p, registers, &[*cond, *yes, *no])),
        Op::Gep { base, indices } => {
            local_if(
                has_value(p, registers, *base)
                    && have_index_values(p, registers, indices.as_slice()),
            )
        }
        _ => Action::Local,
    }
}

/// The action of a division or remainder.
fn divide_action(
    p: &Program,
    registers: &[Option<u64>],
    op: Division,
    width: Width,
    left: Value,
    right: Value,
) -> Action
    requires left { CanRead p.now (length registers.now) left }
    requires right { CanRead p.now (length registers.now) right }
    requires left_width { HasWidth p.now registers.now width left }
    requires right_width { HasWidth p.now registers.now width right }
    ensures { result ≡ on_value (operand p.now registers.now left) (λ m. on_value (operand p.now registers.now right) (λ n. divided_action (divided op width m n))) }
{
    let Some(a) = value_of(p, registers, left) else {
        return Action::Trap(TrapName::Unset);
    };
    let Some(b) = value_of(p, registers, right) else {
        return Action::Trap(TrapName::Unset);
    };
    match divide(op, width, a, b) {
        Ok(_) => Action::Local,
        Err(DivideFault::Zero) => Action::Trap(TrapName::DivideByZero),
        Err(DivideFault::Overflow) => Action::Trap(TrapName::DivideOverflow),
    }
}

/// The action of a branch, by the number of its condition: the `phi`s of the block that is entered are
/// read at the branch.
#[tactic(auto, using(crate::proofs::EdgeValues::along_set, crate::proofs::EdgeValues::along_reads, crate::proofs::BranchTargets::taken_enters), unfolding(crate::specs::Step::edge_action))]
fn branch_action(p: &Program, registers: &[Option<u64>], instr: &Instr, n: u64) -> Action
    requires branch { IsBranch instr.now.op }
    requires ends { EndsBlock p.now instr.now }
    requires edges { CanGoOn p.now (length registers.now) instr.now.op }
    ensures { result ≡ edge_action p.now registers.now instr.now.block.0 (block_taken n instr.now.op) }
{
    let edge = edge_of(p, instr, n);
    local_if(have_values(p, registers, p.values_along(instr.block, edge)))
}

/// The action of a call of a function, whose operands have values.
#[tactic(auto, unfolding(crate::specs::Step::call_action, pg_ir::specs::Program::types_of))]
fn call_action(p: &Program, g: u32, depth: u32, used: u32) -> Action
    requires function { g < length p.now.functions }
    requires used { used ≤ THREAD_REGISTER_LIMIT }
    ensures { result ≡ call_action p.now g depth used }
{
    if depth >= CALL_DEPTH_LIMIT {
        Action::Trap(TrapName::CallDepth)
    } else if used as usize + p.function(g).registers.as_slice().len()
        <= THREAD_REGISTER_LIMIT as usize
    {
        Action::Local
    } else {
        Action::Trap(TrapName::Registers)
    }
}

/// The action of a return: in the first frame it is the exit.
fn return_action(depth: u32, value: u64) -> Action
    ensures { result ≡ return_action depth value }
{
    if depth == 1 {
        Action::Event(Request::Exit {
            value,
            is_return: true,
        })
    } else {
        Action::Local
    }
}

fn returning_action(
    p: &Program,
    registers: &[Option<u64>],
    depth: u32,
    value: Option<Value>,
) -> Action
    requires { CanReadReturned p.now (length registers.now) value }
    ensures { result ≡ returning_action p.now registers.now depth value }
{
    match value {
        None => return_action(depth, 0),
        Some(value) => match value_of(p, registers, value) {
            Some(n) => return_action(depth, n),
            None => Action::Trap(TrapName::Unset),
        },
    }
}

/// How many bytes a value of a width takes in memory.
fn bytes_of(width: Width) -> u8
    ensures { result ≡ bytes_of width }
{
    match width {
        Width::W1 | Width::W8 => 1,
        Width::W16 => 2,
        Width::W32 => 4,
        Width::W64 => 8,
    }
}

/// The action of an allocation on the stack.
fn alloca_action(memory: ThreadMemory, bytes: u128) -> Action
    ensures { result ≡ (if has_room memory (granules_for bytes) then actions.Local else actions.Trap traps.StackFull) }
{
    if has_room(memory, granules_for(bytes)) {
        Action::Local
    } else {
        Action::Trap(TrapName::StackFull)
    }
}

fn load_action(p: &Program, registers: &[Option<u64>], width: Width, from: Value) -> Action
    requires { CanRead p.now (length registers.now) from }
    ensures { result ≡ on_value (operand p.now registers.now from) (λ a. on_place a (bytes_of width) (λ q. actions.Load q)) }
{
    let Some(word) = value_of(p, registers, from) else {
        return Action::Trap(TrapName::Unset);
    };
    match place(word, bytes_of(width)) {
        Ok(at) => Action::Load(at),
        Err(fault) => fault_action(fault),
    }
}

fn store_action(
    p: &Program,
    registers: &[Option<u64>],
    width: Width,
    value: Value,
    at: Value,
) -> Action
    requires value { CanRead p.now (length registers.now) value }
    requires at { CanRead p.now (length registers.now) at }
    ensures { result ≡ on_value (operand p.now registers.now value) (λ n. on_value (operand p.now registers.now at) (λ a. on_place a (bytes_of width) (λ q. actions.Store q n))) }
{
    let Some(n) = value_of(p, registers, value) else {
        return Action::Trap(TrapName::Unset);
    };
    let Some(word) = value_of(p, registers, at) else {
        return Action::Trap(TrapName::Unset);
    };
    match place(word, bytes_of(width)) {
        Ok(at) => Action::Store(at, n),
        Err(fault) => fault_action(fault),
    }
}

/// The action of the present instruction.
pub(crate) fn action_of(p: &Program, here: &Present, instr: &Instr) -> Action
    requires operands { CanReadAll p.now (length here.now.registers.now) instr.now.op }
    requires edges { CanGoOn p.now (length here.now.registers.now) instr.now.op }
    requires widths { OperandsFit p.now here.now.registers.now instr.now.op }
    requires ends { EndsBlock p.now instr.now }
    requires used { here.now.used ≤ THREAD_REGISTER_LIMIT }
    ensures { result ≡ op_action p.now here.now.memory here.now.halfway here.now.registers.now here.now.depth here.now.used instr.now.block.0 instr.now.op }
{
    let registers = here.registers;
    match &instr.op {
        Op::Divide {
            op,
            width,
            left,
            right,
        } => divide_action(p, registers, *op, *width, *left, *right),
        Op::Phi { .. } => Action::Ended,
        Op::Br { .. } => branch_action(p, registers, instr, 0),
        Op::CondBr { cond, .. } => match value_of(p, registers, *cond) {
            Some(n) => branch_action(p, registers, instr, n),
            None => Action::Trap(TrapName::Unset),
        },
        Op::Switch { on, .. } => match value_of(p, registers, *on) {
            Some(n) => branch_action(p, registers, instr, n),
            None => Action::Trap(TrapName::Unset),
        },
        Op::Call { args, .. } if !are_set(p, registers, args.as_slice()) => Action::Trap(
            TrapName::Unset,
        ),
        Op::Call { function, .. } => call_action(p, *function, here.depth, here.used),
        Op::Ret { value } => returning_action(p, registers, here.depth, *value),
        Op::Unreachable => Action::Trap(TrapName::Unreachable),
        Op::Alloca { bytes } => alloca_action(here.memory, *bytes),
        Op::Load { width, from } => load_action(p, registers, *width, *from),
        Op::Store { width, value, at } => store_action(p, registers, *width, *value, *at),
        Op::CallLibrary { function, args } => library_action(p, *here, *function, args.as_slice()),
        op => plain_action(p, registers, op),
    }
}
