//! The program of `examples/loop.ll`, put together by number.

use anyhow::Result;
use pg_ir::{
    Block, BlockNo, Bytes, Function, GlobalInfo, Incoming, Incomings, Instr, InstrId, Op, Program,
    Scalar, Scalars, ThreadNo, Value,
};
use pg_num::{Compare, Width};
use pg_run_trace::{InstrIds, Replies, Schedule, Turn, TurnKind, Turns};
use std::alloc::Global;

/// An instruction of a block, with the register that it sets.
fn at(block: u32, target: Option<u32>, op: Op) -> Instr {
    Instr {
        op,
        block: BlockNo(block),
        result: target,
    }
}

fn register(r: u32) -> Value {
    Value::Register(r)
}

/// A sum of 64 bits.
fn add(left: Value, right: Value) -> Op {
    Op::Add {
        width: Width::W64,
        left,
        right,
    }
}

/// `phi i64 [ 0, %entry ], [ %next, %loop ]`.
fn counter(alloc: Global) -> Result<Op> {
    let from = vec![in alloc;
        Incoming {
            block: BlockNo(0),
            value: Value::Const(0),
        },
        Incoming {
            block: BlockNo(1),
            value: register(3),
        },
    ]?;
    Ok(Op::Phi {
        from: Incomings::from_vec(from),
    })
}

/// The instructions of the loop: the sum at the global grows by each number below `count`.
fn instrs(alloc: Global, count: u64) -> Result<Vec<Instr>> {
    let sum = Value::Global(0);
    let instrs = vec![in alloc;
        at(0, None, Op::Br { to: BlockNo(1) }),
        at(1, Some(0), counter(alloc)?),
        at(
            1,
            Some(1),
            Op::Load {
                width: Width::W64,
                from: sum
            }
        ),
        at(1, Some(2), add(register(1), register(0))),
        at(
            1,
            None,
            Op::Store {
                width: Width::W64,
                value: register(2),
                at: sum
            }
        ),
        at(1, Some(3), add(register(0), Value::Const(1))),
        at(
            1,
            Some(4),
            Op::Compare {
                op: Compare::Slt,
                width: Width::W64,
                left: register(3),
                right: Value::Const(count),
            }
        ),
        at(
            1,
            None,
            Op::CondBr {
                cond: register(4),
                yes: BlockNo(1),
                no: BlockNo(2)
            }
        ),
        at(
            2,
            None,
            Op::Ret {
                value: Some(Value::Const(0))
            }
        ),
    ]?;
    Ok(instrs)
}

/// The program that counts to `count`.
///
/// # Errors
///
/// Where no memory is left for it.
pub(crate) fn counting(alloc: Global, count: u64) -> Result<Program> {
    let registers = vec![in alloc;
        Scalar::Int(Width::W64),
        Scalar::Int(Width::W64),
        Scalar::Int(Width::W64),
        Scalar::Int(Width::W64),
        Scalar::Int(Width::W1),
    ]?;
    let function = Function {
        params: 0,
        registers: Scalars::from_vec(registers),
        first_block: BlockNo(0),
        blocks: 3,
        result: Some(Scalar::Int(Width::W32)),
    };
    let blocks = vec![in alloc; block(0, 1), block(1, 7), block(8, 1)]?;
    let global = GlobalInfo {
        start: 1,
        size: 8,
        bytes: Bytes::from_vec(Vec::new(alloc)),
    };
    let instrs = instrs(alloc, count)?;
    let functions = vec![in alloc; function]?;
    let globals = vec![in alloc; global]?;
    Ok(Program::new(alloc, functions, blocks, instrs, globals, 0)?)
}

/// A block of so many instructions.
fn block(first: u32, count: u32) -> Block {
    Block {
        function: 0,
        first: InstrId(first),
        count,
    }
}

/// The turns of its run: main's start and its exit.
///
/// # Errors
///
/// Where no memory is left for them.
pub(crate) fn start_and_exit(alloc: Global) -> Result<Schedule> {
    let turns = vec![in alloc; turn(0, TurnKind::Start), turn(8, TurnKind::Exit)]?;
    Ok(Schedule {
        turns: Turns::from_vec(turns),
        replies: Replies::from_vec(Vec::new(alloc)),
        gated: InstrIds::from_vec(Vec::new(alloc)),
    })
}

/// A turn of main at an instruction.
fn turn(at: u32, kind: TurnKind) -> Turn {
    Turn {
        thread: ThreadNo(0),
        instr: InstrId(at),
        kind,
        object: 0,
    }
}
