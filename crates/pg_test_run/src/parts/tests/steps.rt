//! The last action of small programs, where it stands, and what the step before it told.

ghost use Rattle.pg_run_thread.specs.States.{IsOf};

use pg_ir::LibraryCall::{Malloc, PthreadExit, PthreadMutexInit};
use pg_ir::Value::{Const, Register};
use pg_ir::{InstrId, Program, Request, ThreadNo, TrapName};
use pg_num::Width::{W8, W32, W64};
use pg_num::{Compare, Division};
use pg_run_thread::{Action, Fiber};
use pg_test_samples::Line::{
    Add, Alloca, Branch, BranchIf, Call, Compares, Divide, Knows, Load, Phi, Return, Unreachable,
};
use pg_test_samples::{Body, I1, I8, I32, I64, Line, PTR, Parts, build, main_alone};
use std::alloc::Global;
use std::test::Fail;

/// The granule at which the memory of main begins, as it stands in a pointer.
const THREAD_MEMORY: u64 = 0x8000_0000_0000_0000;

/// One granule, and the length of eight bytes, as they stand in a pointer.
const GRANULE: u64 = 0x400_0000_0000;

const EIGHT_BYTES: u64 = 0x100_0000;

/// All bytes of a thread's memory.
const WHOLE_THREAD_MEMORY: u64 = 262_144;

/// A place for an object, at the sixth eight bytes of the first granule, and four bytes behind that.
const OBJECT: u64 = GRANULE + 5 * EIGHT_BYTES;

const BEHIND_OBJECT: u64 = GRANULE + 5 * EIGHT_BYTES + 4;

/// `ret i32 0`.
const END: (Option<u32>, Line) = (None, Return(Some(Const(0))));

/// Two registers that are 1 and 2, and then change their numbers; the second is returned.
const SWAP: Parts = main_alone!(
    &[],
    &[I32, I32, I1],
    &[
        &[(None, Branch(1))],
        &[
            (Some(0), Phi(&[(0, Const(1)), (1, Register(1))])),
            (Some(1), Phi(&[(0, Const(2)), (1, Register(0))])),
            (Some(2), Compares(Compare::Eq, W32, Register(0), Const(2))),
            (None, BranchIf(Register(2), 2, 1)),
        ],
        &[(None, Return(Some(Register(1))))],
    ]
);

/// Main returns 0.
const RETURN: Action = Action::Event(Request::Exit {
    value: 0,
    is_return: true,
});

const DIVIDE_BY_ZERO: Parts = main_alone!(
    &[],
    &[I32],
    &[&[
        (Some(0), Divide(Division::Sdiv, W32, Const(1), Const(0))),
        END,
    ]]
);

const DIVIDE_OVERFLOW: Parts = main_alone!(
    &[],
    &[I8],
    &[&[
        (Some(0), Divide(Division::Sdiv, W8, Const(128), Const(255))),
        END,
    ]]
);

const OUT_OF_RANGE: Parts = main_alone!(
    &[],
    &[I64],
    &[&[(Some(0), Load(W64, Const(GRANULE + EIGHT_BYTES + 1))), END]]
);

const MISALIGNED: Parts = main_alone!(
    &[],
    &[I64],
    &[&[
        (Some(0), Load(W64, Const(GRANULE + 2 * EIGHT_BYTES + 4))),
        END,
    ]]
);

const UNSET: Parts = main_alone!(
    &[],
    &[I32, I32],
    &[&[(Some(0), Add(W32, Const(0), Register(1))), END]]
);

const UNREACHABLE: Parts = main_alone!(
    &[],
    &[I32],
    &[&[(Some(0), Add(W32, Const(0), Const(7))), (None, Unreachable)]]
);

const CALL_DEPTH: Parts = main_alone!(&[], &[I32], &[&[(Some(0), Call(0, &[])), END]]);

const REGISTERS: Parts = main_alone!(
    &[],
    &[
        I32, I32, I32, I32, I32, I32, I32, I32, I32, I32, I32, I32, I32, I32, I32, I32, I32, I32,
        I32, I32, I32, I32, I32, I32, I32, I32, I32, I32, I32, I32, I32, I32, I32, I32, I32, I32,
        I32, I32, I32, I32, I32, I32, I32, I32, I32, I32, I32, I32, I32, I32, I32, I32, I32, I32,
        I32, I32, I32, I32, I32, I32, I32, I32, I32, I32, I32,
    ],
    &[&[(Some(0), Call(0, &[])), END]]
);

const STACK_FULL: Parts = main_alone!(&[], &[PTR], &[&[(Some(0), Alloca(262_145)), END]]);

const BAD_ATTRIBUTE: Parts = main_alone!(
    &[],
    &[I32],
    &[&[
        (Some(0), Knows(PthreadMutexInit, &[Const(OBJECT), Const(8)])),
        END,
    ]]
);

const PLACE_BEFORE_ATTRIBUTE: Parts = main_alone!(
    &[],
    &[I32],
    &[&[
        (
            Some(0),
            Knows(PthreadMutexInit, &[Const(BEHIND_OBJECT), Const(8)]),
        ),
        END,
    ]]
);

const EXIT_OF_MAIN: Parts = main_alone!(
    &[],
    &[],
    &[&[(None, Knows(PthreadExit, &[Const(5)])), END]]
);

const MALLOC_TWICE: Parts = main_alone!(
    &[],
    &[PTR, PTR],
    &[&[
        (Some(0), Knows(Malloc, &[Const(8)])),
        (Some(1), Knows(Malloc, &[Const(8)])),
        END,
    ]]
);

const MALLOC_FULL: Parts = main_alone!(
    &[],
    &[PTR, PTR],
    &[&[
        (Some(0), Knows(Malloc, &[Const(WHOLE_THREAD_MEMORY)])),
        (Some(1), Knows(Malloc, &[Const(8)])),
        END,
    ]]
);

const STACK_AGAIN: Parts = Parts {
    globals: &[],
    functions: &[
        Body {
            params: 0,
            registers: &[PTR],
            returned: Some(I32),
            blocks: &[&[(None, Call(1, &[])), (Some(0), Alloca(8)), END]],
        },
        Body {
            params: 0,
            registers: &[PTR],
            returned: None,
            blocks: &[&[(Some(0), Alloca(8)), (None, Return(None))]],
        },
    ],
    main: 0,
};

/// A program and its name, its last action, where that stands, and what the step before it told.
const ROWS: [(&str, Parts, Action, u32, u64); 16] = [
    (
        "divide by zero",
        DIVIDE_BY_ZERO,
        Action::Trap(TrapName::DivideByZero),
        0,
        0,
    ),
    (
        "divide overflow",
        DIVIDE_OVERFLOW,
        Action::Trap(TrapName::DivideOverflow),
        0,
        0,
    ),
    (
        "out of range",
        OUT_OF_RANGE,
        Action::Trap(TrapName::OutOfRange),
        0,
        0,
    ),
    (
        "misaligned",
        MISALIGNED,
        Action::Trap(TrapName::Misaligned),
        0,
        0,
    ),
    ("unset", UNSET, Action::Trap(TrapName::Unset), 0, 0),
    (
        "unreachable",
        UNREACHABLE,
        Action::Trap(TrapName::Unreachable),
        1,
        7,
    ),
    (
        "call depth",
        CALL_DEPTH,
        Action::Trap(TrapName::CallDepth),
        0,
        0,
    ),
    (
        "registers",
        REGISTERS,
        Action::Trap(TrapName::Registers),
        0,
        0,
    ),
    (
        "stack full",
        STACK_FULL,
        Action::Trap(TrapName::StackFull),
        0,
        0,
    ),
    (
        "bad attribute",
        BAD_ATTRIBUTE,
        Action::Trap(TrapName::BadAttribute),
        0,
        0,
    ),
    (
        "place before attribute",
        PLACE_BEFORE_ATTRIBUTE,
        Action::Trap(TrapName::Misaligned),
        0,
        0,
    ),
    (
        "exit of main",
        EXIT_OF_MAIN,
        Action::Event(Request::Exit {
            value: 0,
            is_return: false,
        }),
        0,
        0,
    ),
    (
        "malloc twice",
        MALLOC_TWICE,
        RETURN,
        2,
        THREAD_MEMORY + 32_766 * GRANULE + EIGHT_BYTES,
    ),
    ("malloc full", MALLOC_FULL, RETURN, 2, 0),
    (
        "stack again",
        STACK_AGAIN,
        RETURN,
        2,
        THREAD_MEMORY + EIGHT_BYTES,
    ),
    (
        "swap",
        SWAP,
        Action::Event(Request::Exit {
            value: 1,
            is_return: true,
        }),
        5,
        0,
    ),
];

/// Steps, each with the answer 0, up to a trap or an exit.
fn run(p: &Program, fiber: &mut Fiber) -> (Action, InstrId, u64)
    requires { IsOf p.now fiber.old }
{
    let mut told = 0;
    for _ in 0..1_000 {
        let action = fiber.next(p);
        match action {
            Action::Trap(_) | Action::Ended | Action::Event(Request::Exit { .. }) => {
                return (action, fiber.id(), told);
            }
            _ => told = fiber.resume(p, 0),
        }
    }
    (Action::Ended, fiber.id(), told)
}

/// How a program ends.
fn last_action(alloc: Global, parts: &Parts) -> Result<(Action, InstrId, u64), Fail> {
    let program = build(alloc, parts)?;
    let mut fiber = Fiber::new(alloc, &program, ThreadNo(0), program.main())?;
    Ok(run(&program, &mut fiber))
}

#[test]
fn last_actions(rt: HostRuntime) -> Result<(), Fail> {
    for (name, parts, action, at, told) in &ROWS {
        let last = last_action(rt.alloc(), parts)?;
        assert_eq!(rt; last, (*action, InstrId(*at), *told), "at {name}");
    }
    Ok(())
}
