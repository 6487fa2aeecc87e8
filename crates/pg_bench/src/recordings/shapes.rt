//! Programs whose runs are as long as it is asked: their input is how many rounds a loop has.
ghost use Rattle.std.specs.Prelude.{◌≡◌, ◌-◌, ◌/◌};

use pg_ir::LibraryCall::{PgIn, PgOut, PthreadCreate, PthreadJoin};
use pg_ir::Value::{Const, Function, Global, Register};
use pg_num::Bits::Xor;
use pg_num::Compare::Slt;
use pg_num::Width::{W1, W64};
use pg_test_samples::Line::{
    Add, Alloca, Bitwise, Branch, BranchIf, Call, Compares, Gep, IntToPtr, Knows, Load, Mul, Phi,
    PtrToInt, Return, Store, Trunc,
};
use pg_test_samples::{Body, I1, I32, I64, NULL, PTR, Parts, main_alone, thread_and_main};

/// A program whose run can be long.
#[derive(Clone, Copy, PartialEq, Eq)]
pub(crate) enum Shape {
    /// One thread, in rounds of 500 steps, each of which ends with a print. Ten of its steps are at branches: nine between two
    /// ways that meet again, and the round's last one, which is pinned since the round prints.
    Branches,
    /// Eight threads, in rounds of nine steps, each of which loads and stores an element of one array of 1 MiB. Each round's
    /// branch is pinned, and its two accesses are exact.
    Array,
    /// One thread that sums numbers in rounds of ten steps, with the sum and the counter in its own memory, and prints the
    /// sum where it is odd: all that the sum rests on is fixed, from the last round back.
    Chain,
}

/// Seven steps, an access to the global among them.
const WORK: Body = Body {
    params: 1,
    registers: &[I64, I64, I64, I64, I64, I64],
    returned: Some(I64),
    blocks: &[&[
        (Some(1), Load(W64, Global(0))),
        (Some(2), Add(W64, Register(1), Register(0))),
        (None, Store(W64, Register(2), Global(0))),
        (Some(3), Mul(W64, Register(2), Const(3))),
        (Some(4), Bitwise(Xor, W64, Register(3), Register(0))),
        (Some(5), Add(W64, Register(4), Const(1))),
        (None, Return(Some(Register(5)))),
    ]],
};

/// Forty-nine steps, the fourth from the end of which is at a branch.
const SEGMENT: Body = Body {
    params: 1,
    registers: &[I64, I64, I64, I64, I64, I64, I64, I64, I64, I64, I1],
    returned: Some(I64),
    blocks: &[
        &[
            (Some(1), Call(0, &[Register(0)])),
            (Some(2), Call(0, &[Register(1)])),
            (Some(3), Call(0, &[Register(2)])),
            (Some(4), Call(0, &[Register(3)])),
            (Some(5), Call(0, &[Register(4)])),
            (Some(6), Add(W64, Register(1), Register(2))),
            (Some(7), Add(W64, Register(6), Register(3))),
            (Some(8), Add(W64, Register(7), Register(4))),
            (Some(9), Add(W64, Register(8), Register(5))),
            (Some(10), Compares(Slt, W64, Register(0), Const(100))),
            (None, BranchIf(Register(10), 2, 3)),
        ],
        &[
            (None, Store(W64, Register(0), Global(0))),
            (None, Branch(4)),
        ],
        &[(None, Store(W64, Const(0), Global(0))), (None, Branch(4))],
        &[(None, Return(Some(Register(9))))],
    ],
};

/// The function that is worked, the segments, and main with its rounds.
const BRANCHES: Parts = Parts {
    globals: &[(1, 8, b"")],
    functions: &[
        WORK,
        SEGMENT,
        Body {
            params: 0,
            registers: &[
                I64, I64, I64, I64, I64, I64, I64, I64, I64, I64, I64, I64, I64, I64, I64, I64,
                I64, I64, I64, I64, I64, I64, I64, I1,
            ],
            returned: Some(I32),
            blocks: &[
                &[(Some(0), Knows(PgIn, &[Const(0)])), (None, Branch(6))],
                &[
                    (Some(1), Phi(&[(5, Const(0)), (6, Register(16))])),
                    (Some(2), Call(1, &[Register(1)])),
                    (Some(3), Call(1, &[Register(2)])),
                    (Some(4), Call(1, &[Register(3)])),
                    (Some(5), Call(1, &[Register(4)])),
                    (Some(6), Call(1, &[Register(5)])),
                    (Some(7), Call(1, &[Register(6)])),
                    (Some(8), Call(1, &[Register(7)])),
                    (Some(9), Call(1, &[Register(8)])),
                    (Some(10), Call(1, &[Register(9)])),
                    (Some(11), Call(0, &[Register(10)])),
                    (Some(12), Call(0, &[Register(11)])),
                    (Some(13), Call(0, &[Register(12)])),
                    (Some(14), Call(0, &[Register(13)])),
                    (Some(15), Call(0, &[Register(14)])),
                    (None, Knows(PgOut, &[Register(15)])),
                    (Some(16), Add(W64, Register(1), Const(1))),
                    (Some(17), Add(W64, Register(15), Const(2))),
                    (Some(18), Add(W64, Register(17), Const(3))),
                    (Some(19), Add(W64, Register(18), Const(4))),
                    (Some(20), Add(W64, Register(19), Const(5))),
                    (Some(21), Add(W64, Register(20), Const(6))),
                    (Some(22), Add(W64, Register(21), Const(7))),
                    (Some(23), Compares(Slt, W64, Register(16), Register(0))),
                    (None, BranchIf(Register(23), 6, 7)),
                ],
                &[(None, Return(Some(Const(0))))],
            ],
        },
    ],
    main: 2,
};

/// How many bytes the array has.
const ARRAY_BYTES: u64 = 1_048_576;

/// The eight threads' rounds, each thread's from its own element on, and main, which makes and joins them.
const ARRAY: Parts = thread_and_main!(
    &[(1, 1_048_576, b""), (131_073, 8, b"")],
    &[PTR, I64, I64, I64, I1, I64, PTR, I64, I64, I64],
    &[
        &[
            (Some(1), PtrToInt(W64, W64, Register(0))),
            (Some(2), Knows(PgIn, &[Const(0)])),
            (None, Branch(1)),
        ],
        &[
            (Some(3), Phi(&[(0, Const(0)), (2, Register(9))])),
            (Some(4), Compares(Slt, W64, Register(3), Register(2))),
            (None, BranchIf(Register(4), 2, 3)),
        ],
        &[
            (Some(5), Add(W64, Register(1), Register(3))),
            (
                Some(6),
                Gep(Global(0), &[(Const(0), ARRAY_BYTES), (Register(5), 8)]),
            ),
            (Some(7), Load(W64, Register(6))),
            (Some(8), Add(W64, Register(7), Const(1))),
            (None, Store(W64, Register(8), Register(6))),
            (Some(9), Add(W64, Register(3), Const(1))),
            (None, Branch(1)),
        ],
        &[(None, Return(Some(NULL)))],
    ],
    &[
        PTR, PTR, PTR, PTR, PTR, PTR, PTR, PTR, I32, I32, I32, I32, I32, I32, I32, I32, I32, I32,
        I32, I32, I32, I32, I32, I32,
    ],
    &[&[
        (Some(0), IntToPtr(W64, W64, Const(0))),
        (Some(1), IntToPtr(W64, W64, Const(16_384))),
        (Some(2), IntToPtr(W64, W64, Const(32_768))),
        (Some(3), IntToPtr(W64, W64, Const(49_152))),
        (Some(4), IntToPtr(W64, W64, Const(65_536))),
        (Some(5), IntToPtr(W64, W64, Const(81_920))),
        (Some(6), IntToPtr(W64, W64, Const(98_304))),
        (Some(7), IntToPtr(W64, W64, Const(114_688))),
        (
            Some(8),
            Knows(PthreadCreate, &[Global(1), NULL, Function(0), Register(0)]),
        ),
        (
            Some(9),
            Knows(PthreadCreate, &[Global(1), NULL, Function(0), Register(1)]),
        ),
        (
            Some(10),
            Knows(PthreadCreate, &[Global(1), NULL, Function(0), Register(2)]),
        ),
        (
            Some(11),
            Knows(PthreadCreate, &[Global(1), NULL, Function(0), Register(3)]),
        ),
        (
            Some(12),
            Knows(PthreadCreate, &[Global(1), NULL, Function(0), Register(4)]),
        ),
        (
            Some(13),
            Knows(PthreadCreate, &[Global(1), NULL, Function(0), Register(5)]),
        ),
        (
            Some(14),
            Knows(PthreadCreate, &[Global(1), NULL, Function(0), Register(6)]),
        ),
        (
            Some(15),
            Knows(PthreadCreate, &[Global(1), NULL, Function(0), Register(7)]),
        ),
        (Some(16), Knows(PthreadJoin, &[Const(1), NULL])),
        (Some(17), Knows(PthreadJoin, &[Const(2), NULL])),
        (Some(18), Knows(PthreadJoin, &[Const(3), NULL])),
        (Some(19), Knows(PthreadJoin, &[Const(4), NULL])),
        (Some(20), Knows(PthreadJoin, &[Const(5), NULL])),
        (Some(21), Knows(PthreadJoin, &[Const(6), NULL])),
        (Some(22), Knows(PthreadJoin, &[Const(7), NULL])),
        (Some(23), Knows(PthreadJoin, &[Const(8), NULL])),
        (None, Return(Some(Const(0)))),
    ]]
);

/// Main alone.
const CHAIN: Parts = main_alone!(
    &[],
    &[I64, PTR, PTR, I64, I1, I64, I64, I64, I64, I64, I1],
    &[
        &[
            (Some(0), Knows(PgIn, &[Const(0)])),
            (Some(1), Alloca(8)),
            (None, Store(W64, Const(0), Register(1))),
            (Some(2), Alloca(8)),
            (None, Store(W64, Const(0), Register(2))),
            (None, Branch(1)),
        ],
        &[
            (Some(3), Load(W64, Register(2))),
            (Some(4), Compares(Slt, W64, Register(3), Register(0))),
            (None, BranchIf(Register(4), 2, 3)),
        ],
        &[
            (Some(5), Load(W64, Register(1))),
            (Some(6), Add(W64, Register(5), Register(3))),
            (Some(7), Mul(W64, Register(6), Const(3))),
            (None, Store(W64, Register(7), Register(1))),
            (Some(8), Add(W64, Register(3), Const(1))),
            (None, Store(W64, Register(8), Register(2))),
            (None, Branch(1)),
        ],
        &[
            (Some(9), Load(W64, Register(1))),
            (Some(10), Trunc(W64, W1, Register(9))),
            (None, BranchIf(Register(10), 4, 5)),
        ],
        &[(None, Knows(PgOut, &[Register(9)])), (None, Branch(5))],
        &[(None, Return(Some(Const(0))))],
    ]
);

/// The program.
pub(crate) fn parts_of(shape: Shape) -> Parts {
    match shape {
        Shape::Branches => BRANCHES,
        Shape::Array => ARRAY,
        Shape::Chain => CHAIN,
    }
}

/// How many rounds of `Branches` so many steps hold: the run has four more.
fn branch_rounds(length: u32) -> u32
    ensures { result ≡ (length - 4) / 500 }
{
    length.saturating_sub(4) / 500
}

/// How many rounds of each thread of `Array` so many steps hold: the run has 82 more.
fn array_rounds(length: u32) -> u32
    ensures { result ≡ (length - 82) / 72 }
{
    length.saturating_sub(82) / 72
}

/// How many rounds of `Chain` so many steps hold: the run has 14 more, and 16 where it prints.
fn chain_rounds(length: u32) -> u32
    ensures { result ≡ (length - 16) / 10 }
{
    length.saturating_sub(16) / 10
}

/// How many rounds so many steps hold: the input of the run.
pub(crate) fn rounds_of(shape: Shape, length: u32) -> u32 {
    match shape {
        Shape::Branches => branch_rounds(length),
        Shape::Array => array_rounds(length),
        Shape::Chain => chain_rounds(length),
    }
}

/// How the shape is named in a word.
pub(crate) fn name_of(shape: Shape) -> &'static str {
    match shape {
        Shape::Branches => "branches",
        Shape::Array => "array",
        Shape::Chain => "chain",
    }
}
