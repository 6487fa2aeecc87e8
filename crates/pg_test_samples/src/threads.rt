//! Programs that make and join threads.

use crate::line::Line::{
    Add, Alloca, Branch, BranchIf, Compares, Divide, IntToPtr, Knows, Load, Phi, PtrToInt, Return,
    Store,
};
use crate::parts::{Body, I1, I32, I64, NULL, PTR, Parts};
use crate::sample::Sample;
use crate::thread_and_main;
use pg_ir::LibraryCall::{PgIn, PgInLen, PgOut, PthreadCreate, PthreadJoin};
use pg_ir::Value::{Const, Function, Global, Register};
use pg_num::Width::W64;
use pg_num::{Compare, Division};

const TWO_THAT_DIVIDE: Parts = Parts {
    globals: &[(1, 8, b""), (2, 8, b""), (3, 8, b"")],
    functions: &[
        Body {
            params: 1,
            registers: &[PTR, I64, I64, I64, I1, I64, I64, I64, I64, PTR],
            returned: Some(PTR),
            blocks: &[
                &[(Some(1), Knows(PgInLen, &[])), (None, Branch(1))],
                &[
                    (Some(2), Phi(&[(0, Const(0)), (2, Register(8))])),
                    (Some(3), Phi(&[(0, Const(0)), (2, Register(7))])),
                    (
                        Some(4),
                        Compares(Compare::Slt, W64, Register(2), Register(1)),
                    ),
                    (None, BranchIf(Register(4), 2, 3)),
                ],
                &[
                    (Some(5), Knows(PgIn, &[Register(2)])),
                    (
                        Some(6),
                        Divide(Division::Sdiv, W64, Const(100), Register(5)),
                    ),
                    (Some(7), Add(W64, Register(3), Register(6))),
                    (Some(8), Add(W64, Register(2), Const(1))),
                    (None, Branch(1)),
                ],
                &[
                    (Some(9), IntToPtr(W64, W64, Register(3))),
                    (None, Return(Some(Register(9)))),
                ],
            ],
        },
        Body {
            params: 0,
            registers: &[I32, I32, I64, I64, I32, I32, I64],
            returned: Some(I32),
            blocks: &[&[
                (None, Knows(PgOut, &[Const(7)])),
                (
                    Some(0),
                    Knows(PthreadCreate, &[Global(0), NULL, Function(0), NULL]),
                ),
                (
                    Some(1),
                    Knows(PthreadCreate, &[Global(1), NULL, Function(2), NULL]),
                ),
                (Some(2), Load(W64, Global(0))),
                (Some(3), Load(W64, Global(1))),
                (Some(4), Knows(PthreadJoin, &[Register(2), Global(2)])),
                (Some(5), Knows(PthreadJoin, &[Register(3), NULL])),
                (Some(6), Load(W64, Global(2))),
                (None, Knows(PgOut, &[Register(6)])),
                (None, Return(Some(Const(0)))),
            ]],
        },
        Body {
            params: 1,
            registers: &[PTR, I64, I64],
            returned: Some(PTR),
            blocks: &[&[
                (Some(1), Knows(PgIn, &[Const(1)])),
                (Some(2), Divide(Division::Sdiv, W64, Const(1), Register(1))),
                (None, Return(Some(NULL))),
            ]],
        },
    ],
    main: 1,
};

const COUNTING_THREAD: Parts = thread_and_main!(
    &[(1, 8, b"")],
    &[PTR, I64, I64, I64, I1],
    &[
        &[(Some(1), Knows(PgIn, &[Const(0)])), (None, Branch(1))],
        &[
            (Some(2), Phi(&[(0, Const(0)), (1, Register(3))])),
            (Some(3), Add(W64, Register(2), Const(1))),
            (
                Some(4),
                Compares(Compare::Slt, W64, Register(3), Register(1)),
            ),
            (None, BranchIf(Register(4), 1, 2)),
        ],
        &[(None, Return(Some(NULL)))],
    ],
    &[I32, I32, I64, I1],
    &[
        &[
            (
                Some(0),
                Knows(PthreadCreate, &[Global(0), NULL, Function(0), NULL]),
            ),
            (Some(1), Knows(PthreadJoin, &[Const(1), NULL])),
            (Some(2), Knows(PgIn, &[Const(1)])),
            (Some(3), Compares(Compare::Ne, W64, Register(2), Const(0))),
            (None, BranchIf(Register(3), 4, 5)),
        ],
        &[(None, Branch(5))],
        &[(None, Return(Some(Const(0))))],
    ]
);

const MANY_THREADS: Parts = thread_and_main!(
    &[(1, 8, b"")],
    &[PTR],
    &[&[(None, Return(Some(NULL)))]],
    &[I64, I64, I32, I64, I1],
    &[
        &[(Some(0), Knows(PgIn, &[Const(0)])), (None, Branch(2))],
        &[
            (Some(1), Phi(&[(1, Const(0)), (2, Register(3))])),
            (
                Some(2),
                Knows(PthreadCreate, &[Global(0), NULL, Function(0), NULL]),
            ),
            (Some(3), Add(W64, Register(1), Const(1))),
            (
                Some(4),
                Compares(Compare::Slt, W64, Register(3), Register(0)),
            ),
            (None, BranchIf(Register(4), 2, 3)),
        ],
        &[(None, Return(Some(Const(0))))],
    ]
);

const FOUR_THREADS: Parts = thread_and_main!(
    &[(1, 8, b"")],
    &[PTR, I64],
    &[&[
        (Some(1), PtrToInt(W64, W64, Register(0))),
        (None, Knows(PgOut, &[Register(1)])),
        (None, Knows(PgOut, &[Register(1)])),
        (None, Return(Some(Register(0)))),
    ]],
    &[I32, I32, I32, I32, I32, I32],
    &[&[
        (
            Some(0),
            Knows(PthreadCreate, &[Global(0), NULL, Function(0), Const(1)]),
        ),
        (
            Some(1),
            Knows(PthreadCreate, &[Global(0), NULL, Function(0), Const(2)]),
        ),
        (
            Some(2),
            Knows(PthreadCreate, &[Global(0), NULL, Function(0), Const(3)]),
        ),
        (Some(3), Knows(PthreadJoin, &[Const(1), NULL])),
        (Some(4), Knows(PthreadJoin, &[Const(2), NULL])),
        (Some(5), Knows(PthreadJoin, &[Const(3), NULL])),
        (None, Return(Some(Const(0)))),
    ]]
);

const TWO_COUNTERS: Parts = thread_and_main!(
    &[(1, 8, b""), (2, 8, b"")],
    &[PTR, I64, PTR, I64, I64, I1],
    &[
        &[
            (Some(1), Knows(PgIn, &[Const(0)])),
            (Some(2), Alloca(8)),
            (None, Branch(1)),
        ],
        &[
            (Some(3), Load(W64, Register(2))),
            (Some(4), Add(W64, Register(3), Const(1))),
            (None, Store(W64, Register(4), Register(2))),
            (
                Some(5),
                Compares(Compare::Slt, W64, Register(4), Register(1)),
            ),
            (None, BranchIf(Register(5), 1, 2)),
        ],
        &[(None, Return(Some(NULL)))],
    ],
    &[I32, I32, I32, I32],
    &[&[
        (
            Some(0),
            Knows(PthreadCreate, &[Global(0), NULL, Function(0), NULL]),
        ),
        (
            Some(1),
            Knows(PthreadCreate, &[Global(1), NULL, Function(0), NULL]),
        ),
        (Some(2), Knows(PthreadJoin, &[Const(1), NULL])),
        (Some(3), Knows(PthreadJoin, &[Const(2), NULL])),
        (None, Return(Some(Const(0)))),
    ]]
);

/// The parts of a sample, if it stands here.
pub(crate) fn parts_of(sample: Sample) -> Option<Parts> {
    match sample {
        Sample::TwoThatDivide => Some(TWO_THAT_DIVIDE),
        Sample::CountingThread => Some(COUNTING_THREAD),
        Sample::ManyThreads => Some(MANY_THREADS),
        Sample::FourThreads => Some(FOUR_THREADS),
        Sample::TwoCounters => Some(TWO_COUNTERS),
        _ => None,
    }
}
