//! Programs whose threads access the same memory in no order that their events give.

use crate::line::Line::{
    Add, Alloca, Branch, BranchIf, Compares, Gep, IntToPtr, Knows, Load, Phi, PtrToInt, Return,
    Store,
};
use crate::parts::{I1, I32, I64, NULL, PTR, Parts};
use crate::sample::Sample;
use crate::thread_and_main;
use pg_ir::LibraryCall::{PgIn, PgOut, PthreadCreate, PthreadJoin, Putchar};
use pg_ir::Value::{Const, Function, Global, Register};
use pg_num::Compare;
use pg_num::Width::{W32, W64};

const STORES_SIDE_BY_SIDE: Parts = thread_and_main!(
    &[(1, 8, b""), (2, 8, b"")],
    &[PTR, PTR],
    &[&[
        (Some(1), Gep(Global(0), &[(Const(0), 8), (Const(1), 4)])),
        (None, Store(W32, Const(7), Register(1))),
        (None, Return(Some(NULL))),
    ]],
    &[I32, I64, I32, I64],
    &[&[
        (
            Some(0),
            Knows(PthreadCreate, &[Global(1), NULL, Function(0), NULL]),
        ),
        (None, Store(W32, Const(5), Global(0))),
        (Some(1), Load(W64, Global(1))),
        (Some(2), Knows(PthreadJoin, &[Register(1), NULL])),
        (Some(3), Load(W64, Global(0))),
        (None, Knows(PgOut, &[Register(3)])),
        (None, Return(Some(Const(0)))),
    ]]
);

const RACING_STORES: Parts = thread_and_main!(
    &[(1, 8, b""), (2, 8, b"")],
    &[PTR, I64, PTR, I64, I1, I64],
    &[
        &[
            (Some(1), Knows(PgIn, &[Const(0)])),
            (Some(2), Alloca(8)),
            (None, Store(W64, Const(0), Register(2))),
            (None, Branch(1)),
        ],
        &[
            (Some(3), Load(W64, Register(2))),
            (
                Some(4),
                Compares(Compare::Slt, W64, Register(3), Register(1)),
            ),
            (None, BranchIf(Register(4), 2, 3)),
        ],
        &[
            (Some(5), Add(W64, Register(3), Const(1))),
            (None, Store(W64, Register(5), Register(2))),
            (None, Branch(1)),
        ],
        &[
            (None, Store(W64, Register(3), Global(0))),
            (None, Return(Some(NULL))),
        ],
    ],
    &[I32, I64, I64, I1, I64, I32, I64],
    &[
        &[
            (
                Some(0),
                Knows(PthreadCreate, &[Global(1), NULL, Function(0), NULL]),
            ),
            (None, Branch(5)),
        ],
        &[
            (Some(1), Phi(&[(4, Const(0)), (5, Register(2))])),
            (Some(2), Add(W64, Register(1), Const(1))),
            (Some(3), Compares(Compare::Slt, W64, Register(2), Const(3))),
            (None, BranchIf(Register(3), 5, 6)),
        ],
        &[
            (None, Store(W64, Const(100), Global(0))),
            (Some(4), Load(W64, Global(1))),
            (Some(5), Knows(PthreadJoin, &[Register(4), NULL])),
            (Some(6), Load(W64, Global(0))),
            (None, Knows(PgOut, &[Register(6)])),
            (None, Return(Some(Const(0)))),
        ],
    ]
);

const STORES_IN_A_LOOP: Parts = thread_and_main!(
    &[(1, 128, b""), (17, 8, b"")],
    &[PTR, I64, I64, I64, I1, I64, PTR, I64],
    &[
        &[
            (Some(1), PtrToInt(W64, W64, Register(0))),
            (Some(2), Knows(PgIn, &[Const(0)])),
            (None, Branch(1)),
        ],
        &[
            (Some(3), Phi(&[(0, Const(0)), (2, Register(7))])),
            (
                Some(4),
                Compares(Compare::Slt, W64, Register(3), Register(2)),
            ),
            (None, BranchIf(Register(4), 2, 3)),
        ],
        &[
            (Some(5), Add(W64, Register(1), Register(3))),
            (
                Some(6),
                Gep(Global(0), &[(Const(0), 128), (Register(5), 8)]),
            ),
            (None, Store(W64, Register(2), Register(6))),
            (Some(7), Add(W64, Register(3), Const(1))),
            (None, Branch(1)),
        ],
        &[(None, Return(Some(NULL)))],
    ],
    &[PTR, I32, I32, I32, I32, PTR, I64, I64, I64],
    &[&[
        (Some(0), IntToPtr(W64, W64, Const(8))),
        (
            Some(1),
            Knows(PthreadCreate, &[Global(1), NULL, Function(0), NULL]),
        ),
        (
            Some(2),
            Knows(PthreadCreate, &[Global(1), NULL, Function(0), Register(0)]),
        ),
        (Some(3), Knows(PthreadJoin, &[Const(1), NULL])),
        (Some(4), Knows(PthreadJoin, &[Const(2), NULL])),
        (Some(5), Gep(Global(0), &[(Const(0), 128), (Const(8), 8)])),
        (Some(6), Load(W64, Global(0))),
        (Some(7), Load(W64, Register(5))),
        (Some(8), Add(W64, Register(6), Register(7))),
        (None, Knows(PgOut, &[Register(8)])),
        (None, Return(Some(Const(0)))),
    ]]
);

const PRINT_IF_STORED: Parts = thread_and_main!(
    &[(1, 8, b""), (2, 8, b"")],
    &[PTR],
    &[&[
        (None, Store(W64, Const(1), Global(1))),
        (None, Return(Some(NULL))),
    ]],
    &[I32, I64, I1, I32],
    &[
        &[
            (
                Some(0),
                Knows(PthreadCreate, &[Global(0), NULL, Function(0), NULL]),
            ),
            (Some(1), Load(W64, Global(1))),
            (Some(2), Compares(Compare::Ne, W64, Register(1), Const(0))),
            (None, BranchIf(Register(2), 2, 3)),
        ],
        &[(None, Knows(PgOut, &[Register(1)])), (None, Branch(3))],
        &[
            (Some(3), Knows(PthreadJoin, &[Const(1), NULL])),
            (None, Return(Some(Const(0)))),
        ],
    ]
);

const PRINT_BOTH: Parts = thread_and_main!(
    &[(1, 8, b""), (2, 8, b"")],
    &[PTR, I32],
    &[&[
        (None, Store(W64, Const(5), Global(1))),
        (Some(1), Knows(Putchar, &[Const(65)])),
        (None, Return(Some(NULL))),
    ]],
    &[I32, I64],
    &[&[
        (
            Some(0),
            Knows(PthreadCreate, &[Global(0), NULL, Function(0), NULL]),
        ),
        (Some(1), Load(W64, Global(1))),
        (None, Knows(PgOut, &[Register(1)])),
        (None, Return(Some(Const(0)))),
    ]]
);

/// The parts of a sample, if it stands here.
pub(crate) fn parts_of(sample: Sample) -> Option<Parts> {
    match sample {
        Sample::StoresSideBySide => Some(STORES_SIDE_BY_SIDE),
        Sample::RacingStores => Some(RACING_STORES),
        Sample::StoresInALoop => Some(STORES_IN_A_LOOP),
        Sample::PrintIfStored => Some(PRINT_IF_STORED),
        Sample::PrintBoth => Some(PRINT_BOTH),
        _ => None,
    }
}
