//! Programs with mutexes, condition variables and barriers.

use crate::line::Line::{
    Add, Alloca, Branch, BranchIf, Compares, Gep, IntToPtr, Knows, Load, Return, Sext, Store,
};
use crate::parts::{Body, I1, I32, I64, NULL, PTR, Parts};
use crate::sample::Sample;
use crate::{main_alone, thread_and_main};
use pg_ir::LibraryCall::{
    PgIn, PgInLen, PgOut, PthreadBarrierInit, PthreadBarrierWait, PthreadCondBroadcast,
    PthreadCondWait, PthreadCreate, PthreadJoin, PthreadMutexLock, PthreadMutexUnlock,
};
use pg_ir::Value::{Const, Function, Global, Register};
use pg_num::Compare;
use pg_num::Width::{W32, W64};

const TWO_UNDER_MUTEX: Parts = thread_and_main!(
    &[(1, 40, b""), (6, 8, b""), (7, 8, b"")],
    &[PTR, I32, I64, I64, I64, I32],
    &[&[
        (Some(1), Knows(PthreadMutexLock, &[Global(0)])),
        (Some(2), Load(W64, Global(2))),
        (Some(3), Knows(PgIn, &[Const(0)])),
        (Some(4), Add(W64, Register(2), Register(3))),
        (None, Store(W64, Register(4), Global(2))),
        (Some(5), Knows(PthreadMutexUnlock, &[Global(0)])),
        (None, Return(Some(NULL))),
    ]],
    &[I32, I32, I64, I64, I32, I64, I32, I64],
    &[&[
        (
            Some(0),
            Knows(PthreadCreate, &[Global(1), NULL, Function(0), NULL]),
        ),
        (Some(1), Knows(PthreadMutexLock, &[Global(0)])),
        (Some(2), Load(W64, Global(2))),
        (Some(3), Add(W64, Register(2), Const(1))),
        (None, Store(W64, Register(3), Global(2))),
        (Some(4), Knows(PthreadMutexUnlock, &[Global(0)])),
        (Some(5), Load(W64, Global(1))),
        (Some(6), Knows(PthreadJoin, &[Register(5), NULL])),
        (Some(7), Load(W64, Global(2))),
        (None, Knows(PgOut, &[Register(7)])),
        (None, Return(Some(Const(0)))),
    ]]
);

const SUMS_UNDER_MUTEX: Parts = thread_and_main!(
    &[(1, 8, b""), (2, 40, b""), (7, 16, b"")],
    &[
        PTR, PTR, PTR, I64, I64, I1, I64, I64, I64, I64, I32, I64, I64, I64, I32,
    ],
    &[
        &[
            (Some(1), Alloca(8)),
            (Some(2), Alloca(8)),
            (None, Store(W64, Const(0), Register(1))),
            (None, Store(W64, Const(0), Register(2))),
            (None, Branch(1)),
        ],
        &[
            (Some(3), Load(W64, Register(2))),
            (Some(4), Knows(PgInLen, &[])),
            (
                Some(5),
                Compares(Compare::Slt, W64, Register(3), Register(4)),
            ),
            (None, BranchIf(Register(5), 2, 3)),
        ],
        &[
            (Some(6), Knows(PgIn, &[Register(3)])),
            (Some(7), Load(W64, Register(1))),
            (Some(8), Add(W64, Register(7), Register(6))),
            (None, Store(W64, Register(8), Register(1))),
            (Some(9), Add(W64, Register(3), Const(1))),
            (None, Store(W64, Register(9), Register(2))),
            (None, Branch(1)),
        ],
        &[
            (Some(10), Knows(PthreadMutexLock, &[Global(1)])),
            (Some(11), Load(W64, Global(0))),
            (Some(12), Load(W64, Register(1))),
            (Some(13), Add(W64, Register(11), Register(12))),
            (None, Store(W64, Register(13), Global(0))),
            (Some(14), Knows(PthreadMutexUnlock, &[Global(1)])),
            (None, Return(Some(NULL))),
        ],
    ],
    &[PTR, I32, I32, I64, I64, I32, I32, I64],
    &[&[
        (Some(0), Gep(Global(2), &[(Const(0), 16), (Const(1), 8)])),
        (
            Some(1),
            Knows(PthreadCreate, &[Global(2), NULL, Function(0), NULL]),
        ),
        (
            Some(2),
            Knows(PthreadCreate, &[Register(0), NULL, Function(0), NULL]),
        ),
        (Some(3), Load(W64, Global(2))),
        (Some(4), Load(W64, Register(0))),
        (Some(5), Knows(PthreadJoin, &[Register(3), NULL])),
        (Some(6), Knows(PthreadJoin, &[Register(4), NULL])),
        (Some(7), Load(W64, Global(0))),
        (None, Knows(PgOut, &[Register(7)])),
        (None, Return(Some(Const(0)))),
    ]]
);

const LOCK_TWICE: Parts = main_alone!(
    &[(1, 40, b"")],
    &[I32, I32],
    &[&[
        (Some(0), Knows(PthreadMutexLock, &[Global(0)])),
        (Some(1), Knows(PthreadMutexLock, &[Global(0)])),
        (None, Return(Some(Const(0)))),
    ]]
);

const EMPTY_BARRIER: Parts = main_alone!(
    &[(1, 32, b"")],
    &[I32, I64],
    &[&[
        (
            Some(0),
            Knows(PthreadBarrierInit, &[Global(0), NULL, Const(0)]),
        ),
        (Some(1), Sext(W32, W64, Register(0))),
        (None, Knows(PgOut, &[Register(1)])),
        (None, Return(Some(Const(0)))),
    ]]
);

const BARRIER_OF_THREE: Parts = thread_and_main!(
    &[(1, 32, b""), (5, 8, b""), (6, 8, b""), (7, 8, b"")],
    &[PTR, I32, I64, PTR],
    &[&[
        (Some(1), Knows(PthreadBarrierWait, &[Global(0)])),
        (Some(2), Sext(W32, W64, Register(1))),
        (Some(3), IntToPtr(W64, W64, Register(2))),
        (None, Return(Some(Register(3)))),
    ]],
    &[I32, I32, I32, I32, I32, I32, I64, I64, I64],
    &[&[
        (
            Some(0),
            Knows(PthreadBarrierInit, &[Global(0), NULL, Const(3)]),
        ),
        (
            Some(1),
            Knows(PthreadCreate, &[Global(1), NULL, Function(0), NULL]),
        ),
        (
            Some(2),
            Knows(PthreadCreate, &[Global(1), NULL, Function(0), NULL]),
        ),
        (Some(3), Knows(PthreadBarrierWait, &[Global(0)])),
        (Some(4), Knows(PthreadJoin, &[Const(1), Global(2)])),
        (Some(5), Knows(PthreadJoin, &[Const(2), Global(3)])),
        (Some(6), Sext(W32, W64, Register(3))),
        (None, Knows(PgOut, &[Register(6)])),
        (Some(7), Load(W64, Global(2))),
        (None, Knows(PgOut, &[Register(7)])),
        (Some(8), Load(W64, Global(3))),
        (None, Knows(PgOut, &[Register(8)])),
        (None, Return(Some(Const(0)))),
    ]]
);

/// A function that threads begin with: one call while it holds the mutex that is the first global.
macro_rules! under_mutex {
    ($function:expr, $arguments:expr) => {
        Body {
            params: 1,
            registers: &[PTR, I32, I32, I32],
            returned: Some(PTR),
            blocks: &[&[
                (Some(1), Knows(PthreadMutexLock, &[Global(0)])),
                (Some(2), Knows($function, $arguments)),
                (Some(3), Knows(PthreadMutexUnlock, &[Global(0)])),
                (None, Return(Some(NULL))),
            ]],
        }
    };
}

const WAIT_AND_BROADCAST: Parts = Parts {
    globals: &[(1, 40, b""), (6, 48, b""), (12, 8, b"")],
    functions: &[
        under_mutex!(PthreadCondWait, &[Global(1), Global(0)]),
        under_mutex!(PthreadCondBroadcast, &[Global(1)]),
        Body {
            params: 0,
            registers: &[I32, I32, I32, I32],
            returned: Some(I32),
            blocks: &[&[
                (
                    Some(0),
                    Knows(PthreadCreate, &[Global(2), NULL, Function(0), NULL]),
                ),
                (
                    Some(1),
                    Knows(PthreadCreate, &[Global(2), NULL, Function(1), NULL]),
                ),
                (Some(2), Knows(PthreadJoin, &[Const(1), NULL])),
                (Some(3), Knows(PthreadJoin, &[Const(2), NULL])),
                (None, Return(Some(Const(0)))),
            ]],
        },
    ],
    main: 2,
};

/// The parts of a sample, if it stands here.
pub(crate) fn parts_of(sample: Sample) -> Option<Parts> {
    match sample {
        Sample::TwoUnderMutex => Some(TWO_UNDER_MUTEX),
        Sample::SumsUnderMutex => Some(SUMS_UNDER_MUTEX),
        Sample::LockTwice => Some(LOCK_TWICE),
        Sample::EmptyBarrier => Some(EMPTY_BARRIER),
        Sample::BarrierOfThree => Some(BARRIER_OF_THREE),
        Sample::WaitAndBroadcast => Some(WAIT_AND_BROADCAST),
        _ => None,
    }
}
