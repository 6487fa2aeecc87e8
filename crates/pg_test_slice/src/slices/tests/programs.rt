//! Programs in which a branch rests on what came before: a choice, a sum, a thread's exit.

use pg_ir::LibraryCall::{PgIn, PgInLen, PgOut, PthreadCreate, PthreadJoin};
use pg_ir::Value::{Const, Function, Global, Register};
use pg_num::Compare::{Ne, Slt};
use pg_num::Division::Sdiv;
use pg_num::Width::{W1, W64};
use pg_test_samples::Line::{
    Add, Alloca, Branch, BranchIf, Compares, Divide, IntToPtr, Knows, Load, Phi, Return, Select,
    Store, Switch, Trunc,
};
use pg_test_samples::{I1, I32, I64, NULL, PTR, Parts, main_alone, thread_and_main};

/// Main sums the input's numbers in a loop over its own memory, and prints the sum where it is odd.
pub(crate) const PRINTS_AN_ODD_SUM: Parts = main_alone!(
    &[],
    &[PTR, PTR, I64, I64, I1, I64, I64, I64, I64, I64, I1],
    &[
        &[
            (Some(0), Alloca(8)),
            (Some(1), Alloca(8)),
            (None, Store(W64, Const(0), Register(0))),
            (None, Store(W64, Const(0), Register(1))),
            (None, Branch(1)),
        ],
        &[
            (Some(2), Load(W64, Register(1))),
            (Some(3), Knows(PgInLen, &[])),
            (Some(4), Compares(Slt, W64, Register(2), Register(3))),
            (None, BranchIf(Register(4), 2, 3)),
        ],
        &[
            (Some(5), Knows(PgIn, &[Register(2)])),
            (Some(6), Load(W64, Register(0))),
            (Some(7), Add(W64, Register(6), Register(5))),
            (None, Store(W64, Register(7), Register(0))),
            (Some(8), Add(W64, Register(2), Const(1))),
            (None, Store(W64, Register(8), Register(1))),
            (None, Branch(1)),
        ],
        &[
            (Some(9), Load(W64, Register(0))),
            (Some(10), Trunc(W64, W1, Register(9))),
            (None, BranchIf(Register(10), 4, 5)),
        ],
        &[(None, Knows(PgOut, &[Register(9)])), (None, Branch(5))],
        &[(None, Return(Some(Const(0))))],
    ]
);

/// Main hands the input's first number on to a thread, which exits with it, and prints what the join gives where it isn't zero.
pub(crate) const HANDS_ON: Parts = thread_and_main!(
    &[(1, 8, b""), (2, 8, b"")],
    &[PTR],
    &[&[(None, Return(Some(Register(0))))]],
    &[I64, PTR, I32, I32, I64, I1],
    &[
        &[
            (Some(0), Knows(PgIn, &[Const(0)])),
            (Some(1), IntToPtr(W64, W64, Register(0))),
            (
                Some(2),
                Knows(PthreadCreate, &[Global(0), NULL, Function(0), Register(1)]),
            ),
            (Some(3), Knows(PthreadJoin, &[Const(1), Global(1)])),
            (Some(4), Load(W64, Global(1))),
            (Some(5), Compares(Ne, W64, Register(4), Const(0))),
            (None, BranchIf(Register(5), 2, 3)),
        ],
        &[(None, Knows(PgOut, &[Register(4)])), (None, Branch(3))],
        &[(None, Return(Some(Const(0))))],
    ]
);

/// Main selects one of two globals by a third one, and stores one there where the input's first number isn't zero.
pub(crate) const STORES_AT_THE_SELECTED: Parts = main_alone!(
    &[(1, 8, b""), (2, 8, b""), (3, 8, b"")],
    &[I64, I1, PTR, I64, I1],
    &[
        &[
            (Some(0), Load(W64, Global(2))),
            (Some(1), Compares(Ne, W64, Register(0), Const(0))),
            (Some(2), Select(Register(1), Global(0), Global(1))),
            (Some(3), Knows(PgIn, &[Const(0)])),
            (Some(4), Compares(Ne, W64, Register(3), Const(0))),
            (None, BranchIf(Register(4), 1, 2)),
        ],
        &[(None, Store(W64, Const(1), Register(2))), (None, Branch(2))],
        &[(None, Return(Some(Const(0))))],
    ]
);

/// Main prints another number where the input's first one is 1, where it is 2, and where it is neither.
pub(crate) const SWITCHES: Parts = main_alone!(
    &[],
    &[I64],
    &[
        &[
            (Some(0), Knows(PgIn, &[Const(0)])),
            (None, Switch(W64, Register(0), 3, &[(1, 1), (2, 2),],),),
        ],
        &[(None, Knows(PgOut, &[Const(10)])), (None, Branch(4))],
        &[(None, Knows(PgOut, &[Const(20)])), (None, Branch(4))],
        &[(None, Knows(PgOut, &[Const(0)])), (None, Branch(4))],
        &[(None, Return(Some(Const(0))))],
    ]
);

/// Main divides 100 by the input's first number, and prints the quotient where it isn't 10.
pub(crate) const DIVIDES: Parts = main_alone!(
    &[],
    &[I64, I64, I1],
    &[
        &[
            (Some(0), Knows(PgIn, &[Const(0)])),
            (Some(1), Divide(Sdiv, W64, Const(100), Register(0))),
            (Some(2), Compares(Ne, W64, Register(1), Const(10))),
            (None, BranchIf(Register(2), 1, 2)),
        ],
        &[(None, Knows(PgOut, &[Register(1)])), (None, Branch(2))],
        &[(None, Return(Some(Const(0))))],
    ]
);
