//! Programs whose branches have regions, or none.

use pg_ir::LibraryCall::PgIn;
use pg_ir::Value::{Const, Global, Register};
use pg_num::Compare;
use pg_num::Width::W64;
use pg_test_samples::Line::{
    Alloca, Branch, BranchIf, Compares, Gep, Knows, Load, Phi, Return, Store, Switch, Unreachable,
};
use pg_test_samples::{Body, I1, I32, I64, PTR, Parts, main_alone};

/// Branches of which each skips one block: a chain of four loads of pointers and one more, and the same of five; an index
/// that isn't constant before a load; and equal targets.
pub(crate) const CHAINS: Parts = main_alone!(
    &[(1, 64, b"")],
    &[I64, I1, PTR, PTR, PTR, PTR, PTR, I64, PTR, PTR, I64],
    &[
        &[
            (Some(0), Knows(PgIn, &[Const(0)])),
            (Some(1), Compares(Compare::Slt, W64, Register(0), Const(9))),
            (None, BranchIf(Register(1), 1, 2)),
        ],
        &[
            (Some(2), Load(W64, Global(0))),
            (Some(3), Load(W64, Register(2))),
            (Some(8), Gep(Register(3), &[(Const(1), 8)])),
            (Some(4), Load(W64, Register(8))),
            (Some(5), Load(W64, Register(4))),
            (Some(7), Load(W64, Register(5))),
            (None, Branch(2)),
        ],
        &[(None, BranchIf(Register(1), 3, 4))],
        &[
            (Some(2), Load(W64, Global(0))),
            (Some(3), Load(W64, Register(2))),
            (Some(4), Load(W64, Register(3))),
            (Some(5), Load(W64, Register(4))),
            (Some(6), Load(W64, Register(5))),
            (Some(7), Load(W64, Register(6))),
            (None, Branch(4)),
        ],
        &[(None, BranchIf(Register(1), 5, 6))],
        &[
            (Some(8), Gep(Global(0), &[(Register(0), 8)])),
            (Some(9), Load(W64, Register(8))),
            (Some(10), Load(W64, Register(9))),
            (None, Branch(6)),
        ],
        &[(None, BranchIf(Register(1), 7, 7))],
        &[(None, BranchIf(Register(1), 8, 9))],
        &[(None, Unreachable)],
        &[(None, Return(Some(Const(0))))],
    ]
);

/// Loops: at a pointer that the loop's own `phi` sets, at a global, and one with two exits; and two blocks that go on to
/// each other for ever.
pub(crate) const LOOPS: Parts = Parts {
    globals: &[(1, 8, b"")],
    functions: &[
        Body {
            params: 0,
            registers: &[I64, I1, PTR],
            returned: Some(I32),
            blocks: &[
                &[
                    (Some(0), Knows(PgIn, &[Const(0)])),
                    (Some(1), Compares(Compare::Slt, W64, Register(0), Const(9))),
                    (None, Branch(1)),
                ],
                &[
                    (Some(2), Phi(&[(0, Global(0)), (1, Register(2))])),
                    (None, Store(W64, Register(0), Register(2))),
                    (None, BranchIf(Register(1), 1, 2)),
                ],
                &[
                    (None, Store(W64, Register(0), Global(0))),
                    (None, BranchIf(Register(1), 2, 3)),
                ],
                &[(None, BranchIf(Register(1), 4, 5))],
                &[(None, BranchIf(Register(1), 3, 5))],
                &[(None, Return(Some(Const(0))))],
            ],
        },
        Body {
            params: 0,
            registers: &[],
            returned: None,
            blocks: &[&[(None, BranchIf(Const(1), 6, 7))], &[(None, Branch(6))]],
        },
    ],
    main: 0,
};

/// A `switch` over three blocks, of which one stores; and a branch with memory of its own in one way.
pub(crate) const CASES: Parts = main_alone!(
    &[(1, 8, b"")],
    &[I64, I1, PTR],
    &[
        &[
            (Some(0), Knows(PgIn, &[Const(0)])),
            (None, Switch(W64, Register(0), 3, &[(1, 1), (2, 2),],),),
        ],
        &[(None, Branch(4))],
        &[(None, Store(W64, Const(1), Global(0))), (None, Branch(4))],
        &[(None, Branch(4))],
        &[
            (Some(1), Compares(Compare::Ne, W64, Register(0), Const(0))),
            (None, BranchIf(Register(1), 5, 6)),
        ],
        &[(Some(2), Alloca(8)), (None, Branch(6))],
        &[(None, Return(Some(Const(0))))],
    ]
);
