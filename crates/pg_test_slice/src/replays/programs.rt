//! Programs with calls, and with regions whose paths load.

use pg_ir::LibraryCall::{PgIn, PgOut};
use pg_ir::Value::{Const, Global, Register};
use pg_num::Width::{W1, W64};
use pg_test_samples::Line::{Add, Branch, BranchIf, Call, Knows, Load, Return, Store, Trunc};
use pg_test_samples::{Body, I1, I32, I64, PTR, Parts, main_alone};

/// Main calls a function that adds one to its argument, and prints the sum.
pub(crate) const ADDS_ONE: Parts = Parts {
    globals: &[],
    functions: &[
        Body {
            params: 1,
            registers: &[I64, I64],
            returned: Some(I64),
            blocks: &[&[
                (Some(1), Add(W64, Register(0), Const(1))),
                (None, Return(Some(Register(1)))),
            ]],
        },
        Body {
            params: 0,
            registers: &[I32, I32, I64],
            returned: Some(I32),
            blocks: &[&[
                (Some(2), Call(0, &[Const(4)])),
                (None, Knows(PgOut, &[Register(2)])),
                (None, Return(Some(Const(0)))),
            ]],
        },
    ],
    main: 1,
};

/// Main stores this pointer at the first of its two globals, and where the input's first number is odd it stores one
/// through it.
macro_rules! stores_through {
    ($pointer:expr) => {
        main_alone!(
            &[(1, 8, b""), (2, 8, b"")],
            &[I64, I1, PTR],
            &[
                &[
                    (None, Store(W64, $pointer, Global(0))),
                    (Some(0), Knows(PgIn, &[Const(0)])),
                    (Some(1), Trunc(W64, W1, Register(0))),
                    (None, BranchIf(Register(1), 1, 2)),
                ],
                &[
                    (Some(2), Load(W64, Global(0))),
                    (None, Store(W64, Const(1), Register(2))),
                    (None, Branch(2)),
                ],
                &[(None, Return(Some(Const(0))))],
            ]
        )
    };
}

/// By a pointer to the second global.
pub(crate) const STORES_THROUGH: Parts = stores_through!(Global(1));

/// By a pointer to the first one, where it stands itself.
pub(crate) const STORES_OVER: Parts = stores_through!(Global(0));
