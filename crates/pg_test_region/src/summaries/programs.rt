//! Programs of which some functions are quiet.

use pg_ir::LibraryCall::{PgIn, PgInLen, PgOut, PthreadCreate, PthreadJoin};
use pg_ir::Value::{Const, Function, Global, Register};
use pg_num::Compare;
use pg_num::Width::W64;
use pg_test_samples::Line::{
    Add, Alloca, Branch, BranchIf, Call, Compares, Knows, Load, Phi, Return, Store,
};
use pg_test_samples::{Body, I1, I32, I64, NULL, PTR, Parts};

/// A thread adds each of the input's numbers to a global by a call, and main prints it.
pub(crate) const ADDS_BY_CALLS: Parts = Parts {
    globals: &[(1, 32, b""), (5, 8, b"")],
    functions: &[
        Body {
            params: 2,
            registers: &[PTR, I64, I64, I64],
            returned: None,
            blocks: &[&[
                (Some(2), Load(W64, Register(0))),
                (Some(3), Add(W64, Register(2), Register(1))),
                (None, Store(W64, Register(3), Register(0))),
                (None, Return(None)),
            ]],
        },
        Body {
            params: 1,
            registers: &[PTR, I64, I64, I1, I64, I64],
            returned: Some(PTR),
            blocks: &[
                &[(Some(1), Knows(PgInLen, &[])), (None, Branch(2))],
                &[
                    (Some(2), Phi(&[(1, Const(0)), (3, Register(5))])),
                    (
                        Some(3),
                        Compares(Compare::Slt, W64, Register(2), Register(1)),
                    ),
                    (None, BranchIf(Register(3), 3, 4)),
                ],
                &[
                    (Some(4), Knows(PgIn, &[Register(2)])),
                    (None, Call(0, &[Global(0), Register(4)])),
                    (Some(5), Add(W64, Register(2), Const(1))),
                    (None, Branch(2)),
                ],
                &[(None, Return(Some(NULL)))],
            ],
        },
        Body {
            params: 0,
            registers: &[I32, I32, I64],
            returned: Some(I32),
            blocks: &[&[
                (
                    Some(0),
                    Knows(PthreadCreate, &[Global(1), NULL, Function(1), NULL]),
                ),
                (Some(1), Knows(PthreadJoin, &[Const(1), NULL])),
                (Some(2), Load(W64, Global(0))),
                (None, Knows(PgOut, &[Register(2)])),
                (None, Return(Some(Const(0)))),
            ]],
        },
    ],
    main: 2,
};

const MAIN: Body = Body {
    params: 0,
    registers: &[],
    returned: Some(I32),
    blocks: &[&[(None, Return(Some(Const(0))))]],
};

/// A function that loads at the pointer that stands at its parameter, and callers of it: one with a pointer that it loads
/// three times over, one that loads four times, one that calls itself, one that calls that, and one that has memory of its
/// own.
pub(crate) const CALLERS: Parts = Parts {
    globals: &[(1, 8, b"")],
    functions: &[
        Body {
            params: 1,
            registers: &[PTR, PTR, I64],
            returned: None,
            blocks: &[&[
                (Some(1), Load(W64, Register(0))),
                (Some(2), Load(W64, Register(1))),
                (None, Return(None)),
            ]],
        },
        Body {
            params: 1,
            registers: &[PTR, PTR, PTR, PTR],
            returned: None,
            blocks: &[&[
                (Some(1), Load(W64, Register(0))),
                (Some(2), Load(W64, Register(1))),
                (Some(3), Load(W64, Register(2))),
                (None, Call(0, &[Register(3)])),
                (None, Return(None)),
            ]],
        },
        Body {
            params: 1,
            registers: &[PTR, PTR, PTR, PTR, PTR],
            returned: None,
            blocks: &[&[
                (Some(1), Load(W64, Register(0))),
                (Some(2), Load(W64, Register(1))),
                (Some(3), Load(W64, Register(2))),
                (Some(4), Load(W64, Register(3))),
                (None, Call(0, &[Register(4)])),
                (None, Return(None)),
            ]],
        },
        Body {
            params: 0,
            registers: &[],
            returned: None,
            blocks: &[&[(None, Call(3, &[])), (None, Return(None))]],
        },
        Body {
            params: 0,
            registers: &[],
            returned: None,
            blocks: &[&[(None, Call(3, &[])), (None, Return(None))]],
        },
        Body {
            params: 0,
            registers: &[PTR],
            returned: None,
            blocks: &[&[(Some(0), Alloca(8)), (None, Return(None))]],
        },
        MAIN,
    ],
    main: 6,
};

/// Four loads of a global.
const FOUR_LOADS: Body = Body {
    params: 0,
    registers: &[I64],
    returned: None,
    blocks: &[&[
        (Some(0), Load(W64, Global(0))),
        (Some(0), Load(W64, Global(0))),
        (Some(0), Load(W64, Global(0))),
        (Some(0), Load(W64, Global(0))),
        (None, Return(None)),
    ]],
};

const FOUR_CALLS_OF_0: Body = Body {
    params: 0,
    registers: &[],
    returned: None,
    blocks: &[&[
        (None, Call(0, &[])),
        (None, Call(0, &[])),
        (None, Call(0, &[])),
        (None, Call(0, &[])),
        (None, Return(None)),
    ]],
};

const FOUR_CALLS_OF_1: Body = Body {
    params: 0,
    registers: &[],
    returned: None,
    blocks: &[&[
        (None, Call(1, &[])),
        (None, Call(1, &[])),
        (None, Call(1, &[])),
        (None, Call(1, &[])),
        (None, Return(None)),
    ]],
};

const FOUR_CALLS_OF_2: Body = Body {
    params: 0,
    registers: &[],
    returned: None,
    blocks: &[&[
        (None, Call(2, &[])),
        (None, Call(2, &[])),
        (None, Call(2, &[])),
        (None, Call(2, &[])),
        (None, Return(None)),
    ]],
};

const FOUR_CALLS_OF_3: Body = Body {
    params: 0,
    registers: &[],
    returned: None,
    blocks: &[&[
        (None, Call(3, &[])),
        (None, Call(3, &[])),
        (None, Call(3, &[])),
        (None, Call(3, &[])),
        (None, Return(None)),
    ]],
};

/// A call of a function and a load.
const ONE_MORE: Body = Body {
    params: 0,
    registers: &[I64],
    returned: None,
    blocks: &[&[
        (None, Call(4, &[])),
        (Some(0), Load(W64, Global(0))),
        (None, Return(None)),
    ]],
};

/// Functions with 4, 16, 64, 256, 1,024 and 1,025 accesses, each but the first by calls of the one before.
pub(crate) const SIZES: Parts = Parts {
    globals: &[(1, 8, b"")],
    functions: &[
        FOUR_LOADS,
        FOUR_CALLS_OF_0,
        FOUR_CALLS_OF_1,
        FOUR_CALLS_OF_2,
        FOUR_CALLS_OF_3,
        ONE_MORE,
        MAIN,
    ],
    main: 6,
};
