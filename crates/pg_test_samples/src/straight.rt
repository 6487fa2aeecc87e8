//! Programs with one thread.

use crate::line::Line::{
    Add, Branch, BranchIf, Call, Compares, IntToPtr, Knows, Load, Phi, Return, Store,
};
use crate::main_alone;
use crate::parts::{I1, I32, I64, PTR, Parts};
use crate::sample::Sample;
use pg_ir::LibraryCall::{PgIn, PgOut};
use pg_ir::Value::{Const, Global, Register};
use pg_num::Compare;
use pg_num::Width::W64;

const ADD_TWO: Parts = main_alone!(
    &[],
    &[I64, I64, I64],
    &[&[
        (Some(0), Knows(PgIn, &[Const(0)])),
        (Some(1), Knows(PgIn, &[Const(1)])),
        (Some(2), Add(W64, Register(0), Register(1))),
        (None, Knows(PgOut, &[Register(2)])),
        (None, Return(Some(Const(0)))),
    ]]
);

const PRINT_IN_A_LOOP: Parts = main_alone!(
    &[],
    &[I64, I64, I1, I64],
    &[
        &[(Some(0), Knows(PgIn, &[Const(0)])), (None, Branch(1))],
        &[
            (Some(1), Phi(&[(0, Const(0)), (2, Register(3))])),
            (
                Some(2),
                Compares(Compare::Slt, W64, Register(1), Register(0)),
            ),
            (None, BranchIf(Register(2), 2, 3)),
        ],
        &[
            (None, Knows(PgOut, &[Register(1)])),
            (Some(3), Add(W64, Register(1), Const(1))),
            (None, Branch(1)),
        ],
        &[(None, Return(Some(Const(0))))],
    ]
);

const CIRCLE: Parts = main_alone!(&[], &[], &[&[(None, Branch(1))], &[(None, Branch(1))]]);

const SKIPPED_BLOCK: Parts = main_alone!(
    &[],
    &[I64],
    &[
        &[(None, Branch(2))],
        &[(Some(0), Add(W64, Const(1), Const(2))), (None, Branch(2))],
        &[
            (None, Knows(PgOut, &[Register(0)])),
            (None, Return(Some(Const(0)))),
        ],
    ]
);

const RECURSION: Parts = main_alone!(
    &[],
    &[I32],
    &[&[(Some(0), Call(0, &[])), (None, Return(Some(Const(0))))]]
);

const PLACE_BY_NUMBER: Parts = main_alone!(
    &[],
    &[PTR, I64],
    &[&[
        (
            Some(0),
            IntToPtr(W64, W64, Const(4_611_686_018_444_165_120)),
        ),
        (Some(1), Load(W64, Register(0))),
        (None, Knows(PgOut, &[Register(1)])),
        (None, Return(Some(Const(0)))),
    ]]
);

const STORE_AT_ONE_OF_TWO: Parts = main_alone!(
    &[(1, 8, b""), (2, 8, b"")],
    &[I64, I1, PTR, I64, I1],
    &[
        &[
            (Some(0), Knows(PgIn, &[Const(0)])),
            (Some(1), Compares(Compare::Ne, W64, Register(0), Const(0))),
            (None, BranchIf(Register(1), 1, 2)),
        ],
        &[(None, Branch(2))],
        &[
            (Some(2), Phi(&[(0, Global(0)), (1, Global(1))])),
            (Some(3), Knows(PgIn, &[Const(1)])),
            (Some(4), Compares(Compare::Ne, W64, Register(3), Const(0))),
            (None, BranchIf(Register(4), 3, 4)),
        ],
        &[(None, Store(W64, Const(1), Register(2))), (None, Branch(4))],
        &[(None, Return(Some(Const(0))))],
    ]
);

/// The parts of a sample, if it stands here.
pub(crate) fn parts_of(sample: Sample) -> Option<Parts> {
    match sample {
        Sample::AddTwo => Some(ADD_TWO),
        Sample::PrintInALoop => Some(PRINT_IN_A_LOOP),
        Sample::Circle => Some(CIRCLE),
        Sample::SkippedBlock => Some(SKIPPED_BLOCK),
        Sample::Recursion => Some(RECURSION),
        Sample::PlaceByNumber => Some(PLACE_BY_NUMBER),
        Sample::StoreAtOneOfTwo => Some(STORE_AT_ONE_OF_TWO),
        _ => None,
    }
}
