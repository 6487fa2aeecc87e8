//! One program of three basic blocks, and the same with one change each that makes it none.

use pg_ir::ProgramError;
use pg_ir::Value::{Const, Global, Register};
use pg_num::Width::W32;
use pg_test_samples::Line::{Add, Branch, BranchIf, Phi, Return, Unreachable};
use pg_test_samples::{Body, I32, Line, Parts, build};
use std::test::Fail;

/// The instructions of a basic block, each behind the register that it sets.
type Lines = &'static [(Option<u32>, Line)];

/// The granule at which a global begins, its size, and its first bytes.
type Globals = &'static [(u32, u32, &'static [u8])];

const GLOBALS: Globals = &[(1, 4, b"\x01"), (2, 9, b"")];

const SUM: Line = Add(W32, Const(1), Const(2));

/// `phi i32 [ %0, first ], [ 7, second ]`.
const FROM_BOTH: Line = Phi(&[(0, Register(0)), (1, Const(7))]);

const BRANCH: Line = BranchIf(Const(1), 1, 2);

const END: Line = Return(Some(Register(1)));

const FIRST: Lines = &[(Some(0), SUM), (None, BRANCH)];

const SECOND: Lines = &[(None, Branch(2))];

const THIRD: Lines = &[(Some(1), FROM_BOTH), (Some(2), FROM_BOTH), (None, END)];

/// The program with these globals, so many parameters of main, and these basic blocks.
macro_rules! program {
    ($globals:expr, $params:expr, $blocks:expr) => {
        Parts {
            globals: $globals,
            functions: &[Body {
                params: $params,
                registers: &[I32, I32, I32],
                returned: Some(I32),
                blocks: $blocks,
            }],
            main: 0,
        }
    };
}

const WHOLE: Parts = program!(GLOBALS, 0, &[FIRST, SECOND, THIRD]);

const UNKNOWN_BLOCK: Parts = program!(GLOBALS, 0, &[FIRST, &[(None, Branch(3))], THIRD]);

const UNKNOWN_REGISTER: Parts = program!(
    GLOBALS,
    0,
    &[&[(Some(3), SUM), (None, BRANCH)], SECOND, THIRD]
);

const LARGE_CONSTANT: Parts = program!(
    GLOBALS,
    0,
    &[
        &[
            (Some(0), Add(W32, Const(0x1_0000_0000), Const(2))),
            (None, BRANCH),
        ],
        SECOND,
        THIRD,
    ]
);

const MISSING_PREDECESSOR: Parts = program!(
    GLOBALS,
    0,
    &[
        FIRST,
        SECOND,
        &[
            (Some(1), Phi(&[(0, Register(0))])),
            (Some(2), FROM_BOTH),
            (None, END),
        ],
    ]
);

const LISTED_STRANGER: Parts = program!(
    GLOBALS,
    0,
    &[
        FIRST,
        SECOND,
        &[
            (
                Some(1),
                Phi(&[(0, Register(0)), (1, Const(7)), (2, Const(7))]),
            ),
            (Some(2), FROM_BOTH),
            (None, END),
        ],
    ]
);

const PHI_IN_FIRST_BLOCK: Parts = program!(
    GLOBALS,
    0,
    &[&[(Some(0), Phi(&[])), (None, BRANCH)], SECOND, THIRD]
);

const PHI_BEHIND_OTHER: Parts = program!(
    GLOBALS,
    0,
    &[
        FIRST,
        SECOND,
        &[(Some(1), SUM), (Some(2), FROM_BOTH), (None, END)],
    ]
);

const NO_TERMINATOR: Parts = program!(
    GLOBALS,
    0,
    &[
        FIRST,
        SECOND,
        &[(Some(1), FROM_BOTH), (Some(2), FROM_BOTH), (Some(1), SUM)],
    ]
);

const TERMINATOR_INSIDE: Parts = program!(
    GLOBALS,
    0,
    &[&[(None, Unreachable), (None, BRANCH)], SECOND, THIRD]
);

const WRONG_TYPE: Parts = program!(
    GLOBALS,
    0,
    &[
        FIRST,
        SECOND,
        &[
            (Some(1), FROM_BOTH),
            (Some(2), FROM_BOTH),
            (None, Return(Some(Global(0)))),
        ],
    ]
);

const GLOBALS_OVERLAP: Parts = program!(
    &[(1, 4, b"\x01"), (1, 9, b"")],
    0,
    &[FIRST, SECOND, THIRD]
);

const MANY_BYTES: Parts = program!(
    &[(1, 4, b"\x01\x00\x00\x00\x00"), (2, 9, b"")],
    0,
    &[FIRST, SECOND, THIRD]
);

const MAIN_WITH_PARAMETER: Parts = program!(GLOBALS, 1, &[FIRST, SECOND, THIRD]);

/// Each with its change.
const CHANGED: [(&str, Parts); 13] = [
    ("unknown block", UNKNOWN_BLOCK),
    ("unknown register", UNKNOWN_REGISTER),
    ("large constant", LARGE_CONSTANT),
    ("missing predecessor", MISSING_PREDECESSOR),
    ("listed stranger", LISTED_STRANGER),
    ("phi in first block", PHI_IN_FIRST_BLOCK),
    ("phi behind other", PHI_BEHIND_OTHER),
    ("no terminator", NO_TERMINATOR),
    ("terminator inside", TERMINATOR_INSIDE),
    ("wrong type", WRONG_TYPE),
    ("globals overlap", GLOBALS_OVERLAP),
    ("many bytes", MANY_BYTES),
    ("main with parameter", MAIN_WITH_PARAMETER),
];

#[test]
fn one_change_each(rt: HostRuntime) -> Result<(), Fail> {
    let whole = build(rt.alloc(), &WHOLE)?;
    assert_eq!(rt; whole.function_count(), 1);
    assert_eq!(rt; whole.instr_count(), 6);
    assert_eq!(rt; whole.global_count(), 2);
    assert_eq!(rt; whole.main(), 0);
    for (change, parts) in &CHANGED {
        let refused = build(rt.alloc(), parts).err() == Some(ProgramError::Malformed);
        assert!(rt; refused, "at {change}");
    }
    Ok(())
}
