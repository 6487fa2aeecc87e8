//! Slices of programs in which a branch rests on what came before, worked out by hand.

use crate::slices::tests::programs::{
    DIVIDES, HANDS_ON, PRINTS_AN_ODD_SUM, STORES_AT_THE_SELECTED, SWITCHES,
};
use crate::slices::tests::row::{Ask, Row};
use crate::slices::tests::runs::check;
use pg_precondition::Test;
use pg_slice_rules::Decision;
use pg_test_samples::Sample;
use std::test::Fail;

/// The words of the pointers to the programs' globals, which have eight bytes each and begin at the granules 1, 2 and 3.
const FIRST: u64 = (1 << 42) + (8 << 21);

const SECOND: u64 = (2 << 42) + (8 << 21);

const THIRD: u64 = (3 << 42) + (8 << 21);

/// The steps are main's start, the first number, the comparison, the branch on it (3), the same with the second number (6), and
/// main's exit. The second branch has a region, which stores at the pointer that the first branch chose. So the first is pinned,
/// though it has a region of its own that accesses nothing, and so it is where the second branch is pinned alone.
const ROOTS: Row = Row {
    input: &[0, 0],
    quantum: 100,
    free: &[(3, 2), (6, 4)],
    pinned: &[3],
    exact: &[],
    checks: 2,
    tests: &[Test::Eq(0), Test::Bounds(1, 8)],
    reads: 1,
    admitted: &[&[0, 0], &[0, 7], &[]],
    others: &[&[1, 0]],
    passes: &[
        Ask {
            taken: &[Decision::Pinned(6)],
            missing: &[Decision::Pinned(3)],
        },
        Ask {
            taken: &[Decision::Pinned(3)],
            missing: &[],
        },
    ],
    runs: &[],
};

#[test]
fn the_branch_that_chooses_a_root_is_pinned(rt: HostRuntime) -> Result<(), Fail> {
    check(&rt, rt.alloc(), &Sample::StoreAtOneOfTwo.parts(), &ROOTS)
}

/// The sum of two numbers, of which a print depends. Main has its start, five steps before the loop, two rounds of eleven, 6 to
/// 27, a last test of four, 28 to 31, the load of the sum (32), a cast, and the branch to the print (34), which isn't free. Its
/// condition rests on the sum, which the last round stored (24) behind the tests of the loop (9, 20 and 31): so these are pinned.
/// The sum rests on the loads of the rounds, of the counter (6, 17 and 28) and of the sum (11 and 22), and on the stores before
/// each of them: of the sum (3, 13 and 24) and of the counter (4, 15 and 26). The checks are place and bounds of each of these
/// twelve, four conditions, and at each test the bounds of the loop's four accesses; they rest on two numbers, and on the length
/// at each test. The input has two numbers then, whose sum is odd.
const ODD: Row = Row {
    input: &[1, 2],
    quantum: 100,
    free: &[(9, 3), (20, 3), (31, 3)],
    pinned: &[9, 20, 31, 34],
    exact: &[3, 4, 6, 11, 13, 15, 17, 22, 24, 26, 28, 32],
    checks: 40,
    tests: &[],
    reads: 5,
    admitted: &[&[1, 2], &[-4, 7]],
    others: &[&[2, 2], &[1], &[1, 2, 4]],
    passes: &[],
    runs: &[],
};

#[test]
fn a_sum_that_a_print_depends_on_is_counted(rt: HostRuntime) -> Result<(), Fail> {
    check(&rt, rt.alloc(), &PRINTS_AN_ODD_SUM, &ODD)
}

/// Main has the steps 0 to 3, start, the number, a cast and the create; the thread has its start and its exit; then come the
/// join (6), the load of what it wrote (7), a comparison and the branch (9). The joined number is that of the exit, which is the
/// argument of the create: neither is fixed, but both are known. The checks are the create's place, its null attributes, its
/// function and the bounds that it writes; the join's thread, its place and the bounds that it writes; place and bounds of the
/// load; the condition.
const JOINED: Row = Row {
    input: &[7],
    quantum: 100,
    free: &[],
    pinned: &[9],
    exact: &[7],
    checks: 10,
    tests: &[
        Test::Eq(FIRST),
        Test::Eq(0),
        Test::Eq(0),
        Test::Bounds(1, 8),
        Test::Eq(1),
        Test::Eq(SECOND),
        Test::Bounds(2, 8),
        Test::Eq(SECOND),
        Test::Bounds(2, 8),
        Test::Eq(1),
    ],
    reads: 1,
    admitted: &[&[7], &[-1]],
    others: &[&[0], &[]],
    passes: &[],
    runs: &[],
};

#[test]
fn a_joined_number_is_that_of_the_exit(rt: HostRuntime) -> Result<(), Fail> {
    check(&rt, rt.alloc(), &HANDS_ON, &JOINED)
}

/// Main has its start, a load (1), a comparison, the select, the number, a comparison, the branch (6) and its exit. The branch's
/// region stores at what is selected, of which no bounds are known before the condition is: so the load is exact. It loads zero,
/// so that the second global is selected.
const SELECTED: Row = Row {
    input: &[0],
    quantum: 100,
    free: &[(6, 2)],
    pinned: &[],
    exact: &[1],
    checks: 3,
    tests: &[Test::Eq(THIRD), Test::Bounds(3, 8), Test::Bounds(2, 8)],
    reads: 0,
    admitted: &[&[0], &[4]],
    others: &[],
    passes: &[],
    runs: &[],
};

#[test]
fn a_select_passes_no_bounds_on(rt: HostRuntime) -> Result<(), Fail> {
    check(&rt, rt.alloc(), &STORES_AT_THE_SELECTED, &SELECTED)
}

/// Main has its start, the number, the switch (2), a print, a branch and its exit. The switch takes its default, which is for
/// all numbers but those of its cases.
const DEFAULT: Row = Row {
    input: &[5],
    quantum: 100,
    free: &[],
    pinned: &[2],
    exact: &[],
    checks: 2,
    tests: &[Test::Ne(1), Test::Ne(2)],
    reads: 1,
    admitted: &[&[5], &[0], &[-7]],
    others: &[&[1], &[2]],
    passes: &[],
    runs: &[],
};

#[test]
fn a_default_is_for_all_other_numbers(rt: HostRuntime) -> Result<(), Fail> {
    check(&rt, rt.alloc(), &SWITCHES, &DEFAULT)
}

/// And here it takes a case.
const CASE: Row = Row {
    input: &[2],
    quantum: 100,
    free: &[],
    pinned: &[2],
    exact: &[],
    checks: 1,
    tests: &[Test::Eq(2)],
    reads: 1,
    admitted: &[&[2]],
    others: &[&[1], &[5]],
    passes: &[],
    runs: &[],
};

#[test]
fn a_case_is_for_its_number(rt: HostRuntime) -> Result<(), Fail> {
    check(&rt, rt.alloc(), &SWITCHES, &CASE)
}

/// Main has its start, the number, the quotient, a comparison, the branch (4), a print, a branch and its exit. A quotient that
/// doesn't exist isn't another than 10.
const QUOTIENT: Row = Row {
    input: &[11],
    quantum: 100,
    free: &[],
    pinned: &[4],
    exact: &[],
    checks: 1,
    tests: &[Test::Eq(1)],
    reads: 1,
    admitted: &[&[11], &[9]],
    others: &[&[10], &[0], &[]],
    passes: &[],
    runs: &[],
};

#[test]
fn a_quotient_by_zero_is_not_admitted(rt: HostRuntime) -> Result<(), Fail> {
    check(&rt, rt.alloc(), &DIVIDES, &QUOTIENT)
}
