//! Slices of the sample programs, worked out by hand, and guided runs along their schedules.

use crate::slices::tests::row::{Ask, Guided, Row};
use crate::slices::tests::runs::check;
use pg_ir::{InstrId, TrapName};
use pg_precondition::Test;
use pg_run::GuidedEnd;
use pg_slice_rules::Decision;
use pg_test_samples::Sample;
use std::test::Fail;

/// Two threads that store at one place: main's load of the thread's number is exact, since a join waits for that thread. Steps
/// 0 and 1 are main's, start and create; 2 to 11 the thread's, with its test (9), its store and its exit; then main has 12 to
/// 21, a branch and three rounds of three steps, 22, its store, and 23, the load. The checks are the create's three operands
/// and its bounds; the bounds of the thread's store and load in its own memory, and of the two accesses of its loop; place and
/// bounds of the two stores, which are turns, and of the exact load; the join's two operands; the bounds of the last load. Main's
/// store comes behind the thread's whatever the thread has counted.
const RACES: Row = Row {
    input: &[0],
    quantum: 1,
    free: &[(9, 3), (15, 6), (18, 6), (21, 6)],
    pinned: &[],
    exact: &[23],
    checks: 17,
    tests: &[],
    reads: 0,
    admitted: &[&[], &[5]],
    others: &[],
    passes: &[],
    runs: &[
        Guided {
            input: &[0],
            admitted: true,
            output: b"100\n",
            end: GuidedEnd::Exit(0),
            turns: 9,
        },
        Guided {
            input: &[1],
            admitted: true,
            output: b"100\n",
            end: GuidedEnd::Exit(0),
            turns: 9,
        },
    ],
};

#[test]
fn racing_stores_are_kept_apart_by_their_order(rt: HostRuntime) -> Result<(), Fail> {
    check(&rt, rt.alloc(), &Sample::RacingStores.parts(), &RACES)
}

/// Sums under a mutex, of which `docs/PRECONDITIONS.md` tells: main's loads of the threads' numbers are exact. Main has the
/// steps 0 to 3, start, the second place and two creates. The first thread has its start, five steps before the loop, three
/// rounds of eleven, a last test of four and seven up to its exit, 4 to 53; so has the other, 54 to 103. A test of the loop
/// ends with the branch, its fourth step; only the first of each thread is live. The checks are three operands and bounds of
/// each create; of each thread the bounds of seven, its first two stores, the test's load and the loop's four accesses, the two
/// operands at the mutex, and the bounds of three between them; place and bounds of the two loads; two operands of each join; the
/// bounds of the last load. Two threads sum the input, so the whole is twice as much.
const SUMS: Row = Row {
    input: &[1, 2, 3],
    quantum: 100,
    free: &[
        (13, 3),
        (24, 3),
        (35, 3),
        (46, 3),
        (63, 3),
        (74, 3),
        (85, 3),
        (96, 3),
    ],
    pinned: &[],
    exact: &[104, 105],
    checks: 41,
    tests: &[],
    reads: 0,
    admitted: &[&[-1, 0]],
    others: &[],
    passes: &[
        Ask {
            taken: &[],
            missing: &[Decision::Exact(104), Decision::Exact(105)],
        },
        Ask {
            taken: &[Decision::Exact(104), Decision::Exact(105)],
            missing: &[],
        },
    ],
    runs: &[
        Guided {
            input: &[1, 2, 3],
            admitted: true,
            output: b"12\n",
            end: GuidedEnd::Exit(0),
            turns: 15,
        },
        Guided {
            input: &[],
            admitted: true,
            output: b"0\n",
            end: GuidedEnd::Exit(0),
            turns: 15,
        },
        Guided {
            input: &[3],
            admitted: true,
            output: b"6\n",
            end: GuidedEnd::Exit(0),
            turns: 15,
        },
        Guided {
            input: &[3, 3],
            admitted: true,
            output: b"12\n",
            end: GuidedEnd::Exit(0),
            turns: 15,
        },
        Guided {
            input: &[3; 40],
            admitted: true,
            output: b"240\n",
            end: GuidedEnd::Exit(0),
            turns: 15,
        },
        Guided {
            input: &[3; 500],
            admitted: true,
            output: b"3000\n",
            end: GuidedEnd::Exit(0),
            turns: 15,
        },
    ],
};

#[test]
fn sums_are_of_any_length(rt: HostRuntime) -> Result<(), Fail> {
    check(&rt, rt.alloc(), &Sample::SumsUnderMutex.parts(), &SUMS)
}

/// Two threads that each store in a loop at elements of one array: their intervals overlap, since both begin before one ends,
/// and each store may be at any element, so each step at the loop's branch is pinned and each store exact. The turns are main's
/// start and creates, both starts, both exits, two joins, a print and main's exit. Main has the steps 0 to 3, both starts are 4
/// and 5. The first thread goes on with three steps, three rounds of seven, a last test of two, and its exit, 6 to 32: the
/// branch is the second step of a round and of the last test, the store the fifth. So the other from 33 to 59. The checks are
/// three operands and bounds of each create; of each thread four conditions, and place and bounds of three stores; two operands
/// of each join; the bounds of two loads. What a branch asks of the loop's store is no check, since its array is a global, at the
/// same place on each input. Each thread reads one number. Another count of rounds isn't admitted; of such an input nothing is
/// said, and here the same turns come about.
const STORES: Row = Row {
    input: &[3],
    quantum: 10,
    free: &[
        (10, 3),
        (17, 3),
        (24, 3),
        (31, 3),
        (37, 3),
        (44, 3),
        (51, 3),
        (58, 3),
    ],
    pinned: &[10, 17, 24, 31, 37, 44, 51, 58],
    exact: &[13, 20, 27, 40, 47, 54],
    checks: 34,
    tests: &[],
    reads: 2,
    admitted: &[&[3]],
    others: &[&[4], &[]],
    passes: &[],
    runs: &[
        Guided {
            input: &[3, 9],
            admitted: true,
            output: b"6\n",
            end: GuidedEnd::Exit(0),
            turns: 11,
        },
        Guided {
            input: &[2],
            admitted: false,
            output: b"4\n",
            end: GuidedEnd::Exit(0),
            turns: 11,
        },
    ],
};

#[test]
fn elements_that_may_meet_are_counted(rt: HostRuntime) -> Result<(), Fail> {
    check(&rt, rt.alloc(), &Sample::StoresInALoop.parts(), &STORES)
}

/// A thread divides by each number of the input and another by the second one, and both are joined by the numbers that main
/// loads. The loop accesses nothing, so it is free, and a quotient may be one that doesn't exist. The turns are main's start, a
/// print and two creates, both starts, the second thread's exit, the first one's, and main's last four. Main has the steps 0 to
/// 3, the starts are 4 and 5, the second thread goes on with three, 6 to 8, the first one with two, two rounds of seven, a last
/// test of two, a cast and its exit, 9 to 28; then come main's loads. The checks are three operands and bounds of each create;
/// place and bounds of the two loads; two operands of each join, and the bounds that the first writes; the bounds of the last
/// load. An input may be admitted on which a thread traps: the second one before its exit, turn 6, or the first one before
/// turn 7.
const QUOTIENTS: Row = Row {
    input: &[5, 10],
    quantum: 10,
    free: &[(12, 3), (19, 3), (26, 3)],
    pinned: &[],
    exact: &[29, 30],
    checks: 18,
    tests: &[],
    reads: 0,
    admitted: &[&[]],
    others: &[],
    passes: &[],
    runs: &[
        Guided {
            input: &[5, 10],
            admitted: true,
            output: b"7\n30\n",
            end: GuidedEnd::Exit(0),
            turns: 12,
        },
        Guided {
            input: &[5, 0],
            admitted: true,
            output: b"7\n",
            end: GuidedEnd::Trap(TrapName::DivideByZero, InstrId(24)),
            turns: 6,
        },
        Guided {
            input: &[0, 10],
            admitted: true,
            output: b"7\n",
            end: GuidedEnd::Trap(TrapName::DivideByZero, InstrId(7)),
            turns: 7,
        },
    ],
};

#[test]
fn quotients_are_free(rt: HostRuntime) -> Result<(), Fail> {
    check(&rt, rt.alloc(), &Sample::TwoThatDivide.parts(), &QUOTIENTS)
}

/// A thread waits and another wakes it: all operands are constants, nothing branches and nothing is loaded or stored. The
/// checks are three operands and bounds of each create; one operand of each lock, unlock and broadcast, two of the wait and
/// two again where it wakes; two operands of each join.
const WAKES: Row = Row {
    input: &[],
    quantum: 100,
    free: &[],
    pinned: &[],
    exact: &[],
    checks: 21,
    tests: &[],
    reads: 0,
    admitted: &[&[]],
    others: &[],
    passes: &[],
    runs: &[Guided {
        input: &[7],
        admitted: true,
        output: b"",
        end: GuidedEnd::Exit(0),
        turns: 17,
    }],
};

#[test]
fn calls_with_constants_ask_for_nothing(rt: HostRuntime) -> Result<(), Fail> {
    check(&rt, rt.alloc(), &Sample::WaitAndBroadcast.parts(), &WAKES)
}

/// A loop that prints isn't free: each of its tests is pinned. They are the second step of a round, which is a comparison, the
/// branch, a print, a sum and a branch; before them main has its start, the read of the input and a branch. On other inputs a
/// third print comes where main's exit is the turn, or an exit where the second print is.
const PRINTS: Row = Row {
    input: &[2],
    quantum: 100,
    free: &[],
    pinned: &[4, 9, 14],
    exact: &[],
    checks: 3,
    tests: &[Test::Eq(1), Test::Eq(1), Test::Eq(0)],
    reads: 1,
    admitted: &[&[2], &[2, 9]],
    others: &[],
    passes: &[],
    runs: &[
        Guided {
            input: &[2, 5],
            admitted: true,
            output: b"0\n1\n",
            end: GuidedEnd::Exit(0),
            turns: 4,
        },
        Guided {
            input: &[3],
            admitted: false,
            output: b"0\n1\n",
            end: GuidedEnd::Strayed,
            turns: 3,
        },
        Guided {
            input: &[1],
            admitted: false,
            output: b"0\n",
            end: GuidedEnd::Strayed,
            turns: 2,
        },
    ],
};

#[test]
fn a_loop_that_prints_is_pinned(rt: HostRuntime) -> Result<(), Fail> {
    check(&rt, rt.alloc(), &Sample::PrintInALoop.parts(), &PRINTS)
}
