//! Rows: what the words hold before steps, worked out from the program and the order of its turns.

use crate::checks::{check, check_twice};
use crate::runs::{Row, Source};
use pg_crew::pg_ir::LibraryCall::{PgOut, PthreadCreate, PthreadJoin};
use pg_crew::pg_ir::Value::{Const, Function, Global as Variable, Register};
use pg_crew::pg_num::Width::{W32, W64};
use pg_crew::pg_num::layout::{GLOBALS_END, THREAD_GRANULES};
use pg_crew::pg_run_trace::TurnKind::{Create, Exit, Join, Load, Lock, Out, Start, Store, Unlock};
use pg_crew::pg_worker::Paused::{Done, Waiting};
use pg_test_samples::Line::{Knows, Load as Loads, Return, Store as Stores};
use pg_test_samples::{I32, I64, NULL, PTR, Sample, main_alone, thread_and_main};
use pg_words::layout::{GRANULE_WORDS, THREAD_WORDS, TURN_WORD};
use std::test::Fail;

/// Both halves of a number, 5 below and 7 above.
const BOTH: u64 = 7 * 0x1_0000_0000 + 5;

/// A thread stores 7 at the upper half of a number, and main 5 at the lower one.
const HALVES: Row = Row {
    source: Source::Of(Sample::StoresSideBySide),
    quantum: 100,
    input: &[],
    turns: &[
        (0, Start),
        (0, Create),
        (1, Start),
        (1, Exit),
        (0, Join),
        (0, Out),
        (0, Exit),
    ],
    watched: &[
        TURN_WORD,
        THREAD_WORDS + 1,
        GRANULE_WORDS + 1,
        GRANULE_WORDS + 2,
    ],
    before: &[
        (1, 0, &[0, 0, 0, 0]),
        (0, 3, &[0, 0, 0, 0]),
        (0, 3, &[1, 0, 0, 0]),
        (0, 4, &[2, 0, 0, 1]),
        (0, 5, &[2, 0, 5, 1]),
        (0, 6, &[2, 0, 5, 1]),
        (1, 0, &[2, 0, 5, 1]),
        (1, 0, &[3, 0, 5, 1]),
        (1, 1, &[3, 0, 5, 1]),
        (1, 2, &[3, 0, BOTH, 1]),
        (0, 6, &[4, 0, BOTH, 1]),
        (0, 7, &[5, 0, BOTH, 1]),
        (0, 8, &[5, 0, BOTH, 1]),
        (0, 9, &[6, 0, BOTH, 1]),
    ],
    steps: 14,
    segments: &[(1, Waiting), (0, Waiting), (1, Done), (0, Done)],
    behind: &[7, 0, BOTH, 1],
    threads: &[(&[BOTH], 0, 5), (&[], 0, 2)],
    wrote: &[true, true],
};

/// Two threads each sum the input, the first in the granule that is watched last, and add the sum to a number under a mutex.
const SUMS: Row = Row {
    source: Source::Of(Sample::SumsUnderMutex),
    quantum: 100,
    input: &[1, 2, 3],
    turns: &[
        (0, Start),
        (0, Create),
        (0, Create),
        (1, Start),
        (1, Lock),
        (1, Unlock),
        (1, Exit),
        (2, Start),
        (2, Lock),
        (2, Unlock),
        (2, Exit),
        (0, Join),
        (0, Join),
        (0, Out),
        (0, Exit),
    ],
    watched: &[
        TURN_WORD,
        GRANULE_WORDS + 1,
        GRANULE_WORDS + 7,
        GRANULE_WORDS + 8,
        GRANULE_WORDS + GLOBALS_END + THREAD_GRANULES,
    ],
    before: &[
        (2, 0, &[0, 0, 0, 0, 0]),
        (0, 23, &[0, 0, 0, 0, 0]),
        (0, 23, &[1, 0, 0, 0, 0]),
        (0, 24, &[1, 0, 0, 0, 0]),
        (0, 25, &[2, 0, 1, 0, 0]),
        (0, 26, &[3, 0, 1, 2, 0]),
        (0, 28, &[3, 0, 1, 2, 0]),
        (2, 0, &[3, 0, 1, 2, 0]),
        (1, 0, &[3, 0, 1, 2, 0]),
        (1, 0, &[4, 0, 1, 2, 0]),
        (1, 16, &[4, 0, 1, 2, 6]),
        (1, 17, &[5, 0, 1, 2, 6]),
        (1, 20, &[5, 0, 1, 2, 6]),
        (1, 21, &[5, 6, 1, 2, 6]),
        (1, 22, &[6, 6, 1, 2, 6]),
        (2, 0, &[7, 6, 1, 2, 6]),
        (2, 16, &[8, 6, 1, 2, 6]),
        (2, 17, &[9, 6, 1, 2, 6]),
        (2, 21, &[9, 12, 1, 2, 6]),
        (2, 22, &[10, 12, 1, 2, 6]),
        (0, 28, &[11, 12, 1, 2, 6]),
        (0, 29, &[12, 12, 1, 2, 6]),
        (0, 30, &[13, 12, 1, 2, 6]),
        (0, 31, &[13, 12, 1, 2, 6]),
        (0, 32, &[14, 12, 1, 2, 6]),
    ],
    steps: 114,
    segments: &[
        (2, Waiting),
        (0, Waiting),
        (2, Waiting),
        (1, Done),
        (2, Done),
        (0, Done),
    ],
    behind: &[15, 12, 1, 2, 6],
    threads: &[(&[12], 0, 7), (&[], 0, 4), (&[], 0, 4)],
    wrote: &[true, true, true],
};

/// One thread sums the quotients of 100 by each number, and another divides 1 by the second; main stores the value that it joins.
const QUOTIENTS: Row = Row {
    source: Source::Of(Sample::TwoThatDivide),
    quantum: 10,
    input: &[5, 10],
    turns: &[
        (0, Start),
        (0, Out),
        (0, Create),
        (0, Create),
        (1, Start),
        (2, Start),
        (2, Exit),
        (1, Exit),
        (0, Join),
        (0, Join),
        (0, Out),
        (0, Exit),
    ],
    watched: &[
        TURN_WORD,
        THREAD_WORDS + 1,
        THREAD_WORDS + 2,
        GRANULE_WORDS + 1,
        GRANULE_WORDS + 2,
        GRANULE_WORDS + 3,
    ],
    before: &[
        (0, 13, &[0, 0, 0, 0, 0, 0]),
        (0, 13, &[1, 0, 0, 0, 0, 0]),
        (0, 14, &[2, 0, 0, 0, 0, 0]),
        (0, 15, &[3, 0, 0, 1, 0, 0]),
        (0, 16, &[4, 0, 0, 1, 2, 0]),
        (0, 18, &[4, 0, 0, 1, 2, 0]),
        (2, 23, &[4, 0, 0, 1, 2, 0]),
        (1, 0, &[4, 0, 0, 1, 2, 0]),
        (1, 0, &[5, 0, 0, 1, 2, 0]),
        (1, 12, &[5, 0, 0, 1, 2, 0]),
        (2, 23, &[5, 0, 0, 1, 2, 0]),
        (2, 23, &[6, 0, 0, 1, 2, 0]),
        (2, 25, &[6, 0, 0, 1, 2, 0]),
        (1, 12, &[7, 0, 0, 1, 2, 0]),
        (0, 18, &[8, 30, 0, 1, 2, 0]),
        (0, 19, &[9, 30, 0, 1, 2, 30]),
        (0, 20, &[10, 30, 0, 1, 2, 30]),
        (0, 21, &[10, 30, 0, 1, 2, 30]),
        (0, 22, &[11, 30, 0, 1, 2, 30]),
    ],
    steps: 39,
    segments: &[
        (0, Waiting),
        (2, Waiting),
        (1, Waiting),
        (2, Done),
        (1, Done),
        (0, Done),
    ],
    behind: &[12, 30, 0, 1, 2, 30],
    threads: &[(&[7, 30], 0, 8), (&[], 30, 2), (&[], 0, 2)],
    wrote: &[true, false, false],
};

/// Three threads print their argument twice, and end with it.
const ARGUMENTS: Row = Row {
    source: Source::Of(Sample::FourThreads),
    quantum: 100,
    input: &[],
    turns: &[
        (0, Start),
        (0, Create),
        (0, Create),
        (0, Create),
        (1, Start),
        (1, Out),
        (1, Out),
        (1, Exit),
        (2, Start),
        (2, Out),
        (2, Out),
        (2, Exit),
        (3, Start),
        (3, Out),
        (3, Out),
        (3, Exit),
        (0, Join),
        (0, Join),
        (0, Join),
        (0, Exit),
    ],
    watched: &[
        TURN_WORD,
        THREAD_WORDS + 1,
        THREAD_WORDS + 2,
        THREAD_WORDS + 3,
        GRANULE_WORDS + 1,
    ],
    before: &[
        (0, 4, &[0, 0, 0, 0, 0]),
        (0, 4, &[1, 0, 0, 0, 0]),
        (0, 5, &[2, 1, 0, 0, 1]),
        (0, 6, &[3, 1, 2, 0, 2]),
        (0, 7, &[4, 1, 2, 3, 3]),
        (3, 0, &[4, 1, 2, 3, 3]),
        (1, 0, &[4, 1, 2, 3, 3]),
        (1, 0, &[5, 1, 2, 3, 3]),
        (1, 1, &[5, 1, 2, 3, 3]),
        (1, 2, &[6, 1, 2, 3, 3]),
        (1, 3, &[7, 1, 2, 3, 3]),
        (2, 0, &[8, 1, 2, 3, 3]),
        (2, 3, &[11, 1, 2, 3, 3]),
        (3, 0, &[12, 1, 2, 3, 3]),
        (3, 3, &[15, 1, 2, 3, 3]),
        (0, 7, &[16, 1, 2, 3, 3]),
        (0, 8, &[17, 1, 2, 3, 3]),
        (0, 9, &[18, 1, 2, 3, 3]),
        (0, 10, &[19, 1, 2, 3, 3]),
    ],
    steps: 25,
    segments: &[
        (0, Waiting),
        (3, Waiting),
        (1, Done),
        (2, Done),
        (3, Done),
        (0, Done),
    ],
    behind: &[20, 1, 2, 3, 3],
    threads: &[
        (&[], 0, 8),
        (&[1, 1], 1, 4),
        (&[2, 2], 2, 4),
        (&[3, 3], 3, 4),
    ],
    wrote: &[true, false, false, false],
};

/// A thread counts to 2 and stores it, and main 100 at the same place before: both stores are turns.
const RACING: Row = Row {
    source: Source::Of(Sample::RacingStores),
    quantum: 100,
    input: &[2],
    turns: &[
        (0, Start),
        (0, Create),
        (0, Store),
        (1, Start),
        (1, Store),
        (1, Exit),
        (0, Join),
        (0, Out),
        (0, Exit),
    ],
    watched: &[TURN_WORD, GRANULE_WORDS + 1, GRANULE_WORDS + 2],
    before: &[
        (1, 0, &[0, 0, 0]),
        (0, 12, &[0, 0, 0]),
        (0, 12, &[1, 0, 0]),
        (0, 13, &[2, 0, 1]),
        (0, 18, &[2, 0, 1]),
        (0, 19, &[3, 100, 1]),
        (0, 20, &[3, 100, 1]),
        (1, 0, &[3, 100, 1]),
        (1, 0, &[4, 100, 1]),
        (1, 10, &[4, 100, 1]),
        (1, 11, &[5, 2, 1]),
        (0, 20, &[6, 2, 1]),
        (0, 21, &[7, 2, 1]),
        (0, 22, &[7, 2, 1]),
        (0, 23, &[8, 2, 1]),
    ],
    steps: 42,
    segments: &[(1, Waiting), (0, Waiting), (1, Done), (0, Done)],
    behind: &[9, 2, 1],
    threads: &[(&[2], 0, 6), (&[], 0, 3)],
    wrote: &[true, true],
};

/// A thread stores 1, and main reads it before, in steps by turns: the load is a turn, and so is the store, and each waits for its turn.
const EARLY_LOAD: Row = Row {
    source: Source::Of(Sample::PrintIfStored),
    quantum: 1,
    input: &[],
    turns: &[
        (0, Start),
        (0, Create),
        (1, Start),
        (0, Load),
        (1, Store),
        (1, Exit),
        (0, Join),
        (0, Exit),
    ],
    watched: &[TURN_WORD, GRANULE_WORDS + 1, GRANULE_WORDS + 2],
    before: &[
        (0, 2, &[0, 0, 0]),
        (0, 2, &[1, 0, 0]),
        (0, 3, &[2, 1, 0]),
        (1, 0, &[2, 1, 0]),
        (1, 0, &[3, 1, 0]),
        (0, 3, &[3, 1, 0]),
        (0, 4, &[4, 1, 0]),
        (0, 8, &[4, 1, 0]),
        (1, 0, &[4, 1, 0]),
        (1, 1, &[5, 1, 1]),
        (0, 8, &[6, 1, 1]),
        (0, 9, &[7, 1, 1]),
    ],
    steps: 13,
    segments: &[
        (0, Waiting),
        (1, Waiting),
        (0, Waiting),
        (1, Done),
        (0, Done),
    ],
    behind: &[8, 1, 1],
    threads: &[(&[], 0, 5), (&[], 0, 3)],
    wrote: &[true, true],
};

/// A number whose lower half is 0 and whose upper half 9, and the same with a lower half of 5, and of 7.
const UPPER: u64 = 9 * 0x1_0000_0000;

const UPPER_5: u64 = UPPER + 5;

const UPPER_7: u64 = UPPER + 7;

/// A thread stores 7 at the lower half of a number whose upper half is 9, and main 5 at the same place before: both stores are turns, and
/// each keeps the upper half.
const HALF: Row = Row {
    source: Source::Own(thread_and_main!(
        &[(1, 8, b"\0\0\0\0\x09"), (2, 8, b"")],
        &[PTR],
        &[&[
            (None, Stores(W32, Const(7), Variable(0))),
            (None, Return(Some(NULL))),
        ]],
        &[I32, I64, I32, I64],
        &[&[
            (
                Some(0),
                Knows(PthreadCreate, &[Variable(1), NULL, Function(0), NULL]),
            ),
            (None, Stores(W32, Const(5), Variable(0))),
            (Some(1), Loads(W64, Variable(1))),
            (Some(2), Knows(PthreadJoin, &[Register(1), NULL])),
            (Some(3), Loads(W64, Variable(0))),
            (None, Knows(PgOut, &[Register(3)])),
            (None, Return(Some(Const(0)))),
        ]]
    )),
    quantum: 100,
    input: &[],
    turns: &[
        (0, Start),
        (0, Create),
        (0, Store),
        (1, Start),
        (1, Store),
        (1, Exit),
        (0, Join),
        (0, Out),
        (0, Exit),
    ],
    watched: &[TURN_WORD, GRANULE_WORDS + 1, GRANULE_WORDS + 2],
    before: &[
        (1, 0, &[0, UPPER, 0]),
        (0, 2, &[0, UPPER, 0]),
        (0, 2, &[1, UPPER, 0]),
        (0, 3, &[2, UPPER, 1]),
        (0, 4, &[3, UPPER_5, 1]),
        (0, 5, &[3, UPPER_5, 1]),
        (1, 0, &[3, UPPER_5, 1]),
        (1, 0, &[4, UPPER_5, 1]),
        (1, 1, &[5, UPPER_7, 1]),
        (0, 5, &[6, UPPER_7, 1]),
        (0, 6, &[7, UPPER_7, 1]),
        (0, 7, &[7, UPPER_7, 1]),
        (0, 8, &[8, UPPER_7, 1]),
    ],
    steps: 13,
    segments: &[(1, Waiting), (0, Waiting), (1, Done), (0, Done)],
    behind: &[9, UPPER_7, 1],
    threads: &[(&[UPPER_7], 0, 6), (&[], 0, 3)],
    wrote: &[true, true],
};

/// The bytes 1 to 8, the first of them lowest.
const FIRST_BYTES: u64 = 0x0807_0605_0403_0201;

/// Main reads the first eight of the nine bytes with which a global begins.
const BYTES: Row = Row {
    source: Source::Own(main_alone!(
        &[(1, 16, b"\x01\x02\x03\x04\x05\x06\x07\x08\x09")],
        &[I64],
        &[&[
            (Some(0), Loads(W64, Variable(0))),
            (None, Knows(PgOut, &[Register(0)])),
            (None, Return(Some(Const(0)))),
        ]]
    )),
    quantum: 100,
    input: &[],
    turns: &[(0, Start), (0, Out), (0, Exit)],
    watched: &[
        TURN_WORD,
        GRANULE_WORDS + 1,
        GRANULE_WORDS + 2,
        GRANULE_WORDS + 3,
    ],
    before: &[
        (0, 0, &[0, FIRST_BYTES, 9, 0]),
        (0, 0, &[1, FIRST_BYTES, 9, 0]),
        (0, 1, &[1, FIRST_BYTES, 9, 0]),
        (0, 2, &[2, FIRST_BYTES, 9, 0]),
    ],
    steps: 4,
    segments: &[(0, Done)],
    behind: &[3, FIRST_BYTES, 9, 0],
    threads: &[(&[FIRST_BYTES], 0, 3)],
    wrote: &[false],
};

#[test]
fn stores_side_by_side_keep_both_halves(rt: HostRuntime) -> Result<(), Fail> {
    check(&rt, rt.alloc(), &HALVES)
}

#[test]
fn sums_are_added_under_a_mutex(rt: HostRuntime) -> Result<(), Fail> {
    check(&rt, rt.alloc(), &SUMS)
}

#[test]
fn a_join_stores_the_value_of_its_thread(rt: HostRuntime) -> Result<(), Fail> {
    check(&rt, rt.alloc(), &QUOTIENTS)
}

#[test]
fn creates_leave_arguments(rt: HostRuntime) -> Result<(), Fail> {
    check(&rt, rt.alloc(), &ARGUMENTS)
}

#[test]
fn racing_stores_are_turns(rt: HostRuntime) -> Result<(), Fail> {
    check(&rt, rt.alloc(), &RACING)
}

#[test]
fn racing_stores_of_a_half_keep_the_other_half(rt: HostRuntime) -> Result<(), Fail> {
    check(&rt, rt.alloc(), &HALF)
}

#[test]
fn a_racing_load_is_a_turn(rt: HostRuntime) -> Result<(), Fail> {
    check(&rt, rt.alloc(), &EARLY_LOAD)
}

#[test]
fn memory_begins_with_bytes(rt: HostRuntime) -> Result<(), Fail> {
    check(&rt, rt.alloc(), &BYTES)
}

#[test]
fn a_room_is_swept_behind_a_run(rt: HostRuntime) -> Result<(), Fail> {
    check_twice(&rt, rt.alloc(), &HALVES)
}

#[test]
fn the_words_of_threads_are_cleared_behind_a_run(rt: HostRuntime) -> Result<(), Fail> {
    check_twice(&rt, rt.alloc(), &ARGUMENTS)
}
