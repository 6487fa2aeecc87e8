//! Sessions and a trial whose workers park while their turns aren't due, through the top call.

use crate::free::RACING_STORES;
use crate::memory::{shelf_of, source_of, words_of};
use pg_commands::pg_go::{AnyParkers, Crew, Park, Parkers, Parking};
use pg_commands::{Status, peregrine};
use pg_free::Free;
use pg_io::MemorySink;
use pg_session_trial::trial_program;
use std::alloc::{AllocError, Global};
use std::process::Abort;
use std::sync::Wait;
use std::test::Fail;
use std::thread::Threads;

/// Two threads divide by numbers of the input.
const QUOTIENTS: &[u8] = b"declare i64 @pg_in(i64)\n\
declare i64 @pg_in_len()\n\
declare void @pg_out(i64)\n\
declare i32 @pthread_create(ptr, ptr, ptr, ptr)\n\
declare i32 @pthread_join(i64, ptr)\n\
@t = global i64 0\n\
@u = global i64 0\n\
@r = global i64 0\n\
define ptr @f(ptr %x) {\n\
entry:\n\
  %n = call i64 @pg_in_len()\n\
  br label %c\n\
c:\n\
  %i = phi i64 [ 0, %entry ], [ %j, %b ]\n\
  %s = phi i64 [ 0, %entry ], [ %r, %b ]\n\
  %d = icmp slt i64 %i, %n\n\
  br i1 %d, label %b, label %e\n\
b:\n\
  %v = call i64 @pg_in(i64 %i)\n\
  %q = sdiv i64 100, %v\n\
  %r = add i64 %s, %q\n\
  %j = add i64 %i, 1\n\
  br label %c\n\
e:\n\
  %y = inttoptr i64 %s to ptr\n\
  ret ptr %y\n\
}\n\
define i32 @main() {\n\
entry:\n\
  call void @pg_out(i64 7)\n\
  %1 = call i32 @pthread_create(ptr @t, ptr null, ptr @f, ptr null)\n\
  %2 = call i32 @pthread_create(ptr @u, ptr null, ptr @g, ptr null)\n\
  %a = load i64, ptr @t\n\
  %b = load i64, ptr @u\n\
  %3 = call i32 @pthread_join(i64 %a, ptr @r)\n\
  %4 = call i32 @pthread_join(i64 %b, ptr null)\n\
  %z = load i64, ptr @r\n\
  call void @pg_out(i64 %z)\n\
  ret i32 0\n\
}\n\
define ptr @g(ptr %x) {\n\
  %v = call i64 @pg_in(i64 1)\n\
  %q = sdiv i64 1, %v\n\
  ret ptr null\n\
}\n";

/// A command line, the bytes of the source, what it writes, and by how much the count of the crew that runs workers rises.
#[derive(Clone, Copy)]
struct Row {
    line: &'static str,
    input: &'static [u8],
    written: &'static [u8],
    turns: u64,
}

/// Two threads sum the input under a mutex.
const SUMS: Row = Row {
    line: "serve x",
    input: b"1 2 3\n10 20\n\n",
    written: b"recorded 0\n12\nexit 0 after 15 turns\n\
reused 0\n60\nexit 0 after 15 turns\n\
reused 0\n0\nexit 0 after 15 turns\n",
    turns: 30,
};

/// Two stores that race.
const RACES: Row = Row {
    line: "serve x --quantum 1",
    input: b"0\n1\n",
    written: b"recorded 0\n100\nexit 0 after 9 turns\nreused 0\n100\nexit 0 after 9 turns\n",
    turns: 9,
};

/// On the second line both threads trap, and the one that owns the next turn is named.
const DIVISIONS: Row = Row {
    line: "serve x --quantum 10",
    input: b"5 10\n5 0\n",
    written: b"recorded 0\n7\n30\nexit 0 after 12 turns\n\
reused 0\n7\ntrap DivideByZero at 24 after 6 turns\n",
    turns: 6,
};

const TRIAL: Row = Row {
    line: "trial 7",
    input: b"",
    written: b"trial 7\nlines 500\nrecorded 1\nreused 499\nrefused 0\nturns 7500\nsum 43420000\n",
    turns: 7_485,
};

/// The status of a row's command on the program `x`. This crew runs workers.
fn status_of<R: Threads + Wait + Sync, C: Crew + Drop>(
    rt: &R,
    alloc: Global,
    program: &[u8],
    row: &Row,
    crew: &mut C,
    out: &mut MemorySink,
) -> Result<Status, AllocError> {
    let words = words_of(alloc, row.line)?;
    let mut shelf = shelf_of(alloc, program)?;
    let mut src = source_of(alloc, row.input)?;
    let mut free = Free::new();
    Ok(peregrine(
        rt, alloc, &words, &mut src, &mut shelf, out, &mut free, crew,
    ))
}

/// What a row's command writes, and by how much the crew's count rises with it.
fn expect_row<R: Threads + Wait + Abort + Sync, C: Crew + Drop>(
    rt: &R,
    alloc: Global,
    program: &[u8],
    row: &Row,
    crew: &mut C,
) -> Result<(), Fail> {
    let before = crew.count();
    let mut out = MemorySink::new(alloc, 4_000, Vec::new(alloc))?;
    let status = status_of(rt, alloc, program, row, crew, &mut out)?;
    assert_eq!(rt; status, Status::Done, "of {}", row.line);
    assert_eq!(rt; out.bytes(), row.written, "of {}", row.line);
    assert_eq!(rt;
        crew.count(),
        before.saturating_add(row.turns),
        "of {}",
        row.line
    );
    Ok(())
}

/// Each row, one after another by this crew.
fn expect_rows<R: Threads + Wait + Abort + Sync, C: Crew + Drop>(
    rt: &R,
    alloc: Global,
    crew: &mut C,
) -> Result<(), Fail> {
    expect_row(rt, alloc, trial_program().as_bytes(), &SUMS, crew)?;
    expect_row(rt, alloc, RACING_STORES, &RACES, crew)?;
    expect_row(rt, alloc, QUOTIENTS, &DIVISIONS, crew)?;
    expect_row(rt, alloc, b"", &TRIAL, crew)
}

#[test]
fn rows_by_workers_that_park(rt: HostRuntime) -> Result<(), Fail> {
    let parkers: Box<dyn Park + Sync + Drop> = Box::new(rt.alloc(), Parkers::new(rt.alloc(), rt)?)?;
    let mut crew = Parking::new(Vec::new(rt.alloc()), AnyParkers::new(parkers));
    expect_rows(&rt, rt.alloc(), &mut crew)
}

/// Another crew of its sort has no places to park, and answers all the same.
#[test]
fn rows_by_another_crew(rt: HostRuntime) -> Result<(), Fail> {
    let parkers: Box<dyn Park + Sync + Drop> = Box::new(rt.alloc(), Parkers::new(rt.alloc(), rt)?)?;
    let crew = Parking::new(Vec::new(rt.alloc()), AnyParkers::new(parkers));
    let mut other = crew.another();
    assert_eq!(rt; other.count(), 0);
    expect_rows(&rt, rt.alloc(), &mut other)
}
