//! What the crew that runs workers counts, through the top call.

use crate::memory::{shelf_of, source_of, words_of};
use pg_commands::pg_go::{AnyParkers, ByLength, Crew, OneByOne, Park, Parkers, Parking, Together};
use pg_commands::{Status, peregrine};
use pg_free::Free;
use pg_io::MemorySink;
use pg_session_trial::trial_program;
use std::alloc::{AllocError, Global};
use std::process::Abort;
use std::sync::Wait;
use std::test::Fail;
use std::thread::Threads;

/// Three lines, of which the first is recorded and the others are answered by reuse, each by a run of 15 turns.
const LINES: &[u8] = b"1 2 3\n10 20\n1 2 3\n";

/// The status of a command on the program of the trial and these bytes of the source. This crew runs workers.
fn status_of<R: Threads + Wait + Sync, C: Crew + Drop>(
    rt: &R,
    alloc: Global,
    line: &str,
    input: &[u8],
    crew: &mut C,
) -> Result<Status, AllocError> {
    let words = words_of(alloc, line)?;
    let mut shelf = shelf_of(alloc, trial_program().as_bytes())?;
    let mut src = source_of(alloc, input)?;
    let mut out = MemorySink::new(alloc, 4_000, Vec::new(alloc))?;
    let mut free = Free::new();
    Ok(peregrine(
        rt, alloc, &words, &mut src, &mut shelf, &mut out, &mut free, crew,
    ))
}

/// By how much the count of the crew rises with each command, one after another.
fn expect_turns<R: Threads + Wait + Abort + Sync, C: Crew + Drop>(
    rt: &R,
    alloc: Global,
    crew: &mut C,
) -> Result<(), Fail> {
    let program = trial_program().as_bytes();
    let rows: [(&str, &[u8], Status, u64); 9] = [
        ("serve x", LINES, Status::Done, 30),
        ("once 1 2 3", program, Status::Done, 0),
        ("show x 1 2 3", b"", Status::Done, 0),
        ("serve x --quantum 0", LINES, Status::Usage, 0),
        ("serve y", LINES, Status::ShelfFault, 0),
        ("book x", LINES, Status::Done, 30),
        ("serve x --free", LINES, Status::Done, 30),
        ("serve --seed 7 x", LINES, Status::Done, 30),
        ("trial 7", b"", Status::Done, 7_485),
    ];
    for (line, input, status, turns) in rows {
        let before = crew.count();
        let ended = status_of(rt, alloc, line, input, crew)?;
        assert_eq!(rt; ended, status, "of {}", line);
        assert_eq!(rt; crew.count(), before.saturating_add(turns), "of {}", line);
    }
    Ok(())
}

#[test]
fn one_by_one(rt: HostRuntime) -> Result<(), Fail> {
    let mut crew = OneByOne::new(Vec::new(rt.alloc()));
    expect_turns(&rt, rt.alloc(), &mut crew)
}

#[test]
fn together(rt: HostRuntime) -> Result<(), Fail> {
    let mut crew = Together::new(Vec::new(rt.alloc()));
    expect_turns(&rt, rt.alloc(), &mut crew)
}

#[test]
fn by_length(rt: HostRuntime) -> Result<(), Fail> {
    let mut crew = ByLength::new(Vec::new(rt.alloc()));
    expect_turns(&rt, rt.alloc(), &mut crew)
}

#[test]
fn parking(rt: HostRuntime) -> Result<(), Fail> {
    let parkers: Box<dyn Park + Sync + Drop> = Box::new(rt.alloc(), Parkers::new(rt.alloc(), rt)?)?;
    let mut crew = Parking::new(Vec::new(rt.alloc()), AnyParkers::new(parkers));
    expect_turns(&rt, rt.alloc(), &mut crew)
}
