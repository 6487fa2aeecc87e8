//! Long sessions by the top call: runs at the limits of steps, inputs at the limit of bytes, and a trial.

use crate::memory::{shelf_of, words_of};
use crate::workers::{Sort, status_by};
use pg_commands::Status;
use pg_free::Free;
use pg_io::{MemorySink, MemorySource};
use std::alloc::{AllocError, Global};
use std::process::Abort;
use std::sync::Wait;
use std::test::Fail;
use std::thread::Threads;

/// A thread that counts up to the first number of the input.
const LOOP: &[u8] = b"declare i64 @pg_in(i64)\n\
declare i32 @pthread_create(ptr, ptr, ptr, ptr)\n\
declare i32 @pthread_join(i64, ptr)\n\
@t = global i64 0\n\
define ptr @f(ptr %x) {\n\
entry:\n\
  %n = call i64 @pg_in(i64 0)\n\
  br label %c\n\
c:\n\
  %i = phi i64 [ 0, %entry ], [ %j, %c ]\n\
  %j = add i64 %i, 1\n\
  %d = icmp slt i64 %j, %n\n\
  br i1 %d, label %c, label %e\n\
e:\n\
  ret ptr null\n\
}\n\
define i32 @main() {\n\
entry:\n\
  %1 = call i32 @pthread_create(ptr @t, ptr null, ptr @f, ptr null)\n\
  %2 = call i32 @pthread_join(i64 1, ptr null)\n\
  %a = call i64 @pg_in(i64 1)\n\
  %d = icmp ne i64 %a, 0\n\
  br i1 %d, label %y, label %z\n\
y:\n\
  br label %z\n\
z:\n\
  ret i32 0\n\
}\n\
";

/// What becomes of lines at the limits of steps.
const AT_THE_LIMIT: &[u8] = b"refused budget\n\
recorded 0\nexit 0 after 6 turns\n\
reused 0\nexit 0 after 6 turns\n\
reused 0\nbudget in thread 1 after 3 turns\n";

/// What a trial tells.
const TRIAL: &[u8] = b"trial 7\nlines 500\nrecorded 1\nreused 499\n\
refused 0\nturns 7500\nsum 43420000\n";

/// The most bytes that a session takes.
const LIMIT: usize = 16_777_216;

/// The status of a command on the program `x` and this input, where a crew of this sort runs workers, and what it writes.
fn outcome<R: Threads + Wait + Sync>(
    rt: &R,
    alloc: Global,
    line: &str,
    input: Vec<u8>,
    sort: Sort,
) -> Result<(Status, Vec<u8>), AllocError> {
    let words = words_of(alloc, line)?;
    let mut shelf = shelf_of(alloc, LOOP)?;
    let mut src = MemorySource::new(input, 4_096, Vec::new(alloc));
    let mut out = MemorySink::new(alloc, 400, Vec::new(alloc))?;
    let status = status_by(
        rt,
        alloc,
        &words,
        &mut src,
        &mut shelf,
        &mut out,
        &mut Free::new(),
        sort,
    );
    Ok((status, out.bytes().to_vec(alloc)?))
}

fn bytes(alloc: Global, count: usize) -> Result<Vec<u8>, AllocError> {
    vec![in alloc; b'x'; count]
}

/// What becomes of the lines at the limits, where a crew of this sort runs workers.
fn expect_limits<R: Threads + Wait + Abort + Sync>(
    rt: &R,
    alloc: Global,
    sort: Sort,
) -> Result<(), Fail> {
    let lines = b"166663 1\n166663 0\n1666665 0\n1666666 0\n";
    let (status, written) = outcome(rt, alloc, "serve x", lines.to_vec(alloc)?, sort)?;
    assert_eq!(rt; status, Status::Done);
    assert_eq!(rt; written.as_slice(), AT_THE_LIMIT);
    Ok(())
}

#[test]
fn steps_end(rt: HostRuntime) -> Result<(), Fail> {
    expect_limits(&rt, rt.alloc(), Sort::ByLength)
}

#[test]
fn steps_end_one_by_one(rt: HostRuntime) -> Result<(), Fail> {
    expect_limits(&rt, rt.alloc(), Sort::OneByOne)
}

#[test]
fn steps_end_together(rt: HostRuntime) -> Result<(), Fail> {
    expect_limits(&rt, rt.alloc(), Sort::Together)
}

#[test]
fn steps_end_of_a_recording(rt: HostRuntime) -> Result<(), Fail> {
    let alloc = rt.alloc();
    let (status, written) = outcome(
        &rt,
        rt.alloc(),
        "show x 166663 1",
        Vec::new(alloc),
        Sort::OneByOne,
    )?;
    assert_eq!(rt; status, Status::Done);
    assert_eq!(rt; written.as_slice(), b"refused budget\n".as_slice());
    Ok(())
}

#[test]
fn bytes_end(rt: HostRuntime) -> Result<(), Fail> {
    let alloc = rt.alloc();
    let (status, written) = outcome(
        &rt,
        rt.alloc(),
        "serve x",
        bytes(alloc, LIMIT)?,
        Sort::OneByOne,
    )?;
    assert_eq!(rt; status, Status::Done);
    assert_eq!(rt; written.as_slice(), b"refused line\n".as_slice());
    let (status, written) = outcome(
        &rt,
        rt.alloc(),
        "serve x",
        bytes(alloc, LIMIT + 1)?,
        Sort::OneByOne,
    )?;
    assert_eq!(rt; status, Status::InputLimit);
    assert!(rt; written.is_empty());
    Ok(())
}

/// What a trial tells, where a crew of this sort runs workers.
fn expect_trial<R: Threads + Wait + Abort + Sync>(
    rt: &R,
    alloc: Global,
    sort: Sort,
) -> Result<(), Fail> {
    let (status, written) = outcome(rt, alloc, "trial 7", Vec::new(alloc), sort)?;
    assert_eq!(rt; status, Status::Done);
    assert_eq!(rt; written.as_slice(), TRIAL);
    Ok(())
}

#[test]
fn a_trial(rt: HostRuntime) -> Result<(), Fail> {
    expect_trial(&rt, rt.alloc(), Sort::ByLength)
}

#[test]
fn a_trial_one_by_one(rt: HostRuntime) -> Result<(), Fail> {
    expect_trial(&rt, rt.alloc(), Sort::OneByOne)
}

#[test]
fn a_trial_together(rt: HostRuntime) -> Result<(), Fail> {
    expect_trial(&rt, rt.alloc(), Sort::Together)
}
