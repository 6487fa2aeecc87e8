//! Sessions that record by a crew or by a seed, through the top call.

use crate::memory::{shelf_of, source_of, words_of};
use crate::workers::{SORTS, Sort, status_by};
use pg_commands::Status;
use pg_free::{Free, FreeCrew, Prefer};
use pg_io::MemorySink;
use pg_ir::ThreadNo;
use std::alloc::{AllocError, Global};
use std::process::Abort;
use std::sync::Wait;
use std::test::Fail;
use std::thread::Threads;

/// Main stores 100 in a word in which its thread stores the first number, and prints the word once it joined the thread.
pub(crate) const RACING_STORES: &[u8] = b"declare i64 @pg_in(i64)\n\
declare void @pg_out(i64)\n\
declare i32 @pthread_create(ptr, ptr, ptr, ptr)\n\
declare i32 @pthread_join(i64, ptr)\n\
@x = global i64 0\n\
@t = global i64 0\n\
define ptr @f(ptr %z) {\n\
entry:\n\
  %n = call i64 @pg_in(i64 0)\n\
  %q = alloca i64\n\
  store i64 0, ptr %q\n\
  br label %c\n\
c:\n\
  %i = load i64, ptr %q\n\
  %d = icmp slt i64 %i, %n\n\
  br i1 %d, label %b, label %e\n\
b:\n\
  %j = add i64 %i, 1\n\
  store i64 %j, ptr %q\n\
  br label %c\n\
e:\n\
  store i64 %i, ptr @x\n\
  ret ptr null\n\
}\n\
define i32 @main() {\n\
entry:\n\
  %1 = call i32 @pthread_create(ptr @t, ptr null, ptr @f, ptr null)\n\
  br label %w\n\
w:\n\
  %k = phi i64 [ 0, %entry ], [ %m, %w ]\n\
  %m = add i64 %k, 1\n\
  %c = icmp slt i64 %m, 3\n\
  br i1 %c, label %w, label %o\n\
o:\n\
  store i64 100, ptr @x\n\
  %h = load i64, ptr @t\n\
  %2 = call i32 @pthread_join(i64 %h, ptr null)\n\
  %v = load i64, ptr @x\n\
  call void @pg_out(i64 %v)\n\
  ret i32 0\n\
}\n";

/// Main locks a mutex twice.
const LOCKED_TWICE: &[u8] = b"declare i32 @pthread_mutex_lock(ptr)\n\
@m = global [5 x i64] zeroinitializer\n\
define i32 @main() {\n\
  %1 = call i32 @pthread_mutex_lock(ptr @m)\n\
  %2 = call i32 @pthread_mutex_lock(ptr @m)\n\
  ret i32 0\n\
}\n";

/// The status of a command on the program `x` and this input, where this crew records freely and one of this sort runs workers, and
/// what it writes.
pub(crate) fn outcome<R: Threads + Wait + Sync, G: FreeCrew + Drop>(
    rt: &R,
    alloc: Global,
    line: &str,
    program: &[u8],
    input: &[u8],
    crew: &mut G,
    sort: Sort,
) -> Result<(Status, Vec<u8>), AllocError> {
    let words = words_of(alloc, line)?;
    let mut shelf = shelf_of(alloc, program)?;
    let mut src = source_of(alloc, input)?;
    let mut out = MemorySink::new(alloc, 4_000, Vec::new(alloc))?;
    let status = status_by(
        rt, alloc, &words, &mut src, &mut shelf, &mut out, crew, sort,
    );
    Ok((status, out.bytes().to_vec(alloc)?))
}

/// What a free session writes where this thread is preferred and a crew of this sort runs workers.
fn expect_decided<R: Threads + Wait + Abort + Sync>(
    rt: &R,
    alloc: Global,
    thread: u8,
    text: &[u8],
    sort: Sort,
) -> Result<(), Fail> {
    assert!(rt; thread < 64);
    let mut crew = Prefer::new(ThreadNo(thread));
    let (status, written) = outcome(
        rt,
        alloc,
        "serve x --free",
        RACING_STORES,
        b"0\n0\n",
        &mut crew,
        sort,
    )?;
    assert_eq!(rt; status, Status::Done);
    assert_eq!(rt; written.as_slice(), text, "thread {} of {:?}", thread, sort);
    assert!(rt; crew.rounds() > 0);
    Ok(())
}

/// What a free session writes where the store of the preferred thread comes first, so that the other's is printed.
#[test]
fn the_crew_decides(rt: HostRuntime) -> Result<(), Fail> {
    let alloc = rt.alloc();
    let rows: [(u8, &[u8]); 2] = [
        (
            0,
            b"recorded 0\n0\nexit 0 after 9 turns\nreused 0\n0\nexit 0 after 9 turns\n",
        ),
        (
            1,
            b"recorded 0\n100\nexit 0 after 9 turns\nreused 0\n100\nexit 0 after 9 turns\n",
        ),
    ];
    for (thread, text) in rows {
        for sort in SORTS {
            expect_decided(&rt, alloc, thread, text, sort)?;
        }
    }
    Ok(())
}

/// `show` tells the recording that the crew makes.
#[test]
fn show_tells_what_the_crew_recorded(rt: HostRuntime) -> Result<(), Fail> {
    let alloc = rt.alloc();
    let rows: [(u8, &[u8]); 2] = [
        (0, b"\n0\nexit 0 after 9 turns\n"),
        (1, b"\n100\nexit 0 after 9 turns\n"),
    ];
    for (thread, end) in rows {
        assert!(rt; thread < 64);
        let mut crew = Prefer::new(ThreadNo(thread));
        let (status, written) = outcome(
            &rt,
            alloc,
            "show --free x 0",
            RACING_STORES,
            b"",
            &mut crew,
            Sort::OneByOne,
        )?;
        assert_eq!(rt; status, Status::Done);
        assert!(rt; written.starts_with(b"recorded 0\nturn 0 thread 0 start at "));
        assert!(rt; written.ends_with(end), "thread {}", thread);
        assert!(rt; crew.rounds() > 0);
    }
    Ok(())
}

/// A session without the flag leaves the crew alone, and so do faulty words.
#[test]
fn other_sessions_leave_the_crew(rt: HostRuntime) -> Result<(), Fail> {
    let alloc = rt.alloc();
    let rows: [(&str, Status, &[u8]); 5] = [
        (
            "serve x --quantum 1",
            Status::Done,
            b"recorded 0\n100\nexit 0 after 9 turns\n",
        ),
        ("serve x --free --quantum 1", Status::Usage, b""),
        ("serve x --seed 1 --quantum 1", Status::Usage, b""),
        ("show --free --seed 5 x", Status::Usage, b""),
        ("serve --free --free x", Status::Usage, b""),
    ];
    for (line, status, text) in rows {
        let mut crew = Prefer::new(ThreadNo(0));
        let (ended, written) = outcome(
            &rt,
            alloc,
            line,
            RACING_STORES,
            b"0\n",
            &mut crew,
            Sort::OneByOne,
        )?;
        assert_eq!(rt; ended, status, "of {}", line);
        assert_eq!(rt; written.as_slice(), text, "of {}", line);
        assert_eq!(rt; crew.rounds(), 0, "of {}", line);
    }
    Ok(())
}

/// A seed gives the same text each time, whichever crew runs workers, and the given crew makes no round for it. Some of 16 seeds let main store last, and some
/// the thread.
#[test]
fn a_seed_gives_one_text(rt: HostRuntime) -> Result<(), Fail> {
    let alloc = rt.alloc();
    let mut by_main = false;
    let mut by_thread = false;
    for seed in 0..16u64 {
        let line = format!(in alloc; "serve --seed {seed} x")?;
        let mut crew = Prefer::new(ThreadNo(0));
        let (status, one) = outcome(
            &rt,
            alloc,
            &line,
            RACING_STORES,
            b"0\n0\n1\n",
            &mut crew,
            Sort::OneByOne,
        )?;
        let (_, other) = outcome(
            &rt,
            alloc,
            &line,
            RACING_STORES,
            b"0\n0\n1\n",
            &mut crew,
            Sort::Together,
        )?;
        assert_eq!(rt; status, Status::Done);
        assert_eq!(rt; one.as_slice(), other.as_slice(), "seed {}", seed);
        assert_eq!(rt; crew.rounds(), 0);
        by_main = by_main || one.starts_with(b"recorded 0\n100\n");
        by_thread = by_thread || one.starts_with(b"recorded 0\n0\n");
    }
    assert!(rt; by_main && by_thread);
    Ok(())
}

/// On host threads: a deadlock is one in any order.
#[test]
fn host_threads_record(rt: HostRuntime) -> Result<(), Fail> {
    let alloc = rt.alloc();
    let mut crew = Free::new();
    let (status, written) = outcome(
        &rt,
        alloc,
        "serve x --free",
        LOCKED_TWICE,
        b"\n",
        &mut crew,
        Sort::ByLength,
    )?;
    assert_eq!(rt; status, Status::Done);
    assert_eq!(rt;
        written.as_slice(),
        b"refused trap Deadlock at 1\n".as_slice()
    );
    assert!(rt; crew.rounds() > 0);
    Ok(())
}
