//! Sessions by the top call where a call on the outside fails. The program `pg_test_rows` has sessions where none does.

ghost use Rattle.std.specs.Prelude.{◌<◌};

use crate::memory::words_of;
use crate::session::SUM;
use crate::workers::{SORTS, Sort, status_by};
use pg_commands::Status;
use pg_free::Free;
use pg_io::{MemoryShelf, MemorySink, MemorySource, ShortSink, Sink};
use std::alloc::{AllocError, Global};
use std::process::Abort;
use std::sync::Wait;
use std::test::Fail;
use std::thread::Threads;

/// Three lines. Reads of four bytes give one line each.
const LINES: &[u8] = b"1 2\n3 4\n5 6\n";

/// The replies to the lines, one after another.
const REPLIES: &[u8] = b"recorded 0\n3\nexit 0 after 3 turns\n\
reused 0\n7\nexit 0 after 3 turns\n\
reused 0\n11\nexit 0 after 3 turns\n";

/// How many bytes the replies to this many lines have.
const ENDS: [usize; 4] = [0, 34, 66, 99];

/// The fetches, the reads and the writes that fail.
#[derive(Clone, Copy)]
struct Faults<'a> {
    fetches: &'a [u64],
    reads: &'a [u64],
    writes: &'a [u64],
}

const NONE: Faults<'static> = Faults {
    fetches: &[],
    reads: &[],
    writes: &[],
};

/// The status of a command on the program `x` and the lines. A crew of this sort runs workers.
fn served<R: Threads + Wait + Sync, K: Sink>(
    rt: &R,
    alloc: Global,
    line: &str,
    faults: Faults<'_>,
    out: &mut K,
    sort: Sort,
) -> Result<Status, AllocError> {
    let words = words_of(alloc, line)?;
    let name = String::from_str(alloc, "x")?;
    let mut files = Vec::new(alloc);
    files.push((name, SUM.to_vec(alloc)?))?;
    let mut shelf = MemoryShelf::new(alloc, files, faults.fetches.to_vec(alloc)?);
    let mut src = MemorySource::new(LINES.to_vec(alloc)?, 4, faults.reads.to_vec(alloc)?);
    Ok(status_by(
        rt,
        alloc,
        &words,
        &mut src,
        &mut shelf,
        out,
        &mut Free::new(),
        sort,
    ))
}

/// The status of a session and what it wrote, whole pieces alone.
fn outcome<R: Threads + Wait + Sync>(
    rt: &R,
    alloc: Global,
    faults: Faults<'_>,
    sort: Sort,
) -> Result<(Status, Vec<u8>), AllocError> {
    let mut out = MemorySink::new(alloc, 200, faults.writes.to_vec(alloc)?)?;
    let status = served(rt, alloc, "serve x", faults, &mut out, sort)?;
    Ok((status, out.bytes().to_vec(alloc)?))
}

/// What comes of a session whose read of this number fails.
fn expect_read<R: Threads + Wait + Abort + Sync>(
    rt: &R,
    alloc: Global,
    k: usize,
    sort: Sort,
) -> Result<(), Fail> {
    let faults = Faults {
        reads: &[k as u64],
        ..NONE
    };
    let (status, written) = outcome(rt, alloc, faults, sort)?;
    let want = if k < 4 {
        Status::ReadFault
    } else {
        Status::Done
    };
    assert_eq!(rt; status, want, "read {} of {:?}", k, sort);
    assert_eq!(rt;
        written.as_slice(),
        &REPLIES[..ENDS[k.min(3)]],
        "read {} of {:?}",
        k,
        sort
    );
    Ok(())
}

#[test]
fn each_read_fails(rt: HostRuntime) -> Result<(), Fail> {
    for sort in SORTS {
        for k in 0..5 {
            expect_read(&rt, rt.alloc(), k, sort)?;
        }
    }
    Ok(())
}

/// What comes of a session whose write of this number fails.
fn expect_write<R: Threads + Wait + Abort + Sync>(
    rt: &R,
    alloc: Global,
    k: usize,
    sort: Sort,
) -> Result<(), Fail> {
    let faults = Faults {
        writes: &[k as u64],
        ..NONE
    };
    let (status, written) = outcome(rt, alloc, faults, sort)?;
    let want = if k < 3 {
        Status::WriteFault
    } else {
        Status::Done
    };
    assert_eq!(rt; status, want, "write {} of {:?}", k, sort);
    assert_eq!(rt;
        written.as_slice(),
        &REPLIES[..ENDS[k.min(3)]],
        "write {} of {:?}",
        k,
        sort
    );
    Ok(())
}

#[test]
fn each_write_fails(rt: HostRuntime) -> Result<(), Fail> {
    for sort in SORTS {
        for k in 0..4 {
            expect_write(&rt, rt.alloc(), k, sort)?;
        }
    }
    Ok(())
}

#[test]
fn a_fetch_fails(rt: HostRuntime) -> Result<(), Fail> {
    let (status, written) = outcome(
        &rt,
        rt.alloc(),
        Faults {
            fetches: &[0],
            ..NONE
        },
        Sort::OneByOne,
    )?;
    assert_eq!(rt; status, Status::ShelfFault);
    assert!(rt; written.is_empty());
    let (status, written) = outcome(
        &rt,
        rt.alloc(),
        Faults {
            fetches: &[1],
            ..NONE
        },
        Sort::OneByOne,
    )?;
    assert_eq!(rt; status, Status::Done);
    assert_eq!(rt; written.as_slice(), REPLIES);
    Ok(())
}

#[test]
fn a_sink_takes_one_byte_a_call(rt: HostRuntime) -> Result<(), Fail> {
    let alloc = rt.alloc();
    let mut out = ShortSink::new(alloc, 200, 1, [5].to_vec(alloc)?)?;
    assert_eq!(rt;
        served(&rt, rt.alloc(), "serve x", NONE, &mut out, Sort::ByLength)?,
        Status::WriteFault
    );
    assert_eq!(rt; out.bytes(), b"recor".as_slice());
    let mut out = ShortSink::new(alloc, 200, 1, Vec::new(alloc))?;
    assert_eq!(rt;
        served(&rt, rt.alloc(), "serve x", NONE, &mut out, Sort::ByLength)?,
        Status::Done
    );
    assert_eq!(rt; out.bytes(), REPLIES);
    Ok(())
}

#[test]
fn show_reads_nothing(rt: HostRuntime) -> Result<(), Fail> {
    let alloc = rt.alloc();
    let faults = Faults {
        reads: &[0],
        ..NONE
    };
    let mut out = MemorySink::new(alloc, 200, Vec::new(alloc))?;
    assert_eq!(rt;
        served(
            &rt,
            rt.alloc(),
            "show x 1 2",
            faults,
            &mut out,
            Sort::ByLength
        )?,
        Status::Done
    );
    assert!(rt;
        out.bytes()
            .starts_with(b"recorded 0\nturn 0 thread 0 start at 0 on 0\n")
    );
    let mut out = MemorySink::new(alloc, 200, [0].to_vec(alloc)?)?;
    assert_eq!(rt;
        served(
            &rt,
            rt.alloc(),
            "show x 1 2",
            NONE,
            &mut out,
            Sort::ByLength
        )?,
        Status::WriteFault
    );
    assert!(rt; out.bytes().is_empty());
    Ok(())
}
