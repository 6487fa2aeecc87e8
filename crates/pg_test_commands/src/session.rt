//! `once` by the top call, on worked rows. `pg_test_base` has more command lines, and the program `pg_test_rows` more texts.

ghost use Rattle.std.specs.Prelude.{◌<◌};

use crate::memory::words_of;
use pg_commands::pg_go::OneByOne;
use pg_commands::{Status, peregrine};
use pg_free::Free;
use pg_io::{MemoryShelf, MemorySink, MemorySource};
use std::alloc::{AllocError, Global};
use std::sync::Wait;
use std::test::Fail;
use std::thread::Threads;

pub(crate) const SUM: &[u8] = b"declare i64 @pg_in(i64)\n\
declare void @pg_out(i64)\n\
define i32 @main() {\n\
  %a = call i64 @pg_in(i64 0)\n\
  %b = call i64 @pg_in(i64 1)\n\
  %c = add i64 %a, %b\n\
  call void @pg_out(i64 %c)\n\
  ret i32 0\n\
}\n";

const TOO_LONG: &[u8] = b"program refused 1:1 TooLong\n";

const UNSUPPORTED: &[u8] = b"program refused 1:1 Unsupported x\n";

const NO_MAIN: &[u8] = b"program refused 1:1 NoMain\n";

const EIGHT: &[u8] = b"8\nexit 0 after 3 turns\n";

const TWO: &[u8] = b"2\nexit 0 after 3 turns\n";

/// A command line, a program text, the most bytes of a read, the reads and the writes that fail, and
/// what must come of them.
#[derive(Clone, Copy)]
struct Row<'a> {
    line: &'a str,
    text: &'a [u8],
    piece: usize,
    reads: &'a [u64],
    writes: &'a [u64],
    status: Status,
    written: &'a [u8],
}

/// A row where no call on the outside fails.
fn sure<'a>(line: &'a str, text: &'a [u8], status: Status, written: &'a [u8]) -> Row<'a> {
    Row {
        line,
        text,
        piece: 4096,
        reads: &[],
        writes: &[],
        status,
        written,
    }
}

/// `once` on this many ones.
fn ones(alloc: Global, count: usize) -> Result<String, AllocError> {
    let mut line = String::from_str(alloc, "once")?;
    for _ in 0..count {
        line.push_str(" 1")?;
    }
    Ok(line)
}

fn blanks(alloc: Global, count: usize) -> Result<Vec<u8>, AllocError> {
    vec![in alloc; b' '; count]
}

/// The status and the written bytes of a row.
fn outcome<R: Threads + Wait + Sync>(
    rt: &R,
    alloc: Global,
    row: Row<'_>,
) -> Result<(Status, Vec<u8>), AllocError>
    requires { 0 < row.piece }
{
    let words = words_of(alloc, row.line)?;
    let mut src = MemorySource::new(row.text.to_vec(alloc)?, row.piece, row.reads.to_vec(alloc)?);
    let mut shelf = MemoryShelf::new(alloc, Vec::new(alloc), Vec::new(alloc));
    let mut out = MemorySink::new(alloc, 100, row.writes.to_vec(alloc)?)?;
    let status = peregrine(
        rt,
        alloc,
        &words,
        &mut src,
        &mut shelf,
        &mut out,
        &mut Free::new(),
        &mut OneByOne::new(Vec::new(alloc)),
    );
    Ok((status, out.bytes().to_vec(alloc)?))
}

#[test]
fn runs_once(rt: HostRuntime) -> Result<(), Fail> {
    let alloc = rt.alloc();
    let long = blanks(alloc, 1_048_577)?;
    let most = ones(alloc, 512)?;
    let more = ones(alloc, 513)?;
    let rows = [
        sure("once 3 5", SUM, Status::Done, EIGHT),
        sure("once", &long, Status::ProgramRefused, TOO_LONG),
        sure("once", b"x", Status::ProgramRefused, UNSUPPORTED),
        sure("once", b"", Status::ProgramRefused, NO_MAIN),
        sure(most.as_str(), SUM, Status::Done, TWO),
        sure(more.as_str(), SUM, Status::Usage, b""),
        sure("once -- -3 11", SUM, Status::Done, EIGHT),
        sure("", SUM, Status::Usage, b""),
        Row {
            piece: 1,
            ..sure("once 3 5", SUM, Status::Done, EIGHT)
        },
        Row {
            reads: &[0],
            ..sure("once 1 2", SUM, Status::ReadFault, b"")
        },
        Row {
            writes: &[0],
            ..sure("once 1 2", SUM, Status::WriteFault, b"")
        },
    ];
    for row in rows {
        assert!(rt; row.piece > 0);
        let (status, written) = outcome(&rt, rt.alloc(), row)?;
        assert_eq!(rt; status, row.status, "of {}", row.line);
        assert_eq!(rt; written.as_slice(), row.written, "of {}", row.line);
    }
    Ok(())
}
