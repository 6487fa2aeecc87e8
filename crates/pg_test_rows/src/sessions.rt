//! A line of `sessions.txt` has the words of a command line, the files that stand one behind the other as the program text `x`
//! of the shelf, and the bytes of the source, with `/` for a line feed. For each it prints the exit status and what was
//! written, and says so where reads of one byte or another crew of workers change that. Then it serves lines at the limit of a line,
//! each proper prefix of a program, and each prefix of some lines, from a source that ends there and from one that fails there.
//! `pg_test_session` has longer runs and inputs.
use crate::running::{SHORTENED, Workers, joined, outcome, print_bytes};
use anyhow::Result;
use pg_commands::Status;
use pg_io::{MemoryShelf, MemorySource};
use pg_num::limits::{LINE_LIMIT, PROGRAM_TEXT_LIMIT};
use std::alloc::{AllocError, Global};
use std::fs;
use std::rt::Files;
use std::sync::Wait;
use std::thread::Threads;

/// The most bytes of one read.
const PIECE: usize = 4096;

/// A shelf that has this text under the name `x`.
fn shelf_of(alloc: Global, text: &[u8]) -> Result<MemoryShelf, AllocError> {
    let name = String::from_str(alloc, "x")?;
    let mut files = Vec::new(alloc);
    files.push((name, text.to_vec(alloc)?))?;
    Ok(MemoryShelf::new(alloc, files, Vec::new(alloc)))
}

/// A source that has these bytes, and gives as many as it is asked for.
fn source_of(alloc: Global, input: &[u8]) -> Result<MemorySource, AllocError> {
    let bytes = input.to_vec(alloc)?;
    Ok(MemorySource::new(bytes, PIECE, Vec::new(alloc)))
}

/// A source that has these bytes, and gives one at each read. The reads of these numbers fail.
fn slow_source(alloc: Global, input: &[u8], failing: &[u64]) -> Result<MemorySource, AllocError> {
    let bytes = input.to_vec(alloc)?;
    let numbers = failing.to_vec(alloc)?;
    Ok(MemorySource::new(bytes, 1, numbers))
}

/// The status of the command whose words these are, with this program text and this source, and what it writes.
fn answer<R: Threads + Wait + Sync + Print + Files + AllocGlobal>(
    rt: &R,
    line: &str,
    text: &[u8],
    src: MemorySource,
    workers: Workers,
) -> Result<(Status, Vec<u8>), AllocError> {
    outcome(rt, line, shelf_of(rt.alloc(), text)?, src, workers)
}

/// Whether reads of one byte, or another crew of workers, give anything else than this.
fn has_other_answer<R: Threads + Wait + Sync + Print + Files + AllocGlobal>(
    rt: &R,
    line: &str,
    text: &[u8],
    input: &[u8],
    status: Status,
    written: &[u8],
) -> Result<bool, AllocError> {
    for workers in [Workers::OneByOne, Workers::Together, Workers::ByLength] {
        let src = slow_source(rt.alloc(), input, &[])?;
        let (other, others) = answer(rt, line, text, src, workers)?;
        if other != status || others.as_slice() != written {
            return Ok(true);
        }
    }
    Ok(false)
}

/// Runs a command line, and prints what comes of it, under a title. Says so where reads of one byte, or another crew of workers, give
/// something else.
fn print_outcome<R: Threads + Wait + Sync + Print + Files + AllocGlobal>(
    rt: &R,
    title: &str,
    line: &str,
    text: &[u8],
    input: &[u8],
) -> Result<()> {
    let src = source_of(rt.alloc(), input)?;
    let (status, written) = answer(rt, line, text, src, Workers::ByLength)?;
    let code = status.code();
    println!(rt; "{title}: {code}")?;
    print_bytes(rt, written.as_slice())?;
    if has_other_answer(rt, line, text, input, status, written.as_slice())? {
        println!(rt; "reads of one byte or another crew give something else")?;
    }
    Ok(())
}

/// Runs a row: its words, its files and its input.
fn print_row<R: Threads + Wait + Sync + Print + Files + AllocGlobal>(
    rt: &R,
    row: &str,
    line: &str,
    rest: &str,
) -> Result<()> {
    let Some((names, lines)) = rest.split_once(" |") else {
        println!(rt; "no row: {row}")?;
        return Ok(());
    };
    let text = joined(rt, names)?;
    let input = lines.trim_start().replace(rt.alloc(), "/", "\n")?;
    print_outcome(rt, row, line, text.as_slice(), input.as_bytes())
}

/// Whether `serve` answers anything else on a front of the text than that the program ran or was refused.
fn has_other_front<R: Threads + Wait + Sync + Print + Files + AllocGlobal>(
    rt: &R,
    text: &[u8],
) -> Result<bool, AllocError> {
    for len in 0..text.len() {
        let src = source_of(rt.alloc(), b"\n")?;
        let (status, _) = answer(rt, "serve x", &text[..len], src, Workers::ByLength)?;
        if status != Status::Done && status != Status::ProgramRefused {
            return Ok(true);
        }
    }
    Ok(false)
}

/// The status of `serve` of the program text `text` over these lines, where the reads of these numbers fail, and what it
/// writes. A read takes one byte.
fn served<R: Threads + Wait + Sync + Print + Files + AllocGlobal>(
    rt: &R,
    text: &[u8],
    lines: &[u8],
    failing: &[u64],
) -> Result<(Status, Vec<u8>), AllocError> {
    answer(
        rt,
        "serve x",
        text,
        slow_source(rt.alloc(), lines, failing)?,
        Workers::ByLength,
    )
}

/// Prints a status and what was written, with `/` for a line feed.
fn print_served<R: Threads + Wait + Sync + Print + Files + AllocGlobal>(
    rt: &R,
    title: &str,
    status: Status,
    written: &[u8],
) -> Result<()> {
    let code = status.code();
    match str::from_utf8(written) {
        Ok(text) => {
            let line = text.replace(rt.alloc(), "\n", "/")?;
            println!(rt; "{title}: {code} \"{line}\"")?;
        }
        Err(_) => println!(rt; "{title}: {code}, bytes that are no text")?,
    }
    Ok(())
}

/// The first bytes of some, or all where there are fewer.
fn front(bytes: &[u8], len: usize) -> &[u8] {
    if len < bytes.len() {
        &bytes[..len]
    } else {
        bytes
    }
}

/// Serves the lines where the source ends behind so many bytes, and where the read behind them fails.
fn print_cut<R: Threads + Wait + Sync + Print + Files + AllocGlobal>(
    rt: &R,
    text: &[u8],
    lines: &[u8],
    len: usize,
) -> Result<()> {
    let (status, written) = served(rt, text, front(lines, len), &[])?;
    print_served(rt, "the source ends", status, written.as_slice())?;
    let (status, written) = served(rt, text, lines, &[len as u64])?;
    print_served(rt, "a read fails", status, written.as_slice())
}

/// Prints what comes of each prefix of the lines.
fn print_cuts<R: Threads + Wait + Sync + Print + Files + AllocGlobal>(
    rt: &R,
    text: &[u8],
    lines: &[u8],
) -> Result<()> {
    for len in 0..lines.len() + 1 {
        println!(rt; "{len} bytes")?;
        print_cut(rt, text, lines, len)?;
    }
    Ok(())
}

/// Whether a failed read behind `len` bytes leaves anything else than the replies to the first `end` bytes, or these aren't a
/// front of the replies `whole`.
fn cut_differs<R: Threads + Wait + Sync + Print + Files + AllocGlobal>(
    rt: &R,
    text: &[u8],
    lines: &[u8],
    end: usize,
    len: usize,
    whole: &[u8],
) -> Result<bool, AllocError> {
    let (done, replies) = served(rt, text, front(lines, end), &[])?;
    let (failed, written) = served(rt, text, lines, &[len as u64])?;
    Ok(
        done != Status::Done
            || failed != Status::ReadFault
            || written.as_slice() != replies.as_slice()
            || !whole.starts_with(replies.as_slice()),
    )
}

/// Whether, at some prefix of the lines, a failed read behind it leaves anything else than the replies to the lines that end in
/// it, or these aren't a front of the replies to all lines.
fn has_other_cut<R: Threads + Wait + Sync + Print + Files + AllocGlobal>(
    rt: &R,
    text: &[u8],
    lines: &[u8],
) -> Result<bool, AllocError> {
    let (_, whole) = served(rt, text, lines, &[])?;
    let mut end: usize = 0;
    for len in 0..lines.len() + 1 {
        if len > 0 && lines[len - 1] == b'\n' {
            end = len;
        }
        if cut_differs(rt, text, lines, end, len, whole.as_slice())? {
            return Ok(true);
        }
    }
    Ok(false)
}

/// So many bytes `byte`, between two texts.
fn padded(
    alloc: Global,
    front: &[u8],
    byte: u8,
    count: usize,
    back: &[u8],
) -> Result<Vec<u8>, AllocError> {
    let mut bytes = front.to_vec(alloc)?;
    for _ in 0..count {
        bytes.push(byte)?;
    }
    bytes.extend_from_slice(back)?;
    Ok(bytes)
}

/// Lines at the limit of a line, and texts that are longer than a program may be.
fn print_limits<R: Threads + Wait + Sync + Print + Files + AllocGlobal>(rt: &R) -> Result<()> {
    let alloc = rt.alloc();
    let sum = joined(rt, "known.ll sum.ll")?;
    let lines = padded(
        alloc,
        b"\n1  2\n9223372036854775808\n",
        b'1',
        LINE_LIMIT + 1,
        b"\n4 5",
    )?;
    print_outcome(
        rt,
        "a line of 4097 bytes",
        "serve x",
        sum.as_slice(),
        lines.as_slice(),
    )?;
    let lines = padded(alloc, b"1 ", b'0', LINE_LIMIT - 3, b"2\n")?;
    print_outcome(
        rt,
        "a line of 4096 bytes",
        "serve x",
        sum.as_slice(),
        lines.as_slice(),
    )?;
    let blanks = padded(alloc, b"", b' ', PROGRAM_TEXT_LIMIT + 1, b"")?;
    print_outcome(rt, "1048577 blanks", "serve x", blanks.as_slice(), b"1 2\n")?;
    print_outcome(rt, "1048577 blanks", "show x", blanks.as_slice(), b"1 2\n")
}

/// Serves each prefix of some lines.
fn print_prefixes<R: Threads + Wait + Sync + Print + Files + AllocGlobal>(rt: &R) -> Result<()> {
    let text = joined(rt, "known.ll sum.ll")?;
    print_cuts(rt, text.as_slice(), b"1 2\n3 4\n5")?;
    let text = joined(rt, "known.ll counted.ll")?;
    let other = has_other_cut(
        rt,
        text.as_slice(),
        b"1\n2\n2\n3\n4\n5\n6\n7\n8\n9\n10\n11\n12\n13\n14\n15\n16\n17\n1\n2 x\n",
    )?;
    println!(rt; "a failed read leaves other replies than those to the lines before it: {other}")?;
    Ok(())
}

/// Prints what comes of the sessions.
pub(crate) fn print_sessions<R: Threads + Wait + Sync + Print + Files + AllocGlobal>(
    rt: &R,
) -> Result<()> {
    let rows = fs::read_to_string(rt, "sessions.txt")?;
    for row in rows.lines() {
        match row.split_once(" < ") {
            Some((line, rest)) => print_row(rt, row, line, rest)?,
            None => println!(rt; "no row: {row}")?,
        }
    }
    print_limits(rt)?;
    let other = has_other_front(rt, joined(rt, SHORTENED)?.as_slice())?;
    println!(rt; "a proper prefix of {SHORTENED} has another status than 0 and 3: {other}")?;
    print_prefixes(rt)
}
