//! A command on texts in memory, with the calls on the outside that fail.

use pg_commands::pg_go::OneByOne;
use pg_commands::{Status, peregrine};
use pg_free::Free;
use pg_io::{MemoryShelf, MemorySink, MemorySource, Sink};
use std::alloc::{AllocError, Global};
use std::sync::Wait;
use std::thread::Threads;

/// The most bytes that a command of a row writes.
const ROOM: usize = 4_000;

/// What a command meets: the texts `x` and `b` of the shelf, the input, the most bytes of a read, and the fetches, the reads and
/// the writes that fail.
#[derive(Clone, Copy)]
pub(crate) struct Outside<'a> {
    pub(crate) program: &'a [u8],
    pub(crate) book: &'a [u8],
    pub(crate) input: &'a [u8],
    pub(crate) piece: usize,
    pub(crate) fetches: &'a [u64],
    pub(crate) reads: &'a [u64],
    pub(crate) writes: &'a [u64],
}

/// Texts, where no call fails.
pub(crate) fn sure<'a>(program: &'a [u8], book: &'a [u8], input: &'a [u8]) -> Outside<'a> {
    Outside {
        program,
        book,
        input,
        piece: 4_096,
        fetches: &[],
        reads: &[],
        writes: &[],
    }
}

/// The words of a line, which single blanks separate.
pub(crate) fn words_of(alloc: Global, line: &str) -> Result<Vec<String>, AllocError> {
    let mut words = Vec::new(alloc);
    for word in line.split_whitespace() {
        words.push(String::from_str(alloc, word)?)?;
    }
    Ok(words)
}

/// The status of the command that the words of a line are. It writes to this sink. A read of no bytes is no read.
pub(crate) fn status_of<R: Threads + Wait + Sync, K: Sink>(
    rt: &R,
    alloc: Global,
    line: &str,
    outside: Outside<'_>,
    out: &mut K,
) -> Result<Status, AllocError> {
    if outside.piece == 0 {
        return Err(AllocError);
    }
    let words = words_of(alloc, line)?;
    let mut files = Vec::new(alloc);
    let program = String::from_str(alloc, "x")?;
    files.push((program, outside.program.to_vec(alloc)?))?;
    let book = String::from_str(alloc, "b")?;
    files.push((book, outside.book.to_vec(alloc)?))?;
    let mut shelf = MemoryShelf::new(alloc, files, outside.fetches.to_vec(alloc)?);
    let mut src = MemorySource::new(
        outside.input.to_vec(alloc)?,
        outside.piece,
        outside.reads.to_vec(alloc)?,
    );
    Ok(peregrine(
        rt,
        alloc,
        &words,
        &mut src,
        &mut shelf,
        out,
        &mut Free::new(),
        &mut OneByOne::new(Vec::new(alloc)),
    ))
}

/// The status of a command and what it writes, whole pieces alone.
pub(crate) fn outcome<R: Threads + Wait + Sync>(
    rt: &R,
    alloc: Global,
    line: &str,
    outside: Outside<'_>,
) -> Result<(Status, Vec<u8>), AllocError> {
    let mut out = MemorySink::new(alloc, ROOM, outside.writes.to_vec(alloc)?)?;
    let status = status_of(rt, alloc, line, outside, &mut out)?;
    Ok((status, out.bytes().to_vec(alloc)?))
}
