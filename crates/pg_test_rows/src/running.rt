//! Runs of the top call on texts in memory, and the files of a row.
use anyhow::Result;
use pg_commands::pg_go::{ByLength, Crew, OneByOne, Together};
use pg_commands::{Status, peregrine};
use pg_free::Free;
use pg_io::{MemoryShelf, MemorySink, MemorySource};
use std::alloc::{AllocError, Global};
use std::fs;
use std::rt::Files;
use std::sync::Wait;
use std::thread::Threads;

/// The most bytes that a row writes.
const ROOM: usize = 65_536;

/// A text in the style of clang's output.
pub(crate) const SHORTENED: &str = "shortened.ll";

/// The crews that run workers.
#[derive(Clone, Copy)]
pub(crate) enum Workers {
    OneByOne,
    Together,
    ByLength,
}

/// The words of a line.
fn words_of(alloc: Global, line: &str) -> Result<Vec<String>, AllocError> {
    let mut words = Vec::new(alloc);
    for word in line.split_whitespace() {
        words.push(String::from_str(alloc, word)?)?;
    }
    Ok(words)
}

/// The status of the command whose words these are, with this shelf and this source, and what it writes. The crew runs workers.
fn outcome_by<R: Threads + Wait + Sync + Print + Files + AllocGlobal, C: Crew + Drop>(
    rt: &R,
    line: &str,
    mut shelf: MemoryShelf,
    mut src: MemorySource,
    mut crew: C,
) -> Result<(Status, Vec<u8>), AllocError> {
    let alloc = rt.alloc();
    let words = words_of(alloc, line)?;
    let mut out = MemorySink::new(alloc, ROOM, Vec::new(alloc))?;
    let status = peregrine(
        rt,
        alloc,
        &words,
        &mut src,
        &mut shelf,
        &mut out,
        &mut Free::new(),
        &mut crew,
    );
    Ok((status, out.bytes().to_vec(alloc)?))
}

/// The same by a new crew of this sort.
pub(crate) fn outcome<R: Threads + Wait + Sync + Print + Files + AllocGlobal>(
    rt: &R,
    line: &str,
    shelf: MemoryShelf,
    src: MemorySource,
    workers: Workers,
) -> Result<(Status, Vec<u8>), AllocError> {
    let hooks = Vec::new(rt.alloc());
    match workers {
        Workers::OneByOne => outcome_by(rt, line, shelf, src, OneByOne::new(hooks)),
        Workers::Together => outcome_by(rt, line, shelf, src, Together::new(hooks)),
        Workers::ByLength => outcome_by(rt, line, shelf, src, ByLength::new(hooks)),
    }
}

/// The files of these names, one behind the other.
pub(crate) fn joined<R: Threads + Wait + Sync + Print + Files + AllocGlobal>(
    rt: &R,
    names: &str,
) -> Result<Vec<u8>> {
    let mut text = Vec::new(rt.alloc());
    for name in names.split_whitespace() {
        let file = fs::read(rt, name)?;
        text.extend_from_slice(file.as_slice())?;
    }
    Ok(text)
}

pub(crate) fn print_bytes<R: Threads + Wait + Sync + Print + Files + AllocGlobal>(
    rt: &R,
    bytes: &[u8],
) -> Result<()> {
    match str::from_utf8(bytes) {
        Ok(text) => print!(rt; "{text}")?,
        Err(_) => println!(rt; "bytes that are no text")?,
    }
    Ok(())
}
