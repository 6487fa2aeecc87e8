//! For each line of `rows.txt`, which has the words of a command line and the files that stand one behind the other as its
//! program text, it prints the exit status and what was written. Then it runs `once` on each line of `checks.txt`, a text that
//! the checks refuse or nearly refuse, and prints what was written, and the text. `data/checks.py` made the output that is
//! wanted of these.
use crate::running::{SHORTENED, Workers, joined, outcome, print_bytes};
use anyhow::Result;
use pg_commands::Status;
use pg_io::{MemoryShelf, MemorySource};
use pg_num::limits::PROGRAM_TEXT_LIMIT;
use pg_read::parse;
use pg_read_ast::print_module;
use std::alloc::{AllocError, Global};
use std::fs;
use std::rt::Files;
use std::sync::Wait;
use std::thread::Threads;

/// The most bytes of one read.
const PIECE: usize = 4096;

/// The status of the command whose words these are, where its source has this text and its shelf no file, and what it writes.
fn answer<R: Threads + Wait + Sync + Print + Files + AllocGlobal>(
    rt: &R,
    line: &str,
    text: Vec<u8>,
) -> Result<(Status, Vec<u8>), AllocError> {
    let alloc = rt.alloc();
    let src = MemorySource::new(text, PIECE, Vec::new(alloc));
    let shelf = MemoryShelf::new(alloc, Vec::new(alloc), Vec::new(alloc));
    outcome(rt, line, shelf, src, Workers::ByLength)
}

/// Runs a command line on a text, and prints what comes of it.
fn print_outcome<R: Threads + Wait + Sync + Print + Files + AllocGlobal>(
    rt: &R,
    line: &str,
    name: &str,
    text: Vec<u8>,
) -> Result<()> {
    let (status, written) = answer(rt, line, text)?;
    let code = status.code();
    println!(rt; "{line} < {name}: {code}")?;
    print_bytes(rt, written.as_slice())
}

/// Runs `once` on a text in which `⏎` stands for a line feed, and prints what was written, and then the text.
fn print_check<R: Threads + Wait + Sync + Print + Files + AllocGlobal>(
    rt: &R,
    text: &str,
) -> Result<()> {
    let lines = text.replace(rt.alloc(), "⏎", "\n")?;
    let (_, written) = answer(rt, "once", lines.as_bytes().to_vec(rt.alloc())?)?;
    match str::from_utf8(written.as_slice()) {
        Ok(said) => {
            let said = said.trim_end();
            println!(rt; "{said}: {text}")?;
        }
        Err(_) => println!(rt; "bytes that are no text: {text}")?,
    }
    Ok(())
}

/// Prints what comes of each line of `checks.txt`.
fn print_checks<R: Threads + Wait + Sync + Print + Files + AllocGlobal>(rt: &R) -> Result<()> {
    let texts = fs::read_to_string(rt, "checks.txt")?;
    println!(rt; "checks.txt")?;
    for text in texts.lines() {
        print_check(rt, text)?;
    }
    Ok(())
}

/// Whether `once` answers anything else on a front of the text than that the program ran or was refused.
fn has_other_front<R: Threads + Wait + Sync + Print + Files + AllocGlobal>(
    rt: &R,
    text: &[u8],
) -> Result<bool, AllocError> {
    for len in 0..text.len() {
        let (status, _) = answer(rt, "once", text[..len].to_vec(rt.alloc())?)?;
        if status != Status::Done && status != Status::ProgramRefused {
            return Ok(true);
        }
    }
    Ok(false)
}

/// Prints the canonical text of a program.
fn print_canonical<R: Threads + Wait + Sync + Print + Files + AllocGlobal>(
    rt: &R,
    text: &[u8],
) -> Result<()> {
    if text.len() > PROGRAM_TEXT_LIMIT {
        println!(rt; "too long")?;
        return Ok(());
    }
    match parse(rt.alloc(), text) {
        Ok(program) => print_bytes(rt, print_module(rt.alloc(), &program)?.as_slice()),
        Err(fault) => {
            println!(rt; "{fault}")?;
            Ok(())
        }
    }
}

/// Prints what comes of the texts.
pub(crate) fn print_texts<R: Threads + Wait + Sync + Print + Files + AllocGlobal>(
    rt: &R,
) -> Result<()> {
    let rows = fs::read_to_string(rt, "rows.txt")?;
    for row in rows.lines() {
        match row.split_once(" < ") {
            Some((line, names)) => print_outcome(rt, line, names, joined(rt, names)?)?,
            None => println!(rt; "no row: {row}")?,
        }
    }
    let blanks = vec![in rt.alloc(); b' '; PROGRAM_TEXT_LIMIT + 1]?;
    print_outcome(rt, "once", "1048577 blanks", blanks)?;
    let other = has_other_front(rt, joined(rt, SHORTENED)?.as_slice())?;
    println!(rt; "a proper prefix of {SHORTENED} has another status than 0 and 3: {other}")?;
    print_canonical(rt, joined(rt, "least.ll")?.as_slice())?;
    print_checks(rt)
}
