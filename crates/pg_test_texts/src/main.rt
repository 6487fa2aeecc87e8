//! Reads the texts of `data/`. For each line of `texts.txt` it prints whether that is a module, or its first refusal,
//! and for each program its canonical text. Of one program it reads each beginning too. `data/texts.py` made the output
//! that is wanted.
// How goals are searched for: see docs/CONTRIBUTING.md.
#![tactic(auto)]

use pg_num::limits::PROGRAM_TEXT_LIMIT;
use pg_read::parse;
use pg_read_ast::print_module;
use pg_read_grammar::ReadFault;
use std::alloc::Global;
use std::process::Abort;
use std::{fs, io};

const PROGRAMS: [&str; 6] = [
    "programs.ll",
    "shortened.ll",
    "counter.debug.ll",
    "queue.debug.ll",
    "pipeline.ll",
    "barrier.ll",
];

/// The program of which each beginning is read.
const CUT: &str = "shortened.ll";

fn main(rt: HostRuntime) -> io::Result<()> {
    let texts = fs::read_to_string(&rt, "texts.txt")?;
    for text in texts.lines() {
        if text.len() > PROGRAM_TEXT_LIMIT {
            return println!(rt; "too long");
        }
        match parse(rt.alloc(), text.as_bytes()) {
            Ok(_) => println!(rt; "a module: {text}")?,
            Err(fault) => println!(rt; "{fault}: {text}")?,
        }
    }
    for name in PROGRAMS {
        let text = fs::read_to_string(&rt, name)?;
        if text.len() > PROGRAM_TEXT_LIMIT {
            return println!(rt; "too long");
        }
        match parse(rt.alloc(), text.as_bytes()) {
            Ok(program) => match print_module(rt.alloc(), &program) {
                Ok(printed) => match str::from_utf8(printed.as_slice()) {
                    Ok(printed) => print!(rt; "{printed}")?,
                    Err(_) => println!(rt; "{name}: no text")?,
                },
                Err(_) => println!(rt; "{name}: out of memory")?,
            },
            Err(fault) => println!(rt; "{name}: {fault}")?,
        }
    }
    let text = fs::read_to_string(&rt, CUT)?;
    print_cuts(&rt, text.as_bytes())
}

/// What reading gives of each beginning of a program, but for those that are refused at their end.
fn print_cuts(rt: &HostRuntime, program: &[u8]) -> io::Result<()> {
    for end in 0..program.len() {
        print_cut(rt, &program[..end])?;
    }
    Ok(())
}

/// What reading gives of the beginning of a program, but where that is refused at its end.
fn print_cut(rt: &HostRuntime, text: &[u8]) -> io::Result<()> {
    let end = text.len();
    if end > PROGRAM_TEXT_LIMIT {
        return println!(rt; "too long");
    }
    match parse(rt.alloc(), text) {
        Ok(_) => println!(rt; "cut at byte {end}: a module"),
        Err(ReadFault::Unexpected(at)) if at as usize == end => Ok(()),
        Err(fault) => println!(rt; "cut at byte {end}: {fault}"),
    }
}
