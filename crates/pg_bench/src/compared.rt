//! Compares the two slices of a recording.
//!
//! Its words are the numbers of the recorded input, and behind each `--` those of another; the program text comes from
//! standard input. It tells whether both slices decide the same and admit the run's own input, how many of the other inputs
//! both admit and how many just one, and whether both ways to find races find the same. A program that is refused, or whose
//! run doesn't exit, has none: this is an error.
ghost use Rattle.std.specs.Prelude.{◌≤◌, length};
ghost use Rattle.pg_num.specs.declared.limits.TheConstants.{PROGRAM_TEXT_LIMIT};

use crate::recordings::{Agreement, compared_as};
use anyhow::{Result, anyhow};
use pg_check::check;
use pg_check::pg_law_numbering::laws::a_module_is_in_order;
use pg_io::{ReaderSource, read_all};
use pg_ir::Program;
use pg_num::limits::PROGRAM_TEXT_LIMIT;
use pg_read::parse;
use std::mem;

/// The inputs that the words give: the numbers before the first `--`, and those behind each.
fn inputs(rt: &HostRuntime, words: &[String]) -> Result<Vec<Vec<i64>>> {
    let mut inputs = Vec::new(rt.alloc());
    let mut input = Vec::new(rt.alloc());
    for word in words {
        if word.as_str() == "--" {
            let done = mem::replace(&mut input, Vec::new(rt.alloc()));
            inputs.push(done)?;
        } else {
            input.push(word.parse::<i64>()?)?;
        }
    }
    inputs.push(input)?;
    Ok(inputs)
}

/// The program of a text.
fn program_of(rt: &HostRuntime, text: &[u8]) -> Result<Program>
    requires { length text.now ≤ PROGRAM_TEXT_LIMIT }
{
    a_module_is_in_order();
    let Ok(tree) = parse(rt.alloc(), text) else {
        return Err(anyhow!("the program text can't be read"));
    };
    match check(rt.alloc(), &tree) {
        Ok(program) => Ok(program),
        Err(_) => Err(anyhow!("the program text is refused")),
    }
}

/// The program of standard input.
fn program(rt: &HostRuntime) -> Result<Program> {
    let mut source = ReaderSource::new(rt.stdin());
    match read_all(rt.alloc(), &mut source, PROGRAM_TEXT_LIMIT) {
        Ok(text) => program_of(rt, text.as_slice()),
        Err(_) => Err(anyhow!("no program text can be read")),
    }
}

/// Compares what these words ask for.
pub(crate) fn run(rt: &HostRuntime, words: &[String]) -> Result<()> {
    let given = inputs(rt, words)?;
    let program = program(rt)?;
    match given.as_slice() {
        [input, others @ ..] => {
            let a = compared_as(rt, &program, input.as_slice(), others)?;
            print_agreement(rt, &a)
        }
        [] => Err(anyhow!("no numbers are given")),
    }
}

fn print_agreement(rt: &HostRuntime, a: &Agreement) -> Result<()> {
    let Agreement {
        races,
        decisions,
        own,
        both,
        one,
    } = *a;
    println!(rt;
        "decisions: {decisions}, own input: {own}, both admit {both}, one admits {one}, races: {races}"
    )?;
    Ok(())
}
