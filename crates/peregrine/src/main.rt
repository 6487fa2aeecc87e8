//! The program: its command line, its standard input and output, and the files of the system.
// How goals are searched for: see docs/CONTRIBUTING.md.
#![tactic(auto)]

ghost use Rattle.std.specs.Prelude.{◌≡◌};
ghost use Rattle.std.specs.Process.{exit_status};
ghost use Rattle.pg_commands.specs.Statuses.{status_code};

use pg_commands::pg_free::Free;
use pg_commands::pg_go::ByLength;
use pg_commands::{Status, peregrine};
use pg_io::{FileShelf, ReaderSource, WriterSink};
use std::process::ExitCode;

mod words;

/// The exit status of the process.
fn exit_code(status: Status) -> ExitCode
    ensures { exit_status result ≡ status_code status }
{
    ExitCode::from(status.code())
}

fn main(rt: HostRuntime) -> ExitCode {
    let words = match words::words(&rt, rt.alloc()) {
        Ok(words) => words,
        Err(status) => return exit_code(status),
    };
    let mut src = ReaderSource::new(rt.stdin());
    let mut shelf = FileShelf::new(rt.alloc(), &rt);
    let mut out = WriterSink::new(rt.stdout());
    let mut free = Free::new();
    let mut crew = ByLength::new(Vec::new(rt.alloc()));
    exit_code(peregrine(
        &rt,
        rt.alloc(),
        &words,
        &mut src,
        &mut shelf,
        &mut out,
        &mut free,
        &mut crew,
    ))
}

#[cfg(test)]
mod tests;
