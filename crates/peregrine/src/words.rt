//! The words of the command line.
ghost use Rattle.std.specs.Prelude.{◌≡◌, ◌⊎◌, IfErr};

use pg_commands::Status;
use std::alloc::Global;
use std::env::{Env, FillError};
use std::{env, io};

/// The arguments of a program without the first, which is its own name.
#[derive(Drop)]
struct WithoutName<'a, E: Env> {
    arguments: &'a E,
}

impl<'a, E: Env> Env for WithoutName<'a, E> {
    fn arg(&self, i: usize, buf: &mut [u8]) -> Result<usize, FillError> {
        match i.checked_add(1) {
            Some(next) => self.arguments.arg(next, buf),
            None => Err(FillError::NotPresent),
        }
    }

    fn var(&self, name: &str, buf: &mut [u8]) -> Result<usize, FillError> {
        self.arguments.var(name, buf)
    }

    fn var_at(&self, i: usize, buf: &mut [u8]) -> Result<usize, FillError> {
        self.arguments.var_at(i, buf)
    }
}

/// The words of the command line after the program's own name, which may be any bytes.
///
/// # Errors
///
/// `Usage` where a word isn't UTF-8, which no word of a command is; `OutOfMemory` where the words find no
/// memory.
pub(crate) fn words<E: Env>(arguments: &E, alloc: Global) -> Result<Vec<String>, Status>
    ensures { IfErr result (λ s. (s ≡ Status.Usage) ⊎ (s ≡ Status.OutOfMemory)) }
{
    let words = match env::args(&(WithoutName { arguments }, alloc)) {
        Ok(words) => words,
        Err(fault) if fault.kind() == io::ErrorKind::InvalidData => return Err(Status::Usage),
        Err(_) => return Err(Status::OutOfMemory),
    };
    match words.collect(alloc) {
        Ok(words) => Ok(words),
        Err(_) => Err(Status::OutOfMemory),
    }
}
