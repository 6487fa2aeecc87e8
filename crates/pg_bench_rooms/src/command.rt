//! The words of the command line.

use anyhow::{Result, anyhow};

/// What is measured.
#[derive(Clone, Copy)]
pub(crate) enum Command {
    /// How many turns each run has.
    Counts,
    /// And what it takes, the fastest of so many times.
    Times(u32),
    /// What runs of more and more steps take, of so many times.
    Lengths(u32),
    /// How many tries it takes to make a run ready.
    Refused,
}

/// A word as a number, 1 where there is none.
fn number(word: Option<&String>) -> Result<u32> {
    match word {
        Some(word) => Ok(word.parse::<u32>()?),
        None => Ok(1),
    }
}

/// The command that these words give.
pub(crate) fn parse(words: &[String]) -> Result<Command> {
    let Some(word) = words.get(0) else {
        return Ok(Command::Counts);
    };
    match word.as_str() {
        "times" => Ok(Command::Times(number(words.get(1))?)),
        "lengths" => Ok(Command::Lengths(number(words.get(1))?)),
        "refused" => Ok(Command::Refused),
        _ => Err(anyhow!("the first word is times, lengths or refused")),
    }
}
