//! The words of the command line.

use crate::recordings::measuring::Extent;
use crate::recordings::shapes::{Shape, name_of};
use anyhow::{Result, anyhow};

/// What is measured.
#[derive(Clone, Copy)]
pub(crate) enum Command {
    /// What the recordings of the sample programs have.
    Counts,
    /// And what their parts take, the fastest of so many times.
    Shares(u32),
    /// The slice of a run of so many steps, or what is made before it alone; of one shape, or of `Branches` and `Array`.
    Long(Extent, u32, Option<Shape>),
}

/// The shape that a word names.
fn shape(word: &str) -> Option<Shape> {
    for shape in [Shape::Branches, Shape::Array, Shape::Chain] {
        if word == name_of(shape) {
            return Some(shape);
        }
    }
    None
}

/// A word as a number, and another number where there is none.
fn number(word: Option<&String>, none: u32) -> Result<u32> {
    match word {
        Some(word) => Ok(word.parse::<u32>()?),
        None => Ok(none),
    }
}

/// `slice` or `run` with a length, and perhaps a shape.
fn long(extent: Extent, words: &[String]) -> Result<Command> {
    let length = number(words.get(1), 50_000)?;
    let Some(word) = words.get(2) else {
        return Ok(Command::Long(extent, length, None));
    };
    match shape(word.as_str()) {
        Some(shape) => Ok(Command::Long(extent, length, Some(shape))),
        None => Err(anyhow!("the shapes are branches, array and chain")),
    }
}

/// The command that these words give.
pub(crate) fn parse(words: &[String]) -> Result<Command> {
    let Some(word) = words.get(0) else {
        return Ok(Command::Counts);
    };
    match word.as_str() {
        "shares" => Ok(Command::Shares(number(words.get(1), 1)?)),
        "slice" => long(Extent::Slice, words),
        "run" => long(Extent::Replay, words),
        _ => Err(anyhow!("the first word is shares, slice or run")),
    }
}
