//! Measures the parts of the program. The first word says which, and the others what of it; with no word a row of each is told,
//! without times.
//!
//!     steps [rotation N | guided N]         how many steps the machine takes
//!     races STEPS THREADS                   the races of a made trace
//!     regions [chain | functions | nested | exits]     the regions of the branches of a made program
//!     compare NUMBER.. [-- NUMBER..].. < PROGRAM.ll     the two slices of a recording of the first numbers, on the others
//!     recordings [shares N | slice LENGTH [SHAPE] | run LENGTH [SHAPE]]     what recording a line takes, and using its entry
// How goals are searched for: see docs/CONTRIBUTING.md.
#![tactic(auto)]

mod compared;
mod races;
mod recordings;
mod regions;
mod steps;

use anyhow::{Result, anyhow};
use std::env;

/// The words of the command line behind so many, the program's own name among these.
fn words_behind(rt: &HostRuntime, count: usize) -> Result<Vec<String>> {
    let words = env::args(rt)?.skip(count).collect(rt.alloc())?;
    Ok(words)
}

/// A row of each, without times.
fn all(rt: &HostRuntime) -> Result<()> {
    steps::run(rt, &[])?;
    races::run(rt, &[])?;
    regions::run(rt, &[])?;
    recordings::run(rt, &[])
}

/// What the first word names.
fn named(rt: &HostRuntime, word: &str) -> Result<()> {
    let words = words_behind(rt, 2)?;
    let others = words.as_slice();
    match word {
        "compare" => compared::run(rt, others),
        "steps" => steps::run(rt, others),
        "races" => races::run(rt, others),
        "regions" => regions::run(rt, others),
        "recordings" => recordings::run(rt, others),
        _ => Err(anyhow!("the first word is compare, steps, races, regions or recordings")),
    }
}

fn main(rt: HostRuntime) -> Result<()> {
    let words = words_behind(&rt, 1)?;
    match words.as_slice().get(0) {
        Some(word) => named(&rt, word.as_str()),
        None => all(&rt),
    }
}
