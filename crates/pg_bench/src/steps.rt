//! Takes a run of `examples/loop.ll` many times, so that its time tells how many steps the machine takes in
//! a second: with no word the rotation run once, with `rotation N` or `guided N` that run N times.
mod counting;

use crate::steps::counting::{counting, start_and_exit};
use anyhow::Result;
use pg_ir::Program;
use pg_run::{guide, rotate};
use std::alloc::Global;

/// The quantum of the rotation runs.
const QUANTUM: u32 = 100;

/// How many steps these rotation runs have together.
fn rotated(alloc: Global, p: &Program, runs: u32) -> Result<u64> {
    let mut steps: u64 = 0;
    for _ in 0..runs {
        let recorded = rotate(alloc, p, &[], QUANTUM)?;
        steps = steps.wrapping_add(recorded.trace.len() as u64);
    }
    Ok(steps)
}

/// How many turns these guided runs have together. They take the steps of as many rotation runs, and
/// record none.
fn guided(alloc: Global, p: &Program, runs: u32) -> Result<u64> {
    let s = start_and_exit(alloc)?;
    let mut turns: u64 = 0;
    for _ in 0..runs {
        let run = guide(alloc, p, &[], &s)?;
        turns = turns.wrapping_add(run.turns as u64);
    }
    Ok(turns)
}

/// The second word as a number, 1 where there is none.
fn runs_of(words: &[String]) -> Result<u32> {
    match words.get(1) {
        Some(word) => Ok(word.parse::<u32>()?),
        None => Ok(1),
    }
}

fn is_guided(words: &[String]) -> bool {
    match words.get(0) {
        Some(word) => word.as_str() == "guided",
        None => false,
    }
}

/// Measures what these words ask for.
pub(crate) fn run(rt: &HostRuntime, words: &[String]) -> Result<()> {
    let runs = runs_of(words)?;
    let p = counting(rt.alloc(), 66_666)?;
    if is_guided(words) {
        let turns = guided(rt.alloc(), &p, runs)?;
        println!(rt; "{turns} turns")?;
    } else {
        let steps = rotated(rt.alloc(), &p, runs)?;
        println!(rt; "{steps} steps")?;
    }
    Ok(())
}
