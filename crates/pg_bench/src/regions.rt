//! Finds the regions of all branches of a made program, and tells how long that took: `chain`, one function of 60,000
//! instructions with 5,000 branches; `functions`, 500 functions with ten branches each; `nested`, 10,000 branches of which
//! each stands in the one before; `exits`, a loop with 10,000 exits. With no such word it takes a function with ten branches.
mod shapes;

use crate::regions::shapes::{chains, exits, nested};
use anyhow::Result;
use pg_ir::{InstrId, Op, Program};
use pg_region::Finder;
use std::alloc::Global;
use std::time::Instant;

/// The program that a word names, and where it names none that with ten branches.
fn named(alloc: Global, word: &str) -> Result<Program> {
    if word == "chain" {
        return chains(alloc, 1, 5_000);
    }
    if word == "functions" {
        return chains(alloc, 500, 10);
    }
    if word == "nested" {
        return nested(alloc, 10_000);
    }
    if word == "exits" {
        return exits(alloc, 10_000);
    }
    chains(alloc, 1, 10)
}

fn program(alloc: Global, words: &[String]) -> Result<Program> {
    match words.get(0) {
        Some(word) => named(alloc, word.as_str()),
        None => chains(alloc, 1, 10),
    }
}

fn is_branch(op: &Op) -> bool {
    match op {
        Op::CondBr { .. } | Op::Switch { .. } => true,
        _ => false,
    }
}

/// How many branches have a region, and how many blocks these regions have together.
fn counts(alloc: Global, p: &Program) -> Result<(u32, u64)> {
    let finder = Finder::new(alloc, p, &[], &[])?;
    let mut regions: u32 = 0;
    let mut blocks: u64 = 0;
    for i in 0..p.instr_count() {
        let id = InstrId(i);
        if is_branch(&p.instr(id).op) {
            if let Some(region) = finder.region(alloc, p, &[], id)? {
                regions = regions.wrapping_add(1);
                blocks = blocks.wrapping_add(region.blocks.len() as u64);
            }
        }
    }
    Ok((regions, blocks))
}

/// Measures what these words ask for.
pub(crate) fn run(rt: &HostRuntime, words: &[String]) -> Result<()> {
    let p = program(rt.alloc(), words)?;
    let start = Instant::now(rt)?;
    let (regions, blocks) = counts(rt.alloc(), &p)?;
    let taken = start.elapsed(rt)?.as_millis();
    if words.is_empty() {
        println!(rt; "{regions} regions of {blocks} blocks")?;
    } else {
        println!(rt; "{regions} regions of {blocks} blocks after {taken} ms")?;
    }
    Ok(())
}
