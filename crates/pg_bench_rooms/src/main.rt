//! Measures what a line costs that is run by workers in a room.
//!
//! With no word it tells what the runs have. With `times N` it makes each run N times, one after another in one room, and tells what
//! the fastest takes in nanoseconds: to make it ready, to run its workers one after another, to run them at once, and to run them at
//! once so that they park while their turns aren't due, each with the words made 0 again; and beside these the guided run.
//! `lengths N` does so for runs of two threads that count apart, from 1,000 steps on and twice as many each time, and tells the mean
//! as well: so it shows from which length on host threads pay.
//!
//! `refused` makes a run ready in two tries at most, where the second is made in the room as the first gave it back, and tells how
//! many there were. So `rt try --fail-alloc 1.. -- refused` refuses each growth in turn: it lists those by which the text is
//! another, and no run may end in a fault or give another line than the last.
#![tactic(auto)]

mod command;
mod measuring;
mod programs;
mod refused;
mod times;

use crate::command::{Command, parse};
use crate::measuring::{Crews, measured};
use crate::programs::{JOBS, Job, counters};
use crate::refused::ready_in_two_tries;
use crate::times::Times;
use anyhow::Result;
use pg_go::{AnyParkers, OneByOne, Park, Parkers, Parking, Together};
use std::alloc::Global;
use std::env;
use std::io::Print;
use std::thread::Threads;
use std::time::Clock;

/// How often each of two threads counts, with five steps each time, in the runs of more and more steps.
const ROUNDS: [i64; 10] = [
    100, 200, 400, 800, 1_600, 3_200, 6_400, 12_800, 25_600, 51_200,
];

/// What the fastest of some runs takes.
fn print_times(rt: &impl Print, t: &Times) -> Result<()> {
    println!(rt; "  {:>10} ns made ready", t.ready.least)?;
    println!(rt; "  {:>10} ns one after another", t.one_by_one.least)?;
    println!(rt; "  {:>10} ns at once", t.together.least)?;
    println!(rt; "  {:>10} ns at once, parked in between", t.parking.least)?;
    println!(rt; "  {:>10} ns the guided run", t.guided.least)?;
    Ok(())
}

/// What a run has, and what it takes if that is asked for.
fn measure<R: Threads + Clock + Print + Sync>(
    rt: &R,
    alloc: Global,
    crews: &mut Crews,
    job: &Job<'_>,
    runs: Option<u32>,
) -> Result<()> {
    let (turns, times) = measured(rt, alloc, crews, job, runs.unwrap_or(1))?;
    println!(rt; "{}: {turns} turns", job.name)?;
    if runs.is_some() {
        print_times(rt, &times)?;
    }
    Ok(())
}

/// Each run.
fn measure_all<R: Threads + Clock + Print + Sync>(
    rt: &R,
    alloc: Global,
    crews: &mut Crews,
    runs: Option<u32>,
) -> Result<()> {
    for job in &JOBS {
        measure(rt, alloc, crews, job, runs)?;
    }
    Ok(())
}

/// Runs of more and more steps.
fn measure_lengths<R: Threads + Clock + Print + Sync>(
    rt: &R,
    alloc: Global,
    crews: &mut Crews,
    runs: u32,
) -> Result<()> {
    for rounds in ROUNDS {
        let (_turns, times) = measured(rt, alloc, crews, &counters(&[rounds]), runs)?;
        println!(rt;
            "{:>7} steps: {:>9} ns one after another, {:>9} at once; in the mean {:>9}, {:>9}",
            rounds.wrapping_mul(10),
            times.one_by_one.least,
            times.together.least,
            times.one_by_one.mean(),
            times.together.mean()
        )?;
    }
    Ok(())
}

/// In how many tries a run is made ready.
fn count_tries<R: Threads + Print + Sync>(rt: &R, alloc: Global) -> Result<()> {
    let tries = ready_in_two_tries(rt, alloc)?;
    println!(rt; "ready in {tries} tries")?;
    Ok(())
}

/// Does what a command asks for.
fn run<R: Threads + Clock + Print + Sync>(
    rt: &R,
    alloc: Global,
    crews: &mut Crews,
    command: Command,
) -> Result<()> {
    match command {
        Command::Counts => measure_all(rt, alloc, crews, None),
        Command::Times(runs) => measure_all(rt, alloc, crews, Some(runs)),
        Command::Lengths(runs) => measure_lengths(rt, alloc, crews, runs),
        Command::Refused => count_tries(rt, alloc),
    }
}

fn main(rt: HostRuntime) -> Result<()> {
    let words: Vec<String> = env::args(&rt)?.skip(1).collect(rt.alloc())?;
    let command = parse(words.as_slice())?;
    // No memory is taken here that none of its tries wants.
    if let Command::Refused = command {
        return count_tries(&rt, rt.alloc());
    }
    let parkers: Box<dyn Park + Sync + Drop> = Box::new(rt.alloc(), Parkers::new(rt.alloc(), rt)?)?;
    let mut crews = Crews {
        one_by_one: OneByOne::new(Vec::new(rt.alloc())),
        together: Together::new(Vec::new(rt.alloc())),
        parking: Parking::new(Vec::new(rt.alloc()), AnyParkers::new(parkers)),
    };
    run(&rt, rt.alloc(), &mut crews, command)
}
