//! Measures what recording a line takes, and using its entry again.
//!
//! With no word it tells what the recordings of some sample programs have. With `shares N` it tells what the parts of each
//! recording take in microseconds, the fastest of N times: the run by rotation, the races and the schedule, the guided run on
//! the own input, its replay, and the slice; beside these the slice by passes; and of the entry's use the test of an input and
//! the guided run.
//!
//! With `slice LENGTH` it makes a run of as many steps and tells what its slice takes: of one thread that has a branch every 50
//! steps and a decision every 500, and of eight threads whose accesses all lie within one array of 1 MiB. A third word takes
//! one shape alone, `branches`, `array`, or `chain`, a sum in memory of which a print depends. `run LENGTH SHAPE` does all but
//! the slice, so that the memory of the slice can be told: `/usr/bin/time -v` prints the greatest resident set of either, and
//! their difference, divided by the steps, is what the slice adds a step to the most that was taken before it.
mod command;
mod comparing;
mod counts;
mod measuring;
mod recording;
mod samples;
mod shapes;
mod shares;

use crate::recordings::command::{Command, parse};
pub(crate) use crate::recordings::comparing::Agreement;
use crate::recordings::counts::Counts;
use crate::recordings::measuring::{Extent, Job, Report, measured};
use crate::recordings::samples::{Measured, SAMPLES};
use crate::recordings::shapes::{Shape, name_of, parts_of, rounds_of};
use crate::recordings::shares::{Shares, between, faster, percent};
use anyhow::Result;
use pg_ir::Program;
use pg_test_samples::build;

/// The fastest of so many measurements, and of one at least.
fn fastest(rt: &HostRuntime, job: &Job, runs: u32) -> Result<Report> {
    let mut best = measured(rt, job)?;
    for _ in 1..runs {
        let next = measured(rt, job)?;
        best.moments = faster(best.moments, next.moments);
    }
    Ok(best)
}

/// What a recording has.
fn print_counts(rt: &HostRuntime, name: &str, c: &Counts) -> Result<()> {
    let Counts {
        steps,
        turns,
        branches,
        pinned,
        exact,
        admitted,
        done,
    } = *c;
    println!(rt;
        "{name}: {steps} steps, {branches} at branches, {turns} turns, {pinned} pinned, {exact} exact; own input admitted: {admitted}, {done} turns"
    )?;
    Ok(())
}

/// A part in microseconds, and in hundredths of the whole.
fn print_part(rt: &HostRuntime, name: &str, part: u64, whole: u128) -> Result<()> {
    let micros = part / 1_000;
    let percent = percent(part, whole.max(1));
    println!(rt; "  {micros:>9} us {percent:>3} % {name}")?;
    Ok(())
}

/// What the parts of a recording take.
fn print_shares(rt: &HostRuntime, s: &Shares) -> Result<()> {
    let whole = s.sum();
    print_part(rt, "the run by rotation", s.rotation, whole)?;
    print_part(rt, "races and schedule", s.schedule, whole)?;
    print_part(rt, "the guided run on the own input", s.guided, whole)?;
    print_part(rt, "its replay", s.replay, whole)?;
    print_part(rt, "its slice", s.slice, whole)
}

/// What stands beside the recording.
fn print_use(rt: &HostRuntime, r: &Report) -> Result<()> {
    let m = &r.moments;
    let passes = between(m.counted, m.passed) / 1_000;
    let test = between(m.ready, m.admitted) / 1_000;
    let run = between(m.admitted, m.guided) / 1_000;
    println!(rt; "  {passes:>9} us       the slice by passes")?;
    println!(rt; "  {test:>9} us       the test of an input")?;
    println!(rt; "  {run:>9} us       the guided run without its steps")?;
    Ok(())
}

/// What is measured of a program, with its times if they are asked for.
fn measure(
    rt: &HostRuntime,
    name: &str,
    p: &Program,
    input: &[i64],
    runs: Option<u32>,
) -> Result<()> {
    let job = Job {
        alloc: rt.alloc(),
        p,
        input,
        others: &[],
        extent: Extent::All,
    };
    let report = fastest(rt, &job, runs.unwrap_or(1))?;
    print_counts(rt, name, &report.counts)?;
    if runs.is_some() {
        print_shares(rt, &Shares::of(&report.moments))?;
        print_use(rt, &report)?;
    }
    Ok(())
}

fn measure_sample(rt: &HostRuntime, m: &Measured, runs: Option<u32>) -> Result<()> {
    let p = m.sample.program(rt.alloc())?;
    measure(rt, m.name, &p, m.input, runs)
}

fn measure_samples(rt: &HostRuntime, runs: Option<u32>) -> Result<()> {
    for m in SAMPLES {
        measure_sample(rt, &m, runs)?;
    }
    Ok(())
}

/// What is measured of a long run.
fn print_long(rt: &HostRuntime, name: &str, extent: Extent, r: &Report) -> Result<()> {
    let Counts {
        steps,
        branches,
        pinned,
        exact,
        ..
    } = r.counts;
    let before = between(r.moments.begun, r.moments.replayed) / 1_000_000;
    println!(rt;
        "{name}: {steps} steps, {branches} at branches, recorded and replayed in {before} ms"
    )?;
    if extent != Extent::Replay {
        let slice = between(r.moments.replayed, r.moments.sliced) / 1_000_000;
        println!(rt; "  {pinned} pinned, {exact} exact: the slice in {slice} ms")?;
    }
    Ok(())
}

fn measure_long(rt: &HostRuntime, extent: Extent, length: u32, shape: Shape) -> Result<()> {
    let p = build(rt.alloc(), &parts_of(shape))?;
    let job = Job {
        alloc: rt.alloc(),
        p: &p,
        input: &[rounds_of(shape, length) as i64],
        others: &[],
        extent,
    };
    let report = measured(rt, &job)?;
    print_long(rt, name_of(shape), extent, &report)
}

/// One shape, or those of which limits are asked.
fn measure_shapes(
    rt: &HostRuntime,
    extent: Extent,
    length: u32,
    shape: Option<Shape>,
) -> Result<()> {
    if let Some(shape) = shape {
        return measure_long(rt, extent, length, shape);
    }
    measure_long(rt, extent, length, Shape::Branches)?;
    measure_long(rt, extent, length, Shape::Array)
}

/// How the two slices of a program's run on an input compare, on this input and on others.
pub(crate) fn compared_as(
    rt: &HostRuntime,
    p: &Program,
    input: &[i64],
    others: &[Vec<i64>],
) -> Result<Agreement> {
    let job = Job {
        alloc: rt.alloc(),
        p,
        input,
        others,
        extent: Extent::Compare,
    };
    let report = measured(rt, &job)?;
    Ok(report.agreement)
}

/// Measures what these words ask for.
pub(crate) fn run(rt: &HostRuntime, words: &[String]) -> Result<()> {
    match parse(words)? {
        Command::Counts => measure_samples(rt, None),
        Command::Shares(runs) => measure_samples(rt, Some(runs)),
        Command::Long(extent, length, shape) => measure_shapes(rt, extent, length, shape),
    }
}
