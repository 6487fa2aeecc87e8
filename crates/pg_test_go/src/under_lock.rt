//! Runs with the whole machine under one lock come to what the guided run comes to.

ghost use Rattle.pg_test_go.specs.Serves.{Serves};

use crate::entries::may_run;
use crate::rooms::{INPUT, SAMPLES};
use crate::rows::{Line, ROWS, Row};
use crate::serving::entry_for;
use pg_go::pg_ir::Program;
use pg_go::pg_run::guide;
use pg_law_reuse::Entry;
use pg_locked::run_locked;
use pg_test_samples::Sample;
use std::alloc::Global;
use std::process::Abort;
use std::sync::Wait;
use std::test::Fail;
use std::thread::Threads;

/// A line by workers that take turns at one lock, which comes to what the line says.
fn expect_line<R: Threads + Wait + Abort + Sync>(
    rt: &R,
    alloc: Global,
    p: &Program,
    entry: &mut Entry,
    line: &Line<'_>,
) -> Result<(), Fail>
    requires serves { Serves p.now entry.old }
    ensures serves { Serves p.now entry.new }
{
    if !may_run(p, entry, line.input) {
        return Err("not admitted".into());
    }
    let run = run_locked(rt, alloc, p, entry.schedule(), line.input)?;
    assert_eq!(rt; run.output.as_slice(), line.output, "on {:?}", line.input);
    assert_eq!(rt; run.end, line.end, "on {:?}", line.input);
    assert_eq!(rt; run.turns, line.turns, "on {:?}", line.input);
    Ok(())
}

/// These lines, one after another.
fn expect_lines<R: Threads + Wait + Abort + Sync>(
    rt: &R,
    alloc: Global,
    p: &Program,
    entry: &mut Entry,
    lines: &[Line<'_>],
) -> Result<(), Fail>
    requires serves { Serves p.now entry.old }
{
    'lines: for line in lines {
        expect_line(rt, alloc, p, entry, line)?;
    }
    Ok(())
}

fn expect_row<R: Threads + Wait + Abort + Sync>(
    rt: &R,
    alloc: Global,
    row: &Row,
) -> Result<(), Fail> {
    let p = row.sample.program(alloc)?;
    let mut entry = entry_for(alloc, &p, row.recorded, row.quantum)?;
    expect_lines(rt, alloc, &p, &mut entry, row.lines)
}

#[test]
fn the_rows_under_one_lock(rt: HostRuntime) -> Result<(), Fail> {
    for row in &ROWS {
        expect_row(&rt, rt.alloc(), row)?;
    }
    Ok(())
}

/// A sample's run, which comes to what the guided run comes to.
fn expect_sample<R: Threads + Wait + Abort + Sync>(
    rt: &R,
    alloc: Global,
    sample: Sample,
) -> Result<(), Fail> {
    let p = sample.program(alloc)?;
    let mut entry = entry_for(alloc, &p, &INPUT, 100)?;
    let guided = guide(alloc, &p, &INPUT, entry.schedule())?;
    let line = Line {
        input: &INPUT,
        output: guided.output.as_slice(),
        end: guided.end,
        turns: guided.turns,
    };
    expect_line(rt, alloc, &p, &mut entry, &line)
}

#[test]
fn the_samples_under_one_lock(rt: HostRuntime) -> Result<(), Fail> {
    for sample in SAMPLES {
        expect_sample(&rt, rt.alloc(), sample)?;
    }
    Ok(())
}
