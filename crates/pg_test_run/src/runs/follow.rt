//! Guided runs with their traces.

use crate::runs::recorded::{ALL, along, recorded, turn, turns_of};
use pg_ir::InstrId;
use pg_run::{Followed, follow};
use pg_run_trace::{Schedule, Trace, Turn, TurnKind};
use pg_test_samples::Sample;
use std::alloc::{AllocError, Global};
use std::process::Abort;
use std::test::Fail;

/// The stores that race are turns, the thread's before main's.
fn racing_turns(alloc: Global) -> Result<Vec<Turn>, AllocError> {
    let turns = vec![in alloc;
        turn(0, 12, TurnKind::Start, 0),
        turn(0, 12, TurnKind::Create, 1),
        turn(1, 0, TurnKind::Start, 1),
        turn(1, 10, TurnKind::Store, 8),
        turn(1, 11, TurnKind::Exit, 1),
        turn(0, 18, TurnKind::Store, 8),
        turn(0, 20, TurnKind::Join, 1),
        turn(0, 22, TurnKind::Out, 0),
        turn(0, 23, TurnKind::Exit, 0),
    ]?;
    Ok(turns)
}

fn racing_schedule(alloc: Global) -> Result<Schedule, AllocError> {
    let turns = racing_turns(alloc)?;
    let gated = [InstrId(10), InstrId(18)].to_vec(alloc)?;
    Ok(along(alloc, turns, gated))
}

/// The run of the racing stores along a schedule.
fn raced(alloc: Global, s: &Schedule) -> Result<(Followed, Trace), Fail> {
    let p = Sample::RacingStores.program(alloc)?;
    Ok(follow(alloc, &p, &[0], s)?)
}

fn expect_turns(rt: &impl Abort, alloc: Global, trace: &Trace, turns: &[Turn]) -> Result<(), Fail> {
    assert_eq!(rt; trace.len(), 28);
    let events = turns_of(alloc, trace, ALL)?;
    assert_eq!(rt; events.as_slice(), turns);
    Ok(())
}

#[test]
fn a_run_with_its_trace(rt: HostRuntime) -> Result<(), Fail> {
    let s = racing_schedule(rt.alloc())?;
    let (run, trace) = raced(rt.alloc(), &s)?;
    match &run {
        Followed::Exit { output, value } => {
            assert_eq!(rt; output.as_slice(), b"100\n".as_slice());
            assert_eq!(rt; *value, 0);
            expect_turns(&rt, rt.alloc(), &trace, s.turns.as_slice())
        }
        _ => Err("no exit".into()),
    }
}

/// The run along the first turns of a rotation run without input, and one more behind them.
fn followed(
    alloc: Global,
    sample: Sample,
    kept: usize,
    then: Option<Turn>,
) -> Result<Followed, Fail> {
    let p = sample.program(alloc)?;
    let s = recorded(alloc, &p, &[], 100, kept, then)?;
    let (run, _trace) = follow(alloc, &p, &[], &s)?;
    Ok(run)
}

#[test]
fn a_run_that_strays(rt: HostRuntime) -> Result<(), Fail> {
    match followed(rt.alloc(), Sample::PrintIfStored, ALL, None)? {
        Followed::Strayed(turns) => assert_eq!(rt; turns, 4),
        _ => return Err("not strayed".into()),
    }
    Ok(())
}

/// One that traps, and one that would take a step more than a recording may have.
#[test]
fn unfinished_runs(rt: HostRuntime) -> Result<(), Fail> {
    for sample in [Sample::SkippedBlock, Sample::Circle] {
        let out = turn(0, 3, TurnKind::Out, 0);
        match followed(rt.alloc(), sample, 1, Some(out))? {
            Followed::Unfinished => {}
            _ => return Err("finished".into()),
        }
    }
    Ok(())
}
