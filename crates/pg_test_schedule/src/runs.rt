//! Races of rotation runs of the sample programs.

ghost use Rattle.std.specs.Prelude.{◌<◌, ◌≤◌};
ghost use Rattle.pg_num.specs.declared.limits.TheConstants.{QUANTUM_LIMIT};

use pg_ir::InstrId;
use pg_run::{Followed, Recorded, follow, rotate};
use pg_run_trace::{Race, Trace};
use pg_schedule::{hybrid, is_ordered, races, races_by_pairs};
use pg_test_samples::Sample;
use std::alloc::Global;
use std::process::Abort;
use std::test::Fail;

/// A rotation run of a sample program.
fn rotated(alloc: Global, sample: Sample, input: &[i64], quantum: u32) -> Result<Recorded, Fail>
    requires some { 0 < quantum }
    requires few { quantum ≤ QUANTUM_LIMIT }
{
    let p = sample.program(alloc)?;
    Ok(rotate(alloc, &p, input, quantum)?)
}

fn race(instr: u32, step: usize, with: usize) -> Race {
    Race {
        instr: InstrId(instr),
        step,
        with,
    }
}

/// The races of a trace, which both forms give.
fn races_of(rt: &impl Abort, alloc: Global, t: &Trace) -> Result<Vec<Race>, Fail> {
    let found = races(alloc, t)?;
    let by_pairs = races_by_pairs(alloc, t)?;
    assert_eq!(rt; found.as_slice(), by_pairs.as_slice());
    Ok(found)
}

#[test]
fn racing_stores_race_with_each_other(rt: HostRuntime) -> Result<(), Fail> {
    let run = rotated(rt.alloc(), Sample::RacingStores, &[0], 1)?;
    let found = races_of(&rt, rt.alloc(), &run.trace)?;
    assert_eq!(rt;
        found.as_slice(),
        [race(10, 18, 22), race(18, 22, 18)].as_slice()
    );
    assert_eq!(rt; is_ordered(rt.alloc(), &run.trace)?, Some((18, 22)));
    Ok(())
}

#[test]
fn the_run_along_its_schedule_is_ordered(rt: HostRuntime) -> Result<(), Fail> {
    let alloc = rt.alloc();
    let run = rotated(alloc, Sample::RacingStores, &[0], 1)?;
    let found = races(alloc, &run.trace)?;
    let s = hybrid(alloc, &run.trace, found.as_slice())?;
    let p = Sample::RacingStores.program(alloc)?;
    let (followed, trace) = follow(alloc, &p, &[0], &s)?;
    match &followed {
        Followed::Exit { .. } => {
            assert_eq!(rt; is_ordered(alloc, &trace)?, None);
            Ok(())
        }
        _ => Err("no exit".into()),
    }
}

/// The samples whose runs are short enough to compare each step with all others.
const SHORT: [Sample; 14] = [
    Sample::AddTwo,
    Sample::PrintInALoop,
    Sample::TwoUnderMutex,
    Sample::SumsUnderMutex,
    Sample::BarrierOfThree,
    Sample::WaitAndBroadcast,
    Sample::StoresSideBySide,
    Sample::RacingStores,
    Sample::StoresInALoop,
    Sample::PrintIfStored,
    Sample::PrintBoth,
    Sample::CountingThread,
    Sample::ManyThreads,
    Sample::FourThreads,
];

/// How many races the runs of the samples have together, with this quantum.
fn count_races(rt: &impl Abort, alloc: Global, quantum: u32) -> Result<usize, Fail>
    requires some { 0 < quantum }
    requires few { quantum ≤ QUANTUM_LIMIT }
{
    let mut count: usize = 0;
    for sample in SHORT {
        let run = rotated(alloc, sample, &[9, 3], quantum)?;
        let found = races_of(rt, alloc, &run.trace)?;
        count = count.wrapping_add(found.len());
    }
    Ok(count)
}

#[test]
fn both_forms_agree_on_the_samples(rt: HostRuntime) -> Result<(), Fail> {
    let one = count_races(&rt, rt.alloc(), 1)?;
    let hundred = count_races(&rt, rt.alloc(), 100)?;
    assert!(rt; one > 0);
    assert!(rt; hundred > 0);
    Ok(())
}
