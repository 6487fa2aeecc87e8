//! Recordings with seeds.

use pg_free::{Seeded, free_record};
use pg_ir::Program;
use pg_run::{Outcome, Recorded};
use pg_run_trace::Trace;
use pg_test_samples::Sample;
use std::alloc::Global;
use std::process::Abort;
use std::sync::Wait;
use std::test::Fail;
use std::thread::Threads;

fn seeded<R: Threads + Wait + Sync>(
    rt: &R,
    alloc: Global,
    p: &Program,
    seed: u64,
) -> Result<Recorded, Fail> {
    let mut crew = Seeded::new(seed);
    let run = free_record(rt, alloc, p, &[2], &mut crew)?;
    Ok(run)
}

fn are_same(a: &Trace, b: &Trace) -> bool {
    if a.len() != b.len() {
        return false;
    }
    for i in 0..a.len() {
        if a.step(i) != b.step(i) {
            return false;
        }
    }
    true
}

#[test]
fn a_seed_gives_one_recording(rt: HostRuntime) -> Result<(), Fail> {
    let p = Sample::RacingStores.program(rt.alloc())?;
    for seed in 0..8u64 {
        let one = seeded(&rt, rt.alloc(), &p, seed)?;
        let other = seeded(&rt, rt.alloc(), &p, seed)?;
        assert!(rt; are_same(&one.trace, &other.trace));
        assert_eq!(rt; one.end, Outcome::Exit(0));
        assert_eq!(rt; one.output.as_slice(), other.output.as_slice());
    }
    Ok(())
}

/// Some of 50 seeds let main store last, and some the thread.
#[test]
fn seeds_differ(rt: HostRuntime) -> Result<(), Fail> {
    let p = Sample::RacingStores.program(rt.alloc())?;
    let mut by_main = false;
    let mut by_thread = false;
    for seed in 0..50u64 {
        let run = seeded(&rt, rt.alloc(), &p, seed)?;
        match run.output.as_slice() {
            b"100\n" => by_main = true,
            b"2\n" => by_thread = true,
            _ => return Err("neither".into()),
        }
    }
    assert!(rt; by_main && by_thread);
    Ok(())
}
