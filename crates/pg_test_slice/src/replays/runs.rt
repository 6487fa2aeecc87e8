//! Replays of rotation runs.

use crate::replays::programs::{ADDS_ONE, STORES_OVER, STORES_THROUGH};
use pg_ir::Program;
use pg_region_paths::{Loads, Root};
use pg_region_summaries::summaries;
use pg_run::rotate;
use pg_run_trace::Trace;
use pg_slice_replay::{ReferenceRun, reference};
use pg_test_samples::{Sample, build};
use std::alloc::{AllocError, Global};
use std::process::Abort;
use std::test::Fail;

/// A rotation run replayed.
#[derive(Drop)]
struct Replayed {
    trace: Trace,
    run: ReferenceRun,
}

/// Takes a rotation run with one step a turn, and replays it.
fn replay(alloc: Global, p: &Program, input: &[i64]) -> Result<Replayed, AllocError> {
    let recorded = rotate(alloc, p, input, 1)?;
    let sums = summaries(alloc, p, &[])?;
    let run = reference(alloc, p, input, &recorded.trace, &[], sums.as_slice())?;
    Ok(Replayed {
        trace: recorded.trace,
        run,
    })
}

/// The steps of a loop that counts to the input's first number, and of one of three rounds.
fn check_loops(rt: &impl Abort, r: &Replayed) {
    let mut rounds: u32 = 0;
    for i in 0..r.trace.len() {
        let step = r.trace.step(i);
        assert_eq!(rt; r.run.depth(i), 1);
        assert_eq!(rt; r.run.target(i), None);
        assert_eq!(rt; r.run.function(i), if step.thread.0 == 0 { 1 } else { 0 });
        let last = rounds == 2;
        let (edge, join) = match step.instr.0 {
            3 => (Some(1), None),
            6 => (Some(3), Some(3)),
            13 => (Some(5), None),
            17 => (Some(if last { 6 } else { 5 }), Some(6)),
            _ => (None, None),
        };
        assert_eq!(rt; r.run.edge(i), edge);
        assert_eq!(rt; r.run.join(i), join);
        assert_eq!(rt; r.run.is_free(i), join.is_some());
        if step.instr.0 == 17 {
            rounds = rounds.wrapping_add(1);
            assert!(rt; r.run.access(i, 0).is_none());
            assert!(rt; r.run.sets(i, 3));
            assert!(rt; !r.run.sets(i, 4));
        }
    }
}

#[test]
fn two_loops_are_free(rt: HostRuntime) -> Result<(), Fail> {
    let p = Sample::RacingStores.program(rt.alloc())?;
    let r = replay(rt.alloc(), &p, &[0])?;
    assert_eq!(rt; r.run.len(), r.trace.len());
    check_loops(&rt, &r);
    Ok(())
}

/// The accesses of the counting loop, at the number that it counts in.
fn check_accesses(rt: &impl Abort, r: &Replayed) -> bool {
    let mut found = false;
    for i in 0..r.trace.len() {
        if r.trace.step(i).instr.0 == 6 {
            found = true;
            for k in 0..2 {
                let access = match r.run.access(i, k) {
                    Some(access) => access,
                    None => return false,
                };
                assert_eq!(rt; access.writes, k == 1);
                assert_eq!(rt; access.path.root, Root::Register(2));
                assert_eq!(rt; access.path.loads, Loads::Never);
                assert_eq!(rt; access.last, 9_367_487_224_947_408_896);
            }
            assert!(rt; r.run.access(i, 2).is_none());
            for register in 0..8 {
                assert_eq!(rt; r.run.sets(i, register), register >= 3 && register <= 5);
            }
        }
    }
    found
}

#[test]
fn the_counting_loop_accesses_its_own_memory(rt: HostRuntime) -> Result<(), Fail> {
    let p = Sample::RacingStores.program(rt.alloc())?;
    let none = replay(rt.alloc(), &p, &[0])?;
    assert!(rt; check_accesses(&rt, &none));
    let three = replay(rt.alloc(), &p, &[3])?;
    assert!(rt; check_accesses(&rt, &three));
    Ok(())
}

#[test]
fn a_call_knows_what_its_return_sets(rt: HostRuntime) -> Result<(), Fail> {
    let p = build(rt.alloc(), &ADDS_ONE)?;
    let r = replay(rt.alloc(), &p, &[])?;
    assert_eq!(rt; r.run.len(), 6);
    let depths = [1, 1, 2, 2, 1, 1];
    for i in 0..6 {
        let within = i == 2 || i == 3;
        assert_eq!(rt; r.run.depth(i), depths[i]);
        assert_eq!(rt; r.run.target(i), if within { Some(2) } else { None });
        assert_eq!(rt; r.run.function(i), if within { 0 } else { 1 });
        assert_eq!(rt; r.run.edge(i), None);
    }
    assert_eq!(rt; r.run.depth(6), 0);
    Ok(())
}

#[test]
fn a_path_is_followed_through_memory(rt: HostRuntime) -> Result<(), Fail> {
    let p = build(rt.alloc(), &STORES_THROUGH)?;
    let r = replay(rt.alloc(), &p, &[1])?;
    assert_eq!(rt; r.run.edge(4), Some(1));
    assert_eq!(rt; r.run.join(4), Some(2));
    match r.run.access(4, 1) {
        Some(access) => {
            assert!(rt; access.writes);
            assert_eq!(rt; access.path.root, Root::Global(0));
            assert_eq!(rt; access.path.loads, Loads::Once(0));
            assert_eq!(rt; access.pointers[0], 4_398_063_288_320);
            assert_eq!(rt; access.last, 8_796_109_799_424);
        }
        None => return Err("no access".into()),
    }
    Ok(())
}

#[test]
fn a_store_over_what_is_loaded_is_not_free(rt: HostRuntime) -> Result<(), Fail> {
    let p = build(rt.alloc(), &STORES_OVER)?;
    let r = replay(rt.alloc(), &p, &[0])?;
    assert_eq!(rt; r.run.edge(4), Some(2));
    assert!(rt; !r.run.is_free(4));
    Ok(())
}
