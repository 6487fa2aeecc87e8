//! Recordings on host threads.

use pg_free::{Free, free_record};
use pg_run::Outcome;
use pg_run_trace::Trace;
use pg_test_samples::Sample;
use std::process::Abort;
use std::test::Fail;

/// How often the steps of thread 1 and those of thread 2 follow one another.
fn changes(trace: &Trace) -> u64 {
    let mut changes: u64 = 0;
    let mut last = 0;
    for i in 0..trace.len() {
        let thread = trace.step(i).thread.0;
        if thread > 0 && thread != last {
            last = thread;
            changes = changes.wrapping_add(1);
        }
    }
    changes
}

/// In one of 20 recordings at the latest each of two threads has steps between those of the other: no clause says so, since it
/// rests on how the system runs threads.
#[test]
fn two_threads_take_part(rt: HostRuntime) -> Result<(), Fail> {
    let p = Sample::TwoCounters.program(rt.alloc())?;
    let mut crew = Free::new();
    let mut most = 0;
    for _ in 0..20 {
        let run = free_record(&rt, rt.alloc(), &p, &[20_000], &mut crew)?;
        assert_eq!(rt; run.end, Outcome::Exit(0));
        assert_eq!(rt; run.trace.event_count(), 10);
        most = changes(&run.trace).max(most);
        if most >= 4 {
            break;
        }
    }
    assert!(rt; most >= 4);
    assert!(rt; crew.rounds() > 0);
    Ok(())
}

/// Whatever the order of the threads, the two sums are added.
#[test]
fn sums_under_a_mutex(rt: HostRuntime) -> Result<(), Fail> {
    let p = Sample::SumsUnderMutex.program(rt.alloc())?;
    for _ in 0..10 {
        let mut crew = Free::new();
        let run = free_record(&rt, rt.alloc(), &p, &[1, 2, 3], &mut crew)?;
        assert_eq!(rt; run.end, Outcome::Exit(0));
        assert_eq!(rt; run.output.as_slice(), b"12\n".as_slice());
    }
    Ok(())
}
