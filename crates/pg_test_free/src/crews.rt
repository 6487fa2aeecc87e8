//! Recordings by a crew that prefers one thread.

ghost use Rattle.std.specs.Prelude.{◌<◌, ◌≤◌, length};

use pg_free::{FreeCrew, Prefer, free_record};
use pg_ir::{InstrId, ThreadNo, TrapName};
use pg_run::{Outcome, Refusal};
use pg_test_samples::Sample;
use std::alloc::Global;
use std::process::Abort;
use std::sync::Wait;
use std::test::Fail;
use std::thread::Threads;

/// A program, its input and the thread that is preferred; what it prints, how many events it does, and how it ends.
#[derive(Clone, Copy)]
struct Row {
    sample: Sample,
    input: &'static [i64],
    thread: u8,
    output: &'static [u8],
    events: usize,
    end: Outcome,
}

const ROWS: [Row; 8] = [
    Row {
        sample: Sample::RacingStores,
        input: &[0],
        thread: 0,
        output: b"0\n",
        events: 7,
        end: Outcome::Exit(0),
    },
    Row {
        sample: Sample::RacingStores,
        input: &[0],
        thread: 1,
        output: b"100\n",
        events: 7,
        end: Outcome::Exit(0),
    },
    Row {
        sample: Sample::TwoUnderMutex,
        input: &[4],
        thread: 63,
        output: b"5\n",
        events: 11,
        end: Outcome::Exit(0),
    },
    Row {
        sample: Sample::TwoThatDivide,
        input: &[0, 10],
        thread: 1,
        output: b"7\n",
        events: 4,
        end: Outcome::Refused(Refusal::Trap(TrapName::DivideByZero, InstrId(7))),
    },
    Row {
        sample: Sample::TwoThatDivide,
        input: &[0, 0],
        thread: 2,
        output: b"7\n",
        events: 6,
        end: Outcome::Refused(Refusal::Trap(TrapName::DivideByZero, InstrId(24))),
    },
    Row {
        sample: Sample::LockTwice,
        input: &[],
        thread: 0,
        output: b"",
        events: 2,
        end: Outcome::Refused(Refusal::Trap(TrapName::Deadlock, InstrId(1))),
    },
    Row {
        sample: Sample::SkippedBlock,
        input: &[],
        thread: 0,
        output: b"",
        events: 1,
        end: Outcome::Refused(Refusal::Trap(TrapName::Unset, InstrId(3))),
    },
    Row {
        sample: Sample::Circle,
        input: &[],
        thread: 0,
        output: b"",
        events: 1,
        end: Outcome::Refused(Refusal::Budget),
    },
];

fn expect_row<R: Threads + Wait + Abort + Sync>(
    rt: &R,
    alloc: Global,
    row: &Row,
) -> Result<(), Fail> {
    assert!(rt; row.thread < 64 && row.input.len() <= 512);
    let p = row.sample.program(alloc)?;
    let mut crew = Prefer::new(ThreadNo(row.thread));
    let run = free_record(rt, alloc, &p, row.input, &mut crew)?;
    let thread = row.thread;
    assert_eq!(rt;
        run.output.as_slice(),
        row.output,
        "of {:?}, by {thread}",
        row.sample
    );
    assert_eq!(rt; run.end, row.end, "of {:?}, by {thread}", row.sample);
    assert_eq!(rt;
        run.trace.event_count(),
        row.events,
        "of {:?}, by {thread}",
        row.sample
    );
    assert!(rt; crew.rounds() > 0);
    assert_eq!(rt; crew.another().rounds(), 0);
    Ok(())
}

#[test]
fn the_rows(rt: HostRuntime) -> Result<(), Fail> {
    for row in &ROWS {
        expect_row(&rt, rt.alloc(), row)?;
    }
    Ok(())
}
