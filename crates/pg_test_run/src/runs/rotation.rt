//! Rotation runs of the sample programs.

ghost use Rattle.std.specs.Prelude.{◌<◌, ◌≤◌};
ghost use Rattle.pg_num.specs.declared.limits.TheConstants.{QUANTUM_LIMIT};

use crate::runs::recorded::digits;
use pg_ir::{InstrId, TrapName};
use pg_num::limits::QUANTUM_LIMIT;
use pg_run::{Outcome, Recorded, Refusal, rotate};
use pg_test_samples::Sample;
use std::alloc::Global;
use std::process::Abort;
use std::test::Fail;

/// A program, its input and its quantum; what it prints, how many events it does, and how it ends.
#[derive(Clone, Copy)]
struct Row {
    sample: Sample,
    input: &'static [i64],
    quantum: u32,
    output: &'static [u8],
    events: usize,
    end: Outcome,
}

const ROWS: [Row; 23] = [
    Row {
        sample: Sample::AddTwo,
        input: &[3, 5],
        quantum: 100,
        output: b"8\n",
        events: 3,
        end: Outcome::Exit(0),
    },
    Row {
        sample: Sample::PrintInALoop,
        input: &[3],
        quantum: 100,
        output: b"0\n1\n2\n",
        events: 5,
        end: Outcome::Exit(0),
    },
    Row {
        sample: Sample::Circle,
        input: &[],
        quantum: 100,
        output: b"",
        events: 1,
        end: Outcome::Refused(Refusal::Budget),
    },
    Row {
        sample: Sample::SkippedBlock,
        input: &[],
        quantum: 100,
        output: b"",
        events: 1,
        end: Outcome::Refused(Refusal::Trap(TrapName::Unset, InstrId(3))),
    },
    Row {
        sample: Sample::Recursion,
        input: &[],
        quantum: 100,
        output: b"",
        events: 1,
        end: Outcome::Refused(Refusal::Trap(TrapName::CallDepth, InstrId(0))),
    },
    Row {
        sample: Sample::PlaceByNumber,
        input: &[],
        quantum: 100,
        output: b"0\n",
        events: 3,
        end: Outcome::Exit(0),
    },
    Row {
        sample: Sample::TwoUnderMutex,
        input: &[4],
        quantum: 100,
        output: b"5\n",
        events: 11,
        end: Outcome::Exit(0),
    },
    Row {
        sample: Sample::SumsUnderMutex,
        input: &[1, 2, 3],
        quantum: 100,
        output: b"12\n",
        events: 15,
        end: Outcome::Exit(0),
    },
    Row {
        sample: Sample::LockTwice,
        input: &[],
        quantum: 100,
        output: b"",
        events: 2,
        end: Outcome::Refused(Refusal::Trap(TrapName::Deadlock, InstrId(1))),
    },
    Row {
        sample: Sample::EmptyBarrier,
        input: &[],
        quantum: 100,
        output: b"22\n",
        events: 4,
        end: Outcome::Exit(0),
    },
    Row {
        sample: Sample::BarrierOfThree,
        input: &[],
        quantum: 100,
        output: b"0\n0\n-1\n",
        events: 20,
        end: Outcome::Exit(0),
    },
    Row {
        sample: Sample::WaitAndBroadcast,
        input: &[],
        quantum: 100,
        output: b"",
        events: 17,
        end: Outcome::Exit(0),
    },
    Row {
        sample: Sample::StoresSideBySide,
        input: &[],
        quantum: 100,
        output: b"30064771077\n",
        events: 7,
        end: Outcome::Exit(0),
    },
    Row {
        sample: Sample::RacingStores,
        input: &[0],
        quantum: 1,
        output: b"100\n",
        events: 7,
        end: Outcome::Exit(0),
    },
    Row {
        sample: Sample::StoresInALoop,
        input: &[2],
        quantum: 100,
        output: b"4\n",
        events: 11,
        end: Outcome::Exit(0),
    },
    Row {
        sample: Sample::PrintIfStored,
        input: &[],
        quantum: 100,
        output: b"",
        events: 6,
        end: Outcome::Exit(0),
    },
    Row {
        sample: Sample::PrintBoth,
        input: &[],
        quantum: 100,
        output: b"0\n",
        events: 4,
        end: Outcome::Exit(0),
    },
    Row {
        sample: Sample::PrintBoth,
        input: &[],
        quantum: 1,
        output: b"0\nA",
        events: 6,
        end: Outcome::Exit(0),
    },
    Row {
        sample: Sample::CountingThread,
        input: &[3, 1],
        quantum: 100,
        output: b"",
        events: 6,
        end: Outcome::Exit(0),
    },
    Row {
        sample: Sample::TwoThatDivide,
        input: &[5, 10],
        quantum: 10,
        output: b"7\n30\n",
        events: 12,
        end: Outcome::Exit(0),
    },
    Row {
        sample: Sample::ManyThreads,
        input: &[2],
        quantum: 100,
        output: b"",
        events: 4,
        end: Outcome::Exit(0),
    },
    Row {
        sample: Sample::ManyThreads,
        input: &[64],
        quantum: 100,
        output: b"",
        events: 164,
        end: Outcome::Refused(Refusal::Trap(TrapName::TooManyThreads, InstrId(4))),
    },
    Row {
        sample: Sample::FourThreads,
        input: &[],
        quantum: 100,
        output: b"1\n1\n2\n2\n3\n3\n",
        events: 20,
        end: Outcome::Exit(0),
    },
];

/// A quantum, and whose steps a run of four threads has.
const TURNS: [(u32, &[u8]); 3] = [
    (1, b"00101201231231230230300"),
    (3, b"00011122201122333003300"),
    (100, b"00001111122222333330000"),
];

fn rotated(alloc: Global, sample: Sample, input: &[i64], quantum: u32) -> Result<Recorded, Fail>
    requires some { 0 < quantum }
    requires few { quantum ≤ QUANTUM_LIMIT }
{
    let p = sample.program(alloc)?;
    Ok(rotate(alloc, &p, input, quantum)?)
}

fn expect_rotation(rt: &impl Abort, alloc: Global, row: &Row) -> Result<(), Fail> {
    assert!(rt; row.quantum > 0 && row.quantum <= QUANTUM_LIMIT);
    let run = rotated(alloc, row.sample, row.input, row.quantum)?;
    assert_eq!(rt; run.output.as_slice(), row.output, "of {:?}", row.sample);
    assert_eq!(rt; run.trace.event_count(), row.events, "of {:?}", row.sample);
    assert_eq!(rt; run.end, row.end, "of {:?}", row.sample);
    Ok(())
}

#[test]
fn rotations_of_the_rows(rt: HostRuntime) -> Result<(), Fail> {
    for row in &ROWS {
        expect_rotation(&rt, rt.alloc(), row)?;
    }
    Ok(())
}

fn expect_turns(rt: &impl Abort, alloc: Global, quantum: u32, threads: &[u8]) -> Result<(), Fail> {
    assert!(rt; quantum > 0 && quantum <= QUANTUM_LIMIT);
    let run = rotated(alloc, Sample::FourThreads, &[], quantum)?;
    let found = digits(alloc, &run.trace)?;
    assert_eq!(rt; found.as_slice(), threads, "with quantum {quantum}");
    Ok(())
}

#[test]
fn turns_of_four_threads(rt: HostRuntime) -> Result<(), Fail> {
    for (quantum, threads) in &TURNS {
        expect_turns(&rt, rt.alloc(), *quantum, threads)?;
    }
    Ok(())
}
