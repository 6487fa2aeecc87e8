//! Guided runs along the turns of rotation runs, whole, cut and changed.

ghost use Rattle.std.specs.Prelude.{◌<◌, ◌≤◌};
ghost use Rattle.pg_num.specs.declared.limits.TheConstants.{QUANTUM_LIMIT};

use crate::runs::recorded::{ALL, along, recorded, turn};
use pg_ir::{InstrId, ThreadNo, TrapName};
use pg_num::limits::QUANTUM_LIMIT;
use pg_run::{Guided, GuidedEnd, guide};
use pg_run_trace::{Schedule, Turn, TurnKind};
use pg_test_samples::Sample;
use std::alloc::{AllocError, Global};
use std::process::Abort;
use std::test::Fail;

/// A guided run: what it shows; the program; the quantum and the input of the rotation run whose turns it takes; its own
/// input; how many of these turns it takes, and one more behind them; what it prints, how it ends, and how many turns it
/// does.
#[derive(Clone, Copy)]
struct Row {
    shows: &'static str,
    sample: Sample,
    quantum: u32,
    before: &'static [i64],
    input: &'static [i64],
    kept: usize,
    then: Option<(u8, u32, TurnKind, u64)>,
    output: &'static [u8],
    end: GuidedEnd,
    turns: u32,
}

const ROWS: [Row; 13] = [
    Row {
        shows: "an exit",
        sample: Sample::TwoUnderMutex,
        quantum: 500,
        before: &[4],
        input: &[4],
        kept: ALL,
        then: None,
        output: b"5\n",
        end: GuidedEnd::Exit(0),
        turns: 11,
    },
    Row {
        shows: "all turns done before the end",
        sample: Sample::TwoUnderMutex,
        quantum: 500,
        before: &[4],
        input: &[4],
        kept: 10,
        then: None,
        output: b"5\n",
        end: GuidedEnd::Strayed,
        turns: 10,
    },
    Row {
        shows: "no turns",
        sample: Sample::TwoUnderMutex,
        quantum: 500,
        before: &[4],
        input: &[4],
        kept: 0,
        then: None,
        output: b"",
        end: GuidedEnd::Strayed,
        turns: 0,
    },
    Row {
        shows: "a turn behind the end",
        sample: Sample::TwoUnderMutex,
        quantum: 500,
        before: &[4],
        input: &[4],
        kept: ALL,
        then: Some((0, 17, TurnKind::Exit, 0)),
        output: b"5\n",
        end: GuidedEnd::Strayed,
        turns: 11,
    },
    Row {
        shows: "a thread that isn't made",
        sample: Sample::TwoUnderMutex,
        quantum: 500,
        before: &[4],
        input: &[4],
        kept: 0,
        then: Some((1, 0, TurnKind::Start, 1)),
        output: b"",
        end: GuidedEnd::Strayed,
        turns: 0,
    },
    Row {
        shows: "a thread that has ended",
        sample: Sample::TwoUnderMutex,
        quantum: 500,
        before: &[4],
        input: &[4],
        kept: 8,
        then: Some((1, 6, TurnKind::Exit, 1)),
        output: b"",
        end: GuidedEnd::Strayed,
        turns: 8,
    },
    Row {
        shows: "a print in place of a join",
        sample: Sample::PrintIfStored,
        quantum: 500,
        before: &[],
        input: &[],
        kept: ALL,
        then: None,
        output: b"",
        end: GuidedEnd::Strayed,
        turns: 4,
    },
    Row {
        shows: "a mutex that is held",
        sample: Sample::LockTwice,
        quantum: 500,
        before: &[],
        input: &[],
        kept: ALL,
        then: Some((0, 1, TurnKind::Lock, 8)),
        output: b"",
        end: GuidedEnd::Strayed,
        turns: 2,
    },
    Row {
        shows: "a register without a value",
        sample: Sample::SkippedBlock,
        quantum: 500,
        before: &[],
        input: &[],
        kept: 1,
        then: Some((0, 3, TurnKind::Out, 0)),
        output: b"",
        end: GuidedEnd::Trap(TrapName::Unset, InstrId(3)),
        turns: 1,
    },
    Row {
        shows: "a check at the turn",
        sample: Sample::ManyThreads,
        quantum: 500,
        before: &[64],
        input: &[64],
        kept: ALL,
        then: Some((0, 4, TurnKind::Create, 64)),
        output: b"",
        end: GuidedEnd::Trap(TrapName::TooManyThreads, InstrId(4)),
        turns: 64,
    },
    Row {
        shows: "a check at an event that isn't the turn",
        sample: Sample::ManyThreads,
        quantum: 500,
        before: &[64],
        input: &[64],
        kept: ALL,
        then: Some((0, 8, TurnKind::Exit, 0)),
        output: b"",
        end: GuidedEnd::Trap(TrapName::TooManyThreads, InstrId(4)),
        turns: 64,
    },
    Row {
        shows: "two threads that divide",
        sample: Sample::TwoThatDivide,
        quantum: 10,
        before: &[5, 10],
        input: &[5, 10],
        kept: ALL,
        then: None,
        output: b"7\n30\n",
        end: GuidedEnd::Exit(0),
        turns: 12,
    },
    Row {
        shows: "a trap of the owner of the next turn",
        sample: Sample::TwoThatDivide,
        quantum: 10,
        before: &[5, 10],
        input: &[5, 0],
        kept: ALL,
        then: None,
        output: b"7\n",
        end: GuidedEnd::Trap(TrapName::DivideByZero, InstrId(24)),
        turns: 6,
    },
];

/// The turn behind the others.
fn last_turn(row: &Row) -> Option<Turn> {
    match row.then {
        Some((thread, at, kind, object)) => Some(turn(thread, at, kind, object)),
        None => None,
    }
}

fn guided(alloc: Global, row: &Row) -> Result<Guided, Fail>
    requires some { 0 < row.now.quantum }
    requires few { row.now.quantum ≤ QUANTUM_LIMIT }
{
    let p = row.sample.program(alloc)?;
    let last = last_turn(row);
    let s = recorded(alloc, &p, row.before, row.quantum, row.kept, last)?;
    Ok(guide(alloc, &p, row.input, &s)?)
}

fn expect_guided_run(rt: &impl Abort, alloc: Global, row: &Row) -> Result<(), Fail> {
    assert!(rt; row.quantum > 0 && row.quantum <= QUANTUM_LIMIT);
    let run = guided(alloc, row)?;
    assert_eq!(rt; run.output.as_slice(), row.output, "with {}", row.shows);
    assert_eq!(rt; run.end, row.end, "with {}", row.shows);
    assert_eq!(rt; run.turns, row.turns, "with {}", row.shows);
    Ok(())
}

#[test]
fn guided_runs_of_the_rows(rt: HostRuntime) -> Result<(), Fail> {
    for row in &ROWS {
        expect_guided_run(&rt, rt.alloc(), row)?;
    }
    Ok(())
}

/// Main's start, and an exit that it never comes to.
fn two_turns(alloc: Global) -> Result<Schedule, AllocError> {
    let turns = [
        turn(0, 0, TurnKind::Start, 0),
        turn(0, 1, TurnKind::Exit, 0),
    ]
    .to_vec(alloc)?;
    Ok(along(alloc, turns, Vec::new(alloc)))
}

/// A circle is left where main has taken all of its steps.
#[test]
fn a_spent_budget(rt: HostRuntime) -> Result<(), Fail> {
    let p = Sample::Circle.program(rt.alloc())?;
    let s = two_turns(rt.alloc())?;
    let run = guide(rt.alloc(), &p, &[], &s)?;
    assert_eq!(rt; run.end, GuidedEnd::Budget(ThreadNo(0)));
    assert_eq!(rt; (run.output.is_empty(), run.turns), (true, 1));
    Ok(())
}
