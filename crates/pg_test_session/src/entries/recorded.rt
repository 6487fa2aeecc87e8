//! What is recorded of small programs, and which inputs their entries admit.
ghost use Rattle.std.specs.Prelude.{◌≤◌};
ghost use Rattle.pg_num.specs.declared.limits.TheConstants.{QUANTUM_LIMIT};

use pg_cache::Admits;
use pg_ir::{InstrId, Program, TrapName};
use pg_law_order::can_run;
use pg_num::limits::RECORDING_STEP_LIMIT;
use pg_run::laws::a_rotation_is_a_run;
use pg_run::{Ended, Recorded, Refusal, rotate_into};
use pg_run_trace::Trace;
use pg_session_entry::{Entry, Record, from_recorded, record};
use pg_test_samples::Sample;
use std::alloc::{AllocError, Global};
use std::process::Abort;
use std::test::Fail;

/// A program that is recorded with a quantum on an input, and what is wanted of it: no step is pinned.
pub(crate) struct Row {
    sample: Sample,
    quantum: u32,
    input: &'static [i64],
    output: &'static [u8],
    turns: usize,
    exact: &'static [usize],
}

/// Two threads each sum the input.
pub(crate) const SUMS: Row = Row {
    sample: Sample::SumsUnderMutex,
    quantum: 100,
    input: &[1, 2, 3],
    output: b"12\n",
    turns: 15,
    exact: &[104, 105],
};

/// A thread counts, and its store races with main's.
const RACES: Row = Row {
    sample: Sample::RacingStores,
    quantum: 1,
    input: &[0],
    output: b"100\n",
    turns: 9,
    exact: &[23],
};

/// What is kept of a run that exits.
#[derive(Drop)]
struct Recording {
    entry: Entry,
    output: Vec<u8>,
    value: i32,
}

/// What a record keeps, where the run exits.
fn kept(made: Record) -> Option<Recording> {
    match made {
        Record::Kept {
            entry,
            output,
            value,
        } => Some(Recording {
            entry,
            output,
            value,
        }),
        Record::Refused {
            refusal: _refusal,
            output: _output,
        } => None,
    }
}

/// What is kept of a run of a program.
fn run_of(
    alloc: Global,
    p: &Program,
    input: &[i64],
    quantum: u32,
) -> Result<Option<Recording>, AllocError>
    requires least { 1 ≤ quantum }
    requires most { quantum ≤ QUANTUM_LIMIT }
{
    can_run(p, input);
    let made = record(alloc, p, input, quantum)?;
    Ok(kept(made))
}

/// What is kept of a sample's run.
fn recording_of(
    alloc: Global,
    sample: Sample,
    input: &[i64],
    quantum: u32,
) -> Result<Recording, Fail>
    requires least { 1 ≤ quantum }
    requires most { quantum ≤ QUANTUM_LIMIT }
{
    let p = sample.program(alloc)?;
    let Some(kept) = run_of(alloc, &p, input, quantum)? else {
        return Err("refused".into());
    };
    Ok(kept)
}

fn check_entry(rt: &impl Abort, row: &Row, entry: &Entry) {
    assert!(rt; entry.input() == row.input);
    assert_eq!(rt; entry.schedule().turns.as_slice().len(), row.turns);
    assert_eq!(rt; entry.schedule().replies.as_slice().len(), row.turns);
    assert!(rt; entry.decisions().pinned.is_empty());
    assert!(rt; entry.decisions().exact.as_slice() == row.exact);
}

pub(crate) fn check(rt: &impl Abort, alloc: Global, row: &Row) -> Result<Entry, Fail>
    requires least { 1 ≤ row.now.quantum }
    requires most { row.now.quantum ≤ QUANTUM_LIMIT }
{
    let Recording {
        entry,
        output,
        value,
    } = recording_of(alloc, row.sample, row.input, row.quantum)?;
    assert!(rt; output.as_slice() == row.output);
    assert_eq!(rt; value, 0);
    check_entry(rt, row, &entry);
    Ok(entry)
}

#[test]
fn sums_admit_each_input(rt: HostRuntime) -> Result<(), Fail> {
    let mut entry = check(&rt, rt.alloc(), &SUMS)?;
    assert!(&rt; entry.admits(&[1, 2, 3]));
    assert!(&rt; entry.admits(&[]));
    assert!(&rt; entry.admits(&[3]));
    assert!(&rt; entry.admits(&[3, 3]));
    assert!(&rt; entry.admits(&[10, 20]));
    assert!(&rt; entry.admits(&[3; 40]));
    assert!(&rt; entry.admits(&[3; 500]));
    Ok(())
}

#[test]
fn racing_stores_admit_each_number(rt: HostRuntime) -> Result<(), Fail> {
    let mut entry = check(&rt, rt.alloc(), &RACES)?;
    assert!(&rt; entry.admits(&[]));
    assert!(&rt; entry.admits(&[0]));
    assert!(&rt; entry.admits(&[1]));
    assert!(&rt; entry.admits(&[9]));
    Ok(())
}

#[test]
fn elements_that_may_meet_are_counted(rt: HostRuntime) -> Result<(), Fail> {
    let Recording {
        entry,
        output,
        value: _value,
    } = recording_of(rt.alloc(), Sample::StoresInALoop, &[3], 10)?;
    let mut entry = entry;
    assert!(&rt; output.as_slice() == b"6\n".as_slice());
    assert_eq!(&rt; entry.schedule().turns.as_slice().len(), 11);
    assert!(&rt; entry.admits(&[3, 9]));
    assert!(&rt; !entry.admits(&[2]));
    Ok(())
}

/// The record of a rotation run that is made before.
fn recorded_before(alloc: Global, p: &Program, input: &[i64]) -> Result<Record, AllocError> {
    can_run(p, input);
    a_rotation_is_a_run();
    let mut trace = Trace::with_room(alloc, RECORDING_STEP_LIMIT as usize)?;
    let ended = rotate_into(alloc, p, input, 100, &mut trace)?;
    let Ended { output, end } = ended;
    let made = from_recorded(alloc, p, input, Recorded { trace, output, end })?;
    Ok(made)
}

/// Why a run that is refused is, and what it printed.
fn refused(made: Record) -> Option<(Refusal, Vec<u8>)> {
    match made {
        Record::Kept {
            entry: _entry,
            output: _output,
            value: _value,
        } => None,
        Record::Refused { refusal, output } => Some((refusal, output)),
    }
}

#[test]
fn a_trap_is_refused(rt: HostRuntime) -> Result<(), Fail> {
    let p = Sample::LockTwice.program(rt.alloc())?;
    let made = recorded_before(rt.alloc(), &p, &[])?;
    let Some((refusal, output)) = refused(made) else {
        return Err("kept".into());
    };
    assert_eq!(&rt; refusal, Refusal::Trap(TrapName::Deadlock, InstrId(1)));
    assert!(&rt; output.is_empty());
    Ok(())
}
