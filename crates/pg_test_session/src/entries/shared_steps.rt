//! The shared steps of guided runs, as the laws on small runs have them written out.

use pg_ir::Program;
use pg_law_order::can_run;
use pg_num::limits::RECORDING_STEP_LIMIT;
use pg_run::{Followed, follow_into};
use pg_run_trace::TurnKind::{Create, Exit, Join, Out, Start};
use pg_run_trace::{Access, Step, StepKind, Trace, TurnKind, Write};
use pg_session_entry::{Entry, Record, record};
use pg_test_samples::Sample;
use std::alloc::Global;
use std::process::Abort;
use std::test::Fail;

/// What is told of a shared step: an event's kind, its object and its write, or a plain load or store.
#[derive(Clone, Copy)]
enum Told {
    Event(TurnKind, u64, Option<Write>),
    Plain(Access),
}

/// The thread and the instruction of a shared step, and what is told of it.
type Row = (u8, u32, Told);

/// Granule 1 of a pointer's word.
const GRANULE: u64 = 0x400_0000_0000;

/// Length 1 of a pointer's word.
const LENGTH: u64 = 0x20_0000;

/// An event that writes nothing.
macro_rules! event {
    ($thread:expr, $at:expr, $kind:expr, $object:expr) => {
        ($thread, $at, Told::Event($kind, $object, None))
    };
}

/// A create of a thread, whose number is stored at a pointer's word.
macro_rules! create {
    ($at:expr, $made:expr, $pointer:expr) => {
        (
            0,
            $at,
            Told::Event(
                Create,
                $made,
                Some(Write {
                    pointer: $pointer,
                    number: $made,
                }),
            ),
        )
    };
}

/// A plain load or store at a pointer's word: how many bytes, the number, and whether it is a store.
macro_rules! plain {
    ($thread:expr, $at:expr, $pointer:expr, $bytes:expr, $number:expr, $writes:expr) => {
        (
            $thread,
            $at,
            Told::Plain(Access {
                pointer: $pointer,
                number: $number,
                bytes: $bytes,
                writes: $writes,
                event: false,
            }),
        )
    };
}

/// Both halves of a number, 5 below and 7 above.
const BOTH: u64 = 7 * 0x1_0000_0000 + 5;

/// A thread stores 7 at the upper half of a number, and main 5 at the lower one.
const HALVES: &[Row] = &[
    event!(0, 3, Start, 0),
    create!(3, 1, 2 * GRANULE + 8 * LENGTH),
    event!(1, 0, Start, 1),
    plain!(1, 1, GRANULE + 8 * LENGTH + 4, 4, 7, true),
    event!(1, 2, Exit, 1),
    plain!(0, 4, GRANULE + 8 * LENGTH, 4, 5, true),
    plain!(0, 5, 2 * GRANULE + 8 * LENGTH, 8, 1, false),
    event!(0, 6, Join, 1),
    plain!(0, 7, GRANULE + 8 * LENGTH, 8, BOTH, false),
    event!(0, 8, Out, 0),
    event!(0, 9, Exit, 0),
];

/// The granule with which the memory of thread 1 begins.
const OWN: u64 = 0x20_8000;

/// The first seven of two threads that each sum the input.
const SUMS: &[Row] = &[
    event!(0, 23, Start, 0),
    create!(24, 1, 7 * GRANULE + 16 * LENGTH),
    create!(25, 2, 7 * GRANULE + 16 * LENGTH + 8),
    event!(1, 0, Start, 1),
    plain!(1, 2, OWN * GRANULE + 8 * LENGTH, 8, 0, true),
    plain!(1, 3, (OWN + 1) * GRANULE + 8 * LENGTH, 8, 0, true),
    plain!(1, 5, (OWN + 1) * GRANULE + 8 * LENGTH, 8, 0, false),
];

/// Whether this is told of a step.
fn is_told(kind: &StepKind, told: &Told) -> bool {
    match (kind, told) {
        (StepKind::Event(event), Told::Event(kind, object, write)) => {
            event.kind == *kind && event.object == *object && event.write == *write
        }
        (StepKind::Access(access), Told::Plain(other)) => *access == *other,
        _ => false,
    }
}

/// Whether a step is this shared step.
fn is_row(step: &Step, row: &Row) -> bool {
    let (thread, at, told) = row;
    step.thread.0 == *thread && step.instr.0 == *at && is_told(&step.kind, told)
}

/// How many steps of a trace are shared, and how many of these in front are the rows, one after another.
fn matched(trace: &Trace, rows: &[Row]) -> (usize, usize) {
    let mut shared = 0_usize;
    let mut same = 0_usize;
    for i in 0..trace.len() {
        let step = trace.step(i);
        if step.event().is_some() || step.access().is_some() {
            if let Some(row) = rows.get(shared) {
                if same == shared && is_row(&step, row) {
                    same = same.saturating_add(1);
                }
            }
            shared = shared.saturating_add(1);
        }
    }
    (shared, same)
}

/// The entry of a program's run on an input, where the run exits.
fn entry_of(alloc: Global, p: &Program, input: &[i64]) -> Result<Entry, Fail> {
    can_run(p, input);
    match record(alloc, p, input, 100)? {
        Record::Kept {
            entry,
            output: _,
            value: _,
        } => Ok(entry),
        Record::Refused {
            refusal: _,
            output: _,
        } => Err("refused".into()),
    }
}

/// The guided run of a program on an input along the schedule of its own recording.
fn guided(alloc: Global, p: &Program, input: &[i64]) -> Result<Trace, Fail> {
    let entry = entry_of(alloc, p, input)?;
    let mut trace = Trace::with_room(alloc, RECORDING_STEP_LIMIT as usize)?;
    match follow_into(alloc, p, input, entry.schedule(), &mut trace)? {
        Followed::Exit { .. } => Ok(trace),
        _ => Err("not followed".into()),
    }
}

/// The rows are the first shared steps of the run. How many it has.
fn check(
    rt: &impl Abort,
    alloc: Global,
    sample: Sample,
    input: &[i64],
    rows: &[Row],
) -> Result<usize, Fail> {
    let p = sample.program(alloc)?;
    let trace = guided(alloc, &p, input)?;
    let (shared, same) = matched(&trace, rows);
    assert_eq!(rt; same, rows.len());
    Ok(shared)
}

#[test]
fn the_run_of_both_halves_has_these_shared_steps(rt: HostRuntime) -> Result<(), Fail> {
    let shared = check(&rt, rt.alloc(), Sample::StoresSideBySide, &[], HALVES)?;
    assert_eq!(&rt; shared, 11);
    Ok(())
}

#[test]
fn the_run_of_sums_begins_with_these_shared_steps(rt: HostRuntime) -> Result<(), Fail> {
    check(&rt, rt.alloc(), Sample::SumsUnderMutex, &[1, 2, 3], SUMS)?;
    Ok(())
}
