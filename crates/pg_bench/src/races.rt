//! Takes the races of a made trace, and whether it is ordered, so that the time tells how they grow: the first
//! word is the number of steps, the second the number of threads. With no word it takes 1,000 steps of 8 threads.
//! The first racing steps of the instructions stand all along the trace.
use anyhow::Result;
use pg_ir::{InstrId, ThreadNo};
use pg_run_trace::{Access, Event, Step, StepKind, Trace, TurnKind};
use pg_schedule::{is_ordered, races};
use std::alloc::Global;
use std::time::Instant;

/// The instructions that access memory.
const ACCESSES: u32 = 1_000;

/// The granules that all threads share.
const SHARED: u64 = 1_000;

/// The next of a row of numbers that look random (Knuth's multiplier).
fn next(number: u64) -> u64 {
    number
        .wrapping_mul(6_364_136_223_846_793_005)
        .wrapping_add(1_442_695_040_888_963_407)
}

/// An access of 1, 2, 4 or 8 bytes to a shared granule; a third of them write.
fn access(number: u64) -> StepKind {
    let granule = 1 + (number >> 20) % SHARED;
    StepKind::Access(Access {
        pointer: granule << 42,
        number: 0,
        bytes: match (number >> 40) % 4 {
            0 => 1,
            1 => 2,
            2 => 4,
            _ => 8,
        },
        writes: (number >> 50) % 3 == 0,
        event: false,
    })
}

/// An event that orders nothing else.
fn print(number: u64) -> StepKind {
    StepKind::Event(Event {
        kind: TurnKind::Putchar,
        object: 0,
        operands: [number, 0, 0, 0],
        reply: 0,
        write: None,
    })
}

/// A step of this instruction: half of them are accesses, one in a hundred is an event.
fn step(number: u64, instr: u32, threads: u8) -> Step {
    let kind = (number >> 10) % 100;
    let thread = match (((number >> 33) % 256) as u8).checked_rem(threads) {
        Some(thread) => thread,
        None => 0,
    };
    Step {
        thread: ThreadNo(thread),
        instr: InstrId(instr),
        kind: if kind < 50 {
            access(number)
        } else if kind < 51 {
            print(number)
        } else {
            StepKind::Other
        },
    }
}

/// The instruction of a step of so many: one after another, in as many parts of the trace.
fn instr_at(i: usize, steps: usize) -> u32 {
    let part = (i as u64).wrapping_mul(ACCESSES as u64) / (steps as u64).max(1);
    (part % ACCESSES as u64) as u32
}

/// A trace of so many steps.
fn made(alloc: Global, steps: usize, threads: u8) -> Result<Trace> {
    let mut trace = Trace::with_room(alloc, steps)?;
    let mut number: u64 = 1;
    for i in 0..steps {
        number = next(number);
        if trace.room_left() > 0 {
            trace.push(step(number, instr_at(i, steps), threads));
        }
    }
    Ok(trace)
}

fn number_in(words: &[String], i: usize, none: u32) -> Result<u32> {
    match words.get(i) {
        Some(word) => Ok(word.parse::<u32>()?),
        None => Ok(none),
    }
}

/// Measures what these words ask for.
pub(crate) fn run(rt: &HostRuntime, words: &[String]) -> Result<()> {
    let steps = number_in(words, 0, 1_000)? as usize;
    let threads = (number_in(words, 1, 8)? % 256) as u8;
    let trace = made(rt.alloc(), steps, threads)?;
    let start = Instant::now(rt)?;
    let found = races(rt.alloc(), &trace)?;
    let raced = start.elapsed(rt)?.as_millis();
    let pair = is_ordered(rt.alloc(), &trace)?;
    let ordered = start.elapsed(rt)?.as_millis();
    let count = found.len();
    let is_ordered = pair.is_none();
    if words.is_empty() {
        println!(rt; "{count} races, ordered: {is_ordered}")?;
    } else {
        println!(rt;
            "{steps} steps: {count} races after {raced} ms, ordered: {is_ordered} after {ordered} ms"
        )?;
    }
    Ok(())
}
