//! What the trace of a run tells, and schedules of the first turns of rotation runs.

ghost use Rattle.std.specs.Prelude.{◌<◌, ◌≤◌};
ghost use Rattle.pg_num.specs.declared.limits.TheConstants.{QUANTUM_LIMIT};

use pg_ir::{InstrId, Program, ThreadNo};
use pg_run::rotate;
use pg_run_trace::{InstrIds, Replies, Schedule, Trace, Turn, TurnKind, Turns};
use std::alloc::{AllocError, Global};

/// More turns than any run of the rows has.
pub(crate) const ALL: usize = 1_000;

pub(crate) fn turn(thread: u8, at: u32, kind: TurnKind, object: u64) -> Turn {
    Turn {
        thread: ThreadNo(thread),
        instr: InstrId(at),
        kind,
        object,
    }
}

/// The threads of a run's steps, in digits.
pub(crate) fn digits(alloc: Global, trace: &Trace) -> Result<Vec<u8>, AllocError> {
    let mut digits = Vec::new(alloc);
    for i in 0..trace.len() {
        digits.push(b'0' + trace.step(i).thread.0 % 10)?;
    }
    Ok(digits)
}

/// The first events of a run, as turns, at most so many.
pub(crate) fn turns_of(alloc: Global, trace: &Trace, most: usize) -> Result<Vec<Turn>, AllocError> {
    let mut turns = Vec::new(alloc);
    for i in 0..trace.len() {
        if let Some(event) = trace.step(i).event() {
            if turns.len() < most {
                turns.push(event)?;
            }
        }
    }
    Ok(turns)
}

/// These turns, with no replies, where these instructions are gated.
pub(crate) fn along(alloc: Global, turns: Vec<Turn>, gated: Vec<InstrId>) -> Schedule {
    Schedule {
        turns: Turns::from_vec(turns),
        replies: Replies::from_vec(Vec::new(alloc)),
        gated: InstrIds::from_vec(gated),
    }
}

/// The schedule of the first turns of a rotation run, and one more behind them, without gated accesses.
pub(crate) fn recorded(
    alloc: Global,
    p: &Program,
    input: &[i64],
    quantum: u32,
    kept: usize,
    then: Option<Turn>,
) -> Result<Schedule, AllocError>
    requires some { 0 < quantum }
    requires few { quantum ≤ QUANTUM_LIMIT }
{
    let run = rotate(alloc, p, input, quantum)?;
    let mut turns = turns_of(alloc, &run.trace, kept)?;
    if let Some(last) = then {
        turns.push(last)?;
    }
    Ok(along(alloc, turns, Vec::new(alloc)))
}
