//! Recordings by a crew.
ghost use Rattle.std.specs.Prelude.{◌≡◌, ◌≤◌, length, IfOk, OnOk};
ghost use Rattle.pg_num.specs.declared.limits.TheConstants.{NUMBERS_LIMIT, RECORDING_STEP_LIMIT};
ghost use denote.Param.Send.{IsSync};
ghost use Rattle.pg_io.specs.Faults.{Rose};
ghost use Rattle.pg_run.specs.Recordings.{IsRecording};
ghost use Rattle.pg_run.specs.State.{State};
ghost use Rattle.pg_free.specs.Crews.{AreWorkers};

use crate::crew::FreeCrew;
use crate::shared::{FreeShared, FreeWorker, workers};
use crate::state::FreeState;
use pg_ir::{Program, ThreadNo};
use pg_run::Recorded;
use std::alloc::{AllocError, Global};
use std::sync::Wait;
use std::thread::Threads;

/// The most rounds of a recording. The steps that are left then are taken without a crew.
const ROUND_LIMIT: u32 = 500_000;

/// One round: what lies under the lock, before and after it.
fn round<'a, R: Threads + Wait + Sync, C: FreeCrew>(
    rt: &R,
    alloc: Global,
    state: FreeState<'a>,
    crew: &mut C,
    workers: &mut [FreeWorker],
) -> FreeState<'a>
    requires sync { IsSync R.row }
    requires workers { AreWorkers workers.old }
    ensures places { AreWorkers workers.new }
    ensures counts { Rose (C.rounds crew.old) (C.rounds crew.new) }
    ensures never_falls { C.rounds crew.old ≤ C.rounds crew.new }
{
    let shared = FreeShared::new(alloc, state);
    crew.round(rt, &shared, workers);
    shared.into_state()
}

/// A run by rounds of these workers, until no thread can take a step more, or the rounds are spent: the threads whose steps it
/// took, and that of a trap at its end.
fn rounds<R: Threads + Wait + Sync, C: FreeCrew>(
    rt: &R,
    alloc: Global,
    p: &Program,
    input: &[i64],
    crew: &mut C,
    workers: &mut [FreeWorker],
) -> Result<Vec<ThreadNo>, AllocError>
    requires sync { IsSync R.row }
    requires workers { AreWorkers workers.old }
    ensures counts { OnOk result (Rose (C.rounds crew.old) (C.rounds crew.new)) }
    ensures never_falls { C.rounds crew.old ≤ C.rounds crew.new }
{
    let first = FreeState::new(alloc, p, input)?;
    let mut state = round(rt, alloc, first, crew, workers);
    for _ in 1..ROUND_LIMIT {
        if state.is_done() {
            break;
        }
        state = round(rt, alloc, state, crew, workers);
    }
    state.threads(alloc)
}

/// The run of a program on an input in which these threads take a step each, one after another, and then the lowest-numbered one
/// that is ready.
fn along(
    alloc: Global,
    p: &Program,
    input: &[i64],
    threads: &[ThreadNo],
) -> Result<Recorded, AllocError>
    ensures recording { IfOk result (λ r. (z : State) × IsRecording p.now input.now r.trace.steps z r.end × (r.output.items ≡ z.printed)) }
    ensures room { IfOk result (λ r. r.trace.room ≡ RECORDING_STEP_LIMIT) }
{
    let mut state = FreeState::new(alloc, p, input)?;
    state.take(alloc, threads);
    state.finish(alloc);
    state.recorded()
}

/// A recording of a program on an input, with what it printed: threads take steps in the order in which a crew's workers come,
/// round after round, until none can. After 500,000 rounds the steps that are left are taken, each of the lowest-numbered thread
/// that is ready.
///
/// # Errors
///
/// Where no memory is left for it.
// A lock tells of its value what the value's type keeps, so what comes from under it is a run of a program that isn't known to be
// `p`. So its steps are taken once more here, alone.
pub fn free_record<R: Threads + Wait + Sync, C: FreeCrew>(
    rt: &R,
    alloc: Global,
    p: &Program,
    input: &[i64],
    crew: &mut C,
) -> Result<Recorded, AllocError>
    requires few { length input.now ≤ NUMBERS_LIMIT }
    ensures recording { IfOk result (λ r. (z : State) × IsRecording p.now input.now r.trace.steps z r.end × (r.output.items ≡ z.printed)) }
    ensures room { IfOk result (λ r. r.trace.room ≡ RECORDING_STEP_LIMIT) }
    ensures counts { OnOk result (Rose (C.rounds crew.old) (C.rounds crew.new)) }
    ensures never_falls { C.rounds crew.old ≤ C.rounds crew.new }
{
    let mut workers = workers(alloc)?;
    let threads = rounds(rt, alloc, p, input, crew, &mut workers)?;
    along(alloc, p, input, &threads)
}
