//! Rounds of workers, until the run has ended.

ghost use Rattle.std.specs.Prelude.{◌≡◌, IfOk};
ghost use denote.Param.Send.{IsSync};
ghost use Rattle.pg_law_course.specs.pg_law_order.Good.{IsGoodRun};
ghost use Rattle.pg_law_course.specs.pg_law_order.Served.{guided_along};
ghost use Rattle.pg_law_course.specs.pg_law_runs.Cuts.{CanRun};
ghost use Rattle.pg_locked.specs.Standing.{given};

use crate::locked::Locked;
use crate::named::Named;
use crate::tried::Tried;
use pg_law_course::pg_ir::{Program, ThreadNo};
use pg_law_course::pg_num::limits::THREAD_LIMIT;
use pg_law_course::pg_run::Guided;
use pg_law_course::pg_run_trace::Schedule;
use std::alloc::{AllocError, Global};
use std::marker::Brand;
use std::sync::{Mutex, Wait};
use std::thread;
use std::thread::Threads;

/// Takes the steps of a thread, and keeps the answer with which it left its last round.
#[derive(Clone, Copy, Debug, PartialEq, Eq)]
struct Worker {
    thread: ThreadNo,
    last: Tried,
}

/// A worker for each thread that a run may have.
fn workers(alloc: Global) -> Result<Vec<Worker>, AllocError> {
    let mut workers = Vec::with_capacity(alloc, THREAD_LIMIT as usize)?;
    for t in 0..THREAD_LIMIT {
        workers.push(Worker {
            thread: ThreadNo(t as u8),
            last: Tried::NotMade,
        })?;
    }
    Ok(workers)
}

/// Takes steps of a thread, each at a hold of the lock of its own, until an answer is another one. Gives that answer.
fn step_on<J: Named, R: Wait>(
    rt: &R,
    alloc: Global,
    lock: &Mutex<Locked<'_, J>>,
    t: ThreadNo,
) -> Tried {
    for _ in rt.forever() {
        let answer = lock.lock(rt).try_step(alloc, t);
        if answer != Tried::Did {
            return answer;
        }
    }
    unreachable!()
}

/// A round: each of these workers, in a host thread of its own, goes on until it can't.
fn round<'a, J: Named + Send + Sync, R: Threads + Wait + Sync>(
    rt: &R,
    alloc: Global,
    locked: Locked<'a, J>,
    workers: &mut [Worker],
) -> Locked<'a, J>
    requires sync { IsSync R.row }
{
    let lock = Mutex::new(locked);
    let count = workers.len();
    if count > 0 {
        thread::for_each_mut(
            rt,
            workers,
            count,
            &|_i: usize, worker: &mut Worker|
                requires { IsSync R.row }
            {
                worker.last = step_on(rt, alloc, &lock, worker.thread);
            },
        );
    }
    lock.into_inner()
}

/// The run that `J` names.
fn run_named<J: Named + Send + Sync, R: Threads + Wait + Sync>(
    rt: &R,
    alloc: Global,
    p: &Program,
    s: &Schedule,
    input: &[i64],
) -> Result<Guided, AllocError>
    requires sync { IsSync R.row }
    requires named { J.run ≡ given p.now s.now input.now }
    requires can { CanRun p.now input.now }
    requires good { IsGoodRun p.now input.now s.now }
    ensures output { IfOk result (λ g. g.output.items ≡ (guided_along p.now input.now s.now).state.printed) }
    ensures end { IfOk result (λ g. g.end ≡ (guided_along p.now input.now s.now).end) }
    ensures turns { IfOk result (λ g. g.turns ≡ (guided_along p.now input.now s.now).turns) }
{
    let mut workers = workers(alloc)?;
    let mut locked: Locked<'_, J> = Locked::new(alloc, p, s, input)?;
    for _ in rt.forever() {
        if let Some(end) = locked.end() {
            return Ok(locked.into_guided(end));
        }
        // A worker of a thread that isn't made could do nothing.
        let made = locked.count().min(workers.len());
        locked = round(rt, alloc, locked, &mut workers[..made]);
        if workers.iter().any(|w| w.last == Tried::OutOfMemory) {
            return Err(AllocError);
        }
    }
    unreachable!()
}

/// The run of a program on an input along a schedule, by a worker for each thread in rounds: each takes the lock, in which the whole
/// machine lies, for each of its steps. Gives what the guided run prints, its end and its number of turns. It may wait.
///
/// # Errors
///
/// Where no memory is left for it.
pub fn run_locked<R: Threads + Wait + Sync>(
    rt: &R,
    alloc: Global,
    p: &Program,
    s: &Schedule,
    input: &[i64],
) -> Result<Guided, AllocError>
    requires can { CanRun p.now input.now }
    requires good { IsGoodRun p.now input.now s.now }
    ensures output { IfOk result (λ g. g.output.items ≡ (guided_along p.now input.now s.now).state.printed) }
    ensures end { IfOk result (λ g. g.end ≡ (guided_along p.now input.now s.now).end) }
    ensures turns { IfOk result (λ g. g.turns ≡ (guided_along p.now input.now s.now).turns) }
{
    run_named::<Brand, R>(rt, alloc, p, s, input)
}
