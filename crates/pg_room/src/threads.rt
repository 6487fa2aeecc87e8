//! The threads of a run before they have seats, and all memory that a run takes.

ghost use Rattle.std.specs.Prelude.{◌≡◌, ◌<◌, ◌≤◌, ℕ, Some, IfOk, length, slice_get};
ghost use Rattle.pg_crew.specs.pg_num.declared.limits.TheConstants.{THREAD_LIMIT};
ghost use Rattle.pg_crew.specs.pg_law_runs.Deeds.{owners_of};
ghost use Rattle.pg_room.specs.Threads.{AreThreads, AreUnseated};

use crate::made::Threads;
use pg_crew::pg_ir::{Program, ThreadNo};
use pg_crew::pg_num::limits::THREAD_LIMIT;
use pg_crew::pg_run::Gated;
use pg_crew::pg_run_trace::{Schedule, Turn};
use pg_crew::pg_worker::Unseated;
use pg_crew::pg_worker::pages::Pages;
use std::alloc::{AllocError, Global};

/// So many threads, or more where one of them is this one. Those past the limit don't count.
fn count_with(count: u8, thread: ThreadNo) -> u8
    requires few { count ≤ THREAD_LIMIT }
    ensures more { count ≤ result }
    ensures few { result ≤ THREAD_LIMIT }
    ensures owner { thread.0 < THREAD_LIMIT → thread.0 < result }
{
    if count <= thread.0 && u32::from(thread.0) < THREAD_LIMIT {
        return thread.0 + 1;
    }
    count
}

/// How many threads get a worker: main, and the others up to the last that owns a turn. No thread past the limit takes a step.
fn thread_count(turns: &[Turn]) -> u8
    ensures some { 0 < result }
    ensures few { result ≤ THREAD_LIMIT }
    ensures owners { (g t : ℕ) → slice_get (owners_of turns.now) g ≡ Some t → t < THREAD_LIMIT → t < result }
{
    let mut count = 1;
    for number in 0..turns.len() {
        let more = count_with(count, turns[number].thread);
        count = more;
    }
    count
}

/// So many threads, none of which has a seat.
fn unseated(
    alloc: Global,
    p: &Program,
    s: &Schedule,
    count: u8,
) -> Result<Vec<Unseated>, AllocError>
    requires few { count ≤ THREAD_LIMIT }
    ensures threads { IfOk result (λ v. AreUnseated p.now s.now v.items) }
    ensures count { IfOk result (λ v. length v.items ≡ count) }
{
    let mut threads = Vec::with_capacity(alloc, count as usize)?;
    for number in 0..count {
        let thread = Unseated::new(alloc, p, s, ThreadNo(number))?;
        threads.push_reserved(thread);
    }
    Ok(threads)
}

/// All memory that the run of a program along a schedule takes.
///
/// # Errors
///
/// Where no memory is left.
pub(crate) fn threads_of(alloc: Global, p: &Program, s: &Schedule) -> Result<Threads, AllocError>
    ensures { IfOk result (AreThreads p.now s.now) }
{
    // Called for the proof: see docs/CONTRIBUTING.md.
    let _turns = s.turns.as_slice().len();
    let count = thread_count(s.turns.as_slice());
    let threads = unseated(alloc, p, s, count)?;
    let workers = Vec::with_capacity(alloc, count as usize)?;
    let laid = Pages::new(alloc)?;
    let gated = Gated::new(alloc, p, s.gated.as_slice())?;
    Ok(Threads {
        threads,
        workers,
        laid,
        gated,
    })
}
