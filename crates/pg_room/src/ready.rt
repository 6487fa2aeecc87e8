//! Runs that are made ready.

ghost use Rattle.std.specs.Prelude.{◌≡◌, ◌<◌, ◌≤◌, ◌^◌, ℕ, suc, [], Some, IfErr, IfOk, length, slice_get, vec_capacity};
ghost use Rattle.pg_crew.specs.pg_num.declared.limits.TheConstants.{THREAD_LIMIT};
ghost use Rattle.pg_crew.specs.pg_law_runs.Cuts.{CanRun};
ghost use Rattle.pg_crew.specs.pg_law_order.Good.{IsGoodRun};
ghost use Rattle.pg_crew.specs.pg_seats.declared.run.View.TheVariants.{Pool};
ghost use Rattle.pg_crew.specs.pg_seats.Plan.{IsEnforced, run_of, turns_in};
ghost use Rattle.pg_crew.specs.pg_worker.Standing.{run_in, table_in};
ghost use Rattle.pg_crew.specs.Workers.{AreWorkers};
ghost use Rattle.pg_room.specs.Workers.{AreFirst};
ghost use Rattle.pg_room.specs.Ready.{IsReady};
ghost use Rattle.pg_room.specs.Threads.{AreThreads, AreUnseated};

use crate::laying::lay_globals;
use crate::made::Threads;
use crate::parts::Ready;
use crate::room::{NotPrepared, Room};
use crate::threads::threads_of;
use pg_crew::pg_ir::Program;
use pg_crew::pg_run_trace::Schedule;
use pg_crew::pg_seats::{Place, begin, seats};
use pg_crew::pg_worker::{Shared, Unseated, Worker};
use std::alloc::Global;
use std::sync::atomic::AtomicU64;

/// A worker for each thread. Takes no memory.
fn seat_all(
    shared: &Shared<'_>,
    pool: &mut Place,
    threads: Vec<Unseated>,
    workers: Vec<Worker>,
) -> Vec<Worker>
    requires enforced { IsEnforced (run_in shared.now) }
    requires own { pool.old.table_id ≡ table_in shared.now }
    requires view { pool.old.me ≡ (Pool (run_in shared.now) 0 0, []) }
    requires threads { AreUnseated shared.now.program.now shared.now.schedule.now threads.items }
    requires main { 0 < length threads.items }
    requires few { length threads.items ≤ THREAD_LIMIT }
    requires owners { (g t : ℕ) → slice_get (turns_in (run_in shared.now)) g ≡ Some t → t < THREAD_LIMIT → t < length threads.items }
    requires none { workers.items ≡ [] }
    requires room { length threads.items ≤ vec_capacity workers }
    ensures own { (pool.new.table_id ≡ pool.old.table_id) × (pool.new.id ≡ pool.old.id) }
    ensures view { pool.new.me ≡ (Pool (run_in shared.now) (length result.items) 0, []) }
    ensures workers { AreWorkers (run_in shared.now) (table_in shared.now) result.items }
    ensures first { AreFirst result.items }
{
    let mut workers = workers;
    for thread in threads {
        let seat = seats::split(&shared.words, pool);
        workers.push_reserved(thread.seated(shared, seat));
    }
    workers
}

/// The run of a program on an input along a schedule, with the memory that it takes. Takes no more.
fn begun<'a>(
    room: Room,
    p: &'a Program,
    s: &'a Schedule,
    input: &'a [i64],
    made: Threads,
) -> Ready<'a>
    requires can { CanRun p.now input.now }
    requires good { IsGoodRun p.now input.now s.now }
    requires epoch { suc room.epoch < 2 ^ 64 }
    requires made { AreThreads p.now s.now made }
    ensures ready { IsReady result }
    ensures first { AreFirst result.workers.items }
    ensures run { run_in result.shared ≡ run_of p.now s.now input.now room.epoch }
{
    let Room {
        words,
        mut pool,
        epoch,
    } = room;
    let Threads {
        threads,
        workers,
        mut laid,
        gated,
    } = made;
    begin::begin(&words, &mut pool, p, s, input);
    let shared = Shared {
        words,
        program: p,
        schedule: s,
        input,
        epoch,
        gated,
        under_way: AtomicU64::new(0),
    };
    lay_globals(&shared, &mut pool, &mut laid);
    begin::open(&shared.words, &mut pool);
    let workers = seat_all(&shared, &mut pool, threads, workers);
    Ready {
        shared,
        workers,
        pool,
        laid,
    }
}

/// Makes a program's run on an input along a schedule ready, in a room.
///
/// # Errors
///
/// Where no memory is left for it.
pub fn prepare_in<'a>(
    alloc: Global,
    room: Room,
    p: &'a Program,
    s: &'a Schedule,
    input: &'a [i64],
) -> Result<Ready<'a>, NotPrepared>
    requires can { CanRun p.now input.now }
    requires good { IsGoodRun p.now input.now s.now }
    ensures ready { IfOk result IsReady }
    ensures first { IfOk result (λ r. AreFirst r.workers.items) }
    ensures run { IfOk result (λ r. run_in r.shared ≡ run_of p.now s.now input.now room.epoch) }
    ensures same { IfErr result (λ e. e.room ≡ room) }
{
    if room.epoch == u64::MAX {
        return Err(NotPrepared { room });
    }
    match threads_of(alloc, p, s) {
        Ok(made) => Ok(begun(room, p, s, input, made)),
        Err(_) => Err(NotPrepared { room }),
    }
}
