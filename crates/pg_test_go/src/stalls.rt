//! Workers that are held up change nothing: whichever worker stalls, at whichever of its first calls of its hook.

ghost use Rattle.pg_test_go.specs.Serves.{Serves};

use crate::rows::{Line, SUMS};
use crate::serving::{entry_for, serve_line};
use pg_go::pg_ir::{InstrId, Program, ThreadNo};
use pg_go::pg_run::GuidedEnd;
use pg_go::{AnyHook, AnyParkers, Hook, Park, Parkers, Parking, Room, Together};
use pg_law_reuse::Entry;
use std::alloc::{AllocError, Global};
use std::hint;
use std::process::Abort;
use std::sync::atomic::{AtomicU64, Ordering};
use std::test::Fail;
use std::thread::Threads;

/// How many workers there are, and how many calls of the hook of each are tried.
const WORKERS: u64 = 3;

const CALLS: u64 = 40;

/// Counts to 1,000 at one of its calls, and returns at once from the others.
#[derive(Drop)]
struct Stall {
    calls: AtomicU64,
    stalled: u64,
}

impl Hook for Stall {
    fn at_action(&self, _thread: ThreadNo, _at: InstrId, _is_start: bool) {
        if self.calls.fetch_add(1, Ordering::SeqCst) == self.stalled {
            for _ in 0..1_000 {
                hint::spin_loop();
            }
        }
    }
}

const LINE: Line<'static> = Line {
    input: &[10, 20],
    output: b"60\n",
    end: GuidedEnd::Exit(0),
    turns: 15,
};

/// A hook for each worker, of which one stalls at this call.
fn stalls(alloc: Global, thread: u64, call: u64) -> Result<Vec<AnyHook>, AllocError> {
    let mut hooks = Vec::new(alloc);
    for worker in 0..WORKERS {
        let stall = Stall {
            calls: AtomicU64::new(0),
            stalled: if worker == thread { call } else { u64::MAX },
        };
        hooks.push(AnyHook::new(Box::new(alloc, stall)?))?;
    }
    Ok(hooks)
}

/// A run of three workers at once, one of which stalls at this call of its hook. Gives the room again.
fn serve_stalled<R: Threads + Abort + Sync>(
    rt: &R,
    alloc: Global,
    room: Room,
    p: &Program,
    entry: &mut Entry,
    thread: u64,
    call: u64,
) -> Result<Room, Fail>
    requires serves { Serves p.now entry.old }
    ensures serves { Serves p.now entry.new }
{
    let hooks = stalls(alloc, thread, call)?;
    let mut crew = Together::new(hooks);
    serve_line(rt, alloc, &mut crew, room, p, entry, &LINE)
}

/// The same, where the others park meanwhile.
fn serve_parked<R: Threads + Abort + Sync>(
    rt: &R,
    alloc: Global,
    room: Room,
    p: &Program,
    entry: &mut Entry,
    thread: u64,
    call: u64,
    parkers: AnyParkers,
) -> Result<Room, Fail>
    requires serves { Serves p.now entry.old }
    ensures serves { Serves p.now entry.new }
{
    let hooks = stalls(alloc, thread, call)?;
    let mut crew = Parking::new(hooks, parkers);
    serve_line(rt, alloc, &mut crew, room, p, entry, &LINE)
}

/// A run for each worker and each of its calls, in one room.
fn serve_each_stall<R: Threads + Abort + Sync>(
    rt: &R,
    alloc: Global,
    p: &Program,
    entry: &mut Entry,
) -> Result<(), Fail>
    requires serves { Serves p.now entry.old }
{
    let mut room = Room::new(alloc)?;
    'calls: for number in 0..WORKERS * CALLS {
        let (thread, call) = (number / CALLS, number % CALLS);
        room = serve_stalled(rt, alloc, room, p, entry, thread, call)?;
    }
    Ok(())
}

#[test]
fn a_worker_that_stalls_changes_nothing(rt: HostRuntime) -> Result<(), Fail> {
    let p = SUMS.sample.program(rt.alloc())?;
    let mut entry = entry_for(rt.alloc(), &p, SUMS.recorded, SUMS.quantum)?;
    serve_each_stall(&rt, rt.alloc(), &p, &mut entry)
}

#[test]
fn a_worker_that_stalls_while_others_park_changes_nothing(rt: HostRuntime) -> Result<(), Fail> {
    let program = SUMS.sample.program(rt.alloc())?;
    let p = &program;
    let mut entry = entry_for(rt.alloc(), p, SUMS.recorded, SUMS.quantum)?;
    let mut room = Room::new(rt.alloc())?;
    'calls: for number in 0..WORKERS * CALLS {
        let (thread, call) = (number / CALLS, number % CALLS);
        let parkers: Box<dyn Park + Sync + Drop> = Box::new(
            rt.alloc(),
            Parkers::new(rt.alloc(), rt)?,
        )?;
        let parkers = AnyParkers::new(parkers);
        room = serve_parked(&rt, rt.alloc(), room, p, &mut entry, thread, call, parkers)?;
    }
    Ok(())
}
