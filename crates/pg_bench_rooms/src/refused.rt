//! A run that isn't made ready for want of memory gives its room back as it was.

ghost use Rattle.pg_test_go.specs.Serves.{Serves};

use crate::programs::JOBS;
use anyhow::{Result, anyhow};
use pg_go::{Crew, Ended, NotPrepared, OneByOne, Room, prepare_in};
use pg_ir::Program;
use pg_law_reuse::Entry;
use pg_run::GuidedEnd;
use pg_test_go::may_run;
use std::alloc::Global;
use std::thread::Threads;

/// A run on an input in a room, or the room as it was where the run isn't made ready.
fn tried<R: Threads + Sync, C: Crew>(
    rt: &R,
    alloc: Global,
    crew: &mut C,
    room: Room,
    p: &Program,
    entry: &mut Entry,
    input: &[i64],
) -> Result<(Option<Ended>, Room)>
    requires serves { Serves p.now entry.old }
    ensures serves { Serves p.now entry.new }
{
    if !may_run(p, entry, input) {
        return Err(anyhow!("the entry doesn't admit the input"));
    }
    match prepare_in(alloc, room, p, entry.schedule(), input) {
        Ok(run) => {
            let (ended, room) = run.go_on(rt, crew);
            Ok((Some(ended), room))
        }
        Err(NotPrepared { room }) => Ok((None, room)),
    }
}

/// Whether a run printed 60 and exited with 0 behind 15 turns.
fn is_expected(ended: &Ended) -> bool {
    ended.output.as_slice() == b"60\n".as_slice()
        && ended.end == GuidedEnd::Exit(0)
        && ended.turns == 15
}

/// In how many tries a run is made ready, one or two, in one room.
fn tries_in_room<R: Threads + Sync>(
    rt: &R,
    alloc: Global,
    p: &Program,
    entry: &mut Entry,
    input: &[i64],
) -> Result<u32>
    requires serves { Serves p.now entry.old }
{
    let mut crew = OneByOne::new(Vec::new(alloc));
    let mut room = Room::new(alloc)?;
    'tries: for tries in 1..3 {
        let (ended, back) = tried(rt, alloc, &mut crew, room, p, entry, input)?;
        room = back;
        if let Some(ended) = ended {
            if is_expected(&ended) {
                return Ok(tries);
            }
            return Err(anyhow!("the run came to something else"));
        }
    }
    Err(anyhow!("the run was refused twice"))
}

/// In how many tries the run of two sums is made ready, one or two, in one room.
///
/// # Errors
///
/// Where no memory is left for what stands before, or in both tries; or the run comes to something else than it must.
pub(crate) fn ready_in_two_tries<R: Threads + Sync>(rt: &R, alloc: Global) -> Result<u32> {
    let job = JOBS[1];
    let p = job.program(alloc)?;
    let mut entry = job.entry(alloc, &p)?;
    let tries = tries_in_room(rt, alloc, &p, &mut entry, job.input)?;
    Ok(tries)
}
