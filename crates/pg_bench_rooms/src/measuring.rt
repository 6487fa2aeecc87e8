//! Makes runs in a room, with the moments between their parts.

ghost use Rattle.pg_test_go.specs.Serves.{Serves};

use crate::programs::Job;
use crate::times::{Part, Times};
use anyhow::{Result, anyhow};
use pg_go::{Crew, OneByOne, Parking, Room, Together, prepare_in};
use pg_ir::Program;
use pg_law_reuse::Entry;
use pg_run::guide;
use pg_test_go::may_run;
use std::alloc::Global;
use std::thread::Threads;
use std::time::{Clock, Instant};

/// When a run was begun, made ready, and at its end with its room at rest.
#[derive(Clone, Copy)]
struct Moments {
    begun: Instant,
    ready: Instant,
    ended: Instant,
}

/// A run on an input by a crew in a room. Gives the room again.
fn serve<R: Threads + Clock + Sync, C: Crew>(
    rt: &R,
    alloc: Global,
    crew: &mut C,
    room: Room,
    p: &Program,
    entry: &mut Entry,
    input: &[i64],
) -> Result<(Room, Moments)>
    requires serves { Serves p.now entry.old }
    ensures serves { Serves p.now entry.new }
{
    if !may_run(p, entry, input) {
        return Err(anyhow!("the entry doesn't admit the input"));
    }
    let begun = Instant::now(rt)?;
    let Ok(run) = prepare_in(alloc, room, p, entry.schedule(), input) else {
        return Err(anyhow!("no memory is left for the run"));
    };
    let ready = Instant::now(rt)?;
    let (_ended, room) = run.go_on(rt, crew);
    let ended = Instant::now(rt)?;
    Ok((
        room,
        Moments {
            begun,
            ready,
            ended,
        },
    ))
}

/// The guided run. Gives how many turns it has.
fn guided(
    rt: &impl Clock,
    alloc: Global,
    p: &Program,
    entry: &Entry,
    input: &[i64],
    part: &mut Part,
) -> Result<u32> {
    let begun = Instant::now(rt)?;
    let run = guide(alloc, p, input, entry.schedule())?;
    let ended = Instant::now(rt)?;
    part.add(begun, ended);
    Ok(run.turns)
}

/// Crews without hooks.
#[derive(Drop)]
pub(crate) struct Crews {
    pub(crate) one_by_one: OneByOne,
    pub(crate) together: Together,
    pub(crate) parking: Parking,
}

/// A run by each crew in a room, and the guided run. Gives the room again, and how many turns the run has.
fn measured_once<R: Threads + Clock + Sync>(
    rt: &R,
    alloc: Global,
    crews: &mut Crews,
    room: Room,
    p: &Program,
    entry: &mut Entry,
    input: &[i64],
    times: &mut Times,
) -> Result<(Room, u32)>
    requires serves { Serves p.now entry.old }
    ensures serves { Serves p.now entry.new }
{
    let (room, one) = serve(rt, alloc, &mut crews.one_by_one, room, p, entry, input)?;
    times.ready.add(one.begun, one.ready);
    times.one_by_one.add(one.ready, one.ended);
    let (room, all) = serve(rt, alloc, &mut crews.together, room, p, entry, input)?;
    times.together.add(all.ready, all.ended);
    let (room, parked) = serve(rt, alloc, &mut crews.parking, room, p, entry, input)?;
    times.parking.add(parked.ready, parked.ended);
    let turns = guided(rt, alloc, p, entry, input, &mut times.guided)?;
    Ok((room, turns))
}

/// How many turns a run has, and what the parts of so many runs take, one after another in one room.
fn measured_runs<R: Threads + Clock + Sync>(
    rt: &R,
    alloc: Global,
    crews: &mut Crews,
    p: &Program,
    entry: &mut Entry,
    input: &[i64],
    runs: u32,
) -> Result<(u32, Times)>
    requires serves { Serves p.now entry.old }
{
    let mut room = Room::new(alloc)?;
    let mut times = Times::none();
    let mut turns = 0;
    'runs: for _ in 0..runs {
        let (back, done) = measured_once(rt, alloc, crews, room, p, entry, input, &mut times)?;
        room = back;
        turns = done;
    }
    Ok((turns, times))
}

/// How many turns the run of a job has, and what the parts of so many runs take.
pub(crate) fn measured<R: Threads + Clock + Sync>(
    rt: &R,
    alloc: Global,
    crews: &mut Crews,
    job: &Job<'_>,
    runs: u32,
) -> Result<(u32, Times)> {
    let p = job.program(alloc)?;
    let mut entry = job.entry(alloc, &p)?;
    let found = measured_runs(rt, alloc, crews, &p, &mut entry, job.input, runs)?;
    Ok(found)
}
