//! Runs that are ready to go, and what they come to.

ghost use Rattle.std.specs.Prelude.{◌≡◌, IfErr, IfOk};
ghost use denote.Param.Send.{IsSync};
ghost use Rattle.pg_rounds.specs.pg_law_runs.Cuts.{CanRun};
ghost use Rattle.pg_rounds.specs.pg_law_order.Good.{IsGoodRun};
ghost use Rattle.pg_rounds.specs.pg_law_order.Served.{guided_along};
ghost use Rattle.pg_rounds.specs.pg_crew.Workers.{counted};
ghost use Rattle.pg_go.specs.Given.{Given, IsPrepared, given, given_in};

use pg_rounds::pg_crew::Crew;
use pg_rounds::pg_ir::Program;
use pg_rounds::pg_room::{NotPrepared, Ready, Room, rest};
use pg_rounds::pg_run_trace::Schedule;
use pg_rounds::{Ended, reserve, rounds};
use std::alloc::{AllocError, Global};
use std::marker::Model;
use std::thread::Threads;

/// A run of a program on an input along a schedule that is ready to go: a worker for each of its threads, and room for what it
/// prints. Contracts see the program, the schedule and the input.
#[derive(Drop)]
pub struct Prepared<'a> {
    ready: Ready<'a>,
    output: Vec<u8>,
}

impl<'a> Model for Prepared<'a> {
    ghost Value = { Given };

    ghost view = { λ r. given_in r.ready };

    ghost invariant = { λ r. IsPrepared r.ready r.output };
}

/// Makes a program's run on an input along a schedule ready, in a room.
///
/// # Errors
///
/// Where no memory is left for it, or the room has served all runs that can be counted. The room comes back as it was.
pub fn prepare_in<'a>(
    alloc: Global,
    room: Room,
    p: &'a Program,
    s: &'a Schedule,
    input: &'a [i64],
) -> Result<Prepared<'a>, NotPrepared>
    requires can { CanRun p.now input.now }
    requires good { IsGoodRun p.now input.now s.now }
    ensures given { IfOk result (λ r. r ≡ given p.now s.now input.now) }
    ensures same { IfErr result (λ e. e.room ≡ room) }
{
    let Ok(output) = reserve(alloc, s.turns.as_slice()) else {
        return Err(NotPrepared { room });
    };
    let ready = pg_rounds::pg_room::prepare_in(alloc, room, p, s, input)?;
    Ok(Prepared { ready, output })
}

/// Makes a program's run on an input along a schedule ready, in a room of its own.
///
/// # Errors
///
/// Where no memory is left for it.
pub fn prepare<'a>(
    alloc: Global,
    p: &'a Program,
    s: &'a Schedule,
    input: &'a [i64],
) -> Result<Prepared<'a>, AllocError>
    requires can { CanRun p.now input.now }
    requires good { IsGoodRun p.now input.now s.now }
    ensures given { IfOk result (λ r. r ≡ given p.now s.now input.now) }
{
    let room = Room::new(alloc)?;
    match prepare_in(alloc, room, p, s, input) {
        Ok(run) => Ok(run),
        Err(_) => Err(AllocError),
    }
}

impl<'a> Prepared<'a> {
    /// Runs the workers by a crew until the run is over. Gives what the guided run prints, its end and its number of turns, all of
    /// which the crew has counted; and the room again, at rest. Takes no memory.
    pub fn go_on<R: Threads + Sync, C: Crew>(self, rt: &R, crew: &mut C) -> (Ended, Room)
        ensures output { result.0.output.items ≡ (guided_along self.entry.program self.entry.input self.entry.schedule).state.printed }
        ensures end { result.0.end ≡ (guided_along self.entry.program self.entry.input self.entry.schedule).end }
        ensures turns { result.0.turns ≡ (guided_along self.entry.program self.entry.input self.entry.schedule).turns }
        ensures counts { C.turns crew.new ≡ counted (C.turns crew.old) result.0.turns }
    {
        let Prepared { ready, output } = self;
        let Ready {
            shared,
            mut workers,
            pool,
            laid,
        } = ready;
        let ended = rounds(rt, &shared, workers.as_mut_slice(), crew, output);
        let room = rest(Ready {
            shared,
            workers,
            pool,
            laid,
        });
        (ended, room)
    }

    /// Runs the workers by a crew until the run is over, where the room isn't wanted again.
    pub fn go<R: Threads + Sync, C: Crew>(self, rt: &R, crew: &mut C) -> Ended
        ensures output { result.output.items ≡ (guided_along self.entry.program self.entry.input self.entry.schedule).state.printed }
        ensures end { result.end ≡ (guided_along self.entry.program self.entry.input self.entry.schedule).end }
        ensures turns { result.turns ≡ (guided_along self.entry.program self.entry.input self.entry.schedule).turns }
        ensures counts { C.turns crew.new ≡ counted (C.turns crew.old) result.turns }
    {
        let (ended, _room) = self.go_on(rt, crew);
        ended
    }
}
