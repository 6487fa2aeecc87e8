//! Rounds, until the run is over.

ghost use Rattle.std.specs.Prelude.{◌≡◌, ◌≢◌, ◌<◌, ◌≤◌, ◌*◌, ◌-◌, ◌⊎◌, Some, [], length, suc, ℕ, slice_get, slice_index_or, vec_capacity};
ghost use denote.Param.Send.{IsSync};
ghost use Rattle.pg_room.specs.pg_crew.Workers.{AreWorkers, HaveEnded, counted, turns_between};
ghost use Rattle.pg_room.specs.pg_law_order.Served.{guided_along};
ghost use Rattle.pg_room.specs.pg_law_runs.Deeds.{owners_of};
ghost use Rattle.pg_room.specs.pg_num.Numbers.{signed, truncated};
ghost use Rattle.pg_room.specs.pg_num.declared.width.Width.TheVariants.{W32};
ghost use Rattle.pg_rounds.specs.Prints.{main_value};
ghost use Rattle.pg_room.specs.Workers.{AreFirst};
ghost use Rattle.pg_rounds.specs.Turns.{AreDone, HaveDone, HavePaused, IsAwaited, IsNext, IsOver, IsPast, WereTold};
ghost use Rattle.pg_rounds.specs.declared.merge.TheConstants.{TEXT_LIMIT};
ghost use Rattle.pg_room.specs.pg_seats.Views.{seen_of};
ghost use Rattle.pg_room.specs.pg_worker.declared.worker.Worker.{Worker as WorkerData};
ghost use Rattle.pg_room.specs.pg_worker.Standing.{run_in, table_in};

use crate::ended::Ended;
use crate::merge::merge;
use crate::next_turn::{awaited, next_turn};
use pg_room::pg_crew::Crew;
use pg_room::pg_num::{Width, to_signed, trunc};
use pg_room::pg_run::GuidedEnd;
use pg_room::pg_worker::{Shared, Worker};
use std::thread::Threads;

/// One worker tells another of the turns that its seat knows to be done.
fn tell(shared: &Shared<'_>, workers: &mut [Worker], from: usize, to: usize)
    requires workers { AreWorkers (run_in shared.now) (table_in shared.now) workers.old }
    requires within { (from < length workers.old) × (to < length workers.old) }
    requires apart { from ≢ to }
    ensures workers { AreWorkers (run_in shared.now) (table_in shared.now) workers.new }
    ensures told { WereTold workers.old workers.new }
    ensures knows { (d : WorkerData) → seen_of (slice_index_or workers.old from d).seat.me.0 ≤ seen_of (slice_index_or workers.new to d).seat.me.0 }
{
    let told = workers[from].note(shared);
    workers[to].take_note(shared, told);
}

/// The owner of the turn before this one.
fn owner_before(shared: &Shared<'_>, number: u64) -> usize
    requires some { 0 < number }
    requires within { number ≤ length shared.now.schedule.now.turns }
    ensures { slice_get (owners_of shared.now.schedule.now.turns) (number - 1) ≡ Some result }
{
    let turn = shared.schedule.turns.as_slice()[(number - 1) as usize];
    turn.thread.0 as usize
}

/// The owner of the turn before this one, which is done, tells the turn's owner that it is due.
fn hand_on(shared: &Shared<'_>, workers: &mut [Worker], owner: usize, number: u64)
    requires workers { AreWorkers (run_in shared.now) (table_in shared.now) workers.old }
    requires next { IsNext workers.old owner number }
    ensures workers { AreWorkers (run_in shared.now) (table_in shared.now) workers.new }
    ensures told { WereTold workers.old workers.new }
    ensures due { (d : WorkerData) → number ≤ seen_of (slice_index_or workers.new owner d).seat.me.0 }
{
    if number == 0 {
        return;
    }
    let before = owner_before(shared, number);
    if before == owner {
        return;
    }
    tell(shared, workers, before, owner);
}

/// A round in which the owner of the next turn knows that it is due.
fn next_round<R: Threads + Sync, C: Crew>(
    rt: &R,
    shared: &Shared<'_>,
    workers: &mut [Worker],
    crew: &mut C,
    owner: usize,
    number: u64,
)
    requires gated { shared.now.gated ≡ shared.now.schedule.now.gated }
    requires workers { AreWorkers (run_in shared.now) (table_in shared.now) workers.old }
    requires next { IsAwaited shared.now.program.now workers.old owner number }
    ensures workers { AreWorkers (run_in shared.now) (table_in shared.now) workers.new }
    ensures paused { HavePaused (run_in shared.now) workers.new }
    ensures done { HaveDone workers.old workers.new }
    ensures counts { C.turns crew.new ≡ counted (C.turns crew.old) (turns_between workers.old workers.new) }
    ensures gets_on { IsOver shared.now.program.now workers.new ⊎ IsPast (suc number) workers.new }
{
    hand_on(shared, workers, owner, number);
    crew.round(rt, shared, workers);
}

/// Rounds, until no turn is left or the owner of the next turn is stopped: at most one more than the schedule has turns.
fn go<R: Threads + Sync, C: Crew>(rt: &R, shared: &Shared<'_>, workers: &mut [Worker], crew: &mut C)
    requires gated { shared.now.gated ≡ shared.now.schedule.now.gated }
    requires workers { AreWorkers (run_in shared.now) (table_in shared.now) workers.old }
    ensures workers { AreWorkers (run_in shared.now) (table_in shared.now) workers.new }
    ensures paused { HavePaused (run_in shared.now) workers.new }
    ensures done { HaveDone workers.old workers.new }
    ensures counts { C.turns crew.new ≡ counted (C.turns crew.old) (turns_between workers.old workers.new) }
    ensures over { IsOver shared.now.program.now workers.new }
{
    crew.round(rt, shared, workers);
    for _ in 0..shared.schedule.turns.as_slice().len() {
        match awaited(shared.program, workers) {
            None => return,
            Some((owner, number)) => next_round(rt, shared, workers, crew, owner, number),
        }
    }
}

/// The value with which the run exits where all turns are done: that of the main thread.
fn exit_value(workers: &[Worker]) -> i32
    requires { 0 < length workers.now }
    ensures { result ≡ signed W32 (truncated W32 (main_value workers.now)) }
{
    let word = workers[0].value();
    to_signed(Width::W32, trunc(Width::W32, word)) as i32
}

/// What the run printed and its end, where no turn is left.
fn all_done(shared: &Shared<'_>, workers: &[Worker], output: Vec<u8>) -> Ended
    requires workers { AreWorkers (run_in shared.now) (table_in shared.now) workers.now }
    requires paused { HavePaused (run_in shared.now) workers.now }
    requires over { IsOver shared.now.program.now workers.now }
    requires done { AreDone workers.now }
    requires empty { output.items ≡ [] }
    requires room { TEXT_LIMIT * length shared.now.schedule.now.turns ≤ vec_capacity output }
    ensures output { result.output.items ≡ (guided_along shared.now.program.now shared.now.input.now shared.now.schedule.now).state.printed }
    ensures end { result.end ≡ (guided_along shared.now.program.now shared.now.input.now shared.now.schedule.now).end }
    ensures turns { result.turns ≡ (guided_along shared.now.program.now shared.now.input.now shared.now.schedule.now).turns }
{
    let turns = shared.schedule.turns.as_slice();
    let output = merge(shared.program, turns, workers, output);
    Ended {
        output,
        end: GuidedEnd::Exit(exit_value(workers)),
        turns: turns.len() as u32,
    }
}

/// What the run printed and its end, where the owner of its next turn is stopped.
fn held(
    shared: &Shared<'_>,
    workers: &[Worker],
    output: Vec<u8>,
    owner: usize,
    number: u64,
) -> Ended
    requires workers { AreWorkers (run_in shared.now) (table_in shared.now) workers.now }
    requires paused { HavePaused (run_in shared.now) workers.now }
    requires over { IsOver shared.now.program.now workers.now }
    requires next { IsNext workers.now owner number }
    requires empty { output.items ≡ [] }
    requires room { TEXT_LIMIT * length shared.now.schedule.now.turns ≤ vec_capacity output }
    ensures output { result.output.items ≡ (guided_along shared.now.program.now shared.now.input.now shared.now.schedule.now).state.printed }
    ensures end { result.end ≡ (guided_along shared.now.program.now shared.now.input.now shared.now.schedule.now).end }
    ensures turns { result.turns ≡ (guided_along shared.now.program.now shared.now.input.now shared.now.schedule.now).turns }
{
    let turns = &shared.schedule.turns.as_slice()[..number as usize];
    let output = merge(shared.program, turns, workers, output);
    Ended {
        output,
        end: workers[owner].end(shared.program),
        turns: number as u32,
    }
}

/// What the run printed, its end, and how many turns it did.
fn ended(shared: &Shared<'_>, workers: &[Worker], output: Vec<u8>) -> Ended
    requires workers { AreWorkers (run_in shared.now) (table_in shared.now) workers.now }
    requires paused { HavePaused (run_in shared.now) workers.now }
    requires over { IsOver shared.now.program.now workers.now }
    requires empty { output.items ≡ [] }
    requires room { TEXT_LIMIT * length shared.now.schedule.now.turns ≤ vec_capacity output }
    ensures output { result.output.items ≡ (guided_along shared.now.program.now shared.now.input.now shared.now.schedule.now).state.printed }
    ensures end { result.end ≡ (guided_along shared.now.program.now shared.now.input.now shared.now.schedule.now).end }
    ensures turns { result.turns ≡ (guided_along shared.now.program.now shared.now.input.now shared.now.schedule.now).turns }
{
    match next_turn(workers) {
        None => all_done(shared, workers, output),
        Some((owner, number)) => held(shared, workers, output, owner, number),
    }
}

/// Runs the workers of a run, which have done no turn yet, in rounds until the run is over. Takes no memory: the output is written into
/// the room that was reserved. What is printed, the end and the turns are those of the guided run, and the crew has counted each
/// turn.
pub fn rounds<R: Threads + Sync, C: Crew>(
    rt: &R,
    shared: &Shared<'_>,
    workers: &mut [Worker],
    crew: &mut C,
    output: Vec<u8>,
) -> Ended
    requires gated { shared.now.gated ≡ shared.now.schedule.now.gated }
    requires workers { AreWorkers (run_in shared.now) (table_in shared.now) workers.old }
    requires first { AreFirst workers.old }
    requires empty { output.items ≡ [] }
    requires room { TEXT_LIMIT * length shared.now.schedule.now.turns ≤ vec_capacity output }
    ensures output { result.output.items ≡ (guided_along shared.now.program.now shared.now.input.now shared.now.schedule.now).state.printed }
    ensures end { result.end ≡ (guided_along shared.now.program.now shared.now.input.now shared.now.schedule.now).end }
    ensures turns { result.turns ≡ (guided_along shared.now.program.now shared.now.input.now shared.now.schedule.now).turns }
    ensures counts { C.turns crew.new ≡ counted (C.turns crew.old) result.turns }
    ensures workers { AreWorkers (run_in shared.now) (table_in shared.now) workers.new }
    ensures ended { HaveEnded (run_in shared.now) (table_in shared.now) workers.new }
{
    go(rt, shared, workers, crew);
    ended(shared, workers, output)
}
