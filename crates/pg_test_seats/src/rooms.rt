//! One run of a program after another in a room.

ghost use Rattle.std.specs.Prelude.{◌≡◌, ◌≤◌, ◌*◌, [], length, vec_capacity};
ghost use Rattle.pg_crew.specs.pg_law_runs.Cuts.{CanRun};
ghost use Rattle.pg_crew.specs.pg_law_order.Good.{IsGoodRun};
ghost use Rattle.pg_room.specs.Ready.{IsReady};
ghost use Rattle.pg_room.specs.Workers.{AreFirst};
ghost use Rattle.pg_rounds.specs.declared.merge.TheConstants.{TEXT_LIMIT};

use crate::looks::{are_zeros, hold};
use crate::runs::Row;
use pg_crew::OneByOne;
use pg_crew::pg_ir::Program;
use pg_crew::pg_run::GuidedEnd;
use pg_crew::pg_run_trace::Schedule;
use pg_room::{Ready, Room, prepare_in, rest};
use pg_rounds::{reserve, rounds};
use std::alloc::Global;
use std::process::Abort;
use std::test::Fail;
use std::thread::Threads;

/// The workers of a run that is made ready go on one after another, until it exits with all turns done. The words that are watched are
/// 0 before it, and behind it they hold what is wanted. Then the room is at rest again.
fn gone<R: Threads + Abort + Sync>(
    rt: &R,
    alloc: Global,
    ready: Ready<'_>,
    output: Vec<u8>,
    row: &Row,
) -> Room
    requires ready { IsReady ready }
    requires first { AreFirst ready.workers.items }
    requires empty { output.items ≡ [] }
    requires room { TEXT_LIMIT * length ready.shared.schedule.now.turns ≤ vec_capacity output }
{
    let Ready {
        shared,
        mut workers,
        pool,
        laid,
    } = ready;
    assert!(rt; are_zeros(&shared.words, row.watched));
    let mut crew = OneByOne::new(Vec::new(alloc));
    let ended = rounds(rt, &shared, workers.as_mut_slice(), &mut crew, output);
    assert_eq!(rt; ended.end, GuidedEnd::Exit(0));
    assert_eq!(rt; ended.turns as usize, row.turns.len());
    assert!(rt; hold(&shared.words, row.watched, row.behind));
    let room = rest(Ready {
        shared,
        workers,
        pool,
        laid,
    });
    room
}

/// A run of a program in a room, which is at rest again behind it.
pub(crate) fn run_in<R: Threads + Abort + Sync>(
    rt: &R,
    alloc: Global,
    room: Room,
    p: &Program,
    s: &Schedule,
    row: &Row,
) -> Result<Room, Fail>
    requires can { CanRun p.now row.now.input.now }
    requires good { IsGoodRun p.now row.now.input.now s.now }
{
    let output = reserve(alloc, s.turns.as_slice())?;
    match prepare_in(alloc, room, p, s, row.input) {
        Ok(ready) => Ok(gone(rt, alloc, ready, output, row)),
        Err(_) => Err("not prepared".into()),
    }
}
