//! Rows: each is recorded, and then run along the schedule of its recording.

use crate::looks::are_turns;
use crate::rooms::run_in;
use crate::runs::{Row, run};
use crate::schedules::schedule_for;
use pg_law_order::can_run;
use pg_room::{Room, prepare_in};
use std::alloc::Global;
use std::process::Abort;
use std::test::Fail;
use std::thread::Threads;

/// A run of a program.
pub(crate) fn check(rt: &impl Abort, alloc: Global, row: &Row) -> Result<(), Fail> {
    let p = row.source.program(alloc)?;
    let s = schedule_for(alloc, &p, row.input, row.quantum)?;
    assert!(rt; are_turns(&s, row.turns));
    can_run(&p, row.input);
    let room = Room::new(alloc)?;
    match prepare_in(alloc, room, &p, &s, row.input) {
        Ok(ready) => run(rt, ready, row),
        Err(_) => Err("not prepared".into()),
    }
}

/// Two runs of a program in a room, one after the other.
pub(crate) fn check_twice<R: Threads + Abort + Sync>(
    rt: &R,
    alloc: Global,
    row: &Row,
) -> Result<(), Fail> {
    let p = row.source.program(alloc)?;
    let s = schedule_for(alloc, &p, row.input, row.quantum)?;
    can_run(&p, row.input);
    let room = Room::new(alloc)?;
    let room = run_in(rt, alloc, room, &p, &s, row)?;
    let _room = run_in(rt, alloc, room, &p, &s, row)?;
    Ok(())
}
