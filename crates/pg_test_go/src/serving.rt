//! Runs along the schedule of an entry, by crews in a room.

ghost use Rattle.std.specs.Prelude.{IfOk};
ghost use Rattle.pg_test_go.specs.Serves.{Serves};

use crate::entries::{entry_of, may_run};
use crate::rows::Line;
use pg_go::pg_ir::Program;
use pg_go::pg_num::limits::QUANTUM_LIMIT;
use pg_go::{AnyParkers, ByLength, Crew, Ended, OneByOne, Parking, Room, Together, prepare_in};
use pg_law_reuse::Entry;
use std::alloc::Global;
use std::process::Abort;
use std::test::Fail;
use std::thread::Threads;

/// The entry of a program's rotation run.
pub(crate) fn entry_for(
    alloc: Global,
    p: &Program,
    input: &[i64],
    quantum: u32,
) -> Result<Entry, Fail>
    ensures { IfOk result (Serves p.now) }
{
    if quantum == 0 || quantum > QUANTUM_LIMIT {
        return Err("no quantum".into());
    }
    let Some(entry) = entry_of(alloc, p, input, quantum)? else {
        return Err("the recording doesn't exit".into());
    };
    Ok(entry)
}

/// A run on an input that the entry admits, by a crew in a room. Gives what it comes to, and the room again.
fn serve<R: Threads + Sync, C: Crew>(
    rt: &R,
    alloc: Global,
    crew: &mut C,
    room: Room,
    p: &Program,
    entry: &mut Entry,
    input: &[i64],
) -> Result<(Ended, Room), Fail>
    requires serves { Serves p.now entry.old }
    ensures serves { Serves p.now entry.new }
{
    if !may_run(p, entry, input) {
        return Err("not admitted".into());
    }
    match prepare_in(alloc, room, p, entry.schedule(), input) {
        Ok(run) => Ok(run.go_on(rt, crew)),
        Err(_) => Err("not made ready".into()),
    }
}

/// A line by a crew in a room, which comes to what the line says. Gives the room again.
pub(crate) fn serve_line<R: Threads + Abort + Sync, C: Crew>(
    rt: &R,
    alloc: Global,
    crew: &mut C,
    room: Room,
    p: &Program,
    entry: &mut Entry,
    line: &Line<'_>,
) -> Result<Room, Fail>
    requires serves { Serves p.now entry.old }
    ensures serves { Serves p.now entry.new }
{
    let before = crew.count();
    let (ended, room) = serve(rt, alloc, crew, room, p, entry, line.input)?;
    assert_eq!(rt; ended.output.as_slice(), line.output, "on {:?}", line.input);
    assert_eq!(rt; ended.end, line.end, "on {:?}", line.input);
    assert_eq!(rt; ended.turns, line.turns, "on {:?}", line.input);
    assert_eq!(rt;
        crew.count(),
        before.saturating_add(u64::from(line.turns)),
        "on {:?}",
        line.input
    );
    Ok(room)
}

/// A crew of each sort.
#[derive(Drop)]
pub(crate) struct Crews {
    one_by_one: OneByOne,
    together: Together,
    by_length: ByLength,
    parking: Parking,
}

impl Crews {
    /// Without hooks. Those that park do so there.
    pub(crate) fn new(alloc: Global, parkers: AnyParkers) -> Crews {
        Crews {
            one_by_one: OneByOne::new(Vec::new(alloc)),
            together: Together::new(Vec::new(alloc)),
            by_length: ByLength::new(Vec::new(alloc)),
            parking: Parking::new(Vec::new(alloc), parkers),
        }
    }

    /// A line by each crew in one room, and by the crew by length as a short and as a long one. Gives the room again.
    pub(crate) fn serve_line<R: Threads + Abort + Sync>(
        &mut self,
        rt: &R,
        alloc: Global,
        room: Room,
        p: &Program,
        entry: &mut Entry,
        line: &Line<'_>,
    ) -> Result<Room, Fail>
        requires serves { Serves p.now entry.old }
        ensures serves { Serves p.now entry.new }
    {
        let room = serve_line(rt, alloc, &mut self.one_by_one, room, p, entry, line)?;
        let room = serve_line(rt, alloc, &mut self.together, room, p, entry, line)?;
        let room = serve_line(rt, alloc, &mut self.parking, room, p, entry, line)?;
        self.by_length.expect(0);
        let room = serve_line(rt, alloc, &mut self.by_length, room, p, entry, line)?;
        self.by_length.expect(u64::MAX);
        let room = serve_line(rt, alloc, &mut self.by_length, room, p, entry, line)?;
        Ok(room)
    }
}
