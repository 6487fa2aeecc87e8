//! One room serves the lines of several rows, whoever runs their workers, behind a run that ends by a trap too.

ghost use Rattle.pg_test_go.specs.Serves.{Serves};

use crate::entries::may_run;
use crate::rows::{Line, ROWS, Row, SUMS};
use crate::serving::{Crews, entry_for, serve_line};
use pg_go::pg_ir::Program;
use pg_go::pg_run::{GuidedEnd, guide};
use pg_go::{AnyParkers, Crew, Park, Parkers, Parking, Room, Together, prepare};
use pg_law_reuse::Entry;
use pg_test_samples::Sample;
use std::alloc::Global;
use std::process::Abort;
use std::test::Fail;
use std::thread::Threads;

/// Lines by each crew in a room. Gives the room again.
fn serve_lines<R: Threads + Abort + Sync>(
    rt: &R,
    alloc: Global,
    crews: &mut Crews,
    room: Room,
    p: &Program,
    entry: &mut Entry,
    lines: &[Line<'_>],
) -> Result<Room, Fail>
    requires serves { Serves p.now entry.old }
{
    let mut room = room;
    'lines: for line in lines {
        room = crews.serve_line(rt, alloc, room, p, entry, line)?;
    }
    Ok(room)
}

/// The lines of a row by each crew in a room. Gives the room again.
fn serve_row<R: Threads + Abort + Sync>(
    rt: &R,
    alloc: Global,
    crews: &mut Crews,
    room: Room,
    row: &Row,
) -> Result<Room, Fail> {
    let p = row.sample.program(alloc)?;
    let mut entry = entry_for(alloc, &p, row.recorded, row.quantum)?;
    let room = serve_lines(rt, alloc, crews, room, &p, &mut entry, row.lines)?;
    Ok(room)
}

#[test]
fn the_rows_in_one_room(rt: HostRuntime) -> Result<(), Fail> {
    let parkers: Box<dyn Park + Sync + Drop> = Box::new(rt.alloc(), Parkers::new(rt.alloc(), rt)?)?;
    let mut crews = Crews::new(rt.alloc(), AnyParkers::new(parkers));
    let mut room = Room::new(rt.alloc())?;
    for row in &ROWS {
        room = serve_row(&rt, rt.alloc(), &mut crews, room, row)?;
    }
    Ok(())
}

/// The samples whose recordings on `INPUT` exit: one of the others spends its steps there, and three trap.
pub(crate) const SAMPLES: [Sample; 19] = [
    Sample::AddTwo,
    Sample::PrintInALoop,
    Sample::PlaceByNumber,
    Sample::StoreAtOneOfTwo,
    Sample::TwoUnderMutex,
    Sample::SumsUnderMutex,
    Sample::EmptyBarrier,
    Sample::BarrierOfThree,
    Sample::WaitAndBroadcast,
    Sample::StoresSideBySide,
    Sample::RacingStores,
    Sample::StoresInALoop,
    Sample::PrintIfStored,
    Sample::PrintBoth,
    Sample::TwoThatDivide,
    Sample::CountingThread,
    Sample::ManyThreads,
    Sample::FourThreads,
    Sample::TwoCounters,
];

pub(crate) const INPUT: [i64; 2] = [3, 5];

/// A sample's run by each crew in a room, which comes to what the guided run comes to. Gives the room again.
fn serve_sample<R: Threads + Abort + Sync>(
    rt: &R,
    alloc: Global,
    crews: &mut Crews,
    room: Room,
    sample: Sample,
) -> Result<Room, Fail> {
    let p = sample.program(alloc)?;
    let mut entry = entry_for(alloc, &p, &INPUT, 100)?;
    let guided = guide(alloc, &p, &INPUT, entry.schedule())?;
    let line = Line {
        input: &INPUT,
        output: guided.output.as_slice(),
        end: guided.end,
        turns: guided.turns,
    };
    crews.serve_line(rt, alloc, room, &p, &mut entry, &line)
}

#[test]
fn the_samples_in_one_room(rt: HostRuntime) -> Result<(), Fail> {
    let parkers: Box<dyn Park + Sync + Drop> = Box::new(rt.alloc(), Parkers::new(rt.alloc(), rt)?)?;
    let mut crews = Crews::new(rt.alloc(), AnyParkers::new(parkers));
    let mut room = Room::new(rt.alloc())?;
    for sample in SAMPLES {
        room = serve_sample(&rt, rt.alloc(), &mut crews, room, sample)?;
    }
    Ok(())
}

/// A run in a room of its own.
#[test]
fn a_room_of_its_own(rt: HostRuntime) -> Result<(), Fail> {
    let p = SUMS.sample.program(rt.alloc())?;
    let mut entry = entry_for(rt.alloc(), &p, SUMS.recorded, SUMS.quantum)?;
    let input: [i64; 2] = [10, 20];
    if !may_run(&p, &mut entry, &input) {
        return Err("not admitted".into());
    }
    let run = prepare(rt.alloc(), &p, entry.schedule(), &input)?;
    let mut crew = Together::new(Vec::new(rt.alloc()));
    let ended = run.go(&rt, &mut crew);
    assert_eq!(rt; ended.output.as_slice(), b"60\n".as_slice());
    assert_eq!(rt; ended.end, GuidedEnd::Exit(0));
    assert_eq!(rt; ended.turns, 15);
    assert_eq!(rt; crew.count(), 15);
    assert_eq!(rt; crew.another().count(), 0);
    Ok(())
}

/// A crew that parks, and another one of its sort, which doesn't.
#[test]
fn workers_that_park(rt: HostRuntime) -> Result<(), Fail> {
    let p = SUMS.sample.program(rt.alloc())?;
    let mut entry = entry_for(rt.alloc(), &p, SUMS.recorded, SUMS.quantum)?;
    let parkers: Box<dyn Park + Sync + Drop> = Box::new(rt.alloc(), Parkers::new(rt.alloc(), rt)?)?;
    let mut crew = Parking::new(Vec::new(rt.alloc()), AnyParkers::new(parkers));
    let mut other = crew.another();
    let room = Room::new(rt.alloc())?;
    let room = serve_line(
        &rt,
        rt.alloc(),
        &mut crew,
        room,
        &p,
        &mut entry,
        &SUMS.lines[1],
    )?;
    serve_line(
        &rt,
        rt.alloc(),
        &mut other,
        room,
        &p,
        &mut entry,
        &SUMS.lines[2],
    )?;
    assert_eq!(rt; crew.count(), 15);
    assert_eq!(rt; other.count(), 15);
    Ok(())
}
