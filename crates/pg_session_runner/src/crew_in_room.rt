//! A crew of workers, with the room of its runs.
ghost use Rattle.std.specs.Prelude.{◌≡◌, ◌≢◌, ℕ, IfOk, Some};
ghost use Rattle.pg_law_reuse.specs.pg_law_order.Good.{IsGoodRun};
ghost use Rattle.pg_law_reuse.specs.pg_law_order.Served.{IsServed, guided_along};
ghost use Rattle.pg_law_reuse.specs.pg_law_runs.Cuts.{CanRun};
ghost use Rattle.pg_go.specs.Given.{given};
ghost use Rattle.pg_session.specs.Counts.{RoseBy};
ghost use Rattle.pg_session.specs.Trials.{turns_of};
ghost use Rattle.pg_session_runner.specs.Runs.{RunsAlong, end_line_of};

use pg_go::pg_ir::Program;
use pg_go::pg_run::GuidedEnd;
use pg_go::pg_run_trace::Schedule;
use pg_go::{Crew, Ended, Prepared, Room, prepare_in};
use pg_law_reuse::Entry;
use pg_session::Run;
use pg_session::pg_session_texts::EndLine;
use std::alloc::{AllocError, Global};
use std::marker::Model;
use std::thread::Threads;

/// A crew that runs workers, and the room of its last run, in which the next one is made ready. Contracts see the crew's count of
/// turns.
#[derive(Drop)]
pub struct CrewInRoom<C: Crew + Drop> {
    crew: C,
    /// None before the first run, and behind one that could not be made ready.
    room: Option<Room>,
}

impl<C: Crew + Drop> Model for CrewInRoom<C> {
    ghost Value = { ℕ };

    ghost view = { λ w. C.turns w.crew };
}

/// The end line of a guided run that did so many turns, and that didn't stray.
fn end_line_of(end: GuidedEnd, turns: u32) -> EndLine
    requires { end ≢ GuidedEnd.Strayed }
    ensures line { end_line_of turns end ≡ Some result }
    ensures turns { turns_of (Some result) ≡ turns }
{
    match end {
        GuidedEnd::Exit(value) => EndLine::Exit(value, turns),
        GuidedEnd::Trap(name, id) => EndLine::Trap(name, id, turns),
        GuidedEnd::Budget(thread) => EndLine::Budget(thread, turns),
        GuidedEnd::Strayed => unreachable!(),
    }
}

/// What a session keeps of a run of workers.
fn run_of(ended: Ended) -> Run
    requires { ended.end ≢ GuidedEnd.Strayed }
    ensures output { result.output.items ≡ ended.output.items }
    ensures end { end_line_of ended.turns ended.end ≡ Some result.end }
    ensures turns { turns_of (Some result.end) ≡ ended.turns }
{
    let Ended { output, end, turns } = ended;
    Run {
        output,
        end: end_line_of(end, turns),
    }
}

/// A room: this one, or a new one where there is none.
///
/// # Errors
///
/// Where no memory is left.
fn room_or_new(alloc: Global, room: Option<Room>) -> Result<Room, AllocError> {
    match room {
        Some(room) => Ok(room),
        None => Room::new(alloc),
    }
}

/// A run of a program on an input along a schedule that is ready to go, in this room, or in a new one where there is none.
///
/// # Errors
///
/// Where no memory is left for it, or the room has served all runs that can be counted.
fn ready<'a>(
    alloc: Global,
    room: Option<Room>,
    p: &'a Program,
    s: &'a Schedule,
    input: &'a [i64],
) -> Result<Prepared<'a>, AllocError>
    requires can { CanRun p.now input.now }
    requires good { IsGoodRun p.now input.now s.now }
    ensures { IfOk result (λ r. r ≡ given p.now s.now input.now) }
{
    let room = room_or_new(alloc, room)?;
    match prepare_in(alloc, room, p, s, input) {
        Ok(run) => Ok(run),
        Err(_) => Err(AllocError),
    }
}

/// What a session keeps of a run that is ready to go and doesn't stray, by the workers of a crew, which counts its turns; and the
/// room again.
#[tactic(auto, using(crate::proofs::RoundCounts::rose_told))]
fn ran<R: Threads + Sync, C: Crew + Drop>(rt: &R, run: Prepared<'_>, crew: &mut C) -> (Run, Room)
    requires arrives { (guided_along run.program run.input run.schedule).end ≢ GuidedEnd.Strayed }
    ensures printed { result.0.output.items ≡ (guided_along run.entry.program run.entry.input run.entry.schedule).state.printed }
    ensures ends { end_line_of (guided_along run.entry.program run.entry.input run.entry.schedule).turns
        (guided_along run.entry.program run.entry.input run.entry.schedule).end ≡ Some result.0.end }
    ensures counted { RoseBy (turns_of (Some result.0.end)) (C.turns crew.old) (C.turns crew.new) }
{
    // Called for the proof: see docs/CONTRIBUTING.md.
    let _count = crew.count();
    let (ended, room) = run.go_on(rt, crew);
    (run_of(ended), room)
}

impl<C: Crew + Drop> CrewInRoom<C> {
    /// This crew, with no room yet.
    pub(crate) fn new(crew: C) -> CrewInRoom<C>
        ensures { result ≡ C.turns crew }
    {
        CrewInRoom { crew, room: None }
    }

    /// The crew.
    pub(crate) fn into_crew(self) -> C
        ensures { C.turns result ≡ self }
    {
        let CrewInRoom { crew, .. } = self;
        crew
    }

    /// The run of a program on an input along the schedule of an entry that serves it, by the workers of the crew. The crew counts
    /// its turns. The room is kept for the next run; where the run can't be made ready, it is given up.
    ///
    /// # Errors
    ///
    /// Where no memory is left.
    #[tactic(auto, using(crate::proofs::RunsByWorkers::arrives, crate::proofs::RunsByWorkers::runs_along, crate::proofs::RoundCounts::rose_stays))]
    pub(crate) fn run<R: Threads + Sync>(
        &mut self,
        rt: &R,
        alloc: Global,
        p: &Program,
        entry: &Entry,
        input: &[i64],
    ) -> Result<Run, AllocError>
        requires can { CanRun p.now input.now }
        requires good { IsGoodRun p.now input.now entry.now.schedule }
        requires served { IsServed p.now input.now entry.now.schedule }
        ensures gives { IfOk result (λ r. RunsAlong p.now entry.now input.now r.output.items r.end) }
        ensures counted { IfOk result (λ r. RoseBy (turns_of (Some r.end)) self.old self.new) }
        ensures stays { RoseBy 0 self.old self.new }
    {
        let run = ready(alloc, self.room.take(), p, entry.schedule(), input)?;
        self.crew.expect(entry.ids().len() as u64);
        let (run, room) = ran(rt, run, &mut self.crew);
        self.room = Some(room);
        Ok(run)
    }
}
