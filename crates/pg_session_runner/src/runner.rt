//! The program that a session runs, by the way in which its inputs are recorded.

use crate::along::ran_along;
use crate::crew_in_room::CrewInRoom;
use crate::recording::{recorded_freely, recorded_in_rotation};
use pg_free::FreeCrew;
use pg_go::Crew;
use pg_go::pg_ir::Program;
use pg_law_reuse::Entry;
use pg_session::{Recording, Run, Runner};
use std::alloc::{AllocError, Global};
use std::marker::Model;
use std::sync::Wait;
use std::thread::Threads;

/// A program that a session runs. Its recordings let threads take their turns in number order, with up to a quantum of steps each.
/// Its runs along schedules are made by the workers of a crew. It counts the inputs that were recorded, and the turns of runs along
/// schedules are counted by the crew.
#[derive(Drop)]
pub struct ProgramRunner<'a, C: Crew + Drop> {
    program: &'a Program,
    quantum: u32,
    workers: CrewInRoom<C>,
    recordings: u64,
}

impl<'a, C: Crew + Drop> Model for ProgramRunner<'a, C> {
    ghost use Rattle.pg_session_runner.specs.Runs.{CanServe, Running, rotating};

    ghost Value = { Running };

    ghost view = { λ r. record {
      subject = record { program = r.program.now; way = rotating r.quantum };
      counts = record { turns = r.workers; recordings = r.recordings };
    } };

    ghost invariant = { λ r. CanServe (record { program = r.program.now; way = rotating r.quantum }) };
}

impl<'a, C: Crew + Drop> ProgramRunner<'a, C> {
    ghost use Rattle.std.specs.Prelude.{◌≡◌};
    ghost use Rattle.pg_session_runner.specs.Runs.{CanServe, rotating};

    /// The runs of a program, recorded with this quantum, and run along schedules by this crew.
    pub fn new(program: &'a Program, quantum: u32, crew: C) -> ProgramRunner<'a, C>
        requires { CanServe (record { program = program.now; way = rotating quantum }) }
        ensures program { result.subject.program ≡ program.now }
        ensures way { result.subject.way ≡ rotating quantum }
        ensures turns { result.counts.turns ≡ C.turns crew }
    {
        ProgramRunner {
            program,
            quantum,
            workers: CrewInRoom::new(crew),
            recordings: 0,
        }
    }

    /// The crew, once it ran what it was asked.
    pub fn into_crew(self) -> C
        ensures { C.turns result ≡ self.entry.counts.turns }
    {
        let ProgramRunner { workers, .. } = self;
        workers.into_crew()
    }
}

impl<'a, C: Crew + Drop> Runner for ProgramRunner<'a, C> {
    ghost use Rattle.pg_session_runner.specs.Runs.{Subject, runs_by};

    type Entry = Entry;

    ghost Subject = { Subject };

    ghost subject = { λ r. r.subject };

    ghost runs = { λ s. runs_by s.program s.way };

    ghost counts = { λ r. r.counts };

    fn record<H: Threads + Wait + Sync>(
        &mut self,
        _rt: &H,
        alloc: Global,
        input: &[i64],
    ) -> Result<Recording<Entry>, AllocError> {
        let recording = recorded_in_rotation(alloc, self.program, input, self.quantum)?;
        self.recordings = self.recordings.saturating_add(1);
        Ok(recording)
    }

    fn run_along<H: Threads + Sync>(
        &mut self,
        rt: &H,
        alloc: Global,
        entry: &Entry,
        input: &[i64],
    ) -> Result<Run, AllocError> {
        ran_along(rt, alloc, self.program, entry, input, &mut self.workers)
    }
}

/// A program that a session runs, of which nothing is recorded. Its runs along schedules are made by the workers of a crew, which
/// counts their turns.
#[derive(Drop)]
pub struct TestedRunner<'a, C: Crew + Drop> {
    program: &'a Program,
    workers: CrewInRoom<C>,
}

impl<'a, C: Crew + Drop> Model for TestedRunner<'a, C> {
    ghost use Rattle.pg_session_runner.specs.Runs.{CanServe, Running, tested};

    ghost Value = { Running };

    ghost view = { λ r. record {
      subject = record { program = r.program.now; way = tested };
      counts = record { turns = r.workers; recordings = 0 };
    } };

    ghost invariant = { λ r. CanServe (record { program = r.program.now; way = tested }) };
}

impl<'a, C: Crew + Drop> TestedRunner<'a, C> {
    ghost use Rattle.std.specs.Prelude.{◌≡◌};
    ghost use Rattle.pg_session_runner.specs.Runs.{CanServe, tested};

    /// The runs of a program along the schedules of entries, by this crew.
    pub fn new(program: &'a Program, crew: C) -> TestedRunner<'a, C>
        requires { CanServe (record { program = program.now; way = tested }) }
        ensures program { result.subject.program ≡ program.now }
        ensures way { result.subject.way ≡ tested }
        ensures turns { result.counts.turns ≡ C.turns crew }
    {
        TestedRunner {
            program,
            workers: CrewInRoom::new(crew),
        }
    }

    /// The crew, once it ran what it was asked.
    pub fn into_crew(self) -> C
        ensures { C.turns result ≡ self.entry.counts.turns }
    {
        let TestedRunner { workers, .. } = self;
        workers.into_crew()
    }
}

impl<'a, C: Crew + Drop> Runner for TestedRunner<'a, C> {
    ghost use Rattle.pg_session_runner.specs.Runs.{Subject, runs_by};

    type Entry = Entry;

    ghost Subject = { Subject };

    ghost subject = { λ r. r.subject };

    ghost runs = { λ s. runs_by s.program s.way };

    ghost counts = { λ r. r.counts };

    fn record<H: Threads + Wait + Sync>(
        &mut self,
        _rt: &H,
        _alloc: Global,
        _input: &[i64],
    ) -> Result<Recording<Entry>, AllocError> {
        // Read for the proof: see docs/CONTRIBUTING.md.
        let _program = self.program;
        Ok(Recording::Untested)
    }

    fn run_along<H: Threads + Sync>(
        &mut self,
        rt: &H,
        alloc: Global,
        entry: &Entry,
        input: &[i64],
    ) -> Result<Run, AllocError> {
        ran_along(rt, alloc, self.program, entry, input, &mut self.workers)
    }
}

/// A program that a session runs. Its recordings let threads take steps in the order in which the workers of a recording crew come:
/// the inputs that were recorded are counted by its rounds, of which each makes one at least. Its runs along schedules are made by
/// the workers of another crew, which counts their turns.
#[derive(Drop)]
pub struct FreeRunner<'a, G: FreeCrew + Drop, C: Crew + Drop> {
    program: &'a Program,
    free: G,
    workers: CrewInRoom<C>,
}

impl<'a, G: FreeCrew + Drop, C: Crew + Drop> Model for FreeRunner<'a, G, C> {
    ghost use Rattle.pg_session_runner.specs.Runs.{CanServe, Running, freely};

    ghost Value = { Running };

    ghost view = { λ r. record {
      subject = record { program = r.program.now; way = freely };
      counts = record { turns = r.workers; recordings = G.rounds r.free };
    } };

    ghost invariant = { λ r. CanServe (record { program = r.program.now; way = freely }) };
}

impl<'a, G: FreeCrew + Drop, C: Crew + Drop> FreeRunner<'a, G, C> {
    ghost use Rattle.std.specs.Prelude.{◌≡◌};
    ghost use Rattle.pg_session_runner.specs.Runs.{CanServe, freely};

    /// The runs of a program, recorded by the first of these crews, and run along schedules by the other.
    pub fn new(program: &'a Program, free: G, crew: C) -> FreeRunner<'a, G, C>
        requires { CanServe (record { program = program.now; way = freely }) }
        ensures program { result.subject.program ≡ program.now }
        ensures way { result.subject.way ≡ freely }
        ensures rounds { result.counts.recordings ≡ G.rounds free }
        ensures turns { result.counts.turns ≡ C.turns crew }
    {
        FreeRunner {
            program,
            free,
            workers: CrewInRoom::new(crew),
        }
    }

    /// The crews, once they recorded and ran what they were asked.
    pub fn into_crews(self) -> (G, C)
        ensures rounds { G.rounds result.0 ≡ self.entry.counts.recordings }
        ensures turns { C.turns result.1 ≡ self.entry.counts.turns }
    {
        let FreeRunner { free, workers, .. } = self;
        (free, workers.into_crew())
    }
}

impl<'a, G: FreeCrew + Drop, C: Crew + Drop> Runner for FreeRunner<'a, G, C> {
    ghost use Rattle.pg_session_runner.specs.Runs.{Subject, runs_by};

    type Entry = Entry;

    ghost Subject = { Subject };

    ghost subject = { λ r. r.subject };

    ghost runs = { λ s. runs_by s.program s.way };

    ghost counts = { λ r. r.counts };

    fn record<H: Threads + Wait + Sync>(
        &mut self,
        rt: &H,
        alloc: Global,
        input: &[i64],
    ) -> Result<Recording<Entry>, AllocError> {
        recorded_freely(rt, alloc, self.program, input, &mut self.free)
    }

    fn run_along<H: Threads + Sync>(
        &mut self,
        rt: &H,
        alloc: Global,
        entry: &Entry,
        input: &[i64],
    ) -> Result<Run, AllocError> {
        ran_along(rt, alloc, self.program, entry, input, &mut self.workers)
    }
}
