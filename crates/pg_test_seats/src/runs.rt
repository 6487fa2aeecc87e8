//! One run of a program in a room, whose workers take segments one after another.

ghost use Rattle.std.specs.Prelude.{◌≡◌};
ghost use Rattle.pg_crew.specs.pg_worker.Standing.{run_in, table_in};
ghost use Rattle.pg_crew.specs.Workers.{AreWorkers};
ghost use Rattle.pg_room.specs.Ready.{IsReady};

use crate::looks::{Before, Watch, hold};
use crate::workers::go_on;
use pg_crew::pg_ir::{Program, ProgramError};
use pg_crew::pg_run_trace::TurnKind;
use pg_crew::pg_worker::{Paused, Shared, Worker};
use pg_room::Ready;
use pg_test_samples::{Parts, Sample, build};
use std::alloc::Global;
use std::process::Abort;
use std::test::Fail;

/// A program: a sample, or one of its own parts.
pub(crate) enum Source {
    Of(Sample),
    Own(Parts),
}

/// A run of a program, and what is wanted of it.
pub(crate) struct Row {
    pub(crate) source: Source,
    pub(crate) input: &'static [i64],
    /// The quantum of the rotation run whose schedule is taken.
    pub(crate) quantum: u32,
    /// The thread and the kind of each turn of the schedule.
    pub(crate) turns: &'static [(u8, TurnKind)],
    /// The words that are looked at, and what they hold before steps.
    pub(crate) watched: &'static [u32],
    pub(crate) before: &'static [Before],
    /// How many steps are begun.
    pub(crate) steps: usize,
    /// The threads that take a segment, one after another, and why each pauses.
    pub(crate) segments: &'static [(u8, Paused)],
    /// What the words hold behind the last segment.
    pub(crate) behind: &'static [u64],
    /// What each thread printed, the value with which it ended, and how many turns it did.
    pub(crate) threads: &'static [(&'static [u64], u64, usize)],
    /// Which threads wrote in the first page of memory.
    pub(crate) wrote: &'static [bool],
}

impl Source {
    /// The program.
    pub(crate) fn program(&self, alloc: Global) -> Result<Program, ProgramError> {
        match self {
            Source::Of(sample) => sample.program(alloc),
            Source::Own(parts) => build(alloc, parts),
        }
    }
}

/// The workers take their segments, with the words looked at before each step.
fn drive(
    rt: &impl Abort,
    shared: &Shared<'_>,
    workers: &mut [Worker],
    row: &Row,
) -> Result<(), Fail>
    requires workers { AreWorkers (run_in shared.now) (table_in shared.now) workers.old }
    requires gated { shared.now.gated ≡ shared.now.schedule.now.gated }
{
    let watch = Watch::new(&shared.words, row.watched, row.before);
    // The label is for the proof: see docs/CONTRIBUTING.md.
    'segments: for (thread, paused) in row.segments {
        let number = *thread as usize;
        if number >= workers.len() {
            return Err("no such thread".into());
        }
        let found = go_on(shared, &watch, workers, number);
        assert_eq!(rt; found, *paused, "of thread {thread}");
    }
    assert_eq!(rt; watch.held(), row.before.len());
    assert_eq!(rt; watch.met(), row.before.len());
    assert_eq!(rt; watch.steps(), row.steps);
    assert!(rt; hold(&shared.words, row.watched, row.behind));
    Ok(())
}

/// What each thread printed, the value with which it ended, and how many turns it did.
fn check_threads(rt: &impl Abort, workers: &[Worker], row: &Row) {
    assert_eq!(rt; workers.len(), row.threads.len());
    for (worker, (prints, value, turns)) in workers.iter().zip(row.threads) {
        assert!(rt; worker.prints() == *prints);
        assert_eq!(rt; worker.value(), *value);
        assert_eq!(rt; worker.turns_done(), *turns);
    }
}

/// Which threads wrote in the first page.
fn check_pages(rt: &impl Abort, workers: Vec<Worker>, row: &Row) {
    for worker in workers {
        let thread = worker.thread().0 as usize;
        let (_seat, pages) = worker.into_parts();
        assert_eq!(rt; Some(pages.has(0)), row.wrote.get(thread).copied());
    }
}

/// The workers of a run that is made ready take their segments. There is one for each thread, and each did what is wanted of it.
pub(crate) fn run(rt: &impl Abort, ready: Ready<'_>, row: &Row) -> Result<(), Fail>
    requires ready { IsReady ready }
{
    let Ready {
        shared,
        mut workers,
        pool: _,
        laid: _,
    } = ready;
    drive(rt, &shared, workers.as_mut_slice(), row)?;
    check_threads(rt, workers.as_slice(), row);
    check_pages(rt, workers, row);
    Ok(())
}
