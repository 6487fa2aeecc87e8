//! What a session asks of a program.
ghost use Rattle.std.specs.Prelude.{◌≡◌, ◌≤◌, true, length, Some, IfOk};
ghost use denote.Param.Send.{IsSync};
ghost use Rattle.pg_num.specs.declared.limits.TheConstants.{NUMBERS_LIMIT};
ghost use Rattle.pg_session.specs.Counts.{Counted, Counts};
ghost use Rattle.pg_session.specs.Sessions.{Runs, IsEntryOf};
ghost use Rattle.pg_session.specs.Trials.{turns_of};
ghost use Rattle.pg_session.specs.Recordings.{ComesOfRecording, recordings_of};

use pg_cache::Admits;
use pg_session_texts::EndLine;
use pg_session_texts::pg_run::Refusal;
use std::alloc::{AllocError, Global};
use std::sync::Wait;
use std::thread::Threads;

/// What a run along a schedule printed, and how it ended.
#[derive(Drop)]
pub struct Run {
    pub output: Vec<u8>,
    pub end: EndLine,
}

/// What came of recording an input.
#[derive(Drop)]
pub enum Recording<E: Drop> {
    /// An entry, and the run along its schedule.
    Kept(E, Run),
    /// No entry, and what was printed.
    Refused(Refusal, Vec<u8>),
    /// Nothing was recorded.
    Untested,
}

/// Records the runs of a program, and runs it along schedules.
pub trait Runner {
    /// What is kept of a recording. It says of an input whether its schedule may be used for it.
    type Entry: Admits + Drop;

    // What is run. No call changes it.
    ghost Subject: { Type 0 };

    ghost subject: { Self → Subject };

    // What comes of recording an input, and of a run along an entry's schedule.
    ghost runs: { Subject → Runs Self.Entry };

    // How many turns were done along schedules and how many inputs were recorded, as far as they are counted: each at most the
    // greatest `u64`.
    ghost counts: { Self → Counts };

    /// Records a run on an input, where this runner records any.
    fn record<H: Threads + Wait + Sync>(
        &mut self,
        rt: &H,
        alloc: Global,
        input: &[i64],
    ) -> Result<Recording<Self::Entry>, AllocError>
        requires sync { IsSync H.row }
        requires few { length input.now ≤ NUMBERS_LIMIT }
        ensures gives { IfOk result (ComesOfRecording (runs (subject self.old)) input.now) }
        ensures counts_stay { Counted 0 0 (counts self.old) (counts self.new) }
        ensures counts { IfOk result (λ r. Counted 0 (recordings_of r) (counts self.old) (counts self.new)) }
        ensures stays { subject self.new ≡ subject self.old };

    /// Runs along the schedule of an entry of the same program, which admits the input.
    fn run_along<H: Threads + Sync>(
        &mut self,
        rt: &H,
        alloc: Global,
        entry: &Self::Entry,
        input: &[i64],
    ) -> Result<Run, AllocError>
        requires sync { IsSync H.row }
        requires few { length input.now ≤ NUMBERS_LIMIT }
        requires entry { IsEntryOf (runs (subject self.old)) entry.now }
        requires admitted { Self.Entry.test (Self.Entry.meaning entry.now) input.now ≡ true }
        ensures gives { IfOk result (λ r. (runs (subject self.old)).along entry.now input.now r.output.items r.end) }
        ensures counts_stay { Counted 0 0 (counts self.old) (counts self.new) }
        ensures counts { IfOk result (λ r. Counted (turns_of (Some r.end)) 0 (counts self.old) (counts self.new)) }
        ensures stays { subject self.new ≡ subject self.old };
}
