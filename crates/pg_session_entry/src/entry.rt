//! Cache entries: a schedule, its decisions, and what an input must give.

use pg_cache::Admits;
use pg_ir::InstrId;
use pg_precondition::{Precondition, Scratch, admits};
use pg_run_trace::{Race, Schedule};
use pg_slice_rules::Decisions;
use std::marker::Model;

/// What is kept of a run: its input, the schedule of its events and races, and, of the guided run on that input along the
/// schedule, the decisions and what an input must give so that the schedule serves it. It has room for the numbers that a test
/// of an input computes.
#[derive(Drop)]
pub struct Entry {
    pub(crate) input: Vec<i64>,
    pub(crate) schedule: Schedule,
    pub(crate) races: Vec<Race>,
    pub(crate) decisions: Decisions,
    pub(crate) precondition: Precondition,
    pub(crate) ids: Vec<InstrId>,
    pub(crate) scratch: Scratch,
}

impl Model for Entry {
    ghost use Rattle.std.specs.Prelude.{◌≤◌, length};
    ghost use Rattle.pg_session_entry.specs.Entries.{EntryParts};

    ghost Value = { EntryParts };

    ghost view = { λ e. record {
      input = e.input.items;
      schedule = e.schedule;
      races = e.races.items;
      pinned = e.decisions.pinned.items;
      exact = e.decisions.exact.items;
      precondition = e.precondition;
      ids = e.ids.items;
    } };

    ghost invariant = { λ e. length e.precondition.nodes ≤ e.scratch.room };
}

impl Entry {
    ghost use Rattle.std.specs.Prelude.{◌≡◌};

    /// The input of the run.
    pub fn input(&self) -> &[i64]
        ensures { result.now ≡ self.now.input }
    {
        self.input.as_slice()
    }

    /// The turns, their replies, and the loads and stores that are turns.
    pub fn schedule(&self) -> &Schedule
        ensures { result.now ≡ self.now.schedule }
    {
        &self.schedule
    }

    /// The races of the recorded run, or of the guided run where turns were given.
    pub fn races(&self) -> &[Race]
        ensures { result.now ≡ self.now.races }
    {
        self.races.as_slice()
    }

    /// What is fixed of the guided run.
    pub fn decisions(&self) -> &Decisions
        ensures pinned { result.now.pinned.items ≡ self.now.pinned }
        ensures exact { result.now.exact.items ≡ self.now.exact }
    {
        &self.decisions
    }

    /// What an input must give so that the schedule serves it.
    pub fn precondition(&self) -> &Precondition
        ensures { result.now ≡ self.now.precondition }
    {
        &self.precondition
    }

    /// The instruction of each step of the guided run.
    pub fn ids(&self) -> &[InstrId]
        ensures { result.now ≡ self.now.ids }
    {
        self.ids.as_slice()
    }
}

impl Admits for Entry {
    ghost use Rattle.std.specs.Prelude.{◌≡◌};
    ghost use Rattle.pg_session_entry.specs.Entries.{EntryParts};
    ghost use Rattle.pg_precondition.specs.Values.{is_admitted};

    ghost Meaning = { EntryParts };

    ghost meaning = { λ e. e };

    ghost test = { λ e input. is_admitted input e.precondition };

    fn admits(&mut self, input: &[i64]) -> bool {
        admits(&self.precondition, &mut self.scratch, input)
    }
}
