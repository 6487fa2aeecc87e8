//! Runs along the schedule of an entry.
ghost use Rattle.std.specs.Prelude.{◌≡◌, ◌≤◌, ◌<◌, ◌^◌, ℤ, List, length, true, IfOk, Some};
ghost use Rattle.pg_go.specs.pg_num.declared.limits.TheConstants.{NUMBERS_LIMIT};
ghost use Rattle.pg_law_reuse.specs.pg_law_runs.Cuts.{CanRun};
ghost use Rattle.pg_session.specs.Counts.{RoseBy};
ghost use Rattle.pg_session.specs.Sessions.{IsEntryOf};
ghost use Rattle.pg_session.specs.Trials.{turns_of};
ghost use Rattle.pg_session_runner.specs.Runs.{RunsAlong, Way, entry_admits, runs_by};

use crate::crew_in_room::CrewInRoom;
use crate::laws::each_entry_serves_what_it_admits;
use pg_go::Crew;
use pg_go::pg_ir::Program;
use pg_law_reuse::Entry;
use pg_session::Run;
use std::alloc::{AllocError, Global};
use std::thread::Threads;

/// The own input of an entry is no longer than a slice may be.
fn own_input_is_small(entry: &Entry)
    ensures { length entry.now.input < 2 ^ 64 }
{
    // Called for the proof: see docs/CONTRIBUTING.md.
    let _ = entry.input().len();
}

/// The run of a program on an input that an entry of the program admits, along the entry's schedule, by the workers of a crew, which
/// counts its turns.
///
/// # Errors
///
/// Where no memory is left.
pub(crate) fn ran_along<R: Threads + Sync, C: Crew + Drop>(
    rt: &R,
    alloc: Global,
    p: &Program,
    entry: &Entry,
    input: &[i64],
    workers: &mut CrewInRoom<C>,
) -> Result<Run, AllocError>
    requires can_run { (own : List ℤ) → length own < 2 ^ 64 → CanRun p.now own }
    requires few { length input.now ≤ NUMBERS_LIMIT }
    requires entry { (way : Way) × IsEntryOf (runs_by p.now way) entry.now }
    requires admitted { entry_admits entry.now input.now ≡ true }
    ensures gives { IfOk result (λ r. RunsAlong p.now entry.now input.now r.output.items r.end) }
    ensures counted { IfOk result (λ r. RoseBy (turns_of (Some r.end)) workers.old workers.new) }
    ensures stays { RoseBy 0 workers.old workers.new }
{
    each_entry_serves_what_it_admits();
    own_input_is_small(entry);
    workers.run(rt, alloc, p, entry, input)
}
