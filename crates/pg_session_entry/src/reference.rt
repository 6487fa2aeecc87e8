//! The entry of a guided run that exits: its slice, and what else is kept of it.
ghost use Rattle.std.specs.Prelude.{◌≡◌, ◌<◌, ℕ, ℤ, All, List, length, IfOk};
ghost use Rattle.pg_ir.specs.declared.ids.InstrId.{InstrId as AnInstrId};
ghost use Rattle.pg_run.specs.Follow.{Exits, following_of};
ghost use Rattle.pg_law_order.specs.pg_law_runs.Cuts.{CanRun};
ghost use Rattle.pg_slice_rules.specs.Sets.{taken};
ghost use Rattle.pg_law_reference.specs.Sliceable.{CanBeSliced};
ghost use Rattle.pg_law_reference.specs.Listed.{AreListed};
ghost use Rattle.pg_session_entry.specs.Entries.{IsSliced, ServesAlong};
ghost use Rattle.pg_session_entry.specs.Replays.{IsReplayed};

use crate::entry::Entry;
use crate::ids::ids_of;
use crate::laws::the_own_input_is_admitted;
use pg_ir::{InstrId, Program};
use pg_law_reference::laws::{exiting_runs_can_be_sliced, replays_have_edges};
use pg_law_reference::pg_slice_replay::{ReferenceRun, reference};
use pg_law_reference::{GivenRun, Slice};
use pg_precondition::Scratch;
use pg_region_summaries::summaries;
use pg_run_trace::{Race, Schedule, Trace};
use pg_schedule::{Turns, intervals};
use pg_slice::slice;
use std::alloc::{AllocError, Global};

/// A run replayed.
fn replayed(
    alloc: Global,
    p: &Program,
    input: &[i64],
    t: &Trace,
    gated: &[InstrId],
) -> Result<ReferenceRun, AllocError>
    requires gated { All (λ (g : AnInstrId). g.0 < length p.now.instrs) gated.now }
    requires can { CanBeSliced p.now input.now gated.now t.now.steps }
    ensures { IfOk result (IsReplayed p.now input.now gated.now t.now.steps) }
{
    p.facts();
    replays_have_edges();
    let sums = summaries(alloc, p, gated)?;
    // In two lines for the proof: see docs/CONTRIBUTING.md.
    let replay = reference(alloc, p, input, t, gated, sums.as_slice())?;
    Ok(replay)
}

/// The slice of a run.
fn sliced(
    alloc: Global,
    p: &Program,
    input: &[i64],
    t: &Trace,
    gated: &[InstrId],
) -> Result<Slice, AllocError>
    requires gated { All (λ (g : AnInstrId). g.0 < length p.now.instrs) gated.now }
    requires can { CanBeSliced p.now input.now gated.now t.now.steps }
    ensures slice { IfOk result (λ s. IsSliced p.now input.now gated.now t.now.steps (taken s.decisions.pinned.items s.decisions.exact.items) s.precondition) }
    ensures listed { IfOk result (λ s. AreListed (length t.now.steps) s.decisions) }
{
    let replay = replayed(alloc, p, input, t, gated)?;
    let intervals = intervals(alloc, t, Turns::Recorded)?;
    let run = GivenRun {
        p,
        t,
        intervals: intervals.as_slice(),
        r: &replay,
    };
    // In two lines for the proof: see docs/CONTRIBUTING.md.
    let found = slice(alloc, &run)?;
    Ok(found)
}

/// The entry of the guided run on an input along a schedule, which exits with the steps of this trace.
pub(crate) fn entry_along(
    alloc: Global,
    p: &Program,
    input: &[i64],
    t: &Trace,
    schedule: Schedule,
    races: Vec<Race>,
) -> Result<Entry, AllocError>
    requires can_run { CanRun p.now input.now }
    requires gated { All (λ (g : AnInstrId). g.0 < length p.now.instrs) schedule.gated }
    requires exits { (printed : List ℕ) × (value : ℤ) × (following_of p.now input.now schedule.turns schedule.gated ≡ Exits t.now.steps printed value) }
    ensures input { IfOk result (λ e. e.input ≡ input.now) }
    ensures schedule { IfOk result (λ e. e.schedule ≡ schedule) }
    ensures races { IfOk result (λ e. e.races ≡ races.items) }
    ensures serves { IfOk result (λ e. (printed : List ℕ) (value : ℤ)
        → following_of p.now input.now schedule.turns schedule.gated ≡ Exits t.now.steps printed value
        → ServesAlong p.now t.now.steps printed value e) }
{
    exiting_runs_can_be_sliced();
    the_own_input_is_admitted();
    let slice = sliced(alloc, p, input, t, schedule.gated.as_slice())?;
    let scratch = Scratch::new(alloc, &slice.precondition)?;
    let ids = ids_of(alloc, t)?;
    let own = input.to_vec(alloc)?;
    Ok(Entry {
        input: own,
        schedule,
        races,
        decisions: slice.decisions,
        precondition: slice.precondition,
        ids,
        scratch,
    })
}
