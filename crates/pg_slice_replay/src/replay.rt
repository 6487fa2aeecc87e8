//! The replay of a trace, which keeps what the trace lacks.

ghost use Rattle.std.specs.Prelude.{◌≡◌, ◌<◌, ℕ, [], length, map, All, IfOk, OnOk, option_map, slice_get};
ghost use Rattle.pg_ir.specs.declared.ids.InstrId.{InstrId};
ghost use Rattle.pg_region_accesses.specs.Accesses.{is_gated, summary_of};
ghost use Rattle.pg_law_effects.specs.pg_run.Machine.{IsMachine};
ghost use Rattle.pg_law_effects.specs.pg_run.Runs.{IsRun};
ghost use Rattle.pg_law_effects.specs.pg_run.State.{State, initial};
ghost use Rattle.pg_slice_rules.specs.Freeable.{Regions};
ghost use Rattle.pg_slice_rules.specs.Moments.{moments_of};
ghost use Rattle.pg_slice_replay.specs.Kept.{landmark_at, landmark_in, step_count};
ghost use Rattle.pg_slice_replay.specs.Landmarks.{landmark_of, landmark_with, told_along};
ghost use Rattle.pg_slice_replay.specs.OfRegions.{AreRegions};
ghost use Rattle.pg_slice_replay.specs.Sought.{freed_in};
ghost use Rattle.pg_slice_replay.specs.Targets.{AreTargets};

use crate::at::At;
use crate::found::{FoundRegion, Regions as FoundRegions};
use crate::given::TracedRun;
use crate::row::Row;
use crate::run::ReferenceRun;
use crate::seek::regions_of;
use crate::step::{row_of, take_step};
use crate::targets::{Targets, none_of};
use pg_ir::{InstrId, Program};
use pg_law_effects::pg_run::Machine;
use pg_region_accesses::Summary;
use pg_run_trace::Trace;
use std::alloc::{AllocError, Global};

/// Takes the steps of a trace one after another, and keeps what it lacks of each.
fn replay(
    alloc: Global,
    run: &TracedRun,
    machine: &mut Machine,
    targets: &mut Targets,
    rows: &mut Vec<Row>,
    ats: &mut Vec<At>,
    last: &mut [Option<u32>],
) -> Result<(), AllocError>
    requires of { IsMachine run.now.program.now machine.old.state }
    requires targets { AreTargets run.now.program.now targets.old.kept.items machine.old.state }
    requires run { (z : State) × IsRun machine.old.gated run.now.program.now machine.old.input machine.old.state run.now.trace.now.steps z }
    requires rows { rows.old.items ≡ [] }
    ensures rows { OnOk result (map (landmark_in ats.new.items run.now.regions.now.regions.items) rows.new.items
        ≡ told_along (λ s x. landmark_with run.now.program.now (freed_in run.now.program.now run.now.regions.now.blocks.items run.now.regions.now.regions.items s x) s x)
        machine.old.gated run.now.program.now machine.old.input machine.old.state run.now.trace.now.steps) }
{
    for i in 0..run.trace.len() {
        let step = run.trace.step(i);
        let row = row_of(machine, run, targets, &step, ats, last)?;
        rows.push(row)?;
        take_step(alloc, run.program, machine, targets, &step)?;
    }
    Ok(())
}

/// The rows of a trace, and where the accesses of its freeable steps lead.
fn rows(
    alloc: Global,
    p: &Program,
    input: &[i64],
    t: &Trace,
    gated: &[InstrId],
    regions: &FoundRegions,
) -> Result<(Vec<Row>, Vec<At>), AllocError>
    requires { (z : State) × IsRun gated.now p.now input.now (initial p.now) t.now.steps z }
    ensures { IfOk result (λ r. map (landmark_in r.1.items regions.now.regions.items) r.0.items
        ≡ told_along (λ s x. landmark_with p.now (freed_in p.now regions.now.blocks.items regions.now.regions.items s x) s x) gated.now p.now input.now (initial p.now) t.now.steps) }
{
    let mut machine = Machine::new(alloc, p, input, gated)?;
    let mut targets = Targets::new(alloc)?;
    let mut rows = Vec::with_capacity(alloc, t.len())?;
    let mut ats = Vec::new(alloc);
    let mut last = none_of(alloc, regions.regions.len())?;
    let run = TracedRun {
        program: p,
        trace: t,
        regions,
    };
    replay(
        alloc,
        &run,
        &mut machine,
        &mut targets,
        &mut rows,
        &mut ats,
        last.as_mut_slice(),
    )?;
    Ok((rows, ats))
}

/// A reference run replayed: what its trace lacks of each step. The trace is that of a run on this input, with these loads and
/// stores as events; `sums` has the summary of each function that is quiet.
///
/// # Errors
///
/// Where no memory is left.
pub fn reference(
    alloc: Global,
    p: &Program,
    input: &[i64],
    t: &Trace,
    gated: &[InstrId],
    sums: &[Option<Summary>],
) -> Result<ReferenceRun, AllocError>
    requires gated { All (λ (g : InstrId). g.0 < length p.now.instrs) gated.now }
    requires run { (z : State) × IsRun gated.now p.now input.now (initial p.now) t.now.steps z }
    ensures landmarks { IfOk result (λ r. (regions : Regions) → AreRegions p.now (is_gated gated.now) (summary_of sums.now) regions → (n : ℕ)
        → landmark_at r n ≡ option_map (landmark_of p.now regions) (slice_get (moments_of gated.now p.now input.now t.now.steps) n)) }
    ensures count { IfOk result (λ r. step_count r ≡ length t.now.steps) }
{
    let regions = regions_of(alloc, p, gated, sums, t)?;
    let kept = rows(alloc, p, input, t, gated, &regions)?;
    Ok(ReferenceRun {
        rows: kept.0,
        ats: kept.1,
        regions: regions.regions,
    })
}
