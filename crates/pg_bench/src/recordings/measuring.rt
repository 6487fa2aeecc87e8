//! Takes a recording, and the use of its entry on the input that it has, with the moments between their parts.
ghost use Rattle.std.specs.Prelude.{◌≡◌, ◌<◌, All, length};
ghost use Rattle.pg_num.specs.declared.limits.TheConstants.{RECORDING_STEP_LIMIT};
ghost use Rattle.pg_ir.specs.declared.ids.InstrId.{InstrId as AnInstrId};
ghost use Rattle.pg_region_accesses.specs.Accesses.{is_gated, summary_of};
ghost use Rattle.pg_region_summaries.specs.Summaries.{AreSummaries};
ghost use Rattle.pg_slice_replay.specs.Kept.{step_count};
ghost use Rattle.pg_slice_passes.specs.Given.{AreGiven, AreSteps, EdgesStand};
ghost use Rattle.pg_law_reference.specs.Sliceable.{CanBeSliced};

use crate::recordings::comparing::{Agreement, compare, races_agree};
use crate::recordings::counts::Counts;
use crate::recordings::recording::{are_instructions, rotate, scheduled};
use crate::recordings::shares::Moments;
use anyhow::{Result, anyhow};
use pg_ir::Program;
use pg_law_reference::laws::replays_have_edges;
use pg_num::limits::RECORDING_STEP_LIMIT;
use pg_precondition::{Scratch, admits};
use pg_region_accesses::Summary;
use pg_region_summaries::summaries;
use pg_run::guide;
use pg_run_trace::{Schedule, Trace};
use pg_schedule::{Turns, intervals};
use pg_session_entry::follow_to_exit;
use pg_slice::slice;
use pg_slice_passes::{GivenRun, Slice, slice_by_passes};
use pg_slice_replay::{ReferenceRun, reference};
use std::alloc::Global;
use std::time::Instant;

/// How far a measurement goes.
#[derive(Clone, Copy, PartialEq, Eq)]
pub(crate) enum Extent {
    /// Up to the replay of the guided run.
    Replay,
    /// Up to the slice.
    Slice,
    /// And the slice by passes, and how the two compare.
    Compare,
    /// And the slice by passes, and the use of the entry.
    All,
}

/// What is measured of a run.
#[derive(Clone, Copy)]
pub(crate) struct Report {
    pub(crate) counts: Counts,
    pub(crate) moments: Moments,
    pub(crate) agreement: Agreement,
}

/// A program on an input, and how far it is measured; other inputs on which its slices are compared.
#[derive(Clone, Copy)]
pub(crate) struct Job<'a> {
    pub(crate) alloc: Global,
    pub(crate) p: &'a Program,
    pub(crate) input: &'a [i64],
    pub(crate) others: &'a [Vec<i64>],
    pub(crate) extent: Extent,
}

/// The report of a measurement.
///
/// # Errors
///
/// Where the guided run doesn't exit, no memory is left, or the clock can't be read.
pub(crate) fn measured(rt: &HostRuntime, job: &Job) -> Result<Report> {
    let begun = Instant::now(rt)?;
    let mut report = Report {
        counts: Counts::none(),
        moments: Moments::at(begun),
        agreement: Agreement::none(),
    };
    recorded(rt, job, &mut report)?;
    Ok(report)
}

fn recorded(rt: &HostRuntime, job: &Job, report: &mut Report) -> Result<()> {
    let mut trace = Trace::with_room(job.alloc, RECORDING_STEP_LIMIT as usize)?;
    rotated(rt, job, report, &mut trace)
}

fn rotated(rt: &HostRuntime, job: &Job, report: &mut Report, trace: &mut Trace) -> Result<()>
    requires room { trace.old.room ≡ RECORDING_STEP_LIMIT }
{
    rotate(job.alloc, job.p, job.input, trace)?;
    report.moments.rotated = Instant::now(rt)?;
    if job.extent == Extent::Compare {
        report.agreement.races = races_agree(job.alloc, trace)?;
    }
    let schedule = scheduled(job.alloc, trace)?;
    report.moments.scheduled = Instant::now(rt)?;
    followed(rt, job, report, trace, &schedule)
}

fn followed(
    rt: &HostRuntime,
    job: &Job,
    report: &mut Report,
    trace: &mut Trace,
    schedule: &Schedule,
) -> Result<()>
    requires room { trace.old.room ≡ RECORDING_STEP_LIMIT }
{
    match follow_to_exit(job.alloc, job.p, job.input, schedule, trace) {
        Ok(()) => {
            report.moments.followed = Instant::now(rt)?;
            summed(rt, job, report, trace, schedule)
        }
        Err(_) => Err(anyhow!("the guided run doesn't exit")),
    }
}

/// The functions that are quiet are found.
fn summed(
    rt: &HostRuntime,
    job: &Job,
    report: &mut Report,
    t: &Trace,
    schedule: &Schedule,
) -> Result<()>
    requires can { CanBeSliced job.now.p.now job.now.input.now schedule.now.gated t.now.steps }
{
    if !are_instructions(job.p, schedule.gated.as_slice()) {
        return Err(anyhow!("a turn stands at no instruction"));
    }
    let sums = summaries(job.alloc, job.p, schedule.gated.as_slice())?;
    replayed(rt, job, report, t, schedule, sums.as_slice())
}

fn replayed(
    rt: &HostRuntime,
    job: &Job,
    report: &mut Report,
    t: &Trace,
    schedule: &Schedule,
    sums: &[Option<Summary>],
) -> Result<()>
    requires gated { All (λ (g : AnInstrId). g.0 < length job.now.p.now.instrs) schedule.now.gated }
    requires can { CanBeSliced job.now.p.now job.now.input.now schedule.now.gated t.now.steps }
    requires sums { AreSummaries job.now.p.now (is_gated schedule.now.gated) (summary_of sums.now) }
{
    job.p.facts();
    replays_have_edges();
    let gated = schedule.gated.as_slice();
    let replay = reference(job.alloc, job.p, job.input, t, gated, sums)?;
    timed(rt, job, report, t, schedule, &replay)
}

/// The interval of each step is found.
fn timed(
    rt: &HostRuntime,
    job: &Job,
    report: &mut Report,
    t: &Trace,
    schedule: &Schedule,
    r: &ReferenceRun,
) -> Result<()>
    requires edges { EdgesStand job.now.p.now r.now }
    requires steps { AreSteps job.now.p.now t.now.steps }
    requires count { step_count r.now ≡ length t.now.steps }
    requires few { length t.now.steps < 4294967296 }
{
    let intervals = intervals(job.alloc, t, Turns::Recorded)?;
    report.moments.replayed = Instant::now(rt)?;
    if job.extent == Extent::Replay {
        report.counts.run(t, schedule);
        return Ok(());
    }
    let run = GivenRun {
        p: job.p,
        t,
        intervals: intervals.as_slice(),
        r,
    };
    sliced(rt, job, report, schedule, &run)
}

fn sliced(
    rt: &HostRuntime,
    job: &Job,
    report: &mut Report,
    schedule: &Schedule,
    run: &GivenRun,
) -> Result<()>
    requires { AreGiven run.now.p.now run.now.t.now.steps run.now.intervals.now run.now.r.now }
{
    let slice = slice(job.alloc, run)?;
    report.moments.sliced = Instant::now(rt)?;
    report.counts.run(run.t, schedule);
    report.counts.slice(&slice.decisions);
    if job.extent == Extent::Slice {
        return Ok(());
    }
    report.moments.counted = Instant::now(rt)?;
    let by_passes = slice_by_passes(job.alloc, run)?;
    report.moments.passed = Instant::now(rt)?;
    if job.extent == Extent::Compare {
        compare(
            job.alloc,
            &slice,
            &by_passes,
            job.input,
            job.others,
            &mut report.agreement,
        )?;
        return Ok(());
    }
    used(rt, job, report, schedule, &slice)
}

/// The entry is used for its own input.
fn used(
    rt: &HostRuntime,
    job: &Job,
    report: &mut Report,
    schedule: &Schedule,
    slice: &Slice,
) -> Result<()> {
    let mut scratch = Scratch::new(job.alloc, &slice.precondition)?;
    report.moments.ready = Instant::now(rt)?;
    report.counts.admitted = admits(&slice.precondition, &mut scratch, job.input);
    report.moments.admitted = Instant::now(rt)?;
    guided(rt, job, report, schedule)
}

/// The guided run without its steps.
fn guided(rt: &HostRuntime, job: &Job, report: &mut Report, schedule: &Schedule) -> Result<()> {
    let run = guide(job.alloc, job.p, job.input, schedule)?;
    report.moments.guided = Instant::now(rt)?;
    report.counts.done = run.turns;
    Ok(())
}
