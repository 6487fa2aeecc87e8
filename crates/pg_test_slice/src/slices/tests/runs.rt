//! A recording is made of a program, the guided run along its schedule replayed, and its slice taken by both forms. Each
//! function takes one step of that, and hands on what it has.
ghost use Rattle.std.specs.Prelude.{◌≡◌, ◌<◌, ◌≤◌, All, true, length};
ghost use Rattle.pg_num.specs.declared.limits.TheConstants.{QUANTUM_LIMIT, RECORDING_STEP_LIMIT};
ghost use Rattle.pg_ir.specs.declared.ids.InstrId.{InstrId as AnInstrId};
ghost use Rattle.pg_region_accesses.specs.Accesses.{is_gated, summary_of};
ghost use Rattle.pg_region_summaries.specs.Summaries.{AreSummaries};
ghost use Rattle.pg_slice_replay.specs.Kept.{step_count};
ghost use Rattle.pg_law_reference.specs.Sliceable.{CanBeSliced};
ghost use Rattle.pg_slice_passes.specs.Given.{AreGiven, AreSteps, EdgesStand};

use crate::slices::tests::checks::{
    check_admitted, check_free, check_inputs, check_missing, check_runs, check_same, check_slice,
};
use crate::slices::tests::row::{Ask, Row};
use pg_ir::{InstrId, Program};
use pg_law_reference::laws::replays_have_edges;
use pg_num::limits::RECORDING_STEP_LIMIT;
use pg_region_accesses::Summary;
use pg_region_summaries::summaries;
use pg_run::rotate_into;
use pg_run_trace::{Race, Schedule, Trace};
use pg_schedule::{Turns, hybrid, intervals, races};
use pg_session_entry::follow_to_exit;
use pg_slice::slice;
use pg_slice_decisions::DecisionSet;
use pg_slice_passes::{GivenRun, Slice, pass_over, slice_by_passes, take_new};
use pg_slice_replay::{ReferenceRun, reference};
use pg_test_samples::{Parts, build};
use std::alloc::Global;
use std::process::Abort;
use std::test::Fail;

/// A program, and what is worked out of its recording.
#[derive(Clone, Copy)]
struct Job<'a> {
    alloc: Global,
    p: &'a Program,
    row: &'a Row,
}

/// Of the program of these parts all is as it is worked out.
pub(crate) fn check(rt: &impl Abort, alloc: Global, parts: &Parts, row: &Row) -> Result<(), Fail>
    requires least { 1 ≤ row.now.quantum }
    requires most { row.now.quantum ≤ QUANTUM_LIMIT }
{
    let p = build(alloc, parts)?;
    let job = Job { alloc, p: &p, row };
    recorded(rt, &job)
}

/// The run by rotation is recorded.
fn recorded(rt: &impl Abort, job: &Job) -> Result<(), Fail>
    requires least { 1 ≤ job.now.row.now.quantum }
    requires most { job.now.row.now.quantum ≤ QUANTUM_LIMIT }
{
    let mut trace = Trace::with_room(job.alloc, RECORDING_STEP_LIMIT as usize)?;
    let _ended = rotate_into(job.alloc, job.p, job.row.input, job.row.quantum, &mut trace)?;
    raced(rt, job, &mut trace)
}

fn raced(rt: &impl Abort, job: &Job, trace: &mut Trace) -> Result<(), Fail>
    requires room { trace.old.room ≡ RECORDING_STEP_LIMIT }
{
    let races = races(job.alloc, trace)?;
    scheduled(rt, job, trace, races.as_slice())
}

fn scheduled(rt: &impl Abort, job: &Job, trace: &mut Trace, races: &[Race]) -> Result<(), Fail>
    requires room { trace.old.room ≡ RECORDING_STEP_LIMIT }
{
    let schedule = hybrid(job.alloc, trace, races)?;
    followed(rt, job, trace, &schedule)
}

/// The guided run along the schedule is followed to its exit.
fn followed(rt: &impl Abort, job: &Job, trace: &mut Trace, schedule: &Schedule) -> Result<(), Fail>
    requires room { trace.old.room ≡ RECORDING_STEP_LIMIT }
{
    match follow_to_exit(job.alloc, job.p, job.row.input, schedule, trace) {
        Ok(()) => gated(rt, job, trace, schedule),
        Err(_) => Err("no exit".into()),
    }
}

/// Whether these loads and stores are instructions of the program.
fn are_instructions(p: &Program, gated: &[InstrId]) -> bool
    ensures { result ≡ true → All (λ (g : AnInstrId). g.0 < length p.now.instrs) gated.now }
{
    for i in 0..gated.len() {
        if gated[i].0 >= p.instr_count() {
            return false;
        }
    }
    true
}

fn gated(rt: &impl Abort, job: &Job, t: &Trace, schedule: &Schedule) -> Result<(), Fail>
    requires can { CanBeSliced job.now.p.now job.now.row.now.input.now schedule.now.gated t.now.steps }
{
    if !are_instructions(job.p, schedule.gated.as_slice()) {
        return Err("a turn at no instruction".into());
    }
    summed(rt, job, t, schedule)
}

/// The functions that are quiet are found.
fn summed(rt: &impl Abort, job: &Job, t: &Trace, schedule: &Schedule) -> Result<(), Fail>
    requires gated { All (λ (g : AnInstrId). g.0 < length job.now.p.now.instrs) schedule.now.gated }
    requires can { CanBeSliced job.now.p.now job.now.row.now.input.now schedule.now.gated t.now.steps }
{
    let sums = summaries(job.alloc, job.p, schedule.gated.as_slice())?;
    replayed(rt, job, t, schedule, sums.as_slice())
}

fn replayed(
    rt: &impl Abort,
    job: &Job,
    t: &Trace,
    schedule: &Schedule,
    sums: &[Option<Summary>],
) -> Result<(), Fail>
    requires gated { All (λ (g : AnInstrId). g.0 < length job.now.p.now.instrs) schedule.now.gated }
    requires can { CanBeSliced job.now.p.now job.now.row.now.input.now schedule.now.gated t.now.steps }
    requires sums { AreSummaries job.now.p.now (is_gated schedule.now.gated) (summary_of sums.now) }
{
    job.p.facts();
    replays_have_edges();
    let gated = schedule.gated.as_slice();
    let replay = reference(job.alloc, job.p, job.row.input, t, gated, sums)?;
    timed(rt, job, t, schedule, &replay)
}

/// The interval of each step is found.
fn timed(
    rt: &impl Abort,
    job: &Job,
    t: &Trace,
    schedule: &Schedule,
    r: &ReferenceRun,
) -> Result<(), Fail>
    requires edges { EdgesStand job.now.p.now r.now }
    requires steps { AreSteps job.now.p.now t.now.steps }
    requires count { step_count r.now ≡ length t.now.steps }
    requires few { length t.now.steps < 4294967296 }
{
    check_free(rt, r, job.row.free);
    let intervals = intervals(job.alloc, t, Turns::Recorded)?;
    let run = GivenRun {
        p: job.p,
        t,
        intervals: intervals.as_slice(),
        r,
    };
    sliced(rt, job, schedule, &run)
}

fn sliced(rt: &impl Abort, job: &Job, schedule: &Schedule, run: &GivenRun) -> Result<(), Fail>
    requires { AreGiven run.now.p.now run.now.t.now.steps run.now.intervals.now run.now.r.now }
{
    passed(rt, job, run)?;
    by_passes(rt, job, schedule, run)
}

/// Of each pass what it misses.
fn passed(rt: &impl Abort, job: &Job, run: &GivenRun) -> Result<(), Fail>
    requires { AreGiven run.now.p.now run.now.t.now.steps run.now.intervals.now run.now.r.now }
{
    for i in 0..job.row.passes.len() {
        asked(rt, job, run, &job.row.passes[i])?;
    }
    Ok(())
}

/// With these decisions taken a pass misses those.
fn asked(rt: &impl Abort, job: &Job, run: &GivenRun, ask: &Ask) -> Result<(), Fail>
    requires { AreGiven run.now.p.now run.now.t.now.steps run.now.intervals.now run.now.r.now }
{
    let steps = run.t.len();
    let mut d = DecisionSet::none(job.alloc, steps)?;
    take_new(&mut d, steps, ask.taken);
    let passed = pass_over(job.alloc, run, &d)?;
    check_missing(rt, passed.missing.as_slice(), ask);
    Ok(())
}

fn by_passes(rt: &impl Abort, job: &Job, schedule: &Schedule, run: &GivenRun) -> Result<(), Fail>
    requires { AreGiven run.now.p.now run.now.t.now.steps run.now.intervals.now run.now.r.now }
{
    let slice = slice_by_passes(job.alloc, run)?;
    check_slice(rt, &slice, job.row);
    at_once(rt, job, schedule, run, &slice)
}

/// The other form gives the same slice.
fn at_once(
    rt: &impl Abort,
    job: &Job,
    schedule: &Schedule,
    run: &GivenRun,
    by_passes: &Slice,
) -> Result<(), Fail>
    requires { AreGiven run.now.p.now run.now.t.now.steps run.now.intervals.now run.now.r.now }
{
    let slice = slice(job.alloc, run)?;
    check_slice(rt, &slice, job.row);
    check_same(rt, &slice.precondition, &by_passes.precondition);
    used(rt, job, schedule, &slice)
}

/// The slice admits what it should.
fn used(rt: &impl Abort, job: &Job, schedule: &Schedule, slice: &Slice) -> Result<(), Fail> {
    check_inputs(rt, job.alloc, &slice.precondition, job.row.admitted, true)?;
    check_inputs(rt, job.alloc, &slice.precondition, job.row.others, false)?;
    check_admitted(rt, job.alloc, &slice.precondition, job.row.runs)?;
    check_runs(rt, job.alloc, job.p, schedule, job.row.runs)
}
