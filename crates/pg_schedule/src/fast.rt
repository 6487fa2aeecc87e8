//! The races of a trace, by tables of the accesses of each byte.

ghost use Rattle.std.specs.Prelude.{◌≡◌, ◌<◌, ◌==◌, not, IfOk, None, get_or, length};
ghost use Rattle.std.specs.List.{list_all};
ghost use Rattle.pg_schedule.specs.Intervals.{intervals_of};
ghost use Rattle.pg_schedule.specs.declared.interval.Turns.TheVariants as turns;
ghost use Rattle.pg_schedule.specs.Firsts.{AreFirst};
ghost use Rattle.pg_schedule.specs.Links.{AreListed, accesses_byte, numbers_of};
ghost use Rattle.pg_run_trace.specs.declared.step.Step.{Step as AStep};
ghost use Rattle.pg_run_trace.specs.Races as defs;

use crate::answered::{answered_before, answered_behind};
use crate::firsts::firsts;
use crate::interval::{Interval, Turns, intervals};
use crate::links::{Links, links_of};
use crate::pairs::instrs_in;
use crate::partners::race_linked;
use crate::touching::{Pass, touches};
use pg_ir::{InstrId, ThreadNo};
use pg_run_trace::{Race, Step, Trace};
use std::alloc::{AllocError, Global};

/// Whether the step is another thread's.
fn is_of_another(step: &Step, thread: ThreadNo) -> bool
    ensures { result ≡ not (step.now.thread.0 == thread.0) }
{
    step.thread.0 != thread.0
}

/// Whether each step is this thread's.
fn is_of_thread(t: &Trace, thread: ThreadNo) -> bool
    ensures { result ≡ list_all (λ (x : AStep). x.thread.0 == thread.0) t.now.steps }
{
    for i in 0..t.len() {
        if is_of_another(&t.step(i), thread) {
            return false;
        }
    }
    true
}

/// What the table has of this instruction.
fn first_of(firsts: &[Option<usize>], id: InstrId) -> Option<usize>
    requires { id.0 < length firsts.now }
    ensures { result ≡ get_or firsts.now id.0 None }
{
    firsts[id.0 as usize]
}

/// The races of a trace with these first racing steps.
fn races_from(
    alloc: Global,
    t: &Trace,
    intervals: &[Interval],
    links: &Links,
    firsts: &[Option<usize>],
) -> Result<Vec<Race>, AllocError>
    requires links { AreListed (length t.now.steps) links.now (λ b. numbers_of (accesses_byte b) 0 t.now.steps) }
    requires intervals { intervals.now ≡ intervals_of turns.Asked t.now.steps }
    requires instrs { length firsts.now ≡ defs.instrs_in t.now.steps }
    requires firsts { AreFirst (defs.timed_by defs.asked t.now.steps) 0 firsts.now }
    ensures { IfOk result (λ v. v.items ≡ defs.races_of t.now.steps) }
{
    let mut races = Vec::new(alloc);
    for id in 0..instrs_in(t) {
        let id = InstrId(id as u32);
        let first = first_of(firsts, id);
        if let Some(race) = race_linked(t, intervals, links, id, first) {
            races.push(race)?;
        }
    }
    Ok(races)
}

/// The first racing load or store of each instruction.
fn first_steps(
    alloc: Global,
    t: &Trace,
    intervals: &[Interval],
) -> Result<Vec<Option<usize>>, AllocError>
    requires intervals { intervals.now ≡ intervals_of turns.Asked t.now.steps }
    ensures { IfOk result (λ v. (length v.items ≡ defs.instrs_in t.now.steps) × AreFirst (defs.timed_by defs.asked t.now.steps) 0 v.items) }
{
    let forward = touches(alloc, t, intervals, Pass::Forward)?;
    let before = answered_before(alloc, forward.as_slice())?;
    let backward = touches(alloc, t, intervals, Pass::Backward)?;
    let behind = answered_behind(alloc, backward.as_slice())?;
    firsts(alloc, t, before.as_slice(), behind.as_slice())
}

/// The races of a trace, by tables of the accesses of each byte: ascending by instruction, for each load or
/// store with a racing step the first such step and the first that races with it.
///
/// # Errors
///
/// Where no memory is left for them or for the tables.
pub fn races(alloc: Global, t: &Trace) -> Result<Vec<Race>, AllocError>
    ensures { IfOk result (λ v. v.items ≡ defs.races_of t.now.steps) }
{
    if is_of_thread(t, ThreadNo(0)) {
        return Ok(Vec::new(alloc));
    }
    let intervals = intervals(alloc, t, Turns::Asked)?;
    let firsts = first_steps(alloc, t, intervals.as_slice())?;
    let links = links_of(alloc, t)?;
    races_from(alloc, t, intervals.as_slice(), &links, firsts.as_slice())
}
