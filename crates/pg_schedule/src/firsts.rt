//! The first racing step of each instruction.

ghost use Rattle.std.specs.Prelude.{◌≡◌, ◌<◌, ◌+◌, IfOk, None, Some, length, replicate, slice_get};
ghost use Rattle.pg_schedule.specs.Firsts.{AreFirst, before_of, behind_of, is_raced};
ghost use Rattle.pg_run_trace.specs.Races as races;

use crate::pairs::instrs_in;
use pg_run_trace::{Step, StepKind, Trace};
use std::alloc::{AllocError, Global};

/// The mark with this number.
pub(crate) fn mark_at(marks: &[bool], i: usize) -> bool
    requires { i < length marks.now }
    ensures { slice_get marks.now i ≡ Some result }
{
    marks[i]
}

/// Whether the step is a load or store.
fn is_access(step: &Step) -> bool
    ensures { result ≡ races.is_access step.now.kind }
{
    matches!(&step.kind, StepKind::Access(_))
}

/// Whether the step is a load or store that races, where these marks say which steps are unordered with one
/// before them, and which with one behind them.
fn is_raced(t: &Trace, before: &[bool], behind: &[bool], i: usize) -> bool
    requires within { i < length t.now.steps }
    requires before { before.now ≡ before_of (races.timed_by races.asked t.now.steps) }
    requires behind { behind.now ≡ behind_of (races.timed_by races.asked t.now.steps) }
    ensures { result ≡ is_raced (races.timed_by races.asked t.now.steps) (slice_get (races.timed_by races.asked t.now.steps) i) }
{
    let step = t.step(i);
    let earlier = mark_at(before, i);
    let later = mark_at(behind, i);
    is_access(&step) && (earlier || later)
}

/// Notes step `i` with its instruction, if it is a load or store that races.
fn note(t: &Trace, before: &[bool], behind: &[bool], i: usize, firsts: &mut Vec<Option<usize>>)
    requires within { i < length t.now.steps }
    requires before { before.now ≡ before_of (races.timed_by races.asked t.now.steps) }
    requires behind { behind.now ≡ behind_of (races.timed_by races.asked t.now.steps) }
    requires instrs { length firsts.old.items ≡ races.instrs_in t.now.steps }
    requires firsts { AreFirst (races.timed_by races.asked t.now.steps) (i + 1) firsts.old.items }
    ensures instrs { length firsts.new.items ≡ length firsts.old.items }
    ensures firsts { AreFirst (races.timed_by races.asked t.now.steps) i firsts.new.items }
{
    if is_raced(t, before, behind, i) {
        let step = t.step(i);
        firsts[step.instr.0 as usize] = Some(i);
    }
}

/// A table of so many instructions, none of which has a racing step.
fn no_firsts(alloc: Global, count: usize) -> Result<Vec<Option<usize>>, AllocError>
    ensures { IfOk result (λ v. v.items ≡ replicate count None) }
{
    let mut firsts = Vec::with_capacity(alloc, count)?;
    for id in 0..count {
        firsts.push(None)?;
    }
    Ok(firsts)
}

/// The number of the first racing load or store of each instruction.
pub(crate) fn firsts(
    alloc: Global,
    t: &Trace,
    before: &[bool],
    behind: &[bool],
) -> Result<Vec<Option<usize>>, AllocError>
    requires before { before.now ≡ before_of (races.timed_by races.asked t.now.steps) }
    requires behind { behind.now ≡ behind_of (races.timed_by races.asked t.now.steps) }
    ensures { IfOk result (λ v. (length v.items ≡ races.instrs_in t.now.steps) × AreFirst (races.timed_by races.asked t.now.steps) 0 v.items) }
{
    let mut firsts = no_firsts(alloc, instrs_in(t) as usize)?;
    for k in 0..t.len() {
        note(t, before, behind, t.len() - 1 - k, &mut firsts);
    }
    Ok(firsts)
}
