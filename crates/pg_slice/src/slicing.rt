//! The slice of a reference run, with what a walk back finds first.

ghost use Rattle.std.specs.Prelude.{◌<◌, ◌≤◌, length, IfOk, OnOk};
ghost use Rattle.pg_slice_decisions.specs.Steps.{AreOf, left_by, taken_by};
ghost use Rattle.pg_slice_walk.specs.pg_slice_passes.Given.{AreGiven};
ghost use Rattle.pg_slice_walk.specs.pg_slice_passes.Sliced.{IsSliceOf};
ghost use Rattle.pg_slice_walk.specs.Chains.{AreOlder};
ghost use Rattle.pg_slice_walk.specs.Walks.{Widens};

use crate::spread::spread_over;
use pg_slice_decisions::DecisionSet;
use pg_slice_walk::holders::holders;
use pg_slice_walk::pg_slice_back::{Counts, register_counts};
use pg_slice_walk::pg_slice_passes::{GivenRun, Slice, pass_over, sliced, take_new};
use pg_slice_walk::{Walk, widen};
use std::alloc::{AllocError, Global};

/// Takes decisions that each closed set above the present ones has: those for which what has to be known along the run asks.
fn take_demanded(
    alloc: Global,
    run: &GivenRun,
    holders: &[u32],
    counts: &[Counts],
    decisions: &mut DecisionSet,
) -> Result<(), AllocError>
    requires given { AreGiven run.now.p.now run.now.t.now.steps run.now.intervals.now run.now.r.now }
    requires older { AreOlder holders.now }
    requires size { AreOf (length run.now.t.now.steps) decisions.old }
    ensures size { OnOk result (AreOf (length run.now.t.now.steps) decisions.new) }
    ensures left { OnOk result (left_by decisions.new ≤ left_by decisions.old) }
    ensures widens { OnOk result (Widens run.now.p.now run.now.r.now holders.now counts.now run.now.t.now.steps (taken_by decisions.old) (taken_by decisions.new)) }
{
    let walk = Walk {
        program: run.p,
        trace: run.t,
        reference: run.r,
        holders,
        counts,
    };
    widen(alloc, &walk, decisions)
}

/// Takes decisions that each closed set above the present ones has: those for which the live steps ask by what they are and by
/// their bounds, and then those for which what has to be known along the run asks.
fn take_found(
    alloc: Global,
    run: &GivenRun,
    holders: &[u32],
    counts: &[Counts],
    decisions: &mut DecisionSet,
) -> Result<(), AllocError>
    requires given { AreGiven run.now.p.now run.now.t.now.steps run.now.intervals.now run.now.r.now }
    requires older { AreOlder holders.now }
    requires size { AreOf (length run.now.t.now.steps) decisions.old }
    ensures size { OnOk result (AreOf (length run.now.t.now.steps) decisions.new) }
    ensures left { OnOk result (left_by decisions.new ≤ left_by decisions.old) }
    ensures widens { OnOk result (Widens run.now.p.now run.now.r.now holders.now counts.now run.now.t.now.steps (taken_by decisions.old) (taken_by decisions.new)) }
{
    spread_over(alloc, run, holders, decisions)?;
    take_demanded(alloc, run, holders, counts, decisions)?;
    Ok(())
}

/// The slice of a reference run, and what an input must give so that it serves: from no decisions on, what is found by
/// the bounds of live steps and by a walk from its end back is taken in, and what a pass misses then, until nothing is missing
/// that isn't taken.
///
/// # Errors
///
/// Where no memory is left.
pub fn slice(alloc: Global, run: &GivenRun) -> Result<Slice, AllocError>
    requires given { AreGiven run.now.p.now run.now.t.now.steps run.now.intervals.now run.now.r.now }
    ensures { IfOk result (IsSliceOf run.now.p.now run.now.t.now.steps run.now.r.now) }
{
    let steps = run.t.len();
    let held = holders(alloc, run.t, run.r)?;
    let counted = register_counts(alloc, run.p, run.t)?;
    let inner = held.as_slice();
    let counts = counted.as_slice();
    let mut decisions = DecisionSet::none(alloc, steps)?;
    loop {
        take_found(alloc, run, inner, counts, &mut decisions)?;
        let passed = pass_over(alloc, run, &decisions)?;
        let missing = passed.missing.as_slice();
        if !take_new(&mut decisions, steps, missing) {
            return sliced(alloc, &decisions, passed.precondition);
        }
    }
}
