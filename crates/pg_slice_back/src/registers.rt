//! How many registers the calls of a run's steps have, and how many threads there are.

ghost use Rattle.std.specs.Prelude.{◌≡◌, ◌+◌, suc, ℤ, List, [], Some, IfOk, OnOk, length, slice_get};
ghost use Rattle.pg_ir.specs.declared.ids.InstrId.{InstrId};
ghost use Rattle.pg_slice_rules.specs.Freeable.{Regions};
ghost use Rattle.pg_slice_rules.specs.Known.{Reference, SymbolicState};
ghost use Rattle.pg_slice_rules.specs.Moments.{Moment, instr_in};
ghost use Rattle.pg_law_least.specs.Keeps.{ExtentsKeep, every};
ghost use Rattle.pg_law_demands.specs.Along.{known_at};
ghost use Rattle.pg_slice_passes.specs.Given.{AreSteps, reference_of};
ghost use Rattle.pg_slice_back.specs.Counted.{AreCounted, AreCountedTo, AreCountsOf};
ghost use Rattle.pg_slice_back.specs.Stacks.{AreStacks};

use crate::counts::Calls;
use pg_ir::{Instr, Program};
use pg_run_trace::{Step, Trace};
use std::alloc::{AllocError, Global};

/// How many registers the present call of a step's thread has before it, and the call under that, 0 where there is none; and how
/// many threads there are.
#[derive(Clone, Copy)]
pub struct Counts {
    pub present: usize,
    pub under: usize,
    pub threads: usize,
}

/// The counts before a step.
fn counts_at(calls: &Calls, step: &Step) -> Counts
    ensures { (s : SymbolicState) → AreStacks calls.now s → AreCountsOf s step.now.thread.0 result }
{
    let thread = step.thread.0 as usize;
    Counts {
        present: calls.count(thread),
        under: calls.under(thread),
        threads: calls.threads(),
    }
}

/// Adds the counts before a step, and goes over it.
fn count_step(
    program: &Program,
    instr: &Instr,
    step: &Step,
    calls: &mut Calls,
    counts: &mut Vec<Counts>,
) -> Result<(), AllocError>
    ensures long { OnOk result (length counts.new.items ≡ length counts.old.items + 1) }
    ensures counted { OnOk result ((R : Reference) (m : Moment) → ExtentsKeep R → R.program ≡ program.now → instr_in R.program m ≡ Some instr.now → m.did.did ≡ step.now
        → slice_get R.moments (length counts.old.items) ≡ Some m → AreStacks calls.old (known_at R every (length counts.old.items))
        → AreCountedTo R (length counts.old.items) counts.old.items
        → AreStacks calls.new (known_at R every (suc (length counts.old.items))) × AreCountedTo R (suc (length counts.old.items)) counts.new.items) }
{
    counts.push(counts_at(calls, step))?;
    calls.pass(program, instr, step)?;
    Ok(())
}

/// No counts so far.
fn no_counts(alloc: Global) -> Vec<Counts>
    ensures { result.items ≡ [] }
{
    Vec::new(alloc)
}

/// The counts before each step of a run.
///
/// # Errors
///
/// Where no memory is left.
pub fn register_counts(
    alloc: Global,
    program: &Program,
    trace: &Trace,
) -> Result<Vec<Counts>, AllocError>
    requires steps { AreSteps program.now trace.now.steps }
    ensures count { IfOk result (λ v. length v.items ≡ length trace.now.steps) }
    ensures counted { IfOk result (λ v. (regions : Regions) (gated : List InstrId) (input : List ℤ) → ExtentsKeep (reference_of program.now regions gated input trace.now.steps)
        → AreCounted (reference_of program.now regions gated input trace.now.steps) v.items) }
{
    let mut calls = Calls::start(alloc, program)?;
    let mut counts = no_counts(alloc);
    for n in 0..trace.len() {
        let step = trace.step(n);
        count_step(
            program,
            program.instr(step.instr),
            &step,
            &mut calls,
            &mut counts,
        )?;
    }
    Ok(counts)
}
