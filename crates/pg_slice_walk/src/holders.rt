//! The extents in which the steps of a run stand.
ghost use Rattle.std.specs.Prelude.{◌≡◌, ◌<◌, ◌≤◌, ◌+◌, ◌==◌, ℕ, ℤ, List, [], not, IfOk, IfSome, OnOk, Some};
ghost use Rattle.std.specs.Prelude.{filter, length, replicate, slice_get, slice_index_or, slice_set};
ghost use Rattle.pg_ir.specs.Program.{NumberedProgram};
ghost use Rattle.pg_ir.specs.declared.ids.InstrId.{InstrId};
ghost use Rattle.pg_slice_rules.specs.Extents as extents;
ghost use Rattle.pg_slice_rules.specs.Extents.{Extent};
ghost use Rattle.pg_slice_rules.specs.Freeable.{Regions};
ghost use Rattle.pg_slice_rules.specs.Known.{Reference};
ghost use Rattle.pg_slice_rules.specs.Moments.{Moment, thread_in};
ghost use Rattle.pg_slice_back.specs.pg_law_least.Keeps.{AreStacked, ExtentsKeep};
ghost use Rattle.pg_slice_back.specs.pg_slice_replay.Kept.{landmark_at, step_count};
ghost use Rattle.pg_slice_back.specs.pg_slice_passes.Given.{HasLandmarks, reference_of};
ghost use Rattle.pg_slice_walk.specs.Chains.{AreHeld, AreOlder, Holds, IsHeld, IsNoted, begun_by};

use pg_run_trace::Trace;
use pg_slice_back::pg_slice_replay::ReferenceRun;
use std::alloc::{AllocError, Global};

/// The number behind that of the branch step of the innermost extent that is open before a step; 0 where none is.
pub fn holder_at(holders: &[u32], number: usize) -> u32
    ensures { result ≡ slice_index_or holders.now number 0 }
{
    match holders.get(number) {
        Some(holder) => *holder,
        None => 0,
    }
}

/// Whether a number is there, and is this one.
fn is_this(number: Option<u32>, this: u32) -> bool
    ensures { (k : ℕ) → number ≡ Some k → result ≡ (k == this) }
{
    match number {
        Some(k) => k == this,
        None => false,
    }
}

/// Whether the extent of a branch step ends where a thread with so many calls enters a block.
fn ends(reference: &ReferenceRun, b: usize, depth: u32, block: u32) -> bool
    ensures { (x : Extent) → x.step ≡ b → IsNoted reference.now x → result ≡ extents.ends depth (Some block) x }
{
    reference.depth(b) == depth && is_this(reference.join(b), block)
}

/// The innermost extent that is left open, from one on, where a thread with so many calls enters a block.
fn left_at(reference: &ReferenceRun, holders: &[u32], inner: u32, depth: u32, block: u32) -> u32
    requires { AreOlder holders.now }
    ensures older { result ≤ inner }
    ensures left { (es : List Extent) → AreStacked depth (Some block) es → IsHeld reference.now holders.now inner es
        → IsHeld reference.now holders.now result (filter (λ (e : Extent). not (extents.ends depth (Some block) e)) es) }
{
    let mut left = inner;
    while left != 0 && ends(reference, left as usize - 1, depth, block) {
        left = holder_at(holders, left as usize - 1);
    }
    left
}

/// The innermost extent that a step leaves open, from one on, by the edge that it takes, if it takes one.
fn left_open(
    reference: &ReferenceRun,
    holders: &[u32],
    inner: u32,
    depth: u32,
    edge: Option<u32>,
) -> u32
    requires { AreOlder holders.now }
    ensures older { result ≤ inner }
    ensures left { (es : List Extent) → AreStacked depth edge es → IsHeld reference.now holders.now inner es
        → IsHeld reference.now holders.now result (filter (λ (e : Extent). not (extents.ends depth edge e)) es) }
{
    match edge {
        Some(block) => left_at(reference, holders, inner, depth, block),
        None => inner,
    }
}

/// The innermost extent that is open behind the beginning of a step, by the one before it.
fn begun(reference: &ReferenceRun, number: usize, before: u32) -> u32
    requires few { number < 4294967295 }
    requires number { number < step_count reference.now }
    ensures first { IfSome (landmark_at reference.now number) (λ l. result ≡ begun_by l.region number before) }
    ensures older { before ≤ number → result ≤ number + 1 }
{
    if reference.is_free(number) {
        number as u32 + 1
    } else {
        before
    }
}

/// Sets the innermost extent of a thread.
fn set_top(tops: &mut Vec<u32>, thread: usize, top: u32)
    requires { thread < length tops.old.items }
    ensures { tops.new.items ≡ slice_set tops.old.items thread top }
{
    tops[thread] = top;
}

/// No extents: none of each thread.
fn no_tops(alloc: Global) -> Result<Vec<u32>, AllocError>
    ensures { IfOk result (λ v. v.items ≡ replicate 256 0) }
{
    vec![in alloc; 0_u32; 256]
}

/// No steps so far.
fn no_holders(alloc: Global) -> Vec<u32>
    ensures { result.items ≡ [] }
{
    Vec::new(alloc)
}

/// Notes the innermost extent that is open before step n of a thread, and which it leaves open.
fn hold(
    reference: &ReferenceRun,
    thread: usize,
    number: usize,
    holders: &mut Vec<u32>,
    tops: &mut Vec<u32>,
) -> Result<(), AllocError>
    requires thread { thread < length tops.old.items }
    requires few { number < 4294967295 }
    requires number { number < step_count reference.now }
    requires long { length holders.old.items ≡ number }
    requires older { AreOlder holders.old.items }
    requires begun { (u : ℕ) → slice_index_or tops.old.items u 0 ≤ number }
    ensures tops { OnOk result (length tops.new.items ≡ length tops.old.items) }
    ensures long { OnOk result (length holders.new.items ≡ number + 1) }
    ensures older { OnOk result (AreOlder holders.new.items) }
    ensures begun { OnOk result ((u : ℕ) → slice_index_or tops.new.items u 0 ≤ number + 1) }
    ensures held { OnOk result ((R : Reference) (m : Moment) → HasLandmarks R reference.now → ExtentsKeep R → slice_get R.moments number ≡ Some m → thread_in m ≡ thread
        → AreHeld R reference.now number holders.old.items tops.old.items → AreHeld R reference.now (number + 1) holders.new.items tops.new.items) }
{
    let before = holder_at(tops.as_slice(), thread);
    holders.push(before)?;
    let inner = begun(reference, number, before);
    let left = left_open(
        reference,
        holders.as_slice(),
        inner,
        reference.depth(number),
        reference.edge(number),
    );
    set_top(tops, thread, left);
    Ok(())
}

/// Of each step the number behind that of the branch step of the innermost extent that is open before it; 0 where none is.
///
/// # Errors
///
/// Where no memory is left.
pub fn holders(
    alloc: Global,
    trace: &Trace,
    reference: &ReferenceRun,
) -> Result<Vec<u32>, AllocError>
    requires count { step_count reference.now ≡ length trace.now.steps }
    requires few { length trace.now.steps < 4294967296 }
    ensures older { IfOk result (λ v. AreOlder v.items) }
    ensures holds { IfOk result (λ v. (p : NumberedProgram) (regions : Regions) (gated : List InstrId) (input : List ℤ)
        → HasLandmarks (reference_of p regions gated input trace.now.steps) reference.now
        → ExtentsKeep (reference_of p regions gated input trace.now.steps) → Holds (reference_of p regions gated input trace.now.steps) reference.now v.items) }
{
    let mut tops = no_tops(alloc)?;
    let mut holders = no_holders(alloc);
    for n in 0..trace.len() {
        hold(
            reference,
            trace.step(n).thread.0 as usize,
            n,
            &mut holders,
            &mut tops,
        )?;
    }
    Ok(holders)
}
