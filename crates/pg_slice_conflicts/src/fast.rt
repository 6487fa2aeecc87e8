//! Which footprints conflict, by trees of ranks.

ghost use Rattle.std.specs.Prelude.{◌≡◌, ◌≤◌, ◌||◌, [], All, IfOk, OnOk, false, length, map, replicate};
ghost use Rattle.pg_slice_conflicts.specs.Joined.{or_each};
ghost use Rattle.pg_slice_conflicts.specs.Meets.{InOrder, is_met};
ghost use Rattle.pg_slice_conflicts.specs.Passes.{answers_along, answers_in, before_by, pass_of};
ghost use Rattle.pg_slice_conflicts.specs.Tables.{IsTree};
ghost use Rattle.pg_slice_conflicts.specs.declared.places.Placed.{Placed as APlaced};

use crate::footprint::Footprint;
use crate::merged::{answers_at, merge};
use crate::pass::Pass;
use crate::places::{Placed, place_all, starts};
use crate::table::{answered_before, no_marks};
use crate::tree::{Tree, tree_over};
use pg_num::either;
use std::alloc::{AllocError, Global};

/// Sets each mark that is set in the other list.
fn join(marks: &mut [bool], others: &[bool])
    requires { length marks.old ≡ length others.now }
    ensures { marks.new ≡ or_each marks.old others.now }
{
    for i in 0..others.len() {
        marks[i] = either(marks[i], others[i]);
    }
}

/// The pass of a direction in which those ask that write as this says and are of regions as this says.
fn pass_of(backward: bool, writes: bool, of_region: bool) -> Pass
    ensures { result ≡ pass_of backward writes of_region }
{
    Pass {
        backward,
        writes,
        of_region,
    }
}

/// Sets the marks of the footprints that are answered in this pass.
fn mark_pass(
    alloc: Global,
    tree: Tree,
    placed: &[Placed],
    pass: Pass,
    marks: &mut [bool],
) -> Result<(), AllocError>
    requires tree { IsTree tree }
    requires within { All (λ (z : APlaced). z.end ≤ tree.leaves) placed.now }
    requires marks { length marks.old ≡ length placed.now }
    ensures { OnOk result (marks.new ≡ or_each marks.old (before_by (answers_in pass) [] placed.now)) }
{
    let touches = pass.touches(alloc, placed)?;
    let answered = answered_before(alloc, tree, touches.as_slice())?;
    join(marks, answered.as_slice());
    Ok(())
}

/// Sets the marks of the footprints that one before them answers in a pass of this direction.
fn mark_along(
    alloc: Global,
    tree: Tree,
    placed: &[Placed],
    backward: bool,
    marks: &mut [bool],
) -> Result<(), AllocError>
    requires tree { IsTree tree }
    requires within { All (λ (z : APlaced). z.end ≤ tree.leaves) placed.now }
    requires marks { marks.old ≡ replicate (length placed.now) false }
    ensures { OnOk result (marks.new ≡ before_by (answers_along backward) [] placed.now) }
{
    mark_pass(alloc, tree, placed, pass_of(backward, false, false), marks)?;
    mark_pass(alloc, tree, placed, pass_of(backward, false, true), marks)?;
    mark_pass(alloc, tree, placed, pass_of(backward, true, false), marks)?;
    mark_pass(alloc, tree, placed, pass_of(backward, true, true), marks)?;
    Ok(())
}

/// Of each footprint whether one before it answers it in a pass of this direction.
fn answered_along(
    alloc: Global,
    tree: Tree,
    placed: &[Placed],
    backward: bool,
) -> Result<Vec<bool>, AllocError>
    requires tree { IsTree tree }
    requires within { All (λ (z : APlaced). z.end ≤ tree.leaves) placed.now }
    ensures { IfOk result (λ v. v.items ≡ before_by (answers_along backward) [] placed.now) }
{
    let mut marks = no_marks(alloc, placed.len())?;
    mark_along(alloc, tree, placed, backward, marks.as_mut_slice())?;
    Ok(marks)
}

/// Of each footprint whether it conflicts with one that it minds, by the passes over all of them.
fn conflicts_of_all(alloc: Global, footprints: &[Footprint]) -> Result<Vec<bool>, AllocError>
    requires { InOrder footprints.now }
    ensures { IfOk result (λ v. v.items ≡ map (is_met footprints.now) footprints.now) }
{
    let bytes = starts(alloc, footprints)?;
    let tree = tree_over(bytes.len())?;
    let mut placed = place_all(alloc, bytes.as_slice(), footprints)?;
    let mut met = answered_along(alloc, tree, placed.as_slice(), false)?;
    placed.reverse();
    let mut behind = answered_along(alloc, tree, placed.as_slice(), true)?;
    behind.reverse();
    join(met.as_mut_slice(), behind.as_slice());
    Ok(met)
}

/// Of each footprint whether it conflicts with one that it minds, in a time that is near-linear in the footprints.
///
/// # Errors
///
/// Where no memory is left for the answers or for the tables.
pub fn conflicts(alloc: Global, footprints: &[Footprint]) -> Result<Vec<bool>, AllocError>
    requires { InOrder footprints.now }
    ensures { IfOk result (λ v. v.items ≡ map (is_met footprints.now) footprints.now) }
{
    let merged = merge(alloc, footprints)?;
    let met = conflicts_of_all(alloc, merged.kept.as_slice())?;
    // In two lines for the proof: see docs/CONTRIBUTING.md.
    let answers = answers_at(alloc, met.as_slice(), merged.numbers.as_slice())?;
    Ok(answers)
}
