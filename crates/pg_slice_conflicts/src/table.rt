//! The ranks of a tree's nodes.

ghost use Rattle.std.specs.Prelude.{◌≡◌, ◌*◌, ◌<◌, [], All, IfOk, Some, false, length, replicate, slice_get};
ghost use Rattle.std.specs.List.{list_any};
ghost use Rattle.pg_slice_conflicts.specs.declared.pass.Touch.{Touch as ATouch};
ghost use Rattle.pg_slice_conflicts.specs.Passes.{answers, before_by};
ghost use Rattle.pg_slice_conflicts.specs.Ranks.{AreBest, Noted};
ghost use Rattle.pg_slice_conflicts.specs.Tables.{IsTree, IsWithin, is_answered, spanned, started};
ghost use Rattle.pg_run_trace.specs.Best.{no_best};

use crate::nodes::{note_path, note_span, path_above, span_above};
use crate::pass::Touch;
use crate::tree::Tree;
use pg_run_trace::Best;
use std::alloc::{AllocError, Global};

/// A table of so many nodes without a rank.
fn no_ranks(alloc: Global, count: usize) -> Result<Vec<Best>, AllocError>
    ensures { IfOk result (λ v. v.items ≡ replicate count no_best) }
{
    let none = Best::none();
    vec![in alloc; none; count]
}

/// So many marks, none of them set.
pub(crate) fn no_marks(alloc: Global, count: usize) -> Result<Vec<bool>, AllocError>
    ensures { IfOk result (λ v. v.items ≡ replicate count false) }
{
    vec![in alloc; false; count]
}

/// By the tables, whether a touch is answered.
fn is_answered(tree: Tree, spans: &[Best], starts: &[Best], touch: &Touch) -> bool
    requires spans { length spans.now ≡ 2 * tree.leaves }
    requires starts { length starts.now ≡ 2 * tree.leaves }
    requires within { IsWithin tree touch.now }
    ensures { result ≡ is_answered tree spans.now starts.now touch.now }
{
    if touch.asks && touch.first < touch.end {
        let first = tree.leaves + touch.first;
        let end = tree.leaves + touch.end;
        path_above(spans, first, tree.levels, touch)
            || span_above(starts, first, end, tree.levels, touch)
    } else {
        false
    }
}

/// Notes a touch in the tables.
fn note(tree: Tree, spans: &mut [Best], starts: &mut [Best], touch: &Touch)
    requires spans { length spans.old ≡ 2 * tree.leaves }
    requires starts { length starts.old ≡ 2 * tree.leaves }
    requires within { IsWithin tree touch.now }
    requires best_spans { AreBest spans.old }
    requires best_starts { AreBest starts.old }
    ensures spans { Noted spans.old spans.new (spanned tree touch.now) touch.now }
    ensures starts { Noted starts.old starts.new (started tree touch.now) touch.now }
{
    if touch.gives && touch.first < touch.end {
        let first = tree.leaves + touch.first;
        let end = tree.leaves + touch.end;
        note_span(spans, first, end, tree.levels, touch);
        note_path(starts, first, tree.levels, touch);
    }
}

/// The touch with this number.
fn touch_at(touches: &[Touch], i: usize) -> Touch
    requires { i < length touches.now }
    ensures { slice_get touches.now i ≡ Some result }
{
    touches[i]
}

/// Answers the touches one after another, by tables in which nothing is noted yet.
fn answer_all(
    tree: Tree,
    spans: &mut [Best],
    starts: &mut [Best],
    touches: &[Touch],
    answered: &mut [bool],
)
    requires tree { IsTree tree }
    requires within { All (IsWithin tree) touches.now }
    requires spans { spans.old ≡ replicate (2 * tree.leaves) no_best }
    requires starts { starts.old ≡ replicate (2 * tree.leaves) no_best }
    requires answered { length answered.old ≡ length touches.now }
    ensures { answered.new ≡ before_by answers [] touches.now }
{
    for i in 0..touches.len() {
        let touch = touch_at(touches, i);
        answered[i] = is_answered(tree, spans, starts, &touch);
        note(tree, spans, starts, &touch);
    }
}

/// Whether one of the touches asks.
fn is_asked(touches: &[Touch]) -> bool
    ensures { result ≡ list_any (λ (t : ATouch). t.asks) touches.now }
{
    for i in 0..touches.len() {
        if touch_at(touches, i).asks {
            return true;
        }
    }
    false
}

/// Of each touch whether one before it answers it.
pub(crate) fn answered_before(
    alloc: Global,
    tree: Tree,
    touches: &[Touch],
) -> Result<Vec<bool>, AllocError>
    requires tree { IsTree tree }
    requires within { All (IsWithin tree) touches.now }
    ensures { IfOk result (λ v. v.items ≡ before_by answers [] touches.now) }
{
    let mut answered = no_marks(alloc, touches.len())?;
    if !is_asked(touches) {
        return Ok(answered);
    }
    let mut spans = no_ranks(alloc, 2 * tree.leaves)?;
    let mut starts = no_ranks(alloc, 2 * tree.leaves)?;
    answer_all(
        tree,
        spans.as_mut_slice(),
        starts.as_mut_slice(),
        touches,
        answered.as_mut_slice(),
    );
    Ok(answered)
}
