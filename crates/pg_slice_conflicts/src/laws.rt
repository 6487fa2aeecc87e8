//! Laws of trees.

ghost use Rattle.pg_slice_conflicts.specs.Laws.{PathsMeetSpans};

/// Of a tree with twice as many nodes at each level, from a leaf up one meets a node that spans a range of leaves just where
/// the leaf lies in the range.
pub fn paths_meet_spans()
    ensures { PathsMeetSpans }
{}
