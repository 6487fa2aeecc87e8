//! The nodes of a tree that a touch meets.

ghost use Rattle.std.specs.Prelude.{◌≡◌, ◌<◌, ◌≤◌, ◌∷◌, [], length};
ghost use Rattle.pg_slice_conflicts.specs.Nodes.{ends, only_if, path, span};
ghost use Rattle.pg_slice_conflicts.specs.Ranks.{AreBest, Noted, any_above, has_above};

use crate::pass::Touch;
use pg_run_trace::Best;

/// Notes the touch's rank at a node.
fn note_at(table: &mut [Best], node: usize, touch: &Touch)
    requires within { node < length table.old }
    requires best { AreBest table.old }
    ensures { Noted table.old table.new (node ∷ []) touch.now }
{
    table[node] = table[node].with(touch.thread, touch.rank);
}

/// Notes it there in this case.
fn note_if(table: &mut [Best], is: bool, node: usize, touch: &Touch)
    requires within { node < length table.old }
    requires best { AreBest table.old }
    ensures { Noted table.old table.new (only_if is node) touch.now }
{
    if is {
        note_at(table, node, touch);
    }
}

/// Notes it at the ends of the nodes from `low` to before `high`.
fn note_ends(table: &mut [Best], low: usize, high: usize, touch: &Touch)
    requires within { high ≤ length table.old }
    requires best { AreBest table.old }
    ensures { Noted table.old table.new (ends low high) touch.now }
{
    if low < high {
        note_if(table, low % 2 == 1, low, touch);
        note_if(table, high % 2 == 1, high - 1, touch);
    }
}

/// Notes it at so many nodes from a leaf up.
pub(crate) fn note_path(table: &mut [Best], leaf: usize, count: usize, touch: &Touch)
    requires within { leaf < length table.old }
    requires best { AreBest table.old }
    ensures { Noted table.old table.new (path count leaf) touch.now }
{
    let mut node = leaf;
    for level in 0..count {
        note_at(table, node, touch);
        node /= 2;
    }
}

/// Notes it at the nodes that span the leaves from `first` to before `end`, in so many levels.
pub(crate) fn note_span(table: &mut [Best], first: usize, end: usize, count: usize, touch: &Touch)
    requires within { end ≤ length table.old }
    requires best { AreBest table.old }
    ensures { Noted table.old table.new (span count first end) touch.now }
{
    let mut low = first;
    let mut high = end;
    for level in 0..count {
        note_ends(table, low, high, touch);
        low = low / 2 + low % 2;
        high /= 2;
    }
}

/// Whether a node has a rank of another thread above the one that the touch needs.
fn has_above(table: &[Best], node: usize, touch: &Touch) -> bool
    requires { node < length table.now }
    ensures { result ≡ has_above table.now node touch.now.thread.0 touch.now.need }
{
    touch.need < table[node].other(touch.thread)
}

/// Whether one of the ends of the nodes from `low` to before `high` has one.
fn ends_above(table: &[Best], low: usize, high: usize, touch: &Touch) -> bool
    requires { high ≤ length table.now }
    ensures { result ≡ any_above table.now touch.now (ends low high) }
{
    low < high
        && ((low % 2 == 1 && has_above(table, low, touch))
            || (high % 2 == 1 && has_above(table, high - 1, touch)))
}

/// Whether one of so many nodes from a leaf up has one.
pub(crate) fn path_above(table: &[Best], leaf: usize, count: usize, touch: &Touch) -> bool
    requires { leaf < length table.now }
    ensures { result ≡ any_above table.now touch.now (path count leaf) }
{
    let mut node = leaf;
    for level in 0..count {
        if has_above(table, node, touch) {
            return true;
        }
        node /= 2;
    }
    false
}

/// Whether one of the nodes that span the leaves from `first` to before `end` has one.
pub(crate) fn span_above(
    table: &[Best],
    first: usize,
    end: usize,
    count: usize,
    touch: &Touch,
) -> bool
    requires { end ≤ length table.now }
    ensures { result ≡ any_above table.now touch.now (span count first end) }
{
    let mut low = first;
    let mut high = end;
    for level in 0..count {
        if ends_above(table, low, high, touch) {
            return true;
        }
        low = low / 2 + low % 2;
        high /= 2;
    }
    false
}
