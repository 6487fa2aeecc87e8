//! Marks at the nodes that checks need.

ghost use Rattle.std.specs.Prelude.{◌≡◌, ◌<◌, ◌≤◌, ◌∷◌, [], ℕ, IfOk, IfSome, Some, false, length, map, replicate, slice_get, take};
ghost use Rattle.pg_precondition.specs.Nodes.{IsNode, NamesParts};
ghost use Rattle.pg_precondition.specs.declared.check.Check.{Check as ACheck};
ghost use Rattle.pg_precondition.specs.Marks.{AreMarks, Marked, is_set, names_if, node_of};
ghost use Rattle.pg_precondition.specs.Names.{names_of};

use crate::check::Check;
use crate::node::Node;
use crate::nodes::Nodes;
use crate::precondition::Precondition;
use std::alloc::{AllocError, Global};

/// Marks a node.
fn mark(marks: &mut [bool], node: u32)
    requires { node < length marks.old }
    ensures { Marked marks.old marks.new (node ∷ []) }
{
    marks[node as usize] = true;
}

/// Marks two nodes.
fn mark_both(marks: &mut [bool], first: u32, second: u32)
    requires first { first < length marks.old }
    requires second { second < length marks.old }
    ensures { Marked marks.old marks.new (first ∷ second ∷ []) }
{
    mark(marks, first);
    mark(marks, second);
}

/// Marks three nodes.
fn mark_three(marks: &mut [bool], first: u32, second: u32, third: u32)
    requires first { first < length marks.old }
    requires second { second < length marks.old }
    requires third { third < length marks.old }
    ensures { Marked marks.old marks.new (first ∷ second ∷ third ∷ []) }
{
    mark(marks, first);
    mark_both(marks, second, third);
}

/// Marks the first of these nodes.
fn mark_parts(marks: &mut [bool], parts: &[u32], count: u8)
    requires within { count ≤ length parts.now }
    requires names { NamesParts (length marks.old) parts.now count }
    ensures { Marked marks.old marks.new (take count parts.now) }
{
    for i in 0..count {
        mark(marks, parts[i as usize]);
    }
}

/// Marks the nodes that a node names.
fn mark_names(marks: &mut [bool], node: Node)
    requires { IsNode (length marks.old) node }
    ensures { Marked marks.old marks.new (names_of node) }
{
    match node {
        Node::Const(_) | Node::InLen => {}
        Node::In(of) => mark(marks, of),
        Node::Op { left, right, .. } => mark_both(marks, left, right),
        Node::Cast { of, .. } => mark(marks, of),
        Node::Select { cond, yes, no } => mark_three(marks, cond, yes, no),
        Node::Gep { base, delta } => mark_both(marks, base, delta),
        Node::Byte { of, .. } => mark(marks, of),
        Node::Join { parts, count } => mark_parts(marks, &parts, count),
    }
}

/// Marks the nodes that the checks name.
fn mark_checks(marks: &mut [bool], checks: &[Check])
    requires { (i : ℕ) → IfSome (slice_get checks.now i) (λ (k : ACheck). k.node < length marks.old) }
    ensures { Marked marks.old marks.new (map node_of checks.now) }
{
    for i in 0..checks.len() {
        mark(marks, check_at(checks, i).node);
    }
}

/// The check with this number.
pub(crate) fn check_at(checks: &[Check], i: usize) -> Check
    requires { i < length checks.now }
    ensures { slice_get checks.now i ≡ Some result }
{
    checks[i]
}

/// So many marks, none of them set.
fn no_marks(alloc: Global, count: usize) -> Result<Vec<bool>, AllocError>
    ensures { IfOk result (λ v. v.items ≡ replicate count false) }
{
    vec![in alloc; false; count]
}

/// Whether the mark of a node is set.
pub(crate) fn is_set(marks: &[bool], node: u32) -> bool
    requires { node < length marks.now }
    ensures { result ≡ is_set marks.now node }
{
    marks[node as usize]
}

/// Marks the nodes that a node names, if it is marked itself.
fn mark_from(marks: &mut [bool], nodes: &Nodes, i: u32)
    requires as_many { length marks.old ≡ length nodes.now }
    requires within { i < length nodes.now }
    ensures { Marked marks.old marks.new (names_if (is_set marks.old i) (slice_get nodes.now i)) }
{
    if is_set(marks, i) {
        mark_names(marks, nodes.node(i));
    }
}

/// Marks the nodes that marked nodes name, from the last to the first.
fn mark_all(marks: &mut [bool], c: &Precondition)
    requires { AreMarks c.now marks.old (length c.now.nodes) }
    ensures { AreMarks c.now marks.new 0 }
{
    let nodes = c.nodes();
    let count = nodes.len();
    for k in 0..count {
        mark_from(marks, nodes, count - 1 - k);
    }
}

/// Marks the nodes that the checks need, where none is marked yet.
fn mark_needed(marks: &mut [bool], c: &Precondition)
    requires { marks.old ≡ replicate (length c.now.nodes) false }
    ensures { AreMarks c.now marks.new 0 }
{
    mark_checks(marks, c.checks());
    mark_all(marks, c);
}

/// Marks of just the nodes that the checks need.
pub(crate) fn marks_of(alloc: Global, c: &Precondition) -> Result<Vec<bool>, AllocError>
    ensures { IfOk result (λ v. AreMarks c.now v.items 0) }
{
    let mut marks = no_marks(alloc, c.nodes().len() as usize)?;
    mark_needed(marks.as_mut_slice(), c);
    Ok(marks)
}
