//! Compares what comes of a recording with what is worked out of it.
ghost use Rattle.std.specs.Prelude.{◌≤◌, length};

use crate::slices::tests::row::{Ask, Guided, Row};
use pg_ir::Program;
use pg_precondition::{Check, Node, Nodes, Precondition, Scratch, Test, admits};
use pg_run::guide;
use pg_run_trace::Schedule;
use pg_slice_passes::Slice;
use pg_slice_replay::ReferenceRun;
use pg_slice_rules::Decision;
use std::alloc::Global;
use std::process::Abort;
use std::test::Fail;

/// The steps at free branches are those of the row.
pub(crate) fn check_free(rt: &impl Abort, r: &ReferenceRun, free: &[(usize, u32)]) {
    assert_eq!(rt; free_count(r), free.len());
    for (n, join) in free {
        assert!(rt; r.is_free(*n));
        assert_eq!(rt; r.join(*n), Some(*join));
    }
}

/// How many steps of a run are at free branches.
fn free_count(r: &ReferenceRun) -> usize {
    let mut count: usize = 0;
    for n in 0..r.len() {
        if r.is_free(n) {
            count = count.wrapping_add(1);
        }
    }
    count
}

/// A slice is that of the row.
pub(crate) fn check_slice(rt: &impl Abort, s: &Slice, row: &Row) {
    assert_eq!(rt; s.decisions.pinned.as_slice(), row.pinned);
    assert_eq!(rt; s.decisions.exact.as_slice(), row.exact);
    check_tests(rt, s.precondition.checks(), row);
    assert_eq!(rt; read_count(s.precondition.nodes()), row.reads);
}

/// The test with this number, if there are so many.
fn test_at(checks: &[Check], i: usize) -> Option<Test> {
    match checks.get(i) {
        Some(check) => Some(check.test),
        None => None,
    }
}

fn check_tests(rt: &impl Abort, checks: &[Check], row: &Row) {
    assert_eq!(rt; checks.len(), row.checks);
    for i in 0..row.tests.len() {
        assert_eq!(rt; test_at(checks, i), Some(row.tests[i]), "check {i}");
    }
}

/// Whether a node reads the input.
fn is_read(node: Node) -> bool {
    matches!(node, Node::In(_) | Node::InLen)
}

/// How many of the nodes read the input.
fn read_count(nodes: &Nodes) -> usize {
    let mut count: usize = 0;
    for i in 0..nodes.len() {
        if is_read(nodes.node(i)) {
            count = count.wrapping_add(1);
        }
    }
    count
}

/// The node with this number, if there are so many.
fn node_at(nodes: &Nodes, i: u32) -> Option<Node> {
    if i < nodes.len() {
        Some(nodes.node(i))
    } else {
        None
    }
}

/// Two preconditions have the same nodes and the same checks.
pub(crate) fn check_same(rt: &impl Abort, one: &Precondition, other: &Precondition) {
    assert!(rt; one.checks() == other.checks());
    assert_eq!(rt; one.nodes().len(), other.nodes().len());
    for i in 0..one.nodes().len() {
        assert_eq!(rt; node_at(one.nodes(), i), node_at(other.nodes(), i));
    }
}

/// Each of these inputs meets a precondition, or none of them does.
fn check_each(
    rt: &impl Abort,
    c: &Precondition,
    scratch: &mut Scratch,
    inputs: &[&[i64]],
    wanted: bool,
)
    requires { length c.now.nodes ≤ scratch.old.room }
{
    for i in 0..inputs.len() {
        let admitted = admits(c, scratch, inputs[i]);
        assert_eq!(rt; admitted, wanted, "input {i}");
    }
}

/// And so with room for the numbers of its nodes.
pub(crate) fn check_inputs(
    rt: &impl Abort,
    alloc: Global,
    c: &Precondition,
    inputs: &[&[i64]],
    wanted: bool,
) -> Result<(), Fail> {
    let mut scratch = Scratch::new(alloc, c)?;
    check_each(rt, c, &mut scratch, inputs, wanted);
    Ok(())
}

/// The missing decisions are the wanted ones.
pub(crate) fn check_missing(rt: &impl Abort, missing: &[Decision], ask: &Ask) {
    for x in ask.missing {
        assert!(rt; missing.contains(x));
    }
    for x in missing {
        assert!(rt; ask.missing.contains(x));
    }
}

/// The guided run on an input along a schedule is the wanted one.
fn check_run(
    rt: &impl Abort,
    alloc: Global,
    p: &Program,
    s: &Schedule,
    wanted: &Guided,
) -> Result<(), Fail> {
    let run = guide(alloc, p, wanted.input, s)?;
    assert_eq!(rt; run.output.as_slice(), wanted.output);
    assert_eq!(rt; run.end, wanted.end);
    assert_eq!(rt; run.turns, wanted.turns);
    Ok(())
}

/// The guided runs along a schedule are the wanted ones.
pub(crate) fn check_runs(
    rt: &impl Abort,
    alloc: Global,
    p: &Program,
    s: &Schedule,
    runs: &[Guided],
) -> Result<(), Fail> {
    for i in 0..runs.len() {
        check_run(rt, alloc, p, s, &runs[i])?;
    }
    Ok(())
}

/// Their inputs are admitted or not as it is wanted.
pub(crate) fn check_admitted(
    rt: &impl Abort,
    alloc: Global,
    c: &Precondition,
    runs: &[Guided],
) -> Result<(), Fail> {
    for i in 0..runs.len() {
        check_inputs(rt, alloc, c, &[runs[i].input], runs[i].admitted)?;
    }
    Ok(())
}
