//! A precondition with two nodes that its check doesn't need.

ghost use Rattle.std.specs.Prelude.{◌≡◌, IfOk, length};

use pg_num::Width;
use pg_precondition::{Check, Node, Nodes, Operation, Precondition, Test, needed};
use std::alloc::{AllocError, Global};
use std::test::Fail;

/// Five nodes: a sum of how many numbers the input has and three, and two others.
fn five(alloc: Global) -> Result<Nodes, AllocError>
    ensures { IfOk result (λ v. length v ≡ 5) }
{
    let mut nodes = Nodes::new(alloc);
    nodes.push(Node::Const(3))?;
    nodes.push(Node::Const(4))?;
    nodes.push(Node::InLen)?;
    nodes.push(Node::Op {
        op: Operation::Add,
        width: Width::W64,
        left: 2,
        right: 0,
    })?;
    nodes.push(Node::Byte { of: 1, at: 0 })?;
    Ok(nodes)
}

#[test]
fn two_nodes_are_left_out(rt: HostRuntime) -> Result<(), Fail> {
    let mut c = Precondition::new(rt.alloc(), five(rt.alloc())?);
    c.push(Check {
        node: 3,
        test: Test::Eq(5),
    })?;
    let r = needed(rt.alloc(), &c)?;
    assert_eq!(rt; r.nodes().len(), 3);
    assert_eq!(rt; r.nodes().node(0), Node::Const(3));
    assert_eq!(rt; r.nodes().node(1), Node::InLen);
    assert_eq!(rt;
        r.nodes().node(2),
        Node::Op {
            op: Operation::Add,
            width: Width::W64,
            left: 1,
            right: 0,
        }
    );
    assert_eq!(rt;
        r.checks(),
        [Check {
            node: 2,
            test: Test::Eq(5),
        }]
        .as_slice()
    );
    Ok(())
}
