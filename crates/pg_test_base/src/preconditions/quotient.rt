//! A quotient by the input's first number, which must be 10.

use pg_num::{Division, Width};
use pg_precondition::{Check, Node, Nodes, Operation, Precondition, Scratch, Test, admits};
use std::alloc::{AllocError, Global};
use std::test::Fail;

/// A hundred, divided by the input's first number.
fn quotient(alloc: Global) -> Result<Precondition, AllocError> {
    let mut nodes = Nodes::new(alloc);
    let index = nodes.push(Node::Const(0))?;
    let divisor = nodes.push(Node::In(index))?;
    let dividend = nodes.push(Node::Const(100))?;
    let node = nodes.push(Node::Op {
        op: Operation::Divide(Division::Sdiv),
        width: Width::W64,
        left: dividend,
        right: divisor,
    })?;
    let mut precondition = Precondition::new(alloc, nodes);
    precondition.push(Check {
        node,
        test: Test::Eq(10),
    })?;
    Ok(precondition)
}

#[test]
fn a_quotient_is_checked(rt: HostRuntime) -> Result<(), Fail> {
    let precondition = quotient(rt.alloc())?;
    let mut scratch = Scratch::new(rt.alloc(), &precondition)?;
    assert_eq!(rt; admits(&precondition, &mut scratch, &[10]), true);
    assert_eq!(rt; admits(&precondition, &mut scratch, &[11]), false);
    assert_eq!(rt; admits(&precondition, &mut scratch, &[0]), false);
    assert_eq!(rt; admits(&precondition, &mut scratch, &[]), false);
    assert_eq!(rt; admits(&precondition, &mut scratch, &[10, 0]), true);
    Ok(())
}
