//! The text of `conditions`.

ghost use Rattle.std.specs.Prelude.{◌≡◌, ◌<◌, ◌+◌, IfOk, OnOk, length};

use pg_num::{Bits, Compare, Division, Shift, Width};
use pg_precondition::{CastKind, Check, Node, Nodes, Operation, Precondition, Test};
use pg_session_texts::conditions_text;
use std::alloc::{AllocError, Global};
use std::test::Fail;

/// Adds an operation on the first two nodes.
fn add(nodes: &mut Nodes, op: Operation, width: Width) -> Result<(), AllocError>
    requires { 1 < length nodes.old }
    ensures { OnOk result (length nodes.new ≡ length nodes.old + 1) }
{
    nodes.push(Node::Op {
        op,
        width,
        left: 0,
        right: 1,
    })?;
    Ok(())
}

/// Three nodes: a number, how many numbers the input has, and one of its numbers.
fn three(alloc: Global) -> Result<Nodes, AllocError>
    ensures { IfOk result (λ nodes. length nodes ≡ 3) }
{
    let mut nodes = Nodes::new(alloc);
    nodes.push(Node::Const(18446744073709551615))?;
    nodes.push(Node::InLen)?;
    nodes.push(Node::In(1))?;
    Ok(nodes)
}

/// Each operation but the comparisons.
fn add_numbers(nodes: &mut Nodes) -> Result<(), AllocError>
    requires { length nodes.old ≡ 3 }
    ensures { OnOk result (length nodes.new ≡ 16) }
{
    add(nodes, Operation::Add, Width::W64)?;
    add(nodes, Operation::Sub, Width::W32)?;
    add(nodes, Operation::Mul, Width::W16)?;
    add(nodes, Operation::Divide(Division::Udiv), Width::W8)?;
    add(nodes, Operation::Divide(Division::Sdiv), Width::W1)?;
    add(nodes, Operation::Divide(Division::Urem), Width::W64)?;
    add(nodes, Operation::Divide(Division::Srem), Width::W64)?;
    add(nodes, Operation::Shift(Shift::Shl), Width::W64)?;
    add(nodes, Operation::Shift(Shift::Lshr), Width::W64)?;
    add(nodes, Operation::Shift(Shift::Ashr), Width::W64)?;
    add(nodes, Operation::Bits(Bits::And), Width::W64)?;
    add(nodes, Operation::Bits(Bits::Or), Width::W64)?;
    add(nodes, Operation::Bits(Bits::Xor), Width::W64)
}

/// Each comparison.
fn add_comparisons(nodes: &mut Nodes) -> Result<(), AllocError>
    requires { length nodes.old ≡ 16 }
    ensures { OnOk result (length nodes.new ≡ 26) }
{
    add(nodes, Operation::Compare(Compare::Eq), Width::W64)?;
    add(nodes, Operation::Compare(Compare::Ne), Width::W64)?;
    add(nodes, Operation::Compare(Compare::Ugt), Width::W64)?;
    add(nodes, Operation::Compare(Compare::Uge), Width::W64)?;
    add(nodes, Operation::Compare(Compare::Ult), Width::W64)?;
    add(nodes, Operation::Compare(Compare::Ule), Width::W64)?;
    add(nodes, Operation::Compare(Compare::Sgt), Width::W32)?;
    add(nodes, Operation::Compare(Compare::Sge), Width::W32)?;
    add(nodes, Operation::Compare(Compare::Slt), Width::W32)?;
    add(nodes, Operation::Compare(Compare::Sle), Width::W32)
}

/// Each change of a width.
fn add_casts(nodes: &mut Nodes) -> Result<(), AllocError>
    requires { length nodes.old ≡ 26 }
    ensures { OnOk result (length nodes.new ≡ 29) }
{
    nodes.push(Node::Cast {
        cast: CastKind::Trunc,
        from: Width::W64,
        to: Width::W8,
        of: 0,
    })?;
    nodes.push(Node::Cast {
        cast: CastKind::Zext,
        from: Width::W8,
        to: Width::W32,
        of: 26,
    })?;
    nodes.push(Node::Cast {
        cast: CastKind::Sext,
        from: Width::W1,
        to: Width::W16,
        of: 16,
    })?;
    Ok(())
}

/// A choice, a moved pointer, a byte, and bytes joined.
fn add_others(nodes: &mut Nodes) -> Result<(), AllocError>
    requires { length nodes.old ≡ 29 }
    ensures { OnOk result (length nodes.new ≡ 34) }
{
    nodes.push(Node::Select {
        cond: 16,
        yes: 0,
        no: 2,
    })?;
    nodes.push(Node::Gep { base: 0, delta: 2 })?;
    nodes.push(Node::Byte { of: 30, at: 7 })?;
    nodes.push(Node::Join {
        parts: [31, 0, 0, 0, 0, 0, 0, 0],
        count: 1,
    })?;
    nodes.push(Node::Join {
        parts: [31, 26, 31, 0, 1, 2, 3, 4],
        count: 8,
    })?;
    Ok(())
}

/// One node of each sort.
fn each(alloc: Global) -> Result<Nodes, AllocError>
    ensures { IfOk result (λ nodes. length nodes ≡ 34) }
{
    let mut nodes = three(alloc)?;
    add_numbers(&mut nodes)?;
    add_comparisons(&mut nodes)?;
    add_casts(&mut nodes)?;
    add_others(&mut nodes)?;
    Ok(nodes)
}

const TEXT: &str = concat!(
    "recorded 0\n",
    "value 0 = const 18446744073709551615\n",
    "value 1 = length\n",
    "value 2 = input 1\n",
    "value 3 = add i64 0 1\n",
    "value 4 = sub i32 0 1\n",
    "value 5 = mul i16 0 1\n",
    "value 6 = udiv i8 0 1\n",
    "value 7 = sdiv i1 0 1\n",
    "value 8 = urem i64 0 1\n",
    "value 9 = srem i64 0 1\n",
    "value 10 = shl i64 0 1\n",
    "value 11 = lshr i64 0 1\n",
    "value 12 = ashr i64 0 1\n",
    "value 13 = and i64 0 1\n",
    "value 14 = or i64 0 1\n",
    "value 15 = xor i64 0 1\n",
    "value 16 = icmp eq i64 0 1\n",
    "value 17 = icmp ne i64 0 1\n",
    "value 18 = icmp ugt i64 0 1\n",
    "value 19 = icmp uge i64 0 1\n",
    "value 20 = icmp ult i64 0 1\n",
    "value 21 = icmp ule i64 0 1\n",
    "value 22 = icmp sgt i32 0 1\n",
    "value 23 = icmp sge i32 0 1\n",
    "value 24 = icmp slt i32 0 1\n",
    "value 25 = icmp sle i32 0 1\n",
    "value 26 = trunc i64 0 to i8\n",
    "value 27 = zext i8 26 to i32\n",
    "value 28 = sext i1 16 to i16\n",
    "value 29 = select 16 0 2\n",
    "value 30 = move 0 2\n",
    "value 31 = byte 7 30\n",
    "value 32 = join 31\n",
    "value 33 = join 31 26 31 0 1 2 3 4\n",
    "check 3 is 0\n",
    "check 0 isn't 18446744073709551615\n",
    "check 30 has 9 16\n",
    "check 3 is 12\n",
);

#[test]
fn conditions_of_each_sort(rt: HostRuntime) -> Result<(), Fail> {
    let mut precondition = Precondition::new(rt.alloc(), each(rt.alloc())?);
    precondition.push(Check {
        node: 3,
        test: Test::Eq(0),
    })?;
    precondition.push(Check {
        node: 0,
        test: Test::Ne(18446744073709551615),
    })?;
    precondition.push(Check {
        node: 30,
        test: Test::Bounds(9, 16),
    })?;
    precondition.push(Check {
        node: 3,
        test: Test::Eq(12),
    })?;
    let text = conditions_text(rt.alloc(), &precondition)?;
    assert_eq!(rt; text.as_slice(), TEXT.as_bytes());
    Ok(())
}

#[test]
fn no_conditions(rt: HostRuntime) -> Result<(), Fail> {
    let precondition = Precondition::new(rt.alloc(), Nodes::new(rt.alloc()));
    let text = conditions_text(rt.alloc(), &precondition)?;
    assert_eq!(rt; text.as_slice(), b"recorded 0\n".as_slice());
    Ok(())
}
