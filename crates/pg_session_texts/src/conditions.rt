//! What `conditions` writes of a line of input that is recorded.

ghost use Rattle.std.specs.Prelude.{◌≡◌, ◌++◌, IfOk, OnOk, codes, string_bytes};
ghost use Rattle.pg_precondition.specs.declared.node.Node.TheVariants as node;
ghost use Rattle.pg_session_texts.specs.ConditionTexts.{HasFewParts, bits_text, cast_text, check_line, check_lines, compare_text, conditions_text, division_text, node_text, numbers_text, operation_text, shift_text, value_line, value_lines};

use crate::reply::{ReplyKind, reply_line};
use pg_ir::pg_num::{Bits, Compare, Division, Shift, Width};
use pg_precondition::{CastKind, Check, Node, Nodes, Operation, Precondition, Test};
use std::alloc::{AllocError, Global};

fn division_word(division: Division) -> &'static str
    ensures { result.now ≡ division_text division }
{
    match division {
        Division::Udiv => "udiv",
        Division::Sdiv => "sdiv",
        Division::Urem => "urem",
        Division::Srem => "srem",
    }
}

fn shift_word(shift: Shift) -> &'static str
    ensures { result.now ≡ shift_text shift }
{
    match shift {
        Shift::Shl => "shl",
        Shift::Lshr => "lshr",
        Shift::Ashr => "ashr",
    }
}

fn bits_word(bits: Bits) -> &'static str
    ensures { result.now ≡ bits_text bits }
{
    match bits {
        Bits::And => "and",
        Bits::Or => "or",
        Bits::Xor => "xor",
    }
}

fn compare_word(compare: Compare) -> &'static str
    ensures { result.now ≡ compare_text compare }
{
    match compare {
        Compare::Eq => "icmp eq",
        Compare::Ne => "icmp ne",
        Compare::Ugt => "icmp ugt",
        Compare::Uge => "icmp uge",
        Compare::Ult => "icmp ult",
        Compare::Ule => "icmp ule",
        Compare::Sgt => "icmp sgt",
        Compare::Sge => "icmp sge",
        Compare::Slt => "icmp slt",
        Compare::Sle => "icmp sle",
    }
}

fn operation_word(operation: Operation) -> &'static str
    ensures { result.now ≡ operation_text operation }
{
    match operation {
        Operation::Add => "add",
        Operation::Sub => "sub",
        Operation::Mul => "mul",
        Operation::Divide(division) => division_word(division),
        Operation::Shift(shift) => shift_word(shift),
        Operation::Bits(bits) => bits_word(bits),
        Operation::Compare(compare) => compare_word(compare),
    }
}

fn cast_word(cast: CastKind) -> &'static str
    ensures { result.now ≡ cast_text cast }
{
    match cast {
        CastKind::Trunc => "trunc",
        CastKind::Zext => "zext",
        CastKind::Sext => "sext",
    }
}

/// An operation on two nodes.
fn operation_text(
    alloc: Global,
    operation: Operation,
    width: Width,
    left: u32,
    right: u32,
) -> Result<String, AllocError>
    ensures { IfOk result (λ text. string_bytes text ≡ node_text (node.Op operation width left right)) }
{
    let word = operation_word(operation);
    let bits = width.bits();
    format!(in alloc; "{word} i{bits} {left} {right}")
}

/// A change of a node's width.
fn cast_text(
    alloc: Global,
    cast: CastKind,
    from: Width,
    to: Width,
    of: u32,
) -> Result<String, AllocError>
    ensures { IfOk result (λ text. string_bytes text ≡ node_text (node.Cast cast from to of)) }
{
    let word = cast_word(cast);
    let from = from.bits();
    let to = to.bits();
    format!(in alloc; "{word} i{from} {of} to i{to}")
}

/// The nodes whose numbers are bytes of a join.
fn join_text(alloc: Global, parts: &[u32]) -> Result<String, AllocError>
    ensures { IfOk result (λ text. string_bytes text ≡ codes "join" ++ numbers_text parts.now) }
{
    let mut text = String::from_str(alloc, "join")?;
    for part in parts {
        let number = *part;
        let word = format!(in alloc; " {number}")?;
        text.push_str(word.as_str())?;
    }
    Ok(text)
}

/// How a node's number is computed.
fn node_text(alloc: Global, node: Node) -> Result<String, AllocError>
    requires { HasFewParts node }
    ensures { IfOk result (λ text. string_bytes text ≡ node_text node) }
{
    match node {
        Node::Const(number) => format!(in alloc; "const {number}"),
        Node::In(at) => format!(in alloc; "input {at}"),
        Node::InLen => format!(in alloc; "length"),
        Node::Op {
            op,
            width,
            left,
            right,
        } => operation_text(alloc, op, width, left, right),
        Node::Cast { cast, from, to, of } => cast_text(alloc, cast, from, to, of),
        Node::Select { cond, yes, no } => format!(in alloc; "select {cond} {yes} {no}"),
        Node::Gep { base, delta } => format!(in alloc; "move {base} {delta}"),
        Node::Byte { of, at } => format!(in alloc; "byte {at} {of}"),
        Node::Join { parts, count } => join_text(alloc, &parts[..count as usize]),
    }
}

/// The line of the node that has this number.
fn value_line(alloc: Global, place: u32, node: Node) -> Result<String, AllocError>
    requires { HasFewParts node }
    ensures { IfOk result (λ line. string_bytes line ≡ value_line place node) }
{
    let text = node_text(alloc, node)?;
    format!(in alloc; "value {place} = {text}\n")
}

#[tactic(auto, using(crate::proofs::NodeLists::few_parts, crate::proofs::NodeLists::next_lines))]
/// Writes a line for each node.
fn add_values(alloc: Global, text: &mut Vec<u8>, nodes: &Nodes) -> Result<(), AllocError>
    ensures { OnOk result (text.new.items ≡ text.old.items ++ value_lines 0 nodes.now) }
{
    for i in 0..nodes.len() {
        let line = value_line(alloc, i, nodes.node(i))?;
        text.extend_from_slice(line.as_bytes())?;
    }
    Ok(())
}

/// The line of a check.
fn check_line(alloc: Global, check: Check) -> Result<String, AllocError>
    ensures { IfOk result (λ line. string_bytes line ≡ check_line check) }
{
    let node = check.node;
    match check.test {
        Test::Eq(number) => format!(in alloc; "check {node} is {number}\n"),
        Test::Ne(number) => format!(in alloc; "check {node} isn't {number}\n"),
        Test::Bounds(start, length) => format!(in alloc; "check {node} has {start} {length}\n"),
    }
}

/// Writes a line for each check.
fn add_checks(alloc: Global, text: &mut Vec<u8>, checks: &[Check]) -> Result<(), AllocError>
    ensures { OnOk result (text.new.items ≡ text.old.items ++ check_lines checks.now) }
{
    for check in checks {
        let line = check_line(alloc, *check)?;
        text.extend_from_slice(line.as_bytes())?;
    }
    Ok(())
}

/// The text of `conditions` for a recorded line of input: its reply's line; a line `value N = TEXT` for each node of the
/// precondition, numbered from 0; and a line for each check, `check N is C`, `check N isn't C`, or `check N has START LENGTH`,
/// where the node's number is the word of a pointer whose bounds begin at this granule and hold so many bytes. TEXT is
/// `const C`, `input V`, `length`, `OP iW V V` (OP an operation or `icmp` with its predicate), `CAST iW V to iW`,
/// `select V V V`, `move V V`, `byte AT V`, or `join V ..`, where each V is a node's number and C a number without a sign.
pub fn conditions_text(alloc: Global, precondition: &Precondition) -> Result<Vec<u8>, AllocError>
    ensures { IfOk result (λ text. text.items ≡ conditions_text precondition.now) }
{
    let line = reply_line(alloc, ReplyKind::Recorded(0))?;
    let mut text = line.into_bytes();
    add_values(alloc, &mut text, precondition.nodes())?;
    add_checks(alloc, &mut text, precondition.checks())?;
    Ok(text)
}
