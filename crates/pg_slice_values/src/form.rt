//! How one node computes an operation.

ghost use Rattle.std.specs.Prelude.{◌≡◌, None, length, slice_get};
ghost use Rattle.pg_slice_values.specs.SymbolicNodes as symbolic_nodes;
ghost use Rattle.pg_slice_values.specs.Forms as forms;

use crate::symbolic_node::SymbolicNode;
use pg_ir::Op;
use pg_num::Width;
use pg_precondition::{CastKind, Node, Operation};
use pg_slice_rules::Decision;

/// How one node computes an operation of its operands.
#[derive(Clone, Copy)]
pub(crate) enum Form {
    Binary(Operation, Width),
    Cast(CastKind, Width, Width),
    Select,
}

/// The form of an operation, where one node computes it.
pub(crate) fn form_of(op: &Op) -> Option<Form>
    ensures { result ≡ forms.form_of op.now }
{
    match op {
        Op::Add { width, .. } => Some(Form::Binary(Operation::Add, *width)),
        Op::Sub { width, .. } => Some(Form::Binary(Operation::Sub, *width)),
        Op::Mul { width, .. } => Some(Form::Binary(Operation::Mul, *width)),
        Op::Divide { op, width, .. } => Some(Form::Binary(Operation::Divide(*op), *width)),
        Op::Shift { op, width, .. } => Some(Form::Binary(Operation::Shift(*op), *width)),
        Op::Bits { op, width, .. } => Some(Form::Binary(Operation::Bits(*op), *width)),
        Op::Compare { op, width, .. } => Some(Form::Binary(Operation::Compare(*op), *width)),
        Op::Trunc { from, to, .. } | Op::PtrToInt { from, to, .. } => {
            Some(Form::Cast(CastKind::Trunc, *from, *to))
        }
        Op::Zext { from, to, .. } | Op::IntToPtr { from, to, .. } => {
            Some(Form::Cast(CastKind::Zext, *from, *to))
        }
        Op::Sext { from, to, .. } => Some(Form::Cast(CastKind::Sext, *from, *to)),
        Op::Select { .. } => Some(Form::Select),
        _ => None,
    }
}

/// The first decision that is blamed where not all operands are known.
pub(crate) fn blamed(operands: &[SymbolicNode]) -> Option<Decision>
    ensures { result ≡ symbolic_nodes.blamed operands.now }
{
    for operand in operands {
        match operand {
            SymbolicNode::Known { .. } => {}
            SymbolicNode::Bounded(_, by) | SymbolicNode::Unknown(by) => return Some(*by),
        }
    }
    None
}

/// The node of an operand, 0 where there is no such operand or nothing is known of it.
pub(crate) fn node_at(operands: &[SymbolicNode], i: usize) -> u32
    ensures { result ≡ forms.node_at operands.now i }
{
    match operands.get(i) {
        Some(SymbolicNode::Known { value: node, .. } | SymbolicNode::Bounded(node, _)) => *node,
        _ => 0,
    }
}

/// The node that computes an operation of this form.
pub(crate) fn node_by(form: Form, operands: &[SymbolicNode]) -> Node
    ensures { result ≡ forms.node_by form operands.now }
{
    match form {
        Form::Binary(op, width) => Node::Op {
            op,
            width,
            left: node_at(operands, 0),
            right: node_at(operands, 1),
        },
        Form::Cast(cast, from, to) => Node::Cast {
            cast,
            from,
            to,
            of: node_at(operands, 0),
        },
        Form::Select => Node::Select {
            cond: node_at(operands, 0),
            yes: node_at(operands, 1),
            no: node_at(operands, 2),
        },
    }
}
