//! The symbolic values of results.

ghost use Rattle.std.specs.Prelude.{◌≡◌, IsTrue, length, map, IfOk};
ghost use Rattle.std.specs.List.{AllByRecursion};
ghost use Rattle.pg_run_thread.specs.Compute.{computes};
ghost use Rattle.pg_run_thread.specs.Operands.{operands_of};
ghost use Rattle.pg_slice_rules.specs.SymbolicValues.{result_of};
ghost use Rattle.pg_slice_values.specs.SymbolicNodes.{Grew, IsSymbolicNode, symbolic_by};
ghost use Rattle.pg_slice_values.specs.Forms.{CastFits};

use crate::form::{blamed, form_of, node_by};
use crate::growing::known;
use crate::pointers::moved_along;
use crate::symbolic_node::SymbolicNode;
use pg_ir::Op;
use pg_precondition::Nodes;
use std::alloc::AllocError;

/// The result of an operation that only computes, by its operands: unknown where one of them isn't known, and the first
/// such one has the blame.
///
/// # Errors
///
/// Where no memory is left for its nodes. Some of them may have been added.
pub fn operation(
    nodes: &mut Nodes,
    op: &Op,
    operands: &[SymbolicNode],
) -> Result<SymbolicNode, AllocError>
    requires computes { IsTrue (computes op.now) }
    requires cast { CastFits op.now }
    requires count { length operands.now ≡ length (operands_of op.now) }
    requires symbolic_nodes { AllByRecursion (IsSymbolicNode (length nodes.old)) operands.now }
    ensures grew { Grew nodes.old nodes.new }
    ensures is { IfOk result (IsSymbolicNode (length nodes.new)) }
    ensures value { IfOk result (λ s. symbolic_by nodes.new s ≡ result_of op.now (map (symbolic_by nodes.old) operands.now)) }
{
    if let Some(by) = blamed(operands) {
        return Ok(SymbolicNode::Unknown(by));
    }
    if let Some(form) = form_of(op) {
        return known(nodes, node_by(form, operands));
    }
    match op {
        Op::Gep { indices, .. } => {
            let word = moved_along(nodes, indices.as_slice(), operands)?;
            Ok(SymbolicNode::Known {
                value: word,
                bounds: word,
            })
        }
        _ => unreachable!(),
    }
}
