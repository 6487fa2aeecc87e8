//! The values of a line and what it asks of types, where calls count.

ghost use Rattle.std.specs.Prelude.{◌≡◌, ◌++◌, Some, IfOk};
ghost use Rattle.std.specs.List.{flat_map};
ghost use Rattle.pg_read_ast.specs.Views.{op_of};
ghost use Rattle.pg_check_rules.specs.Earliest.{earliest};
ghost use Rattle.pg_check_rules.specs.TypeConditions.{unmet};
ghost use Rattle.pg_check_rules.specs.ValueConditions.{Scope};
ghost use Rattle.pg_check_rules.specs.CallConditions.{call_demands, value_operands};
ghost use Rattle.pg_check_rules.specs.Written.{op_demands};
ghost use Rattle.pg_check_calls.specs.pg_check_values.Scopes.{IsLineScope};
ghost use Rattle.pg_check_calls.specs.Threads.{left_out};
ghost use Rattle.pg_check_lines.specs.Uses.{uses_of};

use pg_check_calls::pg_check_values::LineScope;
use pg_check_calls::{call_demands, thread_argument};
use pg_check_lines::{UseNode, op_demands, operands_of_line};
use pg_check_rules::earlier;
use pg_read_ast::OpNode;
use pg_read_lex::Span;
use std::alloc::AllocError;

/// Leaves out the value at a place, if there are so many.
#[tactic(auto, using(crate::proofs::LeftOut::left_one, crate::proofs::LeftOut::left_none))]
fn leave_out(all: &mut Vec<UseNode<'_>>, place: usize)
    ensures { uses_of all.new.items ≡ left_out (Some place) (uses_of all.old.items) }
{
    if place < all.len() {
        let _left = all.remove(place);
    }
}

/// Leaves out the value at a place, if one is given.
fn leave_out_if(all: &mut Vec<UseNode<'_>>, place: Option<usize>)
    ensures { uses_of all.new.items ≡ left_out place (uses_of all.old.items) }
{
    match place {
        Some(place) => leave_out(all, place),
        None => (),
    }
}

/// The operands of an instruction that are judged as values: without the function with which a thread begins.
pub(crate) fn value_operands<'a>(
    scope: &LineScope<'_>,
    op: &'a OpNode,
) -> Result<Vec<UseNode<'a>>, AllocError>
    ensures { (g : Scope) → IsLineScope scope.now g → IfOk result (λ v. uses_of v.items ≡ value_operands g (op_of op.now)) }
{
    let mut all = operands_of_line(scope.values.alloc, op)?;
    let place = thread_argument(scope, op);
    leave_out_if(&mut all, place);
    Ok(all)
}

/// The earliest type that isn't what an instruction asks by itself, or as a call.
pub(crate) fn unmet_demands(scope: &LineScope<'_>, op: &OpNode) -> Result<Option<Span>, AllocError>
    ensures place { (g : Scope) → IsLineScope scope.now g →
        IfOk result (λ o. o ≡ earliest (flat_map (unmet g.tree.types) (op_demands g.tree.types g.result (op_of op.now) ++ call_demands g (op_of op.now)))) }
{
    let own = op_demands(scope.values.types, scope.result, op)?;
    let arguments = call_demands(scope, op)?;
    Ok(earlier(own, arguments))
}
