//! What a line is refused for.

ghost use Rattle.std.specs.Prelude.{◌≡◌, IfOk};
ghost use Rattle.std.specs.List.{flat_map};
ghost use Rattle.pg_read_ast.specs.Views.{line_of, op_of};
ghost use Rattle.pg_check_types.specs.NumberedTypes.{named_types};
ghost use Rattle.pg_check_rules.specs.Nodes.{tys_behind};
ghost use Rattle.pg_check_rules.specs.Written.{types_within};
ghost use Rattle.pg_check_rules.specs.ValueConditions.{Scope};
ghost use Rattle.pg_check_rules.specs.CallConditions.{value_operands};
ghost use Rattle.pg_check_rules.specs.LineConditions.{line_types, line_refused};
ghost use Rattle.pg_check_rules.specs.TypeConditions.{any_large};
ghost use Rattle.pg_check_rules.specs.Earliest.{earliest, IsFirstIn};
ghost use Rattle.pg_check_calls.specs.pg_check_values.Scopes.{IsLineScope};
ghost use Rattle.pg_check_lines.specs.Uses.{uses_of};
ghost use Rattle.pg_check_bodies.specs.Lines.{unknown_in_line, unsupported_in_line, wrong_otherwise, wrong_in_line};

use crate::line_parts::{unmet_demands, value_operands};
use pg_check_calls::pg_check_values::LineScope;
use pg_check_calls::{
    unknown_callee, unknown_thread, unsupported_callee, unsupported_thread, wrong_call,
    wrong_thread,
};
use pg_check_lines::{
    UseNode, equal_cases, function_uses, missing_labels, types_of_line, unknown_uses, wrong_name,
    wrong_path, wrong_return, wrong_uses,
};
use pg_check_rules::{
    CheckKind, CheckRefusal, all_within, any_large, earlier, earlier_refusal, name_or_type_refusal,
    refusal_at, unknown_types, wrong_types,
};
use pg_check_types::TypeNumbers;
use pg_read_ast::{LineNode, OpNode, TypeNode};
use pg_read_lex::Span;
use std::alloc::{AllocError, Global};

/// The types that a line writes, and those within them.
fn types_in_line<'a>(alloc: Global, op: &'a OpNode) -> Result<Vec<&'a TypeNode>, AllocError>
    ensures { IfOk result (λ v. tys_behind v.items ≡ flat_map types_within (line_types (op_of op.now))) }
{
    let written = types_of_line(alloc, op)?;
    all_within(alloc, written.as_slice())
}

/// The earliest name in a line that nothing has: of a type, a value, a callee or a thread's function.
fn unknown_in_line(
    scope: &LineScope<'_>,
    written: &[&TypeNode],
    uses: &[UseNode<'_>],
    op: &OpNode,
) -> Option<Span>
    ensures { (g : Scope) → IsLineScope scope.now g →
        tys_behind written.now ≡ flat_map types_within (line_types (op_of op.now)) → uses_of uses.now ≡ value_operands g (op_of op.now) →
        result ≡ earliest (unknown_in_line g (op_of op.now)) }
{
    let ty = unknown_types(scope.values.types, written);
    let value = unknown_uses(scope, uses);
    let callee = unknown_callee(scope, op);
    let thread = unknown_thread(scope, op);
    earlier(ty, earlier(value, earlier(callee, thread)))
}

/// The earliest use of a function in a line that isn't supported: as a value, as a callee, or for a thread.
fn unsupported_in_line(scope: &LineScope<'_>, uses: &[UseNode<'_>], op: &OpNode) -> Option<Span>
    ensures { (g : Scope) → IsLineScope scope.now g → uses_of uses.now ≡ value_operands g (op_of op.now) →
        result ≡ earliest (unsupported_in_line g (op_of op.now)) }
{
    let value = function_uses(scope, uses);
    let callee = unsupported_callee(scope, op);
    let thread = unsupported_thread(scope, op);
    earlier(value, earlier(callee, thread))
}

/// The earliest place in a line at which a thread's function, a return, a path of indices or a name is wrong.
fn wrong_otherwise(scope: &LineScope<'_>, line: &LineNode) -> Result<Option<Span>, AllocError>
    ensures place { (g : Scope) → IsLineScope scope.now g →
        IfOk result (λ o. o ≡ earliest (wrong_otherwise g (line_of line.now))) }
{
    let thread = wrong_thread(scope, &line.op)?;
    let returned = wrong_return(scope, &line.op)?;
    let path = wrong_path(scope, &line.op)?;
    let name = wrong_name(scope, &line.name, &line.op)?;
    Ok(earlier(thread, earlier(returned, earlier(path, name))))
}

/// The earliest place in a line at which a type is wrong.
fn wrong_in_line(
    scope: &LineScope<'_>,
    written: &[&TypeNode],
    uses: &[UseNode<'_>],
    line: &LineNode,
) -> Result<Option<Span>, AllocError>
    ensures place { (g : Scope) → IsLineScope scope.now g →
        tys_behind written.now ≡ flat_map types_within (line_types (line_of line.now).op) → uses_of uses.now ≡ value_operands g (line_of line.now).op →
        IfOk result (λ o. o ≡ earliest (wrong_in_line g (line_of line.now))) }
{
    let ty = wrong_types(scope.values.types, written)?;
    let unmet = unmet_demands(scope, &line.op)?;
    let value = wrong_uses(scope, uses)?;
    let call = wrong_call(scope, &line.op)?;
    let other = wrong_otherwise(scope, line)?;
    Ok(earlier(ty, earlier(unmet, earlier(value, earlier(call, other)))))
}

/// The first refusal of a line.
pub(crate) fn line_refusal(
    scope: &LineScope<'_>,
    line: &LineNode,
) -> Result<Option<CheckRefusal>, AllocError>
    ensures first { (g : Scope) → IsLineScope scope.now g →
        IfOk result (λ o. IsFirstIn (line_refused g (line_of line.now)) o) }
{
    let written = types_in_line(scope.values.alloc, &line.op)?;
    let uses = value_operands(scope, &line.op)?;
    let unknown = unknown_in_line(scope, written.as_slice(), uses.as_slice(), &line.op);
    let doubled = equal_cases(scope, &line.op)?;
    let wrong = wrong_in_line(scope, written.as_slice(), uses.as_slice(), line)?;
    let block = missing_labels(scope, &line.op)?;
    let unsupported = unsupported_in_line(scope, uses.as_slice(), &line.op);
    let named = name_or_type_refusal(unknown, doubled, wrong);
    let other = earlier_refusal(
        refusal_at(CheckKind::NoBlock, block),
        refusal_at(CheckKind::Unsupported, unsupported),
    );
    Ok(earlier_refusal(named, other))
}

/// Whether a line writes an aggregate that is larger than types may be.
#[tactic(auto, unfolding(pg_check_rules::specs::TypeConditions::any_large))]
pub(crate) fn line_is_large(
    alloc: Global,
    types: &TypeNumbers<'_>,
    line: &LineNode,
) -> Result<bool, AllocError>
    ensures large { IfOk result (λ b. b ≡ any_large (named_types types.now) (line_types (line_of line.now).op)) }
{
    let written = types_in_line(alloc, &line.op)?;
    any_large(types, written.as_slice())
}
