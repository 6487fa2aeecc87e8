//! Paths of indices, returns and names of results for which a line is refused.

ghost use Rattle.std.specs.Prelude.{◌≡◌, IfOk, Some};
ghost use Rattle.pg_read_ast.specs.Numbers.{gives};
ghost use Rattle.pg_read_ast.specs.Views.{op_of};
ghost use Rattle.pg_check_types.specs.Kinds.{fails};
ghost use Rattle.pg_check_types.specs.Resolved.{is_void_type};
ghost use Rattle.pg_check_rules.specs.Conditions.{at_if};
ghost use Rattle.pg_check_rules.specs.ValueConditions.{Scope};
ghost use Rattle.pg_check_rules.specs.LineConditions.{wrong_return, wrong_path, wrong_name};
ghost use Rattle.pg_check_rules.specs.Earliest.{earliest};
ghost use Rattle.pg_check_values.specs.Scopes.{IsLineScope};
ghost use Rattle.pg_check_lines.specs.Results.{is_value_kind};

use pg_check_rules::place_if;
use pg_check_types::TypeKind;
use pg_check_values::pg_check_names::gives;
use pg_check_values::{LineScope, wrong_indices};
use pg_read_ast::{Name, OpNode};
use pg_read_lex::Span;
use std::alloc::AllocError;

/// The earliest index of a `getelementptr` that chooses no field, or goes into what has no parts.
#[tactic(auto, unfolding(pg_check_rules::specs::Earliest::earliest))]
pub fn wrong_path(scope: &LineScope<'_>, op: &OpNode) -> Result<Option<Span>, AllocError>
    ensures place { (g : Scope) → IsLineScope scope.now g → IfOk result (λ o. o ≡ earliest (wrong_path g (op_of op.now))) }
{
    match op {
        OpNode::GetElementPtr { ty, indices, .. } => {
            wrong_indices(
                scope.values.alloc,
                scope.values.types,
                ty,
                indices.as_slice(),
            )
        }
        _ => Ok(None),
    }
}

/// Whether a type of a kind is one that has values.
fn is_value_kind(kind: Option<TypeKind>) -> bool
    ensures { result ≡ is_value_kind kind }
{
    match kind {
        Some(TypeKind::Void) => false,
        Some(_) => true,
        None => false,
    }
}

/// The place of a `void` that is returned where the function has a result.
#[tactic(auto, using(crate::proofs::ResultKinds::fails_void))]
fn void_return(scope: &LineScope<'_>, void: Span) -> Result<Option<Span>, AllocError>
    ensures place { (g : Scope) → IsLineScope scope.now g →
        IfOk result (λ o. o ≡ earliest (at_if (fails is_void_type g.result) void)) }
{
    let kind = scope.values.types.kind(scope.result)?;
    Ok(place_if(is_value_kind(kind), void))
}

/// The place at which nothing is returned where the function has a result.
#[tactic(auto, unfolding(pg_check_rules::specs::Earliest::earliest))]
pub fn wrong_return(scope: &LineScope<'_>, op: &OpNode) -> Result<Option<Span>, AllocError>
    ensures place { (g : Scope) → IsLineScope scope.now g →
        IfOk result (λ o. o ≡ earliest (wrong_return g (op_of op.now))) }
{
    match op {
        OpNode::RetVoid { void, .. } => void_return(scope, *void),
        _ => Ok(None),
    }
}

#[tactic(auto, unfolding(pg_check_rules::specs::Earliest::earliest))]
fn misplaced_name(gives: bool, name: &Name) -> Option<Span>
    ensures { result ≡ earliest (wrong_name gives (Some name.now)) }
{
    if gives { None } else { Some(name.span) }
}

/// A name before an instruction without a result.
#[tactic(auto, unfolding(pg_check_rules::specs::Earliest::earliest))]
pub fn wrong_name(
    scope: &LineScope<'_>,
    name: &Option<Name>,
    op: &OpNode,
) -> Result<Option<Span>, AllocError>
    ensures place { (g : Scope) → IsLineScope scope.now g →
        IfOk result (λ o. o ≡ earliest (wrong_name (gives g.tree.types (op_of op.now)) name.now)) }
{
    match name {
        Some(name) => Ok(misplaced_name(gives(scope.values.types, op)?, name)),
        None => Ok(None),
    }
}
