//! Unknown names, functions as values and misfits in the values of a line.

ghost use Rattle.std.specs.Prelude.{◌≡◌, IfOk};
ghost use Rattle.std.specs.List.{flat_map};
ghost use Rattle.pg_check_rules.specs.Written.{with_inner};
ghost use Rattle.pg_check_rules.specs.ValueConditions.{Scope, wrong_use};
ghost use Rattle.pg_check_rules.specs.Earliest.{earliest};
ghost use Rattle.pg_check_values.specs.Scopes.{IsLineScope};
ghost use Rattle.pg_check_lines.specs.Uses.{use_of, uses_of, unknown_row, function_row, row_within};

use crate::operands::UseNode;
use pg_check_rules::earlier;
use pg_check_values::{
    LineScope, PlacedValue, function_values, unknown_values, wrong_literal, wrong_values,
};
use pg_read_lex::Span;
use std::alloc::AllocError;

/// The earliest unknown name in a value and those within it.
#[tactic(auto, unfolding(pg_check_rules::specs::Written::inner_uses, pg_check_rules::specs::Earliest::earliest))]
fn unknown_use(scope: &LineScope<'_>, one: UseNode<'_>) -> Option<Span>
    ensures { (g : Scope) → IsLineScope scope.now g → result ≡ earliest (row_within (unknown_row g) (use_of one.entry)) }
{
    match one {
        UseNode::Value(_, _, value) => unknown_values(&scope.values, value),
        UseNode::Count(_) => None,
    }
}

/// The earliest unknown name in values and those within them.
pub fn unknown_uses(scope: &LineScope<'_>, uses: &[UseNode<'_>]) -> Option<Span>
    ensures { (g : Scope) → IsLineScope scope.now g → result ≡ earliest (flat_map (unknown_row g) (flat_map with_inner (uses_of uses.now))) }
{
    let mut found = None;
    for one in uses {
        found = earlier(found, unknown_use(scope, *one));
    }
    found
}

/// The earliest name of a function in a value and those within it.
#[tactic(auto, unfolding(pg_check_rules::specs::Written::inner_uses, pg_check_rules::specs::Earliest::earliest))]
fn function_use(scope: &LineScope<'_>, one: UseNode<'_>) -> Option<Span>
    ensures { (g : Scope) → IsLineScope scope.now g → result ≡ earliest (row_within (function_row g) (use_of one.entry)) }
{
    match one {
        UseNode::Value(_, _, value) => function_values(&scope.values, value),
        UseNode::Count(_) => None,
    }
}

/// The earliest name of a function in values and those within them.
pub fn function_uses(scope: &LineScope<'_>, uses: &[UseNode<'_>]) -> Option<Span>
    ensures { (g : Scope) → IsLineScope scope.now g → result ≡ earliest (flat_map (function_row g) (flat_map with_inner (uses_of uses.now))) }
{
    let mut found = None;
    for one in uses {
        found = earlier(found, function_use(scope, *one));
    }
    found
}

/// The earliest place at which a value or one within it doesn't fit.
fn wrong_use(scope: &LineScope<'_>, one: UseNode<'_>) -> Result<Option<Span>, AllocError>
    ensures place { (g : Scope) → IsLineScope scope.now g →
        IfOk result (λ o. o ≡ earliest (row_within (wrong_use g) (use_of one.entry))) }
{
    match one {
        UseNode::Value(constant, ty, value) => {
            let placed = PlacedValue {
                constant,
                ty,
                value,
            };
            wrong_values(&scope.values, placed)
        }
        UseNode::Count(count) => wrong_literal(scope.values.types, &count.ty, &count.count),
    }
}

/// The earliest place at which one of these values or one within them doesn't fit.
pub fn wrong_uses(scope: &LineScope<'_>, uses: &[UseNode<'_>]) -> Result<Option<Span>, AllocError>
    ensures place { (g : Scope) → IsLineScope scope.now g →
        IfOk result (λ o. o ≡ earliest (flat_map (wrong_use g) (flat_map with_inner (uses_of uses.now)))) }
{
    let mut found = None;
    for one in uses {
        found = earlier(found, wrong_use(scope, *one)?);
    }
    Ok(found)
}
