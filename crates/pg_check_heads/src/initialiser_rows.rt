//! What the values of an initialiser are refused for, row by row.

ghost use Rattle.std.specs.Prelude.{◌≡◌, ◌++◌, OnOk, IfOk};
ghost use Rattle.std.specs.List.{flat_map};
ghost use Rattle.pg_check_rules.specs.Nodes.{tys_behind};
ghost use Rattle.pg_check_rules.specs.Written.{Use};
ghost use Rattle.pg_check_rules.specs.ValueConditions.{Scope, unknown_value, function_value, wrong_use};
ghost use Rattle.pg_check_rules.specs.Earliest.{earliest};
ghost use Rattle.pg_check_values.specs.Scopes.{IsScope};
ghost use Rattle.pg_check_heads.specs.Initialisers.{uses_behind, within_row, own_row};

use crate::initialisers::UseNode;
use pg_check_rules::earlier;
use pg_check_values::{
    PlacedValue, ValueScope, add_own_types, function_values, unknown_values, wrong_values,
};
use pg_read_ast::TypeNode;
use pg_read_lex::Span;
use std::alloc::AllocError;

/// Adds the types that the values of an initialiser write by themselves.
pub(crate) fn add_use_types<'a>(
    all: &mut Vec<&'a TypeNode>,
    uses: &[UseNode<'a>],
) -> Result<(), AllocError>
    ensures { OnOk result (tys_behind all.new.items ≡ tys_behind all.old.items ++ flat_map own_row (uses_behind uses.now)) }
{
    for one in uses {
        add_own_types(all, one.value)?;
    }
    Ok(())
}

/// The earliest name of a register, a global or a function that there isn't, in an initialiser.
pub(crate) fn unknown_uses(scope: &ValueScope<'_>, uses: &[UseNode<'_>]) -> Option<Span>
    ensures { (g : Scope) → IsScope scope.now g →
        result ≡ earliest (flat_map (within_row (λ (u : Use). unknown_value g u.value)) (uses_behind uses.now)) }
{
    let mut found = None;
    for one in uses {
        found = earlier(found, unknown_values(scope, one.value));
    }
    found
}

/// The earliest name of a function in an initialiser.
pub(crate) fn function_uses(scope: &ValueScope<'_>, uses: &[UseNode<'_>]) -> Option<Span>
    ensures { (g : Scope) → IsScope scope.now g →
        result ≡ earliest (flat_map (within_row (λ (u : Use). function_value g u.value)) (uses_behind uses.now)) }
{
    let mut found = None;
    for one in uses {
        found = earlier(found, function_values(scope, one.value));
    }
    found
}

/// The earliest place at which a value of an initialiser doesn't fit.
pub(crate) fn wrong_uses(
    scope: &ValueScope<'_>,
    uses: &[UseNode<'_>],
) -> Result<Option<Span>, AllocError>
    ensures place { (g : Scope) → IsScope scope.now g →
        IfOk result (λ o. o ≡ earliest (flat_map (within_row (wrong_use g)) (uses_behind uses.now))) }
{
    let mut found = None;
    for one in uses {
        let placed = PlacedValue {
            constant: true,
            ty: one.ty,
            value: one.value,
        };
        let own = wrong_values(scope, placed)?;
        found = earlier(found, own);
    }
    Ok(found)
}
