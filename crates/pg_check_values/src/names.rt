//! Names that stand for nothing, and names of functions that stand as values.

ghost use Rattle.std.specs.Prelude.{◌≡◌, Bool, map};
ghost use Rattle.std.specs.List.{flat_map};
ghost use Rattle.pg_read_ast.specs.Syntax.{Ty, Local, Global};
ghost use Rattle.pg_read_ast.specs.Views.{val_of, typed_of};
ghost use Rattle.pg_check_rules.specs.Written.{Use, with_inner, inner_uses};
ghost use Rattle.pg_check_rules.specs.ValueConditions.{Scope, unknown_value, function_value};
ghost use Rattle.pg_check_rules.specs.Earliest.{earliest};
ghost use Rattle.pg_check_values.specs.Scopes.{IsScope};
ghost use Rattle.pg_check_values.specs.Steps.{index_row};

use crate::scope::ValueScope;
use pg_check_rules::{SymbolNode, earlier, symbol};
use pg_check_types::place_of_name;
use pg_read_ast::{Name, TypedVal, ValNode};
use pg_read_lex::Span;

/// A name of a register that there isn't.
#[tactic(auto, unfolding(pg_check_rules::specs::Earliest::earliest))]
fn unknown_register(scope: &ValueScope<'_>, name: &Name) -> Option<Span>
    ensures { (g : Scope) → IsScope scope.now g → result ≡ earliest (unknown_value g (Local name.now)) }
{
    match place_of_name(scope.registers, name.text.as_slice()) {
        Some(_) => None,
        None => Some(name.span),
    }
}

/// A name of a global or a function that there isn't.
#[tactic(auto, unfolding(pg_check_rules::specs::Earliest::earliest))]
fn unknown_symbol(scope: &ValueScope<'_>, name: &Name) -> Option<Span>
    ensures { (g : Scope) → IsScope scope.now g → result ≡ earliest (unknown_value g (Global name.now)) }
{
    match symbol(scope.symbols, name.text.as_slice()) {
        SymbolNode::Unknown => Some(name.span),
        _ => None,
    }
}

/// A name of a function.
#[tactic(auto, unfolding(pg_check_rules::specs::Earliest::earliest))]
fn function_symbol(scope: &ValueScope<'_>, name: &Name) -> Option<Span>
    ensures { (g : Scope) → IsScope scope.now g → result ≡ earliest (function_value g (Global name.now)) }
{
    match symbol(scope.symbols, name.text.as_slice()) {
        SymbolNode::Definition(_, _) => Some(name.span),
        SymbolNode::Declaration(_) => Some(name.span),
        _ => None,
    }
}

/// A name of a register, a global or a function that there isn't.
#[tactic(auto, unfolding(pg_check_rules::specs::Earliest::earliest))]
fn unknown_value(scope: &ValueScope<'_>, value: &ValNode) -> Option<Span>
    ensures { (g : Scope) → IsScope scope.now g → result ≡ earliest (unknown_value g (val_of value.now)) }
{
    match value {
        ValNode::Local(name) => unknown_register(scope, name),
        ValNode::Global(name) => unknown_symbol(scope, name),
        _ => None,
    }
}

/// A name of a function that stands as a value.
#[tactic(auto, unfolding(pg_check_rules::specs::Earliest::earliest))]
fn function_value(scope: &ValueScope<'_>, value: &ValNode) -> Option<Span>
    ensures { (g : Scope) → IsScope scope.now g → result ≡ earliest (function_value g (val_of value.now)) }
{
    match value {
        ValNode::Global(name) => function_symbol(scope, name),
        _ => None,
    }
}

/// The earliest unknown name in the values within a value.
#[cycle(unknown)]
#[tactic(auto, unfolding(pg_check_rules::specs::Earliest::earliest, pg_check_rules::specs::Written::inner_uses, pg_check_rules::specs::Written::index_uses))]
fn unknown_within(scope: &ValueScope<'_>, value: &ValNode) -> Option<Span>
    ensures { (g : Scope) → IsScope scope.now g →
        result ≡ earliest (flat_map (λ (u : Use). unknown_value g u.value) (inner_uses (val_of value.now))) }
{
    match value {
        ValNode::GetElementPtr(_, _, _, base, indices) => {
            let within = unknown_within(scope, base);
            let first = earlier(unknown_value(scope, base), within);
            earlier(first, unknown_indices(scope, indices.as_slice()))
        }
        _ => None,
    }
}

#[cycle(unknown)]
fn unknown_indices(scope: &ValueScope<'_>, indices: &[TypedVal]) -> Option<Span>
    ensures { (g : Scope) → IsScope scope.now g →
        result ≡ earliest (flat_map (index_row (λ (u : Use). unknown_value g u.value)) (map typed_of indices.now)) }
{
    let mut found = None;
    for index in indices {
        let within = unknown_within(scope, &index.value);
        let own = earlier(unknown_value(scope, &index.value), within);
        found = earlier(found, own);
    }
    found
}

/// The earliest name of a register, a global or a function that there isn't, in a value and those within it.
pub fn unknown_values(scope: &ValueScope<'_>, value: &ValNode) -> Option<Span>
    ensures { (g : Scope) (c : Bool) (t : Ty) → IsScope scope.now g →
        result ≡ earliest (flat_map (λ (u : Use). unknown_value g u.value) (with_inner (record { constant = c; ty = t; value = val_of value.now }))) }
{
    let within = unknown_within(scope, value);
    earlier(unknown_value(scope, value), within)
}

/// The earliest name of a function in the values within a value.
#[cycle(functions)]
#[tactic(auto, unfolding(pg_check_rules::specs::Earliest::earliest, pg_check_rules::specs::Written::inner_uses, pg_check_rules::specs::Written::index_uses))]
fn function_within(scope: &ValueScope<'_>, value: &ValNode) -> Option<Span>
    ensures { (g : Scope) → IsScope scope.now g →
        result ≡ earliest (flat_map (λ (u : Use). function_value g u.value) (inner_uses (val_of value.now))) }
{
    match value {
        ValNode::GetElementPtr(_, _, _, base, indices) => {
            let within = function_within(scope, base);
            let first = earlier(function_value(scope, base), within);
            earlier(first, function_indices(scope, indices.as_slice()))
        }
        _ => None,
    }
}

#[cycle(functions)]
fn function_indices(scope: &ValueScope<'_>, indices: &[TypedVal]) -> Option<Span>
    ensures { (g : Scope) → IsScope scope.now g →
        result ≡ earliest (flat_map (index_row (λ (u : Use). function_value g u.value)) (map typed_of indices.now)) }
{
    let mut found = None;
    for index in indices {
        let within = function_within(scope, &index.value);
        let own = earlier(function_value(scope, &index.value), within);
        found = earlier(found, own);
    }
    found
}

/// The earliest name of a function that stands as a value, in a value and those within it.
pub fn function_values(scope: &ValueScope<'_>, value: &ValNode) -> Option<Span>
    ensures { (g : Scope) (c : Bool) (t : Ty) → IsScope scope.now g →
        result ≡ earliest (flat_map (λ (u : Use). function_value g u.value) (with_inner (record { constant = c; ty = t; value = val_of value.now }))) }
{
    let within = function_within(scope, value);
    earlier(function_value(scope, value), within)
}
