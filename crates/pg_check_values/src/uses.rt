//! What values are refused for at the types at which they stand.

ghost use Rattle.std.specs.Prelude.{◌≡◌, ◌++◌, [], ◌∷◌, IfOk, Option, true, map, if◌then◌else◌};
ghost use Rattle.std.specs.List.{flat_map};
ghost use Rattle.std.specs.Option.{option_map};
ghost use Rattle.pg_read_ast.specs.Syntax.{Int};
ghost use Rattle.pg_read_ast.specs.Views.{ty_of, val_of, typed_of};
ghost use Rattle.pg_check_types.specs.Resolved.{ResolvedType, resolved, is_integer, is_pointer};
ghost use Rattle.pg_check_types.specs.Kinds.{kind_of, fails};
ghost use Rattle.pg_check_types.specs.NumberedTypes.{named_types};
ghost use Rattle.pg_check_rules.specs.Names.{symbol};
ghost use Rattle.pg_check_rules.specs.Places.{val_span};
ghost use Rattle.pg_check_rules.specs.TypeConditions.{unmet};
ghost use Rattle.pg_check_rules.specs.Written.{asks, isnt_void, with_inner, inner_uses, constant_at, own_demands};
ghost use Rattle.pg_check_rules.specs.ValueConditions.{Scope, fits, is_wrong, wrong_symbol, inner_indices, wrong_use};
ghost use Rattle.pg_check_rules.specs.Earliest.{earliest};
ghost use Rattle.pg_check_values.specs.Scopes.{IsScope};
ghost use Rattle.pg_check_values.specs.Steps.{index_row};
ghost use Rattle.pg_check_values.specs.Uses.{integer_row, placed_use};

use crate::indices::wrong_indices;
use crate::placed_value::PlacedValue;
use crate::registers::wrong_register;
use crate::scope::ValueScope;
use crate::type_tests::{TypeTest, fails_kind, unmet};
use pg_check_rules::{SymbolNode, earlier, is_misplaced, symbol, val_span};
use pg_check_types::{TypeKind, TypeNumbers, literal_in};
use pg_read_ast::{Literal, Name, TypeNode, TypedVal, ValNode};
use pg_read_lex::Span;
use std::alloc::{AllocError, Global};

/// Whether a global or a function of a name, if there is one, stands where no pointer may.
fn wrong_symbol(scope: &ValueScope<'_>, ty: &TypeNode, name: &Name) -> Result<bool, AllocError>
    ensures wrong { (g : Scope) → IsScope scope.now g →
        IfOk result (λ b. b ≡ wrong_symbol (resolved g.tree.types (ty_of ty.now)) (symbol g.tree name.now.text)) }
{
    match symbol(scope.symbols, name.text.as_slice()) {
        SymbolNode::Unknown => Ok(false),
        _ => {
            let kind = scope.types.kind(ty)?;
            Ok(fails_kind(TypeTest::Pointer, kind))
        }
    }
}

/// Whether a value may not stand at a type.
fn is_wrong(
    scope: &ValueScope<'_>,
    constant: bool,
    ty: &TypeNode,
    value: &ValNode,
) -> Result<bool, AllocError>
    ensures wrong { (g : Scope) → IsScope scope.now g →
        IfOk result (λ b. b ≡ is_wrong g constant (resolved g.tree.types (ty_of ty.now)) (val_of value.now)) }
{
    match value {
        ValNode::Local(name) => wrong_register(scope, constant, ty, name),
        ValNode::Global(name) => wrong_symbol(scope, ty, name),
        _ => is_misplaced(scope.types, ty, value),
    }
}

/// The place of a value that may not stand at its type.
#[tactic(auto, unfolding(pg_check_rules::specs::Earliest::earliest))]
fn wrong_place(scope: &ValueScope<'_>, used: PlacedValue<'_>) -> Result<Option<Span>, AllocError>
    ensures place { (g : Scope) → IsScope scope.now g →
        IfOk result (λ o. o ≡ earliest (if is_wrong g used.entry.constant (resolved g.tree.types (ty_of used.entry.ty.now)) (val_of used.entry.value.now)
        then val_span (val_of used.entry.value.now) ∷ [] else [])) }
{
    if is_wrong(scope, used.constant, used.ty, used.value)? {
        Ok(Some(val_span(used.value)))
    } else {
        Ok(None)
    }
}

/// The earliest index whose type isn't an integer.
fn unmet_integers(types: &TypeNumbers<'_>, indices: &[TypedVal]) -> Result<Option<Span>, AllocError>
    ensures place { IfOk result (λ o. o ≡ earliest (flat_map (integer_row (named_types types.now)) (map typed_of indices.now))) }
{
    let mut found = None;
    for index in indices {
        found = earlier(found, unmet(types, TypeTest::Integer, &index.ty)?);
    }
    Ok(found)
}

/// The earliest type of a `getelementptr` that isn't what it asks for.
fn unmet_walk(
    types: &TypeNumbers<'_>,
    ty: &TypeNode,
    pointer: &TypeNode,
    indices: &[TypedVal],
) -> Result<Option<Span>, AllocError>
    ensures place { IfOk result (λ o. o ≡ earliest (unmet (named_types types.now) (asks isnt_void (ty_of ty.now))
        ++ (unmet (named_types types.now) (asks is_pointer (ty_of pointer.now)) ++ flat_map (integer_row (named_types types.now)) (map typed_of indices.now)))) }
{
    let first = unmet(types, TypeTest::NotVoid, ty)?;
    let second = unmet(types, TypeTest::Pointer, pointer)?;
    let others = unmet_integers(types, indices)?;
    Ok(earlier(first, earlier(second, others)))
}

/// The earliest type of an `inttoptr` that isn't what it asks for.
fn unmet_cast(
    types: &TypeNumbers<'_>,
    ty: &TypeNode,
    pointer: &TypeNode,
) -> Result<Option<Span>, AllocError>
    ensures place { IfOk result (λ o. o ≡ earliest (unmet (named_types types.now) (asks is_integer (ty_of ty.now))
        ++ (unmet (named_types types.now) (asks is_pointer (ty_of pointer.now)) ++ []))) }
{
    let first = unmet(types, TypeTest::Integer, ty)?;
    let second = unmet(types, TypeTest::Pointer, pointer)?;
    Ok(earlier(first, second))
}

/// The earliest type in a value that isn't what the value asks for.
#[tactic(auto, unfolding(pg_check_rules::specs::Earliest::earliest))]
fn unmet_own(types: &TypeNumbers<'_>, value: &ValNode) -> Result<Option<Span>, AllocError>
    ensures place { IfOk result (λ o. o ≡ earliest (flat_map (unmet (named_types types.now)) (own_demands (val_of value.now)))) }
{
    match value {
        ValNode::GetElementPtr(_, ty, pointer, _, indices) => {
            unmet_walk(types, ty, pointer, indices.as_slice())
        }
        ValNode::IntToPtr(_, ty, _, pointer) => unmet_cast(types, ty, pointer),
        _ => Ok(None),
    }
}

/// The earliest index in a value that chooses no field, or goes into what has no parts.
#[tactic(auto, unfolding(pg_check_rules::specs::Earliest::earliest))]
fn wrong_own_indices(
    alloc: Global,
    types: &TypeNumbers<'_>,
    value: &ValNode,
) -> Result<Option<Span>, AllocError>
    ensures place { IfOk result (λ o. o ≡ earliest (inner_indices (named_types types.now) (val_of value.now))) }
{
    match value {
        ValNode::GetElementPtr(_, ty, _, _, indices) => {
            wrong_indices(alloc, types, ty, indices.as_slice())
        }
        _ => Ok(None),
    }
}

/// The earliest place at which a value, those within it aside, doesn't fit.
fn wrong_use(scope: &ValueScope<'_>, used: PlacedValue<'_>) -> Result<Option<Span>, AllocError>
    ensures place { (g : Scope) → IsScope scope.now g →
        IfOk result (λ o. o ≡ earliest (wrong_use g (placed_use used.entry))) }
{
    let own = wrong_place(scope, used)?;
    let asked = unmet_own(scope.types, used.value)?;
    let indices = wrong_own_indices(scope.alloc, scope.types, used.value)?;
    Ok(earlier(own, earlier(asked, indices)))
}

/// Whether an integer that is written doesn't fit a type of a kind.
fn misfit_literal(kind: Option<TypeKind>, literal: &Literal) -> bool
    ensures { (t : Option ResolvedType) → kind ≡ option_map kind_of t → result ≡ fails (λ u. fits u (Int literal.now)) t }
{
    match kind {
        Some(TypeKind::Integer(width)) => literal_in(width, literal.text.as_slice()).is_none(),
        Some(_) => true,
        None => false,
    }
}

/// The place of an integer that doesn't fit the type that is written before it.
#[tactic(auto, unfolding(pg_check_rules::specs::Earliest::earliest, pg_check_rules::specs::ValueConditions::wrong_use))]
pub fn wrong_literal(
    types: &TypeNumbers<'_>,
    ty: &TypeNode,
    literal: &Literal,
) -> Result<Option<Span>, AllocError>
    ensures place { (g : Scope) → g.tree.types ≡ named_types types.now →
        IfOk result (λ o. o ≡ earliest (wrong_use g (constant_at (ty_of ty.now) (Int literal.now)))) }
{
    let kind = types.kind(ty)?;
    if misfit_literal(kind, literal) {
        Ok(Some(literal.span))
    } else {
        Ok(None)
    }
}

/// The earliest place at which a value within a value doesn't fit.
#[cycle(wrong)]
#[tactic(auto, unfolding(pg_check_rules::specs::Earliest::earliest, pg_check_rules::specs::Written::inner_uses, pg_check_rules::specs::Written::index_uses))]
fn wrong_within(scope: &ValueScope<'_>, value: &ValNode) -> Result<Option<Span>, AllocError>
    ensures place { (g : Scope) → IsScope scope.now g →
        IfOk result (λ o. o ≡ earliest (flat_map (wrong_use g) (inner_uses (val_of value.now)))) }
{
    match value {
        ValNode::GetElementPtr(_, _, pointer, base, indices) => {
            let own = wrong_use(
                scope,
                PlacedValue {
                    constant: true,
                    ty: pointer,
                    value: base,
                },
            )?;
            let within = wrong_within(scope, base)?;
            let others = wrong_index_uses(scope, indices.as_slice())?;
            Ok(earlier(earlier(own, within), others))
        }
        ValNode::IntToPtr(_, ty, literal, _) => wrong_literal(scope.types, ty, literal),
        _ => Ok(None),
    }
}

#[cycle(wrong)]
fn wrong_index_uses(
    scope: &ValueScope<'_>,
    indices: &[TypedVal],
) -> Result<Option<Span>, AllocError>
    ensures place { (g : Scope) → IsScope scope.now g →
        IfOk result (λ o. o ≡ earliest (flat_map (index_row (wrong_use g)) (map typed_of indices.now))) }
{
    let mut found = None;
    for index in indices {
        let own = wrong_use(
            scope,
            PlacedValue {
                constant: true,
                ty: &index.ty,
                value: &index.value,
            },
        )?;
        let within = wrong_within(scope, &index.value)?;
        found = earlier(found, earlier(own, within));
    }
    Ok(found)
}

/// The earliest place at which a value or one within it doesn't fit.
pub fn wrong_values(
    scope: &ValueScope<'_>,
    used: PlacedValue<'_>,
) -> Result<Option<Span>, AllocError>
    ensures place { (g : Scope) → IsScope scope.now g →
        IfOk result (λ o. o ≡ earliest (flat_map (wrong_use g) (with_inner (placed_use used.entry)))) }
{
    let own = wrong_use(scope, used)?;
    let within = wrong_within(scope, used.value)?;
    Ok(earlier(own, within))
}
