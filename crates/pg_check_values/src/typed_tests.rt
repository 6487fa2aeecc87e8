//! Values whose types aren't what is asked.

ghost use Rattle.std.specs.Prelude.{◌≡◌, [], ◌∷◌, IfOk};
ghost use Rattle.std.specs.List.{flat_map};
ghost use Rattle.pg_read_ast.specs.Views.{ty_of, typed_of};
ghost use Rattle.pg_check_types.specs.Resolved.{resolved};
ghost use Rattle.pg_check_types.specs.Kinds.{is_as};
ghost use Rattle.pg_check_types.specs.NumberedTypes.{named_types};
ghost use Rattle.pg_check_rules.specs.Earliest.{earliest};
ghost use Rattle.pg_check_rules.specs.TypeConditions.{unmet};
ghost use Rattle.pg_check_rules.specs.Written.{asks, asks_typed};
ghost use Rattle.pg_check_values.specs.Tests.{test_of};

use crate::type_tests::{TypeTest, unmet, unmet_as};
use pg_check_types::TypeNumbers;
use pg_read_ast::{TypeNode, TypedVal};
use pg_read_lex::Span;
use std::alloc::AllocError;

/// The place of a type that isn't what is asked, alone.
pub fn unmet_one(
    types: &TypeNumbers<'_>,
    test: TypeTest,
    ty: &TypeNode,
) -> Result<Option<Span>, AllocError>
    ensures place { IfOk result (λ o. o ≡ earliest (flat_map (unmet (named_types types.now)) (asks (test_of test) (ty_of ty.now) ∷ []))) }
{
    unmet(types, test, ty)
}

/// The place of a value's type that isn't what is asked.
pub fn unmet_typed(
    types: &TypeNumbers<'_>,
    test: TypeTest,
    value: &TypedVal,
) -> Result<Option<Span>, AllocError>
    ensures place { IfOk result (λ o. o ≡ earliest (unmet (named_types types.now) (asks_typed (test_of test) (typed_of value.now)))) }
{
    unmet(types, test, &value.ty)
}

/// The place of a value's type that isn't what is asked, alone.
pub fn unmet_value(
    types: &TypeNumbers<'_>,
    test: TypeTest,
    value: &TypedVal,
) -> Result<Option<Span>, AllocError>
    ensures place { IfOk result (λ o. o ≡ earliest (flat_map (unmet (named_types types.now)) (asks_typed (test_of test) (typed_of value.now) ∷ []))) }
{
    unmet_typed(types, test, value)
}

/// The place of a value's type that isn't the same as another.
pub fn unmet_typed_as(
    types: &TypeNumbers<'_>,
    expected: &TypeNode,
    value: &TypedVal,
) -> Result<Option<Span>, AllocError>
    ensures place { IfOk result (λ o. o ≡ earliest (unmet (named_types types.now) (asks_typed (is_as (resolved (named_types types.now) (ty_of expected.now))) (typed_of value.now)))) }
{
    unmet_as(types, expected, &value.ty)
}

/// The place of a value's type that isn't the same as another, alone.
pub fn unmet_value_as(
    types: &TypeNumbers<'_>,
    expected: &TypeNode,
    value: &TypedVal,
) -> Result<Option<Span>, AllocError>
    ensures place { IfOk result (λ o. o ≡ earliest (flat_map (unmet (named_types types.now))
        (asks_typed (is_as (resolved (named_types types.now) (ty_of expected.now))) (typed_of value.now) ∷ []))) }
{
    unmet_typed_as(types, expected, value)
}

/// The place of a value's type that isn't the same as another value's.
pub fn unmet_like(
    types: &TypeNumbers<'_>,
    expected: &TypedVal,
    value: &TypedVal,
) -> Result<Option<Span>, AllocError>
    ensures place { IfOk result (λ o. o ≡ earliest (unmet (named_types types.now) (asks_typed (is_as (resolved (named_types types.now) (typed_of expected.now).ty)) (typed_of value.now)))) }
{
    unmet_typed_as(types, &expected.ty, value)
}

/// The place of a value's type that isn't the same as another value's, alone.
pub fn unmet_same(
    types: &TypeNumbers<'_>,
    expected: &TypedVal,
    value: &TypedVal,
) -> Result<Option<Span>, AllocError>
    ensures place { IfOk result (λ o. o ≡ earliest (flat_map (unmet (named_types types.now))
        (asks_typed (is_as (resolved (named_types types.now) (typed_of expected.now).ty)) (typed_of value.now) ∷ []))) }
{
    unmet_value_as(types, &expected.ty, value)
}
