//! What is asked of the type of a value.

ghost use Rattle.std.specs.Prelude.{◌≡◌, IfOk, Option};
ghost use Rattle.std.specs.Option.{option_map};
ghost use Rattle.pg_read_ast.specs.Views.{ty_of};
ghost use Rattle.pg_check_types.specs.Resolved.{ResolvedType, resolved};
ghost use Rattle.pg_check_types.specs.Kinds.{kind_of, fails, is_as};
ghost use Rattle.pg_check_types.specs.NumberedTypes.{named_types};
ghost use Rattle.pg_check_rules.specs.Written.{asks};
ghost use Rattle.pg_check_rules.specs.TypeConditions.{unmet};
ghost use Rattle.pg_check_rules.specs.Earliest.{earliest};
ghost use Rattle.pg_check_values.specs.Tests.{test_of};

use pg_check_rules::type_span;
use pg_check_types::{TypeKind, TypeNumbers};
use pg_num::Width;
use pg_read_ast::TypeNode;
use pg_read_lex::Span;
use std::alloc::AllocError;

/// What is asked of a type.
#[derive(Clone, Copy, Debug, PartialEq, Eq)]
pub enum TypeTest {
    Integer,
    /// An integer or a pointer.
    Scalar,
    Pointer,
    /// `i1`, the type of conditions.
    Bit,
    NotVoid,
    /// A scalar or `void`, which a function may return.
    Returnable,
}

/// Whether a type of this kind is what is asked for.
pub fn passes(test: TypeTest, kind: TypeKind) -> bool
    ensures { (t : ResolvedType) → kind ≡ kind_of t → result ≡ test_of test t }
{
    match test {
        TypeTest::Integer => match kind {
            TypeKind::Integer(_) => true,
            _ => false,
        },
        TypeTest::Scalar => match kind {
            TypeKind::Integer(_) => true,
            TypeKind::Pointer => true,
            _ => false,
        },
        TypeTest::Pointer => match kind {
            TypeKind::Pointer => true,
            _ => false,
        },
        TypeTest::Bit => match kind {
            TypeKind::Integer(Width::W1) => true,
            _ => false,
        },
        TypeTest::NotVoid => match kind {
            TypeKind::Void => false,
            _ => true,
        },
        TypeTest::Returnable => match kind {
            TypeKind::Integer(_) => true,
            TypeKind::Pointer => true,
            TypeKind::Void => true,
            _ => false,
        },
    }
}

/// Whether a type that is one isn't what is asked for.
pub(crate) fn fails_kind(test: TypeTest, kind: Option<TypeKind>) -> bool
    ensures { (t : Option ResolvedType) → kind ≡ option_map kind_of t → result ≡ fails (test_of test) t }
{
    match kind {
        Some(kind) => !passes(test, kind),
        None => false,
    }
}

/// The place of a type that isn't what is asked for.
#[tactic(auto, unfolding(pg_check_rules::specs::Earliest::earliest))]
pub fn unmet(
    types: &TypeNumbers<'_>,
    test: TypeTest,
    ty: &TypeNode,
) -> Result<Option<Span>, AllocError>
    ensures place { IfOk result (λ o. o ≡ earliest (unmet (named_types types.now) (asks (test_of test) (ty_of ty.now)))) }
{
    let kind = types.kind(ty)?;
    if fails_kind(test, kind) {
        Ok(Some(type_span(ty)))
    } else {
        Ok(None)
    }
}

/// The place of a type that isn't the one that is expected.
#[tactic(auto, unfolding(pg_check_rules::specs::Earliest::earliest))]
pub fn unmet_as(
    types: &TypeNumbers<'_>,
    expected: &TypeNode,
    ty: &TypeNode,
) -> Result<Option<Span>, AllocError>
    ensures place { IfOk result (λ o. o ≡ earliest (unmet (named_types types.now) (asks (is_as (resolved (named_types types.now) (ty_of expected.now))) (ty_of ty.now)))) }
{
    if types.agree(expected, ty)? {
        Ok(None)
    } else {
        Ok(Some(type_span(ty)))
    }
}
