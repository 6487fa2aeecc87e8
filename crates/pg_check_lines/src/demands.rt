//! What instructions ask of the types of their operands.

ghost use Rattle.std.specs.Prelude.{◌≡◌, [], ◌∷◌, map, IfOk, Option};
ghost use Rattle.std.specs.List.{flat_map};
ghost use Rattle.std.specs.Option.{option_map};
ghost use Rattle.pg_read_ast.specs.Syntax.{Case};
ghost use Rattle.pg_read_ast.specs.declared.ops.CaseNode.{CaseNode};
ghost use Rattle.pg_read_ast.specs.declared.values.TypedVal.{TypedVal};
ghost use Rattle.pg_read_ast.specs.Views.{ty_of, typed_of, op_of, case_of, count_of};
ghost use Rattle.pg_check_types.specs.Resolved.{ResolvedType, resolved};
ghost use Rattle.pg_check_types.specs.Kinds.{kind_of, fails, is_as};
ghost use Rattle.pg_check_types.specs.NumberedTypes.{named_types};
ghost use Rattle.pg_check_rules.specs.Earliest.{earliest};
ghost use Rattle.pg_check_rules.specs.TypeConditions.{unmet};
ghost use Rattle.pg_check_rules.specs.Written.{asks, asks_typed, is_narrower, is_wider, cast_from, cast_to, count_demands, op_demands};
ghost use Rattle.pg_check_values.specs.declared.type_tests.TypeTest.TheVariants.{Integer, Scalar, Pointer, Bit, NotVoid};
ghost use Rattle.pg_check_values.specs.Tests.{test_of};

use pg_check_rules::{earlier, type_span};
use pg_check_types::{TypeKind, TypeNumbers};
use pg_check_values::{
    TypeTest, passes, unmet_like, unmet_one, unmet_same, unmet_typed, unmet_value, unmet_value_as,
};
use pg_read_ast::{CaseNode, CastOp, CountNode, OpNode, TypeNode, TypedVal};
use pg_read_lex::Span;
use std::alloc::AllocError;

// ---- conversions

fn is_narrower(from: Option<TypeKind>, to: TypeKind) -> bool
    ensures { (s : Option ResolvedType) (t : ResolvedType) → from ≡ option_map kind_of s → to ≡ kind_of t → result ≡ is_narrower s t }
{
    match (from, to) {
        (Some(TypeKind::Integer(from)), TypeKind::Integer(to)) => to.bits() < from.bits(),
        (_, TypeKind::Integer(_)) => true,
        _ => false,
    }
}

fn is_wider(from: Option<TypeKind>, to: TypeKind) -> bool
    ensures { (s : Option ResolvedType) (t : ResolvedType) → from ≡ option_map kind_of s → to ≡ kind_of t → result ≡ is_wider s t }
{
    match (from, to) {
        (Some(TypeKind::Integer(from)), TypeKind::Integer(to)) => from.bits() < to.bits(),
        (_, TypeKind::Integer(_)) => true,
        _ => false,
    }
}

fn casts_to(op: CastOp, from: Option<TypeKind>, to: TypeKind) -> bool
    ensures { (s : Option ResolvedType) (t : ResolvedType) → from ≡ option_map kind_of s → to ≡ kind_of t → result ≡ cast_to op s t }
{
    match op {
        CastOp::Trunc => is_narrower(from, to),
        CastOp::Zext => is_wider(from, to),
        CastOp::Sext => is_wider(from, to),
        CastOp::PtrToInt => passes(TypeTest::Integer, to),
        CastOp::IntToPtr => passes(TypeTest::Pointer, to),
    }
}

fn fails_cast(op: CastOp, from: Option<TypeKind>, to: Option<TypeKind>) -> bool
    ensures { (s t : Option ResolvedType) → from ≡ option_map kind_of s → to ≡ option_map kind_of t → result ≡ fails (cast_to op s) t }
{
    match to {
        Some(to) => !casts_to(op, from, to),
        None => false,
    }
}

/// Whether a conversion doesn't give a type.
fn is_wrong_cast(
    types: &TypeNumbers<'_>,
    op: CastOp,
    value: &TypedVal,
    ty: &TypeNode,
) -> Result<bool, AllocError>
    ensures same { IfOk result (λ b. b ≡ fails (cast_to op (resolved (named_types types.now) (typed_of value.now).ty)) (resolved (named_types types.now) (ty_of ty.now))) }
{
    let from = types.kind(&value.ty)?;
    let to = types.kind(ty)?;
    Ok(fails_cast(op, from, to))
}

/// The type that a conversion gives, where it can't.
#[tactic(auto, unfolding(pg_check_rules::specs::Earliest::earliest))]
fn unmet_target(
    types: &TypeNumbers<'_>,
    op: CastOp,
    value: &TypedVal,
    ty: &TypeNode,
) -> Result<Option<Span>, AllocError>
    ensures place { IfOk result (λ o. o ≡ earliest (flat_map (unmet (named_types types.now)) (asks (cast_to op (resolved (named_types types.now) (typed_of value.now).ty)) (ty_of ty.now) ∷ []))) }
{
    if is_wrong_cast(types, op, value, ty)? {
        Ok(Some(type_span(ty)))
    } else {
        Ok(None)
    }
}

/// The type of the value that a conversion takes, where it can't.
fn unmet_source(
    types: &TypeNumbers<'_>,
    op: CastOp,
    value: &TypedVal,
) -> Result<Option<Span>, AllocError>
    ensures place { IfOk result (λ o. o ≡ earliest (flat_map (unmet (named_types types.now)) (asks_typed (cast_from op) (typed_of value.now) ∷ []))) }
{
    match op {
        CastOp::Trunc => unmet_value(types, TypeTest::Integer, value),
        CastOp::Zext => unmet_value(types, TypeTest::Integer, value),
        CastOp::Sext => unmet_value(types, TypeTest::Integer, value),
        CastOp::PtrToInt => unmet_value(types, TypeTest::Pointer, value),
        CastOp::IntToPtr => unmet_value(types, TypeTest::Integer, value),
    }
}

fn unmet_cast(
    types: &TypeNumbers<'_>,
    op: CastOp,
    value: &TypedVal,
    ty: &TypeNode,
) -> Result<Option<Span>, AllocError>
    ensures place { IfOk result (λ o. o ≡ earliest (flat_map (unmet (named_types types.now))
        (asks_typed (cast_from op) (typed_of value.now) ∷ asks (cast_to op (resolved (named_types types.now) (typed_of value.now).ty)) (ty_of ty.now) ∷ []))) }
{
    let source = unmet_source(types, op, value)?;
    let target = unmet_target(types, op, value, ty)?;
    Ok(earlier(source, target))
}

// ---- several types of an instruction

/// The types of the two values between which a `select` chooses: a scalar, and the same.
fn unmet_choices(
    types: &TypeNumbers<'_>,
    one: &TypedVal,
    other: &TypedVal,
) -> Result<Option<Span>, AllocError>
    ensures place { IfOk result (λ o. o ≡ earliest (flat_map (unmet (named_types types.now))
        (asks_typed (test_of Scalar) (typed_of one.now) ∷ asks_typed (is_as (resolved (named_types types.now) (typed_of one.now).ty)) (typed_of other.now) ∷ []))) }
{
    let scalar = unmet_value(types, TypeTest::Scalar, one)?;
    let same = unmet_same(types, one, other)?;
    Ok(earlier(scalar, same))
}

fn unmet_select(
    types: &TypeNumbers<'_>,
    condition: &TypedVal,
    one: &TypedVal,
    other: &TypedVal,
) -> Result<Option<Span>, AllocError>
    ensures place { IfOk result (λ o. o ≡ earliest (flat_map (unmet (named_types types.now))
        (asks_typed (test_of Bit) (typed_of condition.now) ∷ asks_typed (test_of Scalar) (typed_of one.now)
        ∷ asks_typed (is_as (resolved (named_types types.now) (typed_of one.now).ty)) (typed_of other.now) ∷ []))) }
{
    let bit = unmet_value(types, TypeTest::Bit, condition)?;
    let choices = unmet_choices(types, one, other)?;
    Ok(earlier(bit, choices))
}

fn unmet_case(
    types: &TypeNumbers<'_>,
    expected: &TypedVal,
    case: &CaseNode,
) -> Result<Option<Span>, AllocError>
    ensures place { IfOk result (λ o. o ≡ earliest (unmet (named_types types.now) (asks_typed (is_as (resolved (named_types types.now) (typed_of expected.now).ty)) (case_of case.now).value))) }
{
    unmet_like(types, expected, &case.value)
}

/// The types of the cases of a `switch`: that of its value.
fn unmet_cases(
    types: &TypeNumbers<'_>,
    expected: &TypedVal,
    cases: &[CaseNode],
) -> Result<Option<Span>, AllocError>
    ensures place { IfOk result (λ o. o ≡ earliest (flat_map (unmet (named_types types.now))
        (map (λ (c : CaseNode). asks_typed (is_as (resolved (named_types types.now) (typed_of expected.now).ty)) (case_of c).value) cases.now))) }
{
    let mut found = None;
    for case in cases {
        found = earlier(found, unmet_case(types, expected, case)?);
    }
    Ok(found)
}

fn unmet_switch(
    types: &TypeNumbers<'_>,
    value: &TypedVal,
    cases: &[CaseNode],
) -> Result<Option<Span>, AllocError>
    ensures place { IfOk result (λ o. o ≡ earliest (flat_map (unmet (named_types types.now))
        (asks_typed (test_of Integer) (typed_of value.now) ∷ map (λ (c : Case). asks_typed (is_as (resolved (named_types types.now) (typed_of value.now).ty)) c.value) (map case_of cases.now)))) }
{
    let integer = unmet_value(types, TypeTest::Integer, value)?;
    let same = unmet_cases(types, value, cases)?;
    Ok(earlier(integer, same))
}

#[tactic(auto, unfolding(pg_check_rules::specs::Earliest::earliest))]
fn unmet_count(
    types: &TypeNumbers<'_>,
    count: &Option<CountNode>,
) -> Result<Option<Span>, AllocError>
    ensures place { IfOk result (λ o. o ≡ earliest (flat_map (unmet (named_types types.now)) (count_demands (option_map count_of count.now)))) }
{
    match count {
        Some(count) => unmet_one(types, TypeTest::Integer, &count.ty),
        None => Ok(None),
    }
}

fn unmet_alloca(
    types: &TypeNumbers<'_>,
    ty: &TypeNode,
    count: &Option<CountNode>,
) -> Result<Option<Span>, AllocError>
    ensures place { IfOk result (λ o. o ≡ earliest (flat_map (unmet (named_types types.now)) (asks (test_of NotVoid) (ty_of ty.now) ∷ count_demands (option_map count_of count.now)))) }
{
    let void = unmet_one(types, TypeTest::NotVoid, ty)?;
    let number = unmet_count(types, count)?;
    Ok(earlier(void, number))
}

/// What a type is asked, and the type of a pointer.
fn unmet_pointed(
    types: &TypeNumbers<'_>,
    test: TypeTest,
    ty: &TypeNode,
    pointer: &TypedVal,
) -> Result<Option<Span>, AllocError>
    ensures place { IfOk result (λ o. o ≡ earliest (flat_map (unmet (named_types types.now)) (asks (test_of test) (ty_of ty.now) ∷ asks_typed (test_of Pointer) (typed_of pointer.now) ∷ []))) }
{
    let own = unmet_one(types, test, ty)?;
    let place = unmet_value(types, TypeTest::Pointer, pointer)?;
    Ok(earlier(own, place))
}

fn unmet_store(
    types: &TypeNumbers<'_>,
    value: &TypedVal,
    pointer: &TypedVal,
) -> Result<Option<Span>, AllocError>
    ensures place { IfOk result (λ o. o ≡ earliest (flat_map (unmet (named_types types.now))
        (asks_typed (test_of Scalar) (typed_of value.now) ∷ asks_typed (test_of Pointer) (typed_of pointer.now) ∷ []))) }
{
    let own = unmet_value(types, TypeTest::Scalar, value)?;
    let place = unmet_value(types, TypeTest::Pointer, pointer)?;
    Ok(earlier(own, place))
}

/// The types of the indices of a `getelementptr`.
fn unmet_indices(types: &TypeNumbers<'_>, indices: &[TypedVal]) -> Result<Option<Span>, AllocError>
    ensures place { IfOk result (λ o. o ≡ earliest (flat_map (unmet (named_types types.now)) (map (λ (i : TypedVal). asks_typed (test_of Integer) (typed_of i)) indices.now))) }
{
    let mut found = None;
    for index in indices {
        found = earlier(found, unmet_typed(types, TypeTest::Integer, index)?);
    }
    Ok(found)
}

fn unmet_path(
    types: &TypeNumbers<'_>,
    ty: &TypeNode,
    pointer: &TypedVal,
    indices: &[TypedVal],
) -> Result<Option<Span>, AllocError>
    ensures place { IfOk result (λ o. o ≡ earliest (flat_map (unmet (named_types types.now))
        (asks (test_of NotVoid) (ty_of ty.now) ∷ asks_typed (test_of Pointer) (typed_of pointer.now) ∷ map (asks_typed (test_of Integer)) (map typed_of indices.now)))) }
{
    let front = unmet_pointed(types, TypeTest::NotVoid, ty, pointer)?;
    let path = unmet_indices(types, indices)?;
    Ok(earlier(front, path))
}

// ---- all instructions

/// The earliest type that isn't what an instruction asks by itself, in a function with this result.
#[tactic(auto, unfolding(pg_check_rules::specs::Written::op_demands, pg_check_rules::specs::Earliest::earliest))]
pub fn op_demands(
    types: &TypeNumbers<'_>,
    returned: &TypeNode,
    op: &OpNode,
) -> Result<Option<Span>, AllocError>
    ensures place { IfOk result (λ o. o ≡ earliest (flat_map (unmet (named_types types.now))
        (op_demands (named_types types.now) (resolved (named_types types.now) (ty_of returned.now)) (op_of op.now)))) }
{
    match op {
        OpNode::Binary { ty, .. } => unmet_one(types, TypeTest::Integer, ty),
        OpNode::Icmp { ty, .. } => unmet_one(types, TypeTest::Scalar, ty),
        OpNode::Cast { op, value, ty, .. } => unmet_cast(types, *op, value, ty),
        OpNode::Select {
            condition,
            yes,
            no,
            ..
        } => unmet_select(types, condition, yes, no),
        OpNode::Phi { ty, .. } => unmet_one(types, TypeTest::Scalar, ty),
        OpNode::Br { .. } => Ok(None),
        OpNode::CondBr { condition, .. } => unmet_value(types, TypeTest::Bit, condition),
        OpNode::Switch { value, cases, .. } => unmet_switch(types, value, cases.as_slice()),
        OpNode::Call { ty, .. } => unmet_one(types, TypeTest::Returnable, ty),
        OpNode::RetVoid { .. } => Ok(None),
        OpNode::Ret { value, .. } => unmet_value_as(types, returned, value),
        OpNode::Unreachable { .. } => Ok(None),
        OpNode::Alloca { ty, count, .. } => unmet_alloca(types, ty, count),
        OpNode::Load { ty, pointer, .. } => unmet_pointed(types, TypeTest::Scalar, ty, pointer),
        OpNode::Store { value, pointer, .. } => unmet_store(types, value, pointer),
        OpNode::GetElementPtr {
            ty,
            pointer,
            indices,
            ..
        } => { unmet_path(types, ty, pointer, indices.as_slice()) }
    }
}
