//! Whether types are those of a signature.

ghost use Rattle.std.specs.Prelude.{◌≡◌, IfOk, Option, map, ◌<◌};
ghost use Rattle.std.specs.List.{list_all};
ghost use Rattle.std.specs.Option.{option_map};
ghost use Rattle.pg_read_ast.specs.Views.{ty_of, dparam_of};
ghost use Rattle.pg_check_types.specs.Resolved.{ResolvedType, resolved, same_width};
ghost use Rattle.pg_check_types.specs.Kinds.{kind_of};
ghost use Rattle.pg_check_types.specs.NumberedTypes.{named_types};
ghost use Rattle.pg_check_rules.specs.Nodes.{tys_behind};
ghost use Rattle.pg_check_rules.specs.CallConditions.{is_resolved};
ghost use Rattle.pg_check_rules.specs.Conditions.{is_scalar_type, is_result, are_params};
ghost use Rattle.pg_check_rules.specs.Signatures.{is_param};

use pg_check_types::{TypeKind, TypeNumbers};
use pg_ir::Scalar;
use pg_num::Width;
use pg_read_ast::{DparamNode, TypeNode};
use std::alloc::AllocError;

fn same_width(one: Width, other: Width) -> bool
    ensures { result ≡ same_width one other }
{
    one.bits() == other.bits()
}

fn is_scalar_kind(scalar: Scalar, kind: Option<TypeKind>) -> bool
    ensures { (t : Option ResolvedType) → kind ≡ option_map kind_of t → result ≡ is_scalar_type scalar t }
{
    match (scalar, kind) {
        (Scalar::Int(one), Some(TypeKind::Integer(other))) => same_width(one, other),
        (Scalar::Ptr, Some(TypeKind::Pointer)) => true,
        _ => false,
    }
}

/// Whether a type is this scalar.
fn is_scalar_type(
    types: &TypeNumbers<'_>,
    scalar: Scalar,
    ty: &TypeNode,
) -> Result<bool, AllocError>
    ensures same { IfOk result (λ b. b ≡ is_scalar_type scalar (resolved (named_types types.now) (ty_of ty.now))) }
{
    let kind = types.kind(ty)?;
    Ok(is_scalar_kind(scalar, kind))
}

/// Whether a type is this result, or `void` where there is none.
pub fn is_result(
    types: &TypeNumbers<'_>,
    scalar: Option<Scalar>,
    ty: &TypeNode,
) -> Result<bool, AllocError>
    ensures same { IfOk result (λ b. b ≡ is_result scalar (resolved (named_types types.now) (ty_of ty.now))) }
{
    match scalar {
        Some(scalar) => is_scalar_type(types, scalar, ty),
        None => match types.kind(ty)? {
            Some(TypeKind::Void) => Ok(true),
            _ => Ok(false),
        },
    }
}

fn is_param(types: &TypeNumbers<'_>, scalar: Scalar, param: &DparamNode) -> Result<bool, AllocError>
    ensures same { IfOk result (λ b. b ≡ is_param (named_types types.now) scalar (dparam_of param.now)) }
{
    match param {
        DparamNode::Param(param) => is_scalar_type(types, scalar, &param.ty),
        DparamNode::Metadata(_) => Ok(false),
        DparamNode::Dots(_) => Ok(false),
    }
}

/// Whether parameters have just these types.
pub fn are_params(
    types: &TypeNumbers<'_>,
    scalars: &[Scalar],
    params: &[DparamNode],
) -> Result<bool, AllocError>
    ensures same { IfOk result (λ b. b ≡ are_params (named_types types.now) scalars.now (map dparam_of params.now)) }
{
    if scalars.len() != params.len() {
        return Ok(false);
    }
    // By place: of `zip` it would have to be proved that it ends.
    for index in 0..scalars.len() {
        if !is_param(types, scalars[index], &params[index])? {
            return Ok(false);
        }
    }
    Ok(true)
}

/// Whether what is written is a type.
pub fn is_type(types: &TypeNumbers<'_>, ty: &TypeNode) -> Result<bool, AllocError>
    ensures same { IfOk result (λ b. b ≡ is_resolved (named_types types.now) (ty_of ty.now)) }
{
    let kind = types.kind(ty)?;
    Ok(kind.is_some())
}

/// Whether each of these is a type.
pub fn are_types(types: &TypeNumbers<'_>, all: &[&TypeNode]) -> Result<bool, AllocError>
    ensures same { IfOk result (λ b. b ≡ list_all (is_resolved (named_types types.now)) (tys_behind all.now)) }
{
    for ty in all {
        if !is_type(types, ty)? {
            return Ok(false);
        }
    }
    Ok(true)
}
