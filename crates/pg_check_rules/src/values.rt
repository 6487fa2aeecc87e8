//! Which constants may stand at a type.

ghost use Rattle.std.specs.Prelude.{◌≡◌, IfOk, Option};
ghost use Rattle.std.specs.Option.{option_map};
ghost use Rattle.pg_read_ast.specs.Views.{ty_of, val_of};
ghost use Rattle.pg_check_types.specs.Resolved.{ResolvedType, resolved, is_bit, is_pointer};
ghost use Rattle.pg_check_types.specs.Kinds.{kind_of, fails};
ghost use Rattle.pg_check_types.specs.NumberedTypes.{named_types};
ghost use Rattle.pg_check_rules.specs.Written.{isnt_void};
ghost use Rattle.pg_check_rules.specs.ValueConditions.{fits_integer, fits};

use pg_check_types::{TypeKind, TypeNumbers, literal_in};
use pg_num::Width;
use pg_read_ast::{TypeNode, ValNode};
use std::alloc::AllocError;

fn fits_integer(kind: TypeKind, text: &[u8]) -> bool
    ensures { (t : ResolvedType) → kind ≡ kind_of t → result ≡ fits_integer t text.now }
{
    match kind {
        TypeKind::Integer(width) => literal_in(width, text).is_some(),
        _ => false,
    }
}

fn is_bit(kind: TypeKind) -> bool
    ensures { (t : ResolvedType) → kind ≡ kind_of t → result ≡ is_bit t }
{
    match kind {
        TypeKind::Integer(Width::W1) => true,
        _ => false,
    }
}

fn is_pointer(kind: TypeKind) -> bool
    ensures { (t : ResolvedType) → kind ≡ kind_of t → result ≡ is_pointer t }
{
    match kind {
        TypeKind::Pointer => true,
        _ => false,
    }
}

fn isnt_void(kind: TypeKind) -> bool
    ensures { (t : ResolvedType) → kind ≡ kind_of t → result ≡ isnt_void t }
{
    match kind {
        TypeKind::Void => false,
        _ => true,
    }
}

/// Whether a constant may stand at a type of this kind. A register may, as far as its own type isn't asked for.
fn fits(kind: TypeKind, value: &ValNode) -> bool
    ensures { (t : ResolvedType) → kind ≡ kind_of t → result ≡ fits t (val_of value.now) }
{
    match value {
        ValNode::Int(literal) => fits_integer(kind, literal.text.as_slice()),
        ValNode::True(_) => is_bit(kind),
        ValNode::False(_) => is_bit(kind),
        ValNode::Null(_) => is_pointer(kind),
        ValNode::Undef(_) => isnt_void(kind),
        ValNode::Poison(_) => isnt_void(kind),
        ValNode::ZeroInitializer(_) => isnt_void(kind),
        ValNode::Local(_) => true,
        ValNode::Global(_) => is_pointer(kind),
        ValNode::GetElementPtr(_, _, _, _, _) => is_pointer(kind),
        ValNode::IntToPtr(_, _, _, _) => is_pointer(kind),
    }
}

fn fails_kind(kind: Option<TypeKind>, value: &ValNode) -> bool
    ensures { (t : Option ResolvedType) → kind ≡ option_map kind_of t → result ≡ fails (λ u. fits u (val_of value.now)) t }
{
    match kind {
        Some(kind) => !fits(kind, value),
        None => false,
    }
}

/// Whether a constant may not stand at a type.
pub fn is_misplaced(
    types: &TypeNumbers<'_>,
    ty: &TypeNode,
    value: &ValNode,
) -> Result<bool, AllocError>
    ensures fails { IfOk result (λ b. b ≡ fails (λ u. fits u (val_of value.now)) (resolved (named_types types.now) (ty_of ty.now))) }
{
    let kind = types.kind(ty)?;
    Ok(fails_kind(kind, value))
}
