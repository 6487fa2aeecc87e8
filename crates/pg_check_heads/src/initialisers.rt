//! The values and the types of an initialiser, in the order of the text.

ghost use Rattle.std.specs.Prelude.{◌≡◌, ◌++◌, ◌∷◌, [], OnOk, map};
ghost use Rattle.std.specs.List.{flat_map};
ghost use Rattle.pg_read_ast.specs.Views.{ty_of, val_of, const_of, typed_const_of};
ghost use Rattle.pg_check_rules.specs.Nodes.{tys_behind};
ghost use Rattle.pg_check_rules.specs.Written.{constant_at, const_uses, const_types};
ghost use Rattle.pg_check_heads.specs.Initialisers.{uses_behind, use_row, type_row};

use pg_read_ast::{ConstNode, TypeNode, TypedConst, ValNode};
use std::alloc::AllocError;

/// A value of an initialiser, and the type that is written before it.
#[derive(Clone, Copy)]
pub(crate) struct UseNode<'a> {
    pub ty: &'a TypeNode,
    pub value: &'a ValNode,
}

fn add_use<'a>(
    all: &mut Vec<UseNode<'a>>,
    ty: &'a TypeNode,
    value: &'a ValNode,
) -> Result<(), AllocError>
    ensures { OnOk result (uses_behind all.new.items ≡ uses_behind all.old.items ++ constant_at (ty_of ty.now) (val_of value.now) ∷ []) }
{
    all.push(UseNode { ty, value })?;
    Ok(())
}

/// Adds the values of a constant, each at the type that is written before it.
#[cycle(uses)]
#[tactic(auto, unfolding(pg_check_rules::specs::Written::const_uses))]
pub(crate) fn add_uses<'a>(
    all: &mut Vec<UseNode<'a>>,
    value: &'a ConstNode,
    ty: &'a TypeNode,
) -> Result<(), AllocError>
    ensures { OnOk result (uses_behind all.new.items ≡ uses_behind all.old.items ++ const_uses (ty_of ty.now) (const_of value.now)) }
{
    match value {
        ConstNode::Val(value) => add_use(all, ty, value),
        ConstNode::Bytes(_) => Ok(()),
        ConstNode::Array(_, parts) => add_part_uses(all, parts.as_slice()),
        ConstNode::Struct(_, parts) => add_part_uses(all, parts.as_slice()),
    }
}

#[cycle(uses)]
fn add_part_uses<'a>(all: &mut Vec<UseNode<'a>>, parts: &'a [TypedConst]) -> Result<(), AllocError>
    ensures { OnOk result (uses_behind all.new.items ≡ uses_behind all.old.items ++ flat_map use_row (map typed_const_of parts.now)) }
{
    for part in parts {
        add_uses(all, &part.value, &part.ty)?;
    }
    Ok(())
}

/// Adds the types that are written before the parts of a constant.
#[cycle(parts)]
#[tactic(auto, unfolding(pg_check_rules::specs::Written::const_types))]
pub(crate) fn add_types<'a>(
    all: &mut Vec<&'a TypeNode>,
    value: &'a ConstNode,
) -> Result<(), AllocError>
    ensures { OnOk result (tys_behind all.new.items ≡ tys_behind all.old.items ++ const_types (const_of value.now)) }
{
    match value {
        ConstNode::Val(_) => Ok(()),
        ConstNode::Bytes(_) => Ok(()),
        ConstNode::Array(_, parts) => add_part_types(all, parts.as_slice()),
        ConstNode::Struct(_, parts) => add_part_types(all, parts.as_slice()),
    }
}

#[cycle(parts)]
fn add_part_types<'a>(
    all: &mut Vec<&'a TypeNode>,
    parts: &'a [TypedConst],
) -> Result<(), AllocError>
    ensures { OnOk result (tys_behind all.new.items ≡ tys_behind all.old.items ++ flat_map type_row (map typed_const_of parts.now)) }
{
    for part in parts {
        all.push(&part.ty)?;
        add_types(all, &part.value)?;
    }
    Ok(())
}
