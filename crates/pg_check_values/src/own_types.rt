//! The types that values write by themselves.

ghost use Rattle.std.specs.Prelude.{◌≡◌, ◌++◌, ◌∷◌, [], OnOk, Bool, map};
ghost use Rattle.std.specs.List.{flat_map};
ghost use Rattle.pg_read_ast.specs.Syntax.{Ty, Typed};
ghost use Rattle.pg_read_ast.specs.Views.{ty_of, val_of, typed_of};
ghost use Rattle.pg_check_rules.specs.Nodes.{tys_behind};
ghost use Rattle.pg_check_rules.specs.Written.{Use, with_inner, inner_uses, own_types};
ghost use Rattle.pg_check_values.specs.Steps.{type_row};

use pg_read_ast::{TypeNode, TypedVal, ValNode};
use std::alloc::AllocError;

fn add_index_types<'a>(
    all: &mut Vec<&'a TypeNode>,
    indices: &'a [TypedVal],
) -> Result<(), AllocError>
    ensures { OnOk result (tys_behind all.new.items ≡ tys_behind all.old.items ++ map (λ (i : Typed). i.ty) (map typed_of indices.now)) }
{
    for index in indices {
        all.push(&index.ty)?;
    }
    Ok(())
}

fn add_two<'a>(
    all: &mut Vec<&'a TypeNode>,
    one: &'a TypeNode,
    other: &'a TypeNode,
) -> Result<(), AllocError>
    ensures { OnOk result (tys_behind all.new.items ≡ tys_behind all.old.items ++ (ty_of one.now ∷ ty_of other.now ∷ [])) }
{
    all.push(one)?;
    all.push(other)?;
    Ok(())
}

/// Adds the types that a value writes by itself.
fn add_own<'a>(all: &mut Vec<&'a TypeNode>, value: &'a ValNode) -> Result<(), AllocError>
    ensures { OnOk result (tys_behind all.new.items ≡ tys_behind all.old.items ++ own_types (val_of value.now)) }
{
    match value {
        ValNode::GetElementPtr(_, ty, pointer, _, indices) => {
            add_two(all, ty, pointer)?;
            add_index_types(all, indices.as_slice())
        }
        ValNode::IntToPtr(_, ty, _, pointer) => add_two(all, ty, pointer),
        _ => Ok(()),
    }
}

/// Adds the types that the values within a value write by themselves.
#[cycle(written)]
#[tactic(auto, unfolding(pg_check_rules::specs::Written::inner_uses, pg_check_rules::specs::Written::index_uses))]
fn add_inner<'a>(all: &mut Vec<&'a TypeNode>, value: &'a ValNode) -> Result<(), AllocError>
    ensures { OnOk result (tys_behind all.new.items ≡ tys_behind all.old.items ++ flat_map (λ (u : Use). own_types u.value) (inner_uses (val_of value.now))) }
{
    match value {
        ValNode::GetElementPtr(_, _, _, base, indices) => {
            add_own(all, base)?;
            add_inner(all, base)?;
            add_inner_indices(all, indices.as_slice())
        }
        _ => Ok(()),
    }
}

#[cycle(written)]
fn add_inner_indices<'a>(
    all: &mut Vec<&'a TypeNode>,
    indices: &'a [TypedVal],
) -> Result<(), AllocError>
    ensures { OnOk result (tys_behind all.new.items ≡ tys_behind all.old.items ++ flat_map type_row (map typed_of indices.now)) }
{
    for index in indices {
        add_own(all, &index.value)?;
        add_inner(all, &index.value)?;
    }
    Ok(())
}

/// Adds the types that a value and those within it write by themselves.
pub fn add_own_types<'a>(all: &mut Vec<&'a TypeNode>, value: &'a ValNode) -> Result<(), AllocError>
    ensures { (c : Bool) (t : Ty) → OnOk result (tys_behind all.new.items ≡ tys_behind all.old.items
        ++ flat_map (λ (u : Use). own_types u.value) (with_inner (record { constant = c; ty = t; value = val_of value.now }))) }
{
    add_own(all, value)?;
    add_inner(all, value)
}
