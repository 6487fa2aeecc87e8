//! The types within types.

ghost use Rattle.std.specs.Prelude.{◌≡◌, ◌++◌, OnOk, IfOk, map};
ghost use Rattle.std.specs.List.{flat_map};
ghost use Rattle.pg_read_ast.specs.Syntax.{tys};
ghost use Rattle.pg_read_ast.specs.Views.{ty_of};
ghost use Rattle.pg_check_rules.specs.Nodes.{tys_behind};
ghost use Rattle.pg_check_rules.specs.Written.{types_within, types_within_all};

use pg_read_ast::TypeNode;
use std::alloc::{AllocError, Global};

/// Adds a type and those within it, in the order of the text.
#[cycle(within)]
#[tactic(auto, unfolding(crate::specs::Written::types_within, crate::specs::Written::types_within_all))]
pub fn add_types_within<'a>(all: &mut Vec<&'a TypeNode>, ty: &'a TypeNode) -> Result<(), AllocError>
    ensures { OnOk result (tys_behind all.new.items ≡ tys_behind all.old.items ++ types_within (ty_of ty.now)) }
{
    all.push(ty)?;
    match ty {
        TypeNode::Array(_, _, element) => add_types_within(all, element),
        TypeNode::Struct(_, fields) => add_fields_within(all, fields.as_slice()),
        _ => Ok(()),
    }
}

#[cycle(within)]
fn add_fields_within<'a>(
    all: &mut Vec<&'a TypeNode>,
    fields: &'a [TypeNode],
) -> Result<(), AllocError>
    ensures { OnOk result (tys_behind all.new.items ≡ tys_behind all.old.items ++ types_within_all (tys (map ty_of fields.now))) }
{
    for field in fields {
        add_types_within(all, field)?;
    }
    Ok(())
}

/// Types and those within them.
pub fn all_within<'a>(
    alloc: Global,
    types: &[&'a TypeNode],
) -> Result<Vec<&'a TypeNode>, AllocError>
    ensures { IfOk result (λ v. tys_behind v.items ≡ flat_map types_within (tys_behind types.now)) }
{
    let mut all = Vec::new(alloc);
    for ty in types {
        add_types_within(&mut all, *ty)?;
    }
    Ok(all)
}
