//! The canonical text of types.

ghost use Rattle.std.specs.Prelude.{◌≡◌, ◌++◌, OnOk, map, codes, flat_map};
ghost use Rattle.pg_read_ast.specs.Text.{type_text, fields_text};
ghost use Rattle.pg_read_ast.specs.Views.{ty_of};
ghost use Rattle.pg_read_ast.specs.Syntax.{tys};

use crate::names::Literal;
use crate::print::names::{put, put_local, put_text};
use crate::types::TypeNode;
use std::alloc::AllocError;

#[cycle(print_types)]
#[tactic(auto, unfolding(crate::specs::Text::type_text))]
pub fn put_type(out: &mut Vec<u8>, node: &TypeNode) -> Result<(), AllocError>
    ensures { OnOk result (out.new.items ≡ out.old.items ++ type_text (ty_of node.now)) }
{
    match node {
        TypeNode::I1(_) => put_text(out, "i1"),
        TypeNode::I8(_) => put_text(out, "i8"),
        TypeNode::I16(_) => put_text(out, "i16"),
        TypeNode::I32(_) => put_text(out, "i32"),
        TypeNode::I64(_) => put_text(out, "i64"),
        TypeNode::Ptr(_) => put_text(out, "ptr"),
        TypeNode::Void(_) => put_text(out, "void"),
        TypeNode::Array(_, count, element) => put_array(out, count, element),
        TypeNode::Struct(_, fields) => put_fields(out, fields.as_slice()),
        TypeNode::Named(name) => put_local(out, name),
    }
}

#[cycle(print_types)]
fn put_array(out: &mut Vec<u8>, count: &Literal, element: &TypeNode) -> Result<(), AllocError>
    ensures { OnOk result (out.new.items ≡ out.old.items
        ++ (codes "[" ++ (count.now.text ++ (codes " x " ++ (type_text (ty_of element.now) ++ codes "]"))))) }
{
    put_text(out, "[")?;
    put(out, count.text.as_slice())?;
    put_text(out, " x ")?;
    put_type(out, element)?;
    put_text(out, "]")
}

#[cycle(print_types)]
#[tactic(auto, unfolding(crate::specs::Text::type_text))]
fn put_fields(out: &mut Vec<u8>, fields: &[TypeNode]) -> Result<(), AllocError>
    ensures { OnOk result (out.new.items ≡ out.old.items ++ (codes "{" ++ fields_text (tys (map ty_of fields.now)))) }
{
    match fields {
        [] => put_text(out, "{}"),
        [first, more @ ..] => {
            put_text(out, "{ ")?;
            put_type(out, first)?;
            for field in more {
                put_text(out, ", ")?;
                put_type(out, field)?;
            }
            put_text(out, " }")
        }
    }
}

/// Appends types, each behind a comma.
pub fn put_more_types(out: &mut Vec<u8>, all: &[TypeNode]) -> Result<(), AllocError>
    ensures { OnOk result (out.new.items ≡ out.old.items ++ flat_map (λ t. codes ", " ++ type_text t) (map ty_of all.now)) }
{
    for each in all {
        put_text(out, ", ")?;
        put_type(out, each)?;
    }
    Ok(())
}

/// Appends a text, and a type behind it.
pub fn put_type_behind(out: &mut Vec<u8>, before: &str, node: &TypeNode) -> Result<(), AllocError>
    ensures { OnOk result (out.new.items ≡ out.old.items ++ (before.now ++ type_text (ty_of node.now))) }
{
    put_text(out, before)?;
    put_type(out, node)
}
