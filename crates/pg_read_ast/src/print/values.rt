//! The canonical text of values and constants.

ghost use Rattle.std.specs.Prelude.{◌≡◌, ◌++◌, OnOk, map, codes, flat_map};
ghost use Rattle.pg_read_ast.specs.Text.{quoted, val_text, typed_text, more_typed_text, int_to_ptr_text, gep_head, gep_text, zero_text};
ghost use Rattle.pg_read_ast.specs.Text.{const_text, consts_text, padding_text, typed_const_text};
ghost use Rattle.pg_read_ast.specs.Views.{ty_of, val_of, typed_of, const_of, typed_const_of};
ghost use Rattle.pg_read_ast.specs.Syntax.{consts};

use crate::names::Literal;
use crate::print::names::{put, put_global, put_local, put_quoted, put_text};
use crate::print::types::{put_type, put_type_behind};
use crate::types::TypeNode;
use crate::values::{ConstNode, TypedConst, TypedVal, ValNode};
use std::alloc::AllocError;

#[cycle(print_values)]
#[tactic(auto, using(crate::proofs::Rows::more_vals_are), unfolding(crate::specs::Text::val_text, crate::specs::Text::typed_text))]
pub fn put_val(out: &mut Vec<u8>, node: &ValNode) -> Result<(), AllocError>
    ensures { OnOk result (out.new.items ≡ out.old.items ++ val_text (val_of node.now)) }
{
    match node {
        ValNode::Int(number) => put(out, number.text.as_slice()),
        ValNode::True(_) => put_text(out, "true"),
        ValNode::False(_) => put_text(out, "false"),
        ValNode::Null(_) => put_text(out, "null"),
        ValNode::Undef(_) => put_text(out, "undef"),
        ValNode::Poison(_) => put_text(out, "poison"),
        ValNode::ZeroInitializer(_) => put_zero(out),
        ValNode::Local(name) => put_local(out, name),
        ValNode::Global(name) => put_global(out, name),
        ValNode::GetElementPtr(_, ty, pointer_type, pointer, indices) => {
            put_gep_head(out, ty, pointer_type)?;
            put_val(out, pointer)?;
            put_more_typed(out, indices.as_slice())?;
            put_text(out, ")")
        }
        ValNode::IntToPtr(_, from, number, to) => put_int_to_ptr(out, from, number, to),
    }
}

#[tactic(auto, unfolding(crate::specs::Text::int_to_ptr_text))]
fn put_int_to_ptr(
    out: &mut Vec<u8>,
    from: &TypeNode,
    number: &Literal,
    to: &TypeNode,
) -> Result<(), AllocError>
    ensures { OnOk result (out.new.items ≡ out.old.items ++ int_to_ptr_text (ty_of from.now) number.now (ty_of to.now)) }
{
    put_type_behind(out, "inttoptr (", from)?;
    put_text(out, " ")?;
    put(out, number.text.as_slice())?;
    put_type_behind(out, " to ", to)?;
    put_text(out, ")")
}

#[tactic(auto, unfolding(crate::specs::Text::gep_head))]
fn put_gep_head(out: &mut Vec<u8>, ty: &TypeNode, pointer: &TypeNode) -> Result<(), AllocError>
    ensures { OnOk result (out.new.items ≡ out.old.items ++ gep_head (ty_of ty.now) (ty_of pointer.now)) }
{
    put_gep_word(out)?;
    put_type_behind(out, "(", ty)?;
    put_type_behind(out, ", ", pointer)?;
    put_text(out, " ")
}

#[tactic(auto, unfolding(crate::specs::Text::gep_text))]
pub fn put_gep_word(out: &mut Vec<u8>) -> Result<(), AllocError>
    ensures { OnOk result (out.new.items ≡ out.old.items ++ gep_text) }
{
    put_text(out, "getelementptr ")
}

#[tactic(auto, unfolding(crate::specs::Text::zero_text))]
fn put_zero(out: &mut Vec<u8>) -> Result<(), AllocError>
    ensures { OnOk result (out.new.items ≡ out.old.items ++ zero_text) }
{
    put_text(out, "zeroinitializer")
}

#[cycle(print_values)]
pub fn put_more_typed(out: &mut Vec<u8>, all: &[TypedVal]) -> Result<(), AllocError>
    ensures { OnOk result (out.new.items ≡ out.old.items ++ flat_map more_typed_text (map typed_of all.now)) }
{
    for each in all {
        put_text(out, ", ")?;
        put_typed(out, each)?;
    }
    Ok(())
}

#[cycle(print_values)]
#[tactic(auto, unfolding(crate::specs::Text::typed_text))]
pub fn put_typed(out: &mut Vec<u8>, node: &TypedVal) -> Result<(), AllocError>
    ensures { OnOk result (out.new.items ≡ out.old.items ++ typed_text (typed_of node.now)) }
{
    put_type(out, &node.ty)?;
    put_text(out, " ")?;
    put_val(out, &node.value)
}

/// Appends a text, and a value behind it.
pub fn put_val_behind(out: &mut Vec<u8>, before: &str, node: &ValNode) -> Result<(), AllocError>
    ensures { OnOk result (out.new.items ≡ out.old.items ++ (before.now ++ val_text (val_of node.now))) }
{
    put_text(out, before)?;
    put_val(out, node)
}

/// Appends a text, and a value and its type behind it.
pub fn put_typed_behind(out: &mut Vec<u8>, before: &str, node: &TypedVal) -> Result<(), AllocError>
    ensures { OnOk result (out.new.items ≡ out.old.items ++ (before.now ++ typed_text (typed_of node.now))) }
{
    put_text(out, before)?;
    put_typed(out, node)
}

#[cycle(print_constants)]
#[tactic(auto, unfolding(crate::specs::Text::const_text))]
pub fn put_const(out: &mut Vec<u8>, node: &ConstNode) -> Result<(), AllocError>
    ensures { OnOk result (out.new.items ≡ out.old.items ++ const_text (const_of node.now)) }
{
    match node {
        ConstNode::Val(value) => put_val(out, value),
        ConstNode::Bytes(bytes) => put_bytes(out, bytes.text.as_slice()),
        ConstNode::Array(_, elements) => put_array(out, elements.as_slice()),
        ConstNode::Struct(_, members) => put_struct(out, members.as_slice()),
    }
}

fn put_bytes(out: &mut Vec<u8>, bytes: &[u8]) -> Result<(), AllocError>
    ensures { OnOk result (out.new.items ≡ out.old.items ++ (codes "c" ++ quoted bytes.now)) }
{
    put_text(out, "c")?;
    put_quoted(out, bytes)
}

#[cycle(print_constants)]
fn put_array(out: &mut Vec<u8>, elements: &[TypedConst]) -> Result<(), AllocError>
    ensures { OnOk result (out.new.items ≡ out.old.items ++ (codes "[" ++ (consts_text (consts (map typed_const_of elements.now)) ++ codes "]"))) }
{
    put_text(out, "[")?;
    put_consts(out, elements)?;
    put_text(out, "]")
}

#[cycle(print_constants)]
fn put_struct(out: &mut Vec<u8>, members: &[TypedConst]) -> Result<(), AllocError>
    ensures { OnOk result (out.new.items ≡ out.old.items ++ (codes "{" ++ (padding_text (consts (map typed_const_of members.now)) ++ (consts_text (consts (map typed_const_of members.now))
        ++ (padding_text (consts (map typed_const_of members.now)) ++ codes "}"))))) }
{
    put_text(out, "{")?;
    put_padding(out, members)?;
    put_consts(out, members)?;
    put_padding(out, members)?;
    put_text(out, "}")
}

#[cycle(print_constants)]
#[tactic(auto, unfolding(crate::specs::Text::typed_const_text))]
fn put_typed_const(out: &mut Vec<u8>, node: &TypedConst) -> Result<(), AllocError>
    ensures { OnOk result (out.new.items ≡ out.old.items ++ typed_const_text (typed_const_of node.now)) }
{
    put_type(out, &node.ty)?;
    put_text(out, " ")?;
    put_const(out, &node.value)
}

#[cycle(print_constants)]
#[tactic(auto, unfolding(crate::specs::Text::const_text))]
fn put_consts(out: &mut Vec<u8>, all: &[TypedConst]) -> Result<(), AllocError>
    ensures { OnOk result (out.new.items ≡ out.old.items ++ consts_text (consts (map typed_const_of all.now))) }
{
    match all {
        [] => Ok(()),
        [first, more @ ..] => {
            put_typed_const(out, first)?;
            for each in more {
                put_text(out, ", ")?;
                put_typed_const(out, each)?;
            }
            Ok(())
        }
    }
}

#[tactic(auto, using(crate::proofs::Rows::padding_some), unfolding(crate::specs::Text::padding_text))]
fn put_padding(out: &mut Vec<u8>, all: &[TypedConst]) -> Result<(), AllocError>
    ensures { OnOk result (out.new.items ≡ out.old.items ++ padding_text (consts (map typed_const_of all.now))) }
{
    match all {
        [] => Ok(()),
        [_, ..] => put_text(out, " "),
    }
}
