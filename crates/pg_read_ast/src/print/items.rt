//! The canonical text of type items, globals and declared functions.

ghost use Rattle.std.specs.Prelude.{◌≡◌, ◌++◌, OnOk, map, codes, flat_map};
ghost use Rattle.std.specs.List.{join_by};
ghost use Rattle.pg_read_ast.specs.Text.{param_name_text, param_text, dparam_text, type_item_text, constancy_text, global_item_text, declare_text};
ghost use Rattle.pg_read_ast.specs.Views.{param_of, dparam_of, type_item_of, global_of, declare_of};

use crate::names::Name;
use crate::nodes::{DeclareItem, DparamNode, GlobalItem, ParamNode, TypeItem};
use crate::print::names::{put_global, put_local, put_name_behind, put_text};
use crate::print::types::{put_type, put_type_behind};
use crate::print::values::put_const;
use std::alloc::AllocError;

fn put_param_name(out: &mut Vec<u8>, name: &Option<Name>) -> Result<(), AllocError>
    ensures { OnOk result (out.new.items ≡ out.old.items ++ param_name_text name.now) }
{
    match name {
        None => Ok(()),
        Some(name) => put_name_behind(out, " %", name),
    }
}

#[tactic(auto, unfolding(crate::specs::Text::param_text))]
fn put_param(out: &mut Vec<u8>, node: &ParamNode) -> Result<(), AllocError>
    ensures { OnOk result (out.new.items ≡ out.old.items ++ param_text (param_of node.now)) }
{
    put_type(out, &node.ty)?;
    put_param_name(out, &node.name)
}

#[tactic(auto, unfolding(crate::specs::Text::dparam_text))]
fn put_dparam(out: &mut Vec<u8>, node: &DparamNode) -> Result<(), AllocError>
    ensures { OnOk result (out.new.items ≡ out.old.items ++ dparam_text (dparam_of node.now)) }
{
    match node {
        DparamNode::Param(param) => put_param(out, param),
        DparamNode::Metadata(_) => put_text(out, "metadata"),
        DparamNode::Dots(_) => put_text(out, "..."),
    }
}

fn put_more_dparams(out: &mut Vec<u8>, all: &[DparamNode]) -> Result<(), AllocError>
    ensures { OnOk result (out.new.items ≡ out.old.items ++ flat_map (λ p. codes ", " ++ dparam_text p) (map dparam_of all.now)) }
{
    for each in all {
        put_text(out, ", ")?;
        put_dparam(out, each)?;
    }
    Ok(())
}

fn put_dparams(out: &mut Vec<u8>, all: &[DparamNode]) -> Result<(), AllocError>
    ensures { OnOk result (out.new.items ≡ out.old.items ++ join_by dparam_text (codes ", ") (map dparam_of all.now)) }
{
    match all {
        [] => Ok(()),
        [first, more @ ..] => {
            put_dparam(out, first)?;
            put_more_dparams(out, more)
        }
    }
}

#[tactic(auto, unfolding(crate::specs::Text::type_item_text))]
pub fn put_type_item(out: &mut Vec<u8>, item: &TypeItem) -> Result<(), AllocError>
    ensures { OnOk result (out.new.items ≡ out.old.items ++ type_item_text (type_item_of item.now)) }
{
    put_local(out, &item.name)?;
    put_type_behind(out, " = type ", &item.ty)?;
    put_text(out, "\n")
}

#[tactic(auto, unfolding(crate::specs::Text::constancy_text))]
fn put_constancy(out: &mut Vec<u8>, is_constant: bool) -> Result<(), AllocError>
    ensures { OnOk result (out.new.items ≡ out.old.items ++ constancy_text is_constant) }
{
    if is_constant {
        put_text(out, " = constant ")
    } else {
        put_text(out, " = global ")
    }
}

#[tactic(auto, unfolding(crate::specs::Text::global_item_text))]
pub fn put_global_item(out: &mut Vec<u8>, item: &GlobalItem) -> Result<(), AllocError>
    ensures { OnOk result (out.new.items ≡ out.old.items ++ global_item_text (global_of item.now)) }
{
    put_global(out, &item.name)?;
    put_constancy(out, item.is_constant)?;
    put_type(out, &item.ty)?;
    put_text(out, " ")?;
    put_const(out, &item.value)?;
    put_text(out, "\n")
}

#[tactic(auto, unfolding(crate::specs::Text::declare_text))]
pub fn put_declare(out: &mut Vec<u8>, item: &DeclareItem) -> Result<(), AllocError>
    ensures { OnOk result (out.new.items ≡ out.old.items ++ declare_text (declare_of item.now)) }
{
    put_type_behind(out, "declare ", &item.result)?;
    put_name_behind(out, " @", &item.name)?;
    put_text(out, "(")?;
    put_dparams(out, item.params.as_slice())?;
    put_text(out, ")\n")
}
