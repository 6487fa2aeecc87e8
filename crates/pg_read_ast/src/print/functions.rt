//! The canonical text of functions that are defined.

ghost use Rattle.std.specs.Prelude.{◌≡◌, ◌++◌, OnOk, map, codes, flat_map, Some};
ghost use Rattle.std.specs.List.{join_by};
ghost use Rattle.pg_read_ast.specs.Text.{name_text, result_text, line_text, block_text, param_text, head_text, define_text};
ghost use Rattle.pg_read_ast.specs.Numbers.{name_at, after, each_at, behind_all, param_at, behind_param, result_at, after_result, line_at, behind_line, block_at, behind_block, numbered, gives};
ghost use Rattle.pg_read_ast.specs.Views.{ty_of, line_of, block_of, param_of, type_item_of, define_of};

use crate::names::Name;
use crate::nodes::{BlockNode, DefineItem, LineNode, ParamNode, TypeItem};
use crate::print::names::{put_name, put_name_behind, put_text};
use crate::print::numbers::NextNumber;
use crate::print::ops::put_op;
use crate::print::types::{put_type, put_type_behind};
use crate::print::voids::has_result;
use std::alloc::{AllocError, Global};

/// Appends a thing's name, or the next number where it has none.
#[tactic(auto, using(crate::proofs::Decimals::decimal_bare))]
fn put_numbered(
    alloc: Global,
    out: &mut Vec<u8>,
    next: &mut NextNumber,
    name: &Option<Name>,
) -> Result<(), AllocError>
    ensures text { OnOk result (out.new.items ≡ out.old.items ++ name_text (name_at next.old name.now).text) }
    ensures next { OnOk result (next.new ≡ after next.old name.now) }
{
    match name {
        None => {
            next.put(out)?;
            next.count_up(alloc)
        }
        Some(name) => {
            put_name(out, name)?;
            next.pass(alloc, name.text.as_slice())
        }
    }
}

fn put_result(
    alloc: Global,
    out: &mut Vec<u8>,
    next: &mut NextNumber,
    gives: bool,
    name: &Option<Name>,
) -> Result<(), AllocError>
    ensures text { OnOk result (out.new.items ≡ out.old.items ++ result_text (result_at gives next.old name.now)) }
    ensures next { OnOk result (next.new ≡ after_result gives next.old name.now) }
{
    if !gives && name.is_none() {
        return Ok(());
    }
    put_text(out, "%")?;
    put_numbered(alloc, out, next, name)?;
    put_text(out, " = ")
}

#[tactic(auto, unfolding(crate::specs::Text::line_text))]
fn put_line(
    alloc: Global,
    out: &mut Vec<u8>,
    next: &mut NextNumber,
    types: &[TypeItem],
    node: &LineNode,
) -> Result<(), AllocError>
    ensures text { OnOk result (out.new.items ≡ out.old.items ++ line_text (line_at (map type_item_of types.now) next.old (line_of node.now))) }
    ensures next { OnOk result (next.new ≡ behind_line (map type_item_of types.now) next.old (line_of node.now)) }
{
    put_text(out, "  ")?;
    put_result(alloc, out, next, has_result(types, &node.op), &node.name)?;
    put_op(out, &node.op)?;
    put_text(out, "\n")
}

#[tactic(auto, using(crate::proofs::Counting::going_begin))]
fn put_lines(
    alloc: Global,
    out: &mut Vec<u8>,
    next: &mut NextNumber,
    types: &[TypeItem],
    all: &[LineNode],
) -> Result<(), AllocError>
    ensures text { OnOk result (out.new.items ≡ out.old.items
        ++ flat_map line_text (each_at (behind_line (map type_item_of types.now)) (line_at (map type_item_of types.now)) next.old (map line_of all.now))) }
    ensures next { OnOk result (next.new ≡ behind_all (behind_line (map type_item_of types.now)) next.old (map line_of all.now)) }
{
    for each in all {
        put_line(alloc, out, next, types, each)?;
    }
    Ok(())
}

#[tactic(auto, unfolding(crate::specs::Text::block_text, crate::specs::Numbers::block_at, crate::specs::Numbers::behind_block))]
fn put_block(
    alloc: Global,
    out: &mut Vec<u8>,
    next: &mut NextNumber,
    types: &[TypeItem],
    node: &BlockNode,
) -> Result<(), AllocError>
    ensures text { OnOk result (out.new.items ≡ out.old.items ++ block_text (block_at (map type_item_of types.now) next.old (block_of node.now))) }
    ensures next { OnOk result (next.new ≡ behind_block (map type_item_of types.now) next.old (block_of node.now)) }
{
    put_numbered(alloc, out, next, &node.label)?;
    put_text(out, ":\n")?;
    put_lines(alloc, out, next, types, node.lines.as_slice())
}

#[tactic(auto, using(crate::proofs::Counting::going_begin))]
fn put_blocks(
    alloc: Global,
    out: &mut Vec<u8>,
    next: &mut NextNumber,
    types: &[TypeItem],
    all: &[BlockNode],
) -> Result<(), AllocError>
    ensures { OnOk result (out.new.items ≡ out.old.items
        ++ flat_map block_text (each_at (behind_block (map type_item_of types.now)) (block_at (map type_item_of types.now)) next.old (map block_of all.now))) }
{
    for each in all {
        put_block(alloc, out, next, types, each)?;
    }
    Ok(())
}

#[tactic(auto, unfolding(crate::specs::Text::param_text))]
fn put_param(
    alloc: Global,
    out: &mut Vec<u8>,
    next: &mut NextNumber,
    node: &ParamNode,
) -> Result<(), AllocError>
    ensures text { OnOk result (out.new.items ≡ out.old.items ++ param_text (param_at next.old (param_of node.now))) }
    ensures next { OnOk result (next.new ≡ behind_param next.old (param_of node.now)) }
{
    put_type(out, &node.ty)?;
    put_text(out, " %")?;
    put_numbered(alloc, out, next, &node.name)
}

#[tactic(auto, using(crate::proofs::Counting::going_begin))]
fn put_more_params(
    alloc: Global,
    out: &mut Vec<u8>,
    next: &mut NextNumber,
    all: &[ParamNode],
) -> Result<(), AllocError>
    ensures text { OnOk result (out.new.items ≡ out.old.items ++ flat_map (λ p. codes ", " ++ param_text p) (each_at behind_param param_at next.old (map param_of all.now))) }
    ensures next { OnOk result (next.new ≡ behind_all behind_param next.old (map param_of all.now)) }
{
    for each in all {
        put_text(out, ", ")?;
        put_param(alloc, out, next, each)?;
    }
    Ok(())
}

fn put_params(
    alloc: Global,
    out: &mut Vec<u8>,
    next: &mut NextNumber,
    all: &[ParamNode],
) -> Result<(), AllocError>
    ensures text { OnOk result (out.new.items ≡ out.old.items ++ join_by param_text (codes ", ") (each_at behind_param param_at next.old (map param_of all.now))) }
    ensures next { OnOk result (next.new ≡ behind_all behind_param next.old (map param_of all.now)) }
{
    match all {
        [] => Ok(()),
        [first, more @ ..] => {
            put_param(alloc, out, next, first)?;
            put_more_params(alloc, out, next, more)
        }
    }
}

#[tactic(auto, unfolding(crate::specs::Text::head_text))]
fn put_head(
    alloc: Global,
    out: &mut Vec<u8>,
    next: &mut NextNumber,
    node: &DefineItem,
) -> Result<(), AllocError>
    ensures text { OnOk result (out.new.items ≡ out.old.items ++ head_text (ty_of node.now.result) node.now.name (each_at behind_param param_at next.old (map param_of node.now.params.items))) }
    ensures next { OnOk result (next.new ≡ behind_all behind_param next.old (map param_of node.now.params.items)) }
{
    put_type_behind(out, "define ", &node.result)?;
    put_name_behind(out, " @", &node.name)?;
    put_text(out, "(")?;
    put_params(alloc, out, next, node.params.as_slice())?;
    put_text(out, ") {\n")
}

/// Appends the text of a definition, in which each parameter, block and result has its name or its number.
#[tactic(auto, unfolding(crate::specs::Text::define_text, crate::specs::Numbers::numbered))]
pub fn put_define(
    alloc: Global,
    out: &mut Vec<u8>,
    types: &[TypeItem],
    node: &DefineItem,
) -> Result<(), AllocError>
    ensures { OnOk result (out.new.items ≡ out.old.items ++ define_text (numbered (map type_item_of types.now) (define_of node.now))) }
{
    let mut next = NextNumber::zero(alloc);
    put_head(alloc, out, &mut next, node)?;
    put_blocks(alloc, out, &mut next, types, node.blocks.as_slice())?;
    put_text(out, "}\n")
}
