//! The names of a function's labels and registers, and the types of its registers.

ghost use Rattle.std.specs.Prelude.{◌≡◌, ◌++◌, [], IfOk, OnOk, List, length, map};
ghost use Rattle.std.specs.List.{filter_map, flat_map, cons_option};
ghost use Rattle.pg_read_ast.specs.Syntax.{NamedType, Param};
ghost use Rattle.pg_read_ast.specs.Numbers.{each_at, behind_all, line_at, behind_line, block_at, behind_block, numbered};
ghost use Rattle.pg_read_ast.specs.Views.{param_of, line_of, block_of, define_of};
ghost use Rattle.pg_check_types.specs.Resolved.{resolved};
ghost use Rattle.pg_check_types.specs.NumberedTypes.{named_types};
ghost use Rattle.pg_check_rules.specs.Names.{labels_of, line_register, block_registers, registers_of};
ghost use Rattle.pg_check_names.specs.Registers.{register_type, registers_by, block_label};

use crate::numbered_names::pass_name;
use crate::register_type::RegisterType;
use crate::results::result_type;
use pg_check_rules::{numbered_name, param_names};
use pg_check_types::TypeNumbers;
use pg_read_ast::{BlockNode, DefineItem, LineNode, Name, NextNumber, ParamNode};
use std::alloc::{AllocError, Global};

/// The names of a function's labels and registers, each unnamed one by its number, and the types of the registers.
#[derive(Drop)]
pub struct OwnNames<'a> {
    pub labels: Vec<Name>,
    pub registers: Vec<Name>,
    pub types: Vec<RegisterType<'a>>,
}

/// Adds the result of a line, where it gives a value.
fn add_line<'a>(
    alloc: Global,
    types: &TypeNumbers<'_>,
    next: &mut NextNumber,
    names: &mut Vec<Name>,
    kinds: &mut Vec<RegisterType<'a>>,
    line: &'a LineNode,
) -> Result<(), AllocError>
    requires { length kinds.old.items ≡ length names.old.items }
    ensures registers { OnOk result (registers_by (named_types types.now) names.new.items kinds.new.items
        ≡ registers_by (named_types types.now) names.old.items kinds.old.items
        ++ cons_option (line_register (named_types types.now) (line_at (named_types types.now) next.old (line_of line.now))) []) }
    ensures next { OnOk result (next.new ≡ behind_line (named_types types.now) next.old (line_of line.now)) }
    ensures lengths { OnOk result (length kinds.new.items ≡ length names.new.items) }
{
    match result_type(types, &line.op)? {
        Some(kind) => {
            let name = numbered_name(alloc, next, &line.name)?;
            names.push(name)?;
            kinds.push(kind)?;
            Ok(())
        }
        None => pass_name(alloc, next, &line.name),
    }
}

/// Adds the results of lines.
fn add_lines<'a>(
    alloc: Global,
    types: &TypeNumbers<'_>,
    next: &mut NextNumber,
    names: &mut Vec<Name>,
    kinds: &mut Vec<RegisterType<'a>>,
    lines: &'a [LineNode],
) -> Result<(), AllocError>
    requires { length kinds.old.items ≡ length names.old.items }
    ensures registers { OnOk result (registers_by (named_types types.now) names.new.items kinds.new.items
        ≡ registers_by (named_types types.now) names.old.items kinds.old.items
        ++ filter_map (line_register (named_types types.now)) (each_at (behind_line (named_types types.now)) (line_at (named_types types.now)) next.old (map line_of lines.now))) }
    ensures next { OnOk result (next.new ≡ behind_all (behind_line (named_types types.now)) next.old (map line_of lines.now)) }
    ensures lengths { OnOk result (length kinds.new.items ≡ length names.new.items) }
{
    for line in lines {
        add_line(alloc, types, next, names, kinds, line)?;
    }
    Ok(())
}

/// Adds the labels of blocks, and the results of their lines.
#[tactic(auto, unfolding(pg_read_ast::specs::Numbers::block_at, pg_read_ast::specs::Numbers::behind_block))]
fn add_blocks<'a>(
    alloc: Global,
    types: &TypeNumbers<'_>,
    next: &mut NextNumber,
    labels: &mut Vec<Name>,
    names: &mut Vec<Name>,
    kinds: &mut Vec<RegisterType<'a>>,
    blocks: &'a [BlockNode],
) -> Result<(), AllocError>
    requires { length kinds.old.items ≡ length names.old.items }
    ensures labels { OnOk result (labels.new.items ≡ labels.old.items
        ++ filter_map block_label (each_at (behind_block (named_types types.now)) (block_at (named_types types.now)) next.old (map block_of blocks.now))) }
    ensures registers { OnOk result (registers_by (named_types types.now) names.new.items kinds.new.items
        ≡ registers_by (named_types types.now) names.old.items kinds.old.items
        ++ flat_map (block_registers (named_types types.now)) (each_at (behind_block (named_types types.now)) (block_at (named_types types.now)) next.old (map block_of blocks.now))) }
    ensures lengths { OnOk result (length kinds.new.items ≡ length names.new.items) }
{
    for block in blocks {
        let label = numbered_name(alloc, next, &block.label)?;
        labels.push(label)?;
        add_lines(alloc, types, next, names, kinds, block.lines.as_slice())?;
    }
    Ok(())
}

/// The types of parameters.
fn param_types<'a>(
    alloc: Global,
    params: &'a [ParamNode],
) -> Result<Vec<RegisterType<'a>>, AllocError>
    ensures { (types : List NamedType) →
        IfOk result (λ v. map (register_type types) v.items ≡ map (λ (p : Param). resolved types p.ty) (map param_of params.now)) }
{
    let mut kinds = Vec::new(alloc);
    for param in params {
        kinds.push(RegisterType::Written(&param.ty))?;
    }
    Ok(kinds)
}

/// The names of a function's labels and registers, and the types of its registers: parameters first, and then the
/// results of instructions.
pub fn own_names<'a>(
    alloc: Global,
    types: &TypeNumbers<'_>,
    item: &'a DefineItem,
) -> Result<OwnNames<'a>, AllocError>
    ensures labels { IfOk result (λ o. o.labels.items ≡ labels_of (numbered (named_types types.now) (define_of item.now))) }
    ensures registers { IfOk result (λ o. registers_by (named_types types.now) o.registers.items o.types.items
        ≡ registers_of (named_types types.now) (numbered (named_types types.now) (define_of item.now))) }
    ensures lengths { IfOk result (λ o. length o.types.items ≡ length o.registers.items) }
{
    let mut next = NextNumber::zero(alloc);
    let mut names = param_names(alloc, &mut next, item.params.as_slice())?;
    let mut kinds = param_types(alloc, item.params.as_slice())?;
    let mut labels = Vec::new(alloc);
    add_blocks(
        alloc,
        types,
        &mut next,
        &mut labels,
        &mut names,
        &mut kinds,
        item.blocks.as_slice(),
    )?;
    Ok(OwnNames {
        labels,
        registers: names,
        types: kinds,
    })
}
