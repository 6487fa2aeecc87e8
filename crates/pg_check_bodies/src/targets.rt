//! The predecessors of a block.

ghost use Rattle.std.specs.Prelude.{◌≡◌, ◌++◌, [], OnOk, IfOk, map, Some, ◌||◌};
ghost use Rattle.std.specs.List.{flat_map, cons_option};
ghost use Rattle.std.specs.Str.{bytes_eq};
ghost use Rattle.pg_read_ast.specs.Syntax.{Case, Line};
ghost use Rattle.pg_read_ast.specs.Views.{op_of, case_of};
ghost use Rattle.pg_check_rules.specs.Starts.{names_behind};
ghost use Rattle.pg_check_rules.specs.Written.{label_targets};
ghost use Rattle.pg_check_rules.specs.BlockConditions.{has_text, goes_to, label_if, predecessors};
ghost use Rattle.pg_check_bodies.specs.BodyBlocks.{bare_node, named_block};

use crate::blocks::NamedBlock;
use pg_num::either;
use pg_read_ast::{CaseNode, LineNode, Name, OpNode};
use std::alloc::{AllocError, Global};

fn is_called(name: &Name, text: &[u8]) -> bool
    ensures { result ≡ bytes_eq name.now.text text.now }
{
    name.text.as_slice() == text
}

fn cases_go_to(cases: &[CaseNode], text: &[u8]) -> bool
    ensures { result ≡ has_text (map (λ (c : Case). c.block) (map case_of cases.now)) text.now }
{
    for case in cases {
        if is_called(&case.block, text) {
            return true;
        }
    }
    false
}

/// Whether an operation may go on to the block of a label.
#[tactic(auto, unfolding(pg_check_rules::specs::Written::label_targets))]
fn op_goes_to(op: &OpNode, text: &[u8]) -> bool
    ensures { result ≡ has_text (label_targets (op_of op.now)) text.now }
{
    match op {
        OpNode::Br { block, .. } => is_called(block, text),
        OpNode::CondBr { yes, no, .. } => either(is_called(yes, text), is_called(no, text)),
        OpNode::Switch { other, cases, .. } => {
            either(is_called(other, text), cases_go_to(cases.as_slice(), text))
        }
        _ => false,
    }
}

/// Whether one of the lines may go on to the block of a label.
fn lines_go_to(lines: &[LineNode], text: &[u8]) -> bool
    ensures { result ≡ has_text (flat_map (λ (l : Line). label_targets l.op) (map bare_node lines.now)) text.now }
{
    for line in lines {
        if op_goes_to(&line.op, text) {
            return true;
        }
    }
    false
}

/// Adds the label of a block that may go on to the block of a label.
fn add_predecessor<'a>(
    all: &mut Vec<&'a Name>,
    block: &NamedBlock<'a>,
    label: &Name,
) -> Result<(), AllocError>
    ensures { OnOk result (names_behind all.new.items ≡ names_behind all.old.items
        ++ cons_option (label_if (goes_to (Some label.now) (named_block block.now)) (named_block block.now).label) []) }
{
    if lines_go_to(block.lines, label.text.as_slice()) {
        all.push(block.label)?;
        Ok(())
    } else {
        Ok(())
    }
}

/// The labels of the blocks that go on to the block of a label.
#[tactic(auto, using(pg_check_rules::proofs::Parts::filter_step), unfolding(pg_check_rules::specs::BlockConditions::predecessors))]
pub(crate) fn predecessors<'a>(
    alloc: Global,
    blocks: &[NamedBlock<'a>],
    label: &Name,
) -> Result<Vec<&'a Name>, AllocError>
    ensures { IfOk result (λ v. names_behind v.items ≡ predecessors (map named_block blocks.now) (Some label.now)) }
{
    let mut all = Vec::new(alloc);
    for block in blocks {
        add_predecessor(&mut all, block, label)?;
    }
    Ok(all)
}
