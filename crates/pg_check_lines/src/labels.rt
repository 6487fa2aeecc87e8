//! The labels that an instruction names.

ghost use Rattle.std.specs.Prelude.{◌≡◌, [], ◌∷◌, ◌++◌, IfOk, OnOk, map};
ghost use Rattle.std.specs.List.{flat_map};
ghost use Rattle.pg_read_ast.specs.Syntax.{Incoming, Case};
ghost use Rattle.pg_read_ast.specs.Views.{incoming_of, case_of, op_of};
ghost use Rattle.pg_check_rules.specs.Starts.{names_behind};
ghost use Rattle.pg_check_rules.specs.Written.{label_targets, label_sources};
ghost use Rattle.pg_check_rules.specs.ValueConditions.{Scope};
ghost use Rattle.pg_check_rules.specs.LineConditions.{no_block};
ghost use Rattle.pg_check_rules.specs.Earliest.{earliest};
ghost use Rattle.pg_check_values.specs.Scopes.{IsLineScope};

use pg_check_rules::earlier;
use pg_check_types::place_of_name;
use pg_check_values::LineScope;
use pg_read_ast::{CaseNode, IncomingNode, Name, OpNode};
use pg_read_lex::Span;
use std::alloc::{AllocError, Global};

/// Adds the labels of cases.
fn add_case_labels<'a>(all: &mut Vec<&'a Name>, cases: &'a [CaseNode]) -> Result<(), AllocError>
    ensures { OnOk result (names_behind all.new.items ≡ names_behind all.old.items ++ map (λ (c : Case). c.block) (map case_of cases.now)) }
{
    for case in cases {
        all.push(&case.block)?;
    }
    Ok(())
}

/// Adds the labels that a `phi` lists.
fn add_incoming_labels<'a>(
    all: &mut Vec<&'a Name>,
    incomings: &'a [IncomingNode],
) -> Result<(), AllocError>
    ensures { OnOk result (names_behind all.new.items ≡ names_behind all.old.items ++ map (λ (j : Incoming). j.block) (map incoming_of incomings.now)) }
{
    for incoming in incomings {
        all.push(&incoming.block)?;
    }
    Ok(())
}

fn one_label(alloc: Global, one: &Name) -> Result<Vec<&Name>, AllocError>
    ensures { IfOk result (λ v. names_behind v.items ≡ one.now ∷ []) }
{
    let mut all = Vec::new(alloc);
    all.push(one)?;
    Ok(all)
}

fn two_labels<'a>(
    alloc: Global,
    one: &'a Name,
    other: &'a Name,
) -> Result<Vec<&'a Name>, AllocError>
    ensures { IfOk result (λ v. names_behind v.items ≡ one.now ∷ other.now ∷ []) }
{
    let mut all = Vec::new(alloc);
    all.push(one)?;
    all.push(other)?;
    Ok(all)
}

/// The labels of a `switch`: the one for all other values and those of its cases.
fn switch_labels<'a>(
    alloc: Global,
    block: &'a Name,
    cases: &'a [CaseNode],
) -> Result<Vec<&'a Name>, AllocError>
    ensures { IfOk result (λ v. names_behind v.items ≡ (block.now ∷ map (λ (c : Case). c.block) (map case_of cases.now)) ++ []) }
{
    let mut all = one_label(alloc, block)?;
    add_case_labels(&mut all, cases)?;
    Ok(all)
}

/// The labels that a `phi` lists: the first and the others.
fn phi_labels<'a>(
    alloc: Global,
    first: &'a IncomingNode,
    others: &'a [IncomingNode],
) -> Result<Vec<&'a Name>, AllocError>
    ensures { IfOk result (λ v. names_behind v.items ≡ map (λ (j : Incoming). j.block) (incoming_of first.now ∷ map incoming_of others.now)) }
{
    let mut all = one_label(alloc, &first.block)?;
    add_incoming_labels(&mut all, others)?;
    Ok(all)
}

/// The labels of an instruction: those to which it may go on, or those that a `phi` lists.
#[tactic(auto, unfolding(pg_check_rules::specs::Written::label_targets, pg_check_rules::specs::Written::label_sources))]
pub(crate) fn labels_of_line<'a>(alloc: Global, op: &'a OpNode) -> Result<Vec<&'a Name>, AllocError>
    ensures { IfOk result (λ v. names_behind v.items ≡ label_targets (op_of op.now) ++ label_sources (op_of op.now)) }
{
    match op {
        OpNode::Phi { first, others, .. } => phi_labels(alloc, first, others.as_slice()),
        OpNode::Br { block, .. } => one_label(alloc, block),
        OpNode::CondBr { yes, no, .. } => two_labels(alloc, yes, no),
        OpNode::Switch { other, cases, .. } => switch_labels(alloc, other, cases.as_slice()),
        _ => Ok(Vec::new(alloc)),
    }
}

/// A label without a basic block.
#[tactic(auto, unfolding(pg_check_rules::specs::Earliest::earliest))]
fn no_block(scope: &LineScope<'_>, label: &Name) -> Option<Span>
    ensures { (g : Scope) → IsLineScope scope.now g → result ≡ earliest (no_block g.labels label.now) }
{
    match place_of_name(scope.labels, label.text.as_slice()) {
        Some(_) => None,
        None => Some(label.span),
    }
}

/// The earliest of labels that has no basic block.
fn missing_blocks(scope: &LineScope<'_>, labels: &[&Name]) -> Option<Span>
    ensures { (g : Scope) → IsLineScope scope.now g → result ≡ earliest (flat_map (no_block g.labels) (names_behind labels.now)) }
{
    let mut found = None;
    for label in labels {
        found = earlier(found, no_block(scope, label));
    }
    found
}

/// The earliest label of an instruction that has no basic block.
pub fn missing_labels(scope: &LineScope<'_>, op: &OpNode) -> Result<Option<Span>, AllocError>
    ensures { (g : Scope) → IsLineScope scope.now g → IfOk result (λ o. o ≡
        earliest (flat_map (no_block g.labels) (label_targets (op_of op.now) ++ label_sources (op_of op.now)))) }
{
    let labels = labels_of_line(scope.values.alloc, op)?;
    Ok(missing_blocks(scope, labels.as_slice()))
}
