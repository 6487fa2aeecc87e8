//! The `phi` lines of a block, and which of them are refused.

ghost use Rattle.std.specs.Prelude.{◌≡◌, ◌≤◌, ◌&&◌, ◌==◌, not, [], ◌∷◌, IfOk, List, ℕ, map, length, drop, if◌then◌else◌};
ghost use Rattle.std.specs.List.{flat_map, prefix_len};
ghost use Rattle.pg_read_ast.specs.declared.names.Name as pg_name;
ghost use Rattle.pg_read_ast.specs.Syntax.{Incoming, Line};
ghost use Rattle.pg_read_ast.specs.Views.{op_of, incoming_of};
ghost use Rattle.pg_check_types.specs.NameIndex.{known_place};
ghost use Rattle.pg_check_rules.specs.Earliest.{earliest};
ghost use Rattle.pg_check_rules.specs.Names.{label_number};
ghost use Rattle.pg_check_rules.specs.Starts.{names_behind};
ghost use Rattle.pg_check_rules.specs.Written.{is_phi_op, label_sources};
ghost use Rattle.pg_check_rules.specs.BlockConditions.{phi_word, phi_span, same_labels, are_labels, wrong_sources};
ghost use Rattle.pg_check_bodies.specs.BodyBlocks.{bare_node};

use crate::name_index::{are_known, same_labels};
use indexmap::IndexMap;
use pg_check_rules::earlier;
use pg_read_ast::{IncomingNode, LineNode, Name, OpNode};
use pg_read_lex::Span;
use std::alloc::{AllocError, Global};

fn is_phi(op: &OpNode) -> bool
    ensures { result ≡ is_phi_op (op_of op.now) }
{
    match op {
        OpNode::Phi { .. } => true,
        _ => false,
    }
}

#[tactic(auto, unfolding(pg_check_rules::specs::Earliest::earliest))]
fn phi_word(op: &OpNode) -> Option<Span>
    ensures { result ≡ earliest (phi_word (op_of op.now)) }
{
    match op {
        OpNode::Phi { span, .. } => Some(*span),
        _ => None,
    }
}

#[tactic(auto, unfolding(pg_check_rules::specs::Earliest::earliest))]
fn phi_word_if(test: bool, op: &OpNode) -> Option<Span>
    ensures { result ≡ earliest (if test then phi_word (op_of op.now) else []) }
{
    if test { phi_word(op) } else { None }
}

/// The first of the lines that is a `phi`.
pub(crate) fn phi_words(lines: &[LineNode]) -> Option<Span>
    ensures { result ≡ earliest (flat_map phi_span (map bare_node lines.now)) }
{
    let mut found = None;
    for line in lines {
        found = earlier(found, phi_word(&line.op));
    }
    found
}

/// The number of lines before the first that isn't a `phi`.
fn phi_count(lines: &[LineNode]) -> usize
    ensures within { result ≤ length lines.now }
    ensures count { result ≡ prefix_len (λ (l : Line). is_phi_op l.op) (map bare_node lines.now) }
{
    for (index, line) in lines.iter().enumerate() {
        if !is_phi(&line.op) {
            return index;
        }
    }
    lines.len()
}

/// The first `phi` behind another instruction.
pub(crate) fn late_phi(lines: &[LineNode]) -> Option<Span>
    ensures { result ≡ earliest (flat_map phi_span (drop (prefix_len (λ (l : Line). is_phi_op l.op) (map bare_node lines.now)) (map bare_node lines.now))) }
{
    let count = phi_count(lines);
    phi_words(&lines[count..])
}

/// The first `phi` of a function's first block.
#[tactic(auto, unfolding(pg_check_rules::specs::Earliest::earliest))]
pub(crate) fn first_block_phi(number: usize, lines: &[LineNode]) -> Option<Span>
    ensures { result ≡ earliest (if number == 0 then flat_map phi_span (map bare_node lines.now) else []) }
{
    if number == 0 { phi_words(lines) } else { None }
}

fn phi_sources<'a>(
    alloc: Global,
    first: &'a IncomingNode,
    others: &'a [IncomingNode],
) -> Result<Vec<&'a Name>, AllocError>
    ensures { IfOk result (λ v. names_behind v.items ≡ map (λ (j : Incoming). j.block) (incoming_of first.now ∷ map incoming_of others.now)) }
{
    let mut all = Vec::new(alloc);
    all.push(&first.block)?;
    for other in others {
        all.push(&other.block)?;
    }
    Ok(all)
}

/// The labels that a `phi` lists, and none of another operation.
#[tactic(auto, unfolding(pg_check_rules::specs::Written::label_sources))]
fn sources<'a>(alloc: Global, op: &'a OpNode) -> Result<Vec<&'a Name>, AllocError>
    ensures { IfOk result (λ v. names_behind v.items ≡ label_sources (op_of op.now)) }
{
    match op {
        OpNode::Phi { first, others, .. } => phi_sources(alloc, first, others.as_slice()),
        _ => Ok(Vec::new(alloc)),
    }
}

/// Whether labels that a `phi` lists have blocks, and are others than those of its predecessors.
fn are_wrong(
    alloc: Global,
    labels: &IndexMap<&[u8], usize>,
    index: &IndexMap<&[u8], usize>,
    before: &[&Name],
    listed: &[&Name],
) -> Result<bool, AllocError>
    requires { (text : List ℕ) → known_place index.now text ≡ label_number (names_behind before.now) text }
    ensures { (all : List pg_name.Name) → ((text : List ℕ) → known_place labels.now text ≡ label_number all text) →
        IfOk result (λ b. b ≡ (are_labels all (names_behind listed.now) && not (same_labels (names_behind before.now) (names_behind listed.now)))) }
{
    if are_known(labels, listed) {
        let same = same_labels(alloc, index, before, listed)?;
        Ok(!same)
    } else {
        Ok(false)
    }
}

/// A `phi` that lists other labels than those of its predecessors, which the index has.
fn wrong_sources(
    alloc: Global,
    labels: &IndexMap<&[u8], usize>,
    index: &IndexMap<&[u8], usize>,
    before: &[&Name],
    line: &LineNode,
) -> Result<Option<Span>, AllocError>
    requires { (text : List ℕ) → known_place index.now text ≡ label_number (names_behind before.now) text }
    ensures { (all : List pg_name.Name) → ((text : List ℕ) → known_place labels.now text ≡ label_number all text) →
        IfOk result (λ o. o ≡ earliest (wrong_sources all (names_behind before.now) (bare_node line.now))) }
{
    let listed = sources(alloc, &line.op)?;
    let wrong = are_wrong(alloc, labels, index, before, listed.as_slice())?;
    Ok(phi_word_if(wrong, &line.op))
}

/// The first `phi` of the lines that lists other labels than those of its predecessors, which the index has.
pub(crate) fn all_wrong_sources(
    alloc: Global,
    labels: &IndexMap<&[u8], usize>,
    index: &IndexMap<&[u8], usize>,
    before: &[&Name],
    lines: &[LineNode],
) -> Result<Option<Span>, AllocError>
    requires { (text : List ℕ) → known_place index.now text ≡ label_number (names_behind before.now) text }
    ensures { (all : List pg_name.Name) → ((text : List ℕ) → known_place labels.now text ≡ label_number all text) →
        IfOk result (λ o. o ≡ earliest (flat_map (wrong_sources all (names_behind before.now)) (map bare_node lines.now))) }
{
    let mut found = None;
    for line in lines {
        let own = wrong_sources(alloc, labels, index, before, line)?;
        found = earlier(found, own);
    }
    Ok(found)
}
