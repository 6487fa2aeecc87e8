//! The blocks of a body with their names, and the `phi` lines for which they are refused.

ghost use Rattle.std.specs.Prelude.{◌≡◌, IfOk, List, ℕ, map, length, Some};
ghost use Rattle.std.specs.List.{flat_map, enumerate_from};
ghost use Rattle.pg_read_ast.specs.declared.names.Name as pg_name;
ghost use Rattle.pg_read_ast.specs.Syntax.{Block};
ghost use Rattle.pg_check_types.specs.NameIndex.{known_place};
ghost use Rattle.pg_check_rules.specs.Earliest.{earliest};
ghost use Rattle.pg_check_rules.specs.Names.{label_number};
ghost use Rattle.pg_check_rules.specs.BlockConditions.{wrong_sources, predecessors, bad_phis};
ghost use Rattle.pg_check_bodies.specs.BodyBlocks.{bare_blocks, named_block};

use crate::name_index::index_references;
use crate::phis::{all_wrong_sources, first_block_phi, late_phi, phi_words};
use crate::targets::predecessors;
use indexmap::IndexMap;
use pg_check_rules::earlier;
use pg_read_ast::{BlockNode, LineNode, Name};
use pg_read_lex::Span;
use std::alloc::{AllocError, Global};

/// A basic block with its name, which may be a number.
#[derive(Clone, Copy)]
pub(crate) struct NamedBlock<'a> {
    pub label: &'a Name,
    pub lines: &'a [LineNode],
}

fn named_block<'a>(label: &'a Name, block: &'a BlockNode) -> NamedBlock<'a>
    ensures label { result.label.now ≡ label.now }
    ensures lines { result.lines.now ≡ block.now.lines.items }
{
    NamedBlock {
        label,
        lines: block.lines.as_slice(),
    }
}

/// Blocks with their names.
pub(crate) fn named_blocks<'a>(
    alloc: Global,
    labels: &'a [Name],
    blocks: &'a [BlockNode],
) -> Result<Vec<NamedBlock<'a>>, AllocError>
    requires { length labels.now ≡ length blocks.now }
    ensures { IfOk result (λ v. map named_block v.items ≡ bare_blocks labels.now blocks.now) }
{
    let mut all = Vec::new(alloc);
    for index in 0..blocks.len() {
        all.push(named_block(&labels[index], &blocks[index]))?;
    }
    Ok(all)
}

/// The first `phi` of a block that lists other labels than those of its predecessors.
fn wrong_sources(
    alloc: Global,
    labels: &IndexMap<&[u8], usize>,
    blocks: &[NamedBlock<'_>],
    block: &NamedBlock<'_>,
) -> Result<Option<Span>, AllocError>
    ensures { (all : List pg_name.Name) → ((text : List ℕ) → known_place labels.now text ≡ label_number all text) →
        IfOk result (λ o. o ≡ earliest (flat_map (wrong_sources all (predecessors (map named_block blocks.now) (named_block block.now).label)) (named_block block.now).lines)) }
{
    let before = predecessors(alloc, blocks, block.label)?;
    let index = index_references(alloc, before.as_slice())?;
    // In two lines for the proof: see docs/CONTRIBUTING.md.
    let wrong = all_wrong_sources(alloc, labels, &index, before.as_slice(), block.lines)?;
    Ok(wrong)
}

/// The first `phi` of a block that stands where none may, or lists other labels than those of its predecessors. The
/// predecessors of a block without a `phi` aren't asked for.
fn block_phis(
    alloc: Global,
    labels: &IndexMap<&[u8], usize>,
    blocks: &[NamedBlock<'_>],
    number: usize,
    block: &NamedBlock<'_>,
) -> Result<Option<Span>, AllocError>
    ensures { (all : List pg_name.Name) → ((text : List ℕ) → known_place labels.now text ≡ label_number all text) →
        IfOk result (λ o. o ≡ earliest (bad_phis all (map named_block blocks.now) number (named_block block.now))) }
{
    match phi_words(block.lines) {
        Some(_) => {
            let late = late_phi(block.lines);
            let early = first_block_phi(number, block.lines);
            let wrong = wrong_sources(alloc, labels, blocks, block)?;
            Ok(earlier(late, earlier(early, wrong)))
        }
        None => Ok(None),
    }
}

/// The first `phi` of a function that stands where none may, or lists other labels than those of its predecessors.
pub(crate) fn bad_phis(
    alloc: Global,
    labels: &IndexMap<&[u8], usize>,
    blocks: &[NamedBlock<'_>],
) -> Result<Option<Span>, AllocError>
    ensures { (all : List pg_name.Name) → ((text : List ℕ) → known_place labels.now text ≡ label_number all text) →
        IfOk result (λ o. o ≡ earliest (flat_map (λ (b : ℕ × Block). bad_phis all (map named_block blocks.now) b.0 b.1) (enumerate_from 0 (map named_block blocks.now)))) }
{
    let mut found = None;
    for number in 0..blocks.len() {
        let own = block_phis(alloc, labels, blocks, number, &blocks[number])?;
        found = earlier(found, own);
    }
    Ok(found)
}
