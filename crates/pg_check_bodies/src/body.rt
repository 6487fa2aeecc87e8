//! The first refusal of the body of a function.

ghost use Rattle.std.specs.Prelude.{◌≡◌, ◌+◌, IfOk, List, ℕ};
ghost use Rattle.pg_read_ast.specs.Syntax.{Tree};
ghost use Rattle.pg_read_ast.specs.Numbers.{numbered};
ghost use Rattle.pg_read_ast.specs.Views.{define_of, tree_of};
ghost use Rattle.pg_check_types.specs.NameIndex.{known_place};
ghost use Rattle.pg_check_types.specs.NumberedTypes.{named_types};
ghost use Rattle.pg_check_rules.specs.Earliest.{IsFirstIn};
ghost use Rattle.pg_check_rules.specs.Names.{label_number, line_count};
ghost use Rattle.pg_check_rules.specs.LineConditions.{line_refused};
ghost use Rattle.pg_check_rules.specs.Conditions.{all_of, all_lines, scope_of, body_refused};
ghost use Rattle.pg_check_bodies.specs.BodyBlocks.{capped};
ghost use Rattle.pg_check_bodies.specs.BodyParts.{whole_refused, AreOwn};

use crate::blocks::{bad_phis, named_blocks};
use crate::body_lines::{are_large, blocks_refusal};
use crate::doubled_names::doubled_own;
use crate::limits::{are_too_many, is_over_limits, is_unfinished};
use crate::name_index::index_owned;
use indexmap::IndexMap;
use pg_check_calls::pg_check_names::{OwnNames, own_names};
use pg_check_calls::pg_check_values::{LineScope, ValueScope};
use pg_check_rules::{CheckKind, CheckRefusal, Symbols, earlier_refusal, place_if, refusal_at};
use pg_check_types::TypeNumbers;
use pg_read_ast::DefineItem;
use std::alloc::{AllocError, Global};

/// The first refusal of a function as a whole, its lines aside.
fn whole_refusal(
    alloc: Global,
    types: &TypeNumbers<'_>,
    labels: &IndexMap<&[u8], usize>,
    own: &OwnNames<'_>,
    until: usize,
    item: &DefineItem,
) -> Result<Option<CheckRefusal>, AllocError>
    requires own { AreOwn (named_types types.now) (define_of item.now) own.now }
    requires labels { (text : List ℕ) → known_place labels.now text ≡ label_number own.now.labels.items text }
    ensures first { (m : Tree) (lines : ℕ) → m.types ≡ named_types types.now → until ≡ capped (lines + line_count (define_of item.now)) →
        IfOk result (λ o. IsFirstIn (whole_refused m lines (numbered m.types (define_of item.now))) o) }
{
    let blocks = named_blocks(alloc, own.labels.as_slice(), item.blocks.as_slice())?;
    let twice = doubled_own(
        alloc,
        own.labels.as_slice(),
        own.registers.as_slice(),
        item.params.len(),
    )?;
    let phis = bad_phis(alloc, labels, blocks.as_slice())?;
    let large = are_large(alloc, types, item.blocks.as_slice())?;
    let over = is_over_limits(large, own.registers.len(), are_too_many(until));
    let unfinished = is_unfinished(item.blocks.as_slice());
    let named = earlier_refusal(
        refusal_at(CheckKind::Doubled, twice),
        refusal_at(CheckKind::NoBlock, place_if(unfinished, item.name.span)),
    );
    let other = earlier_refusal(
        refusal_at(CheckKind::BadPhi, phis),
        refusal_at(CheckKind::TooLarge, place_if(over, item.name.span)),
    );
    Ok(earlier_refusal(named, other))
}

/// The first refusal of the lines of a function.
fn all_lines_refusal(
    alloc: Global,
    types: &TypeNumbers<'_>,
    symbols: &Symbols<'_>,
    labels: &IndexMap<&[u8], usize>,
    own: &OwnNames<'_>,
    item: &DefineItem,
) -> Result<Option<CheckRefusal>, AllocError>
    requires tree { named_types types.now ≡ (tree_of symbols.now.tree.now).types }
    requires own { AreOwn (named_types types.now) (define_of item.now) own.now }
    requires labels { (text : List ℕ) → known_place labels.now text ≡ label_number own.now.labels.items text }
    ensures first { (m : Tree) → m ≡ tree_of symbols.now.tree.now →
        IfOk result (λ o. IsFirstIn (all_of (line_refused (scope_of m (numbered m.types (define_of item.now)))) (all_lines (numbered m.types (define_of item.now)))) o) }
{
    let registers = index_owned(alloc, own.registers.as_slice())?;
    let scope = LineScope {
        values: ValueScope {
            alloc,
            symbols,
            types,
            registers: &registers,
            register_types: own.types.as_slice(),
        },
        labels,
        result: &item.result,
    };
    // In two lines for the proof: see docs/CONTRIBUTING.md.
    let found = blocks_refusal(&scope, item.blocks.as_slice())?;
    Ok(found)
}

/// The first refusal of a function whose names these are.
fn own_refusal(
    alloc: Global,
    types: &TypeNumbers<'_>,
    symbols: &Symbols<'_>,
    own: &OwnNames<'_>,
    until: usize,
    item: &DefineItem,
) -> Result<Option<CheckRefusal>, AllocError>
    requires tree { named_types types.now ≡ (tree_of symbols.now.tree.now).types }
    requires own { AreOwn (named_types types.now) (define_of item.now) own.now }
    ensures first { (m : Tree) (lines : ℕ) → m ≡ tree_of symbols.now.tree.now → until ≡ capped (lines + line_count (define_of item.now)) →
        IfOk result (λ o. IsFirstIn (body_refused m lines (numbered m.types (define_of item.now))) o) }
{
    let labels = index_owned(alloc, own.labels.as_slice())?;
    let whole = whole_refusal(alloc, types, &labels, own, until, item)?;
    let lines = all_lines_refusal(alloc, types, symbols, &labels, own, item)?;
    Ok(earlier_refusal(whole, lines))
}

/// The first refusal of the body of a function, where so many instructions stand in the program up to its end.
pub(crate) fn body_refusal(
    alloc: Global,
    types: &TypeNumbers<'_>,
    symbols: &Symbols<'_>,
    until: usize,
    item: &DefineItem,
) -> Result<Option<CheckRefusal>, AllocError>
    requires { named_types types.now ≡ (tree_of symbols.now.tree.now).types }
    ensures first { (m : Tree) (lines : ℕ) → m ≡ tree_of symbols.now.tree.now → until ≡ capped (lines + line_count (define_of item.now)) →
        IfOk result (λ o. IsFirstIn (body_refused m lines (numbered m.types (define_of item.now))) o) }
{
    let own = own_names(alloc, types, item)?;
    // In two lines for the proof: see docs/CONTRIBUTING.md.
    let found = own_refusal(alloc, types, symbols, &own, until, item)?;
    Ok(found)
}
