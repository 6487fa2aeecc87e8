//! Names by their places, and lists of the same names.

ghost use Rattle.std.specs.Prelude.{◌≡◌, IfOk, List, ℕ, map, is_some};
ghost use Rattle.pg_check_types.specs.NameIndex.{known_place, texts_of};
ghost use Rattle.pg_check_rules.specs.Names.{label_number};
ghost use Rattle.pg_check_rules.specs.Starts.{names_behind};
ghost use Rattle.pg_check_rules.specs.BlockConditions.{same_labels};
ghost use Rattle.pg_check_bodies.specs.BodyBlocks.{name_text, are_known};

use indexmap::IndexMap;
use pg_check_rules::references;
use pg_check_types::{index_names, place_of_name};
use pg_read_ast::Name;
use std::alloc::{AllocError, Global};

fn texts<'a>(alloc: Global, names: &[&'a Name]) -> Result<Vec<&'a [u8]>, AllocError>
    ensures { IfOk result (λ v. texts_of v.items ≡ map name_text (names_behind names.now)) }
{
    let mut all = Vec::new(alloc);
    for name in names {
        all.push(name.text.as_slice())?;
    }
    Ok(all)
}

/// The place of the first of each name.
pub(crate) fn index_references<'a>(
    alloc: Global,
    names: &[&'a Name],
) -> Result<IndexMap<&'a [u8], usize>, AllocError>
    ensures { IfOk result (λ m. (text : List ℕ) → known_place m text ≡ label_number (names_behind names.now) text) }
{
    let all = texts(alloc, names)?;
    // In two lines for the proof: see docs/CONTRIBUTING.md.
    let places = index_names(alloc, all.as_slice())?;
    Ok(places)
}

/// The place of the first of each name.
pub(crate) fn index_owned<'a>(
    alloc: Global,
    names: &'a [Name],
) -> Result<IndexMap<&'a [u8], usize>, AllocError>
    ensures { IfOk result (λ m. (text : List ℕ) → known_place m text ≡ label_number names.now text) }
{
    let all = references(alloc, names)?;
    index_references(alloc, all.as_slice())
}

fn is_known(index: &IndexMap<&[u8], usize>, name: &Name) -> bool
    ensures { result ≡ is_some (known_place index.now name.now.text) }
{
    place_of_name(index, name.text.as_slice()).is_some()
}

/// Whether each of these names has a place.
pub(crate) fn are_known(index: &IndexMap<&[u8], usize>, names: &[&Name]) -> bool
    ensures { result ≡ are_known index.now (names_behind names.now) }
{
    for name in names {
        if !is_known(index, name) {
            return false;
        }
    }
    true
}

/// Whether names and those that an index has are the same, each at least once.
pub(crate) fn same_labels(
    alloc: Global,
    index: &IndexMap<&[u8], usize>,
    names: &[&Name],
    others: &[&Name],
) -> Result<bool, AllocError>
    requires { (text : List ℕ) → known_place index.now text ≡ label_number (names_behind names.now) text }
    ensures { IfOk result (λ b. b ≡ same_labels (names_behind names.now) (names_behind others.now)) }
{
    if are_known(index, others) {
        let other_index = index_references(alloc, others)?;
        Ok(are_known(&other_index, names))
    } else {
        Ok(false)
    }
}
