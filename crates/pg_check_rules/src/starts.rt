//! Names that stand twice, by where the first of each begins.

ghost use Rattle.std.specs.Prelude.{◌≡◌, OnOk, IfOk, Some, true, ℕ, List};
ghost use Rattle.std.specs.List.{flat_map};
ghost use Rattle.std.specs.Str.{bytes_eq};
ghost use Rattle.pg_read_ast.specs.declared.names.Name.{Name};
ghost use Rattle.pg_check_types.specs.NameIndex.{known_place};
ghost use Rattle.pg_check_rules.specs.Names.{doubled};
ghost use Rattle.pg_check_rules.specs.Earliest.{earliest};
ghost use Rattle.pg_check_rules.specs.Starts.{names_behind, noted_start, first_start, is_before};

use crate::earliest::{earlier, place_if};
use crate::own_names::references;
use indexmap::IndexMap;
use pg_read_ast::Name;
use pg_read_ast::pg_read_lex::Span;
use std::alloc::{AllocError, Global};

/// The earlier of a start that is known, if there is one, and another.
pub fn earlier_start(known: Option<u32>, start: u32) -> u32
    ensures { Some result ≡ noted_start known true start }
{
    match known {
        Some(known) => known.min(start),
        None => start,
    }
}

/// Keeps where a name begins, if no other of it begins before.
fn note_start<'a>(
    starts: &mut IndexMap<&'a [u8], u32>,
    name: &'a [u8],
    start: u32,
) -> Result<(), AllocError>
    ensures { OnOk result ((text : List ℕ) → known_place starts.new text ≡
        noted_start (known_place starts.old text) (bytes_eq name.now text) start) }
{
    let known = starts.get(&name).copied();
    starts.insert(name, earlier_start(known, start))?;
    Ok(())
}

/// Where the first of each name begins.
pub fn index_starts<'a>(
    alloc: Global,
    names: &[&'a Name],
) -> Result<IndexMap<&'a [u8], u32>, AllocError>
    ensures { IfOk result (λ m. (text : List ℕ) → known_place m text ≡ first_start (names_behind names.now) text) }
{
    let mut starts = IndexMap::new(alloc);
    for name in names {
        note_start(&mut starts, name.text.as_slice(), name.span.start)?;
    }
    Ok(starts)
}

/// Whether a start is known that lies before a place.
pub fn is_before(known: Option<u32>, place: u32) -> bool
    ensures { result ≡ is_before known place }
{
    match known {
        Some(start) => start < place,
        None => false,
    }
}

/// A name of which another stands before it.
pub fn doubled(starts: &IndexMap<&[u8], u32>, name: &Name) -> Option<Span>
    ensures { (all : List Name) → ((text : List ℕ) → known_place starts.now text ≡ first_start all text) →
        result ≡ earliest (doubled all name.now) }
{
    let text = name.text.as_slice();
    let known = starts.get(&text).copied();
    place_if(is_before(known, name.span.start), name.span)
}

/// The first of these names of which another stands before it.
pub fn doubled_names(starts: &IndexMap<&[u8], u32>, names: &[&Name]) -> Option<Span>
    ensures { (all : List Name) → ((text : List ℕ) → known_place starts.now text ≡ first_start all text) →
        result ≡ earliest (flat_map (doubled all) (names_behind names.now)) }
{
    let mut found = None;
    for name in names {
        found = earlier(found, doubled(starts, name));
    }
    found
}

/// The first of these names of which another of them stands before it.
pub fn doubled_among(alloc: Global, names: &[Name]) -> Result<Option<Span>, AllocError>
    ensures { IfOk result (λ o. o ≡ earliest (flat_map (doubled names.now) names.now)) }
{
    let all = references(alloc, names)?;
    let starts = index_starts(alloc, all.as_slice())?;
    Ok(doubled_names(&starts, all.as_slice()))
}
