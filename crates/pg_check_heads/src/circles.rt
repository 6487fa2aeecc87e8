//! Which type items contain themselves.

ghost use Rattle.std.specs.Prelude.{◌≡◌, ◌<◌, ◌++◌, ◌∷◌, [], ℕ, List, IfOk, OnOk, Some, true, false, length, map, replicate, slice_get};
ghost use Rattle.std.specs.List.{flat_map, filter_map};
ghost use Rattle.pg_read_ast.specs.Syntax.{NamedType};
ghost use Rattle.pg_read_ast.specs.Views.{ty_of, type_item_of};
ghost use Rattle.pg_check_types.specs.NameIndex.{known_place};
ghost use Rattle.pg_check_rules.specs.Nodes.{tys_behind};
ghost use Rattle.pg_check_rules.specs.Written.{types_within};
ghost use Rattle.pg_check_rules.specs.declared.fault.CheckKind.TheVariants.{WrongType};
ghost use Rattle.pg_check_rules.specs.Earliest.{only, joined, IsFirstIn};
ghost use Rattle.pg_check_rules.specs.Conditions.{RefusedPlaces, names_in_types, meets, self_contained};
ghost use Rattle.pg_check_heads.specs.Circles.{has, Noted, noted_seen, noted_next, place_of, place_of_name, places_in, next_places, arrives, is_behind, circle_at};

use crate::ranked_items::RankedItems;
use crate::ranks::rank_of;
use indexmap::IndexMap;
use pg_check_rules::{
    CheckKind, CheckRefusal, add_types_within, earlier_refusal, is_type, place_if, refusal_at,
};
use pg_check_types::{TypeNumbers, place_of_name};
use pg_read_ast::{Name, TypeItem, TypeNode};
use pg_read_lex::Span;
use std::alloc::{AllocError, Global};

/// Notes a place that wasn't seen.
fn note(seen: &mut Vec<bool>, next: &mut Vec<usize>, place: usize) -> Result<(), AllocError>
    ensures seen { OnOk result (seen.new.items ≡ noted_seen seen.old.items place) }
    ensures next { OnOk result (next.new.items ≡ noted_next seen.old.items next.old.items place) }
{
    if place < seen.len() {
        if !seen[place] {
            seen[place] = true;
            next.push(place)?;
        }
    }
    Ok(())
}

/// Notes places, and gives those that weren't seen.
fn note_all(alloc: Global, seen: &mut Vec<bool>, all: &[usize]) -> Result<Vec<usize>, AllocError>
    ensures { IfOk result (λ next. Noted all.now seen.old.items seen.new.items next.items) }
{
    let mut next = Vec::new(alloc);
    for index in 0..all.len() {
        note(seen, &mut next, all[index])?;
    }
    Ok(next)
}

/// Adds where the item stands that a type is the name of.
fn add_place(
    places: &IndexMap<&[u8], usize>,
    found: &mut Vec<usize>,
    ty: &TypeNode,
) -> Result<(), AllocError>
    ensures { (types : List NamedType) → ((text : List ℕ) → known_place places.now text ≡ place_of types text) →
        OnOk result (found.new.items ≡ found.old.items ++ filter_map (place_of_name types) (names_in_types (ty_of ty.now ∷ []))) }
{
    match ty {
        TypeNode::Named(name) => match place_of_name(places, name.text.as_slice()) {
            Some(place) => {
                found.push(place)?;
                Ok(())
            }
            None => Ok(()),
        },
        _ => Ok(()),
    }
}

/// Adds where the items stand that types are the names of.
fn add_all(
    places: &IndexMap<&[u8], usize>,
    found: &mut Vec<usize>,
    all: &[&TypeNode],
) -> Result<(), AllocError>
    ensures { (types : List NamedType) → ((text : List ℕ) → known_place places.now text ≡ place_of types text) →
        OnOk result (found.new.items ≡ found.old.items ++ filter_map (place_of_name types) (names_in_types (tys_behind all.now))) }
{
    for ty in all {
        add_place(places, found, ty)?;
    }
    Ok(())
}

/// Adds where the items stand that a type names.
fn add_places(
    alloc: Global,
    places: &IndexMap<&[u8], usize>,
    found: &mut Vec<usize>,
    ty: &TypeNode,
) -> Result<(), AllocError>
    ensures { (types : List NamedType) → ((text : List ℕ) → known_place places.now text ≡ place_of types text) →
        OnOk result (found.new.items ≡ found.old.items ++ places_in types (ty_of ty.now)) }
{
    let mut within = Vec::new(alloc);
    add_types_within(&mut within, ty)?;
    add_all(places, found, within.as_slice())
}

/// Adds where the items stand that the item at a place names.
#[tactic(auto, unfolding(crate::specs::Circles::next_places))]
pub(crate) fn add_next(
    alloc: Global,
    places: &IndexMap<&[u8], usize>,
    items: &[TypeItem],
    found: &mut Vec<usize>,
    place: usize,
) -> Result<(), AllocError>
    ensures { ((text : List ℕ) → known_place places.now text ≡ place_of (map type_item_of items.now) text) →
        OnOk result (found.new.items ≡ found.old.items ++ next_places (map type_item_of items.now) place) }
{
    match items.get(place) {
        Some(item) => add_places(alloc, places, found, &item.ty),
        None => Ok(()),
    }
}

/// Where the items stand that the items of a front name.
fn behind(
    alloc: Global,
    places: &IndexMap<&[u8], usize>,
    items: &[TypeItem],
    front: &[usize],
) -> Result<Vec<usize>, AllocError>
    ensures { ((text : List ℕ) → known_place places.now text ≡ place_of (map type_item_of items.now) text) →
        IfOk result (λ v. v.items ≡ flat_map (next_places (map type_item_of items.now)) front.now) }
{
    let mut found = Vec::new(alloc);
    for index in 0..front.len() {
        add_next(alloc, places, items, &mut found, front[index])?;
    }
    Ok(found)
}

fn has(all: &[usize], place: usize) -> bool
    ensures { result ≡ has all.now place }
{
    for index in 0..all.len() {
        if all[index] == place {
            return true;
        }
    }
    false
}

fn none_seen(alloc: Global, count: usize) -> Result<Vec<bool>, AllocError>
    ensures { IfOk result (λ v. v.items ≡ replicate count false) }
{
    let mut seen = Vec::new(alloc);
    seen.resize(count, false)?;
    Ok(seen)
}

/// Whether the item at a place is another one, or leads to it.
fn reaches(
    alloc: Global,
    places: &IndexMap<&[u8], usize>,
    items: &[TypeItem],
    target: usize,
    start: usize,
) -> Result<bool, AllocError>
    requires { start < length items.now }
    ensures { ((text : List ℕ) → known_place places.now text ≡ place_of (map type_item_of items.now) text) →
        IfOk result (λ b. b ≡ arrives (length items.now) (next_places (map type_item_of items.now)) target start) }
{
    if start == target {
        return Ok(true);
    }
    let mut seen = none_seen(alloc, items.len())?;
    let mut front = note_all(alloc, &mut seen, &[start])?;
    for round in 0..items.len() {
        if front.is_empty() {
            return Ok(false);
        }
        let all = behind(alloc, places, items, front.as_slice())?;
        if has(all.as_slice(), target) {
            return Ok(true);
        }
        front = note_all(alloc, &mut seen, all.as_slice())?;
    }
    Ok(false)
}

/// Whether a name is that of the item at a place, or leads to it. A place of a lower rank doesn't.
fn leads_back(ranked: &RankedItems<'_>, target: usize, name: &Name) -> Result<bool, AllocError>
    ensures { (text : List ℕ) → place_of (map type_item_of ranked.now.items.now) text ≡ Some target →
        IfOk result (λ b. b ≡ meets (length (map type_item_of ranked.now.items.now)) (map type_item_of ranked.now.items.now) text name.now.text) }
{
    match place_of_name(ranked.places, name.text.as_slice()) {
        Some(start) => {
            if rank_of(ranked.ranks, start) < rank_of(ranked.ranks, target) {
                return Ok(false);
            }
            reaches(ranked.alloc, ranked.places, ranked.items, target, start)
        }
        None => Ok(false),
    }
}

/// Whether a place begins behind the refusal that is known.
fn is_behind(known: Option<CheckRefusal>, place: Span) -> bool
    ensures { result ≡ is_behind known place }
{
    match known {
        Some(known) => known.span.start < place.start,
        None => false,
    }
}

/// The first of the refusal that is known and that of a type that is the name of the item at a place, or leads to it.
/// Behind the refusal that is known, the way back isn't looked for.
fn circle_at(
    ranked: &RankedItems<'_>,
    target: usize,
    known: Option<CheckRefusal>,
    ty: &TypeNode,
) -> Result<Option<CheckRefusal>, AllocError>
    ensures { (p : RefusedPlaces) (text : List ℕ) → IsFirstIn p known → place_of (map type_item_of ranked.now.items.now) text ≡ Some target →
        IfOk result (λ o. IsFirstIn (joined p (only WrongType (circle_at (map type_item_of ranked.now.items.now) text (ty_of ty.now)))) o) }
{
    match ty {
        TypeNode::Named(name) => {
            if is_behind(known, name.span) {
                return Ok(known);
            }
            let back = leads_back(ranked, target, name)?;
            let circle = refusal_at(CheckKind::WrongType, place_if(back, name.span));
            Ok(earlier_refusal(known, circle))
        }
        _ => Ok(known),
    }
}

/// The first of the refusal that is known and those of types that are the name of the item at a place, or lead to it.
fn circles_among(
    ranked: &RankedItems<'_>,
    target: usize,
    known: Option<CheckRefusal>,
    all: &[&TypeNode],
) -> Result<Option<CheckRefusal>, AllocError>
    ensures { (p : RefusedPlaces) (text : List ℕ) → IsFirstIn p known → place_of (map type_item_of ranked.now.items.now) text ≡ Some target →
        IfOk result (λ o. IsFirstIn (joined p (only WrongType (flat_map (circle_at (map type_item_of ranked.now.items.now) text) (tys_behind all.now)))) o) }
{
    let mut found = known;
    for ty in all {
        found = circle_at(ranked, target, found, ty)?;
    }
    Ok(found)
}

/// The first of the refusal that is known and those of names in an item's type that are that of the item at a place, or
/// lead to it.
fn circles_in(
    ranked: &RankedItems<'_>,
    target: usize,
    known: Option<CheckRefusal>,
    item: &TypeItem,
) -> Result<Option<CheckRefusal>, AllocError>
    ensures { (p : RefusedPlaces) (text : List ℕ) → IsFirstIn p known → place_of (map type_item_of ranked.now.items.now) text ≡ Some target →
        IfOk result (λ o. IsFirstIn (joined p (only WrongType (flat_map (circle_at (map type_item_of ranked.now.items.now) text) (types_within (ty_of item.now.ty))))) o) }
{
    let mut within = Vec::new(ranked.alloc);
    add_types_within(&mut within, &item.ty)?;
    circles_among(ranked, target, known, within.as_slice())
}

/// The first of the refusal that is known and those of names in a type item through which it contains itself. The first
/// item of a name contains itself in no type that is one.
pub(crate) fn self_contained(
    types: &TypeNumbers<'_>,
    ranked: &RankedItems<'_>,
    place: usize,
    item: &TypeItem,
    known: Option<CheckRefusal>,
) -> Result<Option<CheckRefusal>, AllocError>
    requires at { slice_get (map type_item_of ranked.now.items.now) place ≡ Some (type_item_of item.now) }
    requires items { types.now.items ≡ ranked.now.items.now }
    ensures first { (p : RefusedPlaces) → IsFirstIn p known →
        IfOk result (λ o. IsFirstIn (joined p (only WrongType (self_contained (map type_item_of ranked.now.items.now) (type_item_of item.now)))) o) }
{
    match place_of_name(ranked.places, item.name.text.as_slice()) {
        Some(target) => {
            let whole = is_type(types, &item.ty)?;
            if whole && target == place {
                Ok(known)
            } else {
                circles_in(ranked, target, known, item)
            }
        }
        None => Ok(known),
    }
}
