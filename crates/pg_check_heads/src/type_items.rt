//! The first refusals of type items.

ghost use Rattle.std.specs.Prelude.{◌≡◌, ◌∷◌, [], ℕ, List, IfOk, Some, map, slice_get};
ghost use Rattle.std.specs.List.{flat_map};
ghost use Rattle.pg_read_ast.specs.Views.{ty_of, type_item_of, tree_of};
ghost use Rattle.pg_check_types.specs.NameIndex.{known_place};
ghost use Rattle.pg_check_rules.specs.Nodes.{tys_behind};
ghost use Rattle.pg_check_rules.specs.Written.{types_within};
ghost use Rattle.pg_check_rules.specs.Starts.{first_start, names_behind};
ghost use Rattle.pg_check_rules.specs.Earliest.{joined, IsFirstIn};
ghost use Rattle.pg_check_rules.specs.Conditions.{RefusedPlaces, all_of, type_names, item_refused};
ghost use Rattle.pg_check_heads.specs.Circles.{place_of, next_places};
ghost use Rattle.pg_check_heads.specs.Ranks.{Fall};

use crate::circles::self_contained;
use crate::ranked_items::RankedItems;
use crate::ranks::item_ranks;
use indexmap::IndexMap;
use pg_check_rules::{
    CheckKind, CheckRefusal, add_types_within, any_large, doubled, earlier_refusal, index_starts,
    name_or_type_refusal, place_if, refusal_at, unknown_types, wrong_types,
};
use pg_check_types::{TypeNumbers, index_items};
use pg_read_ast::{Module, Name, TypeItem, TypeNode};
use std::alloc::{AllocError, Global};

/// The names of type items.
fn item_names<'a>(alloc: Global, items: &'a [TypeItem]) -> Result<Vec<&'a Name>, AllocError>
    ensures { IfOk result (λ v. names_behind v.items ≡ type_names (map type_item_of items.now)) }
{
    let mut names = Vec::new(alloc);
    for item in items {
        names.push(&item.name)?;
    }
    Ok(names)
}

/// Where the first type item of each name begins.
fn item_starts<'a>(
    alloc: Global,
    items: &'a [TypeItem],
) -> Result<IndexMap<&'a [u8], u32>, AllocError>
    ensures { IfOk result (λ m. (text : List ℕ) → known_place m text ≡ first_start (type_names (map type_item_of items.now)) text) }
{
    let names = item_names(alloc, items)?;
    index_starts(alloc, names.as_slice())
}

/// The type of an item and those within it.
fn item_types<'a>(alloc: Global, item: &'a TypeItem) -> Result<Vec<&'a TypeNode>, AllocError>
    ensures { IfOk result (λ v. tys_behind v.items ≡ flat_map types_within (ty_of item.now.ty ∷ [])) }
{
    let mut within = Vec::new(alloc);
    add_types_within(&mut within, &item.ty)?;
    Ok(within)
}

/// The first of the refusals of a type item and of the one that is known.
fn item_refusal(
    types: &TypeNumbers<'_>,
    ranked: &RankedItems<'_>,
    starts: &IndexMap<&[u8], u32>,
    place: usize,
    item: &TypeItem,
    known: Option<CheckRefusal>,
) -> Result<Option<CheckRefusal>, AllocError>
    requires starts { (text : List ℕ) → known_place starts.now text ≡ first_start (type_names (map type_item_of ranked.now.items.now)) text }
    requires at { slice_get (map type_item_of ranked.now.items.now) place ≡ Some (type_item_of item.now) }
    requires items { types.now.items ≡ ranked.now.items.now }
    ensures first { (p : RefusedPlaces) → IsFirstIn p known → IfOk result (λ o. IsFirstIn (joined p (item_refused (map type_item_of ranked.now.items.now) (type_item_of item.now))) o) }
{
    let within = item_types(ranked.alloc, item)?;
    let wrong = wrong_types(types, within.as_slice())?;
    let large = any_large(types, within.as_slice())?;
    let unknown = unknown_types(types, within.as_slice());
    let named = name_or_type_refusal(unknown, doubled(starts, &item.name), wrong);
    let own = earlier_refusal(
        named,
        refusal_at(CheckKind::TooLarge, place_if(large, item.name.span)),
    );
    let found = earlier_refusal(known, own);
    self_contained(types, ranked, place, item, found)
}

/// The first refusal of type items.
fn items_refusal(
    alloc: Global,
    types: &TypeNumbers<'_>,
    places: &IndexMap<&[u8], usize>,
    starts: &IndexMap<&[u8], u32>,
    items: &[TypeItem],
    ranks: &[usize],
) -> Result<Option<CheckRefusal>, AllocError>
    requires known { (text : List ℕ) → known_place places.now text ≡ place_of (map type_item_of items.now) text }
    requires fall { Fall (next_places (map type_item_of items.now)) ranks.now }
    requires starts { (text : List ℕ) → known_place starts.now text ≡ first_start (type_names (map type_item_of items.now)) text }
    requires items { types.now.items ≡ items.now }
    ensures first { IfOk result (λ o. IsFirstIn (all_of (item_refused (map type_item_of items.now)) (map type_item_of items.now)) o) }
{
    let ranked = RankedItems {
        alloc,
        places,
        items,
        ranks,
    };
    let mut found = None;
    for place in 0..items.len() {
        let item = &items[place];
        found = item_refusal(types, &ranked, starts, place, item, found)?;
    }
    Ok(found)
}

/// The first refusal of a module's type items.
pub fn types_refusal(
    alloc: Global,
    types: &TypeNumbers<'_>,
    tree: &Module,
) -> Result<Option<CheckRefusal>, AllocError>
    requires { types.now.items ≡ tree.now.types.items }
    ensures first { IfOk result (λ o. IsFirstIn (all_of (item_refused (tree_of tree.now).types) (tree_of tree.now).types) o) }
{
    let items = tree.types.as_slice();
    let places = index_items(alloc, items)?;
    let starts = item_starts(alloc, items)?;
    let ranks = item_ranks(alloc, &places, items)?;
    items_refusal(alloc, types, &places, &starts, items, ranks.as_slice())
}
