//! The numbers of the types of type items.

ghost use Rattle.std.specs.Prelude.{◌≡◌, ◌+◌, ◌<◌, ℕ, List, Some, None, IfOk, IfSome, OnOk, length, map, replicate, ◌||◌};
ghost use Rattle.std.specs.Bool.{OnTrue, OnFalse};
ghost use Rattle.pg_read_ast.specs.Views.{type_item_of};
ghost use Rattle.pg_check_types.specs.Resolved.{type_within};
ghost use Rattle.pg_check_types.specs.Table.{types_of, Grows};
ghost use Rattle.pg_check_types.specs.NameIndex.{known_place, first_place, texts_of};
ghost use Rattle.pg_check_types.specs.Known.{item_number, AreWithin, Names};
ghost use Rattle.pg_check_types.specs.Items.{AreFound, IsStuck, AreStuck, IsFoundAt, item_texts, found_count};

use crate::names::{index_names, place_of_name};
use crate::resolving::type_number;
use crate::table::TypeTable;
use indexmap::IndexMap;
use pg_read_ast::TypeItem;
use pg_read_ast::pg_num::either;
use std::alloc::{AllocError, Global};

/// The names of type items.
fn item_names<'a>(alloc: Global, types: &'a [TypeItem]) -> Result<Vec<&'a [u8]>, AllocError>
    ensures { IfOk result (λ v. texts_of v.items ≡ item_texts types.now) }
{
    let mut names = Vec::new(alloc);
    for item in types {
        names.push(item.name.text.as_slice())?;
    }
    Ok(names)
}

/// The place of the first type item of each name.
pub fn index_items<'a>(
    alloc: Global,
    types: &'a [TypeItem],
) -> Result<IndexMap<&'a [u8], usize>, AllocError>
    ensures { IfOk result (λ m. (text : List ℕ) → known_place m text ≡
        first_place (item_texts types.now) text) }
{
    let names = item_names(alloc, types)?;
    index_names(alloc, names.as_slice())
}

/// The number of the type of an item that has none yet and is the first of its name, if its type is found.
fn found_number(
    table: &mut TypeTable<'_>,
    places: &IndexMap<&[u8], usize>,
    types: &[TypeItem],
    items: &[Option<usize>],
    place: usize,
) -> Result<Option<usize>, AllocError>
    requires place { place < length types.now }
    requires lengths { length items.now ≡ length types.now }
    requires places { (text : List ℕ) → known_place places.now text ≡
        first_place (item_texts types.now) text }
    requires found { AreFound types.now (types_of table.old) (item_number places.now items.now) (found_count items.now) }
    ensures grows { Grows (types_of table.old) (types_of table.new) }
    ensures found { IfOk result (λ o. IfSome o (λ t.
        IsFoundAt types.now (types_of table.new) items.now place t)) }
    ensures none { IfOk result (λ o. o ≡ None →
        IsStuck types.now (types_of table.new) (item_number places.now items.now) items.now place) }
{
    let item = &types[place];
    if items[place].is_some() {
        return Ok(None);
    }
    if place_of_name(places, item.name.text.as_slice()) != Some(place) {
        return Ok(None);
    }
    type_number(table, places, items, &item.ty)
}

/// Notes the number of the type of one item more, if it is found.
fn find_item(
    table: &mut TypeTable<'_>,
    places: &IndexMap<&[u8], usize>,
    types: &[TypeItem],
    items: &mut [Option<usize>],
    place: usize,
) -> Result<bool, AllocError>
    requires place { place < length types.now }
    requires lengths { length items.old ≡ length types.now }
    requires places { (text : List ℕ) → known_place places.now text ≡
        first_place (item_texts types.now) text }
    requires found { AreFound types.now (types_of table.old) (item_number places.now items.old) (found_count items.old) }
    ensures grows { Grows (types_of table.old) (types_of table.new) }
    ensures found { OnOk result (AreFound types.now (types_of table.new) (item_number places.now items.new) (found_count items.new)) }
    ensures more { IfOk result (λ b. OnTrue b (found_count items.old < found_count items.new)) }
    ensures same { IfOk result (λ b. OnFalse b (items.new ≡ items.old)) }
    ensures stuck { IfOk result (λ b.
        OnFalse b (IsStuck types.now (types_of table.new) (item_number places.now items.new) items.new place)) }
{
    match found_number(table, places, types, items, place)? {
        Some(number) => {
            items[place] = Some(number);
            Ok(true)
        }
        None => Ok(false),
    }
}

/// Notes the numbers of the types of two items, one so far from the start as the other is from the end,
/// so that one pass is enough for a chain of items, whether each stands before what it names or behind it.
fn find_from_both_ends(
    table: &mut TypeTable<'_>,
    places: &IndexMap<&[u8], usize>,
    types: &[TypeItem],
    items: &mut [Option<usize>],
    place: usize,
) -> Result<bool, AllocError>
    requires place { place < length types.now }
    requires lengths { length items.old ≡ length types.now }
    requires places { (text : List ℕ) → known_place places.now text ≡
        first_place (item_texts types.now) text }
    requires found { AreFound types.now (types_of table.old) (item_number places.now items.old) (found_count items.old) }
    ensures grows { Grows (types_of table.old) (types_of table.new) }
    ensures found { OnOk result (AreFound types.now (types_of table.new) (item_number places.now items.new) (found_count items.new)) }
    ensures more { IfOk result (λ b. OnTrue b (found_count items.old < found_count items.new)) }
    ensures same { IfOk result (λ b. OnFalse b (items.new ≡ items.old)) }
    ensures stuck { IfOk result (λ b.
        OnFalse b (IsStuck types.now (types_of table.new) (item_number places.now items.new) items.new place)) }
{
    let last = find_item(table, places, types, items, types.len() - 1 - place)?;
    let first = find_item(table, places, types, items, place)?;
    Ok(either(last, first))
}

/// Notes the numbers of the types of items, in one pass over them from both ends. Whether there was one more.
fn find_items(
    table: &mut TypeTable<'_>,
    places: &IndexMap<&[u8], usize>,
    types: &[TypeItem],
    items: &mut [Option<usize>],
) -> Result<bool, AllocError>
    requires lengths { length items.old ≡ length types.now }
    requires places { (text : List ℕ) → known_place places.now text ≡
        first_place (item_texts types.now) text }
    requires found { AreFound types.now (types_of table.old) (item_number places.now items.old) (found_count items.old) }
    ensures grows { Grows (types_of table.old) (types_of table.new) }
    ensures found { OnOk result (AreFound types.now (types_of table.new) (item_number places.now items.new) (found_count items.new)) }
    ensures more { IfOk result (λ b. OnTrue b (found_count items.old < found_count items.new)) }
    ensures stuck { IfOk result (λ b.
        OnFalse b (AreStuck types.now (types_of table.new) (item_number places.now items.new) items.new (length types.now))) }
{
    let mut found = false;
    for place in 0..types.len() {
        let more = find_from_both_ends(table, places, types, items, place)?;
        found = either(found, more);
    }
    Ok(found)
}

/// Notes the numbers of the types of all items that are types.
fn find_all_items(
    table: &mut TypeTable<'_>,
    places: &IndexMap<&[u8], usize>,
    types: &[TypeItem],
    items: &mut [Option<usize>],
) -> Result<(), AllocError>
    requires lengths { length items.old ≡ length types.now }
    requires places { (text : List ℕ) → known_place places.now text ≡
        first_place (item_texts types.now) text }
    requires found { AreFound types.now (types_of table.old) (item_number places.now items.old) (found_count items.old) }
    ensures grows { Grows (types_of table.old) (types_of table.new) }
    ensures found { OnOk result (AreFound types.now (types_of table.new) (item_number places.now items.new) (found_count items.new)) }
    ensures stuck { OnOk result (AreStuck types.now (types_of table.new) (item_number places.now items.new) items.new (length types.now)) }
{
    for _ in 0..types.len() + 1 {
        if !find_items(table, places, types, items)? {
            return Ok(());
        }
    }
    unreachable!()
}

/// So many items without a number.
fn no_numbers(alloc: Global, count: usize) -> Result<Vec<Option<usize>>, AllocError>
    ensures { IfOk result (λ v. v.items ≡ replicate count None) }
{
    let mut items = Vec::new(alloc);
    for _ in 0..count {
        items.push(None)?;
    }
    Ok(items)
}

/// The numbers of the types of the items; none for an item that isn't a type or isn't the first of its name.
pub fn item_numbers(
    alloc: Global,
    table: &mut TypeTable<'_>,
    places: &IndexMap<&[u8], usize>,
    types: &[TypeItem],
) -> Result<Vec<Option<usize>>, AllocError>
    requires { (text : List ℕ) → known_place places.now text ≡ first_place (item_texts types.now) text }
    ensures grows { Grows (types_of table.old) (types_of table.new) }
    ensures within { IfOk result (λ v. AreWithin (types_of table.new) (item_number places.now v.items)) }
    ensures names { IfOk result (λ v.
        Names (types_of table.new) (item_number places.now v.items) (type_within (length types.now) (map type_item_of types.now))) }
{
    let mut items = no_numbers(alloc, types.len())?;
    find_all_items(table, places, types, items.as_mut_slice())?;
    Ok(items)
}
