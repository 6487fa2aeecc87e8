//! Which entries a JSON value has.

ghost use Rattle.std.specs.Prelude.{◌≡◌, codes, length, IfOk, option_map, option_and_then};
ghost use Rattle.serde_json.specs.Events.{items_len, members_len};
ghost use Rattle.serde_json.specs.Find.{at};
ghost use Rattle.serde_json.specs.View.{items_view, members_view, view};
ghost use Rattle.pg_num.specs.declared.limits.TheConstants.{NUMBERS_LIMIT, RECORDING_STEP_LIMIT, THREAD_LIMIT};
ghost use Rattle.pg_book.specs.Parts.{parts_of};
ghost use Rattle.pg_book.specs.Values.{all_as, as_entry, as_gated, as_id, as_kind, as_natural, as_natural_below, as_signed, as_turn, ascend_from, entries_in, few_as, has_items, has_members, is_one, is_outer, list_at};

use crate::book::BookEntry;
use pg_ir::{InstrId, ThreadNo};
use pg_num::limits::{NUMBERS_LIMIT, RECORDING_STEP_LIMIT, THREAD_LIMIT};
use pg_run_trace::{Turn, TurnKind};
use serde_json::{Map, Value};
use std::alloc::{AllocError, Global};

/// The number that a value is, if it is below the bound.
fn natural_below(value: &Value, bound: u64) -> Option<u64>
    ensures { result ≡ as_natural_below bound (view value.now) }
{
    match value.as_u64() {
        Some(n) if n < bound => Some(n),
        _ => None,
    }
}

fn id_of(value: &Value) -> Option<InstrId>
    ensures { result ≡ as_id (view value.now) }
{
    match natural_below(value, 1 << 32) {
        Some(n) => Some(InstrId(n as u32)),
        None => None,
    }
}

fn kind_of(value: &Value) -> Option<TurnKind>
    ensures { result ≡ as_kind (view value.now) }
{
    match value.as_str() {
        Some(name) => TurnKind::named(name),
        None => None,
    }
}

fn thread_at(value: &Value, place: usize) -> Option<u64>
    ensures { result ≡ option_and_then (as_natural_below THREAD_LIMIT) (at place (view value.now)) }
{
    match value.get(place) {
        Some(found) => natural_below(found, THREAD_LIMIT as u64),
        None => None,
    }
}

fn id_at(value: &Value, place: usize) -> Option<InstrId>
    ensures { result ≡ option_and_then as_id (at place (view value.now)) }
{
    match value.get(place) {
        Some(found) => id_of(found),
        None => None,
    }
}

fn kind_at(value: &Value, place: usize) -> Option<TurnKind>
    ensures { result ≡ option_and_then as_kind (at place (view value.now)) }
{
    match value.get(place) {
        Some(found) => kind_of(found),
        None => None,
    }
}

fn object_at(value: &Value, place: usize) -> Option<u64>
    ensures { result ≡ option_and_then as_natural (at place (view value.now)) }
{
    match value.get(place) {
        Some(found) => found.as_u64(),
        None => None,
    }
}

/// How many items a list has.
#[tactic(auto, using(crate::proofs::Each::items_count))]
pub(crate) fn count_of(items: &[Value]) -> usize
    ensures count { result ≡ items_len (items_view items.now) }
    ensures len { result ≡ length items.now }
{
    items.len()
}

/// How many members an object has.
#[tactic(auto, using(crate::proofs::Each::members_count))]
fn member_count(members: &Map<String, Value>) -> usize
    ensures { result ≡ members_len (members_view members.now.entries) }
{
    members.len()
}

fn has_items(value: &Value, count: usize) -> bool
    ensures { result ≡ has_items count (view value.now) }
{
    match value.as_array() {
        Some(items) => count_of(items) == count,
        None => false,
    }
}

fn has_members(value: &Value, count: usize) -> bool
    ensures { result ≡ has_members count (view value.now) }
{
    match value.as_object() {
        Some(members) => member_count(members) == count,
        None => false,
    }
}

fn turn_of(value: &Value) -> Option<Turn>
    ensures { result ≡ as_turn (view value.now) }
{
    if !has_items(value, 4) {
        return None;
    }
    let thread = thread_at(value, 0)?;
    let instr = id_at(value, 1)?;
    let kind = kind_at(value, 2)?;
    let object = object_at(value, 3)?;
    Some(Turn {
        thread: ThreadNo(thread as u8),
        instr,
        kind,
        object,
    })
}

/// The list under a key.
fn list_at<'v>(value: &'v Value, key: &str) -> Option<&'v Vec<Value>>
    ensures { option_map (λ v. items_view v.now.items) result ≡ list_at key.now (view value.now) }
{
    match value.get(key) {
        Some(found) => found.as_array(),
        None => None,
    }
}

fn turns_of(alloc: Global, items: &[Value]) -> Result<Option<Vec<Turn>>, AllocError>
    ensures { IfOk result (λ found. option_map (λ v. v.items) found ≡ all_as as_turn (items_view items.now)) }
{
    let mut turns = Vec::with_capacity(alloc, items.len())?;
    for item in items {
        match turn_of(item) {
            Some(turn) => turns.push(turn)?,
            None => return Ok(None),
        }
    }
    Ok(Some(turns))
}

fn numbers_of(alloc: Global, items: &[Value]) -> Result<Option<Vec<i64>>, AllocError>
    ensures { IfOk result (λ found. option_map (λ v. v.items) found ≡ all_as as_signed (items_view items.now)) }
{
    let mut numbers = Vec::with_capacity(alloc, items.len())?;
    for item in items {
        match item.as_i64() {
            Some(number) => numbers.push(number)?,
            None => return Ok(None),
        }
    }
    Ok(Some(numbers))
}

fn ids_of(alloc: Global, items: &[Value]) -> Result<Option<Vec<InstrId>>, AllocError>
    ensures { IfOk result (λ found. option_map (λ v. v.items) found ≡ all_as as_id (items_view items.now)) }
{
    let mut ids = Vec::with_capacity(alloc, items.len())?;
    for item in items {
        match id_of(item) {
            Some(id) => ids.push(id)?,
            None => return Ok(None),
        }
    }
    Ok(Some(ids))
}

/// Whether these are strictly ascending.
fn ascend(ids: &[InstrId]) -> bool
    ensures { result ≡ ascend_from 0 ids.now }
{
    let mut least: u64 = 0;
    for id in ids {
        if (id.0 as u64) < least {
            return false;
        }
        least = id.0 as u64 + 1;
    }
    true
}

fn gated_in(alloc: Global, value: &Value) -> Result<Option<Vec<InstrId>>, AllocError>
    ensures { IfOk result (λ found. option_map (λ v. v.items) found ≡ option_and_then as_gated (list_at (codes "gated") (view value.now))) }
{
    let Some(items) = list_at(value, "gated") else {
        return Ok(None);
    };
    let Some(ids) = ids_of(alloc, items)? else {
        return Ok(None);
    };
    if ascend(&ids) {
        Ok(Some(ids))
    } else {
        Ok(None)
    }
}

fn input_in(alloc: Global, value: &Value) -> Result<Option<Vec<i64>>, AllocError>
    ensures { IfOk result (λ found. option_map (λ v. v.items) found ≡ option_and_then (few_as as_signed NUMBERS_LIMIT) (list_at (codes "input") (view value.now))) }
{
    match list_at(value, "input") {
        Some(items) if count_of(items) <= NUMBERS_LIMIT => numbers_of(alloc, items),
        _ => Ok(None),
    }
}

fn turns_in(alloc: Global, value: &Value) -> Result<Option<Vec<Turn>>, AllocError>
    ensures { IfOk result (λ found. option_map (λ v. v.items) found ≡ option_and_then (few_as as_turn RECORDING_STEP_LIMIT) (list_at (codes "turns") (view value.now))) }
{
    match list_at(value, "turns") {
        Some(items) if count_of(items) <= RECORDING_STEP_LIMIT as usize => turns_of(alloc, items),
        _ => Ok(None),
    }
}

/// The entry that a value is, if it is one.
pub(crate) fn entry_of(alloc: Global, value: &Value) -> Result<Option<BookEntry>, AllocError>
    ensures { IfOk result (λ found. option_map parts_of found ≡ as_entry (view value.now)) }
{
    if !has_members(value, 3) {
        return Ok(None);
    }
    let Some(gated) = gated_in(alloc, value)? else {
        return Ok(None);
    };
    let Some(input) = input_in(alloc, value)? else {
        return Ok(None);
    };
    let Some(turns) = turns_in(alloc, value)? else {
        return Ok(None);
    };
    Ok(Some(BookEntry {
        input,
        turns,
        gated,
    }))
}

fn is_one(value: &Value) -> bool
    ensures { result ≡ is_one (view value.now) }
{
    value.as_u64() == Some(1)
}

/// Whether a value is an object of two members, and the number 1 is the one under `peregrine`.
fn is_outer(value: &Value) -> bool
    ensures { result ≡ is_outer (view value.now) }
{
    if !has_members(value, 2) {
        return false;
    }
    match value.get("peregrine") {
        Some(found) => is_one(found),
        None => false,
    }
}

/// The list of the entries of a value that is a book but for them.
pub(crate) fn entries_in(value: &Value) -> Option<&Vec<Value>>
    ensures { option_map (λ v. items_view v.now.items) result ≡ entries_in (view value.now) }
{
    if is_outer(value) {
        list_at(value, "entries")
    } else {
        None
    }
}
