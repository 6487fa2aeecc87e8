//! Objects by place.

ghost use Rattle.std.specs.Prelude.{◌≡◌, ◌<◌, ◌≤◌, [], true, length, take, IfOk, IfSome, slice_get};
ghost use Rattle.pg_ir.specs.pg_num.declared.limits.TheConstants.{OBJECT_LIMIT};
ghost use Rattle.pg_run_objects.specs.Objects.{IsAscendingFrom, drop_object, is_missing, object_at, put_object};
ghost use Rattle.pg_run_objects.specs.Places.{AllBelow, object_here, place_is};

use crate::object::{Entry, Object};
use pg_ir::pg_num::limits::OBJECT_LIMIT;
use std::alloc::{AllocError, Global};
use std::marker::Model;

/// The objects by place in ascending order, with room for all.
#[derive(Drop)]
pub(crate) struct ObjectTable {
    entries: Vec<Entry>,
}

impl Model for ObjectTable {
    ghost use Rattle.std.specs.Prelude.{List, ◌≤◌, length, vec_capacity};
    ghost use Rattle.pg_ir.specs.pg_num.declared.limits.TheConstants.{OBJECT_LIMIT};
    ghost use Rattle.pg_run_objects.specs.declared.object.Entry.{Entry};
    ghost use Rattle.pg_run_objects.specs.Objects.{IsAscendingFrom};

    ghost Value = { List Entry };

    ghost view = { λ s. s.entries.items };

    ghost invariant = { λ s. IsAscendingFrom 0 s.entries.items × (length s.entries.items ≤ OBJECT_LIMIT) × (OBJECT_LIMIT ≤ vec_capacity s.entries) };
}

/// The index of the first entry that isn't before a place.
#[tactic(auto, unfolding(crate::specs::Places::AllBelow))]
fn position(entries: &[Entry], place: u32) -> usize
    requires { IsAscendingFrom 0 entries.now }
    ensures bound { result ≤ length entries.now }
    ensures below { AllBelow place (take result entries.now) }
    ensures stops { IfSome (slice_get entries.now result) (λ e. place ≤ e.place) }
{
    let mut low = 0;
    let mut high = entries.len();
    while low < high {
        let middle = low + (high - low) / 2;
        if entries[middle].place < place {
            low = middle + 1;
        } else {
            high = middle;
        }
    }
    low
}

/// The object of the entry at an index, if the entry has this place.
fn object_of(entries: &[Entry], index: usize, place: u32) -> Option<Object>
    ensures { result ≡ object_here place (slice_get entries.now index) }
{
    match entries.get(index) {
        Some(e) => if e.place == place {
            Some(e.object)
        } else {
            None
        },
        None => None,
    }
}

/// Whether the entry at an index has this place.
fn stands(entries: &[Entry], index: usize, place: u32) -> bool
    ensures { result ≡ place_is place (slice_get entries.now index) }
{
    match entries.get(index) {
        Some(e) => e.place == place,
        None => false,
    }
}

impl ObjectTable {
    #[tactic(auto, unfolding(crate::specs::Objects::IsAscendingFrom))]
    pub(crate) fn new(alloc: Global) -> Result<ObjectTable, AllocError>
        ensures { IfOk result (λ s. s ≡ []) }
    {
        Ok(ObjectTable {
            entries: Vec::with_capacity(alloc, OBJECT_LIMIT as usize)?,
        })
    }

    pub(crate) fn len(&self) -> usize
        ensures len { result ≡ length self.now }
        ensures few { result ≤ OBJECT_LIMIT }
    {
        self.entries.len()
    }

    /// What holds of each table.
    pub(crate) fn facts(&self)
        ensures ascending { IsAscendingFrom 0 self.now }
        ensures few { length self.now ≤ OBJECT_LIMIT }
    {
        // Read for the proof: see docs/CONTRIBUTING.md.
        let _entries = &self.entries;
    }

    #[tactic(auto, using(crate::proofs::ObjectTables::lookup_is))]
    pub(crate) fn get(&self, place: u32) -> Option<Object>
        ensures { result ≡ object_at place self.now }
    {
        let index = position(self.entries.as_slice(), place);
        object_of(self.entries.as_slice(), index, place)
    }

    /// Puts an object at a place, in the room that was reserved.
    #[tactic(auto, using(crate::proofs::ObjectTables::put_same, crate::proofs::ObjectTables::put_new, crate::proofs::ObjectTables::ascending_put, crate::proofs::ObjectTables::length_put))]
    pub(crate) fn put(&mut self, place: u32, object: Object)
        requires room { is_missing (object_at place self.old) ≡ true → length self.old < OBJECT_LIMIT }
        ensures { self.new ≡ put_object place object self.old }
    {
        let index = position(self.entries.as_slice(), place);
        let entry = Entry { place, object };
        if stands(self.entries.as_slice(), index, place) {
            self.entries[index] = entry;
        } else if let Err(_) = self.entries.insert(index, entry) {
            unreachable!();
        }
    }

    /// Takes the object at a place away, if there is one.
    #[tactic(auto, using(crate::proofs::ObjectTables::drop_same, crate::proofs::ObjectTables::drop_missing, crate::proofs::ObjectTables::ascending_drop, crate::proofs::ObjectTables::length_drop_object))]
    pub(crate) fn take(&mut self, place: u32)
        ensures { self.new ≡ drop_object place self.old }
    {
        let index = position(self.entries.as_slice(), place);
        if stands(self.entries.as_slice(), index, place) {
            self.entries.remove(index);
        }
    }
}
