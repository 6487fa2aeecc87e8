//! The words and the calls on them.

ghost use Rattle.std.specs.Prelude.{◌≡◌, ℕ, ◌+◌, ◌-◌, ◌*◌, ◌<◌, ◌≤◌, ◌^◌, List, [], length, slice_index, IfOk};
ghost use mathlib.Core.Option.{none};
ghost use Rattle.atomic_table.specs.Table.{Joins, Splits, opening, step};
ghost use Rattle.pg_ir.specs.pg_num.declared.limits.TheConstants.{THREAD_LIMIT};
ghost use Rattle.pg_words.specs.Calls.{AllowsChange, AllowsLoad, AllowsPart, AllowsStore, TellsPart, granule_word, number_at, thread_word};
ghost use Rattle.pg_words.specs.declared.layout.TheConstants.{TURN_WORD, WORD_COUNT};
ghost use Rattle.pg_run_memory.specs.declared.delta.Delta.TheVariants.{Add};

use crate::layout::{GRANULE_WORDS, THREAD_WORDS, TURN_WORD, WORD_COUNT};
use atomic_table::{Join, Play, Seat, Split, Table, TableRule};
use pg_ir::ThreadNo;
use pg_ir::pg_num::Place;
use pg_run_memory::{Delta, field_delta};
use std::alloc::{AllocError, Global};

/// What a thread steps with. It has no bytes.
pub type RunSeat<V> = Seat<(), V>;

/// The words, by what seats know (`V`), what the rule reads once (`K`), and the rule (`R`).
#[derive(Drop)]
pub struct Words<V, K, R: TableRule<(), V, K>> {
    pub table: Table<(), V, K, R, Global>,
    pub ghost all: { table.shared.table_id.words ≡ WORD_COUNT },
    pub ghost no_slots: { table.shared.table_id.slots ≡ 0 },
}

impl<V, K, R: TableRule<(), V, K>> Words<V, K, R> {
    /// The words, all 0, and the first seat.
    pub fn new(alloc: Global, about: &K) -> Result<(Words<V, K, R>, RunSeat<V>), AllocError>
        requires rule { (words : List ℕ) → length words ≡ WORD_COUNT → ((i : ℕ) → slice_index words i ≡ 0) → R.holds about.now (opening words [] (R.first about.now)) }
        ensures key { IfOk result (λ t. t.0.table.shared.key ≡ about.now) }
        ensures seat { IfOk result (λ t. (t.1.table_id ≡ t.0.table.shared.table_id) × (t.1.me ≡ (R.first about.now, []))) }
    {
        let words = zeros(alloc, WORD_COUNT as usize)?;
        let (table, seat) = Table::of_words(alloc, words.as_slice(), about)?;
        Ok((Words { table }, seat))
    }

    /// The number in a range of memory.
    pub fn load<M: Play<(), V>>(&self, seat: &mut RunSeat<V>, at: Place) -> u64
        requires own { seat.old.table_id ≡ self.now.table.shared.table_id }
        requires rule { AllowsLoad (R.holds self.now.table.shared.key) seat.old.id seat.old.me (granule_word at) M.then }
        ensures own { (seat.new.table_id ≡ seat.old.table_id) × (seat.new.id ≡ seat.old.id) }
        ensures told { (found : ℕ) × M.then (step 0 (granule_word at) 0 0 none) seat.old.me found seat.new.me × (result ≡ number_at at found) }
        ensures in_range { result < 2 ^ (8 * at.bytes) }
    {
        let found = self
            .table
            .shared
            .load::<M>(seat, (GRANULE_WORDS + at.granule()) as usize);
        part(found, at)
    }

    /// Stores a granule whole.
    pub fn store<M: Play<(), V>>(&self, seat: &mut RunSeat<V>, at: Place, number: u64)
        requires own { seat.old.table_id ≡ self.now.table.shared.table_id }
        requires whole { at.bytes ≡ 8 }
        requires rule { AllowsStore (R.holds self.now.table.shared.key) seat.old.id seat.old.me (granule_word at) number M.then }
        ensures own { (seat.new.table_id ≡ seat.old.table_id) × (seat.new.id ≡ seat.old.id) }
        ensures told { M.then (step 0 (granule_word at) number 0 none) seat.old.me number seat.new.me }
    {
        self.table
            .shared
            .store::<M>(seat, (GRANULE_WORDS + at.granule()) as usize, number);
    }

    /// Stores a number in a part of a granule: loads the word, and then changes that part alone by one sum or difference.
    pub fn store_part<F: Play<(), V>, M: Play<(), V>>(
        &self,
        seat: &mut RunSeat<V>,
        at: Place,
        number: u64,
    )
        requires own { seat.old.table_id ≡ self.now.table.shared.table_id }
        requires small { number < 2 ^ (8 * at.bytes) }
        requires find { AllowsLoad (R.holds self.now.table.shared.key) seat.old.id seat.old.me (granule_word at) F.then }
        requires rule { AllowsPart (R.holds self.now.table.shared.key) seat.old.id seat.old.me at number F.then M.then }
        ensures own { (seat.new.table_id ≡ seat.old.table_id) × (seat.new.id ≡ seat.old.id) }
        ensures told { TellsPart at number seat.old.me seat.new.me F.then M.then }
    {
        let from = self.load::<F>(seat, at);
        let word = (GRANULE_WORDS + at.granule()) as usize;
        match field_delta(from, number, at) {
            Delta::Add(n) => self.table.shared.fetch_add::<M>(seat, word, n),
            Delta::Sub(n) => self.table.shared.fetch_sub::<M>(seat, word, n),
        };
    }

    /// The number of turns that are done.
    pub fn turn<M: Play<(), V>>(&self, seat: &mut RunSeat<V>) -> u64
        requires own { seat.old.table_id ≡ self.now.table.shared.table_id }
        requires rule { AllowsLoad (R.holds self.now.table.shared.key) seat.old.id seat.old.me TURN_WORD M.then }
        ensures own { (seat.new.table_id ≡ seat.old.table_id) × (seat.new.id ≡ seat.old.id) }
        ensures told { M.then (step 0 TURN_WORD 0 0 none) seat.old.me result seat.new.me }
    {
        self.table.shared.load::<M>(seat, TURN_WORD as usize)
    }

    /// The number of turns that are done, looked at without a seat, which tells nothing.
    pub fn peek(&self) -> u64 {
        self.table.shared.peek(TURN_WORD as usize)
    }

    /// Adds one to the number of turns that are done.
    pub fn advance<M: Play<(), V>>(&self, seat: &mut RunSeat<V>)
        requires own { seat.old.table_id ≡ self.now.table.shared.table_id }
        requires rule { AllowsChange (R.holds self.now.table.shared.key) seat.old.id seat.old.me TURN_WORD (Add 1) M.then }
        ensures own { (seat.new.table_id ≡ seat.old.table_id) × (seat.new.id ≡ seat.old.id) }
        ensures told { (before : ℕ) × M.then (step 0 TURN_WORD 1 0 none) seat.old.me before seat.new.me }
    {
        self.table
            .shared
            .fetch_add::<M>(seat, TURN_WORD as usize, 1);
    }

    /// Makes the number of turns that are done 0.
    pub fn clear_turn<M: Play<(), V>>(&self, seat: &mut RunSeat<V>)
        requires own { seat.old.table_id ≡ self.now.table.shared.table_id }
        requires rule { AllowsStore (R.holds self.now.table.shared.key) seat.old.id seat.old.me TURN_WORD 0 M.then }
        ensures own { (seat.new.table_id ≡ seat.old.table_id) × (seat.new.id ≡ seat.old.id) }
        ensures told { M.then (step 0 TURN_WORD 0 0 none) seat.old.me 0 seat.new.me }
    {
        self.table.shared.store::<M>(seat, TURN_WORD as usize, 0);
    }

    /// The word of a thread: its argument, and after its exit its value.
    pub fn get_exit<M: Play<(), V>>(&self, seat: &mut RunSeat<V>, thread: ThreadNo) -> u64
        requires own { seat.old.table_id ≡ self.now.table.shared.table_id }
        requires inside { thread.0 < THREAD_LIMIT }
        requires rule { AllowsLoad (R.holds self.now.table.shared.key) seat.old.id seat.old.me (thread_word thread.0) M.then }
        ensures own { (seat.new.table_id ≡ seat.old.table_id) × (seat.new.id ≡ seat.old.id) }
        ensures told { M.then (step 0 (thread_word thread.0) 0 0 none) seat.old.me result seat.new.me }
    {
        self.table
            .shared
            .load::<M>(seat, THREAD_WORDS as usize + thread.0 as usize)
    }

    /// Stores the word of a thread.
    pub fn put_exit<M: Play<(), V>>(&self, seat: &mut RunSeat<V>, thread: ThreadNo, number: u64)
        requires own { seat.old.table_id ≡ self.now.table.shared.table_id }
        requires inside { thread.0 < THREAD_LIMIT }
        requires rule { AllowsStore (R.holds self.now.table.shared.key) seat.old.id seat.old.me (thread_word thread.0) number M.then }
        ensures own { (seat.new.table_id ≡ seat.old.table_id) × (seat.new.id ≡ seat.old.id) }
        ensures told { M.then (step 0 (thread_word thread.0) number 0 none) seat.old.me number seat.new.me }
    {
        self.table
            .shared
            .store::<M>(seat, THREAD_WORDS as usize + thread.0 as usize, number);
    }

    /// Cuts what a seat knows in two, and gives a new seat with the second part.
    pub fn split<M: Split<V>>(&self, seat: &mut RunSeat<V>) -> RunSeat<V>
        requires own { seat.old.table_id ≡ self.now.table.shared.table_id }
        requires rule { Splits (R.holds self.now.table.shared.key) seat.old.id seat.old.me.0 (M.left seat.old.me.0) (M.right seat.old.me.0) }
        ensures own { (seat.new.table_id ≡ seat.old.table_id) × (seat.new.id ≡ seat.old.id) }
        ensures kept { seat.new.me ≡ (M.left seat.old.me.0, seat.old.me.1) }
        ensures given { (result.table_id ≡ seat.old.table_id) × (result.me ≡ (M.right seat.old.me.0, [])) }
    {
        self.table.shared.split_seat::<M>(seat)
    }

    /// Joins what another seat knows into a seat, and spends the other.
    pub fn join<M: Join<V>>(&self, seat: &mut RunSeat<V>, other: RunSeat<V>)
        requires own { (seat.old.table_id ≡ self.now.table.shared.table_id) × (other.table_id ≡ self.now.table.shared.table_id) }
        requires bare { other.me.1 ≡ [] }
        requires rule { Joins (R.holds self.now.table.shared.key) seat.old.id seat.old.me.0 other.id other.me.0 (M.both seat.old.me.0 other.me.0) M.spent }
        ensures own { (seat.new.table_id ≡ seat.old.table_id) × (seat.new.id ≡ seat.old.id) }
        ensures kept { seat.new.me ≡ (M.both seat.old.me.0 other.me.0, seat.old.me.1) }
    {
        self.table.shared.join_seat::<M>(seat, other);
    }
}

/// The number in a range of the granule whose word is this.
fn part(word: u64, at: Place) -> u64
    ensures value { result ≡ number_at at word }
    ensures in_range { result < 2 ^ (8 * at.bytes) }
{
    (word >> (8 * at.first())) & mask(at.bytes())
}

/// The word whose low bytes, as many as asked for, have all bits set.
fn mask(bytes: u8) -> u64
    requires some { 1 ≤ bytes }
    requires fits { bytes ≤ 8 }
    ensures { result ≡ 2 ^ (8 * bytes) - 1 }
{
    u64::MAX >> (64 - 8 * bytes)
}

#[tactic(auto, using(crate::proofs::Zeros::zeros_length, crate::proofs::Zeros::zeros_at))]
fn zeros(alloc: Global, count: usize) -> Result<Vec<u64>, AllocError>
    ensures length { IfOk result (λ v. length v.items ≡ count) }
    ensures zeros { IfOk result (λ v. (i : ℕ) → slice_index v.items i ≡ 0) }
{
    // In two lines for the proof: see docs/CONTRIBUTING.md.
    let words = Vec::from_elem(alloc, 0u64, count)?;
    Ok(words)
}
