//! What has to be known of the registers and bytes, going back over a run.

ghost use Rattle.std.specs.Prelude.{◌≡◌, ◌<◌, ◌≤◌, ◌+◌, ◌⊎◌, ◌||◌, ℕ, Bool, true, false, Option, Some, None, OnOk, OnErr, IfSome, IfNone, unwrap_or, nat_eq};
ghost use Rattle.pg_slice_demands.specs.Asked.{asked_of, asks_byte, IsAskedAlike};

use crate::call::Call;
use crate::cells::Cells;
use crate::places::{BYTE_PLACES, CALLS, call_place, register_place};
use std::alloc::{AllocError, Global};

/// What has to be known: cells by their places on a line, each as a number, or only the bounds of the pointer that it holds.
#[derive(Drop)]
pub struct Demanded {
    cells: Cells,
}

impl Demanded {
    /// Nothing has to be known.
    pub fn new(alloc: Global) -> Demanded
        ensures registers { (t k r : ℕ) → asked_of result t k r ≡ None }
        ensures bytes { (b : ℕ) → asks_byte result b ≡ false }
    {
        Demanded {
            cells: Cells::new(alloc),
        }
    }

    /// A register of a call has to be known, whole or by its bounds alone. Nothing is asked of a register that has no place.
    ///
    /// # Errors
    ///
    /// Where no memory is left.
    pub fn put_register(&mut self, at: Call, register: u32, whole: bool) -> Result<(), AllocError>
        ensures registers { OnOk result ((u j i : ℕ) (w : Bool) → asked_of self.new u j i ≡ Some w
            → (asked_of self.old u j i ≡ Some w) ⊎ ((u ≡ at.thread.0) × (j ≡ at.depth) × (i ≡ register) × (w ≡ whole))) }
        ensures bytes { OnOk result ((b : ℕ) → asks_byte self.new b ≡ true → asks_byte self.old b ≡ true) }
        ensures asked { OnOk result (at.depth < 512 → register < 4096 → asked_of self.new at.thread.0 at.depth register ≡ Some (whole || unwrap_or (asked_of self.old at.thread.0 at.depth register) false)) }
        ensures other_registers { OnOk result ((u j i : ℕ) → (u ≡ at.thread.0 → j ≡ at.depth → i ≡ register → ⊥) → asked_of self.new u j i ≡ asked_of self.old u j i) }
        ensures all_bytes { OnOk result ((b : ℕ) → asks_byte self.old b ≡ true → asks_byte self.new b ≡ true) }
        ensures err { OnErr result (IsAskedAlike self.old self.new) }
    {
        match register_place(at, register) {
            Some(place) => self.cells.put(place, whole),
            None => Ok(()),
        }
    }

    /// Nothing is asked of a register any more; gives what was.
    pub fn take_register(&mut self, at: Call, register: u32) -> Option<bool>
        ensures was { result ≡ asked_of self.old at.thread.0 at.depth register }
        ensures registers { (u j i : ℕ) (w : Bool) → asked_of self.new u j i ≡ Some w
            → (asked_of self.old u j i ≡ Some w) × (u ≡ at.thread.0 → j ≡ at.depth → i ≡ register → ⊥) }
        ensures bytes { (b : ℕ) → asks_byte self.new b ≡ true → asks_byte self.old b ≡ true }
        ensures other_registers { (u j i : ℕ) → (u ≡ at.thread.0 → j ≡ at.depth → i ≡ register → ⊥) → asked_of self.new u j i ≡ asked_of self.old u j i }
        ensures all_bytes { (b : ℕ) → asks_byte self.old b ≡ true → asks_byte self.new b ≡ true }
    {
        match register_place(at, register) {
            Some(place) => self.cells.take(place),
            None => None,
        }
    }

    /// Nothing is asked any more of the registers of a thread's calls from this one on.
    pub fn clear_calls(&mut self, at: Call)
        ensures registers { (u j i : ℕ) (w : Bool) → asked_of self.new u j i ≡ Some w → (asked_of self.old u j i ≡ Some w) × (u ≡ at.thread.0 → at.depth ≤ j → ⊥) }
        ensures bytes { (b : ℕ) → asks_byte self.new b ≡ true → asks_byte self.old b ≡ true }
        ensures other_registers { (u j i : ℕ) → (u ≡ at.thread.0 → at.depth ≤ j → ⊥) → asked_of self.new u j i ≡ asked_of self.old u j i }
        ensures all_bytes { (b : ℕ) → asks_byte self.old b ≡ true → asks_byte self.new b ≡ true }
    {
        let first = call_place(at.thread, at.depth as u64);
        let end = call_place(at.thread, CALLS);
        self.cells.clear_known(first, end);
    }

    /// Nothing is asked any more of the registers of those calls of a thread that began after this one.
    pub fn clear_above(&mut self, at: Call)
        ensures registers { (u j i : ℕ) (w : Bool) → asked_of self.new u j i ≡ Some w → (asked_of self.old u j i ≡ Some w) × (u ≡ at.thread.0 → at.depth < j → ⊥) }
        ensures bytes { (b : ℕ) → asks_byte self.new b ≡ true → asks_byte self.old b ≡ true }
        ensures other_registers { (u j i : ℕ) → (u ≡ at.thread.0 → at.depth < j → ⊥) → asked_of self.new u j i ≡ asked_of self.old u j i }
        ensures all_bytes { (b : ℕ) → asks_byte self.old b ≡ true → asks_byte self.new b ≡ true }
    {
        let next = call_place(at.thread, at.depth as u64 + 1);
        let end = call_place(at.thread, CALLS);
        self.cells.clear_known(next, end);
    }

    /// The first register of a call of which something is asked, from one on.
    pub fn register_from(&self, at: Call, register: u32) -> Option<u32>
        ensures some { IfSome result (λ i. (register ≤ i) × ((w : Bool) × (asked_of self.now at.thread.0 at.depth i ≡ Some w))) }
        ensures first { IfSome result (λ i. (k : ℕ) (w : Bool) → register ≤ k → asked_of self.now at.thread.0 at.depth k ≡ Some w → i ≤ k) }
        ensures none { IfNone result ((i : ℕ) → register ≤ i → asked_of self.now at.thread.0 at.depth i ≡ None) }
    {
        match register_place(at, register) {
            Some(from) => match self
                .cells
                .first_in(from, call_place(at.thread, at.depth as u64 + 1))
            {
                Some(place) => Some((place - from) as u32 + register),
                None => None,
            },
            None => None,
        }
    }

    /// A byte has to be known. Nothing is asked of one that has no place.
    ///
    /// # Errors
    ///
    /// Where no memory is left.
    pub fn put_byte(&mut self, byte: u64) -> Result<(), AllocError>
        ensures registers { OnOk result ((u j i : ℕ) (w : Bool) → asked_of self.new u j i ≡ Some w → asked_of self.old u j i ≡ Some w) }
        ensures bytes { OnOk result ((b : ℕ) → asks_byte self.new b ≡ true → (asks_byte self.old b ≡ true) ⊎ (b ≡ byte)) }
        ensures asked { OnOk result (byte < 67108864 → asks_byte self.new byte ≡ true) }
        ensures all_registers { OnOk result ((u j i : ℕ) → asked_of self.new u j i ≡ asked_of self.old u j i) }
        ensures other_bytes { OnOk result ((b : ℕ) → asks_byte self.old b ≡ true → asks_byte self.new b ≡ true) }
        ensures err { OnErr result (IsAskedAlike self.old self.new) }
    {
        if byte < BYTE_PLACES {
            self.cells.put(byte, true)
        } else {
            Ok(())
        }
    }

    /// Nothing is asked any more of the bytes from one on to before another.
    pub fn clear_bytes(&mut self, from: u64, to: u64)
        ensures registers { (u j i : ℕ) (w : Bool) → asked_of self.new u j i ≡ Some w → asked_of self.old u j i ≡ Some w }
        ensures bytes { (b : ℕ) → asks_byte self.new b ≡ true → (asks_byte self.old b ≡ true) × (from ≤ b → b < to → ⊥) }
        ensures all_registers { (u j i : ℕ) → asked_of self.new u j i ≡ asked_of self.old u j i }
        ensures other_bytes { (b : ℕ) → (from ≤ b → b < to → ⊥) → asks_byte self.old b ≡ true → asks_byte self.new b ≡ true }
    {
        self.cells.clear(from, to.min(BYTE_PLACES));
    }

    /// A byte that has to be known, from one on to before another.
    pub fn byte_in(&self, from: u64, to: u64) -> Option<u64>
        ensures some { IfSome result (λ b. (from ≤ b) × (b < to) × (asks_byte self.now b ≡ true)) }
        ensures none { IfNone result ((b : ℕ) → from ≤ b → b < to → asks_byte self.now b ≡ false) }
    {
        self.cells.first_in(from, to.min(BYTE_PLACES))
    }
}
