//! The cache: its values are numbered from 0 in the order in which they were inserted, and the youngest are kept.
ghost use Rattle.std.specs.Prelude.{◌≡◌, ◌≤◌, ◌<◌, ◌-◌, ◌^◌, ℤ, Bool, List, map, option_copied, IfOk};
ghost use Rattle.pg_cache.specs.Kept.{Kept, first_from, nothing, oldest, value_of, with_value};

use std::alloc::{AllocError, Global};
use std::marker::Model;

/// A value that says of an input whether it may be used for it.
pub trait Admits {
    // What the value stands for. A call leaves it as it was.
    ghost Meaning: { Type 0 };

    ghost meaning: { Self → Meaning };

    // Whether what the value stands for may be used for an input.
    ghost test: { Meaning → List ℤ → Bool };

    /// Returns whether the value may be used for this input. It may work in room of its own, and leaves what it
    /// stands for as it was.
    fn admits(&mut self, input: &[i64]) -> bool
        ensures answer { result ≡ test (meaning self.old) input.now }
        ensures stays { meaning self.new ≡ meaning self.old };
}

/// At most so many values, the youngest of those that were inserted. Each has a number: how many were inserted
/// before it. No call but `new` takes memory.
#[derive(Drop)]
pub struct Cache<V> {
    values: Vec<V>,
    size: usize,
    inserted: u64,
}

impl<V> Model for Cache<V> {
    ghost use Rattle.std.specs.Prelude.{◌≤◌, length, vec_capacity};
    ghost use Rattle.pg_cache.specs.Kept.{Kept};

    ghost Value = { Kept V };

    ghost view = { λ c. record { size = c.size; inserted = c.inserted; values = c.values.items } };

    ghost invariant = { λ c. (length c.values.items ≤ c.size) × (length c.values.items ≤ c.inserted) × (c.size ≤ vec_capacity c.values) };
}

impl<V: Drop> Cache<V> {
    /// Makes a cache that keeps at most `size` values, and takes all its memory.
    pub fn new(alloc: Global, size: usize) -> Result<Cache<V>, AllocError>
        ensures { IfOk result (λ c. c ≡ nothing size) }
    {
        let values = Vec::with_capacity(alloc, size)?;
        Ok(Cache {
            values,
            size,
            inserted: 0,
        })
    }

    /// Inserts a value and returns its number. Where the cache is full, its oldest value is dropped.
    pub fn insert(&mut self, value: V) -> u64
        requires room { 1 ≤ self.old.size }
        requires count { self.old.inserted < 2 ^ 64 - 1 }
        ensures number { result ≡ self.old.inserted }
        ensures values { self.new ≡ with_value value self.old }
    {
        let number = self.inserted;
        if self.values.len() == self.size {
            let _oldest = self.values.remove(0);
        }
        self.values.push_reserved(value);
        self.inserted = number + 1;
        number
    }

    /// The values that are kept, oldest first.
    pub fn values(&self) -> &[V]
        ensures { result.now ≡ self.now.values }
    {
        self.values.as_slice()
    }

    /// Returns the value of this number, where it is kept.
    pub fn value(&self, number: u64) -> Option<&V>
        ensures { option_copied result ≡ value_of self.now number }
    {
        let oldest = self.inserted - self.values.len() as u64;
        if number < oldest {
            return None;
        }
        self.values.get((number - oldest) as usize)
    }
}

impl<V: Admits> Cache<V> {
    /// Returns the least number of a value that is kept and may be used for this input, and None where there is none.
    pub fn find(&mut self, input: &[i64]) -> Option<u64>
        ensures least { result ≡ first_from (oldest self.old) (map (λ v. V.test (V.meaning v) input.now) self.old.values) }
        ensures counts { (self.new.size ≡ self.old.size) × (self.new.inserted ≡ self.old.inserted) }
        ensures stays { map V.meaning self.new.values ≡ map V.meaning self.old.values }
    {
        let oldest = self.inserted - self.values.len() as u64;
        let mut index: usize = 0;
        while index < self.values.len() {
            if self.values[index].admits(input) {
                return Some(oldest + index as u64);
            }
            index += 1;
        }
        None
    }
}
