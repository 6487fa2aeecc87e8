//! Numbers at nodes, by classes.

ghost use Rattle.std.specs.Prelude.{◌≡◌, ◌<◌};
ghost use Rattle.pg_stamps.specs.Numbers.{class_of};

use indexmap::IndexMap;
use std::alloc::{AllocError, Global};
use std::marker::Model;

/// Numbers at nodes, and the classes of the nodes that have one: bit `c` of `classes` is for class `c`.
#[derive(Drop)]
pub(crate) struct Marks {
    numbers: IndexMap<u64, u64>,
    classes: u64,
}

impl Model for Marks {
    ghost use Rattle.indexmap.specs.IndexMap.{spare};
    ghost use Rattle.pg_stamps.specs.Numbers.{AreClasses, Numbers};

    ghost Value = { Numbers };

    ghost view = { λ m. record { entries = m.numbers.entries; room = spare m.numbers } };

    ghost invariant = { λ m. AreClasses m.classes (record { entries = m.numbers.entries; room = spare m.numbers }) };
}

/// The class of a node: how many zeros stand before its binary digits.
fn class_of(node: u64) -> u32
    requires { 0 < node }
    ensures class { result ≡ class_of node }
    ensures bound { result < 64 }
{
    node.leading_zeros()
}

impl Marks {
    ghost use Rattle.std.specs.Prelude.{◌==◌, ◌+◌, ◌≤◌, [], ℕ, OnOk, max, if◌then◌else◌};
    ghost use Rattle.pg_stamps.specs.Numbers.{AreClasses, number_at};

    /// No node has a number.
    pub(crate) fn new(alloc: Global) -> Marks
        ensures { result.entries ≡ [] }
    {
        Marks {
            numbers: IndexMap::new(alloc),
            classes: 0,
        }
    }

    /// The number at a node, 0 where there is none.
    pub(crate) fn number_at(&self, node: u64) -> u64
        ensures { result ≡ number_at self.now node }
    {
        match self.numbers.get(&node) {
            Some(number) => *number,
            None => 0,
        }
    }

    /// The classes of the nodes that have a number, a bit for each.
    pub(crate) fn classes(&self) -> u64
        ensures { AreClasses result self.now }
    {
        self.classes
    }

    /// Raises the number at a node.
    pub(crate) fn raise(&mut self, node: u64, number: u64)
        requires node { 0 < node }
        requires room { 0 < self.old.room }
        ensures numbers { (n : ℕ) → number_at self.new n ≡ max (number_at self.old n) (if n == node then number else 0) }
        ensures room { self.old.room ≤ self.new.room + 1 }
    {
        if self.number_at(node) < number {
            self.classes |= 1 << class_of(node);
            match self.numbers.insert(node, number) {
                Ok(_) => {}
                Err(_) => {}
            }
        }
    }

    /// Makes room for so many nodes more.
    ///
    /// # Errors
    ///
    /// Where no memory is left for them. The numbers are as before in any case.
    pub(crate) fn reserve(&mut self, additional: usize) -> Result<(), AllocError>
        ensures entries { self.new.entries ≡ self.old.entries }
        ensures room { OnOk result (additional ≤ self.new.room) }
    {
        self.numbers.reserve(additional)
    }
}
