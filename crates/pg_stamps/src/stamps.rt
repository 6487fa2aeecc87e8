//! The last change of each place.

ghost use Rattle.std.specs.Prelude.{◌≡◌, ◌==◌, ◌&&◌, ◌+◌, ◌%◌, ◌<◌, ◌≤◌, ℕ, OnErr, OnOk, max, nat_le, nat_lt, if◌then◌else◌};
ghost use Rattle.pg_stamps.specs.Marks.{greatest_at, is_marked, mark_of};

use crate::marks::Marks;
use std::alloc::{AllocError, Global};

/// How many places there are.
pub const PLACE_COUNT: u64 = 0x400_0000;

/// The levels of the tree over the places: the leaves, and one level for each halving of their number down to one.
const LEVELS: usize = 27;

/// The class of the leaves among the nodes. That of a level is greater by the level's height.
const LEAF_CLASS: u32 = 37;

/// Numbers on the places below `PLACE_COUNT`: of each place the greatest that was put on a range which holds it. They are
/// kept at the nodes of a binary tree, whose leaves are the places; a node's children have twice its number, and one more.
#[derive(Drop)]
pub struct Stamps {
    marks: Marks,
}

/// The greater of two numbers.
fn greater(a: u64, b: u64) -> u64
    ensures { result ≡ max a b }
{
    if a < b { b } else { a }
}

impl Stamps {
    /// The number 0 on each place.
    pub fn new(alloc: Global) -> Stamps
        ensures { (x : ℕ) → greatest_at result x ≡ 0 }
    {
        Stamps {
            marks: Marks::new(alloc),
        }
    }

    /// Raises the numbers at the nodes of a level, from `left` to below `right`, whose parents aren't wholly in the range.
    fn mark_level(&mut self, left: u64, right: u64, number: u64)
        requires left { 0 < left }
        requires room { 2 ≤ self.old.marks.room }
        ensures marks { (n : ℕ) → mark_of self.new n ≡ max (mark_of self.old n) (if is_marked left right n then number else 0) }
        ensures room { self.old.marks.room ≤ self.new.marks.room + 2 }
    {
        if left < right {
            if left % 2 == 1 {
                self.marks.raise(left, number);
            }
            if right % 2 == 1 {
                self.marks.raise(right - 1, number);
            }
        }
    }

    /// Puts a number on the places from `start` to below `end`.
    ///
    /// # Errors
    ///
    /// Where no memory is left. Each place then has its number as before.
    pub fn stamp(&mut self, start: u64, end: u64, number: u64) -> Result<(), AllocError>
        requires order { start ≤ end }
        requires end { end ≤ PLACE_COUNT }
        ensures stamped { OnOk result ((x : ℕ) → x < PLACE_COUNT → greatest_at self.new x ≡ max (greatest_at self.old x) (if nat_le start x && nat_lt x end then number else 0)) }
        ensures same { OnErr result ((x : ℕ) → greatest_at self.new x ≡ greatest_at self.old x) }
    {
        self.marks.reserve(2 * LEVELS)?;
        let mut left = start + PLACE_COUNT;
        let mut right = end + PLACE_COUNT;
        for _level in 0..LEVELS {
            if left >= right {
                break;
            }
            self.mark_level(left, right, number);
            left = (left + 1) / 2;
            right /= 2;
        }
        Ok(())
    }

    /// The greater of a number and the one at a node, whose level's bit is the lowest of `levels`.
    fn greater_at(&self, node: u64, levels: u64, number: u64) -> u64
        requires { levels % 2 ≡ 0 → mark_of self.now node ≡ 0 }
        ensures { result ≡ max number (mark_of self.now node) }
    {
        if levels % 2 == 0 {
            return number;
        }
        greater(number, self.marks.number_at(node))
    }

    /// The greatest number of the ranges that hold a place; 0 where there is none.
    pub fn greatest(&self, place: u64) -> u64
        requires { place < PLACE_COUNT }
        ensures { result ≡ greatest_at self.now place }
    {
        let mut node = place + PLACE_COUNT;
        let mut levels = self.marks.classes() >> LEAF_CLASS;
        let mut number = 0;
        for _level in 0..LEVELS {
            if levels == 0 {
                break;
            }
            number = self.greater_at(node, levels, number);
            node /= 2;
            levels /= 2;
        }
        number
    }
}
