//! The pages of memory that a run wrote, so that they can be swept behind it.

ghost use Rattle.std.specs.Prelude.{◌≡◌, ◌<◌, ◌/◌, ℕ, length, true, false, IfOk, slice_index};
ghost use Rattle.pg_seats.specs.pg_num.Places.{IsPlace};
ghost use Rattle.pg_worker.specs.Pages.{is_marked, page_of};

use pg_seats::pg_num::Place as Range;
use std::alloc::{AllocError, Global};

/// How many pages of 64 granules memory has.
pub const PAGE_COUNT: u32 = 0x1_0000;

/// How many words have a bit for each page.
pub const PAGE_WORDS: u32 = 0x400;

/// A bit for each page.
#[derive(Drop)]
pub struct Pages {
    words: Vec<u64>,
    pub ghost wide: { length words.items ≡ 1024 },
}

impl Pages {
    /// No page is marked.
    ///
    /// # Errors
    ///
    /// Where no memory is left.
    pub fn new(alloc: Global) -> Result<Pages, AllocError>
        ensures none { IfOk result (λ p. (page : ℕ) → is_marked p.words.items page ≡ false) }
    {
        let words = vec![in alloc; 0; PAGE_WORDS as usize]?;
        Ok(Pages { words })
    }

    /// Marks the page of a range of memory.
    pub fn mark(&mut self, at: Range)
        ensures place { IsPlace at }
        ensures marked { is_marked self.new.words.items (page_of at.start) ≡ true }
        ensures kept { (page : ℕ) → is_marked self.old.words.items page ≡ true → is_marked self.new.words.items page ≡ true }
    {
        let page = at.start() / 512;
        self.words[(page / 64) as usize] |= 1 << (page % 64);
    }

    /// Marks the pages that are marked there too.
    pub fn add(&mut self, other: &Pages)
        ensures kept { (page : ℕ) → is_marked self.old.words.items page ≡ true → is_marked self.new.words.items page ≡ true }
        ensures added { (page : ℕ) → is_marked other.now.words.items page ≡ true → is_marked self.new.words.items page ≡ true }
    {
        for index in 0..PAGE_WORDS {
            self.words[index as usize] |= other.word(index);
        }
    }

    /// Whether a page is marked.
    pub fn has(&self, page: u32) -> bool
        requires { page < PAGE_COUNT }
        ensures { result ≡ is_marked self.now.words.items page }
    {
        (self.words[(page / 64) as usize] >> (page % 64)) & 1 == 1
    }

    /// The bits of 64 pages, 0 where none of them is marked.
    pub fn word(&self, index: u32) -> u64
        requires { index < PAGE_WORDS }
        ensures { result ≡ slice_index self.now.words.items index }
    {
        self.words[index as usize]
    }
}
