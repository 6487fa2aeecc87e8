//! Lists of words that are zero until they are written.

ghost use Rattle.std.specs.Prelude.{◌≡◌, ◌<◌, ◌≤◌, length, replicate, slice_index, slice_set, vec_capacity, IfOk};
ghost use Rattle.pg_run_memory.specs.Parts.{padded};

use std::alloc::{AllocError, Global};
use std::marker::Model;

/// A list of words. Those behind the last that was written are zero, and stand nowhere until then: to make the list
/// takes room and no time.
#[derive(Drop)]
pub(crate) struct LazyWords {
    words: Vec<u64>,
    count: usize,
}

impl Model for LazyWords {
    ghost use Rattle.std.specs.Prelude.{◌≤◌, length, vec_capacity};
    ghost use Rattle.pg_run_memory.specs.Memory.{Words};
    ghost use Rattle.pg_run_memory.specs.Parts.{padded};

    ghost Value = { Words };

    ghost view = { λ l. padded l.count l.words.items };

    ghost invariant = { λ l. (length l.words.items ≤ l.count) × (l.count ≤ vec_capacity l.words) };
}

/// How many words become zero at a time, so that words that are written in order don't each ask for that.
const CHUNK_WORDS: usize = 128;

/// Adds zeros until a list has the index, and some more, up to as many as it has room for.
fn reach(words: &mut Vec<u64>, index: usize, count: usize)
    requires within { index < count }
    requires fits { length words.old.items ≤ count }
    requires room { count ≤ vec_capacity words.old }
    ensures words { padded count words.new.items ≡ padded count words.old.items }
    ensures reached { index < length words.new.items }
    ensures fits { length words.new.items ≤ count }
    ensures room { count ≤ vec_capacity words.new }
{
    if words.len() <= index {
        let length = index + CHUNK_WORDS.min(count - index);
        // there is room, so this doesn't fail
        let _ = words.resize(length, 0);
    }
}

impl LazyWords {
    /// So many zeros.
    #[tactic(auto, using(crate::proofs::Padding::padded_none))]
    pub(crate) fn zeros(alloc: Global, count: usize) -> Result<LazyWords, AllocError>
        ensures { IfOk result (λ l. l ≡ replicate count 0) }
    {
        Ok(LazyWords {
            words: Vec::with_capacity(alloc, count)?,
            count,
        })
    }

    /// The word at an index, and zero past the end.
    #[tactic(auto, using(crate::proofs::Padding::padded_get))]
    pub(crate) fn get(&self, index: usize) -> u64
        ensures { result ≡ slice_index self.now index }
    {
        match self.words.get(index) {
            Some(&word) => word,
            None => 0,
        }
    }

    /// Puts a word at an index. Takes no memory.
    #[tactic(auto, using(crate::proofs::Padding::set_padded))]
    pub(crate) fn set(&mut self, index: usize, word: u64)
        requires { index < length self.old }
        ensures { self.new ≡ slice_set self.old index word }
    {
        reach(&mut self.words, index, self.count);
        self.words[index] = word;
    }
}
