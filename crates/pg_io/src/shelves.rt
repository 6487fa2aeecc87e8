//! Shelves in memory: one whose fetches fail where they are told to, and one that never fails.
ghost use Rattle.std.specs.Prelude.{◌≡◌, ◌<◌, ◌≤◌, ◌⊎◌, ℕ, List, [], length, Option, Some, None, IsFalse, IfOk, IsSomeAnd, IsErrOf, option_copied};
ghost use Rattle.pg_io.specs.Faults.{Rose, raised};
ghost use Rattle.pg_io.specs.Memory.{is_listed};
ghost use Rattle.pg_io.specs.Shelves.{count_of, named_texts, text_in};

use crate::counts::NameCounts;
use crate::shelf::{FetchFault, Shelf};
use std::alloc::Global;
use std::marker::Model;

/// A shelf of texts in memory. A name that it doesn't have is a fault.
#[derive(Drop)]
pub struct MemoryShelf {
    files: Vec<(String, Vec<u8>)>,
    failing: Vec<u64>,
    calls: u64,
    counts: NameCounts,
}

impl Model for MemoryShelf {
    ghost use Rattle.pg_io.specs.Shelves.{MemoryShelfState, named_texts};

    ghost Value = { MemoryShelfState };

    ghost view = { λ s. record {
      files = named_texts s.files.items;
      failing = s.failing.items;
      calls = s.calls;
      counts = s.counts;
    } };
}

impl MemoryShelf {
    /// A shelf of these texts, each behind its name; of one name the first counts. The calls whose numbers, from 0, are
    /// in `failing` fail; a call that finds no memory has no number. Each count of faults begins at 0.
    pub fn new(alloc: Global, files: Vec<(String, Vec<u8>)>, failing: Vec<u64>) -> MemoryShelf
        ensures files { result.files ≡ named_texts files.items }
        ensures failing { result.failing ≡ failing.items }
        ensures calls { result.calls ≡ 0 }
        ensures counts { result.counts ≡ [] }
    {
        MemoryShelf {
            files,
            failing,
            calls: 0,
            counts: NameCounts::new(alloc),
        }
    }
}

impl Shelf for MemoryShelf {
    ghost text = { λ s name. text_in s.files name };

    ghost faults = { λ s name. count_of s.counts name };

    fn fetch(&mut self, alloc: Global, name: &str, limit: usize) -> Result<Vec<u8>, FetchFault>
        ensures gives { IfOk result (λ v. IsFalse (is_listed self.old.failing self.old.calls) × (text_in self.old.files name.now ≡ Some v.items) × (length v.items ≤ limit)) }
        ensures too_long { IsErrOf result FetchFault.TooLong →
            IsFalse (is_listed self.old.failing self.old.calls) × IsSomeAnd (text_in self.old.files name.now) (λ t. limit < length t) }
        ensures failed { IsErrOf result FetchFault.Failed →
            IsFalse (is_listed self.old.failing self.old.calls) → text_in self.old.files name.now ≡ None }
        ensures files_stay { self.new.files ≡ self.old.files }
        ensures failing_stays { self.new.failing ≡ self.old.failing }
        ensures calls { IsErrOf result FetchFault.OutOfMemory ⊎ (self.new.calls ≡ raised self.old.calls) }
        ensures out_of_memory { IsErrOf result FetchFault.OutOfMemory → self.new.calls ≡ self.old.calls }
        ensures count { IsErrOf result FetchFault.Failed → count_of self.new.counts name.now ≡ raised (count_of self.old.counts name.now) }
        ensures cause { IsErrOf result FetchFault.Failed → Rose (count_of self.old.counts name.now) (count_of self.new.counts name.now) }
        ensures count_stays { IsErrOf result FetchFault.Failed ⊎ (count_of self.new.counts name.now ≡ count_of self.old.counts name.now) }
        ensures count_never_falls { count_of self.old.counts name.now ≤ count_of self.new.counts name.now }
        ensures others_stay { (m : List ℕ) → (m ≡ name.now → ⊥) → count_of self.new.counts m ≡ count_of self.old.counts m }
    {
        let fails = self.failing.contains(&self.calls);
        match copied_text(alloc, &self.files, fails, name, limit) {
            Ok(text) => {
                self.calls = self.calls.saturating_add(1);
                Ok(text)
            }
            Err(FetchFault::TooLong) => {
                self.calls = self.calls.saturating_add(1);
                Err(FetchFault::TooLong)
            }
            Err(FetchFault::Failed) => {
                self.counts.raise(alloc, name)?;
                self.calls = self.calls.saturating_add(1);
                Err(FetchFault::Failed)
            }
            Err(FetchFault::OutOfMemory) => Err(FetchFault::OutOfMemory),
        }
    }
}

/// A shelf that has one text under every name, and never fails.
#[derive(Drop)]
pub struct SureShelf {
    text: Vec<u8>,
}

impl Model for SureShelf {
    ghost use Rattle.pg_io.specs.Shelves.{SureShelfState};

    ghost Value = { SureShelfState };

    ghost view = { λ s. record { text = s.text.items } };
}

impl SureShelf {
    /// A shelf that has this text under every name.
    pub fn new(text: Vec<u8>) -> SureShelf
        ensures { result ≡ record { text = text.items } }
    {
        SureShelf { text }
    }
}

impl Shelf for SureShelf {
    ghost text = { λ s _. Some s.text };

    ghost faults = { λ _ _. 0 };

    fn fetch(&mut self, alloc: Global, name: &str, limit: usize) -> Result<Vec<u8>, FetchFault>
        ensures gives { IfOk result (λ v. (v.items ≡ self.old.text) × (length v.items ≤ limit)) }
        ensures too_long { IsErrOf result FetchFault.TooLong → limit < length self.old.text }
        ensures never_fails { IsErrOf result FetchFault.Failed → ⊥ }
        ensures stays { self.new ≡ self.old }
    {
        let _name = name;
        copied(alloc, &self.text, limit)
    }
}

// A text, if it has at most `limit` bytes.
fn copied(alloc: Global, text: &[u8], limit: usize) -> Result<Vec<u8>, FetchFault>
    ensures gives { IfOk result (λ v. (v.items ≡ text.now) × (length v.items ≤ limit)) }
    ensures too_long { IsErrOf result FetchFault.TooLong → limit < length text.now }
    ensures never_fails { IsErrOf result FetchFault.Failed → ⊥ }
{
    if text.len() > limit {
        return Err(FetchFault::TooLong);
    }
    match text.to_vec(alloc) {
        Ok(copy) => Ok(copy),
        Err(_) => Err(FetchFault::OutOfMemory),
    }
}

// The first text of this name.
fn found<'a>(files: &'a [(String, Vec<u8>)], name: &str) -> Option<&'a [u8]>
    ensures { option_copied result ≡ text_in (named_texts files.now) name.now }
{
    // The label is for the proof: see docs/CONTRIBUTING.md.
    'files: for place in 0..files.len() {
        if files[place].0.as_str() == name {
            return Some(files[place].1.as_slice());
        }
    }
    None
}

// What a call gives that fails or doesn't.
fn copied_text(
    alloc: Global,
    files: &[(String, Vec<u8>)],
    fails: bool,
    name: &str,
    limit: usize,
) -> Result<Vec<u8>, FetchFault>
    ensures gives { IfOk result (λ v. IsFalse fails × (text_in (named_texts files.now) name.now ≡ Some v.items) × (length v.items ≤ limit)) }
    ensures too_long { IsErrOf result FetchFault.TooLong → IsFalse fails × IsSomeAnd (text_in (named_texts files.now) name.now) (λ t. limit < length t) }
    ensures failed { IsErrOf result FetchFault.Failed → IsFalse fails → text_in (named_texts files.now) name.now ≡ None }
{
    if fails {
        return Err(FetchFault::Failed);
    }
    match found(files, name) {
        Some(text) => copied(alloc, text, limit),
        None => Err(FetchFault::Failed),
    }
}
