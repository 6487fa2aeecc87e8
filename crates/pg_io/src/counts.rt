//! Counts of the fetches that failed, by name.
ghost use Rattle.std.specs.Prelude.{◌≡◌, ◌≤◌, [], ℕ, List, OnOk, OnErr};
ghost use Rattle.pg_io.specs.Faults.{Rose, raised};
ghost use Rattle.pg_io.specs.Shelves.{count_of, counts_in};

use std::alloc::{AllocError, Global};
use std::collections::BTreeMap;
use std::marker::Model;

/// How many fetches of each name failed.
#[derive(Drop)]
pub(crate) struct NameCounts {
    counts: BTreeMap<String, u64>,
}

impl Model for NameCounts {
    ghost use Rattle.pg_io.specs.Shelves.{NameCountList, counts_in};

    ghost Value = { NameCountList };

    ghost view = { λ s. counts_in s.counts.entries };
}

impl NameCounts {
    /// No fetch failed so far.
    pub(crate) fn new(alloc: Global) -> NameCounts
        ensures { result ≡ [] }
    {
        NameCounts {
            counts: BTreeMap::new(alloc),
        }
    }

    /// Counts one more fault of a name. The counts stay where there is no memory.
    pub(crate) fn raise(&mut self, alloc: Global, name: &str) -> Result<(), AllocError>
        ensures named { OnOk result (count_of self.new name.now ≡ raised (count_of self.old name.now)) }
        ensures never_falls { OnOk result (count_of self.old name.now ≤ count_of self.new name.now) }
        ensures rose { OnOk result (Rose (count_of self.old name.now) (count_of self.new name.now)) }
        ensures others { OnOk result ((m : List ℕ) → (m ≡ name.now → ⊥) → count_of self.new m ≡ count_of self.old m) }
        ensures err { OnErr result (self.new ≡ self.old) }
    {
        raise(&mut self.counts, alloc, name)
    }
}

// The count of a name, 0 for one that never failed.
#[tactic(auto, using(crate::proofs::CountedNames::count_is))]
fn count_of(counts: &BTreeMap<String, u64>, name: &str) -> u64
    ensures { result ≡ count_of (counts_in counts.now.entries) name.now }
{
    counts.get(name).copied().unwrap_or(0)
}

// A count after one more fault.
fn raised(count: u64) -> u64
    ensures value { result ≡ raised count }
    ensures never_falls { count ≤ result }
    ensures rose { Rose count result }
{
    count.saturating_add(1)
}

// Counts one more fault of a name.
fn raise(counts: &mut BTreeMap<String, u64>, alloc: Global, name: &str) -> Result<(), AllocError>
    ensures named { OnOk result (count_of (counts_in counts.new.entries) name.now ≡ raised (count_of (counts_in counts.old.entries) name.now)) }
    ensures never_falls { OnOk result (count_of (counts_in counts.old.entries) name.now ≤ count_of (counts_in counts.new.entries) name.now) }
    ensures rose { OnOk result (Rose (count_of (counts_in counts.old.entries) name.now) (count_of (counts_in counts.new.entries) name.now)) }
    ensures others { OnOk result ((m : List ℕ) → (m ≡ name.now → ⊥) →
        count_of (counts_in counts.new.entries) m ≡ count_of (counts_in counts.old.entries) m) }
    ensures err { OnErr result (counts_in counts.new.entries ≡ counts_in counts.old.entries) }
{
    let count = raised(count_of(counts, name));
    let key = String::from_str(alloc, name)?;
    counts.insert(key, count)?;
    Ok(())
}
