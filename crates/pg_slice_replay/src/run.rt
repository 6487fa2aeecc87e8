//! Reference runs, and what is read of them.

ghost use Rattle.std.specs.Prelude.{◌≡◌, ℕ, IfNone, IfSome, None, Option, [], false, is_some, length, option_map, slice_get};
ghost use Rattle.std.specs.Option.{option_copied};
ghost use Rattle.pg_region_accesses.specs.Tables.{in_table};
ghost use Rattle.pg_slice_rules.specs.Freeable.{FreeRegion};
ghost use Rattle.pg_slice_replay.specs.Given.{access_as};
ghost use Rattle.pg_slice_replay.specs.Paths.{access_at, accesses_with};
ghost use Rattle.pg_slice_replay.specs.Kept.{free_at, landmark_at, region_by, step_count};

use crate::at::{At, at_if, from};
use crate::found::FoundRegion;
use crate::row::{FreeStep, Row};
use pg_region_accesses::Rooted;
use pg_region_paths::RootPath;

/// What a replay gives of each step of a reference run.
#[derive(Drop)]
pub struct ReferenceRun {
    pub(crate) rows: Vec<Row>,
    pub(crate) ats: Vec<At>,
    pub(crate) regions: Vec<FoundRegion>,
}

/// An access of the region of a freeable step: whether it writes, its root path, and where this leads at the step: the
/// pointers from which its loads read, in their order, and the last pointer.
#[derive(Clone, Copy, Debug, PartialEq, Eq)]
pub struct FreeAccess {
    pub writes: bool,
    pub path: RootPath,
    pub pointers: [u64; 4],
    pub last: u64,
}

impl ReferenceRun {
    /// How many steps there are.
    pub fn len(&self) -> usize
        ensures count { result ≡ step_count self.now }
    {
        self.rows.len()
    }

    /// How deep the calls of a step's thread are before it.
    pub fn depth(&self, n: usize) -> u32
        ensures depth { IfSome (landmark_at self.now n) (λ l. result ≡ l.depth) }
    {
        match self.rows.get(n) {
            Some(row) => row.depth,
            None => 0,
        }
    }

    /// The block that a step's edge enters, if it takes one.
    pub fn edge(&self, n: usize) -> Option<u32>
        ensures edge { IfSome (landmark_at self.now n) (λ l. result ≡ l.edge) }
    {
        match self.rows.get(n) {
            Some(row) => row.edge,
            None => None,
        }
    }

    /// The register of the caller that a return sets.
    pub fn target(&self, n: usize) -> Option<u32>
        ensures target { IfSome (landmark_at self.now n) (λ l. result ≡ l.target) }
    {
        match self.rows.get(n) {
            Some(row) => row.target,
            None => None,
        }
    }

    /// The function of the present call of a step's thread.
    pub fn function(&self, n: usize) -> u32
        ensures function { IfSome (landmark_at self.now n) (λ l. result ≡ l.function) }
    {
        match self.rows.get(n) {
            Some(row) => row.function,
            None => 0,
        }
    }

    /// What makes a step freeable.
    fn free(&self, n: usize) -> Option<FreeStep>
        ensures { result ≡ free_at self.now n }
    {
        match self.rows.get(n) {
            Some(row) => row.free,
            None => None,
        }
    }

    /// The region that makes a step freeable.
    fn region(&self, n: usize) -> Option<&FoundRegion>
        ensures { option_copied result ≡ region_by self.now.regions.items (free_at self.now n) }
    {
        match self.free(n) {
            Some(free) => self.regions.get(free.region as usize),
            None => None,
        }
    }

    /// Whether a step is at a branch that is freeable.
    pub fn is_free(&self, n: usize) -> bool
        ensures free { IfSome (landmark_at self.now n) (λ l. result ≡ is_some l.region) }
    {
        self.region(n).is_some()
    }

    /// The join of the region that makes a step freeable; none where it isn't freeable.
    pub fn join(&self, n: usize) -> Option<u32>
        ensures join { IfSome (landmark_at self.now n) (λ l. result ≡ option_map (λ (r : FreeRegion). r.join) l.region) }
    {
        match self.region(n) {
            Some(region) => Some(region.join),
            None => None,
        }
    }

    /// Whether the region that makes a step freeable, or a `phi` of its join, may set a register; no where it isn't freeable.
    pub fn sets(&self, n: usize, r: u32) -> bool
        ensures sets { IfSome (landmark_at self.now n) (λ l. IfSome l.region (λ f. result ≡ f.sets r)) }
        ensures sets_none { IfSome (landmark_at self.now n) (λ l. IfNone l.region (result ≡ false)) }
    {
        match self.region(n) {
            Some(region) => is_in(region.sets.as_slice(), r),
            None => false,
        }
    }

    /// The registers that the region which makes a step freeable, or a `phi` of its join, may set, as a table; none where it
    /// isn't freeable.
    pub fn marks(&self, n: usize) -> &[bool]
        ensures marks { IfSome (landmark_at self.now n) (λ l. IfSome l.region (λ f. (r : ℕ) → f.sets r ≡ in_table result.now r)) }
        ensures no_marks { IfSome (landmark_at self.now n) (λ l. IfNone l.region (result.now ≡ [])) }
    {
        match self.region(n) {
            Some(region) => region.sets.as_slice(),
            None => &[],
        }
    }

    /// How many accesses the region has that makes a step freeable; 0 where it isn't freeable.
    pub fn access_count(&self, n: usize) -> usize
        ensures count { IfSome (landmark_at self.now n) (λ l. IfSome l.region (λ f. result ≡ length f.accesses)) }
        ensures no_count { IfSome (landmark_at self.now n) (λ l. IfNone l.region (result ≡ 0)) }
    {
        match self.free(n) {
            Some(free) => match self.regions.get(free.region as usize) {
                Some(region) => {
                    let ats = from(self.ats.as_slice(), free.first as usize);
                    count_in(region.accesses.as_slice(), ats)
                }
                None => 0,
            },
            None => 0,
        }
    }

    /// The access with this number of the region that makes a step freeable, from 0 on; none where there are no more, or
    /// the step isn't freeable.
    pub fn access(&self, n: usize, k: usize) -> Option<FreeAccess>
        ensures access { IfSome (landmark_at self.now n) (λ l. IfSome l.region (λ f. option_map access_as result ≡ slice_get f.accesses k)) }
        ensures no_access { IfSome (landmark_at self.now n) (λ l. IfNone l.region (result ≡ None)) }
    {
        match self.free(n) {
            Some(free) => match self.regions.get(free.region as usize) {
                Some(region) => {
                    let ats = from(self.ats.as_slice(), free.first as usize);
                    access_in(region.accesses.as_slice(), ats, k)
                }
                None => None,
            },
            None => None,
        }
    }
}

/// How many accesses of a region there are whose paths lead somewhere.
#[tactic(auto, using(crate::proofs::RegionAccessCounts::counted))]
fn count_in(accesses: &[Rooted], ats: &[At]) -> usize
    ensures { result ≡ length (accesses_with accesses.now ats.now) }
{
    accesses.len().min(ats.len())
}

/// The access with this number, if there is one.
fn rooted_if(accesses: &[Rooted], k: usize) -> Option<&Rooted>
    ensures { option_copied result ≡ slice_get accesses.now k }
{
    accesses.get(k)
}

/// The access with this number among those of a region, where its path leads there.
fn access_in(accesses: &[Rooted], ats: &[At], k: usize) -> Option<FreeAccess>
    ensures { option_map access_as result ≡ slice_get (accesses_with accesses.now ats.now) k }
{
    match rooted_if(accesses, k) {
        Some(access) => match at_if(ats, k) {
            Some(at) => Some(given(access, at)),
            None => None,
        },
        None => None,
    }
}

/// Whether a number is in a set.
fn is_in(set: &[bool], r: u32) -> bool
    ensures { result ≡ in_table set.now r }
{
    match set.get(r as usize) {
        Some(is_in) => *is_in,
        None => false,
    }
}

/// An access of a region where its path leads there.
fn given(access: &Rooted, at: &At) -> FreeAccess
    ensures { access_as result ≡ access_at access.now at.now }
{
    let pointers = at.pointers;
    FreeAccess {
        writes: access.writes,
        path: access.path,
        pointers,
        last: at.last,
    }
}
