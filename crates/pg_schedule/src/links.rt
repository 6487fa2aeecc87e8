//! The steps that access a byte, one behind another.

ghost use Rattle.std.specs.Prelude.{◌≡◌, ◌==◌, ◌<◌, ◌≤◌, ◌+◌, ◌-◌, ◌++◌, ◌∷◌, [], ℕ, List, IfOk, OnOk, Some, length, slice_get, if◌then◌else◌};
ghost use Rattle.pg_num.specs.Places.{ByteRange};
ghost use Rattle.pg_schedule.specs.Links.{AreListed, accesses_byte, head_at, numbers_of, with_step};
ghost use Rattle.pg_run_trace.specs.Races.{is_in};
ghost use Rattle.pg_run_trace.specs.Steps.{range_of};

use indexmap::IndexMap;
use pg_run_trace::{Access, Trace};
use std::alloc::{AllocError, Global};

/// A step that accesses a byte, and the link of the next one that does: one more than its place, 0 where
/// there is none.
#[derive(Clone, Copy)]
pub(crate) struct Link {
    pub step: usize,
    pub next: usize,
}

/// The steps that access each byte, in order, by the first link of each byte.
#[derive(Drop)]
pub(crate) struct Links {
    pub heads: IndexMap<u64, usize>,
    pub links: Vec<Link>,
}

/// The byte with this number of an access, from 0 on.
pub(crate) fn byte_of(access: Access, i: u8) -> u64
    ensures { result ≡ (range_of access).start + i }
{
    u64::from(access.start()) + u64::from(i)
}

impl Links {
    /// No links.
    fn new(alloc: Global) -> Links
        ensures heads { (b : ℕ) → head_at result b ≡ 0 }
        ensures links { result.links.items ≡ [] }
    {
        Links {
            heads: IndexMap::new(alloc),
            links: Vec::new(alloc),
        }
    }

    /// The first link of a byte.
    pub fn head(&self, byte: u64) -> usize
        ensures { result ≡ head_at self.now byte }
    {
        match self.heads.get(&byte) {
            Some(head) => *head,
            None => 0,
        }
    }

    /// The link with this number, from 1 on.
    pub fn at(&self, n: usize) -> Link
        requires some { 0 < n }
        requires within { n ≤ length self.now.links.items }
        ensures { slice_get self.now.links.items (n - 1) ≡ Some result }
    {
        self.links[n - 1]
    }

    /// Puts a step before those of a byte.
    fn push(&mut self, byte: u64, step: usize) -> Result<(), AllocError>
        ensures heads { OnOk result ((b : ℕ) → head_at self.new b ≡ (if b == byte then length self.old.links.items + 1 else head_at self.old b)) }
        ensures links { OnOk result (self.new.links.items ≡ self.old.links.items ++ record { step = step; next = head_at self.old byte } ∷ []) }
    {
        let next = self.head(byte);
        self.links.push(Link { step, next })?;
        match self.heads.insert(byte, self.links.len()) {
            Ok(_) => Ok(()),
            Err(_) => Err(AllocError),
        }
    }
}

/// Puts step `i` of `n` before those of each byte of its access.
fn note(links: &mut Links, access: Access, i: usize) -> Result<(), AllocError>
    ensures { OnOk result ((n : ℕ) (steps : ℕ → List ℕ) → i < n → AreListed n links.old steps
        → AreListed n links.new (λ b. with_step i steps b (is_in (range_of access) b))) }
{
    for k in 0..access.bytes {
        links.push(byte_of(access, k), i)?;
    }
    Ok(())
}

/// The steps of a trace that access each byte.
///
/// # Errors
///
/// Where no memory is left for them.
pub(crate) fn links_of(alloc: Global, t: &Trace) -> Result<Links, AllocError>
    ensures { IfOk result (λ l. AreListed (length t.now.steps) l (λ b. numbers_of (accesses_byte b) 0 t.now.steps)) }
{
    let mut links = Links::new(alloc);
    for k in 0..t.len() {
        let i = t.len() - 1 - k;
        if let Some(access) = t.step(i).access() {
            note(&mut links, access, i)?;
        }
    }
    Ok(links)
}
