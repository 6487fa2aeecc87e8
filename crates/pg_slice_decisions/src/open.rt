//! The extents that are open at a step.

ghost use Rattle.std.specs.Prelude.{◌≡◌, ◌==◌, ◌&&◌, ◌||◌, [], not, ℕ, List, Bool, Option, IfOk};
ghost use Rattle.std.specs.List.{filter, list_any};
ghost use Rattle.pg_slice_rules.specs.Extents as defs;
ghost use Rattle.pg_slice_rules.specs.Extents.{Extent};
ghost use Rattle.pg_slice_rules.specs.Freeable.{FreeRegion};
ghost use Rattle.pg_slice_decisions.specs.Open.{AreOpen, left_free};
ghost use Rattle.pg_slice_decisions.specs.Places.{Begins, EntersBlock, has, is_at, open_at};

use std::alloc::{AllocError, Global};

/// Where an extent ends: at the block that is the join, in so many calls.
#[derive(Clone, Copy)]
struct Place {
    depth: u32,
    join: u32,
}

/// Whether the extent ends at this block in so many calls.
fn is_at(place: Place, depth: u32, join: u32) -> bool
    ensures { result ≡ is_at depth join place }
{
    place.depth == depth && place.join == join
}

/// Whether some extent ends there.
fn has(ends: &[Place], depth: u32, join: u32) -> bool
    ensures { result ≡ has ends.now depth join }
{
    for place in ends {
        if is_at(*place, depth, join) {
            return true;
        }
    }
    false
}

/// The other places.
fn without(alloc: Global, ends: &[Place], depth: u32, join: u32) -> Result<Vec<Place>, AllocError>
    ensures { IfOk result (λ v. v.items ≡ filter (λ e. not (is_at depth join e)) ends.now) }
{
    let mut others = Vec::new(alloc);
    for place in ends {
        if !is_at(*place, depth, join) {
            others.push(*place)?;
        }
    }
    Ok(others)
}

/// The ends of the open extents of a thread whose branch steps aren't pinned: a step is live where there is none. A
/// place is kept once, however many extents end there.
#[derive(Drop)]
pub struct OpenExtents {
    ends: Vec<Place>,
}

impl OpenExtents {
    /// No extent is open.
    pub fn new(alloc: Global) -> OpenExtents
        ensures { (pinned : ℕ → Bool) → AreOpen pinned [] (open_at result) }
    {
        OpenExtents {
            ends: Vec::new(alloc),
        }
    }

    #[tactic(auto, using(crate::proofs::OpenedExtents::live_by))]
    /// Whether each open extent is that of a pinned step.
    pub fn is_live(&self) -> bool
        ensures { (pinned : ℕ → Bool) (es : List Extent) → AreOpen pinned es (open_at self.now) → result ≡ defs.is_live pinned es }
    {
        self.ends.as_slice().is_empty()
    }

    /// One extent more, that ends at this join, if there is one.
    fn begin(&mut self, depth: u32, join: Option<u32>) -> Result<(), AllocError>
        ensures { IfOk result (λ u. Begins depth join (open_at self.old) (open_at self.new)) }
    {
        if let Some(join) = join {
            if !has(self.ends.as_slice(), depth, join) {
                self.ends.push(Place { depth, join })?;
            }
        }
        Ok(())
    }

    #[tactic(auto, using(crate::proofs::OpenedExtents::entered_by))]
    /// The extents that end at this block, if one is entered, are open no more.
    fn enter(&mut self, alloc: Global, depth: u32, block: Option<u32>) -> Result<(), AllocError>
        ensures { IfOk result (λ u. EntersBlock depth block (open_at self.old) (open_at self.new)) }
    {
        if let Some(block) = block {
            if has(self.ends.as_slice(), depth, block) {
                self.ends = without(alloc, self.ends.as_slice(), depth, block)?;
            }
        }
        Ok(())
    }

    #[tactic(auto, using(crate::proofs::OpenedExtents::passed))]
    /// What a step leaves open, in a thread with so many calls: `free` is the join of its region where the step is
    /// freeable and isn't pinned, `edge` the block that it enters, if it takes an edge.
    ///
    /// # Errors
    ///
    /// Where no memory is left. Nothing is said of what is open then.
    pub fn pass(
        &mut self,
        alloc: Global,
        depth: u32,
        free: Option<u32>,
        edge: Option<u32>,
    ) -> Result<(), AllocError>
        ensures { IfOk result (λ u. (pinned : ℕ → Bool) (es : List Extent) (n : ℕ) (region : Option FreeRegion) → AreOpen pinned es (open_at self.old)
            → free ≡ left_free (pinned n) region →
            AreOpen pinned (defs.open_after n depth region edge es) (open_at self.new)) }
    {
        self.begin(depth, free)?;
        self.enter(alloc, depth, edge)
    }
}
