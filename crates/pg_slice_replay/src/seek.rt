//! The regions of branches, each sought once.

ghost use Rattle.std.specs.Prelude.{◌≡◌, ℕ, ◌<◌, Bool, Option, length, All, IfOk, OnOk, Some, true, replicate, slice_get};
ghost use Rattle.pg_ir.specs.declared.ids.InstrId.{InstrId};
ghost use Rattle.pg_region_accesses.specs.Accesses.{RootedList, is_gated, summary_of};
ghost use Rattle.pg_region_accesses.specs.Tables.{in_table};
ghost use Rattle.pg_region.specs.Alike.{AreKept, HasRegionOf, IsFound};
ghost use Rattle.pg_region.specs.Finders.{IsFinder};
ghost use Rattle.pg_region.specs.Regions.{RegionOf, block_of};
ghost use Rattle.pg_run_trace.specs.declared.step.Step.{Step};
ghost use Rattle.pg_slice_rules.specs.Known.{is_branch};
ghost use Rattle.pg_slice_replay.specs.Sought.{AddsRegion, AreFound, IsKept, IsNowKnown, WasSought, WithinProgram, was_sought};

use crate::found::{FoundRegion, Regions, Sought};
use crate::may_set::may_set;
use pg_ir::{InstrId, Program};
use pg_region::{Alike, Finder, Found, Region};
use pg_region_accesses::{Summary, block_count};
use pg_run_trace::{Step, StepKind, Trace};
use std::alloc::{AllocError, Global};

/// What is kept of a region.
fn kept(alloc: Global, p: &Program, region: Region) -> Result<FoundRegion, AllocError>
    requires blocks { All (λ b. b < length p.now.blocks) region.blocks.items }
    requires join { region.join < length p.now.blocks }
    ensures { IfOk result (IsKept p.now region) }
{
    let sets = may_set(alloc, p, region.blocks.as_slice(), region.join)?;
    Ok(FoundRegion {
        join: region.join,
        sets,
        accesses: region.accesses,
    })
}

/// So many blocks whose branches weren't sought.
fn unsought(alloc: Global, count: usize) -> Result<Vec<Sought>, AllocError>
    ensures { IfOk result (λ blocks. blocks.items ≡ replicate count Sought.Unsought) }
{
    vec![in alloc; Sought::Unsought; count]
}

/// No branch of a program was sought.
fn none_known(alloc: Global, p: &Program) -> Result<Regions, AllocError>
    ensures { IfOk result (λ r. (gated : ℕ → Bool) (sums : ℕ → Option RootedList) → AreFound p.now gated sums r.blocks.items r.regions.items) }
{
    Ok(Regions {
        blocks: unsought(alloc, block_count(p) as usize)?,
        regions: Vec::new(alloc),
    })
}

/// Adds a region, if there is one, and gives what is known of its block.
fn add_region(
    alloc: Global,
    p: &Program,
    regions: &mut Vec<FoundRegion>,
    region: Option<Region>,
) -> Result<Sought, AllocError>
    requires { WithinProgram p.now region }
    ensures { IfOk result (λ s. AddsRegion p.now region regions.old.items s regions.new.items) }
{
    let Some(region) = region else {
        return Ok(Sought::Nothing);
    };
    let number = regions.len();
    if number > u32::MAX as usize {
        return Err(AllocError);
    }
    regions.push(kept(alloc, p, region)?)?;
    Ok(Sought::At(number as u32))
}

/// Whether the region of a block's branch was sought.
fn was_sought(known: Sought) -> bool
    ensures { result ≡ was_sought (Some known) }
{
    match known {
        Sought::Unsought => false,
        _ => true,
    }
}

/// Adds a region that was found, if there is one, and gives what is known of its block.
fn added(
    alloc: Global,
    p: &Program,
    known: &mut Regions,
    region: Option<Region>,
) -> Result<Sought, AllocError>
    requires { WithinProgram p.now region }
    ensures blocks { known.new.blocks.items ≡ known.old.blocks.items }
    ensures known { IfOk result (λ s. (gated : ℕ → Bool) (sums : ℕ → Option RootedList) (c : ℕ) → AreFound p.now gated sums known.old.blocks.items known.old.regions.items
        → RegionOf p.now gated sums c region → IsNowKnown p.now gated sums known.old.blocks.items known.new.regions.items c s) }
{
    let sought = add_region(alloc, p, &mut known.regions, region)?;
    Ok(sought)
}

/// Seeks the region of a branch by itself, and gives what is known of its block.
fn seek_own(
    alloc: Global,
    p: &Program,
    finder: &Finder,
    sums: &[Option<Summary>],
    known: &mut Regions,
    branch: InstrId,
) -> Result<Sought, AllocError>
    requires finder { IsFinder p.now (summary_of sums.now) finder.now }
    requires branch { branch.0 < length p.now.instrs }
    requires found { AreFound p.now (in_table finder.now.gated) (summary_of sums.now) known.old.blocks.items known.old.regions.items }
    ensures blocks { known.new.blocks.items ≡ known.old.blocks.items }
    ensures known { IfOk result (IsNowKnown p.now (in_table finder.now.gated) (summary_of sums.now) known.old.blocks.items known.new.regions.items (block_of p.now branch.0)) }
{
    let region = finder.region(alloc, p, sums, branch)?;
    let sought = added(alloc, p, known, region)?;
    Ok(sought)
}

/// What is known of a block.
fn sought_at(blocks: &[Sought], block: u32) -> Sought
    requires { block < length blocks.now }
    ensures { slice_get blocks.now block ≡ Some result }
{
    blocks[block as usize]
}

/// What is known of the block of a branch that has the region of another block's: that was sought before, or is sought now.
fn known_like(
    alloc: Global,
    p: &Program,
    finder: &Finder,
    sums: &[Option<Summary>],
    known: &mut Regions,
    branch: InstrId,
    other: u32,
) -> Result<Sought, AllocError>
    requires finder { IsFinder p.now (summary_of sums.now) finder.now }
    requires branch { branch.0 < length p.now.instrs }
    requires found { AreFound p.now (in_table finder.now.gated) (summary_of sums.now) known.old.blocks.items known.old.regions.items }
    requires other { other < length p.now.blocks }
    requires like { HasRegionOf p.now (in_table finder.now.gated) (summary_of sums.now) other (block_of p.now branch.0) }
    ensures blocks { known.new.blocks.items ≡ known.old.blocks.items }
    ensures known { IfOk result (IsNowKnown p.now (in_table finder.now.gated) (summary_of sums.now) known.old.blocks.items known.new.regions.items (block_of p.now branch.0)) }
{
    let sought = sought_at(known.blocks.as_slice(), other);
    let is_known = was_sought(sought);
    if is_known {
        return Ok(sought);
    }
    seek_own(alloc, p, finder, sums, known, branch)
}

/// What is known of a branch's block by what was found of the branch.
fn known_as(
    alloc: Global,
    p: &Program,
    finder: &Finder,
    sums: &[Option<Summary>],
    known: &mut Regions,
    branch: InstrId,
    found: Found,
) -> Result<Sought, AllocError>
    requires finder { IsFinder p.now (summary_of sums.now) finder.now }
    requires branch { branch.0 < length p.now.instrs }
    requires before { AreFound p.now (in_table finder.now.gated) (summary_of sums.now) known.old.blocks.items known.old.regions.items }
    requires found { IsFound p.now (in_table finder.now.gated) (summary_of sums.now) (block_of p.now branch.0) found }
    ensures blocks { known.new.blocks.items ≡ known.old.blocks.items }
    ensures known { IfOk result (IsNowKnown p.now (in_table finder.now.gated) (summary_of sums.now) known.old.blocks.items known.new.regions.items (block_of p.now branch.0)) }
{
    match found {
        Found::Of(region) => added(alloc, p, known, region),
        Found::Like(other) => known_like(alloc, p, finder, sums, known, branch, other),
    }
}

/// Seeks the region of a branch, unless it was sought before.
fn seek(
    alloc: Global,
    p: &Program,
    finder: &Finder,
    sums: &[Option<Summary>],
    known: &mut Regions,
    alike: &mut Alike,
    branch: InstrId,
) -> Result<(), AllocError>
    requires finder { IsFinder p.now (summary_of sums.now) finder.now }
    requires branch { branch.0 < length p.now.instrs }
    requires found { AreFound p.now (in_table finder.now.gated) (summary_of sums.now) known.old.blocks.items known.old.regions.items }
    requires alike { AreKept finder.now alike.old }
    ensures found { OnOk result (AreFound p.now (in_table finder.now.gated) (summary_of sums.now) known.new.blocks.items known.new.regions.items) }
    ensures sought { OnOk result (was_sought (slice_get known.new.blocks.items (block_of p.now branch.0)) ≡ true) }
    ensures kept { OnOk result ((c : ℕ) → was_sought (slice_get known.old.blocks.items c) ≡ true → was_sought (slice_get known.new.blocks.items c) ≡ true) }
    ensures alike { OnOk result (AreKept finder.now alike.new) }
{
    let block = p.instr(branch).block.0 as usize;
    if was_sought(known.blocks[block]) {
        return Ok(());
    }
    let found = finder.find(alloc, p, sums, alike, branch)?;
    let sought = known_as(alloc, p, finder, sums, known, branch, found)?;
    known.blocks[block] = sought;
    Ok(())
}

/// Whether a step is at a conditional branch or a `switch`.
fn is_branch(kind: &StepKind) -> bool
    ensures { result ≡ is_branch kind.now }
{
    match kind {
        StepKind::Branch { .. } => true,
        _ => false,
    }
}

/// Seeks the region of a step's branch, if it is at one.
fn seek_step(
    alloc: Global,
    p: &Program,
    finder: &Finder,
    sums: &[Option<Summary>],
    known: &mut Regions,
    alike: &mut Alike,
    step: &Step,
) -> Result<(), AllocError>
    requires finder { IsFinder p.now (summary_of sums.now) finder.now }
    requires found { AreFound p.now (in_table finder.now.gated) (summary_of sums.now) known.old.blocks.items known.old.regions.items }
    requires alike { AreKept finder.now alike.old }
    ensures found { OnOk result (AreFound p.now (in_table finder.now.gated) (summary_of sums.now) known.new.blocks.items known.new.regions.items) }
    ensures sought { OnOk result (WasSought p.now known.new.blocks.items step.now) }
    ensures kept { OnOk result ((c : ℕ) → was_sought (slice_get known.old.blocks.items c) ≡ true → was_sought (slice_get known.new.blocks.items c) ≡ true) }
    ensures alike { OnOk result (AreKept finder.now alike.new) }
{
    if !is_branch(&step.kind) {
        return Ok(());
    }
    if step.instr.0 >= p.instr_count() {
        return Ok(());
    }
    seek(alloc, p, finder, sums, known, alike, step.instr)
}

/// Seeks the region of each branch step of a trace.
fn seek_each(
    alloc: Global,
    p: &Program,
    finder: &Finder,
    sums: &[Option<Summary>],
    t: &Trace,
) -> Result<Regions, AllocError>
    requires { IsFinder p.now (summary_of sums.now) finder.now }
    ensures found { IfOk result (λ r. AreFound p.now (in_table finder.now.gated) (summary_of sums.now) r.blocks.items r.regions.items) }
    ensures sought { IfOk result (λ r. (n : ℕ) (x : Step) → slice_get t.now.steps n ≡ Some x → WasSought p.now r.blocks.items x) }
{
    let mut known = none_known(alloc, p)?;
    let mut alike = Alike::none(alloc);
    for i in 0..t.len() {
        let step = t.step(i);
        seek_step(alloc, p, finder, sums, &mut known, &mut alike, &step)?;
    }
    Ok(known)
}

/// The regions of the branch steps of a trace. `sums` has the summary of each function that is quiet.
pub(crate) fn regions_of(
    alloc: Global,
    p: &Program,
    gated: &[InstrId],
    sums: &[Option<Summary>],
    t: &Trace,
) -> Result<Regions, AllocError>
    requires { All (λ (g : InstrId). g.0 < length p.now.instrs) gated.now }
    ensures found { IfOk result (λ r. AreFound p.now (is_gated gated.now) (summary_of sums.now) r.blocks.items r.regions.items) }
    ensures sought { IfOk result (λ r. (n : ℕ) (x : Step) → slice_get t.now.steps n ≡ Some x → WasSought p.now r.blocks.items x) }
{
    let finder = Finder::new(alloc, p, gated, sums)?;
    seek_each(alloc, p, &finder, sums, t)
}
