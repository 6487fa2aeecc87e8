//! Whether a step is freeable.

ghost use Rattle.std.specs.Prelude.{◌≡◌, ◌<◌, List, length, IfOk, slice_get};
ghost use Rattle.std.specs.Option.{option_copied};
ghost use Rattle.pg_slice_replay.specs.Apart.{AddsApart, TriesApart};
ghost use Rattle.pg_slice_replay.specs.declared.at.At.{At};
ghost use Rattle.pg_slice_replay.specs.Sought.{IsFreed, freed, freed_in, number_by};

use crate::apart::store_on_loads;
use crate::at::{At, cut, from};
use crate::follow::follow_each;
use crate::found::{FoundRegion, Regions, Sought};
use crate::given::TracedRun;
use crate::row::FreeStep;
use crate::share::{again, begun, keep};
use pg_ir::{Program, ThreadNo};
use pg_law_effects::pg_run::Machine;
use pg_region_accesses::Rooted;
use pg_run_trace::{Step, StepKind};
use std::alloc::AllocError;

/// Adds where the paths of a region's accesses lead, and gives whether each can be followed and no store's bounds share a
/// byte with one from which a path loads.
fn try_apart(
    machine: &Machine,
    p: &Program,
    t: ThreadNo,
    accesses: &[Rooted],
    ats: &mut Vec<At>,
    first: usize,
) -> Result<bool, AllocError>
    requires { first ≡ length ats.old.items }
    ensures { IfOk result (λ b. TriesApart p.now machine.now.state t.0 accesses.now ats.old.items b ats.new.items) }
{
    let followed = follow_each(machine, p, t, accesses, ats)?;
    if !followed {
        return Ok(false);
    }
    let added = from(ats.as_slice(), first);
    let stored = store_on_loads(accesses, added);
    Ok(!stored)
}

/// Adds where the paths of a region's accesses lead, if each can be followed and no store's bounds share a byte with one
/// from which a path loads; else adds nothing.
fn follow_apart(
    machine: &Machine,
    p: &Program,
    t: ThreadNo,
    accesses: &[Rooted],
    ats: &mut Vec<At>,
) -> Result<bool, AllocError>
    ensures { IfOk result (λ b. AddsApart p.now machine.now.state t.0 accesses.now ats.old.items b ats.new.items) }
{
    let first = ats.len();
    let apart = try_apart(machine, p, t, accesses, ats, first)?;
    if apart {
        return Ok(true);
    }
    cut(ats, first);
    Ok(false)
}

/// The region with this number, if there is one.
fn region_at(regions: &[FoundRegion], number: u32) -> Option<&FoundRegion>
    ensures { option_copied result ≡ slice_get regions.now number }
{
    regions.get(number as usize)
}

/// The number of a block's region, if it has one.
fn region_number(regions: &Regions, block: u32) -> Option<u32>
    ensures { result ≡ number_by (slice_get regions.now.blocks.items block) }
{
    match regions.blocks.get(block as usize) {
        Some(Sought::At(k)) => Some(*k),
        _ => None,
    }
}

/// Adds where the accesses of a region lead, unless they lead where they did last, if it makes a step of a thread freeable; else adds nothing.
fn free_by(
    machine: &Machine,
    p: &Program,
    t: ThreadNo,
    regions: &[FoundRegion],
    number: u32,
    ats: &mut Vec<At>,
    last: &mut [Option<u32>],
) -> Result<Option<FreeStep>, AllocError>
    ensures { IfOk result (λ f. (xs : List At) × IsFreed (freed p.now machine.now.state t.0 (slice_get regions.now number)) regions.now ats.old.items ats.new.items xs f) }
{
    let first = ats.len();
    if first > u32::MAX as usize {
        return Err(AllocError);
    }
    match region_at(regions, number) {
        None => Ok(None),
        Some(region) => {
            let accesses = region.accesses.as_slice();
            let before = again(machine, p, t, accesses, ats.as_slice(), begun(last, number));
            if let Some(first) = before {
                return Ok(Some(FreeStep {
                    region: number,
                    first,
                }));
            }
            let apart = follow_apart(machine, p, t, accesses, ats)?;
            if !apart {
                return Ok(None);
            }
            let first = first as u32;
            keep(last, number, first);
            Ok(Some(FreeStep {
                region: number,
                first,
            }))
        }
    }
}

/// What makes a step freeable, if it is, by the state before it; adds where the accesses of its region lead.
pub(crate) fn free_step(
    machine: &Machine,
    run: &TracedRun,
    step: &Step,
    ats: &mut Vec<At>,
    last: &mut [Option<u32>],
) -> Result<Option<FreeStep>, AllocError>
    requires { step.now.instr.0 < length run.now.program.now.instrs }
    ensures { IfOk result (λ f. (xs : List At)
        × IsFreed (freed_in run.now.program.now run.now.regions.now.blocks.items run.now.regions.now.regions.items machine.now.state step.now)
        run.now.regions.now.regions.items ats.old.items ats.new.items xs f) }
{
    let StepKind::Branch { .. } = step.kind else {
        return Ok(None);
    };
    match region_number(run.regions, run.program.instr(step.instr).block.0) {
        Some(number) => free_by(
            machine,
            run.program,
            step.thread,
            run.regions.regions.as_slice(),
            number,
            ats,
            last,
        ),
        None => Ok(None),
    }
}
