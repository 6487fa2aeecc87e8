//! What the region of a freeable step asks: of each of its accesses the root of the path, and the cells from which it loads.

ghost use Rattle.std.specs.Prelude.{◌≡◌, ◌<◌, ◌≤◌, OnOk, Some, length, nat_lt, slice_get, take};
ghost use Rattle.std.specs.List.{AllByRecursion};
ghost use Rattle.pg_slice_rules.specs.Freeable.{FreeRegion};
ghost use Rattle.pg_slice_rules.specs.Known.{SymbolicState, Seen};
ghost use Rattle.pg_slice_rules.specs.Moments.{thread_in};
ghost use Rattle.pg_law_least.specs.Keeps.{depth_of};
ghost use Rattle.pg_law_demands.specs.Cells.{IsMet};
ghost use Rattle.pg_law_demands.specs.Demands.{free_access_demands, region_demands, root_demands};
ghost use Rattle.pg_slice_passes.specs.pg_slice_replay.Given.{access_as};
ghost use Rattle.pg_slice_passes.specs.pg_slice_replay.Kept.{landmark_at};
ghost use Rattle.pg_slice_passes.specs.pg_slice_replay.Landmarks.{Landmark as ALandmark};
ghost use Rattle.pg_slice_back.specs.Cells.{AreCellsMet, IsCellMet};
ghost use Rattle.pg_slice_back.specs.Met.{AreMet};

use crate::access::put_bytes;
use pg_region_paths::Root;
use pg_slice_demands::{Call, Demanded};
use pg_slice_passes::pg_slice_replay::{FreeAccess, ReferenceRun, cell_start, offsets};
use std::alloc::AllocError;

/// The root of a path has to be known, whole or by its bounds alone.
fn put_root(demanded: &mut Demanded, at: Call, root: Root, whole: bool) -> Result<(), AllocError>
    ensures { OnOk result ((s : SymbolicState) (y : Seen) → thread_in y.moment ≡ at.thread.0 → depth_of y ≡ at.depth
        → AllByRecursion (IsMet s) (root_demands y root whole) → AreMet s demanded.old → AreMet s demanded.new) }
{
    match root {
        Root::Register(register) => {
            demanded.put_register(at, register, whole)?;
            Ok(())
        }
        _ => Ok(()),
    }
}

/// The word with this number, if there is one.
fn word_at(words: &[u64], i: usize) -> Option<u64>
    ensures { result ≡ slice_get words.now i }
{
    words.get(i).copied()
}

/// The eight bytes have to be known that a load reads, so many bytes from a pointer.
fn put_cell(demanded: &mut Demanded, word: u64, offset: u64) -> Result<(), AllocError>
    ensures { OnOk result ((s : SymbolicState) → IsCellMet s word offset → AreMet s demanded.old → AreMet s demanded.new) }
{
    put_bytes(demanded, cell_start(word, offset) as u64, 8)?;
    Ok(())
}

/// The cell has to be known from which the load with this number reads, if there is one.
fn put_load(
    demanded: &mut Demanded,
    pointers: &[u64],
    offsets: &[u64],
    i: usize,
) -> Result<(), AllocError>
    ensures { OnOk result ((s : SymbolicState) → AreCellsMet s pointers.now offsets.now → AreMet s demanded.old → AreMet s demanded.new) }
{
    match word_at(pointers, i) {
        Some(word) => match word_at(offsets, i) {
            Some(offset) => {
                put_cell(demanded, word, offset)?;
                Ok(())
            }
            None => Ok(()),
        },
        None => Ok(()),
    }
}

/// The cells have to be known from which loads read, at these offsets from pointers.
fn put_cells(demanded: &mut Demanded, pointers: &[u64], offsets: &[u64]) -> Result<(), AllocError>
    ensures { OnOk result ((s : SymbolicState) → AreCellsMet s pointers.now offsets.now → AreMet s demanded.old → AreMet s demanded.new) }
{
    for i in 0..offsets.len() {
        put_load(demanded, pointers, offsets, i)?;
    }
    Ok(())
}

/// So many of the first words.
fn first(words: &[u64], count: usize) -> &[u64]
    requires { count ≤ length words.now }
    ensures words { result.now ≡ take count words.now }
    ensures count { length result.now ≡ count }
{
    &words[..count]
}

/// Whether a path with so many loads loads.
fn has_loads(count: usize) -> bool
    ensures { result ≡ nat_lt 0 count }
{
    0 < count
}

/// The root of an access's path has to be known, by its bounds alone where the path doesn't load, and the cells from which it
/// loads.
fn put_access(demanded: &mut Demanded, at: Call, access: &FreeAccess) -> Result<(), AllocError>
    ensures { OnOk result ((s : SymbolicState) (y : Seen) → thread_in y.moment ≡ at.thread.0 → depth_of y ≡ at.depth
        → AllByRecursion (IsMet s) (free_access_demands y (access_as access.now))
        → AreMet s demanded.old → AreMet s demanded.new) }
{
    let (offsets, count) = offsets(access.path.loads);
    let pointers = first(&access.pointers, count);
    let at_offsets = first(&offsets, count);
    put_root(demanded, at, access.path.root, has_loads(count))?;
    put_cells(demanded, pointers, at_offsets)?;
    Ok(())
}

/// What the access with this number of a freeable step's region asks has to be known, if there is one.
fn put_one(
    demanded: &mut Demanded,
    reference: &ReferenceRun,
    at: Call,
    number: usize,
    k: usize,
) -> Result<(), AllocError>
    ensures { OnOk result ((l : ALandmark) (q : FreeRegion) (s : SymbolicState) (y : Seen)
        → landmark_at reference.now number ≡ Some l → l.region ≡ Some q → thread_in y.moment ≡ at.thread.0 → depth_of y ≡ at.depth
        → AllByRecursion (IsMet s) (region_demands y (Some q)) → AreMet s demanded.old → AreMet s demanded.new) }
{
    if let Some(access) = reference.access(number, k) {
        put_access(demanded, at, &access)?;
        return Ok(());
    }
    Ok(())
}

/// What the region of a step asks has to be known, if it is freeable.
pub(crate) fn put_region(
    demanded: &mut Demanded,
    reference: &ReferenceRun,
    at: Call,
    number: usize,
) -> Result<(), AllocError>
    ensures { OnOk result ((l : ALandmark) (s : SymbolicState) (y : Seen) → landmark_at reference.now number ≡ Some l → thread_in y.moment ≡ at.thread.0 → depth_of y ≡ at.depth
        → AllByRecursion (IsMet s) (region_demands y l.region) → AreMet s demanded.old → AreMet s demanded.new) }
{
    if !reference.is_free(number) {
        return Ok(());
    }
    for k in 0..reference.access_count(number) {
        put_one(demanded, reference, at, number, k)?;
    }
    Ok(())
}
