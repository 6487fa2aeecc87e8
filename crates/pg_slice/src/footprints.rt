//! Whether the bytes that steps may access meet.
ghost use Rattle.std.specs.Prelude.{◌≡◌, ◌<◌, ◌+◌, ◌++◌, true, IfSome};
ghost use Rattle.std.specs.List.{list_any};
ghost use Rattle.pg_slice_rules.specs.Rules.{any_conflict, footprints_conflict, footprint_of, footprints_in};
ghost use Rattle.pg_slice_walk.specs.pg_slice_replay.Kept.{landmark_at, step_count};
ghost use Rattle.pg_run_trace.specs.Steps.{access_of};
ghost use Rattle.pg_slice.specs.Footprints.{pointer_footprint};

use pg_run_trace::Step;
use pg_slice_walk::pg_slice_passes::bounds;
use pg_slice_walk::pg_slice_replay::ReferenceRun;

/// The bounds of a pointer, and whether it may be written.
#[derive(Clone, Copy)]
pub struct PointerFootprint {
    pub word: u64,
    pub writes: bool,
}

/// Whether bounds meet, and one of them may be written.
fn meet(a: PointerFootprint, b: PointerFootprint) -> bool
    ensures { result ≡ footprints_conflict (pointer_footprint a) (pointer_footprint b) }
{
    let one = bounds(a.word);
    let other = bounds(b.word);
    let start = one.start.max(other.start);
    (a.writes || b.writes) && (start < one.start + one.bytes && start < other.start + other.bytes)
}

/// Whether bounds meet those of a step's access, if it has one.
fn meets_access(a: PointerFootprint, step: &Step) -> bool
    ensures { result ≡ list_any (footprints_conflict (pointer_footprint a)) (footprint_of (access_of step.now)) }
{
    match step.access() {
        Some(access) => meet(
            a,
            PointerFootprint {
                word: access.pointer,
                writes: access.writes,
            },
        ),
        None => false,
    }
}

/// Whether bounds meet those of the access with this number of a freeable step's region, if there is one.
fn meets_one(a: PointerFootprint, reference: &ReferenceRun, other: usize, k: usize) -> bool
    ensures { IfSome (landmark_at reference.now other) (λ l. IfSome l.region (λ f. result ≡ true
        → list_any (footprints_conflict (pointer_footprint a)) (footprints_in l.region) ≡ true)) }
{
    match reference.access(other, k) {
        Some(access) => meet(
            a,
            PointerFootprint {
                word: access.last,
                writes: access.writes,
            },
        ),
        None => false,
    }
}

/// Whether bounds meet some of a freeable step's region.
fn meets_region(a: PointerFootprint, reference: &ReferenceRun, other: usize) -> bool
    requires { other < step_count reference.now }
    ensures { IfSome (landmark_at reference.now other) (λ l. result ≡ true → list_any (footprints_conflict (pointer_footprint a)) (footprints_in l.region) ≡ true) }
{
    if !reference.is_free(other) {
        return false;
    }
    for k in 0..reference.access_count(other) {
        if meets_one(a, reference, other, k) {
            return true;
        }
    }
    false
}

/// Whether bounds meet some of a live step.
fn meets_step(a: PointerFootprint, reference: &ReferenceRun, step: &Step, other: usize) -> bool
    requires { other < step_count reference.now }
    ensures { IfSome (landmark_at reference.now other) (λ l. result ≡ true
        → list_any (footprints_conflict (pointer_footprint a)) (footprint_of (access_of step.now) ++ footprints_in l.region) ≡ true) }
{
    meets_access(a, step) || meets_region(a, reference, other)
}

/// Whether the bounds of the access with this number of a freeable step's region, if there is one, meet some of a live step.
fn one_meets(reference: &ReferenceRun, number: usize, k: usize, step: &Step, other: usize) -> bool
    requires { other < step_count reference.now }
    ensures { IfSome (landmark_at reference.now number) (λ l. IfSome l.region
        (λ f. IfSome (landmark_at reference.now other) (λ q. result ≡ true
        → any_conflict (footprints_in l.region) (footprint_of (access_of step.now) ++ footprints_in q.region) ≡ true))) }
{
    match reference.access(number, k) {
        Some(access) => meets_step(
            PointerFootprint {
                word: access.last,
                writes: access.writes,
            },
            reference,
            step,
            other,
        ),
        None => false,
    }
}

/// Whether bounds of a freeable step's region meet some of a live step.
pub(crate) fn region_meets(
    reference: &ReferenceRun,
    number: usize,
    step: &Step,
    other: usize,
) -> bool
    requires number { number < step_count reference.now }
    requires other { other < step_count reference.now }
    ensures { IfSome (landmark_at reference.now number) (λ l. IfSome (landmark_at reference.now other) (λ q. result ≡ true →
        any_conflict (footprints_in l.region) (footprint_of (access_of step.now) ++ footprints_in q.region) ≡ true)) }
{
    if !reference.is_free(number) {
        return false;
    }
    for k in 0..reference.access_count(number) {
        if one_meets(reference, number, k, step, other) {
            return true;
        }
    }
    false
}

/// Whether the bounds of two steps' accesses meet, if they have some.
pub(crate) fn accesses_meet(one: &Step, other: &Step) -> bool
    ensures { result ≡ any_conflict (footprint_of (access_of one.now)) (footprint_of (access_of other.now)) }
{
    match one.access() {
        Some(access) => meets_access(
            PointerFootprint {
                word: access.pointer,
                writes: access.writes,
            },
            other,
        ),
        None => false,
    }
}
