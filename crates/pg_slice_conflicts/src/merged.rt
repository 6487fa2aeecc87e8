//! Footprints of which most repetitions are left out. In a run the same bytes are accessed many times between two turns, and
//! footprints that are equal have the same answers.

ghost use Rattle.std.specs.Prelude.{◌≡◌, ◌<◌, ◌∷◌, ◌++◌, ◌↔◌, [], All, IfOk, IsTrue, Some, length, nat_lt, slice_get, if◌then◌else◌};
ghost use Rattle.pg_slice_conflicts.specs.Merged.{IsMerged, StandAt};

use crate::footprint::{Footprint, footprint_at};
use std::alloc::{AllocError, Global};

/// Some footprints of a list in their order, and of each footprint of the list the number of one of them that is equal to it.
#[derive(Drop)]
pub(crate) struct Merged {
    pub kept: Vec<Footprint>,
    pub numbers: Vec<usize>,
}

/// A number made of another one and of one more word. Numbers that are made of different words mostly differ.
fn mixed(number: u64, word: u64) -> u64 {
    (number ^ word)
        .wrapping_mul(0x9E37_79B9_7F4A_7C15)
        .rotate_left(31)
}

/// One of so many slots, by all that the footprint says.
fn slot_of(footprint: &Footprint, count: usize) -> usize
    requires { 0 < count }
    ensures { result < count }
{
    let flags = 2 * u64::from(footprint.writes) + u64::from(footprint.of_region);
    let mut number = mixed(footprint.start, footprint.bytes);
    number = mixed(number, u64::from(footprint.low));
    number = mixed(number, u64::from(footprint.high));
    number = mixed(number, 4 * u64::from(footprint.thread.0) + flags);
    (number % count as u64) as usize
}

/// Whether the two are the same.
fn same(x: &Footprint, y: &Footprint) -> bool
    ensures { IsTrue result ↔ x.now ≡ y.now }
{
    *x == *y
}

/// Whether the kept footprint with this number is this one.
fn is_kept(kept: &[Footprint], number: usize, footprint: &Footprint) -> bool
    ensures { IsTrue result ↔ slice_get kept.now number ≡ Some footprint.now }
{
    number < kept.len() && same(&footprint_at(kept, number), footprint)
}

/// The number of a kept footprint that is equal to this one: the guess where it is right, else that of this footprint, which is
/// then kept as the last.
fn number_of(
    kept: &mut Vec<Footprint>,
    guess: usize,
    footprint: Footprint,
) -> Result<usize, AllocError>
    ensures number { IfOk result (λ k. slice_get kept.new.items k ≡ Some footprint) }
    ensures kept { IfOk result (λ k. kept.new.items ≡ (if nat_lt k (length kept.old.items) then kept.old.items else (kept.old.items ++ footprint ∷ []))) }
    ensures guess { slice_get kept.old.items guess ≡ Some footprint → IfOk result (λ k. k ≡ guess) }
{
    if is_kept(kept.as_slice(), guess, &footprint) {
        return Ok(guess);
    }
    let number = kept.len();
    kept.push(footprint)?;
    Ok(number)
}

/// The footprints merged, by slots each of which has the number of the footprint that it was last taken for. A footprint is kept again
/// where another one took its slot in between; so the time is linear whatever the footprints are.
fn merge_by(
    alloc: Global,
    slots: &mut [usize],
    footprints: &[Footprint],
) -> Result<Merged, AllocError>
    requires { 0 < length slots.old }
    ensures { IfOk result (λ m. IsMerged footprints.now m.kept.items m.numbers.items) }
{
    let mut kept = Vec::new(alloc);
    let mut numbers = Vec::with_capacity(alloc, footprints.len())?;
    for i in 0..footprints.len() {
        let footprint = footprint_at(footprints, i);
        let slot = slot_of(&footprint, slots.len());
        let number = number_of(&mut kept, slots[slot], footprint)?;
        slots[slot] = number;
        numbers.push(number)?;
    }
    Ok(Merged { kept, numbers })
}

/// The footprints merged.
pub(crate) fn merge(alloc: Global, footprints: &[Footprint]) -> Result<Merged, AllocError>
    ensures { IfOk result (λ m. IsMerged footprints.now m.kept.items m.numbers.items) }
{
    let count = 2 * footprints.len() + 1;
    let mut slots = vec![in alloc; 0; count]?;
    merge_by(alloc, slots.as_mut_slice(), footprints)
}

/// The answer with this number.
fn answer_at(answers: &[bool], number: usize) -> bool
    requires { number < length answers.now }
    ensures { slice_get answers.now number ≡ Some result }
{
    answers[number]
}

/// The answers with these numbers.
pub(crate) fn answers_at(
    alloc: Global,
    answers: &[bool],
    numbers: &[usize],
) -> Result<Vec<bool>, AllocError>
    requires { All (λ k. k < length answers.now) numbers.now }
    ensures { IfOk result (λ v. StandAt answers.now numbers.now v.items) }
{
    let mut spread = Vec::with_capacity(alloc, numbers.len())?;
    for number in numbers {
        spread.push(answer_at(answers, *number))?;
    }
    Ok(spread)
}
