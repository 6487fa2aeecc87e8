//! Sets of numbers below a bound.

ghost use Rattle.std.specs.Prelude.{◌≡◌, ◌==◌, ◌||◌, ◌<◌, ◌+◌, ℕ, length, false, true, replicate, IfOk};
ghost use Rattle.pg_slice_rules.specs.Sets.{one_of};
ghost use Rattle.pg_slice_decisions.specs.Marks.{in_set, left_in, members_from};
ghost use Rattle.std.specs.List.{AllByRecursion};

use std::alloc::{AllocError, Global};

/// Whether a number is in the set.
pub(crate) fn contains(set: &[bool], n: usize) -> bool
    ensures { result ≡ in_set set.now n }
{
    match set.get(n) {
        Some(is_in) => *is_in,
        None => false,
    }
}

/// The set without numbers, of those below a bound.
pub(crate) fn none(alloc: Global, bound: usize) -> Result<Vec<bool>, AllocError>
    ensures { IfOk result (λ set. set.items ≡ replicate bound false) }
{
    vec![in alloc; false; bound]
}

#[tactic(auto, using(crate::proofs::NumberTables::put_left))]
/// Puts a number into the set.
pub(crate) fn put(set: &mut Vec<bool>, n: usize)
    requires { n < length set.old.items }
    ensures size { length set.new.items ≡ length set.old.items }
    ensures marks { (k : ℕ) → in_set set.new.items k ≡ (n == k || in_set set.old.items k) }
    ensures left { in_set set.old.items n ≡ false → left_in set.old.items ≡ left_in set.new.items + 1 }
{
    set[n] = true;
}

#[tactic(auto, using(crate::proofs::NumberTables::none_in, crate::proofs::NumberTables::or_moves, crate::proofs::NumberTables::or_none))]
/// The set of these numbers, of those below a bound.
pub(crate) fn of(alloc: Global, bound: usize, numbers: &[usize]) -> Result<Vec<bool>, AllocError>
    requires { AllByRecursion (λ n. n < bound) numbers.now }
    ensures size { IfOk result (λ set. length set.items ≡ bound) }
    ensures marks { IfOk result (λ set. (k : ℕ) → in_set set.items k ≡ one_of numbers.now k) }
{
    let mut set = none(alloc, bound)?;
    for n in numbers {
        put(&mut set, *n);
    }
    Ok(set)
}

#[tactic(auto, using(crate::proofs::NumberTables::same_members))]
/// The numbers of the set, ascending.
pub(crate) fn members(alloc: Global, set: &[bool]) -> Result<Vec<usize>, AllocError>
    ensures list { IfOk result (λ v. v.items ≡ members_from 0 set.now) }
    ensures same { IfOk result (λ v. (k : ℕ) → one_of v.items k ≡ in_set set.now k) }
{
    let mut members = Vec::new(alloc);
    for n in 0..set.len() {
        if set[n] {
            members.push(n)?;
        }
    }
    Ok(members)
}
