//! Those that wait on conditions.

ghost use Rattle.std.specs.Prelude.{◌≡◌, ◌<◌, ◌≤◌, ◌++◌, ◌∷◌, [], vec_len, vec_capacity, find, position};
ghost use Rattle.pg_run_objects.specs.Sync.{has_waiters, waits_on, without_first};

use crate::status::Waiter;

pub(crate) fn any_waits(waiters: &[Waiter], condition: u32) -> bool
    ensures { result ≡ has_waiters condition waiters.now }
{
    waiters.iter().any(|w| w.condition == condition)
}

/// The index of the one that has waited longest on a condition.
fn first_index(waiters: &[Waiter], condition: u32) -> Option<usize>
    ensures { result ≡ position (waits_on condition) waiters.now }
{
    waiters.iter().position(|w| w.condition == condition)
}

/// Takes the one that has waited longest on a condition.
#[tactic(auto, using(crate::proofs::Waits::first_is, crate::proofs::Waits::none_is, crate::proofs::Waits::rest_of_none, crate::proofs::Waits::rest_is))]
pub(crate) fn take_first(waiters: &mut Vec<Waiter>, condition: u32) -> Option<Waiter>
    ensures value { result ≡ find (waits_on condition) waiters.old.items }
    ensures rest { waiters.new.items ≡ without_first condition waiters.old.items }
    ensures room { vec_capacity waiters.old ≤ vec_capacity waiters.new }
{
    match first_index(waiters.as_slice(), condition) {
        Some(index) => Some(waiters.remove(index)),
        None => None,
    }
}

/// Pushes where there is room.
pub(crate) fn push_waiter(waiters: &mut Vec<Waiter>, waiter: Waiter)
    requires { vec_len waiters.old < vec_capacity waiters.old }
    ensures items { waiters.new.items ≡ waiters.old.items ++ waiter ∷ [] }
    ensures room { vec_capacity waiters.old ≤ vec_capacity waiters.new }
{
    if let Err(_) = waiters.push(waiter) {
        unreachable!();
    }
}
