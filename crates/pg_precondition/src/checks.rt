//! Whether the checks of a precondition hold on an input.

ghost use Rattle.std.specs.Prelude.{◌≡◌, ◌≤◌, ◌<◌, ◌^◌, ℕ, length, slice_get, IfSome};
ghost use Rattle.std.specs.List.{list_all};
ghost use Rattle.pg_precondition.specs.Scratches.{AreFirst};
ghost use Rattle.pg_precondition.specs.Values.{holds, is_admitted, is_met, meets, numbers_of};

use crate::check::{Check, Test};
use crate::nodes::Nodes;
use crate::precondition::Precondition;
use crate::scratch::Scratch;
use pg_num::unpack;

/// Whether a number meets a test.
fn meets(test: Test, n: u64) -> bool
    ensures { result ≡ meets test n }
{
    match test {
        Test::Eq(m) => n == m,
        Test::Ne(m) => n != m,
        Test::Bounds(start, length) => {
            let pointer = unpack(n);
            pointer.start == start && pointer.length == length
        }
    }
}

/// Whether a node's number meets a test, where it has one.
fn holds(check: &Check, numbers: &[Option<u64>]) -> bool
    requires { check.now.node < length numbers.now }
    ensures { result ≡ holds numbers.now check.now }
{
    match numbers[check.node as usize] {
        Some(n) => meets(check.test, n),
        None => false,
    }
}

#[tactic(auto, using(crate::proofs::NodeNumbers::known_holds))]
/// Whether a check holds of the number that its node has on the input. Computes the numbers up to that node where they
/// aren't known yet. Takes no memory.
fn holds_on(check: &Check, nodes: &Nodes, scratch: &mut Scratch, input: &[i64]) -> bool
    requires below { check.now.node < length nodes.now }
    requires room { length nodes.now ≤ scratch.old.room }
    requires first { AreFirst input.now nodes.now scratch.old.numbers }
    ensures holds { result ≡ holds (numbers_of input.now nodes.now) check.now }
    ensures first { AreFirst input.now nodes.now scratch.new.numbers }
    ensures room { scratch.new.room ≡ scratch.old.room }
{
    scratch.fill_to(nodes, check.node, input);
    holds(check, scratch.numbers())
}

/// Whether all checks hold: in order, up to the first that doesn't. Takes no memory.
fn all_hold(checks: &[Check], nodes: &Nodes, scratch: &mut Scratch, input: &[i64]) -> bool
    requires below { (i : ℕ) → IfSome (slice_get checks.now i) (λ c. c.node < length nodes.now) }
    requires room { length nodes.now ≤ scratch.old.room }
    requires first { AreFirst input.now nodes.now scratch.old.numbers }
    ensures holds { result ≡ list_all (holds (numbers_of input.now nodes.now)) checks.now }
    ensures room { scratch.new.room ≡ scratch.old.room }
{
    for check in checks {
        if !holds_on(check, nodes, scratch, input) {
            return false;
        }
    }
    true
}

#[tactic(auto, using(crate::proofs::NodeNumbers::none_known))]
/// Whether an input meets a precondition: all checks hold of the numbers that the nodes have on it. The numbers are
/// computed as far as the next check needs them, up to the first check that doesn't hold. The scratch is one with room
/// for the precondition's nodes. Takes no memory.
pub fn admits(c: &Precondition, scratch: &mut Scratch, input: &[i64]) -> bool
    requires { length c.now.nodes ≤ scratch.old.room }
    ensures admits { result ≡ is_admitted input.now c.now }
    ensures room { scratch.new.room ≡ scratch.old.room }
{
    scratch.clear();
    all_hold(c.checks(), c.nodes(), scratch, input)
}
