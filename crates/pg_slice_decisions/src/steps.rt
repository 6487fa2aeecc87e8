//! The decisions that are taken, as sets of steps.

use crate::marks::{contains, members, none, of, put};
use pg_slice_rules::{Decision, Decisions};
use std::alloc::{AllocError, Global};

/// Which decisions are taken of a run, of all on its steps.
#[derive(Debug, Drop)]
pub struct DecisionSet {
    pinned: Vec<bool>,
    exact: Vec<bool>,
}

impl DecisionSet {
    ghost use Rattle.std.specs.Prelude.{◌≡◌, ◌<◌, ◌≤◌, ◌⊎◌, ℕ, length, true, false, Contains, IfOk};
    ghost use Rattle.std.specs.List.{AllByRecursion};
    ghost use Rattle.pg_slice_rules.specs.declared.decision.Decision.{Decision as ADecision};
    ghost use Rattle.pg_slice_rules.specs.Known.{has};
    ghost use Rattle.pg_slice_rules.specs.Sets.{taken};
    ghost use Rattle.pg_slice_decisions.specs.Marks.{members_from};
    ghost use Rattle.pg_slice_decisions.specs.Steps.{AreOf, left_by, step_of, taken_by};

    /// None of those on so many steps.
    pub fn none(alloc: Global, steps: usize) -> Result<DecisionSet, AllocError>
        ensures size { IfOk result (AreOf steps) }
        ensures none { IfOk result (λ s. (x : ADecision) → has (taken_by s) x ≡ false) }
    {
        Ok(DecisionSet {
            pinned: none(alloc, steps)?,
            exact: none(alloc, steps)?,
        })
    }

    /// These, of those on so many steps.
    pub fn of(alloc: Global, steps: usize, d: &Decisions) -> Result<DecisionSet, AllocError>
        requires pinned { AllByRecursion (λ n. n < steps) d.now.pinned.items }
        requires exact { AllByRecursion (λ n. n < steps) d.now.exact.items }
        ensures size { IfOk result (AreOf steps) }
        ensures same { IfOk result (λ s. (x : ADecision) → has (taken_by s) x ≡ has (taken d.now.pinned.items d.now.exact.items) x) }
    {
        Ok(DecisionSet {
            pinned: of(alloc, steps, d.pinned.as_slice())?,
            exact: of(alloc, steps, d.exact.as_slice())?,
        })
    }

    /// Whether a step is pinned.
    pub fn is_pinned(&self, n: usize) -> bool
        ensures { result ≡ (taken_by self.now).pinned n }
    {
        contains(self.pinned.as_slice(), n)
    }

    /// Whether a step is exact.
    pub fn is_exact(&self, n: usize) -> bool
        ensures { result ≡ (taken_by self.now).exact n }
    {
        contains(self.exact.as_slice(), n)
    }

    /// Whether a decision is taken.
    pub fn has(&self, x: Decision) -> bool
        ensures { result ≡ has (taken_by self.now) x }
    {
        match x {
            Decision::Pinned(n) => self.is_pinned(n),
            Decision::Exact(n) => self.is_exact(n),
        }
    }

    /// Takes a decision.
    pub fn take(&mut self, x: Decision)
        requires { (n : ℕ) × AreOf n self.old × (step_of x < n) }
        ensures size { (n : ℕ) → AreOf n self.old → AreOf n self.new }
        ensures taken { has (taken_by self.new) x ≡ true }
        ensures kept { (y : ADecision) → has (taken_by self.old) y ≡ true → has (taken_by self.new) y ≡ true }
        ensures only { (y : ADecision) → has (taken_by self.new) y ≡ true → (has (taken_by self.old) y ≡ true) ⊎ (x ≡ y) }
        ensures left { left_by self.new ≤ left_by self.old }
        ensures less { has (taken_by self.old) x ≡ false → left_by self.new < left_by self.old }
    {
        if self.has(x) {
            return;
        }
        match x {
            Decision::Pinned(n) => put(&mut self.pinned, n),
            Decision::Exact(n) => put(&mut self.exact, n),
        }
    }

    /// The decisions that are taken, each list ascending and without doubles.
    pub fn decisions(&self, alloc: Global) -> Result<Decisions, AllocError>
        ensures same { IfOk result (λ d. (x : ADecision) → has (taken d.pinned.items d.exact.items) x ≡ has (taken_by self.now) x) }
        ensures lists { IfOk result (λ d. (d.pinned.items ≡ members_from 0 self.now.pinned.items) × (d.exact.items ≡ members_from 0 self.now.exact.items)) }
    {
        Ok(Decisions {
            pinned: members(alloc, self.pinned.as_slice())?,
            exact: members(alloc, self.exact.as_slice())?,
        })
    }
}
