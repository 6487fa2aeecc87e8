//! Preconditions: nodes and their checks.

use crate::check::Check;
use crate::nodes::Nodes;
use std::alloc::{AllocError, Global};
use std::marker::Model;

/// Numbers that are computed of an input, and what they must be.
#[derive(Debug, Drop)]
pub struct Precondition {
    nodes: Nodes,
    checks: Vec<Check>,
}

impl Model for Precondition {
    ghost use Rattle.pg_precondition.specs.Nodes.{Conditions, AreChecks};

    ghost Value = { Conditions };

    ghost view = { λ c. record { nodes = c.nodes; checks = c.checks.items } };

    ghost invariant = { λ c. AreChecks c.nodes c.checks.items };
}

impl Precondition {
    ghost use Rattle.std.specs.Prelude.{ℕ, ◌≡◌, ◌<◌, ◌++◌, ◌∷◌, [], length, slice_get, Some, IfOk, IfErr, IfSome};

    /// These nodes, without a check.
    pub fn new(alloc: Global, nodes: Nodes) -> Precondition
        ensures { result ≡ record { nodes = nodes; checks = [] } }
    {
        Precondition {
            nodes,
            checks: Vec::new(alloc),
        }
    }

    /// Adds a check at the end.
    ///
    /// # Errors
    ///
    /// Where no memory is left for it. The checks are then as before.
    pub fn push(&mut self, check: Check) -> Result<(), AllocError>
        requires { check.node < length self.old.nodes }
        ensures added { IfOk result (λ u. self.new ≡ record self.old { checks = self.old.checks ++ check ∷ [] }) }
        ensures same { IfErr result (λ e. self.new ≡ self.old) }
    {
        self.checks.push(check)?;
        Ok(())
    }

    /// The nodes.
    pub fn nodes(&self) -> &Nodes
        ensures { result.now ≡ self.now.nodes }
    {
        &self.nodes
    }

    /// The checks, in order.
    pub fn checks(&self) -> &[Check]
        ensures checks { result.now ≡ self.now.checks }
        ensures names { (i : ℕ) → IfSome (slice_get result.now i) (λ c. c.node < length self.now.nodes) }
    {
        self.checks.as_slice()
    }
}
