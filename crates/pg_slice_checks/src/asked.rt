//! What steps ask of values: missing decisions and checks.

use pg_ir::Case;
use pg_num::unpack;
use pg_precondition::{Check, Test};
use pg_slice_memory::pg_slice_rules::Decision;
use pg_slice_memory::pg_slice_values::SymbolicNode;
use std::alloc::{AllocError, Global};

/// What was asked of values: the decisions that are missing, in the order in which they were asked for, and the checks
/// of those values that are known.
#[derive(Debug, Drop)]
pub struct Asked {
    pub missing: Vec<Decision>,
    pub checks: Vec<Check>,
}

impl Asked {
    ghost use Rattle.std.specs.Prelude.{◌≡◌, ◌∷◌, ◌++◌, [], length, map, IfOk, OnOk};
    ghost use Rattle.pg_ir.specs.declared.edge.Case.{Case as ACase};
    ghost use Rattle.pg_precondition.specs.Nodes.{NodeList};
    ghost use Rattle.pg_precondition.specs.declared.check.Test.TheVariants as test;
    ghost use Rattle.pg_slice_memory.specs.pg_slice_rules.Rules.{Value, Bounds, same_bounds};
    ghost use Rattle.pg_slice_memory.specs.pg_slice_values.SymbolicNodes.{IsSymbolicNode, symbolic_by};
    ghost use Rattle.pg_slice_checks.specs.Asks.{Adds, other_than};

    /// Nothing was asked.
    pub fn new(alloc: Global) -> Asked
        ensures missing { result.missing.items ≡ [] }
        ensures checks { result.checks.items ≡ [] }
    {
        Asked {
            missing: Vec::new(alloc),
            checks: Vec::new(alloc),
        }
    }

    /// Asks that a value is known, and on an input meets a test.
    ///
    /// # Errors
    ///
    /// Where no memory is left.
    #[tactic(auto, using(crate::proofs::OneNeedMore::one_check, crate::proofs::OneNeedMore::one_missing))]
    pub fn need_value(&mut self, s: SymbolicNode, test: Test) -> Result<(), AllocError>
        ensures { IfOk result (λ u. (ns : NodeList) → IsSymbolicNode (length ns) s → Adds ns (Value (symbolic_by ns s) (test ∷ []) ∷ []) self.old self.new) }
    {
        match s {
            SymbolicNode::Known { value, .. } => self.checks.push(Check { node: value, test })?,
            SymbolicNode::Bounded(_, by) | SymbolicNode::Unknown(by) => self.missing.push(by)?,
        }
        Ok(())
    }

    /// Asks that the bounds of a value are known, and on an input are those of this word.
    ///
    /// # Errors
    ///
    /// Where no memory is left.
    #[tactic(auto, using(crate::proofs::OneNeedMore::one_check, crate::proofs::OneNeedMore::one_missing))]
    pub fn need_bounds(&mut self, s: SymbolicNode, word: u64) -> Result<(), AllocError>
        ensures { IfOk result (λ u. (ns : NodeList) → IsSymbolicNode (length ns) s → Adds ns (Bounds (symbolic_by ns s) (same_bounds word) ∷ []) self.old self.new) }
    {
        let pointer = unpack(word);
        let test = Test::Bounds(pointer.start, pointer.length);
        match s {
            SymbolicNode::Known { bounds, .. } | SymbolicNode::Bounded(bounds, _) => self
                .checks
                .push(Check { node: bounds, test })?,
            SymbolicNode::Unknown(by) => self.missing.push(by)?,
        }
        Ok(())
    }

    /// Asks that a value is known, and on an input is none of these cases.
    ///
    /// # Errors
    ///
    /// Where no memory is left.
    #[tactic(auto, using(crate::proofs::OneNeedMore::one_missing, crate::proofs::OneNeedMore::many_checks))]
    pub fn need_none(&mut self, s: SymbolicNode, cases: &[Case]) -> Result<(), AllocError>
        ensures { IfOk result (λ u. (ns : NodeList) → IsSymbolicNode (length ns) s → Adds ns (Value (symbolic_by ns s) (map (λ (c : ACase). test.Ne c.value) cases.now) ∷ []) self.old self.new) }
    {
        match s {
            SymbolicNode::Known { value, .. } => self.check_others(value, cases)?,
            SymbolicNode::Bounded(_, by) | SymbolicNode::Unknown(by) => self.missing.push(by)?,
        }
        Ok(())
    }

    /// A check for each case that a node's number is another.
    fn check_others(&mut self, node: u32, cases: &[Case]) -> Result<(), AllocError>
        ensures checks { OnOk result (self.new.checks.items ≡ self.old.checks.items ++ map (other_than node) cases.now) }
        ensures missing { self.new.missing ≡ self.old.missing }
    {
        for case in cases {
            self.checks.push(Check {
                node,
                test: Test::Ne(case.value),
            })?;
        }
        Ok(())
    }
}
