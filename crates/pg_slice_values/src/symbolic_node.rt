//! What is known of a value.

use pg_slice_rules::Decision;

/// What is known of a value along a reference run, by the number of a node of one list.
#[derive(Clone, Copy, Debug, PartialEq, Eq)]
pub enum SymbolicNode {
    /// The number of a node, and the bounds of a node's word: of the same node, but for a pointer that was moved.
    Known { value: u32, bounds: u32 },
    /// A pointer of which only the bounds are known, those of this node's word; the decision is blamed for the rest.
    Bounded(u32, Decision),
    /// Nothing; the decision is blamed.
    Unknown(Decision),
}

impl SymbolicNode {
    ghost use Rattle.std.specs.Prelude.{◌≡◌, ◌<◌, ℕ, Some, None, IfSome};
    ghost use Rattle.std.specs.Option.{option_map, option_to_list};
    ghost use Rattle.pg_precondition.specs.Nodes.{NodeList};
    ghost use Rattle.pg_slice_rules.specs.SymbolicValues as symbolics;
    ghost use Rattle.pg_slice_rules.specs.Rules.{value_of};
    ghost use Rattle.pg_slice_values.specs.SymbolicNodes.{IsSymbolicNode, number_by, symbolic_by};

    /// The decision that is blamed where the value isn't known.
    pub fn blame(self) -> Option<Decision>
        ensures { (ns : NodeList) → symbolics.blames (symbolic_by ns self) ≡ option_to_list result }
    {
        match self {
            SymbolicNode::Known { .. } => None,
            SymbolicNode::Bounded(_, by) | SymbolicNode::Unknown(by) => Some(by),
        }
    }

    /// The decision that is blamed where the bounds aren't known.
    pub fn bounds_blame(self) -> Option<Decision>
        ensures { (ns : NodeList) → symbolics.bounds_blames (symbolic_by ns self) ≡ option_to_list result }
    {
        match self {
            SymbolicNode::Unknown(by) => Some(by),
            SymbolicNode::Known { .. } | SymbolicNode::Bounded(..) => None,
        }
    }

    /// The node of the value, where it is known.
    pub fn word(self) -> Option<u32>
        ensures value { (ns : NodeList) → value_of (symbolic_by ns self) ≡ option_map (number_by ns) result }
        ensures node { (n : ℕ) → IsSymbolicNode n self → IfSome result (λ k. k < n) }
    {
        match self {
            SymbolicNode::Known { value, .. } => Some(value),
            SymbolicNode::Bounded(..) | SymbolicNode::Unknown(_) => None,
        }
    }

    /// The node of a word that has the pointer's bounds, where the bounds are known.
    pub fn bounds_word(self) -> Option<u32>
        ensures value { (ns : NodeList) → symbolics.bounds_word (symbolic_by ns self) ≡ option_map (number_by ns) result }
        ensures node { (n : ℕ) → IsSymbolicNode n self → IfSome result (λ k. k < n) }
    {
        match self {
            SymbolicNode::Known { bounds, .. } | SymbolicNode::Bounded(bounds, _) => Some(bounds),
            SymbolicNode::Unknown(_) => None,
        }
    }

    /// A value with the bounds of this node's word.
    fn with_bounds(self, bounds: u32) -> SymbolicNode
        ensures value { (ns : NodeList) → symbolic_by ns result ≡ symbolics.with_bounds (Some (number_by ns bounds)) (symbolic_by ns self) }
        ensures is { (n : ℕ) → bounds < n → IsSymbolicNode n self → IsSymbolicNode n result }
    {
        match self {
            SymbolicNode::Known { value, .. } => SymbolicNode::Known { value, bounds },
            SymbolicNode::Bounded(..) => self,
            SymbolicNode::Unknown(by) => SymbolicNode::Bounded(bounds, by),
        }
    }

    /// A value with the bounds of its base, where those are known.
    pub fn moved(self, base: SymbolicNode) -> SymbolicNode
        ensures value { (ns : NodeList) → symbolic_by ns result ≡ symbolics.moved (symbolic_by ns base) (symbolic_by ns self) }
        ensures is { (n : ℕ) → IsSymbolicNode n base → IsSymbolicNode n self → IsSymbolicNode n result }
    {
        match base {
            SymbolicNode::Known { bounds, .. } | SymbolicNode::Bounded(bounds, _) =>
                self.with_bounds(bounds),
            SymbolicNode::Unknown(_) => self,
        }
    }
}
