//! Lists of nodes, each of which names only earlier ones.

use crate::node::Node;
use std::alloc::{AllocError, Global};
use std::marker::Model;

/// A list of fewer than two to the 32 nodes, each of which names only nodes before it.
#[derive(Debug, Drop)]
pub struct Nodes {
    items: Vec<Node>,
}

impl Model for Nodes {
    ghost use Rattle.std.specs.Prelude.{length, ◌<◌, ◌^◌};
    ghost use Rattle.pg_precondition.specs.Nodes.{NodeList, AreNodes};

    ghost Value = { NodeList };

    ghost view = { λ s. s.items.items };

    ghost invariant = { λ s. AreNodes s.items.items × (length s.items.items < 2 ^ 32) };
}

impl Nodes {
    ghost use Rattle.std.specs.Prelude.{◌≡◌, ◌<◌, ◌^◌, ◌++◌, ◌∷◌, [], length, slice_get, Some, IfOk, IfErr};
    ghost use Rattle.pg_precondition.specs.Nodes.{IsNode, AreNodes};

    /// A list without nodes.
    pub fn new(alloc: Global) -> Nodes
        ensures { result ≡ [] }
    {
        Nodes {
            items: Vec::new(alloc),
        }
    }

    /// How many nodes it has.
    pub fn len(&self) -> u32
        ensures count { result ≡ length self.now }
        ensures nodes { AreNodes self.now }
    {
        self.items.len() as u32
    }

    /// The node with this number, from 0 on.
    pub fn node(&self, i: u32) -> Node
        requires { i < length self.now }
        ensures node { slice_get self.now i ≡ Some result }
        ensures names { IsNode i result }
    {
        self.items[i as usize]
    }

    /// Adds a node at the end, and gives its number.
    ///
    /// # Errors
    ///
    /// Where no memory is left for it, or it would be the node with the number two to the 32 less one. The list is then as before.
    pub fn push(&mut self, node: Node) -> Result<u32, AllocError>
        requires { IsNode (length self.old) node }
        ensures added { IfOk result (λ i. (i ≡ length self.old) × (self.new ≡ self.old ++ node ∷ [])) }
        ensures same { IfErr result (λ e. self.new ≡ self.old) }
    {
        let i = self.items.len();
        if i >= 0xffff_ffff {
            return Err(AllocError);
        }
        self.items.push(node)?;
        Ok(i as u32)
    }
}
