//! Room for the numbers of nodes, which is used again.

use crate::nodes::Nodes;
use crate::number::node_number;
use crate::precondition::Precondition;
use std::alloc::{AllocError, Global};
use std::marker::Model;

/// Room for the numbers of a precondition's nodes.
#[derive(Drop)]
pub struct Scratch {
    numbers: Vec<Option<u64>>,
    room: u32,
}

impl Model for Scratch {
    ghost use Rattle.std.specs.Prelude.{◌≤◌, length, vec_capacity};
    ghost use Rattle.pg_precondition.specs.Scratches.{Numbers};

    ghost Value = { Numbers };

    ghost view = { λ s. record { numbers = s.numbers.items; room = s.room } };

    ghost invariant = { λ s. (length s.numbers.items ≤ s.room) × (s.room ≤ vec_capacity s.numbers) };
}

impl Scratch {
    ghost use Rattle.std.specs.Prelude.{◌≡◌, ◌≤◌, ◌<◌, [], length, IfOk};
    ghost use Rattle.pg_precondition.specs.Nodes.{AreNodes};
    ghost use Rattle.pg_precondition.specs.Scratches.{AreFirst};

    /// Room for the numbers of the nodes of `c`.
    ///
    /// # Errors
    ///
    /// Where no memory is left for it.
    pub fn new(alloc: Global, c: &Precondition) -> Result<Scratch, AllocError>
        ensures { IfOk result (λ s. s ≡ record { numbers = []; room = length c.now.nodes }) }
    {
        let room = c.nodes().len();
        Ok(Scratch {
            numbers: Vec::with_capacity(alloc, room as usize)?,
            room,
        })
    }

    /// Forgets the numbers.
    pub(crate) fn clear(&mut self)
        ensures { self.new ≡ record self.old { numbers = [] } }
    {
        self.numbers.clear();
    }

    #[tactic(auto, using(crate::proofs::NodeNumbers::next_known))]
    /// Computes the numbers of the nodes up to this one on an input, behind those that are known. Takes no memory.
    pub(crate) fn fill_to(&mut self, nodes: &Nodes, node: u32, input: &[i64])
        requires below { node < length nodes.now }
        requires room { length nodes.now ≤ self.old.room }
        requires first { AreFirst input.now nodes.now self.old.numbers }
        ensures first { AreFirst input.now nodes.now self.new.numbers }
        ensures filled { node < length self.new.numbers }
        ensures room { self.new.room ≡ self.old.room }
    {
        for i in self.numbers.len() as u32..node + 1 {
            let next = nodes.node(i);
            let number = node_number(&next, self.numbers.as_slice(), input);
            self.numbers.push_reserved(number);
        }
    }

    /// The numbers.
    pub(crate) fn numbers(&self) -> &[Option<u64>]
        ensures { result.now ≡ self.now.numbers }
    {
        self.numbers.as_slice()
    }
}
