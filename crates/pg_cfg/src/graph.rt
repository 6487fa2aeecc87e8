//! Directed graphs over numbers.

ghost use Rattle.std.specs.Prelude.{◌≡◌, ◌<◌, length};
ghost use Rattle.pg_cfg.specs.Graphs.{start_in};

use std::alloc::{AllocError, Global};
use std::marker::Model;

/// A directed graph whose vertices are numbers from 0 on, which contracts see as the list of the targets of each
/// vertex.
#[derive(Debug, Drop)]
pub struct Graph {
    ends: Vec<usize>,
    targets: Vec<u32>,
}

impl Model for Graph {
    ghost use Rattle.std.specs.Prelude.{length};
    ghost use Rattle.pg_cfg.specs.Graphs.{EdgeLists, lists_from, AreEnds};

    ghost Value = { EdgeLists };

    ghost view = { λ g. lists_from 0 g.ends.items g.targets.items };

    ghost invariant = { λ g. AreEnds 0 g.ends.items (length g.targets.items) };
}

/// The first edge of a vertex, by where the edges of each vertex end.
fn start(ends: &[usize], vertex: usize) -> usize
    requires { vertex < length ends.now }
    ensures { result ≡ start_in 0 ends.now vertex }
{
    match vertex {
        0 => 0,
        _ => ends[vertex - 1],
    }
}

impl Graph {
    ghost use Rattle.std.specs.Prelude.{◌≡◌, ◌<◌, [], ◌∷◌, ◌++◌, length, OnOk, OnErr};
    ghost use Rattle.pg_cfg.specs.Graphs.{targets_of};

    /// The graph without vertices.
    pub fn new(alloc: Global) -> Graph
        ensures empty { result ≡ [] }
    {
        Graph {
            ends: Vec::new(alloc),
            targets: Vec::new(alloc),
        }
    }

    #[tactic(auto, using(crate::proofs::Ends::ends_push, crate::proofs::Ends::lists_push))]
    /// Adds a vertex, the next number, with edges to these vertices, which may come later themselves. Where memory
    /// is wanting the graph is as it was.
    pub fn push(&mut self, targets: &[u32]) -> Result<(), AllocError>
        ensures ok { OnOk result (self.new ≡ self.old ++ targets.now ∷ []) }
        ensures err { OnErr result (self.new ≡ self.old) }
    {
        let before = self.targets.len();
        self.targets.extend_from_slice(targets)?;
        if self.ends.push(self.targets.len()).is_err() {
            self.targets.truncate(before);
            return Err(AllocError);
        }
        Ok(())
    }

    #[tactic(auto, using(crate::proofs::Ends::length_lists))]
    /// How many vertices the graph has.
    pub fn len(&self) -> usize
        ensures count { result ≡ length self.now }
    {
        self.ends.len()
    }

    #[tactic(auto, using(crate::proofs::Ends::length_lists, crate::proofs::Ends::start_at, crate::proofs::Ends::end_below, crate::proofs::Ends::targets_at))]
    /// The vertices to which the edges of a vertex lead.
    pub fn targets(&self, vertex: u32) -> &[u32]
        requires { vertex < length self.now }
        ensures targets { result.now ≡ targets_of self.now vertex }
    {
        let ends = self.ends.as_slice();
        let from = start(ends, vertex as usize);
        let to = ends[vertex as usize];
        &self.targets.as_slice()[from..to]
    }
}
