//! Full binary trees over places.

ghost use Rattle.std.specs.Prelude.{◌≡◌, ◌≤◌, ◌<◌, ◌-◌, ◌^◌, IfOk, OnErr};
ghost use Rattle.pg_slice_conflicts.specs.declared.tree.TheConstants.{LEVELS};
ghost use Rattle.pg_slice_conflicts.specs.Tables.{IsTree};

use std::alloc::AllocError;

/// One more than the most levels of a tree, which memory would not hold.
const LEVELS: usize = 40;

/// A full binary tree: how many leaves it has, and in how many levels its nodes lie.
#[derive(Clone, Copy)]
pub(crate) struct Tree {
    pub leaves: usize,
    pub levels: usize,
}

/// A tree with no fewer leaves than these; none only where they are more than a tree of the most levels has.
pub(crate) fn tree_over(count: usize) -> Result<Tree, AllocError>
    ensures tree { IfOk result (λ t. IsTree t) }
    ensures leaves { IfOk result (λ t. count ≤ t.leaves) }
    ensures many { OnErr result (2 ^ (LEVELS - 2) < count) }
{
    let mut leaves: usize = 1;
    for levels in 1..LEVELS {
        if count <= leaves {
            return Ok(Tree { leaves, levels });
        }
        leaves *= 2;
    }
    Err(AllocError)
}
