//! Laws on regions.

ghost use Rattle.pg_region.specs.Laws.{EdgesStay, RegionsNest};
ghost use Rattle.pg_region.specs.Examples.{LoopHasRegion, GatedLoopHasNone};

/// An edge from a block of a region, or from its branch, leads to a block of the region or to its join.
pub fn edges_stay()
    ensures { EdgesStay }
{}

/// A branch in the region of another has its own region in there, and the inner join is the outer one or lies in the
/// outer region, where the outer join is on a way to a block that isn't quiet.
pub fn regions_nest()
    ensures { RegionsNest }
{}

/// A loop that stores at elements of a global has its own blocks as a region, and the block behind it as its join.
pub fn a_loop_has_a_region()
    ensures { LoopHasRegion }
{}

/// Where that store is gated the loop's branch has no region.
pub fn a_gated_loop_has_none()
    ensures { GatedLoopHasNone }
{}
