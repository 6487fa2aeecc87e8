//! Laws on regions of a graph.

ghost use Rattle.pg_cfg.specs.Nested.{RegionsNest};

/// The region of a vertex that stands in another's region lies in that region, and its join is that of the other
/// or lies there too, where a path goes from the other's join to a vertex that isn't quiet.
pub fn regions_nest()
    ensures { RegionsNest }
{}
