//! What a thread does inside a region: each law is the clause of a function that does nothing.

ghost use Rattle.pg_law_instances.specs.Alike.{AlikeStatesBeginInstances};
ghost use Rattle.pg_law_instances.specs.Inner.{InnerRegionsLieWithin};
ghost use Rattle.pg_law_instances.specs.Instances.{RunsHaveInstances};
ghost use Rattle.pg_law_instances.specs.References.{ReferenceRunsKeepExtents};
ghost use Rattle.pg_law_instances.specs.Together.{ExtentsStandTogether};
ghost use Rattle.pg_law_instances.specs.Stays.{StepsInsideStay, TheThreadAlone};

/// A thread at a branch whose region was recorded as freeable begins an instance in each state that is alike in the roots and
/// the cells of the region's paths: that which was recorded, or one on another input.
pub fn alike_states_begin_instances()
    ensures { AlikeStatesBeginInstances }
{}

/// A step of a thread at a branch step whose region is quiet, or inside, stays inside or leads to the join: it is no event
/// and allocates nothing, accesses recorded bounds alone, and sets in the branch's frame only registers that may be set.
pub fn a_step_inside_stays()
    ensures { StepsInsideStay }
{}

/// The steps of a thread alone from such a branch step on stay inside, all of them or up to the first that leads to the
/// join.
pub fn the_thread_alone()
    ensures { TheThreadAlone }
{}

/// Those steps together, up to the first that leads to the join, change the thread's local state and bytes in the bounds of
/// recorded stores, and nothing else; they are no events, and access recorded bounds alone.
pub fn runs_have_instances()
    ensures { RunsHaveInstances }
{}

/// In a guided run that exits, a step that is no event is followed by a step of its thread: so the steps between a freeable
/// branch step and the join stand together.
pub fn extents_stand_together()
    ensures { ExtentsStandTogether }
{}

/// A branch that a thread inside reaches, in the branch's frame or in that of a quiet function, has a region whose
/// accesses lead to recorded bounds of the outer one's; in the branch's frame that region lies in the outer one, and its
/// join is the outer join or lies there too.
pub fn inner_regions_lie_within()
    ensures { InnerRegionsLieWithin }
{}

/// Each step of a reference run keeps to the regions of the extents in which it lies: it is no event, sets and stores
/// what the regions may, and extents that end end all that began later.
pub fn reference_runs_keep_extents()
    ensures { ReferenceRunsKeepExtents }
{}
