//! Laws on closed decisions. The premise `ExtentsKeep` says of a reference run what its steps keep to in the extents of
//! freeable branch steps.

ghost use Rattle.pg_law_least.specs.Along.{Goes};
ghost use Rattle.pg_law_least.specs.FootprintLaws.{DisturbedByFootprints, FootprintsInOrder, SharedByFootprints, StepsInOrder};
ghost use Rattle.pg_law_least.specs.Keeps.{ExtentsKeep};
ghost use Rattle.pg_law_least.specs.Kept.{kept};
ghost use Rattle.pg_law_least.specs.Laws.{AllAreClosed, AsksAreAbove, AsksAreNew, AsksAreOfSteps, ClosedAskNothing, ExtentsStay, HasSlice, KnownStays, LeftOutArePlain, SliceIsOne, SmallerAdmitsMore};
ghost use Rattle.pg_slice_rules.specs.Known.{Reference};

/// No decision that is asked for is taken, and each fixes a step of the run: decisions that take in what they ask for
/// grow, until they are closed.
pub fn asks_are_new()
    ensures new { (R : Reference) → AsksAreNew R }
    ensures steps { (R : Reference) → AsksAreOfSteps R }
{}

/// Decisions are closed exactly where they ask for nothing.
pub fn closed_decisions_ask_for_nothing()
    ensures { (R : Reference) → ClosedAskNothing R }
{}

/// All decisions together are closed: nothing is unknown then.
pub fn all_decisions_are_closed()
    ensures { (R : Reference) → AllAreClosed R }
{}

/// Each decision that is asked for is in each larger set that is closed.
pub fn asks_are_above()
    ensures { (R : Reference) → ExtentsKeep R → AsksAreAbove R }
{}

/// Some closed decisions are contained in all that are closed: the slice, of which there is one.
pub fn some_decisions_are_least()
    ensures some { (R : Reference) → ExtentsKeep R → HasSlice R }
    ensures one { (R : Reference) → SliceIsOne R }
{}

/// What some decisions admit fewer of them admit too; so the slice admits the most inputs of all closed decisions.
pub fn smaller_decisions_admit_more()
    ensures { (R : Reference) → ExtentsKeep R → SmallerAdmitsMore R }
{}

/// What is known before a step under some decisions is known under more of them, with the same number on each input.
pub fn known_values_stay_known()
    ensures { (R : Reference) → ExtentsKeep R → KnownStays R }
{}

/// What is left out under some decisions is no event, so the events of a run are steps that are live.
pub fn steps_left_out_are_no_events()
    ensures { (R : Reference) → ExtentsKeep R → LeftOutArePlain R }
{}

/// Which extents are open before a step rests on no decision.
pub fn extents_rest_on_no_decision()
    ensures { (R : Reference) → ExtentsKeep R → ExtentsStay R }
{}

/// What is shown along the moments of a run is what the laws above ask of it.
pub fn extents_keep_along()
    ensures { (R : Reference) → Goes R → ExtentsKeep R }
{}

/// There are such runs: this one stores in an extent.
pub fn a_run_keeps_its_extents()
    ensures along { Goes kept }
    ensures kept { ExtentsKeep kept }
{}

/// A live freeable branch step is disturbed just where a footprint of its region meets one of those of all steps.
pub fn disturbed_by_footprints()
    ensures { DisturbedByFootprints }
{}

/// A live load or store that isn't an event has to be exact just where its footprint meets one of those of all steps.
pub fn shared_by_footprints()
    ensures { SharedByFootprints }
{}

/// The footprints of steps are in order where the steps are.
pub fn footprints_in_order()
    ensures { FootprintsInOrder }
{}

/// The steps of a reference run with the intervals of a trace are in order, and so are their footprints.
pub fn steps_in_order()
    ensures { StepsInOrder }
{}
