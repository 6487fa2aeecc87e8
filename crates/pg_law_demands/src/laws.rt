//! Laws on what has to be known before the steps of a reference run, and the decisions that this takes. The premise
//! `ExtentsKeep` says of a run what its steps keep to in the extents of freeable branch steps.

ghost use Rattle.pg_law_least.specs.pg_slice_rules.Known.{Reference};
ghost use Rattle.pg_law_least.specs.Keeps.{ExtentsKeep};
ghost use Rattle.pg_law_demands.specs.Along.{DemandedStayWithin, DueBefore, MoreAreDue, SomeAreDue};
ghost use Rattle.pg_law_demands.specs.Laws.{DemandsAreAbove};

/// Each decision that is demanded is in each larger set that is closed, so decisions with them stay within each closed set
/// that they were within.
pub fn demands_are_above()
    ensures above { (R : Reference) → ExtentsKeep R → DemandsAreAbove R }
    ensures within { (R : Reference) → ExtentsKeep R → DemandedStayWithin R }
{}

/// What has to be known after a step under each larger closed set makes what has to be known before it, and which
/// decisions are taken there.
pub fn demands_go_back()
    ensures { (R : Reference) → ExtentsKeep R → DueBefore R }
{}

/// Some of what is due is due; and what is due with the decisions that are due is due without them.
pub fn some_demands_are_due()
    ensures some { (R : Reference) → SomeAreDue R }
    ensures more { (R : Reference) → MoreAreDue R }
{}
