//! A precondition admits the input that its run was recorded on: each law is the clause of a function that does nothing.
// How goals are searched for: see docs/CONTRIBUTING.md.
#![tactic(auto)]

pub mod examples;
pub mod reference_runs;

ghost use Rattle.pg_law_own_input.specs.OwnInput.{AllAdmitOwn, AnyAdmitOwn, KnownIsTrue};

/// Where all decisions are taken, each number that an input must give is, on the run's own input, that which the machine
/// had there: so this input is admitted, in whatever order the threads stepped.
pub fn all_decisions_admit_the_own_input()
    ensures { AllAdmitOwn }
{}

/// What is known before a step of its thread's registers and of memory is, on the run's own input, what the machine had there,
/// whatever decisions are taken.
pub fn what_is_known_is_true()
    ensures { KnownIsTrue }
{}

/// Any decisions admit the own input of a run whose steps keep to the regions of the extents in which they lie, closed
/// decisions or not.
pub fn any_decisions_admit_the_own_input()
    ensures { AnyAdmitOwn }
{}
