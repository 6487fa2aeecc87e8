//! The order of a trace's steps: laws on conflicts and on ordered traces, each the clause of a function
//! that does nothing.
// How goals are searched for: see docs/CONTRIBUTING.md.
#![tactic(auto)]

pub mod examples;
pub mod guided;
pub mod permitted_runs;
pub mod recorded;
mod running;
pub mod served;

ghost use Rattle.std.specs.Prelude.{◌≡◌, ◌↔◌, Bool, List, None, true};
ghost use Rattle.pg_law_threads.specs.Intervals.{IsOrdered, owners};
ghost use Rattle.pg_law_threads.specs.Steps.{Conflict};
ghost use Rattle.pg_run_trace.specs.declared.step.Step.{Step};
ghost use Rattle.pg_run_trace.specs.Races.{conflict, first_unordered, recorded, steps_by};

pub use running::can_run;

/// Two steps conflict exactly where they are of different threads and meet at a byte that one of them writes.
pub fn steps_conflict_at_a_byte()
    ensures { (is_event : Step → Bool) (x y : Step) → (conflict x y ≡ true) ↔ Conflict (steps_by is_event) x y }
{}

/// A trace has no first unordered pair exactly where each two of its steps that conflict are ordered.
pub fn no_pair_where_ordered()
    ensures { (xs : List Step) → (first_unordered xs ≡ None) ↔ IsOrdered recorded (owners recorded xs) xs }
{}
