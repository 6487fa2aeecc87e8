//! Laws of steps, events and the order between them, over any machine of threads: each law is the clause
//! of a function that does nothing. The lemmas stand over any type of steps.
// How goals are searched for: see docs/CONTRIBUTING.md.
#![tactic(auto)]

ghost use Rattle.std.specs.Prelude.{◌≡◌, ◌↔◌, ℕ, ◌<◌, ◌≤◌, List, length, true, Some, slice_get};
ghost use Rattle.pg_law_threads.specs.Chains.{IsChained, IsFiner, IsOrderedOrEvents};
ghost use Rattle.pg_law_threads.specs.Cuts.{IsCut, Mark, count_done, marked, whole};
ghost use Rattle.pg_law_threads.specs.Effects.{Deed, State};
ghost use Rattle.pg_law_threads.specs.Intervals.{AreTurns, EndsBefore, IsOrdered, Timed, timed};
ghost use Rattle.pg_law_threads.specs.Machines.{HasOrdered, IsPart, IsPermitted, Machine, does};
ghost use Rattle.pg_law_threads.specs.Standing.{ArePlans, FindAndLeave};
ghost use Rattle.pg_law_threads.specs.Steps.{View};

/// One comparison of numbers says that the interval of one step ends no later than that of another begins.
pub fn intervals_in_words()
    ensures { (V : View ℕ) (turns : List ℕ) (k j x y : ℕ) → k ≤ length turns → j ≤ length turns
        → (V.is_event x ≡ true → slice_get turns k ≡ Some (V.thread x)) → (V.is_event y ≡ true → slice_get turns j ≡ Some (V.thread y))
        → ((timed V turns k x).high < (timed V turns j y).low) ↔ EndsBefore V turns k j x y }
{}

/// A list of steps is ordered exactly where a chain of events leads between each two that conflict.
pub fn ordered_steps_have_chains()
    ensures { (V : View ℕ) (turns xs : List ℕ) → AreTurns V turns 0 xs → (IsOrdered V turns xs ↔ IsChained V xs) }
{}

/// More events leave a list of steps ordered, and order each two that conflict and both become events.
pub fn more_events_order_more()
    ensures { (V W : View ℕ) (turns more xs : List ℕ) → IsFiner V W → AreTurns V turns 0 xs → AreTurns W more 0 xs
        → IsOrderedOrEvents V W turns xs → IsOrdered W more xs }
{}

/// The first steps of each thread, so many as one likes, are a cut, and each cut is of this kind.
pub fn cuts_are_counts()
    ensures these { (V : View ℕ) (counts : ℕ → ℕ) (xs : List (Timed ℕ)) → IsCut V (marked V counts xs) }
    ensures all { (V : View ℕ) (marks : List (Mark (Timed ℕ))) → IsCut V marks → marked V (count_done V marks) (whole marks) ≡ marks }
{}

/// Where some full run along turns is ordered, each permitted run along them is a part of it: it stands at
/// a cut, is ordered, and goes on until it is that run but for the order of the steps.
pub fn permitted_runs_are_parts()
    ensures { (M : Machine ℕ ℕ ℕ ℕ) (turns : List ℕ) (s : State ℕ ℕ ℕ) (full run : List (Deed ℕ ℕ ℕ ℕ))
        → HasOrdered M turns s full → IsPermitted M.rules (does M) turns s 0 run → IsPart M.rules turns s full run }
{}

/// The steps of a plan that a test chooses, all events among them, are a plan.
pub fn chosen_steps_are_a_plan()
    ensures { ArePlans }
{}

/// Where threads stand at a cut of a plan, a thread's next step finds in the cells that it touches what the plan has there; and once
/// it is done the threads stand at a cut again, at which the others have done what they had.
pub fn steps_find_and_leave()
    ensures { FindAndLeave }
{}
