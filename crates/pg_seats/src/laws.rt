//! What follows of the rule at every moment: each law is the clause of a function that does nothing.

ghost use Rattle.std.specs.Prelude.{◌≡◌, ℕ, List, Some, false, true};
ghost use mathlib.Core.Option.{some};
ghost use lib.ListN.{get_elem?};
ghost use Rattle.pg_law_course.specs.pg_law_threads.Effects.{deeds};
ghost use Rattle.pg_law_course.specs.pg_law_threads.Intervals.{Timed};
ghost use Rattle.pg_law_course.specs.pg_law_threads.Steps.{touches};
ghost use Rattle.pg_law_course.specs.pg_law_runs.Deeds.{Did};
ghost use Rattle.pg_seats.specs.Plan.{cells_there};
ghost use Rattle.pg_seats.specs.Rule.{Keeps, cell_in};
ghost use Rattle.pg_seats.specs.Views.{IsCell, is_put, next_of};
ghost use Rattle.pg_seats.specs.declared.run.Run.{Run};
ghost use Rattle.pg_seats.specs.declared.run.Standing.{Standing};
ghost use Rattle.pg_seats.specs.declared.run.View.{View};
ghost use Rattle.pg_seats.specs.declared.run.View.TheVariants.{Worker};

/// A seat whose next shared step is plain, or is due, finds in each cell that this step reads or writes what the full guided run has
/// there before it, as long as no part of its own that is done wrote the cell.
pub fn a_seat_finds_what_the_run_has()
    ensures { (run : Run) (words : List ℕ) (views : List View) (id : ℕ) (w : Standing) (x : Timed Did) (b : ℕ) → Keeps run words views → get_elem? views id ≡ some (Worker w)
        → next_of w ≡ Some x → (deeds.is_event x.did ≡ true → w.due ≡ true) → IsCell b → touches deeds x.did b ≡ true → is_put x.did w.parts b ≡ false
        → cell_in words b ≡ cells_there run w.thread w.done b }
{}

/// Two seats are never due at once.
pub fn one_seat_is_due()
    ensures { (run : Run) (words : List ℕ) (views : List View) (i j : ℕ) (w u : Standing) → Keeps run words views → get_elem? views i ≡ some (Worker w) → get_elem? views j ≡ some (Worker u)
        → w.due ≡ true → u.due ≡ true → i ≡ j }
{}
