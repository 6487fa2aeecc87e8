//! A seat may take the steps of its thread: what a thread asks for by its local state is what its seat's view allows, and what it
//! finds is what the full guided run has. Each law is the clause of a function that does nothing.

ghost use Rattle.std.specs.Prelude.{◌≡◌, ℕ, Bool, Some, None, false, true};
ghost use Rattle.pg_law_course.specs.pg_num.Places.{ByteRange};
ghost use Rattle.pg_law_course.specs.pg_law_threads.Effects.{deeds};
ghost use Rattle.pg_law_course.specs.pg_law_threads.Intervals.{timed};
ghost use Rattle.pg_law_course.specs.pg_run_thread.LocalState.{LocalState};
ghost use Rattle.pg_law_course.specs.pg_run_trace.Steps.{event_of};
ghost use Rattle.pg_law_course.specs.pg_law_runs.Deeds.{Did};
ghost use Rattle.pg_law_course.specs.Plan.{is_shared};
ghost use Rattle.pg_law_course.specs.Steps.{made_by, number_in, word_in};
ghost use Rattle.pg_seats.specs.Plan.{cells_there, turns_in};
ghost use Rattle.pg_seats.specs.Steps.{StandsBefore, action_of, parts_of, run_cells, turns_there};
ghost use Rattle.pg_seats.specs.Views.{is_due, may_advance, may_hear, may_load, may_put, may_read, may_say, may_store, next_of, number_there, word_there};
ghost use Rattle.pg_seats.specs.declared.run.Standing.{Standing};
ghost use Rattle.pg_seats.specs.declared.run.View.TheVariants.{Worker};

use pg_law_course::pg_ir::Request;
use pg_law_course::pg_run_thread::Action;

/// The next shared step of a seat is that of its thread, an event is due where its turns are done, and the seat finds the numbers and
/// words that the thread finds in the run.
pub fn a_seat_stands_at_its_threads_step()
    ensures next { (w : Standing) (k : ℕ) (l : LocalState) (d : Did) → StandsBefore w k l d → is_shared d ≡ true → next_of w ≡ Some (timed deeds (turns_in w.run) (turns_there w k) d) }
    ensures due { (w : Standing) (k : ℕ) (l : LocalState) (d : Did) → StandsBefore w k l d → is_shared d ≡ true → deeds.is_event d ≡ true → is_due w (turns_there w k) ≡ true }
    ensures number { (w : Standing) (k : ℕ) (l : LocalState) (d : Did) → StandsBefore w k l d → is_shared d ≡ true → (q : ByteRange) → number_there (Worker w) q ≡ number_in (run_cells w k) q }
    ensures word { (w : Standing) (k : ℕ) (l : LocalState) (d : Did) → StandsBefore w k l d → is_shared d ≡ true → (t : ℕ) → word_there (Worker w) t ≡ word_in (run_cells w k) t }
{}

/// A seat may take the load or the store that its thread asks for: a plain one at once, and one that is an event where it is due.
pub fn a_seat_may_access_as_its_thread_asks()
    ensures load { (w : Standing) (k : ℕ) (l : LocalState) (d : Did) → StandsBefore w k l d → (q : ByteRange) → action_of w l ≡ Action.Load q → deeds.is_event d ≡ false → may_load (Worker w) q ≡ true }
    ensures read { (w : Standing) (k : ℕ) (l : LocalState) (d : Did) → StandsBefore w k l d → (q : ByteRange) → action_of w l ≡ Action.Load q → w.due ≡ true → may_read (Worker w) q ≡ true }
    ensures store { (w : Standing) (k : ℕ) (l : LocalState) (d : Did) → StandsBefore w k l d → (q : ByteRange) (n : ℕ) → action_of w l ≡ Action.Store q n → deeds.is_event d ≡ false → may_store (Worker w) q n ≡ true }
    ensures put { (w : Standing) (k : ℕ) (l : LocalState) (d : Did) → StandsBefore w k l d → (q : ByteRange) (n : ℕ) → action_of w l ≡ Action.Store q n → deeds.is_event d ≡ true → w.due ≡ true → w.parts ≡ 0 → may_put (Worker w) q n ≡ true }
{}

/// A seat that is due may do the parts of the turn that its thread asks for, one after another, and then end it.
pub fn a_seat_may_do_its_threads_turn()
    ensures start { (w : Standing) (k : ℕ) (l : LocalState) (d : Did) → StandsBefore w k l d → action_of w l ≡ Action.Event Request.Start → w.due ≡ true → w.parts ≡ 0 → may_hear (Worker w) w.thread ≡ true }
    ensures create { (w : Standing) (k : ℕ) (l : LocalState) (d : Did) → StandsBefore w k l d → (q : ByteRange) (f n : ℕ) → action_of w l ≡ Action.Event (Request.Create q f n) → w.due ≡ true → w.parts ≡ 0 → may_say (Worker w) (made_by (event_of d.told)) n ≡ true }
    ensures number { (w : Standing) (k : ℕ) (l : LocalState) (d : Did) → StandsBefore w k l d → (q : ByteRange) (f n : ℕ) → action_of w l ≡ Action.Event (Request.Create q f n) → w.due ≡ true → w.parts ≡ 1 → may_put (Worker w) q (made_by (event_of d.told)) ≡ true }
    ensures join { (w : Standing) (k : ℕ) (l : LocalState) (d : Did) → StandsBefore w k l d → (u : ℕ) (q : ByteRange) → action_of w l ≡ Action.Event (Request.Join u (Some q)) → w.due ≡ true → w.parts ≡ 0 → may_hear (Worker w) u ≡ true }
    ensures value { (w : Standing) (k : ℕ) (l : LocalState) (d : Did) → StandsBefore w k l d → (u : ℕ) (q : ByteRange) → action_of w l ≡ Action.Event (Request.Join u (Some q)) → w.due ≡ true → w.parts ≡ 0 → may_put (Worker w) q (word_in (run_cells w k) u) ≡ true }
    ensures exit { (w : Standing) (k : ℕ) (l : LocalState) (d : Did) → StandsBefore w k l d → (n : ℕ) (is_return : Bool) → action_of w l ≡ Action.Event (Request.Exit n is_return) → w.due ≡ true → w.parts ≡ 0 → may_say (Worker w) w.thread n ≡ true }
    ensures end { (w : Standing) (k : ℕ) (l : LocalState) (d : Did) → StandsBefore w k l d → deeds.is_event d ≡ true → w.due ≡ true → w.parts ≡ parts_of (action_of w l) → may_advance (Worker w) ≡ true }
{}
