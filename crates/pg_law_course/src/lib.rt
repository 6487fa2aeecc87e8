//! The course of a thread: what each of its steps of the full guided run along a schedule is, by its own local state. Each law is
//! the clause of a function that does nothing.
// How goals are searched for: see docs/CONTRIBUTING.md.
#![tactic(auto)]

pub mod examples;

ghost use Rattle.std.specs.Prelude.{◌≡◌, ◌<◌, ◌++◌, [], ℕ, suc, ℤ, List, Some, if◌then◌else◌, length, slice_get, take, true};
ghost use Rattle.std.specs.List.{cons_option};
ghost use Rattle.pg_num.specs.Places.{ByteRange};
ghost use Rattle.pg_ir.specs.Program.{NumberedProgram};
ghost use Rattle.pg_ir.specs.WellFormed.{IsProgram};
ghost use Rattle.pg_law_threads.specs.Effects.{deeds, effects};
ghost use Rattle.pg_law_threads.specs.Intervals.{timed};
ghost use Rattle.pg_law_threads.specs.Plans.{IsPlan};
ghost use Rattle.pg_run_thread.specs.LocalState.{LocalState};
ghost use Rattle.pg_run_thread.specs.Step.{after, next};
ghost use Rattle.pg_run_thread.specs.Told.{id_of, number_given};
ghost use Rattle.pg_run_trace.specs.declared.schedule.Schedule.{Schedule};
ghost use Rattle.pg_run_trace.specs.declared.turn.Turn.{Turn};
ghost use Rattle.pg_law_runs.specs.Cuts.{CanRun};
ghost use Rattle.pg_law_runs.specs.Deeds.{Did, owners_of};
ghost use Rattle.pg_law_order.specs.Good.{IsGoodRun, run_along};
ghost use Rattle.pg_law_order.specs.Served.{guided_along};
ghost use Rattle.pg_law_course.specs.Course.{before, cells_before, course, next_turn, shared_in, state_at, turns_before, turns_in, turns_of};
ghost use Rattle.pg_law_course.specs.Plan.{first_seen, guided_deeds, is_shared, own_plan, plan_of, turn_count};
ghost use Rattle.pg_law_course.specs.Prints.{number_told, numbers_printed, output_along, output_of, word_behind};
ghost use Rattle.pg_law_course.specs.Rests.{RestsAt, cells_left, exit_end};
ghost use Rattle.pg_law_course.specs.Steps.{IsStepOf, word_in};
ghost use Rattle.pg_law_course.specs.Threads.{function_operand};

pub use pg_ir;
use pg_ir::Request;
pub use pg_num;
pub use pg_run;
pub use pg_run_thread;
use pg_run_thread::Action;
pub use pg_run_trace;

/// A thread that has begun goes on with the number that its instruction's register gets as with the answer from which that number
/// was cut, so that a schedule's reply takes the place of the answer of a pthread call.
pub fn a_reply_suffices()
    ensures { (p : NumberedProgram) (l : LocalState) (answer : ℕ) → l.begun ≡ true → after p l (number_given p l answer) ≡ after p l answer }
{}

/// The function with which a create begins its thread is named by the instruction of the create.
pub fn a_create_names_its_function()
    ensures { (p : NumberedProgram) (l : LocalState) (at : ByteRange) (function argument : ℕ) → IsProgram p
        → next p l ≡ Action.Event (Request.Create at function argument) → function_operand (slice_get p.instrs (id_of l)) ≡ Some function }
{}

/// The steps of a good run are a plan, and so are its shared steps: the events are the schedule's turns in order, and each two steps
/// that conflict are ordered.
pub fn a_good_run_is_a_plan()
    ensures all { (p : NumberedProgram) (input : List ℤ) (s : Schedule) → CanRun p input → IsGoodRun p input s → IsPlan deeds (owners_of s.turns) (guided_deeds p input s) }
    ensures shared { (p : NumberedProgram) (input : List ℤ) (s : Schedule) → CanRun p input → IsGoodRun p input s → IsPlan deeds (owners_of s.turns) (plan_of p input s) }
{}

/// A step of a thread in a good run is the step of the local state before it: whether it is shared and an event, its turn of the
/// schedule, what it tells, reads and writes, and the local state behind it are those of the thread's next action, with what the run
/// has before the step and the schedule's reply.
pub fn a_step_is_that_of_its_local_state()
    ensures { (p : NumberedProgram) (input : List ℤ) (s : Schedule) → CanRun p input → IsGoodRun p input s → (t k : ℕ) (l : LocalState) (d : Did)
        → slice_get (course p input s t) k ≡ Some d → state_at p input s t k ≡ Some l → IsStepOf p input s t k l d }
{}

/// One step more is one more of a thread's shared steps where it is shared, one more of its turns where it is an event, and one more of
/// its numbers where it prints one.
pub fn a_step_is_counted()
    ensures shared { (p : NumberedProgram) (input : List ℤ) (s : Schedule) (t k : ℕ) (d : Did) → slice_get (course p input s t) k ≡ Some d
        → shared_in p input s t (suc k) ≡ (if is_shared d then suc (shared_in p input s t k) else shared_in p input s t k) }
    ensures turns { (p : NumberedProgram) (input : List ℤ) (s : Schedule) (t k : ℕ) (d : Did) → slice_get (course p input s t) k ≡ Some d
        → turns_in p input s t (suc k) ≡ (if deeds.is_event d then suc (turns_in p input s t k) else turns_in p input s t k) }
    ensures numbers { (p : NumberedProgram) (input : List ℤ) (s : Schedule) (t k : ℕ) (d : Did) → slice_get (course p input s t) k ≡ Some d
        → numbers_printed p input s t (suc k) ≡ numbers_printed p input s t k ++ cons_option (number_told d.told.kind) [] }
{}

/// The numbers of a thread's turns are those of turns that it owns, and they ascend.
pub fn the_turns_of_a_thread_ascend()
    ensures own { (t i g : ℕ) (turns : List Turn) → slice_get (turns_of t turns) i ≡ Some g → slice_get (owners_of turns) g ≡ Some t }
    ensures ascend { (t i j g h : ℕ) (turns : List Turn) → slice_get (turns_of t turns) i ≡ Some g → slice_get (turns_of t turns) j ≡ Some h → i < j → g < h }
{}

/// A shared step of a thread stands in the plan behind so many of the thread's shared steps, with its interval, which ends with its
/// turn where it is one; it finds there the cells that it finds in the run. Behind the thread's last step none of its shared steps is
/// left.
pub fn a_shared_step_stands_in_the_plan()
    ensures place { (p : NumberedProgram) (input : List ℤ) (s : Schedule) → CanRun p input → IsGoodRun p input s → (t k : ℕ) (d : Did)
        → slice_get (course p input s t) k ≡ Some d → is_shared d ≡ true
        → slice_get (own_plan p input s t) (shared_in p input s t k) ≡ Some (timed deeds (owners_of s.turns) (turns_before p input s t k) d) }
    ensures turn { (p : NumberedProgram) (input : List ℤ) (s : Schedule) → CanRun p input → IsGoodRun p input s → (t k : ℕ) (d : Did)
        → slice_get (course p input s t) k ≡ Some d → deeds.is_event d ≡ true
        → (timed deeds (owners_of s.turns) (turns_before p input s t k) d).high ≡ turns_before p input s t k }
    ensures cells { (p : NumberedProgram) (input : List ℤ) (s : Schedule) → CanRun p input → IsGoodRun p input s → (t k : ℕ) (d : Did)
        → slice_get (course p input s t) k ≡ Some d → is_shared d ≡ true → (c : ℕ)
        → (effects (first_seen p) (before t (shared_in p input s t k) (plan_of p input s))).cells c ≡ cells_before p input s t k c }
    ensures last { (p : NumberedProgram) (input : List ℤ) (s : Schedule) → CanRun p input → IsGoodRun p input s → (t : ℕ)
        → length (own_plan p input s t) ≡ shared_in p input s t (length (course p input s t)) }
    ensures left { (p : NumberedProgram) (input : List ℤ) (s : Schedule) → CanRun p input → IsGoodRun p input s → (c : ℕ)
        → (effects (first_seen p) (plan_of p input s)).cells c ≡ cells_left p input s c }
{}

/// How a thread rests where a good run ends: where it has a turn left, the run doesn't do that turn, and the thread traps by itself,
/// has ended, has spent its steps, or stands at an event. The owner of the first turn that the run doesn't do traps by itself or has
/// spent its steps, and so the run ends. A run that does all turns exits with the main thread's word.
pub fn a_thread_rests_where_the_run_ends()
    ensures rests { (p : NumberedProgram) (input : List ℤ) (s : Schedule) → CanRun p input → IsGoodRun p input s → (t : ℕ) (l : LocalState) (turn : ℕ)
        → state_at p input s t (length (course p input s t)) ≡ Some l → next_turn p input s t (length (course p input s t)) ≡ Some turn
        → RestsAt p input s t (length (course p input s t)) l turn }
    ensures exits { (p : NumberedProgram) (input : List ℤ) (s : Schedule) → CanRun p input → IsGoodRun p input s → turn_count p input s ≡ length s.turns
        → (run_along p input s).end ≡ exit_end p input s }
{}

/// A good run prints what its steps tell that they print, one after another; so turn by turn it prints the next number of the turn's
/// thread, in the form of the turn's instruction. The main thread's word is what its own steps leave of it.
pub fn what_a_run_prints_and_exits_with()
    ensures output { (p : NumberedProgram) (input : List ℤ) (s : Schedule) → CanRun p input → IsGoodRun p input s
        → (run_along p input s).state.printed ≡ output_of p (run_along p input s).trace }
    ensures by_turns { (p : NumberedProgram) (input : List ℤ) (s : Schedule) → CanRun p input → IsGoodRun p input s
        → (run_along p input s).state.printed ≡ output_along p (take (turn_count p input s) s.turns) (λ t. numbers_printed p input s t (length (course p input s t))) }
    ensures word { (p : NumberedProgram) (input : List ℤ) (s : Schedule) → CanRun p input → IsGoodRun p input s
        → word_in (cells_left p input s) 0 ≡ word_behind 0 0 (course p input s 0) }
{}

/// The full guided run prints the same as the guided run, ends alike, and does as many turns.
pub fn a_full_run_is_as_the_guided_run()
    ensures output { (p : NumberedProgram) (input : List ℤ) (s : Schedule) → (run_along p input s).state.printed ≡ (guided_along p input s).state.printed }
    ensures end { (p : NumberedProgram) (input : List ℤ) (s : Schedule) → (run_along p input s).end ≡ (guided_along p input s).end }
    ensures turns { (p : NumberedProgram) (input : List ℤ) (s : Schedule) → (guided_along p input s).turns ≡ turn_count p input s }
{}
