//! What holds of the entries of a program and of a session's lines: each law is the clause of a function that does nothing.
ghost use Rattle.std.specs.Prelude.{Contains, ◌≡◌, ◌<◌, ◌^◌, ◌++◌, ℕ, ℤ, All, List, length, true, Option, Some, slice_get};
ghost use Rattle.pg_go.specs.pg_num.declared.limits.TheConstants.{CACHE_LIMIT};
ghost use Rattle.pg_go.specs.pg_ir.Program.{NumberedProgram};
ghost use Rattle.pg_cache.specs.Kept.{Kept};
ghost use Rattle.pg_go.specs.pg_run_trace.declared.step.Step.{Step};
ghost use Rattle.pg_go.specs.pg_run.State.{State};
ghost use Rattle.pg_law_reuse.specs.pg_law_runs.Cuts.{CanRun};
ghost use Rattle.pg_law_reuse.specs.pg_law_runs.LastTurns.{IsRecorded};
ghost use Rattle.pg_session.specs.pg_session_texts.declared.reply.EndLine.{EndLine};
ghost use Rattle.pg_session.specs.pg_session_texts.declared.reply.ReplyKind.TheVariants.{Recorded, Reused};
ghost use Rattle.pg_session.specs.pg_session_texts.declared.forms.ReplyForm.{ReplyForm};
ghost use Rattle.pg_law_reuse.specs.Entries.{EntryParts, IsEntry};
ghost use Rattle.pg_law_reuse.specs.pg_law_order.Good.{IsGoodRun};
ghost use Rattle.pg_law_reuse.specs.pg_law_order.Served.{IsServed};
ghost use Rattle.pg_session.specs.Sessions.{Answer, AnswersAll, IsEntryOf, IsSessionText, opened};
ghost use Rattle.pg_session_runner.specs.Headline.{IsReusedLine, IsServedRecording};
ghost use Rattle.pg_session_runner.specs.Limits.{AreWithinLimits, HasFewNumbers};
ghost use Rattle.pg_session_runner.specs.Runs.{IsGiven, IsKept, Way, entry_admits, rotating, runs_by, tested};
ghost use Rattle.pg_session_runner.specs.Tested.{IsTestedAnswer};

use pg_go::pg_run::laws::a_rotation_is_a_run;
use pg_law_reuse::laws::{an_entry_of_turns_serves_what_it_admits, an_entry_serves_what_it_admits};

/// The schedule of a recorded run has so few turns that 32 bits count them.
pub fn a_recorded_schedule_has_few_turns()
    ensures { (p : NumberedProgram) (input : List ℤ) (xs : List Step) (z : State) (entry : EntryParts) → IsRecorded p input xs z
        → IsEntry p input xs z entry → length entry.schedule.turns < 2 ^ 32 }
{}

/// The entry of a recording has a good run on each input that its precondition admits, and its schedule serves the input.
pub fn a_kept_entry_serves_what_it_admits()
    ensures good { (p : NumberedProgram) (way : Way) (own input : List ℤ) (entry : EntryParts) (output : List ℕ) (end : EndLine) → CanRun p own → IsKept p way own entry output end
        → length input < 2 ^ 64 → entry_admits entry input ≡ true → IsGoodRun p input entry.schedule }
    ensures served { (p : NumberedProgram) (way : Way) (own input : List ℤ) (entry : EntryParts) (output : List ℕ) (end : EndLine) → CanRun p own → IsKept p way own entry output end
        → length input < 2 ^ 64 → entry_admits entry input ≡ true → IsServed p input entry.schedule }
{
    a_rotation_is_a_run();
    an_entry_serves_what_it_admits();
}

/// Each entry of a program, of a recording or of given turns, has a good run on each input that its precondition admits, and its
/// schedule serves the input.
pub fn each_entry_serves_what_it_admits()
    ensures good { (p : NumberedProgram) (way : Way) (input : List ℤ) (entry : EntryParts) → CanRun p entry.input → IsEntryOf (runs_by p way) entry → length input < 2 ^ 64
        → entry_admits entry input ≡ true → IsGoodRun p input entry.schedule }
    ensures served { (p : NumberedProgram) (way : Way) (input : List ℤ) (entry : EntryParts) → CanRun p entry.input → IsEntryOf (runs_by p way) entry → length input < 2 ^ 64
        → entry_admits entry input ≡ true → IsServed p input entry.schedule }
{
    a_kept_entry_serves_what_it_admits();
    an_entry_of_turns_serves_what_it_admits();
}

/// In a session that begins with entries of given turns and records the runs of a program in this way, each line that is
/// answered by reuse is answered by an entry that an earlier line left, or by one with which the session began, and that admits
/// the line's input; and the reply is that of every run of the program on the input that the entry's turns permit: each goes on
/// until it is full, is ordered, printed the same, and ended in the same way.
pub fn each_reused_line_is_served()
    ensures { (p : NumberedProgram) (way : Way) (given : List EntryParts) (inputs : List (Option (List ℤ))) (answers : List Answer) (kept : Kept EntryParts)
        → All (IsGiven p) given → AnswersAll entry_admits (runs_by p way) (opened given) inputs answers kept
        → (line number : ℕ) (answer : Answer) → slice_get answers line ≡ Some answer → answer.kind ≡ Reused number
        → IsReusedLine p way given inputs answers line number }
{}

/// And each line that is recorded gets the reply of every run of the program on the line's input that the turns of its own entry
/// permit.
pub fn each_recorded_line_is_served()
    ensures { (p : NumberedProgram) (way : Way) (given : List EntryParts) (inputs : List (Option (List ℤ))) (answers : List Answer) (kept : Kept EntryParts)
        → AnswersAll entry_admits (runs_by p way) (opened given) inputs answers kept → (line number : ℕ) (answer : Answer)
        → slice_get answers line ≡ Some answer → answer.kind ≡ Recorded number
        → IsServedRecording p way given inputs answers line number }
{
    a_rotation_is_a_run();
}

/// A session whose recordings are made in rotation has one text in each form: its program and its quantum, what it keeps at first, and the
/// inputs of its lines settle each answer. The premise is that the program can run on each input.
pub fn a_session_in_rotation_has_one_text()
    ensures { (form : ReplyForm) (p : NumberedProgram) (quantum : ℕ) (first : Kept EntryParts) (inputs : List (Option (List ℤ))) (text other : List ℕ)
        → ((input : List ℤ) → Contains inputs (Some input) → CanRun p input)
        → IsSessionText form entry_admits (runs_by p (rotating quantum)) first inputs text
        → IsSessionText form entry_admits (runs_by p (rotating quantum)) first inputs other → text ≡ other }
{}

/// A session that records nothing keeps its first entries, and answers each line by one of these that admits it, or refuses it. The
/// answer to a line is settled by the program, the first entries and that line: two sessions answer it alike, whatever other lines
/// they have. So the text of lines in two parts is the texts of the parts, one after the other; and each of these texts is one alone.
pub fn a_tested_session_answers_each_line_alone()
    ensures stays { (p : NumberedProgram) (first kept : Kept EntryParts) (inputs : List (Option (List ℤ))) (answers : List Answer)
        → AnswersAll entry_admits (runs_by p tested) first inputs answers kept → kept ≡ first }
    ensures answers { (p : NumberedProgram) (first kept : Kept EntryParts) (inputs : List (Option (List ℤ))) (answers : List Answer)
        → AnswersAll entry_admits (runs_by p tested) first inputs answers kept
        → (line : ℕ) (input : Option (List ℤ)) (answer : Answer) → slice_get inputs line ≡ Some input → slice_get answers line ≡ Some answer
        → IsTestedAnswer p first input answer }
    ensures alone { (p : NumberedProgram) (first kept last : Kept EntryParts) (inputs others : List (Option (List ℤ))) (answers replies : List Answer)
        → AnswersAll entry_admits (runs_by p tested) first inputs answers kept → AnswersAll entry_admits (runs_by p tested) first others replies last
        → (line place : ℕ) (input : Option (List ℤ)) → slice_get inputs line ≡ Some input → slice_get others place ≡ Some input
        → slice_get answers line ≡ slice_get replies place }
    ensures parts { (form : ReplyForm) (p : NumberedProgram) (first : Kept EntryParts) (inputs others : List (Option (List ℤ))) (text before behind : List ℕ)
        → IsSessionText form entry_admits (runs_by p tested) first (inputs ++ others) text
        → IsSessionText form entry_admits (runs_by p tested) first inputs before → IsSessionText form entry_admits (runs_by p tested) first others behind
        → text ≡ before ++ behind }
    ensures one_text { (form : ReplyForm) (p : NumberedProgram) (first : Kept EntryParts) (inputs : List (Option (List ℤ))) (text other : List ℕ)
        → IsSessionText form entry_admits (runs_by p tested) first inputs text → IsSessionText form entry_admits (runs_by p tested) first inputs other → text ≡ other }
{}

/// What a session keeps at its end is within the limits of a book, where its first entries are and its lines have few numbers.
pub fn what_a_session_keeps_is_within_limits()
    ensures { (p : NumberedProgram) (way : Way) (first kept : Kept EntryParts) (inputs : List (Option (List ℤ))) (answers : List Answer)
        → first.size ≡ CACHE_LIMIT → AreWithinLimits first.values → All HasFewNumbers inputs
        → AnswersAll entry_admits (runs_by p way) first inputs answers kept → AreWithinLimits kept.values }
{
    a_rotation_is_a_run();
}
