//! An entry's turns serve every input that it admits: each law is the clause of a function that does nothing.

ghost use Rattle.std.specs.Prelude.{◌≡◌, ◌<◌, ◌^◌, ℕ, ℤ, List, length, true};
ghost use Rattle.pg_law_reuse.specs.pg_ir.Program.{NumberedProgram};
ghost use Rattle.pg_law_reuse.specs.pg_ir.declared.ids.InstrId.{InstrId};
ghost use Rattle.pg_precondition.specs.Values.{is_admitted};
ghost use Rattle.pg_law_reuse.specs.pg_run_trace.declared.schedule.Schedule.{Schedule};
ghost use Rattle.pg_law_reuse.specs.pg_run_trace.declared.step.Step.{Step};
ghost use Rattle.pg_law_reuse.specs.pg_run_trace.declared.turn.Turn.{Turn};
ghost use Rattle.pg_law_reuse.specs.pg_run.State.{State};
ghost use Rattle.pg_session_entry.specs.pg_law_runs.Cuts.{CanRun};
ghost use Rattle.pg_session_entry.specs.pg_law_runs.LastTurns.{IsRecorded};
ghost use Rattle.pg_session_entry.specs.pg_law_order.Good.{IsGoodRun};
ghost use Rattle.pg_session_entry.specs.Entries.{EntryParts, IsEntry, IsEntryOfTurns};
ghost use Rattle.pg_session_entry.specs.pg_law_order.Served.{IsServed};

/// The entry of a recorded run serves each input that its precondition admits: the full guided run along its schedule is good
/// there, and each run that its turns permit is as that run.
pub fn an_entry_serves_what_it_admits()
    ensures good { (p : NumberedProgram) (own input : List ℤ) (xs : List Step) (z : State) (e : EntryParts) → CanRun p own
        → IsRecorded p own xs z → IsEntry p own xs z e → length input < 2 ^ 64 → is_admitted input e.precondition ≡ true → IsGoodRun p input e.schedule }
    ensures served { (p : NumberedProgram) (own input : List ℤ) (xs : List Step) (z : State) (e : EntryParts) → CanRun p own
        → IsRecorded p own xs z → IsEntry p own xs z e → length input < 2 ^ 64 → is_admitted input e.precondition ≡ true → IsServed p input e.schedule }
{}

/// And so does the entry of given turns.
pub fn an_entry_of_turns_serves_what_it_admits()
    ensures good { (p : NumberedProgram) (own input : List ℤ) (turns : List Turn) (gated : List InstrId) (e : EntryParts)
        → CanRun p own → IsEntryOfTurns p own turns gated e → length input < 2 ^ 64 → is_admitted input e.precondition ≡ true → IsGoodRun p input e.schedule }
    ensures served { (p : NumberedProgram) (own input : List ℤ) (turns : List Turn) (gated : List InstrId) (e : EntryParts)
        → CanRun p own → IsEntryOfTurns p own turns gated e → length input < 2 ^ 64 → is_admitted input e.precondition ≡ true → IsServed p input e.schedule }
{}
