//! What holds of program texts and of the runs of `once`: each law is the clause of a function that does nothing.

ghost use Rattle.std.specs.Prelude.{◌≡◌, ◌⊎◌, ◌<◌, ◌^◌, ℕ, ℤ, All, List, length};
ghost use Rattle.pg_ir.specs.Program.{NumberedProgram};
ghost use Rattle.pg_session_book.specs.pg_run_trace.Races.{schedule_of};
ghost use Rattle.pg_session_book.specs.pg_run.Rotation.{rotation_of};
ghost use Rattle.pg_session_book.specs.pg_law_runs.Cuts.{CanRun};
ghost use Rattle.pg_commands.specs.declared.refusals.TextRefusal.{TextRefusal};
ghost use Rattle.pg_commands.specs.Refusals.{IsRefused, IsRefusedFor, refusal_name, refusal_place};
ghost use Rattle.pg_commands.specs.Texts.{IsAccepted, run_along};

use pg_check::pg_law_numbering::laws::an_accepted_module_is_a_program;
use pg_session_book::pg_law_order::recorded::the_schedule_of_a_rotation_run_is_good;
use pg_session_book::pg_run::guided_laws::{
    a_guided_run_is_a_run, a_guided_run_that_exits_is_full,
};
use pg_session_book::pg_run::{GuidedEnd, Outcome};

/// A text is accepted or refused, and not both.
pub fn a_text_is_accepted_or_refused()
    ensures some { (text : List ℕ) → ((p : NumberedProgram) × IsAccepted text p) ⊎ IsRefused text }
    ensures apart { (text : List ℕ) (p : NumberedProgram) → IsAccepted text p → IsRefused text → ⊥ }
{}

/// An accepted text has one program.
pub fn an_accepted_text_has_one_program()
    ensures { (text : List ℕ) (p q : NumberedProgram) → IsAccepted text p → IsAccepted text q → p ≡ q }
{}

/// A text is refused by one name, and at one place.
pub fn a_text_is_refused_in_one_way()
    ensures name { (text : List ℕ) (r s : TextRefusal) → IsRefusedFor text r → IsRefusedFor text s →
        refusal_name r ≡ refusal_name s }
    ensures place { (text : List ℕ) (r s : TextRefusal) → IsRefusedFor text r → IsRefusedFor text s →
        refusal_place r ≡ refusal_place s }
{}

/// The program of an accepted text of bytes can run on an input whose length has 64 bits: it is a program, and its
/// globals begin with bytes.
pub fn an_accepted_program_can_run()
    ensures { (text : List ℕ) (p : NumberedProgram) (input : List ℤ) → All (λ b. b < 256) text → IsAccepted text p → length input < 2 ^ 64 → CanRun p input }
{
    an_accepted_module_is_a_program();
}

/// Where the rotation run exits, the guided run along the schedule of its steps doesn't stray: it exits with the same
/// value, prints the same, and does all turns of the schedule.
pub fn the_guided_run_of_once_exits()
    ensures end { (p : NumberedProgram) (input : List ℤ) (quantum : ℕ) (value : ℤ) → CanRun p input → (rotation_of p input quantum).end ≡ Outcome.Exit value
        → (run_along p input (rotation_of p input quantum).trace).end ≡ GuidedEnd.Exit value }
    ensures printed { (p : NumberedProgram) (input : List ℤ) (quantum : ℕ) (value : ℤ) → CanRun p input → (rotation_of p input quantum).end ≡ Outcome.Exit value
        → (run_along p input (rotation_of p input quantum).trace).state.printed ≡ (rotation_of p input quantum).state.printed }
    ensures turns { (p : NumberedProgram) (input : List ℤ) (quantum : ℕ) (value : ℤ) → CanRun p input → (rotation_of p input quantum).end ≡ Outcome.Exit value
        → (run_along p input (rotation_of p input quantum).trace).turns ≡ length (schedule_of (rotation_of p input quantum).trace).turns }
{
    the_schedule_of_a_rotation_run_is_good();
    a_guided_run_that_exits_is_full();
    a_guided_run_is_a_run();
}
