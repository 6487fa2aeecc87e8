//! A run in which a thread stores at the upper half of a number and main at the lower one. The premise of each law is that its shared steps
//! are those that are written out.

ghost use Rattle.std.specs.Prelude.{◌≡◌, ◌+◌, ◌∷◌, [], ℕ, None, false, true};
ghost use Rattle.pg_num.specs.declared.layout.TheConstants.{MEMORY_BYTES};
ghost use Rattle.pg_seats.specs.Rule.{over};
ghost use Rattle.pg_seats.specs.Views.{is_due, may_advance, may_hear, may_load, may_put, may_read, may_say, may_store, needed, next_of, number_there, word_there};
ghost use Rattle.pg_seats.specs.declared.run.Run.{Run};
ghost use Rattle.pg_law_seats.specs.Cuts.{StandsAt, due_seat, seat, standing, words_of};
ghost use Rattle.pg_law_seats.specs.Halves.{IsHalves, both, cells};

/// A thread's next shared step is due where it is a turn and all turns before it are done: main's start, the create, the thread's start and
/// its exit, main's join; a store or a load that is no turn never is.
pub fn turns_are_due_in_order()
    ensures main_start { (r : Run) → IsHalves r → is_due (standing r 0 0) 0 ≡ true }
    ensures create { (r : Run) → IsHalves r → is_due (standing r 0 1) 1 ≡ true }
    ensures create_before { (r : Run) → IsHalves r → is_due (standing r 0 1) 0 ≡ false }
    ensures start { (r : Run) → IsHalves r → is_due (standing r 1 0) 2 ≡ true }
    ensures start_before { (r : Run) → IsHalves r → is_due (standing r 1 0) 1 ≡ false }
    ensures exit { (r : Run) → IsHalves r → is_due (standing r 1 2) 3 ≡ true }
    ensures join_before { (r : Run) → IsHalves r → is_due (standing r 0 4) 3 ≡ false }
    ensures join { (r : Run) → IsHalves r → is_due (standing r 0 4) 4 ≡ true }
    ensures store { (r : Run) → IsHalves r → (turns : ℕ) → is_due (standing r 0 2) turns ≡ false }
    ensures behind { (r : Run) → IsHalves r → next_of (standing r 1 3) ≡ None }
{}

/// The create has two parts: first the new thread's argument, then the store of its number. Then the turn may end.
pub fn a_create_has_two_parts()
    ensures needs { (r : Run) → IsHalves r → needed (next_of (standing r 0 1)) ≡ 2 }
    ensures argument { (r : Run) → IsHalves r → may_say (due_seat r 0 1 0) 1 0 ≡ true }
    ensures argument_once { (r : Run) → IsHalves r → may_say (due_seat r 0 1 1) 1 0 ≡ false }
    ensures other_argument { (r : Run) → IsHalves r → may_say (due_seat r 0 1 0) 1 9 ≡ false }
    ensures other_thread { (r : Run) → IsHalves r → may_say (due_seat r 0 1 0) 2 0 ≡ false }
    ensures number_later { (r : Run) → IsHalves r → may_put (due_seat r 0 1 0) (record { start = 16; bytes = 8 }) 1 ≡ false }
    ensures number { (r : Run) → IsHalves r → may_put (due_seat r 0 1 1) (record { start = 16; bytes = 8 }) 1 ≡ true }
    ensures not_due { (r : Run) → IsHalves r → may_say (seat r 0 1) 1 0 ≡ false }
    ensures end_later { (r : Run) → IsHalves r → may_advance (due_seat r 0 1 1) ≡ false }
    ensures end { (r : Run) → IsHalves r → may_advance (due_seat r 0 1 2) ≡ true }
{}

/// With its first part done, the create has left the argument, and the number isn't stored yet.
pub fn parts_lie_over_memory()
    ensures none { (r : Run) → IsHalves r → over (next_of (standing r 0 1)) 0 (MEMORY_BYTES + 1) 9 ≡ 9 }
    ensures argument { (r : Run) → IsHalves r → over (next_of (standing r 0 1)) 1 (MEMORY_BYTES + 1) 9 ≡ 0 }
    ensures number_later { (r : Run) → IsHalves r → over (next_of (standing r 0 1)) 1 16 9 ≡ 9 }
    ensures number { (r : Run) → IsHalves r → over (next_of (standing r 0 1)) 2 16 9 ≡ 1 }
    ensures beside { (r : Run) → IsHalves r → over (next_of (standing r 0 1)) 2 24 9 ≡ 9 }
{}

/// Each half is stored by its own thread, as a part of the granule, at once.
pub fn halves_are_stored_apart()
    ensures lower { (r : Run) → IsHalves r → may_store (seat r 0 2) (record { start = 8; bytes = 4 }) 5 ≡ true }
    ensures upper { (r : Run) → IsHalves r → may_store (seat r 1 1) (record { start = 12; bytes = 4 }) 7 ≡ true }
    ensures not_whole { (r : Run) → IsHalves r → may_store (seat r 0 2) (record { start = 8; bytes = 8 }) 5 ≡ false }
    ensures not_other { (r : Run) → IsHalves r → may_store (seat r 0 2) (record { start = 8; bytes = 4 }) 6 ≡ false }
    ensures not_here { (r : Run) → IsHalves r → may_store (seat r 0 2) (record { start = 12; bytes = 4 }) 5 ≡ false }
    ensures no_turn { (r : Run) → IsHalves r → may_put (due_seat r 0 2 0) (record { start = 8; bytes = 4 }) 6 ≡ false }
{}

/// Main's plain load behind the join finds the other thread's half beside its own, and the load before it the number of the thread that it
/// made.
pub fn a_load_finds_the_neighbours_store()
    ensures may { (r : Run) → IsHalves r → may_load (seat r 0 5) (record { start = 8; bytes = 8 }) ≡ true }
    ensures finds { (r : Run) → IsHalves r → number_there (seat r 0 5) (record { start = 8; bytes = 8 }) ≡ both }
    ensures upper { (r : Run) → IsHalves r → number_there (seat r 0 5) (record { start = 12; bytes = 4 }) ≡ 7 }
    ensures not_before { (r : Run) → IsHalves r → may_load (seat r 0 4) (record { start = 8; bytes = 8 }) ≡ false }
    ensures name { (r : Run) → IsHalves r → number_there (seat r 0 3) (record { start = 16; bytes = 8 }) ≡ 1 }
    ensures no_turn { (r : Run) → IsHalves r → may_read (due_seat r 0 5 0) (record { start = 8; bytes = 4 }) ≡ false }
{}

/// A start reads its thread's argument, and a join without a place no word.
pub fn a_start_finds_its_argument()
    ensures may { (r : Run) → IsHalves r → may_hear (due_seat r 1 0 0) 1 ≡ true }
    ensures finds { (r : Run) → IsHalves r → word_there (seat r 1 0) 1 ≡ 0 }
    ensures not_other { (r : Run) → IsHalves r → may_hear (due_seat r 1 0 0) 0 ≡ false }
    ensures join { (r : Run) → IsHalves r → may_hear (due_seat r 0 4 0) 1 ≡ false }
{}

/// What the words hold at cuts of the run: at its begin; where the create is due and its argument is left; where its number is stored too; where
/// main has stored its half and the thread hasn't started; where only the thread has stored its half; where both have; and at the end.
pub fn words_stand_at_cuts()
    ensures begin { (r : Run) → IsHalves r → StandsAt r 0 0 0 0 0 (words_of 0 0 0 (0 ∷ 0 ∷ [])) cells }
    ensures argument { (r : Run) → IsHalves r → StandsAt r 1 1 0 0 1 (words_of 1 0 0 (0 ∷ 0 ∷ [])) cells }
    ensures number { (r : Run) → IsHalves r → StandsAt r 1 1 0 0 2 (words_of 1 0 0 (0 ∷ 1 ∷ [])) cells }
    ensures lower { (r : Run) → IsHalves r → StandsAt r 2 3 0 0 0 (words_of 2 0 0 (5 ∷ 1 ∷ [])) cells }
    ensures upper { (r : Run) → IsHalves r → StandsAt r 3 2 2 0 0 (words_of 3 0 0 (30064771072 ∷ 1 ∷ [])) cells }
    ensures both { (r : Run) → IsHalves r → StandsAt r 3 3 2 0 0 (words_of 3 0 0 (both ∷ 1 ∷ [])) cells }
    ensures end { (r : Run) → IsHalves r → StandsAt r 7 8 3 0 0 (words_of 7 0 0 (both ∷ 1 ∷ [])) cells }
{}
