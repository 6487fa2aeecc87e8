//! The first steps of a run in which two threads each sum the input. The premise of each law is that its shared steps begin with those that are
//! written out.

ghost use Rattle.std.specs.Prelude.{◌≡◌, ◌+◌, false, true};
ghost use Rattle.pg_num.specs.declared.layout.TheConstants.{MEMORY_BYTES};
ghost use Rattle.pg_seats.specs.Rule.{over};
ghost use Rattle.pg_seats.specs.Views.{is_due, may_advance, may_hear, may_load, may_put, may_say, may_store, needed, next_of, number_there, word_there};
ghost use Rattle.pg_seats.specs.declared.run.Run.{Run};
ghost use Rattle.pg_law_seats.specs.Cuts.{due_seat, seat, standing};
ghost use Rattle.pg_law_seats.specs.Sums.{BeginsSums, own_byte};

/// The second create is due where main has done two turns. With one of its two parts done, it has left the argument of thread 2, and the
/// number of that thread isn't stored yet.
pub fn the_second_create_has_two_parts()
    ensures due { (r : Run) → BeginsSums r → is_due (standing r 0 2) 2 ≡ true }
    ensures due_before { (r : Run) → BeginsSums r → is_due (standing r 0 2) 1 ≡ false }
    ensures needs { (r : Run) → BeginsSums r → needed (next_of (standing r 0 2)) ≡ 2 }
    ensures argument { (r : Run) → BeginsSums r → may_say (due_seat r 0 2 0) 2 0 ≡ true }
    ensures first_thread { (r : Run) → BeginsSums r → may_say (due_seat r 0 2 0) 1 0 ≡ false }
    ensures number { (r : Run) → BeginsSums r → may_put (due_seat r 0 2 1) (record { start = 64; bytes = 8 }) 2 ≡ true }
    ensures number_later { (r : Run) → BeginsSums r → may_put (due_seat r 0 2 0) (record { start = 64; bytes = 8 }) 2 ≡ false }
    ensures end_later { (r : Run) → BeginsSums r → may_advance (due_seat r 0 2 1) ≡ false }
    ensures end { (r : Run) → BeginsSums r → may_advance (due_seat r 0 2 2) ≡ true }
    ensures over_argument { (r : Run) → BeginsSums r → over (next_of (standing r 0 2)) 1 (MEMORY_BYTES + 2) 9 ≡ 0 }
    ensures over_number_later { (r : Run) → BeginsSums r → over (next_of (standing r 0 2)) 1 64 9 ≡ 9 }
    ensures over_number { (r : Run) → BeginsSums r → over (next_of (standing r 0 2)) 2 64 9 ≡ 2 }
{}

/// The first thread starts as turn 3, with the argument that its create left; its stores in its own memory are no turns.
pub fn the_first_thread_begins()
    ensures due { (r : Run) → BeginsSums r → is_due (standing r 1 0) 3 ≡ true }
    ensures due_before { (r : Run) → BeginsSums r → is_due (standing r 1 0) 2 ≡ false }
    ensures hears { (r : Run) → BeginsSums r → may_hear (due_seat r 1 0 0) 1 ≡ true }
    ensures argument { (r : Run) → BeginsSums r → word_there (seat r 1 0) 1 ≡ 0 }
    ensures sum { (r : Run) → BeginsSums r → may_store (seat r 1 1) (record { start = own_byte; bytes = 8 }) 0 ≡ true }
    ensures count { (r : Run) → BeginsSums r → may_store (seat r 1 2) (record { start = own_byte + 8; bytes = 8 }) 0 ≡ true }
    ensures load { (r : Run) → BeginsSums r → may_load (seat r 1 3) (record { start = own_byte + 8; bytes = 8 }) ≡ true }
    ensures finds { (r : Run) → BeginsSums r → number_there (seat r 1 3) (record { start = own_byte + 8; bytes = 8 }) ≡ 0 }
    ensures names { (r : Run) → BeginsSums r → number_there (seat r 1 3) (record { start = 64; bytes = 8 }) ≡ 2 }
{}
