//! Turns: the read of the turn word, the words of threads that a turn leaves or reads, and the end of a turn.

ghost use Rattle.std.specs.Prelude.{◌≡◌, ◌<◌, ◌≤◌, ℕ, true};
ghost use Rattle.pg_law_course.specs.pg_num.declared.limits.TheConstants.{THREAD_LIMIT};
ghost use Rattle.pg_seats.specs.Views.{IsAhead, IsNow, advanced, looked, may_advance, may_hear, may_look, may_say, seen_of, with_part, word_there};

use crate::rule::{Advances, Hears, Looks, Place, Puts, RunWords};
use pg_law_course::pg_ir::ThreadNo;

/// The number of turns that are done: no less than the seat knew of, no more than the run has, and no more than those before the
/// thread's next turn.
#[tactic(auto, using(crate::proofs::Loads::looks))]
pub fn look(words: &RunWords, seat: &mut Place) -> u64
    requires own { seat.old.table_id ≡ words.now.table.shared.table_id }
    requires view { may_look seat.old.me.0 ≡ true }
    ensures own { (seat.new.table_id ≡ seat.old.table_id) × (seat.new.id ≡ seat.old.id) }
    ensures view { seat.new.me ≡ (looked seat.old.me.0 result, seat.old.me.1) }
    ensures low { seen_of seat.old.me.0 ≤ result }
    ensures high { IsAhead seat.old.me.0 result }
{
    words.turn::<Looks>(seat)
}

/// Leaves the word of the turn that is due: the argument of the thread that a create makes, or the value of an exit.
#[tactic(auto, using(crate::proofs::TurnParts::says_keep))]
pub fn put_word(words: &RunWords, seat: &mut Place, thread: ThreadNo, number: u64)
    requires own { seat.old.table_id ≡ words.now.table.shared.table_id }
    requires inside { thread.0 < THREAD_LIMIT }
    requires next { may_say seat.old.me.0 thread.0 number ≡ true }
    ensures own { (seat.new.table_id ≡ seat.old.table_id) × (seat.new.id ≡ seat.old.id) }
    ensures view { seat.new.me ≡ (with_part seat.old.me.0, seat.old.me.1) }
{
    words.put_exit::<Puts>(seat, thread, number);
}

/// The word that the turn that is due reads, as the run has it: the argument of a start, or the value of a thread that is joined.
#[tactic(auto, using(crate::proofs::TurnParts::hears))]
pub fn get_word(words: &RunWords, seat: &mut Place, thread: ThreadNo) -> u64
    requires own { seat.old.table_id ≡ words.now.table.shared.table_id }
    requires inside { thread.0 < THREAD_LIMIT }
    requires next { may_hear seat.old.me.0 thread.0 ≡ true }
    ensures own { (seat.new.table_id ≡ seat.old.table_id) × (seat.new.id ≡ seat.old.id) }
    ensures view { seat.new.me ≡ seat.old.me }
    ensures value { result ≡ word_there seat.old.me.0 thread.0 }
{
    words.get_exit::<Hears>(seat, thread)
}

/// Ends the turn that is due, all parts of which are done.
#[tactic(auto, using(crate::proofs::TurnParts::advances))]
pub fn advance(words: &RunWords, seat: &mut Place)
    requires own { seat.old.table_id ≡ words.now.table.shared.table_id }
    requires next { may_advance seat.old.me.0 ≡ true }
    ensures own { (seat.new.table_id ≡ seat.old.table_id) × (seat.new.id ≡ seat.old.id) }
    ensures view { (n : ℕ) × (seat.new.me ≡ (advanced seat.old.me.0 n, seat.old.me.1)) × IsNow seat.old.me.0 n }
{
    words.advance::<Advances>(seat);
}
