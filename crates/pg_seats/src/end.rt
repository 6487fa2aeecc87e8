//! The end of a run: the seats of its threads are taken back, and the words that it wrote become 0 again, so that they serve the next.

ghost use Rattle.std.specs.Prelude.{◌≡◌, ◌<◌, ◌/◌, [], true};
ghost use Rattle.pg_law_course.specs.pg_num.declared.limits.TheConstants.{THREAD_LIMIT};
ghost use Rattle.pg_words.specs.Calls.{granule_word, thread_word};
ghost use Rattle.pg_seats.specs.Views.{MayRest, MayWipe, closed, gathered, may_clear, may_close, may_gather, rested, swept};

use crate::rule::{Closes, Gathers, Place, Rests, RunWords, Wipes};
use pg_law_course::pg_ir::ThreadNo;
use pg_law_course::pg_num::Place as Range;

/// Takes back the seat of the first thread that has one.
#[tactic(auto, using(crate::proofs::SeatSteps::gathers))]
pub fn gather(words: &RunWords, pool: &mut Place, seat: Place)
    requires own { (pool.old.table_id ≡ words.now.table.shared.table_id) × (seat.table_id ≡ words.now.table.shared.table_id) }
    requires bare { seat.me.1 ≡ [] }
    requires view { may_gather pool.old.me.0 seat.me.0 ≡ true }
    ensures own { (pool.new.table_id ≡ pool.old.table_id) × (pool.new.id ≡ pool.old.id) }
    ensures view { pool.new.me ≡ (gathered pool.old.me.0 seat.me.0, pool.old.me.1) }
{
    words.join::<Gathers>(pool, seat);
}

/// Ends the run: all seats are back, and the turn word is 0 again.
#[tactic(auto, using(crate::proofs::Ends::closes))]
pub fn close(words: &RunWords, pool: &mut Place)
    requires own { pool.old.table_id ≡ words.now.table.shared.table_id }
    requires view { may_close pool.old.me.0 ≡ true }
    ensures own { (pool.new.table_id ≡ pool.old.table_id) × (pool.new.id ≡ pool.old.id) }
    ensures view { pool.new.me ≡ (closed pool.old.me.0, pool.old.me.1) }
{
    words.clear_turn::<Closes>(pool);
}

/// Makes the word of a thread 0 again, one thread after another.
#[tactic(auto, using(crate::proofs::Ends::clears))]
pub fn clear_word(words: &RunWords, pool: &mut Place, thread: ThreadNo)
    requires own { pool.old.table_id ≡ words.now.table.shared.table_id }
    requires inside { thread.0 < THREAD_LIMIT }
    requires view { may_clear pool.old.me.0 thread.0 ≡ true }
    ensures own { (pool.new.table_id ≡ pool.old.table_id) × (pool.new.id ≡ pool.old.id) }
    ensures view { pool.new.me ≡ (swept pool.old.me.0 (thread_word thread.0), pool.old.me.1) }
{
    words.put_exit::<Wipes>(pool, thread, 0);
}

/// Makes a granule 0 again, where all between it and the last one are clean.
#[tactic(auto, using(crate::proofs::Ends::wipes))]
pub fn wipe(words: &RunWords, pool: &mut Place, granule: Range)
    requires own { pool.old.table_id ≡ words.now.table.shared.table_id }
    requires whole { granule.bytes ≡ 8 }
    requires next { MayWipe pool.old.me.0 (granule.start / 8) }
    ensures own { (pool.new.table_id ≡ pool.old.table_id) × (pool.new.id ≡ pool.old.id) }
    ensures view { pool.new.me ≡ (swept pool.old.me.0 (granule_word granule), pool.old.me.1) }
{
    // Called for the proof: see docs/CONTRIBUTING.md.
    let _granule = granule.granule();
    words.store::<Wipes>(pool, granule, 0);
}

/// All words are 0 again: the next run may begin.
#[tactic(auto, using(crate::proofs::Ends::rests))]
pub fn rest(words: &RunWords, pool: &mut Place)
    requires own { pool.old.table_id ≡ words.now.table.shared.table_id }
    requires next { MayRest pool.old.me.0 }
    ensures own { (pool.new.table_id ≡ pool.old.table_id) × (pool.new.id ≡ pool.old.id) }
    ensures view { pool.new.me ≡ (rested pool.old.me.0, pool.old.me.1) }
{
    words.turn::<Rests>(pool);
}
