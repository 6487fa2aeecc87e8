//! Loads and stores of a thread: plain ones, which are done by their one step, and those of a turn that is due.

ghost use Rattle.std.specs.Prelude.{◌≡◌, ◌*◌, ◌<◌, ◌^◌, true};
ghost use Rattle.pg_seats.specs.Views.{may_load, may_put, may_read, may_store, number_there, went_on, with_part};

use crate::rule::{Finds, Loads, Place, Puts, Reads, RunWords, Stores};
use pg_law_course::pg_num::Place as Range;

/// The next shared step of the thread, a plain load: gives the number that the run has there.
#[tactic(auto, using(crate::proofs::Loads::loads))]
pub fn load(words: &RunWords, seat: &mut Place, at: Range) -> u64
    requires own { seat.old.table_id ≡ words.now.table.shared.table_id }
    requires next { may_load seat.old.me.0 at ≡ true }
    ensures own { (seat.new.table_id ≡ seat.old.table_id) × (seat.new.id ≡ seat.old.id) }
    ensures view { seat.new.me ≡ (went_on seat.old.me.0, seat.old.me.1) }
    ensures value { result ≡ number_there seat.old.me.0 at }
{
    // Called for the proof: see docs/CONTRIBUTING.md.
    let _start = at.start();
    words.load::<Loads>(seat, at)
}

/// The load of the turn that is due: gives the number that the run has there.
#[tactic(auto, using(crate::proofs::Loads::reads))]
pub fn load_due(words: &RunWords, seat: &mut Place, at: Range) -> u64
    requires own { seat.old.table_id ≡ words.now.table.shared.table_id }
    requires next { may_read seat.old.me.0 at ≡ true }
    ensures own { (seat.new.table_id ≡ seat.old.table_id) × (seat.new.id ≡ seat.old.id) }
    ensures view { seat.new.me ≡ seat.old.me }
    ensures value { result ≡ number_there seat.old.me.0 at }
{
    // Called for the proof: see docs/CONTRIBUTING.md.
    let _start = at.start();
    words.load::<Reads>(seat, at)
}

/// The next shared step of the thread, a plain store.
#[tactic(auto, using(crate::proofs::Stores::stores))]
pub fn store(words: &RunWords, seat: &mut Place, at: Range, number: u64)
    requires own { seat.old.table_id ≡ words.now.table.shared.table_id }
    requires small { number < 2 ^ (8 * at.bytes) }
    requires next { may_store seat.old.me.0 at number ≡ true }
    ensures own { (seat.new.table_id ≡ seat.old.table_id) × (seat.new.id ≡ seat.old.id) }
    ensures view { seat.new.me ≡ (went_on seat.old.me.0, seat.old.me.1) }
{
    // Called for the proof: see docs/CONTRIBUTING.md.
    let _start = at.start();
    if at.bytes() == 8 {
        words.store::<Stores>(seat, at, number);
    } else {
        words.store_part::<Finds, Stores>(seat, at, number);
    }
}

/// The store of the turn that is due, behind the word that the turn leaves.
#[tactic(auto, using(crate::proofs::Stores::puts))]
pub fn store_due(words: &RunWords, seat: &mut Place, at: Range, number: u64)
    requires own { seat.old.table_id ≡ words.now.table.shared.table_id }
    requires small { number < 2 ^ (8 * at.bytes) }
    requires next { may_put seat.old.me.0 at number ≡ true }
    ensures own { (seat.new.table_id ≡ seat.old.table_id) × (seat.new.id ≡ seat.old.id) }
    ensures view { seat.new.me ≡ (with_part seat.old.me.0, seat.old.me.1) }
{
    // Called for the proof: see docs/CONTRIBUTING.md.
    let _start = at.start();
    if at.bytes() == 8 {
        words.store::<Puts>(seat, at, number);
    } else {
        words.store_part::<Finds, Puts>(seat, at, number);
    }
}
