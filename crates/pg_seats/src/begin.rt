//! Words at rest, and made ready for a run: the run is named, what memory begins with is laid, and the seats of threads may be split off.

ghost use Rattle.std.specs.Prelude.{◌≡◌, ◌/◌, [], IfOk, true};
ghost use Rattle.pg_seats.specs.Plan.{IsEnforced, run_of};
ghost use Rattle.pg_seats.specs.Views.{MayLay, MayOpen, epoch_of, laid, may_begin, pooled};
ghost use Rattle.pg_seats.specs.declared.run.View.TheVariants.{Idle, Laying};

use crate::rule::{Begins, Lays, Named, Opens, Place, RunWords};
use pg_law_course::pg_ir::Program;
use pg_law_course::pg_num::Place as Range;
use pg_law_course::pg_run_trace::Schedule;
use std::alloc::{AllocError, Global};
use std::marker::Brand;

/// Words at rest, and their one seat.
#[tactic(auto, using(crate::proofs::Begins::at_rest))]
pub fn new(alloc: Global) -> Result<(RunWords, Place), AllocError>
    ensures { IfOk result (λ t. (t.1.table_id ≡ t.0.table.shared.table_id) × (t.1.me ≡ (Idle 0, []))) }
{
    RunWords::new(alloc, &())
}

#[tactic(auto, using(crate::proofs::Begins::begins))]
fn begin_named<J: Named>(words: &RunWords, seat: &mut Place)
    requires own { seat.old.table_id ≡ words.now.table.shared.table_id }
    requires enforced { IsEnforced J.run }
    requires idle { may_begin seat.old.me.0 ≡ true }
    requires epoch { epoch_of seat.old.me.0 ≡ J.run.epoch }
    ensures own { (seat.new.table_id ≡ seat.old.table_id) × (seat.new.id ≡ seat.old.id) }
    ensures view { seat.new.me ≡ (Laying J.run 0, seat.old.me.1) }
{
    words.turn::<Begins<J>>(seat);
}

fn begin_as<J: Named>(
    words: &RunWords,
    seat: &mut Place,
    program: &Program,
    schedule: &Schedule,
    input: &[i64],
)
    requires named { J.run ≡ run_of program.now schedule.now input.now (epoch_of seat.old.me.0) }
    requires own { seat.old.table_id ≡ words.now.table.shared.table_id }
    requires enforced { IsEnforced (run_of program.now schedule.now input.now (epoch_of seat.old.me.0)) }
    requires idle { may_begin seat.old.me.0 ≡ true }
    ensures own { (seat.new.table_id ≡ seat.old.table_id) × (seat.new.id ≡ seat.old.id) }
    ensures view { seat.new.me ≡ (Laying (run_of program.now schedule.now input.now (epoch_of seat.old.me.0)) 0, seat.old.me.1) }
{
    begin_named::<J>(words, seat);
}

/// The words are taken for this run.
pub fn begin(
    words: &RunWords,
    seat: &mut Place,
    program: &Program,
    schedule: &Schedule,
    input: &[i64],
)
    requires own { seat.old.table_id ≡ words.now.table.shared.table_id }
    requires enforced { IsEnforced (run_of program.now schedule.now input.now (epoch_of seat.old.me.0)) }
    requires idle { may_begin seat.old.me.0 ≡ true }
    ensures own { (seat.new.table_id ≡ seat.old.table_id) × (seat.new.id ≡ seat.old.id) }
    ensures view { seat.new.me ≡ (Laying (run_of program.now schedule.now input.now (epoch_of seat.old.me.0)) 0, seat.old.me.1) }
{
    begin_as::<Brand>(words, seat, program, schedule, input);
}

/// Lays a granule that memory begins with, where all between it and the last that was laid begin with zeros.
#[tactic(auto, using(crate::proofs::Begins::lays))]
pub fn lay(words: &RunWords, seat: &mut Place, granule: Range, word: u64)
    requires own { seat.old.table_id ≡ words.now.table.shared.table_id }
    requires whole { granule.bytes ≡ 8 }
    requires next { MayLay seat.old.me.0 (granule.start / 8) word }
    ensures own { (seat.new.table_id ≡ seat.old.table_id) × (seat.new.id ≡ seat.old.id) }
    ensures view { seat.new.me ≡ (laid seat.old.me.0 (granule.start / 8), seat.old.me.1) }
{
    // Called for the proof: see docs/CONTRIBUTING.md.
    let _granule = granule.granule();
    words.store::<Lays>(seat, granule, word);
}

/// All that memory begins with is laid: the seats of threads may be split off.
#[tactic(auto, using(crate::proofs::Begins::opens))]
pub fn open(words: &RunWords, seat: &mut Place)
    requires own { seat.old.table_id ≡ words.now.table.shared.table_id }
    requires next { MayOpen seat.old.me.0 }
    ensures own { (seat.new.table_id ≡ seat.old.table_id) × (seat.new.id ≡ seat.old.id) }
    ensures view { seat.new.me ≡ (pooled seat.old.me.0, seat.old.me.1) }
{
    words.turn::<Opens>(seat);
}
