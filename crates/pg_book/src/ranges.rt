//! What the types of a book's numbers say of them.

ghost use Rattle.std.specs.Prelude.{All, ◌<◌, ◌^◌};
ghost use Rattle.pg_book.specs.Books.{HasRanges, IsIdInRange, IsSigned, IsTurnInRange};
ghost use Rattle.pg_book.specs.Parts.{parts_of};

use crate::book::BookEntry;
use pg_ir::InstrId;
use pg_run_trace::Turn;

fn id_is_ranged(id: InstrId)
    ensures { IsIdInRange id }
{
    // Read for the proof: see docs/CONTRIBUTING.md.
    let _number = id.0;
}

fn turn_is_ranged(turn: Turn)
    ensures { IsTurnInRange turn }
{
    // Read for the proof: see docs/CONTRIBUTING.md.
    let _number = turn.instr.0;
    let _object = turn.object;
}

/// A value with numbers.
trait Ranged {
    // Its numbers are within the ranges of their types.
    ghost range: { Self → Type 0 };

    fn is_ranged(&self)
        ensures { range self.now };
}

impl Ranged for i64 {
    ghost range = { IsSigned };

    fn is_ranged(&self) {
        // Read for the proof: see docs/CONTRIBUTING.md.
        let _number = *self;
    }
}

impl Ranged for InstrId {
    ghost range = { IsIdInRange };

    fn is_ranged(&self) {
        id_is_ranged(*self);
    }
}

impl Ranged for Turn {
    ghost range = { IsTurnInRange };

    fn is_ranged(&self) {
        turn_is_ranged(*self);
    }
}

/// The numbers of each value are within the ranges of their types.
fn are_ranged<T: Ranged>(items: &[T])
    ensures { All T.range items.now }
{
    for place in 0..items.len() {
        items[place].is_ranged();
    }
}

impl Ranged for BookEntry {
    ghost range = { λ e. HasRanges (parts_of e) };

    fn is_ranged(&self) {
        are_ranged(self.input.as_slice());
        are_ranged(self.turns.as_slice());
        are_ranged(self.gated.as_slice());
    }
}

/// The numbers of each entry are within the ranges of their types.
pub(crate) fn entries_are_ranged(entries: &[BookEntry])
    ensures { All (λ e. HasRanges (parts_of e)) entries.now }
{
    are_ranged(entries);
}
