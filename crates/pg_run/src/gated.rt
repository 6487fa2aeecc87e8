//! The set of loads and stores that are events.

ghost use Rattle.std.specs.Prelude.{◌≡◌, ◌<◌, ℕ, [], length, slice_get, slice_set, true, Some, IfOk};
ghost use Rattle.pg_run.specs.MachineStep.{is_gated};

use pg_run_trace::pg_ir::{InstrId, Program};
use std::alloc::{AllocError, Global};
use std::marker::Model;

/// The loads and stores that are events, with a mark for each instruction of a program that is among
/// them.
#[derive(Drop)]
pub struct Gated {
    ids: Vec<InstrId>,
    marks: Vec<bool>,
}

impl Model for Gated {
    ghost use Rattle.std.specs.Prelude.{◌≡◌, ◌<◌, ℕ, List, length, slice_get, Some};
    ghost use Rattle.pg_run_trace.specs.pg_ir.declared.ids.InstrId.{InstrId};
    ghost use Rattle.pg_run.specs.MachineStep.{is_gated};

    ghost Value = { List InstrId };

    ghost view = { λ g. g.ids.items };

    ghost invariant = { λ g. (i : ℕ) → i < length g.marks.items → slice_get g.marks.items i ≡ Some (is_gated g.ids.items i) };
}

/// The items of a slice as a list.
pub(crate) fn listed<T: Copy + Drop>(alloc: Global, items: &[T]) -> Result<Vec<T>, AllocError>
    ensures { IfOk result (λ v. v.items ≡ items.now) }
{
    let mut list = Vec::new(alloc);
    list.extend_from_slice(items)?;
    Ok(list)
}

/// Marks an instruction, if there is a mark for it.
#[tactic(auto, using(crate::proofs::GatedMarks::set_past))]
fn mark(marks: &mut Vec<bool>, id: InstrId)
    ensures { marks.new.items ≡ slice_set marks.old.items id.0 true }
{
    let index = id.0 as usize;
    if index < marks.len() {
        marks[index] = true;
    }
}

/// A mark for each number below `count` that is among these.
#[tactic(auto, using(crate::proofs::GatedMarks::no_marks, crate::proofs::GatedMarks::all_marks))]
fn marked(alloc: Global, count: usize, ids: &[InstrId]) -> Result<Vec<bool>, AllocError>
    ensures { IfOk result (λ v. (i : ℕ) → i < length v.items → slice_get v.items i ≡ Some (is_gated ids.now i)) }
{
    let mut marks = vec![in alloc; false; count]?;
    for id in ids {
        mark(&mut marks, *id);
    }
    Ok(marks)
}

impl Gated {
    /// These instructions of a program.
    ///
    /// # Errors
    ///
    /// Where no memory is left for it.
    pub fn new(alloc: Global, p: &Program, ids: &[InstrId]) -> Result<Gated, AllocError>
        ensures gated { IfOk result (λ g. g ≡ ids.now) }
    {
        Ok(Gated {
            ids: listed(alloc, ids)?,
            marks: marked(alloc, p.instr_count() as usize, ids)?,
        })
    }

    /// No instructions.
    pub fn none(alloc: Global) -> Gated
        ensures gated { result ≡ [] }
    {
        Gated {
            ids: Vec::new(alloc),
            marks: Vec::new(alloc),
        }
    }

    /// Whether an instruction is among them, so that its loads and stores are events.
    pub fn has(&self, id: InstrId) -> bool
        ensures gated { result ≡ is_gated self.now id.0 }
    {
        match self.marks.get(id.0 as usize) {
            Some(&is_marked) => is_marked,
            None => is_among(self.ids.as_slice(), id),
        }
    }
}

/// Whether an instruction is among these, so that its loads and stores are events.
pub fn is_among(ids: &[InstrId], id: InstrId) -> bool
    ensures { result ≡ is_gated ids.now id.0 }
{
    ids.iter().any(|g| g.0 == id.0)
}
