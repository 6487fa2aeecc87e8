//! Traces: the steps of a run in their order.

ghost use Rattle.std.specs.Prelude.{◌≡◌, ◌<◌, ◌-◌, ◌++◌, ◌∷◌, [], ℕ, List, length, slice_get, Some, IfOk};
ghost use Rattle.pg_run_trace.specs.Cells.{access_with, kind_by, step_in, Names, NamesBy};
ghost use Rattle.pg_run_trace.specs.declared.cell.Cell.{Cell};
ghost use Rattle.pg_run_trace.specs.declared.step.Event.{Event};
ghost use Rattle.pg_run_trace.specs.declared.step.StepKind.TheVariants as kinds;
ghost use Rattle.pg_run_trace.specs.Recording.{empty_with};
ghost use Rattle.pg_run_trace.specs.Steps.{event_count};

use crate::cell::{Cell, CellKind};
use crate::step::{Access, Event, Step, StepKind};
use pg_ir::{InstrId, ThreadNo};
use std::alloc::{AllocError, Global};
use std::marker::Model;

/// The steps of a run in their order, with room that is taken when it is made: 24 bytes for a step, and as
/// many as an `Event` has for one that is an event and no load or store.
#[derive(Drop)]
pub struct Trace {
    cells: Vec<Cell>,
    events: Vec<Event>,
    room: usize,
}

impl Model for Trace {
    ghost use Rattle.std.specs.Prelude.{◌≤◌, length, vec_capacity};
    ghost use Rattle.std.specs.List.{All};
    ghost use Rattle.pg_run_trace.specs.Cells.{steps_in, Names};
    ghost use Rattle.pg_run_trace.specs.Recording.{Recording};

    ghost Value = { Recording };

    ghost view = { λ t. record { steps = steps_in t.events.items t.cells.items; room = t.room } };

    ghost invariant = { λ t. All (Names (length t.events.items)) t.cells.items × (length t.events.items ≤ length t.cells.items) × (length t.cells.items ≤ t.room)
        × (t.room ≤ vec_capacity t.cells) × (t.room ≤ vec_capacity t.events) };
}

impl Trace {
    /// A trace without steps, with room for `n`.
    ///
    /// # Errors
    ///
    /// Where no memory is left for it.
    pub fn with_room(alloc: Global, n: usize) -> Result<Trace, AllocError>
        ensures { IfOk result (λ t. t ≡ empty_with n) }
    {
        Ok(Trace {
            cells: Vec::with_capacity(alloc, n)?,
            events: Vec::with_capacity(alloc, n)?,
            room: n,
        })
    }

    /// How many steps it has.
    pub fn len(&self) -> usize
        ensures { result ≡ length self.now.steps }
    {
        self.cells.len()
    }

    /// For how many steps more there is room.
    pub fn room_left(&self) -> usize
        ensures { result ≡ self.now.room - length self.now.steps }
    {
        self.room - self.cells.len()
    }

    /// The step with this number, from 0 on.
    #[inline(always)]
    pub fn step(&self, i: usize) -> Step
        requires { i < length self.now.steps }
        ensures { slice_get self.now.steps i ≡ Some result }
    {
        let cell = self.cells[i];
        Step {
            thread: cell.thread,
            instr: cell.instr,
            kind: kind_in(self.events.as_slice(), &cell),
        }
    }

    /// How many of its steps are events.
    pub fn event_count(&self) -> usize
        ensures { result ≡ event_count self.now.steps }
    {
        let mut count = 0;
        for i in 0..self.len() {
            if self.step(i).event().is_some() {
                count += 1;
            }
        }
        count
    }

    /// Takes all steps away. The room is as before.
    pub fn clear(&mut self)
        ensures { self.new ≡ empty_with self.old.room }
    {
        self.cells.clear();
        self.events.clear();
    }

    /// Adds the cell of a step that is no event, or a load or a store, at the end.
    #[inline(always)]
    fn push_cell(&mut self, cell: Cell)
        requires room { length self.old.steps < self.old.room }
        requires plain { Names 0 cell }
        ensures { self.new ≡ record self.old { steps = self.old.steps ++ step_in [] cell ∷ [] } }
    {
        self.cells.push_reserved(cell);
    }

    /// Adds a step with its event at the end.
    fn push_event(&mut self, thread: ThreadNo, instr: InstrId, event: Event)
        requires { length self.old.steps < self.old.room }
        ensures { self.new ≡ record self.old { steps = self.old.steps ++ record { thread = thread; instr = instr; kind = kinds.Event event } ∷ [] } }
    {
        let index = self.events.len() as u64;
        self.events.push_reserved(event);
        self.cells.push_reserved(Cell {
            first: index,
            second: 0,
            instr,
            thread,
            kind: CellKind::Event,
            bytes: 0,
        });
    }

    /// Adds a step at the end. Takes no memory.
    #[inline(always)]
    pub fn push(&mut self, step: Step)
        requires { length self.old.steps < self.old.room }
        ensures { self.new ≡ record self.old { steps = self.old.steps ++ step ∷ [] } }
    {
        let Step {
            thread,
            instr,
            kind,
        } = step;
        match kind {
            StepKind::Other => self.push_cell(cell(thread, instr, CellKind::Other, 0, 0)),
            StepKind::Branch { condition } => self.push_cell(cell(
                thread,
                instr,
                CellKind::Branch,
                condition,
                0,
            )),
            StepKind::Allocation { operand, result } => self.push_cell(cell(
                thread,
                instr,
                CellKind::Allocation,
                operand,
                result,
            )),
            StepKind::Access(access) => self.push_cell(Cell {
                first: access.pointer,
                second: access.number,
                instr,
                thread,
                kind: access_kind(access.writes, access.event),
                bytes: access.bytes,
            }),
            StepKind::Event(event) => self.push_event(thread, instr, event),
        }
    }
}

/// The cell of a step with these two numbers.
#[inline(always)]
fn cell(thread: ThreadNo, instr: InstrId, kind: CellKind, first: u64, second: u64) -> Cell
    ensures { result ≡ record { first = first; second = second; instr = instr; thread = thread; kind = kind; bytes = 0 } }
{
    Cell {
        first,
        second,
        instr,
        thread,
        kind,
        bytes: 0,
    }
}

/// The kind of the cell of a load or a store.
#[inline(always)]
fn access_kind(writes: bool, event: bool) -> CellKind
    ensures kind { (es : List Event) (c : Cell) → kind_by es c result ≡ access_with c writes event }
    ensures plain { (n : ℕ) (c : Cell) → NamesBy n c result }
{
    match (writes, event) {
        (false, false) => CellKind::Load,
        (true, false) => CellKind::Store,
        (false, true) => CellKind::GatedLoad,
        (true, true) => CellKind::GatedStore,
    }
}

/// An access of a cell.
#[inline(always)]
fn access_in(cell: &Cell, writes: bool, event: bool) -> StepKind
    ensures { result ≡ access_with cell.now writes event }
{
    StepKind::Access(Access {
        pointer: cell.first,
        number: cell.second,
        bytes: cell.bytes,
        writes,
        event,
    })
}

/// What the step of a cell was, where these are the events of the trace.
#[inline(always)]
fn kind_in(events: &[Event], cell: &Cell) -> StepKind
    ensures { result ≡ kind_by events.now cell.now cell.now.kind }
{
    match cell.kind {
        CellKind::Other => StepKind::Other,
        CellKind::Branch => StepKind::Branch {
            condition: cell.first,
        },
        CellKind::Allocation => StepKind::Allocation {
            operand: cell.first,
            result: cell.second,
        },
        CellKind::Load => access_in(cell, false, false),
        CellKind::Store => access_in(cell, true, false),
        CellKind::GatedLoad => access_in(cell, false, true),
        CellKind::GatedStore => access_in(cell, true, true),
        CellKind::Event => match events.get(cell.first as usize) {
            Some(event) => StepKind::Event(*event),
            None => StepKind::Other,
        },
    }
}
