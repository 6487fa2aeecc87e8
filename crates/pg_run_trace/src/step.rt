//! Steps of a run.

ghost use Rattle.std.specs.Prelude.{◌≡◌};
ghost use Rattle.pg_ir.specs.pg_num.Places.{meet};
ghost use Rattle.pg_ir.specs.pg_num.Pointers.{byte_place};
ghost use Rattle.pg_run_trace.specs.Steps.{access_of, event_of, happening_in, range_of, write_by};

use crate::turn::{Turn, TurnKind};
use pg_ir::pg_num::layout::GRANULE_BYTES;
use pg_ir::pg_num::{Pointer, unpack};
use pg_ir::{InstrId, ThreadNo};

/// A step of a run: its thread, its instruction, and what is read of it after the run.
#[derive(Clone, Copy, Debug, PartialEq, Eq)]
pub struct Step {
    pub thread: ThreadNo,
    pub instr: InstrId,
    pub kind: StepKind,
}

/// What a step of a run was.
#[derive(Clone, Copy, Debug, PartialEq, Eq)]
pub enum StepKind {
    /// A step of another kind, of which nothing is read after the run.
    Other,
    /// A conditional branch or a switch, by the number of its condition.
    Branch { condition: u64 },
    /// An `alloca` or a `malloc`: the number of its operand, 0 for an `alloca`, which has none, and the
    /// word of the pointer that its register got.
    Allocation { operand: u64, result: u64 },
    /// A load or a store.
    Access(Access),
    /// A start, an exit, a pthread call or a print.
    Event(Event),
}

/// An access to memory: the word of its pointer, how many bytes it has, the number that is read or written,
/// before any cut, whether it writes, and whether the step is an event.
#[derive(Clone, Copy, Debug, PartialEq, Eq)]
pub struct Access {
    pub pointer: u64,
    pub number: u64,
    pub bytes: u8,
    pub writes: bool,
    pub event: bool,
}

/// What a thread asked for: its kind and object, the numbers of its first four operands, the number that the
/// step's own register got, 0 where it got none, and what the step wrote to memory.
#[derive(Clone, Copy, Debug, PartialEq, Eq)]
pub struct Event {
    pub kind: TurnKind,
    pub object: u64,
    pub operands: [u64; 4],
    pub reply: u64,
    pub write: Option<Write>,
}

/// A write of eight bytes: the word of its pointer, and the number. A create writes the number of its
/// thread, and a join with a place the exit value of the thread that it joins.
#[derive(Clone, Copy, Debug, PartialEq, Eq)]
pub struct Write {
    pub pointer: u64,
    pub number: u64,
}

/// The kind and the object of a step that is an event.
#[derive(Clone, Copy, Debug, PartialEq, Eq)]
pub struct Happening {
    pub kind: TurnKind,
    pub object: u64,
}

impl Access {
    /// The place of its first byte.
    pub fn start(self) -> u32
        ensures { result ≡ byte_place self.pointer }
    {
        let Pointer { start, offset, .. } = unpack(self.pointer);
        GRANULE_BYTES * start + offset
    }

    /// Whether the bytes of the two have one in common.
    pub fn meets(self, other: Access) -> bool
        ensures { result ≡ meet (range_of self) (range_of other) }
    {
        self.start() < other.start() + other.bytes as u32
            && other.start() < self.start() + self.bytes as u32
    }
}

impl Write {
    /// The write as an access.
    fn access(self) -> Access
        ensures { result ≡ write_by self }
    {
        Access {
            pointer: self.pointer,
            number: self.number,
            bytes: 8,
            writes: true,
            event: true,
        }
    }
}

impl StepKind {
    /// The event that a step of this kind is, if it is one.
    fn happening(&self) -> Option<Happening>
        ensures { result ≡ happening_in self.now }
    {
        match self {
            StepKind::Access(access) if access.event => Some(Happening {
                kind: if access.writes {
                    TurnKind::Store
                } else {
                    TurnKind::Load
                },
                object: u64::from(access.start()),
            }),
            StepKind::Event(event) => Some(Happening {
                kind: event.kind,
                object: event.object,
            }),
            _ => None,
        }
    }
}

impl Step {
    /// Its access to memory, if it has one: that of a load or a store, or the write of a create or of a join.
    pub fn access(&self) -> Option<Access>
        ensures { result ≡ access_of self.now }
    {
        match &self.kind {
            StepKind::Access(access) => Some(*access),
            StepKind::Event(event) => match event.write {
                Some(write) => Some(write.access()),
                None => None,
            },
            _ => None,
        }
    }

    /// The event that it was, if it was one, as a turn.
    pub fn event(&self) -> Option<Turn>
        ensures { result ≡ event_of self.now }
    {
        match self.kind.happening() {
            Some(Happening { kind, object }) => Some(Turn {
                thread: self.thread,
                instr: self.instr,
                kind,
                object,
            }),
            None => None,
        }
    }
}
