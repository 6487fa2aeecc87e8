//! What a thread asks at an event.

ghost use Rattle.std.specs.Prelude.{◌≡◌, Some};
ghost use Rattle.pg_ir.specs.TrapNames.{trap_text};

use pg_num::Place;
use std::fmt;

/// Why a thread can't take its next step.
#[derive(Clone, Copy, Debug, PartialEq, Eq)]
pub enum TrapName {
    DivideByZero,
    DivideOverflow,
    OutOfRange,
    Misaligned,
    Unset,
    Unreachable,
    CallDepth,
    Registers,
    StackFull,
    NotOwner,
    WrongObject,
    BusyObject,
    TooManyObjects,
    TooManyThreads,
    BadAttribute,
    BadJoin,
    Deadlock,
}

impl TrapName {
    /// The name of the trap, as it is printed.
    pub fn name(self) -> &'static str
        ensures name { result.now ≡ trap_text self }
    {
        match self {
            TrapName::DivideByZero => "DivideByZero",
            TrapName::DivideOverflow => "DivideOverflow",
            TrapName::OutOfRange => "OutOfRange",
            TrapName::Misaligned => "Misaligned",
            TrapName::Unset => "Unset",
            TrapName::Unreachable => "Unreachable",
            TrapName::CallDepth => "CallDepth",
            TrapName::Registers => "Registers",
            TrapName::StackFull => "StackFull",
            TrapName::NotOwner => "NotOwner",
            TrapName::WrongObject => "WrongObject",
            TrapName::BusyObject => "BusyObject",
            TrapName::TooManyObjects => "TooManyObjects",
            TrapName::TooManyThreads => "TooManyThreads",
            TrapName::BadAttribute => "BadAttribute",
            TrapName::BadJoin => "BadJoin",
            TrapName::Deadlock => "Deadlock",
        }
    }
}

impl fmt::Display for TrapName {
    ghost output = { λ name. Some (trap_text name) };

    fn fmt<W: fmt::Write>(&self, f: &mut fmt::Formatter<W>) -> fmt::Result {
        f.write_str(self.name())
    }
}

/// What a thread asks at an event other than a plain access: its start and exit, the pthread calls,
/// and prints. An object is the byte place by which a mutex, a condition variable or a barrier is
/// named.
#[derive(Clone, Copy, Debug, PartialEq, Eq)]
pub enum Request {
    Start,
    Exit {
        value: u64,
        is_return: bool,
    },
    Create {
        at: Place,
        function: u32,
        argument: u64,
    },
    Join {
        target: u64,
        at: Option<Place>,
    },
    MutexInit {
        object: u32,
    },
    Lock {
        object: u32,
    },
    Trylock {
        object: u32,
    },
    Unlock {
        object: u32,
    },
    MutexDestroy {
        object: u32,
    },
    CondInit {
        object: u32,
    },
    Wait {
        condition: u32,
        mutex: u32,
    },
    Wake {
        condition: u32,
        mutex: u32,
    },
    Signal {
        object: u32,
    },
    Broadcast {
        object: u32,
    },
    CondDestroy {
        object: u32,
    },
    BarrierInit {
        object: u32,
        count: u32,
    },
    Arrive {
        object: u32,
    },
    Leave {
        object: u32,
    },
    BarrierDestroy {
        object: u32,
    },
    Out {
        value: u64,
        ends_line: bool,
    },
    Putchar {
        value: u64,
    },
}
