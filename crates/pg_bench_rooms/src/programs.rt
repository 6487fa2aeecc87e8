//! The programs whose runs are measured.

ghost use Rattle.std.specs.Prelude.{IfOk};
ghost use Rattle.pg_test_go.specs.Serves.{Serves};

use anyhow::{Result, anyhow};
use pg_ir::LibraryCall::{PgIn, PgOut, PthreadCreate, PthreadJoin};
use pg_ir::Program;
use pg_ir::Value::{Const, Function, Global, Register};
use pg_law_reuse::Entry;
use pg_num::Compare::Slt;
use pg_num::Width::W64;
use pg_num::limits::QUANTUM_LIMIT;
use pg_test_go::entry_of;
use pg_test_samples::Line::{
    Add, Alloca, Branch, BranchIf, Compares, Knows, Load, Phi, Return, Store,
};
use pg_test_samples::{
    I1, I32, I64, Line, NULL, PTR, Parts, Sample, build, main_alone, thread_and_main,
};
use std::alloc::Global as Memory;

/// Main stores at three globals, each of which begins in a page of 64 granules of its own.
const THREE_PAGES: Parts = main_alone!(
    &[(1, 512, b""), (65, 512, b""), (129, 512, b"")],
    &[],
    &[&[
        (None, Store(W64, Const(1), Global(0))),
        (None, Store(W64, Const(2), Global(1))),
        (None, Store(W64, Const(3), Global(2))),
        (None, Return(Some(Const(0)))),
    ]]
);

/// Main counts at a global up to the input's first number, with five steps each time.
const ONE_COUNTER: Parts = main_alone!(
    &[(1, 8, b"")],
    &[I64, I64, I64, I1],
    &[
        &[(Some(0), Knows(PgIn, &[Const(0)])), (None, Branch(1))],
        &[
            (Some(1), Load(W64, Global(0))),
            (Some(2), Add(W64, Register(1), Const(1))),
            (None, Store(W64, Register(2), Global(0))),
            (Some(3), Compares(Slt, W64, Register(2), Register(0))),
            (None, BranchIf(Register(3), 1, 2)),
        ],
        &[(None, Return(Some(Const(0))))],
    ]
);

/// A thread that begins with the program's first function.
const CREATE: Line = Knows(PthreadCreate, &[Global(0), NULL, Function(0), NULL]);

/// Four threads count in memory of their own up to the input's first number, with five steps each time, and are joined.
const FOUR_COUNTERS: Parts = thread_and_main!(
    &[(1, 8, b"")],
    &[PTR, I64, PTR, I64, I64, I1],
    &[
        &[
            (Some(1), Knows(PgIn, &[Const(0)])),
            (Some(2), Alloca(8)),
            (None, Branch(1)),
        ],
        &[
            (Some(3), Load(W64, Register(2))),
            (Some(4), Add(W64, Register(3), Const(1))),
            (None, Store(W64, Register(4), Register(2))),
            (Some(5), Compares(Slt, W64, Register(4), Register(1))),
            (None, BranchIf(Register(5), 1, 2)),
        ],
        &[(None, Return(Some(NULL)))],
    ],
    &[I32, I32, I32, I32, I32, I32, I32, I32],
    &[&[
        (Some(0), CREATE),
        (Some(1), CREATE),
        (Some(2), CREATE),
        (Some(3), CREATE),
        (Some(4), Knows(PthreadJoin, &[Const(1), NULL])),
        (Some(5), Knows(PthreadJoin, &[Const(2), NULL])),
        (Some(6), Knows(PthreadJoin, &[Const(3), NULL])),
        (Some(7), Knows(PthreadJoin, &[Const(4), NULL])),
        (None, Return(Some(Const(0)))),
    ]]
);

/// Eight threads print 125 times each, so that one after another has a turn.
const HANDED_ROUND: Parts = thread_and_main!(
    &[(1, 8, b"")],
    &[PTR, I64, I64, I1],
    &[
        &[(None, Branch(1))],
        &[
            (Some(1), Phi(&[(0, Const(0)), (1, Register(2))])),
            (None, Knows(PgOut, &[Register(1)])),
            (Some(2), Add(W64, Register(1), Const(1))),
            (Some(3), Compares(Slt, W64, Register(2), Const(125))),
            (None, BranchIf(Register(3), 1, 2)),
        ],
        &[(None, Return(Some(NULL)))],
    ],
    &[
        I32, I32, I32, I32, I32, I32, I32, I32, I32, I32, I32, I32, I32, I32, I32, I32,
    ],
    &[&[
        (Some(0), CREATE),
        (Some(1), CREATE),
        (Some(2), CREATE),
        (Some(3), CREATE),
        (Some(4), CREATE),
        (Some(5), CREATE),
        (Some(6), CREATE),
        (Some(7), CREATE),
        (Some(8), Knows(PthreadJoin, &[Const(1), NULL])),
        (Some(9), Knows(PthreadJoin, &[Const(2), NULL])),
        (Some(10), Knows(PthreadJoin, &[Const(3), NULL])),
        (Some(11), Knows(PthreadJoin, &[Const(4), NULL])),
        (Some(12), Knows(PthreadJoin, &[Const(5), NULL])),
        (Some(13), Knows(PthreadJoin, &[Const(6), NULL])),
        (Some(14), Knows(PthreadJoin, &[Const(7), NULL])),
        (Some(15), Knows(PthreadJoin, &[Const(8), NULL])),
        (None, Return(Some(Const(0)))),
    ]]
);

/// A program whose runs are measured.
#[derive(Clone, Copy)]
pub(crate) enum Which {
    ThreePages,
    OneCounter,
    FourCounters,
    HandedRound,
    /// A sample program.
    Sample(Sample),
}

impl Which {
    fn parts(self) -> Parts {
        match self {
            Which::ThreePages => THREE_PAGES,
            Which::OneCounter => ONE_COUNTER,
            Which::FourCounters => FOUR_COUNTERS,
            Which::HandedRound => HANDED_ROUND,
            Which::Sample(sample) => sample.parts(),
        }
    }
}

/// So short a quantum that in a recording no thread ends before the others begin: else its schedule has them one after another.
const APART: u32 = 10;

/// A run that is measured: a program, the quantum and the input of its recording, and the input of the run along its entry.
#[derive(Clone, Copy)]
pub(crate) struct Job<'a> {
    pub(crate) name: &'static str,
    which: Which,
    quantum: u32,
    recorded: &'static [i64],
    pub(crate) input: &'a [i64],
}

pub(crate) const JOBS: [Job<'static>; 6] = [
    Job {
        name: "stores in three pages",
        which: Which::ThreePages,
        quantum: 100,
        recorded: &[],
        input: &[],
    },
    Job {
        name: "two sums under a mutex",
        which: Which::Sample(Sample::SumsUnderMutex),
        quantum: 100,
        recorded: &[1, 2, 3],
        input: &[10, 20],
    },
    Job {
        name: "1,000 turns handed round 8 threads",
        which: Which::HandedRound,
        quantum: 1,
        recorded: &[],
        input: &[],
    },
    Job {
        name: "one thread that takes 500,000 steps",
        which: Which::OneCounter,
        quantum: 100,
        recorded: &[10],
        input: &[100_000],
    },
    Job {
        name: "two threads that take 200,000 steps each",
        which: Which::Sample(Sample::TwoCounters),
        quantum: APART,
        recorded: &[10],
        input: &[40_000],
    },
    Job {
        name: "four threads that take 200,000 steps each",
        which: Which::FourCounters,
        quantum: APART,
        recorded: &[10],
        input: &[40_000],
    },
];

/// Two threads that count apart, with five steps each a round.
pub(crate) fn counters(input: &[i64]) -> Job<'_> {
    Job {
        name: "two threads that count apart",
        which: Which::Sample(Sample::TwoCounters),
        quantum: APART,
        recorded: &[10],
        input,
    }
}

impl Job<'_> {
    /// The program.
    ///
    /// # Errors
    ///
    /// Where no memory is left.
    pub(crate) fn program(&self, alloc: Memory) -> Result<Program> {
        let program = build(alloc, &self.which.parts())?;
        Ok(program)
    }

    /// The entry of the program's recording.
    ///
    /// # Errors
    ///
    /// Where no memory is left, or the recording doesn't exit.
    pub(crate) fn entry(&self, alloc: Memory, p: &Program) -> Result<Entry>
        ensures { IfOk result (Serves p.now) }
    {
        if self.quantum == 0 || self.quantum > QUANTUM_LIMIT {
            return Err(anyhow!("there is no such quantum"));
        }
        let Some(entry) = entry_of(alloc, p, self.recorded, self.quantum)? else {
            return Err(anyhow!("the recording doesn't exit"));
        };
        Ok(entry)
    }
}
