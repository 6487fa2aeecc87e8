//! Sample programs whose runs are recorded and then made again along their entries, with what each run must come to.

use pg_go::pg_ir::{InstrId, TrapName};
use pg_go::pg_run::GuidedEnd;
use pg_test_samples::Sample;

/// An input, what the run on it prints, how it ends, and how many turns it does.
#[derive(Clone, Copy)]
pub(crate) struct Line<'a> {
    pub(crate) input: &'a [i64],
    pub(crate) output: &'a [u8],
    pub(crate) end: GuidedEnd,
    pub(crate) turns: u32,
}

/// A program, the quantum and the input of its recording, and lines that the entry admits.
#[derive(Clone, Copy)]
pub(crate) struct Row {
    pub(crate) sample: Sample,
    pub(crate) quantum: u32,
    pub(crate) recorded: &'static [i64],
    pub(crate) lines: &'static [Line<'static>],
}

/// A line whose run exits with 0.
macro_rules! line {
    ($input:expr, $output:expr, $turns:expr) => {
        Line {
            input: $input,
            output: $output,
            end: GuidedEnd::Exit(0),
            turns: $turns,
        }
    };
}

/// Two threads sum the input under a mutex.
pub(crate) const SUMS: Row = Row {
    sample: Sample::SumsUnderMutex,
    quantum: 100,
    recorded: &[1, 2, 3],
    lines: &[
        line!(&[1, 2, 3], b"12\n", 15),
        line!(&[10, 20], b"60\n", 15),
        line!(&[], b"0\n", 15),
    ],
};

/// Two stores that race.
const RACES: Row = Row {
    sample: Sample::RacingStores,
    quantum: 1,
    recorded: &[0],
    lines: &[line!(&[0], b"100\n", 9), line!(&[1], b"100\n", 9)],
};

/// Two threads that store at elements of one array.
const ELEMENTS: Row = Row {
    sample: Sample::StoresInALoop,
    quantum: 10,
    recorded: &[3],
    lines: &[line!(&[3], b"6\n", 11), line!(&[3, 9], b"6\n", 11)],
};

/// The same, with another entry.
const FEWER_ELEMENTS: Row = Row {
    sample: Sample::StoresInALoop,
    quantum: 10,
    recorded: &[2],
    lines: &[line!(&[2], b"4\n", 11)],
};

/// Two threads that divide. On the second input both trap, and the one that owns the next turn is named.
const QUOTIENTS: Row = Row {
    sample: Sample::TwoThatDivide,
    quantum: 10,
    recorded: &[5, 10],
    lines: &[
        line!(&[5, 10], b"7\n30\n", 12),
        Line {
            input: &[5, 0],
            output: b"7\n",
            end: GuidedEnd::Trap(TrapName::DivideByZero, InstrId(24)),
            turns: 6,
        },
    ],
};

/// A thread that counts. Lines on which it takes all steps that a thread may take are run by the tests of whole sessions, since an
/// unproved run of tests is too slow for them.
const COUNTS: Row = Row {
    sample: Sample::CountingThread,
    quantum: 100,
    recorded: &[3, 0],
    lines: &[line!(&[3, 0], b"", 6), line!(&[300, 0], b"", 6)],
};

/// The one that ends by a trap stands before others.
pub(crate) const ROWS: [Row; 6] = [QUOTIENTS, COUNTS, SUMS, RACES, ELEMENTS, FEWER_ELEMENTS];
