//! What the shared words hold before each step of a worker.

use pg_crew::pg_ir::{InstrId, ThreadNo};
use pg_crew::pg_run_trace::{Schedule, TurnKind};
use pg_crew::pg_seats::RunWords;
use pg_crew::pg_worker::Hook;
use pg_words::layout::WORD_COUNT;
use std::cell::Cell;

/// A step, by its thread and its instruction, and what the words that are watched hold before it.
pub(crate) type Before = (u8, u32, &'static [u64]);

/// Whether the turns of a schedule are these.
pub(crate) fn are_turns(s: &Schedule, wanted: &[(u8, TurnKind)]) -> bool {
    let turns = s.turns.as_slice();
    if turns.len() != wanted.len() {
        return false;
    }
    for (turn, (thread, kind)) in turns.iter().zip(wanted) {
        if turn.thread.0 != *thread || turn.kind != *kind {
            return false;
        }
    }
    true
}

/// A word, looked at without a seat, which tells nothing; 0 where there is none of that number.
fn word_at(words: &RunWords, index: u32) -> u64 {
    if index >= WORD_COUNT {
        return 0;
    }
    words.table.shared.peek(index as usize)
}

/// Whether these words hold these numbers.
pub(crate) fn hold(words: &RunWords, watched: &[u32], numbers: &[u64]) -> bool {
    if watched.len() != numbers.len() {
        return false;
    }
    for (index, number) in watched.iter().zip(numbers) {
        if word_at(words, *index) != *number {
            return false;
        }
    }
    true
}

/// Whether these words are all 0.
pub(crate) fn are_zeros(words: &RunWords, watched: &[u32]) -> bool {
    for index in watched {
        if word_at(words, *index) != 0 {
            return false;
        }
    }
    true
}

/// Looks at words before each step that the rows have next: how many rows were met, and how many of them hold.
#[derive(Drop)]
pub(crate) struct Watch<'a> {
    words: &'a RunWords,
    watched: &'static [u32],
    rows: &'static [Before],
    met: Cell<usize>,
    held: Cell<usize>,
    steps: Cell<usize>,
}

impl<'a> Watch<'a> {
    pub(crate) fn new(
        words: &'a RunWords,
        watched: &'static [u32],
        rows: &'static [Before],
    ) -> Watch<'a> {
        Watch {
            words,
            watched,
            rows,
            met: Cell::new(0),
            held: Cell::new(0),
            steps: Cell::new(0),
        }
    }

    /// How many of the rows were met, in their order.
    pub(crate) fn met(&self) -> usize {
        self.met.get()
    }

    /// How many rows in front held.
    pub(crate) fn held(&self) -> usize {
        self.held.get()
    }

    /// How many steps were begun.
    pub(crate) fn steps(&self) -> usize {
        self.steps.get()
    }

    /// Looks at the words of a row that is met.
    fn meet(&self, numbers: &[u64]) {
        let met = self.met.get();
        if self.held.get() == met && hold(self.words, self.watched, numbers) {
            self.held.set(met.saturating_add(1));
        }
        self.met.set(met.saturating_add(1));
    }
}

impl<'a> Hook for Watch<'a> {
    fn at_action(&self, thread: ThreadNo, at: InstrId, _is_start: bool) {
        self.steps.set(self.steps.get().saturating_add(1));
        if let Some((of, instr, numbers)) = self.rows.get(self.met.get()) {
            if *of == thread.0 && *instr == at.0 {
                self.meet(numbers);
            }
        }
    }
}
