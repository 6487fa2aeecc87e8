//! Steps that may meet another. What isn't noted here costs a pass, and no more.

use pg_ir::{InstrId, ThreadNo};
use pg_num::unpack;
use std::alloc::{AllocError, Global};
use std::collections::BTreeMap;
use std::collections::btree_map::Range;

/// What may access what begins at a granule: the steps of a thread, by their own accesses or by those of their regions, that may
/// write it or not.
#[derive(Clone, Copy, Debug, PartialEq, Eq, PartialOrd, Ord)]
pub(crate) struct Accessor {
    start: u32,
    thread: ThreadNo,
    of_region: bool,
    writes: bool,
}

/// The steps of an accessor between two of its thread's turns, which have one interval. Of one accessor, those behind more turns
/// come first.
#[derive(Clone, Copy, Debug, PartialEq, Eq, PartialOrd, Ord)]
struct Stretch {
    accessor: Accessor,
    left: usize,
}

/// The last stretch of an accessor so far: one of its steps, and behind how many turns of the run they stand.
#[derive(Clone, Copy, Debug, PartialEq, Eq)]
pub(crate) struct Last {
    step: usize,
    turn: usize,
}

/// A branch of a thread.
#[derive(Clone, Copy, Debug, PartialEq, Eq, PartialOrd, Ord)]
struct Site {
    thread: ThreadNo,
    instr: InstrId,
}

/// Where a branch's region was noted last: behind how many turns, and the first pointer of its accesses; and where nothing
/// was found that disturbs it, of how many accessors and stretches.
#[derive(Clone, Copy, Debug, PartialEq, Eq)]
struct Noted {
    turn: usize,
    word: u64,
    among: Option<usize>,
}

/// The last stretch so far of each accessor, and a step of each stretch; and where the regions of branches were noted last.
#[derive(Drop)]
pub(crate) struct Rivals {
    last: BTreeMap<Accessor, Last>,
    stretches: BTreeMap<Stretch, usize>,
    regions: BTreeMap<Site, Noted>,
}

impl Accessor {
    /// Whether what it may access begins where a pointer's bounds begin.
    pub(crate) fn begins_at(&self, word: u64) -> bool {
        self.start == unpack(word).start
    }

    /// Whether what it may access may meet what a thread accesses that writes as this says: it is another's, and one of the two
    /// writes.
    pub(crate) fn may_meet(&self, thread: ThreadNo, writes: bool) -> bool {
        self.thread != thread && (self.writes || writes)
    }

    /// Whether its steps access by themselves, and not by their regions.
    pub(crate) fn is_own(&self) -> bool {
        !self.of_region
    }

    /// Its stretch behind so many turns.
    fn behind(&self, turn: usize) -> Stretch {
        Stretch {
            accessor: *self,
            left: usize::MAX - turn,
        }
    }
}

impl Rivals {
    /// No steps so far.
    pub(crate) fn new(alloc: Global) -> Rivals {
        Rivals {
            last: BTreeMap::new(alloc),
            stretches: BTreeMap::new(alloc),
            regions: BTreeMap::new(alloc),
        }
    }

    /// A step of a thread, behind so many turns, may access what lies within a pointer's bounds.
    pub(crate) fn note(
        &mut self,
        word: u64,
        thread: ThreadNo,
        of_region: bool,
        writes: bool,
        turn: usize,
        number: usize,
    ) -> Result<(), AllocError> {
        let accessor = Accessor {
            start: unpack(word).start,
            thread,
            of_region,
            writes,
        };
        if self.has_last(accessor, turn) {
            return Ok(());
        }
        self.stretches.insert(accessor.behind(turn), number)?;
        if !self.has_later(accessor, turn) {
            self.last.insert(accessor, Last { step: number, turn })?;
        }
        Ok(())
    }

    /// Whether the last stretch so far of an accessor stands behind so many turns.
    fn has_last(&self, accessor: Accessor, turn: usize) -> bool {
        match self.last.get(&accessor) {
            Some(last) => last.turn == turn,
            None => false,
        }
    }

    /// Whether a stretch of an accessor was noted that stands behind more turns.
    fn has_later(&self, accessor: Accessor, turn: usize) -> bool {
        match self.last.get(&accessor) {
            Some(last) => last.turn > turn,
            None => false,
        }
    }

    /// How many accessors and stretches there are.
    fn count(&self) -> usize {
        self.last.len().saturating_add(self.stretches.len())
    }

    /// Whether a branch's region was noted already behind so many turns, with this first pointer. It is then, and if nothing
    /// was found that disturbs it, this is noted too.
    pub(crate) fn is_noted(
        &mut self,
        thread: ThreadNo,
        instr: InstrId,
        turn: usize,
        word: u64,
        disturbed: bool,
    ) -> Result<bool, AllocError> {
        let among = if disturbed { None } else { Some(self.count()) };
        let before = self
            .regions
            .insert(Site { thread, instr }, Noted { turn, word, among })?;
        match before {
            Some(noted) => Ok(noted.turn == turn && noted.word == word),
            None => Ok(false),
        }
    }

    /// Whether nothing was found that disturbs a branch's region, noted behind so many turns with this first pointer, and no
    /// accessor and no stretch was noted since.
    pub(crate) fn is_known_apart(
        &self,
        thread: ThreadNo,
        instr: InstrId,
        turn: usize,
        word: u64,
    ) -> bool {
        match self.regions.get(&Site { thread, instr }) {
            Some(noted) => {
                noted.turn == turn && noted.word == word && noted.among == Some(self.count())
            }
            None => false,
        }
    }

    /// The accessors from those on whose bounds begin where a pointer's do, with their last stretches.
    pub(crate) fn from(&self, word: u64) -> Range<'_, Accessor, Last> {
        let first = Accessor {
            start: unpack(word).start,
            thread: ThreadNo(0),
            of_region: false,
            writes: false,
        };
        self.last.range(first..)
    }

    /// A step of the last stretch of an accessor that stands behind so many turns at the most, if there is one: if some
    /// stretch of it overlaps an interval that ends there, this one does.
    pub(crate) fn up_to(&self, accessor: &Accessor, last: Last, turn: usize) -> Option<usize> {
        if last.turn <= turn {
            return Some(last.step);
        }
        match self.stretches.range(accessor.behind(turn)..).next() {
            Some((stretch, step)) => {
                if stretch.accessor == *accessor {
                    Some(*step)
                } else {
                    None
                }
            }
            None => None,
        }
    }
}
