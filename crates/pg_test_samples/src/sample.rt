//! Sample programs for tests.

use crate::building::build;
use crate::parts::Parts;
use crate::{objects, racing, straight, threads};
use pg_ir::{Program, ProgramError};
use std::alloc::Global;

/// A sample program, by what it does.
#[derive(Clone, Copy, Debug, PartialEq, Eq)]
pub enum Sample {
    /// The sum of the input's first two numbers is printed.
    AddTwo,
    /// The numbers below the input's first one are printed.
    PrintInALoop,
    /// A block that branches to itself.
    Circle,
    /// A number is printed that only a block sets that was left out.
    SkippedBlock,
    /// A function that calls itself.
    Recursion,
    /// A load at a place that is made from a number.
    PlaceByNumber,
    /// Where the input's second number isn't zero, main stores one at the first of its globals, or at the second one where the
    /// input's first number isn't zero.
    StoreAtOneOfTwo,
    /// Main and a thread each add to a number under a mutex: the thread the input's first number, main one.
    TwoUnderMutex,
    /// Two threads each sum the input in a loop over their own memory, and add the sum to a number under a mutex.
    SumsUnderMutex,
    /// A mutex is locked twice.
    LockTwice,
    /// A barrier for none, and what making it gives is printed.
    EmptyBarrier,
    /// Main and two threads wait at a barrier, and main prints what its wait and theirs gave.
    BarrierOfThree,
    /// One thread waits on a condition variable, and another wakes all that wait.
    WaitAndBroadcast,
    /// A thread stores at one half of a number and main at the other, and main prints the whole once the thread has ended.
    StoresSideBySide,
    /// A thread counts up to the input's first number and stores it, and main stores 100 at the same place, joins the thread
    /// and prints what it reads there.
    RacingStores,
    /// Two threads each store at as many elements of one array as the input's first number says, one from the first element
    /// on and the other from the ninth on.
    StoresInALoop,
    /// A thread stores one, and main prints what it reads where it isn't zero.
    PrintIfStored,
    /// A thread stores five and prints a letter, and main prints what it reads.
    PrintBoth,
    /// Main prints 7, and one thread divides 100 by each of the input's numbers, another 1 by the second.
    TwoThatDivide,
    /// A thread counts up to the input's first number, and main joins it and branches on the second.
    CountingThread,
    /// As many threads as the input's first number, and one at least.
    ManyThreads,
    /// Three threads that print their argument twice, and are joined.
    FourThreads,
    /// Two threads each count in memory of their own up to the input's first number, and are joined.
    TwoCounters,
}

/// The parts of no program.
const EMPTY: Parts = Parts {
    globals: &[],
    functions: &[],
    main: 0,
};

impl Sample {
    /// Its parts.
    pub fn parts(self) -> Parts {
        let one = straight::parts_of(self).or(objects::parts_of(self));
        let other = racing::parts_of(self).or(threads::parts_of(self));
        one.or(other).unwrap_or(EMPTY)
    }

    /// The program.
    ///
    /// # Errors
    ///
    /// Where no memory is left for it: each sample is a program.
    pub fn program(self, alloc: Global) -> Result<Program, ProgramError> {
        build(alloc, &self.parts())
    }
}
