//! A crew that draws the next thread.
ghost use Rattle.std.specs.Prelude.{◌≡◌, ◌<◌};

use crate::crew::FreeCrew;
use crate::shared::{FreeShared, FreeWorker};
use rand_core::{Rng, SeedableRng};
use rand_xoshiro::SplitMix64;
use std::marker::Model;
use std::sync::Wait;
use std::thread::Threads;

/// How many workers are drawn in a round.
const DRAWS_A_ROUND: u32 = 1_000;

/// Draws a worker among those of the threads that are made, and steps it once, and so on, alone in the calling thread. So a seed
/// gives the same recording of the same program and input each time. The generator is SplitMix64 (Guy Steele, Doug Lea and
/// Christine Flood, "Fast splittable pseudorandom number generators", OOPSLA 2014).
#[derive(Drop)]
pub struct Seeded {
    generator: SplitMix64,
    rounds: u64,
}

impl Model for Seeded {
    ghost use Rattle.std.specs.Prelude.{ℕ};

    ghost Value = { ℕ };

    ghost view = { λ s. s.rounds };
}

impl Seeded {
    /// A crew that made no round, with the generator of this seed.
    pub fn new(seed: u64) -> Seeded
        ensures rounds { result ≡ 0 }
    {
        Seeded {
            generator: SplitMix64::seed_from_u64(seed),
            rounds: 0,
        }
    }

    /// How many rounds it made.
    pub fn rounds(&self) -> u64
        ensures { result ≡ self.now }
    {
        self.rounds
    }
}

fn drawn<R: Wait>(
    rt: &R,
    shared: &FreeShared<'_>,
    generator: &mut SplitMix64,
    workers: &[FreeWorker],
) {
    for _ in 0..DRAWS_A_ROUND {
        let count = shared.count(rt).min(workers.len());
        if count > 0 {
            let i = (generator.next_u64() % count as u64) as usize;
            let mut own = workers[i];
            own.try_step(rt, shared);
        }
    }
}

impl FreeCrew for Seeded {
    ghost rounds = { λ s. s };

    fn round<R: Threads + Wait + Sync>(
        &mut self,
        rt: &R,
        shared: &FreeShared<'_>,
        workers: &mut [FreeWorker],
    ) {
        self.rounds = self.rounds.saturating_add(1);
        drawn(rt, shared, &mut self.generator, workers);
    }

    /// It has the generator of seed 0.
    fn another(&self) -> Seeded {
        Seeded::new(0)
    }
}
