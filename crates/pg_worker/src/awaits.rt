//! Looks at the turn word before it is read through a seat, so that a turn that is handed on between two processors costs no round.

use crate::shared::Shared;
use std::sync::atomic::Ordering;
use std::{hint, thread};

/// So often a worker looks before it gives up.
const LOOKS: u32 = 300;

/// So many of these looks come one right after another; from then on other threads get the processor in between.
const SPINS: u32 = 100;

/// Looks at the turn word until so many turns are done, or no other worker is under way that could do them, or often enough. It tells
/// nothing.
pub(crate) fn await_turn(shared: &Shared<'_>, number: u64) {
    for looks in 0..LOOKS {
        if shared.words.peek() >= number || shared.under_way.load(Ordering::SeqCst) < 2 {
            return;
        }
        if looks < SPINS {
            hint::spin_loop();
        } else {
            thread::yield_now();
        }
    }
}
