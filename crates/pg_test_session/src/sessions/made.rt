//! Runs that are made up: each prints the sum of its input, and an entry admits each input that is as long as its own, and the
//! empty one. An input that begins with 0 traps, and one that begins with 1 takes too many steps.
ghost use Rattle.std.specs.Prelude.{◌≡◌, ◌==◌, ◌||◌, ◌-◌, ◌^◌, ℕ, length};
ghost use Rattle.pg_session.specs.Sessions.{Runs};

use pg_cache::Admits;
use pg_ir::{InstrId, TrapName};
use pg_run::Refusal;
use pg_session::{Recording, Run, Runner};
use pg_session_texts::EndLine;
use std::alloc::{AllocError, Global};
use std::sync::Wait;
use std::thread::Threads;

/// What is kept: the length of the input.
#[derive(Drop)]
pub struct Length {
    length: usize,
}

impl Admits for Length {
    ghost Meaning = { ℕ };

    ghost meaning = { λ e. e.length };

    ghost test = { λ n input. (n == length input) || (length input == 0) };

    fn admits(&mut self, input: &[i64]) -> bool {
        self.length == input.len() || input.is_empty()
    }
}

/// The runner of these runs.
#[derive(Drop)]
pub struct Sums;

// A run that prints the sum of these numbers.
fn sum(alloc: Global, input: &[i64], turns: u32) -> Result<Run, AllocError> {
    let mut sum: i64 = 0;
    for number in input {
        sum = sum.wrapping_add(*number);
    }
    let text = format!(in alloc; "{sum}\n")?;
    Ok(Run {
        output: text.into_bytes(),
        end: EndLine::Exit(0, turns),
    })
}

impl Runner for Sums {
    type Entry = Length;

    ghost Subject = { Unit {0} };

    ghost subject = { λ _. tt };

    ghost runs = { λ _. record {
      recorded = λ _ _ _ _. Unit {0};
      refused = λ _ _ _. Unit {0};
      untested = λ _. ⊥;
      along = λ _ _ _ _. Unit {0};
      given = λ _. ⊥;
    } };

    // Nothing is counted: both counts stand at their greatest value.
    ghost counts = { λ _. record { turns = 2 ^ 64 - 1; recordings = 2 ^ 64 - 1 } };

    fn record<H: Threads + Wait + Sync>(
        &mut self,
        _rt: &H,
        alloc: Global,
        input: &[i64],
    ) -> Result<Recording<Length>, AllocError> {
        match input {
            [0, ..] => Ok(Recording::Refused(
                Refusal::Trap(TrapName::DivideByZero, InstrId(7)),
                b"a\n".to_vec(alloc)?,
            )),
            [1, ..] => Ok(Recording::Refused(Refusal::Budget, Vec::new(alloc))),
            _ => Ok(Recording::Kept(
                Length {
                    length: input.len(),
                },
                sum(alloc, input, 3)?,
            )),
        }
    }

    fn run_along<H: Threads + Sync>(
        &mut self,
        _rt: &H,
        alloc: Global,
        entry: &Length,
        input: &[i64],
    ) -> Result<Run, AllocError> {
        let _entry = entry;
        sum(alloc, input, 4)
    }
}
