//! The values that words write: a quantum, a seed, numbers, and the number of a trial.
ghost use Rattle.std.specs.Prelude.{◌≡◌, ℤ, List, map, Some, None, IfOk, IfSome, IfNone, string_bytes};
ghost use Rattle.std.specs.Option.{option_map};
ghost use Rattle.pg_commands_words.specs.Clap.{given_of};
ghost use Rattle.pg_commands_words.specs.Commands.{HasNumbers};
ghost use Rattle.pg_commands_words.specs.declared.commands.RecordingWay.TheVariants.{Rotating, Seeded};
ghost use Rattle.pg_commands_words.specs.Values.{chosen_way, number_of, quantum_of, seed_of, trial_of};

use crate::commands::RecordingWay;
use crate::matches::Options;
use pg_num::limits::{NUMBERS_LIMIT, QUANTUM_LIMIT};
use pg_num::{digits_in_i64, digits_in_u64};
use pg_session_trial::TRIAL_LIMIT;
use std::alloc::{AllocError, Global};

/// The quantum of a rotation where the words give none, in steps.
pub const DEFAULT_QUANTUM: u32 = 100;

/// The quantum that a word writes: digits alone, from 1 to the limit.
fn quantum(word: &[u8]) -> Option<u32>
    ensures { result ≡ quantum_of word.now }
{
    match digits_in_u64(word) {
        Some(quantum) if 1 <= quantum && quantum <= QUANTUM_LIMIT as u64 => Some(quantum as u32),
        _ => None,
    }
}

/// The seed that a word writes: digits alone, in 64 bits.
fn seed(word: &[u8]) -> Option<u64>
    ensures { result ≡ seed_of word.now }
{
    digits_in_u64(word)
}

/// The number of a trial that a word writes: digits alone, up to the limit.
pub(crate) fn trial_number(word: &[u8]) -> Option<u64>
    ensures { result ≡ trial_of word.now }
{
    match digits_in_u64(word) {
        Some(number) if number <= TRIAL_LIMIT => Some(number),
        _ => None,
    }
}

// The rotation with the quantum that a text writes.
fn rotating(text: &str) -> Option<RecordingWay>
    ensures { result ≡ option_map Rotating (quantum_of text.now) }
{
    match quantum(text.as_bytes()) {
        Some(quantum) => Some(RecordingWay::Rotating(quantum)),
        None => None,
    }
}

// The order that the seed picks which a text writes.
fn seeded(text: &str) -> Option<RecordingWay>
    ensures { result ≡ option_map Seeded (seed_of text.now) }
{
    match seed(text.as_bytes()) {
        Some(seed) => Some(RecordingWay::Seeded(seed)),
        None => None,
    }
}

/// The way of recording that the options choose: at most one of `--quantum`, `--seed` and `--free`, each with its value.
pub(crate) fn chosen_way(options: &Options<'_>) -> Option<RecordingWay>
    ensures { result ≡ chosen_way (given_of options.now) }
{
    match (options.quantum, options.seed, options.free) {
        (None, None, false) => Some(RecordingWay::Rotating(DEFAULT_QUANTUM)),
        (Some(text), None, false) => rotating(text),
        (None, Some(text), false) => seeded(text),
        (None, None, true) => Some(RecordingWay::Free),
        _ => None,
    }
}

/// The numbers that words write, or `None` where a word is none.
fn numbers(alloc: Global, words: &[&str]) -> Result<Option<Vec<i64>>, AllocError>
    ensures some { IfOk result (λ found. IfSome found
        (λ numbers. map number_of (map (λ word. word.now) words.now) ≡ map Some numbers.items)) }
    ensures none { IfOk result (λ found. IfNone found ((numbers : List ℤ)
        → map number_of (map (λ word. word.now) words.now) ≡ map Some numbers → ⊥)) }
{
    let mut numbers = Vec::new(alloc);
    for word in words {
        match digits_in_i64(word.as_bytes()) {
            Some(number) => numbers.push(number)?,
            None => return Ok(None),
        }
    }
    Ok(Some(numbers))
}

/// The same, or `None` where there are too many.
pub(crate) fn few_numbers(alloc: Global, words: &[&str]) -> Result<Option<Vec<i64>>, AllocError>
    ensures some { IfOk result (λ found. IfSome found (λ numbers. HasNumbers (map (λ word. word.now) words.now) numbers.items)) }
    ensures none { IfOk result (λ found. IfNone found ((numbers : List ℤ) → HasNumbers (map (λ word. word.now) words.now) numbers → ⊥)) }
{
    if words.len() > NUMBERS_LIMIT {
        return Ok(None);
    }
    numbers(alloc, words)
}
