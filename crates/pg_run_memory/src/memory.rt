//! The memory of a run.

ghost use Rattle.std.specs.Prelude.{◌≡◌, ℕ, ◌<◌, ◌≤◌, ◌+◌, ◌-◌, ◌*◌, ◌/◌, ◌%◌, ◌^◌, IfOk, slice_index, slice_set};
ghost use Rattle.pg_ir.specs.pg_num.declared.layout.TheConstants.{GLOBALS_END, GRANULE_COUNT, MEMORY_BYTES};
ghost use Rattle.pg_run_memory.specs.Bytes.{with_bytes};
ghost use Rattle.pg_run_memory.specs.Initial.{initial};
ghost use Rattle.pg_run_memory.specs.Memory.{IsMemory, byte_at, read, written};

use crate::globals::lay_globals;
use crate::pages::Pages;
use crate::words::{part, replaced};
use pg_ir::Program;
use pg_ir::pg_num::Place;
use pg_ir::pg_num::layout::{GLOBALS_END, GRANULE_COUNT};
use std::alloc::{AllocError, Global};
use std::marker::Model;

/// The memory of a run: 32 MiB, a byte at each place.
#[derive(Drop)]
pub struct Memory {
    globals: Pages,
    threads: Pages,
}

impl Model for Memory {
    ghost use Rattle.std.specs.Prelude.{◌++◌};
    ghost use Rattle.pg_run_memory.specs.Memory.{Words};
    ghost use Rattle.pg_run_memory.specs.Parts.{AreParts};

    ghost Value = { Words };

    ghost view = { λ m. m.globals ++ m.threads };

    ghost invariant = { λ m. AreParts m.globals m.threads };
}

/// Memory in parts of these lengths, in which each byte is zero.
#[tactic(auto, using(crate::proofs::Padding::zero_both))]
fn zero_parts(alloc: Global, globals: usize, threads: usize) -> Result<Memory, AllocError>
    requires globals { globals ≡ GLOBALS_END }
    requires threads { threads ≡ GRANULE_COUNT - GLOBALS_END }
    ensures { IfOk result (λ m. (b : ℕ) → byte_at m b ≡ 0) }
{
    Ok(Memory {
        globals: Pages::zeros(alloc, globals)?,
        threads: Pages::zeros(alloc, threads)?,
    })
}

impl Memory {
    /// The memory before the first step of a program: its globals hold their first bytes, and all else is zero.
    ///
    /// # Errors
    ///
    /// Where no memory is left for it.
    #[tactic(auto, unfolding(crate::specs::Initial::initial))]
    pub fn new(alloc: Global, p: &Program) -> Result<Memory, AllocError>
        ensures { IfOk result (λ m. m ≡ initial p.now.globals) }
    {
        let mut memory = Memory::blank(alloc)?;
        lay_globals(&mut memory, p);
        memory.facts();
        Ok(memory)
    }

    /// The memory in which each byte is zero.
    pub(crate) fn blank(alloc: Global) -> Result<Memory, AllocError>
        ensures { IfOk result (λ m. (b : ℕ) → byte_at m b ≡ 0) }
    {
        zero_parts(
            alloc,
            GLOBALS_END as usize,
            (GRANULE_COUNT - GLOBALS_END) as usize,
        )
    }

    /// The number at a place, low byte first.
    pub fn get(&self, at: Place) -> u64
        ensures value { result ≡ read self.now at }
        ensures in_range { result < 2 ^ (8 * at.bytes) }
    {
        part(self.word(at.granule()), at.first(), at.bytes())
    }

    /// Puts a number at a place, low byte first, and changes just these bytes.
    pub fn put(&mut self, at: Place, number: u64)
        requires { number < 2 ^ (8 * at.bytes) }
        ensures value { self.new ≡ written self.old at number }
        ensures bytes { (b : ℕ) → byte_at self.new b ≡ with_bytes (byte_at self.old) at number b }
    {
        self.set(at.start(), at.bytes(), number);
    }

    /// What holds of each memory.
    pub fn facts(&self)
        ensures { IsMemory self.now }
    {
        // Read for the proof: see docs/CONTRIBUTING.md.
        let _globals = &self.globals;
    }

    /// The number of the eight bytes of a granule.
    #[tactic(auto, using(crate::proofs::Padding::low_word, crate::proofs::Padding::high_word))]
    fn word(&self, granule: u32) -> u64
        ensures { result ≡ slice_index self.now granule }
    {
        if granule < GLOBALS_END {
            self.globals.get(granule)
        } else {
            self.threads.get(granule - GLOBALS_END)
        }
    }

    /// Puts a number into the eight bytes of a granule.
    #[tactic(auto, using(crate::proofs::Padding::low_set, crate::proofs::Padding::high_set))]
    fn put_word(&mut self, granule: u32, word: u64)
        requires { granule < GRANULE_COUNT }
        ensures { self.new ≡ slice_set self.old granule word }
    {
        if granule < GLOBALS_END {
            self.globals.set(granule, word);
        } else {
            self.threads.set(granule - GLOBALS_END, word);
        }
    }

    /// Puts one byte at a place.
    pub(crate) fn put_byte(&mut self, at: u32, byte: u8)
        requires { at < MEMORY_BYTES }
        ensures { (b : ℕ) → byte_at self.new b ≡ with_bytes (byte_at self.old) (record { start = at; bytes = 1 }) byte b }
    {
        self.set(at, 1, byte as u64);
    }

    /// Puts a number into some bytes of one granule, from the place `start` on.
    fn set(&mut self, start: u32, bytes: u8, number: u64)
        requires some { 1 ≤ bytes }
        requires within { start / 8 < GRANULE_COUNT }
        requires fits { start % 8 + bytes ≤ 8 }
        requires small { number < 2 ^ (8 * bytes) }
        ensures value { self.new ≡ written self.old (record { start = start; bytes = bytes }) number }
        ensures bytes { (b : ℕ) → byte_at self.new b ≡ with_bytes (byte_at self.old) (record { start = start; bytes = bytes }) number b }
    {
        let granule = start / 8;
        self.facts();
        let word = self.word(granule);
        self.put_word(granule, replaced(word, (start % 8) as u8, bytes, number));
    }
}
