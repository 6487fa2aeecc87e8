//! Programs from parts, which are checked.

ghost use Rattle.std.specs.Prelude.{◌≡◌, ◌==◌, ◌≤◌, ◌<◌, true, ◌^◌, slice_get};
ghost use Rattle.std.specs.List.{list_all};
ghost use Rattle.pg_ir.specs.PlaceTests.{holds_instrs, block_fits, holds_blocks, function_fits, global_fits, lie_from, main_fits, counts_fit, functions_fit, blocks_fit, instrs_fit, program_fits};
ghost use Rattle.pg_ir.specs.WellFormed.{granules_for};

use crate::function::{Block, Function, GlobalInfo};
use crate::instr::Instr;
use crate::parts::Parts;
use crate::value::Scalar;
use pg_num::Width;
use pg_num::layout::GLOBALS_END;
use pg_num::limits::{
    FUNCTION_LIMIT, FUNCTION_REGISTER_LIMIT, GLOBAL_LIMIT, INSTRUCTION_LIMIT, SIZE_LIMIT,
};

/// The granules of 8 bytes that a global takes: as many as its size needs, and at least one.
fn granules_for(size: u32) -> u64
    ensures granules { result ≡ granules_for size }
    ensures small { result ≤ 2 ^ 32 }
{
    ((size as u64 + 7) / 8).max(1)
}

fn global_fits(at: u64, g: &GlobalInfo) -> bool
    ensures fits { result ≡ global_fits at g.now }
    ensures small { result ≡ true → at < 2 ^ 32 }
{
    g.start as u64 == at && g.size <= SIZE_LIMIT && g.bytes.as_slice().len() <= g.size as usize
}

#[tactic(auto, using(crate::proofs::GlobalsDecide::lie_stop))]
/// Whether globals lie one after another from this granule on, below the threads' memory.
fn lie_from(start: u64, globals: &[GlobalInfo]) -> bool
    requires { start ≤ 2 ^ 33 }
    ensures { result ≡ lie_from start globals.now }
{
    let mut at = start;
    for g in globals {
        if !global_fits(at, g) {
            return false;
        }
        at += granules_for(g.size);
    }
    at <= GLOBALS_END as u64
}

fn are_in_block(b: usize, xs: &[Instr]) -> bool
    ensures { result ≡ list_all (λ (y : Instr). y.block.0 == b) xs.now }
{
    xs.iter().all(|y| y.block.0 as usize == b)
}

impl Parts {
    fn holds_instrs(&self, b: usize, x: &Block) -> bool
        ensures { result ≡ holds_instrs self.now b x.now }
    {
        let rest = self.instrs_from(x.first.0 as usize);
        are_in_block(b, &rest[..(x.count as usize).min(rest.len())])
    }

    /// Whether a basic block has its instructions, each of them its own, and few phis.
    #[tactic(auto, unfolding(crate::specs::PlaceTests::block_fits))]
    fn block_fits(&self, b: usize, x: &Block) -> bool
        ensures { result ≡ block_fits self.now b x.now }
    {
        (x.function as usize) < self.functions.len()
            && x.count > 0
            && x.first.0 as usize + x.count as usize <= self.instrs.len()
            && self.holds_instrs(b, x)
            && self.phi_count(b) <= FUNCTION_REGISTER_LIMIT as usize
    }

    fn holds_blocks(&self, f: usize, x: &Function) -> bool
        ensures { result ≡ holds_blocks self.now f x.now }
    {
        self.blocks
            .iter()
            .skip(x.first_block.0 as usize)
            .take(x.blocks as usize)
            .all(|y| y.function as usize == f)
    }

    /// Whether a function has its basic blocks, each of them its own, and few registers.
    #[tactic(auto, unfolding(crate::specs::PlaceTests::function_fits))]
    fn function_fits(&self, f: usize, x: &Function) -> bool
        ensures { result ≡ function_fits self.now f x.now }
    {
        x.blocks > 0
            && x.params as usize <= x.registers.as_slice().len()
            && x.registers.as_slice().len() <= FUNCTION_REGISTER_LIMIT as usize
            && x.first_block.0 as usize + x.blocks as usize <= self.blocks.len()
            && self.holds_blocks(f, x)
    }

    fn main_fits(&self) -> bool
        ensures { result ≡ main_fits (slice_get self.now.functions self.now.main) }
    {
        match self.functions.get(self.main as usize) {
            Some(f) => f.params == 0 && f.result == Some(Scalar::Int(Width::W32)),
            None => false,
        }
    }

    fn counts_fit(&self) -> bool
        ensures { result ≡ counts_fit self.now }
    {
        self.functions.len() <= FUNCTION_LIMIT as usize
            && self.instrs.len() <= INSTRUCTION_LIMIT as usize
            && self.globals.len() <= GLOBAL_LIMIT as usize
    }

    #[tactic(auto, unfolding(crate::specs::PlaceTests::functions_fit))]
    fn functions_fit(&self) -> bool
        ensures { result ≡ functions_fit self.now }
    {
        self.functions
            .iter()
            .enumerate()
            .all(|(f, x)| self.function_fits(f, x))
    }

    #[tactic(auto, unfolding(crate::specs::PlaceTests::blocks_fit))]
    fn blocks_fit(&self) -> bool
        ensures { result ≡ blocks_fit self.now }
    {
        self.blocks
            .iter()
            .enumerate()
            .all(|(b, x)| self.block_fits(b, x))
    }

    #[tactic(auto, unfolding(crate::specs::PlaceTests::instrs_fit))]
    fn instrs_fit(&self) -> bool
        ensures { result ≡ instrs_fit self.now }
    {
        self.instrs
            .iter()
            .enumerate()
            .all(|(i, x)| self.instr_fits(i, x))
    }

    /// Whether these are the parts of a program.
    #[tactic(auto, unfolding(crate::specs::PlaceTests::program_fits))]
    pub(crate) fn fit(&self) -> bool
        ensures { result ≡ program_fits self.now }
    {
        self.main_fits()
            && self.counts_fit()
            && lie_from(1, self.globals.as_slice())
            && self.functions_fit()
            && self.blocks_fit()
            && self.instrs_fit()
    }
}
