//! The parts of a program, before it is one.

ghost use Rattle.std.specs.Prelude.{◌≡◌, ◌<◌, ◌^◌};
ghost use Rattle.pg_ir.specs.Program.{types_of, result_of, function_of, first_of, end_of, first_block_of, parameter_count};
ghost use Rattle.pg_ir.specs.WellFormed.{parameter_types};

use crate::function::{Block, Function, GlobalInfo};
use crate::instr::Instr;
use crate::value::Scalar;
use std::marker::Model;

/// The parts of a program of which nothing is known yet.
#[derive(Debug, Drop)]
pub(crate) struct Parts {
    pub(crate) functions: Vec<Function>,
    pub(crate) blocks: Vec<Block>,
    pub(crate) instrs: Vec<Instr>,
    pub(crate) globals: Vec<GlobalInfo>,
    pub(crate) main: u32,
}

impl Model for Parts {
    ghost use Rattle.pg_ir.specs.Program.{NumberedProgram};

    ghost Value = { NumberedProgram };

    ghost view = { λ p. record { functions = p.functions.items; blocks = p.blocks.items; instrs = p.instrs.items; globals = p.globals.items; main = p.main } };
}

impl Parts {
    /// The types of a function's registers.
    #[tactic(auto, unfolding(crate::specs::Program::types_of))]
    pub(crate) fn types_of(&self, function: u32) -> &[Scalar]
        ensures { result.now ≡ types_of self.now function }
    {
        match self.functions.get(function as usize) {
            Some(f) => f.registers.as_slice(),
            None => &[],
        }
    }

    /// The type that a function returns, if it returns a value.
    #[tactic(auto, unfolding(crate::specs::Program::result_of))]
    pub(crate) fn result_of(&self, function: u32) -> Option<Scalar>
        ensures { result ≡ result_of self.now function }
    {
        match self.functions.get(function as usize) {
            Some(f) => f.result,
            None => None,
        }
    }

    #[tactic(auto, unfolding(crate::specs::Program::parameter_count))]
    fn parameter_count(&self, function: u32) -> u32
        ensures { result ≡ parameter_count self.now function }
    {
        match self.functions.get(function as usize) {
            Some(f) => f.params,
            None => 0,
        }
    }

    /// The types of a function's parameters, as far as it has as many registers.
    pub(crate) fn parameter_types(&self, function: u32) -> &[Scalar]
        ensures { result.now ≡ parameter_types self.now function }
    {
        let types = self.types_of(function);
        let count = (self.parameter_count(function) as usize).min(types.len());
        &types[..count]
    }

    /// The function of a basic block.
    #[tactic(auto, unfolding(crate::specs::Program::function_of))]
    pub(crate) fn function_of(&self, block: u32) -> u32
        ensures { result ≡ function_of self.now block }
    {
        match self.blocks.get(block as usize) {
            Some(b) => b.function,
            None => 0,
        }
    }

    /// The first instruction of a basic block.
    #[tactic(auto, unfolding(crate::specs::Program::first_of))]
    pub(crate) fn first_of(&self, block: usize) -> usize
        ensures { result ≡ first_of self.now block }
    {
        match self.blocks.get(block) {
            Some(b) => b.first.0 as usize,
            None => 0,
        }
    }

    /// One past the last instruction of a basic block.
    #[tactic(auto, unfolding(crate::specs::Program::end_of))]
    pub(crate) fn end_of(&self, block: usize) -> usize
        ensures end { result ≡ end_of self.now block }
        ensures small { result < 2 ^ 33 }
    {
        match self.blocks.get(block) {
            Some(b) => b.first.0 as usize + b.count as usize,
            None => 0,
        }
    }

    /// The first basic block of a function.
    #[tactic(auto, unfolding(crate::specs::Program::first_block_of))]
    pub(crate) fn first_block_of(&self, function: u32) -> u32
        ensures { result ≡ first_block_of self.now function }
    {
        match self.functions.get(function as usize) {
            Some(f) => f.first_block.0,
            None => 0,
        }
    }
}
