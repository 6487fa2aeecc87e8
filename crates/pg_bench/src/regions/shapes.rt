//! Programs with many branches, put together by number. No register is needed, and each store goes to the one global.

use anyhow::Result;
use pg_ir::{
    Block, BlockNo, Bytes, Function, GlobalInfo, Instr, InstrId, Op, Program, Scalar, Scalars,
    Value,
};
use pg_num::Width;
use std::alloc::Global;

/// The functions, blocks and instructions so far, and the numbers of the next ones.
#[derive(Drop)]
struct Parts {
    functions: Vec<Function>,
    blocks: Vec<Block>,
    instrs: Vec<Instr>,
    function: u32,
    block: u32,
    instr: u32,
    first_block: u32,
    first_instr: u32,
}

impl Parts {
    fn new(alloc: Global) -> Parts {
        Parts {
            functions: Vec::new(alloc),
            blocks: Vec::new(alloc),
            instrs: Vec::new(alloc),
            function: 0,
            block: 0,
            instr: 0,
            first_block: 0,
            first_instr: 0,
        }
    }

    /// Adds an instruction that sets no register.
    fn push(&mut self, op: Op) -> Result<()> {
        let block = BlockNo(self.block);
        self.instrs.push(Instr {
            op,
            block,
            result: None,
        })?;
        self.instr = self.instr.wrapping_add(1);
        Ok(())
    }

    /// Adds the last instruction of a block.
    fn end_block(&mut self, op: Op) -> Result<()> {
        self.push(op)?;
        self.blocks.push(Block {
            function: self.function,
            first: InstrId(self.first_instr),
            count: self.instr.wrapping_sub(self.first_instr),
        })?;
        self.block = self.block.wrapping_add(1);
        self.first_instr = self.instr;
        Ok(())
    }

    /// Adds the `ret` of a function without parameters and registers.
    fn end_function(&mut self, alloc: Global) -> Result<()> {
        self.end_block(Op::Ret {
            value: Some(Value::Const(0)),
        })?;
        self.functions.push(Function {
            params: 0,
            registers: Scalars::from_vec(Vec::new(alloc)),
            first_block: BlockNo(self.first_block),
            blocks: self.block.wrapping_sub(self.first_block),
            result: Some(Scalar::Int(Width::W32)),
        })?;
        self.function = self.function.wrapping_add(1);
        self.first_block = self.block;
        Ok(())
    }

    /// Adds stores of a number to the global.
    fn stores(&mut self, count: u32) -> Result<()> {
        for _ in 0..count {
            self.push(Op::Store {
                width: Width::W64,
                value: Value::Const(0),
                at: Value::Global(0),
            })?;
        }
        Ok(())
    }

    /// Adds a block that goes on to the block that is so many behind it.
    fn jump(&mut self, on: u32) -> Result<()> {
        let to = BlockNo(self.block.wrapping_add(on));
        self.end_block(Op::Br { to })
    }

    /// Adds a branch to the next block and to another.
    fn branch(&mut self, no: u32) -> Result<()> {
        let yes = BlockNo(self.block.wrapping_add(1));
        self.end_block(Op::CondBr {
            cond: Value::Const(1),
            yes,
            no: BlockNo(no),
        })
    }

    /// Adds a branch between two blocks of four stores, which go on to the same block: 12 instructions.
    fn diamond(&mut self) -> Result<()> {
        self.stores(1)?;
        self.branch(self.block.wrapping_add(2))?;
        self.stores(4)?;
        self.jump(2)?;
        self.stores(4)?;
        self.jump(1)
    }

    fn program(self, alloc: Global) -> Result<Program> {
        let global = GlobalInfo {
            start: 1,
            size: 8,
            bytes: Bytes::from_vec(Vec::new(alloc)),
        };
        let globals = vec![in alloc; global]?;
        Ok(Program::new(alloc, self.functions, self.blocks, self.instrs, globals, 0)?)
    }
}

/// Functions with branches one behind another, each of which skips one of two blocks.
///
/// # Errors
///
/// Where no memory is left for it.
pub(crate) fn chains(alloc: Global, functions: u32, branches: u32) -> Result<Program> {
    let mut parts = Parts::new(alloc);
    for _ in 0..functions {
        for _ in 0..branches {
            parts.diamond()?;
        }
        parts.end_function(alloc)?;
    }
    parts.program(alloc)
}

/// Branches of which each stands in one way of the one before, and whose ways meet in the opposite order.
///
/// # Errors
///
/// Where no memory is left for it.
pub(crate) fn nested(alloc: Global, branches: u32) -> Result<Program> {
    let mut parts = Parts::new(alloc);
    for k in 0..branches {
        parts.branch(branches.wrapping_mul(2).wrapping_sub(k))?;
    }
    for _ in 0..branches {
        parts.jump(1)?;
    }
    parts.end_function(alloc)?;
    parts.program(alloc)
}

/// A loop of blocks of which each may leave it, for the same block.
///
/// # Errors
///
/// Where no memory is left for it.
pub(crate) fn exits(alloc: Global, branches: u32) -> Result<Program> {
    let mut parts = Parts::new(alloc);
    let end = branches.wrapping_add(2);
    parts.jump(1)?;
    for _ in 0..branches {
        parts.branch(end)?;
    }
    parts.end_block(Op::Br { to: BlockNo(1) })?;
    parts.end_function(alloc)?;
    parts.program(alloc)
}
