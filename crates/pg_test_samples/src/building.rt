//! How a program is built of its parts.

use crate::line::Line;
use crate::lists::operation;
use crate::parts::{Body, Parts};
use pg_ir::{
    Block, BlockNo, Bytes, Function, GlobalInfo, Instr, InstrId, Program, ProgramError, Scalars,
};
use std::alloc::{AllocError, Global};

/// A length as a number of 32 bits.
fn number(length: usize) -> u32 {
    u32::try_from(length).unwrap_or(u32::MAX)
}

/// The instructions of a basic block, behind those of the blocks before.
fn add_lines(
    alloc: Global,
    instrs: &mut Vec<Instr>,
    block: u32,
    lines: &[(Option<u32>, Line)],
) -> Result<(), AllocError> {
    for (result, line) in lines {
        let op = operation(alloc, *line)?;
        instrs.push(Instr {
            op,
            block: BlockNo(block),
            result: *result,
        })?;
    }
    Ok(())
}

/// The blocks of a function and their instructions, behind those of the functions before.
fn add_blocks(
    alloc: Global,
    blocks: &mut Vec<Block>,
    instrs: &mut Vec<Instr>,
    function: u32,
    body: &Body,
) -> Result<(), AllocError> {
    for lines in body.blocks {
        let first = number(instrs.len());
        add_lines(alloc, instrs, number(blocks.len()), lines)?;
        blocks.push(Block {
            function,
            first: InstrId(first),
            count: number(lines.len()),
        })?;
    }
    Ok(())
}

fn function(alloc: Global, first_block: u32, body: &Body) -> Result<Function, AllocError> {
    let registers = body.registers.to_vec(alloc)?;
    Ok(Function {
        params: body.params,
        registers: Scalars::from_vec(registers),
        first_block: BlockNo(first_block),
        blocks: number(body.blocks.len()),
        result: body.returned,
    })
}

fn functions(alloc: Global, bodies: &[Body]) -> Result<Vec<Function>, AllocError> {
    let mut functions = Vec::new(alloc);
    let mut first_block = 0_u32;
    for body in bodies {
        let next = function(alloc, first_block, body)?;
        first_block = first_block.saturating_add(next.blocks);
        functions.push(next)?;
    }
    Ok(functions)
}

fn global(alloc: Global, start: u32, size: u32, bytes: &[u8]) -> Result<GlobalInfo, AllocError> {
    let bytes = bytes.to_vec(alloc)?;
    Ok(GlobalInfo {
        start,
        size,
        bytes: Bytes::from_vec(bytes),
    })
}

fn globals(alloc: Global, rows: &[(u32, u32, &[u8])]) -> Result<Vec<GlobalInfo>, AllocError> {
    let mut globals = Vec::new(alloc);
    for (start, size, bytes) in rows {
        let next = global(alloc, *start, *size, bytes)?;
        globals.push(next)?;
    }
    Ok(globals)
}

fn code(alloc: Global, bodies: &[Body]) -> Result<(Vec<Block>, Vec<Instr>), AllocError> {
    let mut blocks = Vec::new(alloc);
    let mut instrs = Vec::new(alloc);
    for (i, body) in bodies.iter().enumerate() {
        add_blocks(alloc, &mut blocks, &mut instrs, number(i), body)?;
    }
    Ok((blocks, instrs))
}

/// The program of these parts. Blocks and instructions are numbered in the order in which they stand.
///
/// # Errors
///
/// `Malformed` where they aren't the parts of a program, `OutOfMemory` where no memory is left for it.
pub fn build(alloc: Global, parts: &Parts) -> Result<Program, ProgramError> {
    let functions = functions(alloc, parts.functions)?;
    let (blocks, instrs) = code(alloc, parts.functions)?;
    let globals = globals(alloc, parts.globals)?;
    Program::new(alloc, functions, blocks, instrs, globals, parts.main)
}
