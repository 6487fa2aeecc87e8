//! A program, and its parts by number.

ghost use Rattle.std.specs.Prelude.{◌≡◌, ℕ, ◌<◌, ◌≤◌, ◌+◌, ◌∷◌, length, map, take, drop, take_while, Some, slice_get, IfOk, IfErr, IsSomeAnd};
ghost use Rattle.pg_ir.specs.declared.instr.Instr.{Instr};
ghost use Rattle.pg_ir.specs.declared.edge.Case.{Case};
ghost use Rattle.pg_ir.specs.declared.error.ProgramError.TheVariants.{Malformed};
ghost use Rattle.pg_ir.specs.Edges.{is_phi, instrs_of, phis_of, body_of, successors, values_along, case_of};
ghost use Rattle.pg_ir.specs.Tables.{AreTables, HasCases, IsCaseTable, block_cases};
ghost use Rattle.pg_ir.specs.Operands.{CanReadAll, CanGoOn};
ghost use Rattle.pg_ir.specs.Program.{types_of, function_of, pointer_to};
ghost use Rattle.pg_ir.specs.WellFormed.{FitsInstr, FitsBlock, FitsFunction, FitsGlobal, IsProgram};

use crate::edge::Case;
use crate::error::ProgramError;
use crate::function::{Block, Function, GlobalInfo};
use crate::ids::{BlockNo, InstrId};
use crate::instr::Instr;
use crate::parts::Parts;
use crate::prepare::case_target;
use crate::tables::{CaseRow, Tables, first_target};
use crate::value::Value;
use pg_num::{Pointer, pack};
use std::alloc::Global;
use std::marker::Model;

/// A program by number. Its type keeps that every number names a part of it and that types fit.
#[derive(Debug, Drop)]
pub struct Program {
    functions: Vec<Function>,
    blocks: Vec<Block>,
    instrs: Vec<Instr>,
    globals: Vec<GlobalInfo>,
    main: u32,
    tables: Tables,
}

impl Model for Program {
    ghost use Rattle.pg_ir.specs.Program.{NumberedProgram};
    ghost use Rattle.pg_ir.specs.Tables.{IsPrepared};

    ghost Value = { NumberedProgram };

    ghost view = { λ p. record { functions = p.functions.items; blocks = p.blocks.items; instrs = p.instrs.items; globals = p.globals.items; main = p.main } };

    ghost invariant = { λ p. IsPrepared (record { functions = p.functions.items; blocks = p.blocks.items; instrs = p.instrs.items; globals = p.globals.items; main = p.main })
        p.tables.edges.items p.tables.values.items p.tables.cases.items p.tables.blocks.items };
}

/// So many `phi`s with which a list of instructions begins.
#[tactic(auto, using(crate::proofs::GrowingTables::phis_front, crate::proofs::GrowingTables::phis_within))]
fn first_phis(instrs: &[Instr], count: usize) -> &[Instr]
    requires { count ≡ length (take_while (λ (x : Instr). is_phi x.op) instrs.now) }
    ensures { result.now ≡ take_while (λ (x : Instr). is_phi x.op) instrs.now }
{
    &instrs[..count]
}

/// The row of values of an edge.
fn row_at<'a>(
    edges: &[usize],
    values: &'a [Option<Value>],
    at: usize,
    count: usize,
) -> &'a [Option<Value>]
    requires { IsSomeAnd (slice_get edges.now at) (λ r. r + count ≤ length values.now) }
    ensures { (r : ℕ) → slice_get edges.now at ≡ Some r → result.now ≡ take count (drop r values.now) }
{
    let from = &values[edges[at]..];
    &from[..count]
}

/// The rows of the cases of a `switch`.
fn rows_at<'a>(rows: &'a [CaseRow], start: usize, cases: &[Case]) -> &'a [CaseRow]
    requires { HasCases cases.now rows.now start }
    ensures { IsCaseTable cases.now result.now }
{
    let from = &rows[start..];
    &from[..cases.len()]
}

/// The target with this number of a `switch`, if there is one.
fn case_to(cases: &[Case], other: BlockNo, target: usize) -> Option<u32>
    ensures { result ≡ slice_get (other.0 ∷ map (λ (c : Case). c.to.0) cases.now) target }
{
    if target == 0 {
        Some(other.0)
    } else {
        case_target(cases, target - 1)
    }
}

/// The edge of a `switch` by its operand.
#[tactic(auto, using(crate::proofs::CaseTables::table_named))]
fn case_edge(rows: &[CaseRow], cases: &[Case], other: BlockNo, n: u64) -> Edge
    requires { IsCaseTable cases.now rows.now }
    ensures to { result.to.0 ≡ case_of cases.now other.0 n }
    ensures target { slice_get (other.0 ∷ map (λ (c : Case). c.to.0) cases.now) result.target ≡ Some result.to.0 }
{
    let target = first_target(rows, n);
    match case_to(cases, other, target) {
        Some(to) => Edge {
            target,
            to: BlockNo(to),
        },
        None => unreachable!(),
    }
}

/// An edge from a basic block: the number of its target among the targets of the block, and the block
/// that is entered.
#[derive(Clone, Copy, Debug, PartialEq, Eq)]
pub struct Edge {
    pub target: usize,
    pub to: BlockNo,
}

impl Program {
    ghost use Rattle.pg_ir.specs.Program.{numbered_program};

    /// The program of these parts.
    ///
    /// # Errors
    ///
    /// `Malformed` where not all holds of them that holds of each program: a number that is no part's,
    /// types that don't fit, an edge or a `phi` that doesn't fit its blocks, globals that overlap, or a
    /// limit. `OutOfMemory` where no memory is left for what is prepared of it.
    #[tactic(auto, using(crate::proofs::ProgramDecide::fits_program, crate::proofs::ProgramDecide::no_program))]
    pub fn new(
        alloc: Global,
        functions: Vec<Function>,
        blocks: Vec<Block>,
        instrs: Vec<Instr>,
        globals: Vec<GlobalInfo>,
        main: u32,
    ) -> Result<Program, ProgramError>
        ensures ok { IfOk result (λ p. p ≡ numbered_program functions.items blocks.items instrs.items globals.items main) }
        ensures malformed { IfErr result (λ e. e ≡ Malformed → IsProgram (numbered_program functions.items blocks.items instrs.items globals.items main) → ⊥) }
    {
        let parts = Parts {
            functions,
            blocks,
            instrs,
            globals,
            main,
        };
        if !parts.fit() {
            return Err(ProgramError::Malformed);
        }
        let tables = parts.tables(alloc)?;
        Ok(Program::from_parts(parts, tables))
    }

    /// The program of these parts, of which this was prepared.
    fn from_parts(parts: Parts, tables: Tables) -> Program
        requires program { IsProgram parts }
        requires count { length tables.blocks.items ≡ length parts.blocks }
        requires tables { AreTables parts tables.edges.items tables.values.items tables.cases.items tables.blocks.items }
        ensures { result ≡ parts }
    {
        let Parts {
            functions,
            blocks,
            instrs,
            globals,
            main,
        } = parts;
        Program {
            functions,
            blocks,
            instrs,
            globals,
            main,
            tables,
        }
    }

    /// The instruction with this number.
    pub fn instr(&self, id: InstrId) -> &Instr
        requires { id.0 < length self.now.instrs }
        ensures at { slice_get self.now.instrs id.0 ≡ Some result.now }
        ensures fits { FitsInstr self.now id.0 result.now }
        ensures operands { CanReadAll self.now (length (types_of self.now (function_of self.now result.now.block.0))) result.now.op }
        ensures edges { CanGoOn self.now (length (types_of self.now (function_of self.now result.now.block.0))) result.now.op }
    {
        &self.instrs[id.0 as usize]
    }

    /// How many instructions the program has.
    pub fn instr_count(&self) -> u32
        ensures count { result ≡ length self.now.instrs }
    {
        self.instrs.len() as u32
    }

    /// The basic block with this number.
    pub fn block(&self, b: BlockNo) -> &Block
        requires { b.0 < length self.now.blocks }
        ensures at { slice_get self.now.blocks b.0 ≡ Some result.now }
        ensures fits { FitsBlock self.now b.0 result.now }
    {
        &self.blocks[b.0 as usize]
    }

    /// The instructions of a basic block.
    #[tactic(auto, unfolding(crate::specs::Edges::instrs_of, crate::specs::Program::first_of, crate::specs::Program::end_of))]
    fn instrs_of(&self, b: BlockNo) -> &[Instr]
        requires { b.0 < length self.now.blocks }
        ensures { result.now ≡ instrs_of self.now b.0 }
    {
        let block = self.block(b);
        let first = block.first.0 as usize;
        &self.instrs[first..first + block.count as usize]
    }

    /// The `phi`s with which a basic block begins.
    #[tactic(auto, unfolding(crate::specs::Edges::phis_of))]
    pub fn phis(&self, b: BlockNo) -> &[Instr]
        requires { b.0 < length self.now.blocks }
        ensures phis { result.now ≡ phis_of self.now b.0 }
    {
        let table = self.tables.blocks[b.0 as usize];
        first_phis(self.instrs_of(b), table.phis)
    }

    /// The first instruction of a basic block that is no `phi`.
    #[tactic(auto, unfolding(crate::specs::Edges::body_of, crate::specs::Program::first_of))]
    pub fn body(&self, b: BlockNo) -> InstrId
        requires { b.0 < length self.now.blocks }
        ensures place { result.0 ≡ body_of self.now b.0 }
    {
        self.facts();
        let first = self.block(b).first.0;
        InstrId(first + self.phis(b).len() as u32)
    }

    /// The operands that the `phi`s of the basic block that is entered by an edge take, in their order.
    pub fn values_along(&self, from: BlockNo, edge: Edge) -> &[Option<Value>]
        requires from { from.0 < length self.now.blocks }
        requires to { edge.to.0 < length self.now.blocks }
        requires target { slice_get (successors self.now from.0) edge.target ≡ Some edge.to.0 }
        ensures values { result.now ≡ values_along self.now from.0 edge.to.0 }
    {
        let tables = &self.tables;
        let left = tables.blocks[from.0 as usize];
        let entered = tables.blocks[edge.to.0 as usize];
        row_at(
            &tables.edges,
            &tables.values,
            left.edges + edge.target,
            entered.phis,
        )
    }

    /// The edge that a `switch` at the end of a basic block takes, by its operand: the first of its cases
    /// that is equal to it, else the default.
    pub fn switched(&self, from: BlockNo, cases: &[Case], other: BlockNo, n: u64) -> Edge
        requires from { from.0 < length self.now.blocks }
        requires cases { cases.now ≡ block_cases self.now from.0 }
        ensures to { result.to.0 ≡ case_of cases.now other.0 n }
        ensures target { slice_get (other.0 ∷ map (λ (c : Case). c.to.0) cases.now) result.target ≡ Some result.to.0 }
    {
        let left = self.tables.blocks[from.0 as usize];
        let rows = rows_at(&self.tables.cases, left.cases, cases);
        case_edge(rows, cases, other, n)
    }

    /// The function with this number.
    pub fn function(&self, f: u32) -> &Function
        requires { f < length self.now.functions }
        ensures at { slice_get self.now.functions f ≡ Some result.now }
        ensures fits { FitsFunction self.now f result.now }
    {
        &self.functions[f as usize]
    }

    /// How many functions the program defines.
    pub fn function_count(&self) -> u32
        ensures count { result ≡ length self.now.functions }
    {
        self.functions.len() as u32
    }

    /// The global with this number.
    pub fn global(&self, g: u32) -> &GlobalInfo
        requires { g < length self.now.globals }
        ensures at { slice_get self.now.globals g ≡ Some result.now }
        ensures fits { FitsGlobal result.now }
    {
        &self.globals[g as usize]
    }

    /// The word of the pointer to the first byte of a global, if there is one of this number.
    pub fn global_pointer(&self, g: u32) -> Option<u64>
        ensures { result ≡ pointer_to (slice_get self.now.globals g) }
    {
        if g >= self.global_count() {
            return None;
        }
        let global = self.global(g);
        Some(pack(Pointer {
            start: global.start,
            length: global.size,
            offset: 0,
        }))
    }

    /// How many globals the program has.
    pub fn global_count(&self) -> u32
        ensures count { result ≡ length self.now.globals }
    {
        self.globals.len() as u32
    }

    /// The number of the function `main`.
    pub fn main(&self) -> u32
        ensures number { result ≡ self.now.main }
        ensures within { result < length self.now.functions }
    {
        self.main
    }

    /// What holds of each program.
    pub fn facts(&self)
        ensures holds { IsProgram self.now }
    {
        // Read for the proof: see docs/CONTRIBUTING.md.
        let _functions = &self.functions;
    }
}
