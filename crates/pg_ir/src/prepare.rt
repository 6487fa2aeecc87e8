//! What is prepared of each basic block, so that a step finds it at once.

ghost use Rattle.std.specs.Prelude.{◌≡◌, ◌<◌, ◌+◌, ◌++◌, length, map, replicate, None, Some, slice_get, slice_set, IfOk, IfSome, OnOk};
ghost use Rattle.pg_ir.specs.declared.instr.Instr.{Instr};
ghost use Rattle.pg_ir.specs.Edges.{targets_of, incoming_of, incoming_from, phis_of, values_along, successors};
ghost use Rattle.pg_ir.specs.Tables.{AreEntered, AreTables, HasCases, HasRow, HaveRows, IsCaseTable, IsFront, block_cases, case_rows, cases_of};

use crate::edge::{Case, Incoming};
use crate::instr::{Instr, Op};
use crate::parts::Parts;
use crate::placed::count_phis;
use crate::tables::{BlockTable, CaseRow, Entered, Tables};
use crate::value::Value;
use std::alloc::{AllocError, Global};

/// The value that is listed first for a block.
fn listed_first(incoming: &[Incoming], from: usize) -> Option<Value>
    ensures { result ≡ incoming_from incoming.now from }
{
    for listed in incoming {
        if listed.block.0 as usize == from {
            return Some(listed.value);
        }
    }
    None
}

/// The value that a `phi` lists first for a block.
fn phi_value(x: &Instr, from: usize) -> Option<Value>
    ensures { result ≡ incoming_from (incoming_of x.now.op) from }
{
    match &x.op {
        Op::Phi { from: incoming } => listed_first(incoming.as_slice(), from),
        _ => None,
    }
}

/// Appends the values that `phi`s take from a block.
fn push_row(values: &mut Vec<Option<Value>>, phis: &[Instr], from: usize) -> Result<(), AllocError>
    ensures { OnOk result (values.new.items ≡ values.old.items ++ map (λ (x : Instr). incoming_from (incoming_of x.op) from) phis.now) }
{
    for x in phis {
        values.push(phi_value(x, from))?;
    }
    Ok(())
}

/// The target of a case, if there is one of this number.
pub(crate) fn case_target(cases: &[Case], k: usize) -> Option<u32>
    ensures { result ≡ slice_get (map (λ (c : Case). c.to.0) cases.now) k }
{
    match cases.get(k) {
        Some(case) => Some(case.to.0),
        None => None,
    }
}

/// The target with this number of an operation, if there is one.
fn op_target(op: &Op, k: usize) -> Option<u32>
    ensures { result ≡ slice_get (targets_of op.now) k }
{
    match op {
        Op::Br { to } if k == 0 => Some(to.0),
        Op::CondBr { yes, .. } if k == 0 => Some(yes.0),
        Op::CondBr { no, .. } if k == 1 => Some(no.0),
        Op::Switch { other, .. } if k == 0 => Some(other.0),
        Op::Switch { cases, .. } => case_target(cases.as_slice(), k - 1),
        _ => None,
    }
}

/// How many targets an operation has.
fn op_target_count(op: &Op) -> usize
    ensures { result ≡ length (targets_of op.now) }
{
    match op {
        Op::Br { .. } => 1,
        Op::CondBr { .. } => 2,
        Op::Switch { cases, .. } => 1 + cases.as_slice().len(),
        _ => 0,
    }
}

/// The rows of cases in the order of the text.
fn listed_rows(alloc: Global, cases: &[Case]) -> Result<Vec<CaseRow>, AllocError>
    ensures { IfOk result (λ rows. rows.items ≡ case_rows 1 cases.now) }
{
    let mut rows = Vec::new(alloc);
    for (k, case) in cases.iter().enumerate() {
        rows.push(CaseRow {
            value: case.value,
            target: k + 1,
        })?;
    }
    Ok(rows)
}

/// The rows of cases in the order of their values.
fn sorted_rows(alloc: Global, cases: &[Case]) -> Result<Vec<CaseRow>, AllocError>
    ensures { IfOk result (λ rows. IsCaseTable cases.now rows.items) }
{
    let mut rows = listed_rows(alloc, cases)?;
    rows.sort_by_key(|row| row.value)?;
    Ok(rows)
}

/// Appends the rows of cases.
fn push_cases(alloc: Global, cases: &[Case], rows: &mut Vec<CaseRow>) -> Result<(), AllocError>
    ensures front { OnOk result (IsFront rows.old.items rows.new.items) }
    ensures table { OnOk result (HasCases cases.now rows.new.items (length rows.old.items)) }
{
    let sorted = sorted_rows(alloc, cases)?;
    rows.extend_from_slice(sorted.as_slice())?;
    Ok(())
}

/// The cases of an operation, none where it is no `switch`.
fn op_cases(op: &Op) -> &[Case]
    ensures { result.now ≡ cases_of op.now }
{
    match op {
        Op::Switch { cases, .. } => cases.as_slice(),
        _ => &[],
    }
}

/// Nothing for so many targets.
fn none_entered(alloc: Global, count: usize) -> Result<Vec<Option<Entered>>, AllocError>
    ensures { IfOk result (λ v. v.items ≡ replicate count None) }
{
    let mut entered = Vec::with_capacity(alloc, count)?;
    for _ in 0..count {
        entered.push(None)?;
    }
    Ok(entered)
}

/// Where the values begin that were appended last for a target, if they are those from this block.
fn kept_row(entered: &[Option<Entered>], from: usize, to: usize) -> Option<usize>
    ensures { IfSome result (λ r. slice_get entered.now to ≡ Some (Some (record { from = from; row = r }))) }
{
    match entered.get(to) {
        Some(Some(last)) if last.from == from => Some(last.row),
        _ => None,
    }
}

/// Keeps where the values begin that were appended last for a target.
fn keep_row(entered: &mut [Option<Entered>], to: usize, last: Entered)
    ensures { entered.new ≡ slice_set entered.old to (Some last) }
{
    if to < entered.len() {
        entered[to] = Some(last);
    }
}

impl Parts {
    /// The `phi`s of a basic block.
    #[tactic(auto, unfolding(crate::specs::Edges::phis_of))]
    fn phis_of(&self, block: usize) -> &[Instr]
        ensures { result.now ≡ phis_of self.now block }
    {
        let instrs = self.instrs_of(block);
        &instrs[..count_phis(instrs)]
    }

    /// How many targets a basic block has.
    #[tactic(auto, unfolding(crate::specs::Edges::successors))]
    fn target_count(&self, block: usize) -> usize
        ensures { result ≡ length (successors self.now block) }
    {
        match self.instrs.get(self.end_of(block).saturating_sub(1)) {
            Some(last) => op_target_count(&last.op),
            None => 0,
        }
    }

    /// The target with this number of a basic block, if there is one.
    #[tactic(auto, unfolding(crate::specs::Edges::successors))]
    fn target_if(&self, block: usize, k: usize) -> Option<u32>
        ensures { result ≡ slice_get (successors self.now block) k }
    {
        match self.instrs.get(self.end_of(block).saturating_sub(1)) {
            Some(last) => op_target(&last.op, k),
            None => None,
        }
    }

    /// The target with this number of a basic block.
    #[tactic(auto, using(crate::proofs::GrowingTables::got_none))]
    fn target(&self, block: usize, k: usize) -> u32
        requires { k < length (successors self.now block) }
        ensures { slice_get (successors self.now block) k ≡ Some result }
    {
        match self.target_if(block, k) {
            Some(to) => to,
            None => unreachable!(),
        }
    }

    /// The cases of the instruction that ends a basic block.
    #[tactic(auto, unfolding(crate::specs::Tables::block_cases))]
    fn block_cases(&self, block: usize) -> &[Case]
        ensures { result.now ≡ block_cases self.now block }
    {
        match self.instrs.get(self.end_of(block).saturating_sub(1)) {
            Some(last) => op_cases(&last.op),
            None => &[],
        }
    }

    /// Where the values along an edge begin, which are appended where they aren't the last that were for
    /// its target.
    fn row_of(
        &self,
        from: usize,
        to: u32,
        values: &mut Vec<Option<Value>>,
        entered: &mut [Option<Entered>],
    ) -> Result<usize, AllocError>
        requires { AreEntered self.now values.old.items entered.old }
        ensures front { OnOk result (IsFront values.old.items values.new.items) }
        ensures entered { OnOk result (AreEntered self.now values.new.items entered.new) }
        ensures row { IfOk result (HasRow (values_along self.now from to) values.new.items) }
    {
        if let Some(row) = kept_row(entered, from, to as usize) {
            return Ok(row);
        }
        let row = values.len();
        push_row(values, self.phis_of(to as usize), from)?;
        keep_row(entered, to as usize, Entered { from, row });
        Ok(row)
    }

    /// Appends where the rows of a basic block's edges begin.
    fn push_edges(
        &self,
        from: usize,
        edges: &mut Vec<usize>,
        values: &mut Vec<Option<Value>>,
        entered: &mut [Option<Entered>],
    ) -> Result<(), AllocError>
        requires { AreEntered self.now values.old.items entered.old }
        ensures edges { OnOk result (IsFront edges.old.items edges.new.items) }
        ensures values { OnOk result (IsFront values.old.items values.new.items) }
        ensures entered { OnOk result (AreEntered self.now values.new.items entered.new) }
        ensures rows { OnOk result (HaveRows self.now values.new.items from edges.new.items (length edges.old.items) (successors self.now from)) }
    {
        for k in 0..self.target_count(from) {
            let row = self.row_of(from, self.target(from, k), values, entered)?;
            edges.push(row)?;
        }
        Ok(())
    }

    /// Appends the table of the next basic block.
    fn push_block(
        &self,
        alloc: Global,
        tables: &mut Tables,
        entered: &mut [Option<Entered>],
    ) -> Result<(), AllocError>
        requires entered { AreEntered self.now tables.old.values.items entered.old }
        requires tables { AreTables self.now tables.old.edges.items tables.old.values.items tables.old.cases.items tables.old.blocks.items }
        ensures entered { OnOk result (AreEntered self.now tables.new.values.items entered.new) }
        ensures tables { OnOk result (AreTables self.now tables.new.edges.items tables.new.values.items tables.new.cases.items tables.new.blocks.items) }
        ensures count { OnOk result (length tables.new.blocks.items ≡ length tables.old.blocks.items + 1) }
    {
        let block = tables.blocks.len();
        let table = BlockTable {
            phis: self.phi_count(block),
            edges: tables.edges.len(),
            cases: tables.cases.len(),
        };
        self.push_edges(block, &mut tables.edges, &mut tables.values, entered)?;
        push_cases(alloc, self.block_cases(block), &mut tables.cases)?;
        tables.blocks.push(table)?;
        Ok(())
    }

    /// Appends the tables of all basic blocks.
    fn push_blocks(
        &self,
        alloc: Global,
        tables: &mut Tables,
        entered: &mut [Option<Entered>],
    ) -> Result<(), AllocError>
        requires entered { AreEntered self.now tables.old.values.items entered.old }
        requires tables { AreTables self.now tables.old.edges.items tables.old.values.items tables.old.cases.items tables.old.blocks.items }
        requires count { length tables.old.blocks.items ≡ 0 }
        ensures tables { OnOk result (AreTables self.now tables.new.edges.items tables.new.values.items tables.new.cases.items tables.new.blocks.items) }
        ensures count { OnOk result (length tables.new.blocks.items ≡ length self.now.blocks) }
    {
        for _ in 0..self.blocks.len() {
            self.push_block(alloc, tables, entered)?;
        }
        Ok(())
    }

    /// What is prepared of the program of these parts.
    ///
    /// # Errors
    ///
    /// Where no memory is left for it.
    pub(crate) fn tables(&self, alloc: Global) -> Result<Tables, AllocError>
        ensures count { IfOk result (λ t. length t.blocks.items ≡ length self.now.blocks) }
        ensures tables { IfOk result (λ t. AreTables self.now t.edges.items t.values.items t.cases.items t.blocks.items) }
    {
        let mut tables = Tables {
            blocks: Vec::new(alloc),
            edges: Vec::new(alloc),
            values: Vec::new(alloc),
            cases: Vec::new(alloc),
        };
        let mut entered = none_entered(alloc, self.blocks.len())?;
        self.push_blocks(alloc, &mut tables, &mut entered)?;
        Ok(tables)
    }
}
