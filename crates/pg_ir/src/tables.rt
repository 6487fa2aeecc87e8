//! The tables of what is prepared.

ghost use Rattle.std.specs.Prelude.{◌≡◌, slice_get};
ghost use Rattle.std.specs.List.Sorted.{IsNonDecreasingBy};
ghost use Rattle.pg_ir.specs.declared.tables.CaseRow.{CaseRow};
ghost use Rattle.pg_ir.specs.Tables.{first_target, target_at};

use crate::value::Value;

/// What is prepared of a basic block: with how many `phi`s it begins, where the rows of its edges begin,
/// and where the cases of its `switch` begin.
#[derive(Clone, Copy, Debug, PartialEq, Eq)]
pub(crate) struct BlockTable {
    pub(crate) phis: usize,
    pub(crate) edges: usize,
    pub(crate) cases: usize,
}

/// A case of a `switch` by its value: the number of its target among the targets of the `switch`.
#[derive(Clone, Copy, Debug, PartialEq, Eq)]
pub(crate) struct CaseRow {
    pub(crate) value: u64,
    pub(crate) target: usize,
}

/// The edge by which a basic block was entered last: the block that it leaves, and where its values
/// begin.
#[derive(Clone, Copy, Debug, PartialEq, Eq)]
pub(crate) struct Entered {
    pub(crate) from: usize,
    pub(crate) row: usize,
}

/// What is prepared of a program: of each basic block; for each edge, block by block and target by
/// target, where its row begins; the rows, each with the value of each `phi` of the block that is
/// entered; and the cases of each `switch` in the order of their values.
#[derive(Debug, Drop)]
pub(crate) struct Tables {
    pub(crate) blocks: Vec<BlockTable>,
    pub(crate) edges: Vec<usize>,
    pub(crate) values: Vec<Option<Value>>,
    pub(crate) cases: Vec<CaseRow>,
}

/// The target of the row at a place, where there is one and it has this value, else 0.
fn target_at(rows: &[CaseRow], at: usize, n: u64) -> usize
    ensures { result ≡ target_at n (slice_get rows.now at) }
{
    match rows.get(at) {
        Some(row) if row.value == n => row.target,
        _ => 0,
    }
}

/// The target of the first row of a value, 0 where there is none, in rows in the order of their values.
pub(crate) fn first_target(rows: &[CaseRow], n: u64) -> usize
    requires { IsNonDecreasingBy (λ (r : CaseRow). r.value) rows.now }
    ensures { result ≡ first_target rows.now n }
{
    let at = rows.partition_point(|row| row.value < n);
    target_at(rows, at, n)
}
