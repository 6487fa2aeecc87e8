//! Labels and registers that stand twice.

ghost use Rattle.std.specs.Prelude.{◌≡◌, ◌++◌, ◌≤◌, IfOk, OnOk, length, drop};
ghost use Rattle.std.specs.List.{flat_map};
ghost use Rattle.pg_check_rules.specs.Earliest.{earliest};
ghost use Rattle.pg_check_rules.specs.Names.{doubled};
ghost use Rattle.pg_check_rules.specs.Starts.{names_behind};

use pg_check_rules::{doubled_names, index_starts};
use pg_read_ast::Name;
use pg_read_lex::Span;
use std::alloc::{AllocError, Global};

fn add_references<'a>(all: &mut Vec<&'a Name>, names: &'a [Name]) -> Result<(), AllocError>
    ensures { OnOk result (names_behind all.new.items ≡ names_behind all.old.items ++ names.now) }
{
    for name in names {
        all.push(name)?;
    }
    Ok(())
}

fn joined<'a>(
    alloc: Global,
    labels: &'a [Name],
    registers: &'a [Name],
) -> Result<Vec<&'a Name>, AllocError>
    ensures { IfOk result (λ v. names_behind v.items ≡ labels.now ++ registers.now) }
{
    let mut all = Vec::new(alloc);
    add_references(&mut all, labels)?;
    add_references(&mut all, registers)?;
    Ok(all)
}

fn without_params(registers: &[Name], params: usize) -> &[Name]
    requires { params ≤ length registers.now }
    ensures { result.now ≡ drop params registers.now }
{
    &registers[params..]
}

/// The first label or register of which another stands before it; parameters aside, of which there are so many.
pub(crate) fn doubled_own(
    alloc: Global,
    labels: &[Name],
    registers: &[Name],
    params: usize,
) -> Result<Option<Span>, AllocError>
    requires { params ≤ length registers.now }
    ensures { IfOk result (λ o. o ≡ earliest (flat_map (doubled (labels.now ++ registers.now)) (labels.now ++ drop params registers.now))) }
{
    let all = joined(alloc, labels, registers)?;
    let starts = index_starts(alloc, all.as_slice())?;
    let some = joined(alloc, labels, without_params(registers, params))?;
    Ok(doubled_names(&starts, some.as_slice()))
}
