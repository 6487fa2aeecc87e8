//! The names of parameters, each unnamed one by its number.

ghost use Rattle.std.specs.Prelude.{◌≡◌, [], IfOk, OnOk, None, map};
ghost use Rattle.std.specs.List.{filter_map};
ghost use Rattle.pg_read_ast.specs.Numbers.{name_at, after, each_at, behind_all, param_at, behind_param};
ghost use Rattle.pg_read_ast.specs.Views.{param_of};
ghost use Rattle.pg_check_rules.specs.Starts.{names_behind};
ghost use Rattle.pg_check_rules.specs.Numbering.{param_name};

use pg_read_ast::pg_read_lex::Span;
use pg_read_ast::{Bytes, Name, NextNumber, ParamNode};
use std::alloc::{AllocError, Global};

/// The name of a thing that is called by the next number.
fn next_name(alloc: Global, next: &NextNumber) -> Result<Name, AllocError>
    ensures { IfOk result (λ n. n ≡ name_at next.now None) }
{
    let mut text = Vec::new(alloc);
    next.put(&mut text)?;
    Ok(Name {
        text: Bytes::new(text),
        span: Span { start: 0, end: 0 },
    })
}

/// The name of a thing, or the next number where it has none.
pub fn numbered_name(
    alloc: Global,
    next: &mut NextNumber,
    name: &Option<Name>,
) -> Result<Name, AllocError>
    ensures name { IfOk result (λ n. n ≡ name_at next.old name.now) }
    ensures next { OnOk result (next.new ≡ after next.old name.now) }
{
    match name {
        Some(name) => {
            let text = name.text.copy(alloc)?;
            next.pass(alloc, name.text.as_slice())?;
            Ok(Name {
                text,
                span: name.span,
            })
        }
        None => {
            let numbered = next_name(alloc, next)?;
            next.count_up(alloc)?;
            Ok(numbered)
        }
    }
}

/// The names of parameters, in which each unnamed one has its number.
pub fn param_names(
    alloc: Global,
    next: &mut NextNumber,
    params: &[ParamNode],
) -> Result<Vec<Name>, AllocError>
    ensures names { IfOk result (λ v. v.items ≡ filter_map param_name (each_at behind_param param_at next.old (map param_of params.now))) }
    ensures next { OnOk result (next.new ≡ behind_all behind_param next.old (map param_of params.now)) }
{
    let mut names = Vec::new(alloc);
    for param in params {
        let name = numbered_name(alloc, next, &param.name)?;
        names.push(name)?;
    }
    Ok(names)
}

/// References to names.
pub fn references<'a>(alloc: Global, names: &'a [Name]) -> Result<Vec<&'a Name>, AllocError>
    ensures { IfOk result (λ v. names_behind v.items ≡ names.now) }
{
    let mut all = Vec::new(alloc);
    for name in names {
        all.push(name)?;
    }
    Ok(all)
}
