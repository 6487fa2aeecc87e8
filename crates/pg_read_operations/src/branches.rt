//! Branches, switches and what is never reached.

ghost use Rattle.std.specs.Prelude.{◌≤◌, ◌<◌, length, drop, map, IfOk};
ghost use Rattle.pg_read_grammar.specs.Reading.{all_of};
ghost use Rattle.pg_read_grammar.specs.Reader.{begins_type, behind_comma};
ghost use Rattle.pg_read_grammar.specs.ReaderOps.{target_at, branch_at, case_at, switch_at, unreachable_at};
ghost use Rattle.pg_read_grammar.specs.Views.{Reads, Takes};
ghost use Rattle.pg_read_operations.specs.Rows.{targets_at, branch_end_at, case_end_at, closed_cases_at, ways_at, switch_end_at};
ghost use Rattle.pg_read_ast.specs.Views.{op_of, typed_of, case_of};

use pg_num::limits::NESTING_LIMIT;
use pg_read_ast::{CaseNode, Name, OpNode, TypedVal};
use pg_read_grammar::{Class, ReadError, ReadRefusal, Token};
use pg_read_terms::{
    ClassSet, Read, Text, keep, name, next_in, next_is, take, typed_value_in, unsupported,
};

fn target(text: &Text<'_>, at: usize) -> Read<Name>
    requires { at ≤ length text.now.tokens.now }
    ensures read { Reads text.now.tokens.now at (λ x. x.0) (λ x. x.1) result (target_at (drop at text.now.tokens.now)) }
    ensures on { IfOk result (λ x. at < x.1) }
{
    let (_, at) = take(text.tokens, at, Class::LabelWord)?;
    let (label, at) = take(text.tokens, at, Class::Local)?;
    Ok((name(text.alloc, label)?, at))
}

/// A branch, with a condition or without.
pub fn branch(text: &Text<'_>, at: usize) -> Read<OpNode>
    requires { at ≤ length text.now.tokens.now }
    ensures read { Reads text.now.tokens.now at (λ x. op_of x.0) (λ x. x.1) result (branch_at (drop at text.now.tokens.now)) }
    ensures on { IfOk result (λ x. at < x.1) }
{
    let (word, at) = take(text.tokens, at, Class::Br)?;
    if next_is(text.tokens, at, Class::LabelWord) {
        let (block, at) = target(text, at)?;
        let node = OpNode::Br {
            span: word.span,
            block,
        };
        return Ok((node, at));
    }
    let (condition, at) = typed_value_in(text, at, NESTING_LIMIT)?;
    branch_end(text, at, word, condition)
}

/// What stands behind the condition of a branch.
fn branch_end(text: &Text<'_>, at: usize, word: &Token, condition: TypedVal) -> Read<OpNode>
    requires { at ≤ length text.now.tokens.now }
    ensures { Reads text.now.tokens.now at (λ x. op_of x.0) (λ x. x.1) result (branch_end_at word.now (typed_of condition) (drop at text.now.tokens.now)) }
{
    let (yes, no, at) = targets(text, at)?;
    let node = OpNode::CondBr {
        span: word.span,
        condition,
        yes,
        no,
    };
    Ok((node, at))
}

/// Two blocks, each behind a comma.
fn targets(text: &Text<'_>, at: usize) -> Result<(Name, Name, usize), ReadError>
    requires { at ≤ length text.now.tokens.now }
    ensures { Reads text.now.tokens.now at (λ x. (x.0, x.1)) (λ x. x.2) result (targets_at (drop at text.now.tokens.now)) }
{
    let (_, at) = take(text.tokens, at, Class::Comma)?;
    let (yes, at) = target(text, at)?;
    let (_, at) = take(text.tokens, at, Class::Comma)?;
    let (no, at) = target(text, at)?;
    Ok((yes, no, at))
}

fn case(text: &Text<'_>, at: usize) -> Read<CaseNode>
    requires { at ≤ length text.now.tokens.now }
    ensures read { Reads text.now.tokens.now at (λ x. case_of x.0) (λ x. x.1) result (case_at (drop at text.now.tokens.now)) }
    ensures on { IfOk result (λ x. at < x.1) }
{
    let (value, at) = typed_value_in(text, at, NESTING_LIMIT)?;
    case_end(text, at, value)
}

/// What stands behind the value of a case.
fn case_end(text: &Text<'_>, at: usize, value: TypedVal) -> Read<CaseNode>
    requires { at ≤ length text.now.tokens.now }
    ensures read { Reads text.now.tokens.now at (λ x. case_of x.0) (λ x. x.1) result (case_end_at (typed_of value) (drop at text.now.tokens.now)) }
    ensures on { IfOk result (λ x. at < x.1) }
{
    let (block, at) = comma_target(text, at)?;
    Ok((CaseNode { value, block }, at))
}

/// A block behind a comma.
fn comma_target(text: &Text<'_>, at: usize) -> Read<Name>
    requires { at ≤ length text.now.tokens.now }
    ensures read { Reads text.now.tokens.now at (λ x. x.0) (λ x. x.1) result (behind_comma target_at (drop at text.now.tokens.now)) }
    ensures on { IfOk result (λ x. at < x.1) }
{
    let (_, to) = take(text.tokens, at, Class::Comma)?;
    target(text, to)
}

fn cases(text: &Text<'_>, at: usize) -> Read<Vec<CaseNode>>
    requires { at ≤ length text.now.tokens.now }
    ensures { Reads text.now.tokens.now at (λ x. map case_of x.0.items) (λ x. x.1) result (all_of begins_type case_at (drop at text.now.tokens.now)) }
{
    let mut all = Vec::new(text.alloc);
    let mut place = at;
    // The label is for the proof: see docs/CONTRIBUTING.md.
    'items: while next_in(text.tokens, place, ClassSet::Type) {
        match case(text, place) {
            Err(error) => return Err(error),
            Ok((next, to)) => {
                keep(&mut all, next)?;
                place = to;
            }
        }
    }
    Ok((all, place))
}

/// A choice of a block by a value.
pub fn switch(text: &Text<'_>, at: usize) -> Read<OpNode>
    requires { at ≤ length text.now.tokens.now }
    ensures read { Reads text.now.tokens.now at (λ x. op_of x.0) (λ x. x.1) result (switch_at (drop at text.now.tokens.now)) }
    ensures on { IfOk result (λ x. at < x.1) }
{
    let (word, at) = take(text.tokens, at, Class::Switch)?;
    let (value, at) = typed_value_in(text, at, NESTING_LIMIT)?;
    switch_end(text, at, word, value)
}

/// What stands behind the value of a switch.
fn switch_end(text: &Text<'_>, at: usize, word: &Token, value: TypedVal) -> Read<OpNode>
    requires { at ≤ length text.now.tokens.now }
    ensures { Reads text.now.tokens.now at (λ x. op_of x.0) (λ x. x.1) result (switch_end_at word.now (typed_of value) (drop at text.now.tokens.now)) }
{
    let (other, all, at) = ways(text, at)?;
    let node = OpNode::Switch {
        span: word.span,
        value,
        other,
        cases: all,
    };
    Ok((node, at))
}

/// The default behind a comma, and the cases in their brackets.
fn ways(text: &Text<'_>, at: usize) -> Result<(Name, Vec<CaseNode>, usize), ReadError>
    requires { at ≤ length text.now.tokens.now }
    ensures { Reads text.now.tokens.now at (λ x. (x.0, map case_of x.1.items)) (λ x. x.2) result (ways_at (drop at text.now.tokens.now)) }
{
    let (_, at) = take(text.tokens, at, Class::Comma)?;
    let (other, at) = target(text, at)?;
    let (_, at) = take(text.tokens, at, Class::OpenSquare)?;
    let (all, at) = closed_cases(text, at)?;
    Ok((other, all, at))
}

/// The cases of a switch, and the bracket behind them.
fn closed_cases(text: &Text<'_>, at: usize) -> Read<Vec<CaseNode>>
    requires { at ≤ length text.now.tokens.now }
    ensures { Reads text.now.tokens.now at (λ x. map case_of x.0.items) (λ x. x.1) result (closed_cases_at (drop at text.now.tokens.now)) }
{
    let (all, at) = cases(text, at)?;
    if next_in(text.tokens, at, ClassSet::NoType) {
        return Err(ReadError::Refused(unsupported(at)));
    }
    let (_, at) = take(text.tokens, at, Class::CloseSquare)?;
    Ok((all, at))
}

/// A place that is never reached.
pub fn unreachable_op(tokens: &[Token], at: usize) -> Result<(OpNode, usize), ReadRefusal>
    requires { at ≤ length tokens.now }
    ensures read { Takes tokens.now at (λ x. op_of x.0) (λ x. x.1) result (unreachable_at (drop at tokens.now)) }
    ensures on { IfOk result (λ x. at < x.1) }
{
    let (word, at) = take(tokens, at, Class::Unreachable)?;
    Ok((OpNode::Unreachable { span: word.span }, at))
}
