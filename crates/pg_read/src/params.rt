//! The parameters of functions.

ghost use Rattle.std.specs.Prelude.{◌≤◌, ◌<◌, length, drop, map, IfOk};
ghost use Rattle.pg_read_grammar.specs.declared.class.Class.TheVariants.{CloseRound, Comma};
ghost use Rattle.pg_read_grammar.specs.Classes.{is};
ghost use Rattle.pg_read_grammar.specs.Reading.{onto, all_of};
ghost use Rattle.pg_read_grammar.specs.Reader.{listed_at, behind_comma};
ghost use Rattle.pg_read_grammar.specs.ReaderItems.{param_at, dparam_at, defined_param_at};
ghost use Rattle.pg_read.specs.ItemStates.{maybe_name_at};
ghost use Rattle.pg_read_grammar.specs.Views.{Reads};
ghost use Rattle.pg_read_ast.specs.Views.{param_of, dparam_of};

use pg_num::limits::NESTING_LIMIT;
use pg_read_ast::{DparamNode, Name, ParamNode};
use pg_read_grammar::{Class, ReadError};
use pg_read_terms::{Read, Text, attributes, keep, name, next_is, take, type_node, unsupported};

fn maybe_name(text: &Text<'_>, at: usize) -> Read<Option<Name>>
    requires { at ≤ length text.now.tokens.now }
    ensures { Reads text.now.tokens.now at (λ x. x.0) (λ x. x.1) result (maybe_name_at (drop at text.now.tokens.now)) }
{
    if next_is(text.tokens, at, Class::Local) {
        let (token, to) = take(text.tokens, at, Class::Local)?;
        return Ok((Some(name(text.alloc, token)?), to));
    }
    Ok((None, at))
}

#[tactic(auto, unfolding(pg_read_grammar::specs::ReaderItems::param_at))]
fn param(text: &Text<'_>, at: usize) -> Read<ParamNode>
    requires { at ≤ length text.now.tokens.now }
    ensures { Reads text.now.tokens.now at (λ x. param_of x.0) (λ x. x.1) result (param_at (drop at text.now.tokens.now)) }
{
    let (ty, at) = type_node(text, at, NESTING_LIMIT)?;
    let at = attributes(text.tokens, at)?;
    let (name, at) = maybe_name(text, at)?;
    Ok((ParamNode { ty, name }, at))
}

fn defined_param(text: &Text<'_>, at: usize) -> Read<ParamNode>
    requires { at ≤ length text.now.tokens.now }
    ensures { Reads text.now.tokens.now at (λ x. param_of x.0) (λ x. x.1) result (defined_param_at (drop at text.now.tokens.now)) }
{
    if next_is(text.tokens, at, Class::Dots) {
        return Err(ReadError::Refused(unsupported(at)));
    }
    param(text, at)
}

fn dparam(text: &Text<'_>, at: usize) -> Read<DparamNode>
    requires { at ≤ length text.now.tokens.now }
    ensures { Reads text.now.tokens.now at (λ x. dparam_of x.0) (λ x. x.1) result (dparam_at (drop at text.now.tokens.now)) }
{
    if next_is(text.tokens, at, Class::MetadataWord) {
        let (token, to) = take(text.tokens, at, Class::MetadataWord)?;
        return Ok((DparamNode::Metadata(token.span), to));
    }
    if next_is(text.tokens, at, Class::Dots) {
        let (token, to) = take(text.tokens, at, Class::Dots)?;
        return Ok((DparamNode::Dots(token.span), to));
    }
    let (param, to) = param(text, at)?;
    Ok((DparamNode::Param(param), to))
}

/// The parameters of a function that is defined, up to the closing bracket.
pub fn params(text: &Text<'_>, at: usize) -> Read<Vec<ParamNode>>
    requires { at ≤ length text.now.tokens.now }
    ensures { Reads text.now.tokens.now at (λ x. map param_of x.0.items) (λ x. x.1) result (listed_at CloseRound defined_param_at (drop at text.now.tokens.now)) }
{
    let mut all = Vec::new(text.alloc);
    if next_is(text.tokens, at, Class::CloseRound) {
        let (_, to) = take(text.tokens, at, Class::CloseRound)?;
        return Ok((all, to));
    }
    let (first, at) = defined_param(text, at)?;
    if all.push(first).is_err() {
        return Err(ReadError::Memory);
    }
    let (all, at) = more_params(text, at, all)?;
    let (_, at) = take(text.tokens, at, Class::CloseRound)?;
    Ok((all, at))
}

fn more_params(text: &Text<'_>, at: usize, all: Vec<ParamNode>) -> Read<Vec<ParamNode>>
    requires { at ≤ length text.now.tokens.now }
    ensures { Reads text.now.tokens.now at (λ x. map param_of x.0.items) (λ x. x.1) result
        (onto (map param_of all.items) (all_of (is Comma) (behind_comma defined_param_at) (drop at text.now.tokens.now))) }
{
    let mut all = all;
    let mut place = at;
    // The label is for the proof: see docs/CONTRIBUTING.md.
    'items: while next_is(text.tokens, place, Class::Comma) {
        match comma_param(text, place) {
            Err(error) => return Err(error),
            Ok((next, to)) => {
                keep(&mut all, next)?;
                place = to;
            }
        }
    }
    Ok((all, place))
}

fn comma_param(text: &Text<'_>, at: usize) -> Read<ParamNode>
    requires { at ≤ length text.now.tokens.now }
    ensures read { Reads text.now.tokens.now at (λ x. param_of x.0) (λ x. x.1) result (behind_comma defined_param_at (drop at text.now.tokens.now)) }
    ensures on { IfOk result (λ x. at < x.1) }
{
    let (_, to) = take(text.tokens, at, Class::Comma)?;
    defined_param(text, to)
}

/// The parameters of a function that is declared, up to the closing bracket.
pub fn declared_params(text: &Text<'_>, at: usize) -> Read<Vec<DparamNode>>
    requires { at ≤ length text.now.tokens.now }
    ensures { Reads text.now.tokens.now at (λ x. map dparam_of x.0.items) (λ x. x.1) result (listed_at CloseRound dparam_at (drop at text.now.tokens.now)) }
{
    let mut all = Vec::new(text.alloc);
    if next_is(text.tokens, at, Class::CloseRound) {
        let (_, to) = take(text.tokens, at, Class::CloseRound)?;
        return Ok((all, to));
    }
    let (first, at) = dparam(text, at)?;
    if all.push(first).is_err() {
        return Err(ReadError::Memory);
    }
    let (all, at) = more_declared(text, at, all)?;
    let (_, at) = take(text.tokens, at, Class::CloseRound)?;
    Ok((all, at))
}

fn more_declared(text: &Text<'_>, at: usize, all: Vec<DparamNode>) -> Read<Vec<DparamNode>>
    requires { at ≤ length text.now.tokens.now }
    ensures { Reads text.now.tokens.now at (λ x. map dparam_of x.0.items) (λ x. x.1) result
        (onto (map dparam_of all.items) (all_of (is Comma) (behind_comma dparam_at) (drop at text.now.tokens.now))) }
{
    let mut all = all;
    let mut place = at;
    // The label is for the proof: see docs/CONTRIBUTING.md.
    'items: while next_is(text.tokens, place, Class::Comma) {
        match comma_declared(text, place) {
            Err(error) => return Err(error),
            Ok((next, to)) => {
                keep(&mut all, next)?;
                place = to;
            }
        }
    }
    Ok((all, place))
}

fn comma_declared(text: &Text<'_>, at: usize) -> Read<DparamNode>
    requires { at ≤ length text.now.tokens.now }
    ensures read { Reads text.now.tokens.now at (λ x. dparam_of x.0) (λ x. x.1) result (behind_comma dparam_at (drop at text.now.tokens.now)) }
    ensures on { IfOk result (λ x. at < x.1) }
{
    let (_, to) = take(text.tokens, at, Class::Comma)?;
    dparam(text, to)
}
