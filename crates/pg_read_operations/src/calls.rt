//! Calls, and the calls that are dropped.

ghost use Rattle.std.specs.Prelude.{◌≤◌, ◌<◌, length, drop, map, IfOk};
ghost use Rattle.std.specs.Option.{option_map};
ghost use Rattle.pg_read_grammar.specs.declared.class.Class.TheVariants.{Comma};
ghost use Rattle.pg_read_grammar.specs.Classes.{is};
ghost use Rattle.pg_read_grammar.specs.Reading.{all_of, onto};
ghost use Rattle.pg_read_grammar.specs.Reader.{argument_at, listed_at, behind_comma};
ghost use Rattle.pg_read_grammar.specs.ReaderOps.{call_word_at, dropped_callee_at, call_at};
ghost use Rattle.pg_read_operations.specs.Rows.{written_or_none_at, signature_at, called_at, call_end_at};
ghost use Rattle.pg_read_grammar.specs.Views.{Reads, Takes};
ghost use Rattle.pg_read_ast.specs.Views.{op_of, ty_of, typed_of, written_of};

use crate::written::written;
use pg_num::limits::NESTING_LIMIT;
use pg_read_ast::{ArgNode, CallTypes, Name, OpNode, TypeNode};
use pg_read_grammar::{Class, INNER_NESTING_LIMIT, ReadError, ReadRefusal, Token};
use pg_read_terms::{
    ClassSet, Read, Text, argument, attributes, keep, name, next_in, next_is, skip_to, take,
    type_node, unsupported,
};
use std::alloc::Global;

fn call_word(tokens: &[Token], at: usize) -> Result<(&Token, usize), ReadRefusal>
    requires { at ≤ length tokens.now }
    ensures read { Takes tokens.now at (λ x. x.0.now) (λ x. x.1) result (call_word_at (drop at tokens.now)) }
    ensures on { IfOk result (λ x. at < x.1) }
{
    if next_is(tokens, at, Class::Call) {
        return take(tokens, at, Class::Call);
    }
    let (word, at) = take(tokens, at, Class::TailWord)?;
    let (_, at) = take(tokens, at, Class::Call)?;
    Ok((word, at))
}

fn written_or_none(text: &Text<'_>, at: usize) -> Read<Option<CallTypes>>
    requires { at ≤ length text.now.tokens.now }
    ensures { Reads text.now.tokens.now at (λ x. option_map written_of x.0) (λ x. x.1) result (written_or_none_at (drop at text.now.tokens.now)) }
{
    if next_is(text.tokens, at, Class::OpenRound) {
        let (types, at) = written(text, at)?;
        return Ok((Some(types), at));
    }
    Ok((None, at))
}

/// The types of a call: that of its result, and those that it writes for its callee, if any.
fn signature(text: &Text<'_>, at: usize) -> Result<(TypeNode, Option<CallTypes>, usize), ReadError>
    requires { at ≤ length text.now.tokens.now }
    ensures { Reads text.now.tokens.now at (λ x. (ty_of x.0, option_map written_of x.1)) (λ x. x.2) result (signature_at (drop at text.now.tokens.now)) }
{
    let (ty, at) = type_node(text, at, NESTING_LIMIT)?;
    let (written, at) = written_or_none(text, at)?;
    Ok((ty, written, at))
}

/// A global that is called, and its arguments.
fn callee(text: &Text<'_>, at: usize) -> Result<(Name, Vec<ArgNode>, usize), ReadError>
    requires { at ≤ length text.now.tokens.now }
    ensures { Reads text.now.tokens.now at (λ x. (x.0, map typed_of x.1.items)) (λ x. x.2) result (called_at (drop at text.now.tokens.now)) }
{
    if next_in(text.tokens, at, ClassSet::NoCallee) {
        return Err(ReadError::Refused(unsupported(at)));
    }
    let (global, at) = take(text.tokens, at, Class::Global)?;
    let (_, at) = take(text.tokens, at, Class::OpenRound)?;
    let callee = name(text.alloc, global)?;
    let (arguments, at) = arguments_to(text, at, Class::CloseRound)?;
    Ok((callee, arguments, at))
}

fn dropped_callee(tokens: &[Token], at: usize) -> Result<usize, ReadRefusal>
    requires { at ≤ length tokens.now }
    ensures { Takes tokens.now at (λ x. tt) (λ x. x) result (dropped_callee_at (drop at tokens.now)) }
{
    let (_, at) = take(tokens, at, Class::DroppedGlobal)?;
    let (_, at) = take(tokens, at, Class::OpenRound)?;
    skip_to(tokens, at, INNER_NESTING_LIMIT, Class::CloseRound)
}

/// A call without the attributes behind it, or nothing where it is dropped.
#[tactic(auto, unfolding(pg_read_grammar::specs::ReaderOps::call_at))]
pub fn call(text: &Text<'_>, at: usize) -> Read<Option<OpNode>>
    requires { at ≤ length text.now.tokens.now }
    ensures read { Reads text.now.tokens.now at (λ x. option_map op_of x.0) (λ x. x.1) result (call_at (drop at text.now.tokens.now)) }
    ensures on { IfOk result (λ x. at < x.1) }
{
    let (word, at) = call_word(text.tokens, at)?;
    let at = attributes(text.tokens, at)?;
    call_end(text, at, word)
}

/// What stands behind the attributes of a call's result.
fn call_end(text: &Text<'_>, at: usize, word: &Token) -> Read<Option<OpNode>>
    requires { at ≤ length text.now.tokens.now }
    ensures { Reads text.now.tokens.now at (λ x. option_map op_of x.0) (λ x. x.1) result (call_end_at word.now (drop at text.now.tokens.now)) }
{
    let (ty, written, at) = signature(text, at)?;
    if next_is(text.tokens, at, Class::DroppedGlobal) {
        let at = dropped_callee(text.tokens, at)?;
        return Ok((None, at));
    }
    let (callee, arguments, at) = callee(text, at)?;
    let node = OpNode::Call {
        span: word.span,
        ty,
        written,
        callee,
        arguments,
    };
    Ok((Some(node), at))
}

fn arguments_to(text: &Text<'_>, at: usize, close: Class) -> Read<Vec<ArgNode>>
    requires { at ≤ length text.now.tokens.now }
    ensures { Reads text.now.tokens.now at (λ x. map typed_of x.0.items) (λ x. x.1) result (listed_at close argument_at (drop at text.now.tokens.now)) }
{
    let mut all = Vec::new(text.alloc);
    if next_is(text.tokens, at, close) {
        let (_, to) = take(text.tokens, at, close)?;
        return Ok((all, to));
    }
    let (first, at) = argument(text, at)?;
    if all.push(first).is_err() {
        return Err(ReadError::Memory);
    }
    let (all, at) = more_arguments(text, at, all)?;
    let (_, at) = take(text.tokens, at, close)?;
    Ok((all, at))
}

fn more_arguments(text: &Text<'_>, at: usize, all: Vec<ArgNode>) -> Read<Vec<ArgNode>>
    requires { at ≤ length text.now.tokens.now }
    ensures { Reads text.now.tokens.now at (λ x. map typed_of x.0.items) (λ x. x.1) result
        (onto (map typed_of all.items) (all_of (is Comma) (behind_comma argument_at) (drop at text.now.tokens.now))) }
{
    let mut all = all;
    let mut place = at;
    // The label is for the proof: see docs/CONTRIBUTING.md.
    'items: while next_is(text.tokens, place, Class::Comma) {
        match comma_argument(text, place) {
            Err(error) => return Err(error),
            Ok((next, to)) => {
                keep(&mut all, next)?;
                place = to;
            }
        }
    }
    Ok((all, place))
}

fn comma_argument(text: &Text<'_>, at: usize) -> Read<ArgNode>
    requires { at ≤ length text.now.tokens.now }
    ensures read { Reads text.now.tokens.now at (λ x. typed_of x.0) (λ x. x.1) result (behind_comma argument_at (drop at text.now.tokens.now)) }
    ensures on { IfOk result (λ x. at < x.1) }
{
    let (_, to) = take(text.tokens, at, Class::Comma)?;
    argument(text, to)
}
