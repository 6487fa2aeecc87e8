//! The reader of arguments, whose attributes are dropped.

ghost use Rattle.std.specs.Prelude.{◌≡◌, ◌≤◌, ◌<◌, length, drop, IfOk};
ghost use Rattle.pg_read_grammar.specs.Reader.{fresh_at, pending_at, begins_pending, settled_at, attributed_at, argument_at, Bare};
ghost use Rattle.pg_read_grammar.specs.Reading.{comes};
ghost use Rattle.pg_read_grammar.specs.Views.{Reads, Takes};
ghost use Rattle.pg_read_terms.specs.Pending.{pending_of};
ghost use Rattle.pg_read_ast.specs.Views.{val_of, typed_of};

use crate::reader::{Read, Text, is_class, literal, next_is, take, take_if, unsupported};
use crate::sets::{ClassSet, contains, next_in, take_if_in, take_in};
use crate::skips::skip_to;
use crate::types::type_node;
use crate::values::{other_value, value};
use pg_num::limits::NESTING_LIMIT;
use pg_read_ast::{ArgNode, TypedVal, ValNode};
use pg_read_grammar::{Class, INNER_NESTING_LIMIT, ReadError, ReadRefusal, Token};

/// What stands before a place among the attributes of an argument: nothing that goes on, a word, a string,
/// or a word and this integer.
#[derive(Clone, Copy)]
pub enum Pending<'a> {
    Fresh,
    Bare,
    Quoted,
    Held(&'a Token),
}

fn take_fresh<'a>(tokens: &'a [Token], at: usize) -> Result<(Pending<'a>, usize), ReadRefusal>
    requires { at ≤ length tokens.now }
    ensures read { Takes tokens.now at (λ x. pending_of x.0) (λ x. x.1) result (fresh_at (drop at tokens.now)) }
    ensures on { IfOk result (λ x. at < x.1) }
{
    if let Some((_, to)) = take_if_in(tokens, at, ClassSet::AttributeWord) {
        return Ok((Pending::Bare, to));
    }
    if let Some((_, to)) = take_if_in(tokens, at, ClassSet::AttributeName) {
        return Ok((Pending::Fresh, to));
    }
    if let Some((_, to)) = take_if(tokens, at, Class::Str) {
        return Ok((Pending::Quoted, to));
    }
    let (_, at) = take_in(tokens, at, ClassSet::MetadataName)?;
    let (_, to) = take_in(tokens, at, ClassSet::MetadataName)?;
    Ok((Pending::Fresh, to))
}

#[tactic(auto, unfolding(pg_read_grammar::specs::Reader::pending_at))]
fn take_pending<'a>(
    tokens: &'a [Token],
    at: usize,
    state: Pending<'a>,
) -> Result<(Pending<'a>, usize), ReadRefusal>
    requires { at ≤ length tokens.now }
    ensures read { Takes tokens.now at (λ x. pending_of x.0) (λ x. x.1) result (pending_at (pending_of state.entry) (drop at tokens.now)) }
    ensures on { IfOk result (λ x. at < x.1) }
{
    match state {
        Pending::Bare => {
            if let Some((number, to)) = take_if(tokens, at, Class::Int) {
                return Ok((Pending::Held(number), to));
            }
            if let Some((_, at)) = take_if(tokens, at, Class::OpenRound) {
                let to = skip_to(tokens, at, INNER_NESTING_LIMIT, Class::CloseRound)?;
                return Ok((Pending::Fresh, to));
            }
            take_fresh(tokens, at)
        }
        Pending::Quoted => {
            if let Some((_, at)) = take_if(tokens, at, Class::Equals) {
                let (_, to) = take(tokens, at, Class::Str)?;
                return Ok((Pending::Fresh, to));
            }
            take_fresh(tokens, at)
        }
        _ => take_fresh(tokens, at),
    }
}

/// A token goes on with what stands before the place.
fn begins(state: &Pending<'_>, class: Class) -> bool
    ensures { result ≡ begins_pending (pending_of state.now) class }
{
    match state {
        Pending::Bare => bare_goes_on(class),
        Pending::Quoted => is_class(class, Class::Equals) || contains(ClassSet::Attribute, class),
        _ => contains(ClassSet::Attribute, class),
    }
}

fn bare_goes_on(class: Class) -> bool
    ensures { result ≡ begins_pending Bare class }
{
    match class {
        Class::Int | Class::OpenRound => true,
        _ => contains(ClassSet::Attribute, class),
    }
}

fn pending_next(tokens: &[Token], at: usize, state: &Pending<'_>) -> bool
    requires { at ≤ length tokens.now }
    ensures { result ≡ comes (begins_pending (pending_of state.now)) (drop at tokens.now) }
{
    at < tokens.len() && begins(state, tokens[at].class)
}

#[tactic(auto, unfolding(pg_read_grammar::specs::Reader::settled_at))]
fn settled(text: &Text<'_>, at: usize, state: Pending<'_>) -> Read<ValNode>
    requires { at ≤ length text.now.tokens.now }
    ensures { Reads text.now.tokens.now at (λ x. val_of x.0) (λ x. x.1) result (settled_at (pending_of state.entry) (drop at text.now.tokens.now)) }
{
    if next_is(text.tokens, at, Class::Refused) {
        return Err(ReadError::Refused(unsupported(at)));
    }
    match state {
        Pending::Bare => other_value(text, at, NESTING_LIMIT),
        Pending::Held(number) => {
            if next_in(text.tokens, at, ClassSet::Value) {
                return value(text, at, NESTING_LIMIT);
            }
            Ok((ValNode::Int(literal(text.alloc, number)?), at))
        }
        _ => value(text, at, NESTING_LIMIT),
    }
}

#[tactic(auto, unfolding(pg_read_grammar::specs::Reader::attributed_at))]
fn attributed(text: &Text<'_>, at: usize) -> Read<ValNode>
    requires { at ≤ length text.now.tokens.now }
    ensures { Reads text.now.tokens.now at (λ x. val_of x.0) (λ x. x.1) result (attributed_at (drop at text.now.tokens.now)) }
{
    let mut state = Pending::Fresh;
    let mut place = at;
    // The label is for the proof: see docs/CONTRIBUTING.md.
    'items: while pending_next(text.tokens, place, &state) {
        match take_pending(text.tokens, place, state) {
            Err(refusal) => return Err(ReadError::Refused(refusal)),
            Ok((next, to)) => {
                state = next;
                place = to;
            }
        }
    }
    settled(text, place, state)
}

/// An argument of a call.
pub fn argument(text: &Text<'_>, at: usize) -> Read<ArgNode>
    requires { at ≤ length text.now.tokens.now }
    ensures { Reads text.now.tokens.now at (λ x. typed_of x.0) (λ x. x.1) result (argument_at (drop at text.now.tokens.now)) }
{
    let (ty, at) = type_node(text, at, NESTING_LIMIT)?;
    let (value, at) = attributed(text, at)?;
    Ok((TypedVal { ty, value }, at))
}
