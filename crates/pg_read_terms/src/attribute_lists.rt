//! Attributes of functions and of their results, which are dropped.

ghost use Rattle.std.specs.Prelude.{◌≤◌, ◌<◌, length, drop, IfOk};
ghost use Rattle.pg_read_grammar.specs.Reading.{all_of};
ghost use Rattle.pg_read_grammar.specs.Reader.{attribute_at, attributes_at, begins_attribute, drop_value_at};
ghost use Rattle.pg_read_grammar.specs.Views.{Takes};

use crate::reader::{next_is, take, take_if, unsupported};
use crate::sets::{ClassSet, next_in, take_if_in, take_in};
use crate::skips::skip_to;
use pg_read_grammar::{Class, INNER_NESTING_LIMIT, ReadRefusal, Token};

/// An attribute: a word with an integer, a skip or nothing behind it, the name of a group, a string with a
/// value or none, or two metadata names.
#[tactic(auto, unfolding(pg_read_grammar::specs::Reader::attribute_at))]
pub fn attribute(tokens: &[Token], at: usize) -> Result<usize, ReadRefusal>
    requires { at ≤ length tokens.now }
    ensures read { Takes tokens.now at (λ x. tt) (λ x. x) result (attribute_at (drop at tokens.now)) }
    ensures on { IfOk result (λ x. at < x) }
{
    if let Some((_, at)) = take_if_in(tokens, at, ClassSet::AttributeWord) {
        if let Some((_, to)) = take_if(tokens, at, Class::Int) {
            return Ok(to);
        }
        if let Some((_, at)) = take_if(tokens, at, Class::OpenRound) {
            return skip_to(tokens, at, INNER_NESTING_LIMIT, Class::CloseRound);
        }
        return Ok(at);
    }
    if let Some((_, to)) = take_if_in(tokens, at, ClassSet::AttributeName) {
        return Ok(to);
    }
    if let Some((_, at)) = take_if(tokens, at, Class::Str) {
        if let Some((_, at)) = take_if(tokens, at, Class::Equals) {
            let (_, to) = take(tokens, at, Class::Str)?;
            return Ok(to);
        }
        return Ok(at);
    }
    let (_, at) = take_in(tokens, at, ClassSet::MetadataName)?;
    let (_, to) = take_in(tokens, at, ClassSet::MetadataName)?;
    Ok(to)
}

fn attribute_list(tokens: &[Token], at: usize) -> Result<usize, ReadRefusal>
    requires { at ≤ length tokens.now }
    ensures { Takes tokens.now at (λ x. tt) (λ x. x) result (drop_value_at (all_of begins_attribute attribute_at) (drop at tokens.now)) }
{
    let mut place = at;
    while next_in(tokens, place, ClassSet::Attribute) {
        match attribute(tokens, place) {
            Err(error) => return Err(error),
            Ok(to) => place = to,
        }
    }
    Ok(place)
}

/// Attributes are dropped.
#[tactic(auto, unfolding(pg_read_grammar::specs::Reader::attributes_at))]
pub fn attributes(tokens: &[Token], at: usize) -> Result<usize, ReadRefusal>
    requires { at ≤ length tokens.now }
    ensures { Takes tokens.now at (λ x. tt) (λ x. x) result (attributes_at (drop at tokens.now)) }
{
    let at = attribute_list(tokens, at)?;
    if next_is(tokens, at, Class::Refused) {
        return Err(unsupported(at));
    }
    Ok(at)
}
