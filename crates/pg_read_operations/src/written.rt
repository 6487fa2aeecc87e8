//! The types that a call writes for its callee.

ghost use Rattle.std.specs.Prelude.{◌≡◌, ◌≤◌, ◌<◌, [], ◌∷◌, length, drop, map, IfOk};
ghost use Rattle.pg_num.specs.declared.limits.TheConstants.{NESTING_LIMIT};
ghost use Rattle.pg_read_grammar.specs.declared.token.Fault.TheVariants.{Unsupported};
ghost use Rattle.pg_read_grammar.specs.declared.class.Class.TheVariants.{Dots};
ghost use Rattle.pg_read_grammar.specs.Classes.{is};
ghost use Rattle.pg_read_grammar.specs.Grammar.{no_type};
ghost use Rattle.pg_read_grammar.specs.Reading.{unless, take_one};
ghost use Rattle.pg_read_grammar.specs.Reader.{begins_type, type_at, drop_value_at};
ghost use Rattle.pg_read_grammar.specs.ReaderOps.{written_at, listing_at, listing_end_at, more_at};
ghost use Rattle.pg_read_operations.specs.Listings.{listing_of};
ghost use Rattle.pg_read_grammar.specs.Views.{Reads};
ghost use Rattle.pg_read_ast.specs.Views.{ty_of, written_of};

use crate::listing::{Listing, type_goes_on, with_item};
use pg_num::limits::NESTING_LIMIT;
use pg_read_ast::{CallTypes, TypeNode};
use pg_read_grammar::{Class, ReadError, Token};
use pg_read_terms::{ClassSet, Read, Text, next_in, next_is, take, type_node, unsupported};
use std::alloc::{AllocError, Global};

/// The types that a call writes for its callee's parameters.
#[tactic(auto, unfolding(pg_read_grammar::specs::ReaderOps::written_at))]
pub fn written(text: &Text<'_>, at: usize) -> Read<CallTypes>
    requires { at ≤ length text.now.tokens.now }
    ensures { Reads text.now.tokens.now at (λ x. written_of x.0) (λ x. x.1) result (written_at (drop at text.now.tokens.now)) }
{
    let (_, at) = take(text.tokens, at, Class::OpenRound)?;
    if next_is(text.tokens, at, Class::Dots) {
        let (_, at) = take(text.tokens, at, Class::Dots)?;
        let (_, at) = take(text.tokens, at, Class::CloseRound)?;
        return Ok((untyped(text.alloc, true), at));
    }
    if next_is(text.tokens, at, Class::Comma) {
        let (_, at) = take(text.tokens, at, Class::Comma)?;
        let (_, at) = take(text.tokens, at, Class::Dots)?;
        let (_, at) = take(text.tokens, at, Class::CloseRound)?;
        return Ok((untyped(text.alloc, true), at));
    }
    if next_is(text.tokens, at, Class::CloseRound) {
        let (_, at) = take(text.tokens, at, Class::CloseRound)?;
        return Ok((untyped(text.alloc, false), at));
    }
    let (first, at) = type_node(text, at, NESTING_LIMIT)?;
    let (more, at) = more_written(text, at)?;
    let (_, at) = take(text.tokens, at, Class::CloseRound)?;
    let types = with_first(first, more.items)?;
    Ok((
        CallTypes {
            types,
            dots: more.comma,
        },
        at,
    ))
}

fn untyped(alloc: Global, dots: bool) -> CallTypes
    ensures { written_of result ≡ record { types = []; dots = dots } }
{
    CallTypes {
        types: Vec::new(alloc),
        dots,
    }
}

/// The types with this one in front.
fn with_first(first: TypeNode, types: Vec<TypeNode>) -> Result<Vec<TypeNode>, AllocError>
    ensures { IfOk result (λ all. map ty_of all.items ≡ ty_of first ∷ map ty_of types.items) }
{
    let mut types = types;
    types.insert(0, first)?;
    Ok(types)
}

/// The types behind the first one, and whether dots stand behind them.
fn more_written(text: &Text<'_>, at: usize) -> Read<Listing<TypeNode>>
    requires { at ≤ length text.now.tokens.now }
    ensures { Reads text.now.tokens.now at (λ x. listing_of ty_of x.0) (λ x. x.1) result
        (more_at begins_type (type_at NESTING_LIMIT) (unless Unsupported no_type (drop_value_at (take_one (is Dots)))) (drop at text.now.tokens.now)) }
{
    let mut listing = Listing {
        items: Vec::new(text.alloc),
        comma: false,
    };
    let mut place = at;
    // The label is for the proof: see docs/CONTRIBUTING.md.
    'items: while type_goes_on(text.tokens, place, listing.comma) {
        match type_or_comma(text, place, listing) {
            Err(error) => return Err(error),
            Ok((next, to)) => {
                listing = next;
                place = to;
            }
        }
    }
    written_end(text.tokens, place, listing)
}

/// A comma, or the type behind one.
fn type_or_comma(text: &Text<'_>, at: usize, listing: Listing<TypeNode>) -> Read<Listing<TypeNode>>
    requires { at ≤ length text.now.tokens.now }
    ensures read { Reads text.now.tokens.now at (λ x. listing_of ty_of x.0) (λ x. x.1) result (listing_at (type_at NESTING_LIMIT) (listing_of ty_of listing) (drop at text.now.tokens.now)) }
    ensures on { IfOk result (λ x. at < x.1) }
{
    let Listing { items, comma } = listing;
    if comma {
        let (next, to) = some_type(text, at)?;
        return Ok((with_item(items, next)?, to));
    }
    let (_, to) = take(text.tokens, at, Class::Comma)?;
    Ok((Listing { items, comma: true }, to))
}

/// A type, which is a token at least.
fn some_type(text: &Text<'_>, at: usize) -> Read<TypeNode>
    requires { at ≤ length text.now.tokens.now }
    ensures read { Reads text.now.tokens.now at (λ x. ty_of x.0) (λ x. x.1) result (type_at NESTING_LIMIT (drop at text.now.tokens.now)) }
    ensures on { IfOk result (λ x. at < x.1) }
{
    type_node(text, at, NESTING_LIMIT)
}

/// The dots behind a comma that stands behind the types.
fn written_end(tokens: &[Token], at: usize, listing: Listing<TypeNode>) -> Read<Listing<TypeNode>>
    requires { at ≤ length tokens.now }
    ensures { Reads tokens.now at (λ x. listing_of ty_of x.0) (λ x. x.1) result
        (listing_end_at (unless Unsupported no_type (drop_value_at (take_one (is Dots)))) (listing_of ty_of listing) (drop at tokens.now)) }
{
    if listing.comma {
        if next_in(tokens, at, ClassSet::NoType) {
            return Err(ReadError::Refused(unsupported(at)));
        }
        let (_, to) = take(tokens, at, Class::Dots)?;
        return Ok((listing, to));
    }
    Ok((listing, at))
}
