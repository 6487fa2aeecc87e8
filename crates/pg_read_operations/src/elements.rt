//! Addresses of elements.

ghost use Rattle.std.specs.Prelude.{◌≤◌, ◌<◌, length, drop, map, IfOk};
ghost use Rattle.pg_read_grammar.specs.declared.token.Fault.TheVariants.{Unsupported};
ghost use Rattle.pg_read_grammar.specs.Grammar.{no_type};
ghost use Rattle.pg_read_grammar.specs.Reading.{unless};
ghost use Rattle.pg_read_grammar.specs.Reader.{begins_type};
ghost use Rattle.pg_read_grammar.specs.ReaderOps.{gep_op_at, gep_op_tail_at, typed_value_at, listing_at, listing_end_at, more_at, metadata_tail_at};
ghost use Rattle.pg_read_operations.specs.Listings.{listing_of};
ghost use Rattle.pg_read_operations.specs.Rows.{element_at, gep_op_end_at};
ghost use Rattle.pg_read_grammar.specs.Views.{Reads};
ghost use Rattle.pg_read_ast.specs.Views.{op_of, ty_of, typed_of};

use crate::listing::{Listing, type_goes_on, with_item};
use pg_num::limits::NESTING_LIMIT;
use pg_read_ast::{OpNode, TypeNode, TypedVal};
use pg_read_grammar::{Class, ReadError, Token};
use pg_read_terms::{
    ClassSet, Read, Text, flags, metadata_tail, next_in, take, type_node, typed_value_in,
    unsupported,
};

/// The address of an element, and the metadata behind it.
pub fn gep_op(text: &Text<'_>, at: usize) -> Read<OpNode>
    requires { at ≤ length text.now.tokens.now }
    ensures read { Reads text.now.tokens.now at (λ x. op_of x.0) (λ x. x.1) result (gep_op_at (drop at text.now.tokens.now)) }
    ensures on { IfOk result (λ x. at < x.1) }
{
    let (word, at) = take(text.tokens, at, Class::GetElementPtr)?;
    let at = flags(text.tokens, at);
    gep_op_tail(text, at, word)
}

/// What stands behind the first token of such an operation and its flags.
pub fn gep_op_tail(text: &Text<'_>, at: usize, word: &Token) -> Read<OpNode>
    requires { at ≤ length text.now.tokens.now }
    ensures { Reads text.now.tokens.now at (λ x. op_of x.0) (λ x. x.1) result (gep_op_tail_at word.now (drop at text.now.tokens.now)) }
{
    let (ty, at) = type_node(text, at, NESTING_LIMIT)?;
    gep_op_end(text, at, word, ty)
}

/// What stands behind the type of the elements.
fn gep_op_end(text: &Text<'_>, at: usize, word: &Token, ty: TypeNode) -> Read<OpNode>
    requires { at ≤ length text.now.tokens.now }
    ensures { Reads text.now.tokens.now at (λ x. op_of x.0) (λ x. x.1) result (gep_op_end_at word.now (ty_of ty) (drop at text.now.tokens.now)) }
{
    let (pointer, indices, at) = element(text, at)?;
    let node = OpNode::GetElementPtr {
        span: word.span,
        ty,
        pointer,
        indices,
    };
    Ok((node, at))
}

/// A pointer behind a comma, the indices behind it, and the metadata behind them.
fn element(text: &Text<'_>, at: usize) -> Result<(TypedVal, Vec<TypedVal>, usize), ReadError>
    requires { at ≤ length text.now.tokens.now }
    ensures { Reads text.now.tokens.now at (λ x. (typed_of x.0, map typed_of x.1.items)) (λ x. x.2) result (element_at (drop at text.now.tokens.now)) }
{
    let (_, at) = take(text.tokens, at, Class::Comma)?;
    let (pointer, at) = typed_value_in(text, at, NESTING_LIMIT)?;
    let (more, at) = more_indices(text, at)?;
    Ok((pointer, more.items, at))
}

/// The indices, and the metadata behind them.
fn more_indices(text: &Text<'_>, at: usize) -> Read<Listing<TypedVal>>
    requires { at ≤ length text.now.tokens.now }
    ensures { Reads text.now.tokens.now at (λ x. listing_of typed_of x.0) (λ x. x.1) result
        (more_at begins_type typed_value_at (unless Unsupported no_type metadata_tail_at) (drop at text.now.tokens.now)) }
{
    let mut listing = Listing {
        items: Vec::new(text.alloc),
        comma: false,
    };
    let mut place = at;
    // The label is for the proof: see docs/CONTRIBUTING.md.
    'items: while type_goes_on(text.tokens, place, listing.comma) {
        match index_or_comma(text, place, listing) {
            Err(error) => return Err(error),
            Ok((next, to)) => {
                listing = next;
                place = to;
            }
        }
    }
    indices_end(text.tokens, place, listing)
}

/// A comma, or the index behind one.
fn index_or_comma(text: &Text<'_>, at: usize, listing: Listing<TypedVal>) -> Read<Listing<TypedVal>>
    requires { at ≤ length text.now.tokens.now }
    ensures read { Reads text.now.tokens.now at (λ x. listing_of typed_of x.0) (λ x. x.1) result (listing_at typed_value_at (listing_of typed_of listing) (drop at text.now.tokens.now)) }
    ensures on { IfOk result (λ x. at < x.1) }
{
    let Listing { items, comma } = listing;
    if comma {
        let (next, to) = index(text, at)?;
        return Ok((with_item(items, next)?, to));
    }
    let (_, to) = take(text.tokens, at, Class::Comma)?;
    Ok((Listing { items, comma: true }, to))
}

/// An index, which is a token at least.
fn index(text: &Text<'_>, at: usize) -> Read<TypedVal>
    requires { at ≤ length text.now.tokens.now }
    ensures read { Reads text.now.tokens.now at (λ x. typed_of x.0) (λ x. x.1) result (typed_value_at (drop at text.now.tokens.now)) }
    ensures on { IfOk result (λ x. at < x.1) }
{
    typed_value_in(text, at, NESTING_LIMIT)
}

/// Metadata behind a comma that stands behind the indices.
fn indices_end(tokens: &[Token], at: usize, listing: Listing<TypedVal>) -> Read<Listing<TypedVal>>
    requires { at ≤ length tokens.now }
    ensures { Reads tokens.now at (λ x. listing_of typed_of x.0) (λ x. x.1) result (listing_end_at (unless Unsupported no_type metadata_tail_at) (listing_of typed_of listing) (drop at tokens.now)) }
{
    if listing.comma {
        if next_in(tokens, at, ClassSet::NoType) {
            return Err(ReadError::Refused(unsupported(at)));
        }
        let to = metadata_tail(tokens, at)?;
        return Ok((listing, to));
    }
    Ok((listing, at))
}
