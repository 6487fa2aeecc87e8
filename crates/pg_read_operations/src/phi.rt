//! Values by the block before.

ghost use Rattle.std.specs.Prelude.{◌≤◌, ◌<◌, length, drop, IfOk};
ghost use Rattle.pg_read_grammar.specs.declared.class.Class.TheVariants.{OpenSquare};
ghost use Rattle.pg_read_grammar.specs.Classes.{is};
ghost use Rattle.pg_read_grammar.specs.ReaderOps.{incoming_at, phi_at, listing_at, listing_end_at, more_at, metadata_tail_at};
ghost use Rattle.pg_read_operations.specs.Listings.{listing_of};
ghost use Rattle.pg_read_operations.specs.Rows.{label_at, incoming_tail_at};
ghost use Rattle.pg_read_grammar.specs.Views.{Reads};
ghost use Rattle.pg_read_ast.specs.Views.{op_of, val_of, incoming_of};

use crate::listing::{Listing, square_goes_on, with_item};
use pg_num::limits::NESTING_LIMIT;
use pg_read_ast::{IncomingNode, Name, OpNode, ValNode};
use pg_read_grammar::{Class, ReadError, Token};
use pg_read_terms::{Read, Text, metadata_tail, name, take, type_node, value};

fn incoming(text: &Text<'_>, at: usize) -> Read<IncomingNode>
    requires { at ≤ length text.now.tokens.now }
    ensures read { Reads text.now.tokens.now at (λ x. incoming_of x.0) (λ x. x.1) result (incoming_at (drop at text.now.tokens.now)) }
    ensures on { IfOk result (λ x. at < x.1) }
{
    let (_, at) = take(text.tokens, at, Class::OpenSquare)?;
    let (value, at) = value(text, at, NESTING_LIMIT)?;
    incoming_tail(text, at, value)
}

/// What stands behind the value that comes from a block.
fn incoming_tail(text: &Text<'_>, at: usize, value: ValNode) -> Read<IncomingNode>
    requires { at ≤ length text.now.tokens.now }
    ensures { Reads text.now.tokens.now at (λ x. incoming_of x.0) (λ x. x.1) result (incoming_tail_at (val_of value) (drop at text.now.tokens.now)) }
{
    let (block, at) = label(text, at)?;
    Ok((IncomingNode { value, block }, at))
}

/// A block's name between a comma and a closing bracket.
fn label(text: &Text<'_>, at: usize) -> Read<Name>
    requires { at ≤ length text.now.tokens.now }
    ensures { Reads text.now.tokens.now at (λ x. x.0) (λ x. x.1) result (label_at (drop at text.now.tokens.now)) }
{
    let (_, at) = take(text.tokens, at, Class::Comma)?;
    let (local, at) = take(text.tokens, at, Class::Local)?;
    let (_, at) = take(text.tokens, at, Class::CloseSquare)?;
    let block = name(text.alloc, local)?;
    Ok((block, at))
}

/// A comma, or the value behind one.
fn incoming_or_comma(
    text: &Text<'_>,
    at: usize,
    listing: Listing<IncomingNode>,
) -> Read<Listing<IncomingNode>>
    requires { at ≤ length text.now.tokens.now }
    ensures read { Reads text.now.tokens.now at (λ x. listing_of incoming_of x.0) (λ x. x.1) result (listing_at incoming_at (listing_of incoming_of listing) (drop at text.now.tokens.now)) }
    ensures on { IfOk result (λ x. at < x.1) }
{
    let Listing { items, comma } = listing;
    if comma {
        let (next, to) = incoming(text, at)?;
        return Ok((with_item(items, next)?, to));
    }
    let (_, to) = take(text.tokens, at, Class::Comma)?;
    Ok((Listing { items, comma: true }, to))
}

/// Metadata behind a comma that stands behind the values.
fn incoming_end(
    tokens: &[Token],
    at: usize,
    listing: Listing<IncomingNode>,
) -> Read<Listing<IncomingNode>>
    requires { at ≤ length tokens.now }
    ensures { Reads tokens.now at (λ x. listing_of incoming_of x.0) (λ x. x.1) result (listing_end_at metadata_tail_at (listing_of incoming_of listing) (drop at tokens.now)) }
{
    if listing.comma {
        let to = metadata_tail(tokens, at)?;
        return Ok((listing, to));
    }
    Ok((listing, at))
}

/// The values behind the first one, and the metadata behind them.
fn more_incoming(text: &Text<'_>, at: usize) -> Read<Listing<IncomingNode>>
    requires { at ≤ length text.now.tokens.now }
    ensures { Reads text.now.tokens.now at (λ x. listing_of incoming_of x.0) (λ x. x.1) result (more_at (is OpenSquare) incoming_at metadata_tail_at (drop at text.now.tokens.now)) }
{
    let mut listing = Listing {
        items: Vec::new(text.alloc),
        comma: false,
    };
    let mut place = at;
    // The label is for the proof: see docs/CONTRIBUTING.md.
    'items: while square_goes_on(text.tokens, place, listing.comma) {
        match incoming_or_comma(text, place, listing) {
            Err(error) => return Err(error),
            Ok((next, to)) => {
                listing = next;
                place = to;
            }
        }
    }
    incoming_end(text.tokens, place, listing)
}

/// The choice of a value by the block before, and the metadata behind it.
pub fn phi(text: &Text<'_>, at: usize) -> Read<OpNode>
    requires { at ≤ length text.now.tokens.now }
    ensures read { Reads text.now.tokens.now at (λ x. op_of x.0) (λ x. x.1) result (phi_at (drop at text.now.tokens.now)) }
    ensures on { IfOk result (λ x. at < x.1) }
{
    let (word, at) = take(text.tokens, at, Class::Phi)?;
    let (ty, at) = type_node(text, at, NESTING_LIMIT)?;
    let (first, at) = incoming(text, at)?;
    let (more, at) = more_incoming(text, at)?;
    let node = OpNode::Phi {
        span: word.span,
        ty,
        first,
        others: more.items,
    };
    Ok((node, at))
}
