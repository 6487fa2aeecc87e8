//! Items behind commas, where something else may stand behind the last comma.

ghost use Rattle.std.specs.Prelude.{◌≡◌, ◌≤◌, ◌++◌, ◌∷◌, [], length, drop, false, IfOk};
ghost use Rattle.pg_read_grammar.specs.declared.class.Class.TheVariants.{OpenSquare};
ghost use Rattle.pg_read_grammar.specs.Classes.{is};
ghost use Rattle.pg_read_grammar.specs.Reading.{comes};
ghost use Rattle.pg_read_grammar.specs.Reader.{begins_type};
ghost use Rattle.pg_read_grammar.specs.ReaderOps.{begins_by};

use pg_read_grammar::{Class, Token};
use pg_read_terms::{ClassSet, next_in, next_is};
use std::alloc::AllocError;

/// Items behind commas, and whether a comma stands behind the last of them.
#[derive(Debug, Drop)]
pub struct Listing<T> {
    pub items: Vec<T>,
    pub comma: bool,
}

/// These items and one more, behind which no comma stands yet.
pub fn with_item<T: Drop>(items: Vec<T>, next: T) -> Result<Listing<T>, AllocError>
    ensures items { IfOk result (λ l. l.items.items ≡ items.items ++ next ∷ []) }
    ensures comma { IfOk result (λ l. l.comma ≡ false) }
{
    let mut items = items;
    items.push(next)?;
    Ok(Listing {
        items,
        comma: false,
    })
}

/// A type goes on behind a comma, or a comma where none stands.
pub fn type_goes_on(tokens: &[Token], at: usize, comma: bool) -> bool
    requires { at ≤ length tokens.now }
    ensures { result ≡ comes (begins_by begins_type comma) (drop at tokens.now) }
{
    if comma {
        next_in(tokens, at, ClassSet::Type)
    } else {
        next_is(tokens, at, Class::Comma)
    }
}

/// The same of an opening square bracket.
pub fn square_goes_on(tokens: &[Token], at: usize, comma: bool) -> bool
    requires { at ≤ length tokens.now }
    ensures { result ≡ comes (begins_by (is OpenSquare) comma) (drop at tokens.now) }
{
    if comma {
        next_is(tokens, at, Class::OpenSquare)
    } else {
        next_is(tokens, at, Class::Comma)
    }
}
