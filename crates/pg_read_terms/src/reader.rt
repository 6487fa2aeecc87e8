//! Reading one token of a class.

ghost use Rattle.std.specs.Prelude.{◌≡◌, ◌≤◌, ◌+◌, ◌++◌, ◌∷◌, [], length, drop, IfOk, OnOk, Some};
ghost use Rattle.pg_read_grammar.specs.Classes.{is};
ghost use Rattle.pg_read_grammar.specs.Reading.{comes, take_one};
ghost use Rattle.pg_read_grammar.specs.Views.{Takes};
ghost use Rattle.pg_read_terms.specs.Tried.{Tries};
ghost use Rattle.pg_read_grammar.specs.Grammar.{name_of, literal_of};

use pg_read_ast::{Literal, Name};
use pg_read_grammar::{Class, Fault, ReadError, ReadRefusal, Token};
use std::alloc::{AllocError, Global};

/// What is read, and the place after it.
pub type Read<T> = Result<(T, usize), ReadError>;

/// The tokens of a text, and the memory in which trees are made of them.
#[derive(Clone, Copy)]
pub struct Text<'a> {
    pub alloc: Global,
    pub tokens: &'a [Token],
}

/// Adds a thing to a list.
pub fn keep<T: Drop>(all: &mut Vec<T>, next: T) -> Result<(), AllocError>
    ensures { OnOk result (all.new.items ≡ all.old.items ++ next ∷ []) }
{
    all.push(next)?;
    Ok(())
}

/// The class is the wanted one.
pub fn is_class(class: Class, wanted: Class) -> bool
    ensures { result ≡ is wanted class }
{
    class == wanted
}

/// A token of this class comes.
pub fn next_is(tokens: &[Token], at: usize, wanted: Class) -> bool
    requires { at ≤ length tokens.now }
    ensures { result ≡ comes (is wanted) (drop at tokens.now) }
{
    at < tokens.len() && is_class(tokens[at].class, wanted)
}

/// The token of this class that comes, and the place after it.
pub fn take(tokens: &[Token], at: usize, wanted: Class) -> Result<(&Token, usize), ReadRefusal>
    requires { at ≤ length tokens.now }
    ensures read { Takes tokens.now at (λ x. x.0.now) (λ x. x.1) result (take_one (is wanted) (drop at tokens.now)) }
    ensures step { IfOk result (λ x. x.1 ≡ at + 1) }
{
    if at < tokens.len() && is_class(tokens[at].class, wanted) {
        Ok((&tokens[at], at + 1))
    } else {
        Err(ReadRefusal { fault: None, at })
    }
}

/// The same where such a token comes, and else nothing.
pub(crate) fn take_if(tokens: &[Token], at: usize, wanted: Class) -> Option<(&Token, usize)>
    requires { at ≤ length tokens.now }
    ensures { Tries tokens.now at (is wanted) (λ x. x.0.now) (λ x. x.1) result }
{
    if at < tokens.len() && is_class(tokens[at].class, wanted) {
        Some((&tokens[at], at + 1))
    } else {
        None
    }
}

/// A token that isn't supported at its place.
pub fn unsupported(at: usize) -> ReadRefusal
    ensures { result ≡ record { fault = Some Fault.Unsupported; at = at } }
{
    ReadRefusal {
        fault: Some(Fault::Unsupported),
        at,
    }
}

/// A token that opens one bracket more than may be open.
pub fn too_deep(at: usize) -> ReadRefusal
    ensures { result ≡ record { fault = Some Fault.TooDeep; at = at } }
{
    ReadRefusal {
        fault: Some(Fault::TooDeep),
        at,
    }
}

/// The name that a token is.
pub fn name(alloc: Global, token: &Token) -> Result<Name, AllocError>
    ensures { IfOk result (λ n. n ≡ name_of token.now) }
{
    Ok(Name {
        text: token.text.copy(alloc)?,
        span: token.span,
    })
}

/// The literal that a token is.
pub fn literal(alloc: Global, token: &Token) -> Result<Literal, AllocError>
    ensures { IfOk result (λ n. n ≡ literal_of token.now) }
{
    Ok(Literal {
        text: token.text.copy(alloc)?,
        span: token.span,
    })
}
