//! The module that a text is, or its first refusal.

ghost use Rattle.std.specs.Prelude.{◌≡◌, ◌≢◌, ◌≤◌, [], length, drop, IfOk, IfErr};
ghost use Rattle.pg_num.specs.declared.limits.TheConstants.{PROGRAM_TEXT_LIMIT};
ghost use Rattle.pg_read_grammar.specs.declared.fault.ReadFault.TheVariants.{OutOfMemory};
ghost use Rattle.pg_read_grammar.specs.Reading.{Good};
ghost use Rattle.pg_read_grammar.specs.ReaderItems.{program_at};
ghost use Rattle.pg_read_grammar.specs.Answers.{ended};
ghost use Rattle.pg_read_grammar.specs.Accepted.{IsModule, IsUnread, place_of};
ghost use Rattle.pg_read_grammar.specs.Told.{told, IsTold};
ghost use Rattle.pg_read_ast.specs.Views.{tree_of};

use crate::program::program;
use pg_read_ast::Module;
use pg_read_grammar::{Fault, ReadError, ReadFault, ReadRefusal, Token, classify};
use pg_read_lex::{Span, lex};
use pg_read_terms::Text;
use std::alloc::Global;

/// The module that a program text of at most `PROGRAM_TEXT_LIMIT` bytes is, or its first refusal.
pub fn parse(alloc: Global, text: &[u8]) -> Result<Module, ReadFault>
    requires limit { length text.now ≤ PROGRAM_TEXT_LIMIT }
    ensures found { IfOk result (λ m. IsModule text.now (tree_of m)) }
    ensures refused { IfErr result (λ e. e ≢ OutOfMemory → IsUnread text.now e) }
{
    let lexed = lex(alloc, text)?;
    let tokens = classify(alloc, text, lexed.as_slice())?;
    whole(alloc, text, tokens.as_slice())
}

/// The module that the tokens of a text are.
fn whole(alloc: Global, text: &[u8], tokens: &[Token]) -> Result<Module, ReadFault>
    requires limit { length text.now ≤ PROGRAM_TEXT_LIMIT }
    ensures found { IfOk result (λ m. ended (program_at tokens.now) ≡ Good (tree_of m) []) }
    ensures refused { IfErr result (λ e. e ≢ OutOfMemory → IsTold text.now tokens.now e) }
{
    let read = Text { alloc, tokens };
    match program(&read) {
        Err(ReadError::Memory) => Err(ReadFault::OutOfMemory),
        Err(ReadError::Refused(refusal)) => Err(refused(text, tokens, refusal)),
        Ok((tree, at)) => {
            if at < tokens.len() {
                let refusal = ReadRefusal { fault: None, at };
                return Err(refused(text, tokens, refusal));
            }
            Ok(tree)
        }
    }
}

fn refused(text: &[u8], tokens: &[Token], refusal: ReadRefusal) -> ReadFault
    requires limit { length text.now ≤ PROGRAM_TEXT_LIMIT }
    requires within { refusal.at ≤ length tokens.now }
    ensures { result ≡ told refusal.fault (place_of text.now (drop refusal.at tokens.now)) }
{
    let place = place(text, tokens, refusal.at);
    match refusal.fault {
        None => ReadFault::Unexpected(place.start),
        Some(Fault::Unsupported) => ReadFault::Unsupported(place),
        Some(Fault::TooDeep) => ReadFault::TooDeep(place.start),
    }
}

/// The place of a token of the text, or the text's end.
fn place(text: &[u8], tokens: &[Token], at: usize) -> Span
    requires limit { length text.now ≤ PROGRAM_TEXT_LIMIT }
    requires within { at ≤ length tokens.now }
    ensures { result ≡ place_of text.now (drop at tokens.now) }
{
    if at < tokens.len() {
        return tokens[at].span;
    }
    let end = text.len() as u32;
    Span { start: end, end }
}
