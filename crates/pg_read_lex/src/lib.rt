//! The tokens of a program text, with the places of each.
// How goals are searched for: see docs/CONTRIBUTING.md.
#![tactic(auto)]

mod lexer;
mod names;
mod places;
mod token;

pub use lexer::lex;
pub use names::token_bytes;
pub use pg_num;
pub use places::position;
pub use token::{LexFault, Span, Token, TokenKind};
