//! Why a text isn't a module.

ghost use Rattle.std.specs.Prelude.{◌≡◌};
ghost use Rattle.pg_read_grammar.specs.declared.fault.ReadFault.TheVariants.{OutOfMemory};
ghost use Rattle.pg_read_grammar.specs.Told.{lexical_of};

use pg_read_lex::{LexFault, Span};
use std::alloc::AllocError;
use thiserror::Error;

/// Why a text isn't a module: its first lexical fault, else the first token with which its tokens begin no
/// module; or want of memory. Places are in bytes.
#[derive(Clone, Copy, Debug, PartialEq, Eq, Drop, Error)]
pub enum ReadFault {
    /// The byte at this place begins no token.
    #[error("no token begins at byte {0}")]
    BadByte(u32),
    /// The string that begins with the quote at this place has no end.
    #[error("the string at byte {0} has no end")]
    OpenString(u32),
    /// No module goes on with the token at this place, or ends there if that is the text's length.
    #[error("no module goes on with what stands at byte {0}")]
    Unexpected(u32),
    /// This token is one of LLVM's that no module has there.
    #[error("what stands at {0:?} is not supported")]
    Unsupported(Span),
    /// The bracket at this place, or the word of a constant instruction, would be one more than `NESTING_LIMIT` that
    /// are open.
    #[error("what opens at byte {0} is nested too deep")]
    TooDeep(u32),
    #[error("out of memory")]
    OutOfMemory,
}

impl From<LexFault> for ReadFault {
    ghost from_gives = { λ f e. e ≡ lexical_of f };

    fn from(fault: LexFault) -> ReadFault {
        match fault {
            LexFault::BadByte(at) => ReadFault::BadByte(at),
            LexFault::OpenString(at) => ReadFault::OpenString(at),
            LexFault::OutOfMemory => ReadFault::OutOfMemory,
        }
    }
}

impl From<AllocError> for ReadFault {
    ghost from_gives = { λ _ e. e ≡ OutOfMemory };

    fn from(_error: AllocError) -> ReadFault {
        ReadFault::OutOfMemory
    }
}
