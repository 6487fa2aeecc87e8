//! Names, literals and their bytes, and where they stand.

ghost use Rattle.std.specs.Prelude.{◌≡◌, IfOk};

use pg_read_lex::Span;
use std::alloc::{AllocError, Global};
use std::marker::Model;

/// Bytes that a contract sees as a list.
#[derive(Debug, Drop)]
pub struct Bytes {
    items: Vec<u8>,
}

impl Model for Bytes {
    ghost use Rattle.std.specs.Prelude.{List, ℕ};

    ghost Value = { List ℕ };

    ghost view = { λ b. b.items.items };
}

impl Bytes {
    /// These bytes. No memory is taken.
    pub fn new(items: Vec<u8>) -> Self
        ensures { result ≡ items.items }
    {
        Bytes { items }
    }

    /// The bytes as a slice.
    pub fn as_slice(&self) -> &[u8]
        ensures { result.now ≡ self.now }
    {
        self.items.as_slice()
    }

    /// The same bytes, in memory of their own.
    pub fn copy(&self, alloc: Global) -> Result<Bytes, AllocError>
        ensures { IfOk result (λ bytes. bytes ≡ self.now) }
    {
        let items = self.items.as_slice().to_vec(alloc)?;
        Ok(Bytes { items })
    }
}

/// A name, with its escapes read, and where it stands.
#[derive(Debug, Drop)]
pub struct Name {
    pub text: Bytes,
    pub span: Span,
}

/// An integer as it is written, or the bytes of a string, with its escapes read, and where it stands.
#[derive(Debug, Drop)]
pub struct Literal {
    pub text: Bytes,
    pub span: Span,
}
