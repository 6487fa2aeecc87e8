//! Lists of operands and types.

ghost use Rattle.std.specs.Prelude.{◌≡◌};

use crate::edge::{Case, Incoming};
use crate::value::{Index, Scalar, Value};
use std::marker::Model;

/// A list of operands, which contracts see as that list.
#[derive(Debug, Drop)]
pub struct Values {
    items: Vec<Value>,
}

impl Model for Values {
    ghost use Rattle.pg_ir.specs.Lists.{ValueList};

    ghost Value = { ValueList };

    ghost view = { λ s. s.items.items };
}

impl Values {
    /// The list of a vector's elements.
    pub fn from_vec(items: Vec<Value>) -> Values
        ensures items { result ≡ items.items }
    {
        Values { items }
    }

    /// The operands in order.
    pub fn as_slice(&self) -> &[Value]
        ensures items { result.now ≡ self.now }
    {
        self.items.as_slice()
    }
}

/// A list of types, which contracts see as that list.
#[derive(Debug, Drop)]
pub struct Scalars {
    items: Vec<Scalar>,
}

impl Model for Scalars {
    ghost use Rattle.pg_ir.specs.Lists.{ScalarList};

    ghost Value = { ScalarList };

    ghost view = { λ s. s.items.items };
}

impl Scalars {
    /// The list of a vector's elements.
    pub fn from_vec(items: Vec<Scalar>) -> Scalars
        ensures items { result ≡ items.items }
    {
        Scalars { items }
    }

    /// The types in order.
    pub fn as_slice(&self) -> &[Scalar]
        ensures items { result.now ≡ self.now }
    {
        self.items.as_slice()
    }
}

/// A list of bytes, which contracts see as that list.
#[derive(Debug, Drop)]
pub struct Bytes {
    items: Vec<u8>,
}

impl Model for Bytes {
    ghost use Rattle.pg_ir.specs.Lists.{ByteList};

    ghost Value = { ByteList };

    ghost view = { λ s. s.items.items };
}

impl Bytes {
    /// The list of a vector's elements.
    pub fn from_vec(items: Vec<u8>) -> Bytes
        ensures items { result ≡ items.items }
    {
        Bytes { items }
    }

    /// The bytes in order.
    pub fn as_slice(&self) -> &[u8]
        ensures items { result.now ≡ self.now }
    {
        self.items.as_slice()
    }
}

/// A list of values of a `phi`, which contracts see as that list.
#[derive(Debug, Drop)]
pub struct Incomings {
    items: Vec<Incoming>,
}

impl Model for Incomings {
    ghost use Rattle.pg_ir.specs.Lists.{IncomingList};

    ghost Value = { IncomingList };

    ghost view = { λ s. s.items.items };
}

impl Incomings {
    /// The list of a vector's elements.
    pub fn from_vec(items: Vec<Incoming>) -> Incomings
        ensures items { result ≡ items.items }
    {
        Incomings { items }
    }

    /// The values in order.
    pub fn as_slice(&self) -> &[Incoming]
        ensures items { result.now ≡ self.now }
    {
        self.items.as_slice()
    }
}

/// A list of cases of a `switch`, which contracts see as that list.
#[derive(Debug, Drop)]
pub struct Cases {
    items: Vec<Case>,
}

impl Model for Cases {
    ghost use Rattle.pg_ir.specs.Lists.{CaseList};

    ghost Value = { CaseList };

    ghost view = { λ s. s.items.items };
}

impl Cases {
    /// The list of a vector's elements.
    pub fn from_vec(items: Vec<Case>) -> Cases
        ensures items { result ≡ items.items }
    {
        Cases { items }
    }

    /// The cases in order.
    pub fn as_slice(&self) -> &[Case]
        ensures items { result.now ≡ self.now }
    {
        self.items.as_slice()
    }
}

/// A list of indices of a `getelementptr`, which contracts see as that list.
#[derive(Debug, Drop)]
pub struct Indices {
    items: Vec<Index>,
}

impl Model for Indices {
    ghost use Rattle.pg_ir.specs.Lists.{IndexList};

    ghost Value = { IndexList };

    ghost view = { λ s. s.items.items };
}

impl Indices {
    /// The list of a vector's elements.
    pub fn from_vec(items: Vec<Index>) -> Indices
        ensures items { result ≡ items.items }
    {
        Indices { items }
    }

    /// The indices in order.
    pub fn as_slice(&self) -> &[Index]
        ensures items { result.now ≡ self.now }
    {
        self.items.as_slice()
    }
}
