//! A value and where it stands.

use pg_read_ast::{TypeNode, ValNode};

/// A value, the type at which it stands, and whether it stands where no register may.
#[derive(Clone, Copy)]
pub struct PlacedValue<'a> {
    pub constant: bool,
    pub ty: &'a TypeNode,
    pub value: &'a ValNode,
}
