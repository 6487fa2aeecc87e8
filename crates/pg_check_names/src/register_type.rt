//! The types of registers, written or given.

use pg_read_ast::TypeNode;

/// The type of a register: the one that is written for it, or what its instruction always gives.
#[derive(Clone, Copy)]
pub enum RegisterType<'a> {
    Written(&'a TypeNode),
    Bit,
    Pointer,
}
