//! What values and lines are looked up in.

use indexmap::IndexMap;
use pg_check_names::RegisterType;
use pg_check_rules::Symbols;
use pg_check_types::TypeNumbers;
use pg_read_ast::TypeNode;
use std::alloc::Global;

/// What values are looked up in: the global names of the module and its types, and the registers of a function by their
/// names, with their types; and what allocates the lists that a look-up makes.
#[derive(Clone, Copy)]
pub struct ValueScope<'a> {
    pub alloc: Global,
    pub symbols: &'a Symbols<'a>,
    pub types: &'a TypeNumbers<'a>,
    pub registers: &'a IndexMap<&'a [u8], usize>,
    pub register_types: &'a [RegisterType<'a>],
}

/// What a function's lines are looked up in: what their values are looked up in, the labels by their names, and the
/// type of the function's result.
#[derive(Clone, Copy)]
pub struct LineScope<'a> {
    pub values: ValueScope<'a>,
    pub labels: &'a IndexMap<&'a [u8], usize>,
    pub result: &'a TypeNode,
}
