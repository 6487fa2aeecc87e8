//! Names that stand before operations that give no value.

ghost use Rattle.std.specs.Prelude.{◌≡◌, OnOk, false};
ghost use Rattle.pg_read_ast.specs.Numbers.{after_result};

use pg_read_ast::{Name, NextNumber};
use std::alloc::{AllocError, Global};

/// Passes the name that stands before an operation that gives no value.
pub(crate) fn pass_name(
    alloc: Global,
    next: &mut NextNumber,
    name: &Option<Name>,
) -> Result<(), AllocError>
    ensures { OnOk result (next.new ≡ after_result false next.old name.now) }
{
    match name {
        Some(name) => next.pass(alloc, name.text.as_slice()),
        None => Ok(()),
    }
}
