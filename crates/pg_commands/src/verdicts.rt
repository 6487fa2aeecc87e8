//! What is found of a program text: its program, or why it is refused.
ghost use Rattle.std.specs.Prelude.{◌≤◌, length, IfOk};
ghost use Rattle.pg_num.specs.declared.limits.TheConstants.{PROGRAM_TEXT_LIMIT};
ghost use Rattle.pg_read_ast.specs.Views.{tree_of};
ghost use Rattle.pg_read_grammar.specs.Accepted.{IsModule};
ghost use Rattle.pg_commands.specs.Verdicts.{IsVerdict};

use crate::refusals::TextRefusal;
use pg_check::pg_law_numbering::laws::a_module_is_in_order;
use pg_check::{CheckFault, check};
use pg_ir::Program;
use pg_num::limits::PROGRAM_TEXT_LIMIT;
use pg_read::parse;
use pg_read_ast::Module;
use pg_read_grammar::ReadFault;
use std::alloc::{AllocError, Global};

/// A program text's program, or why it is refused.
#[derive(Drop)]
pub(crate) enum Verdict {
    Accepted(Program),
    Refused(TextRefusal),
}

/// What the checks find of the module of a text.
fn checked(alloc: Global, text: &[u8], tree: &Module) -> Result<Verdict, AllocError>
    requires limit { length text.now ≤ PROGRAM_TEXT_LIMIT }
    requires read { IsModule text.now (tree_of tree.now) }
    ensures { IfOk result (λ v. IsVerdict text.now v) }
{
    a_module_is_in_order();
    match check(alloc, tree) {
        Ok(program) => Ok(Verdict::Accepted(program)),
        Err(CheckFault::At { kind, span }) => Ok(Verdict::Refused(TextRefusal::Check {
            kind,
            span,
        })),
        Err(CheckFault::OutOfMemory) => Err(AllocError),
    }
}

/// What is found of a program text of at most `PROGRAM_TEXT_LIMIT` bytes.
pub(crate) fn verdict_of(alloc: Global, text: &[u8]) -> Result<Verdict, AllocError>
    requires limit { length text.now ≤ PROGRAM_TEXT_LIMIT }
    ensures { IfOk result (λ v. IsVerdict text.now v) }
{
    match parse(alloc, text) {
        Ok(tree) => checked(alloc, text, &tree),
        Err(ReadFault::OutOfMemory) => Err(AllocError),
        Err(fault) => Ok(Verdict::Refused(TextRefusal::Read(fault))),
    }
}
