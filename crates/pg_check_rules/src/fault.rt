//! Why a module is refused.

ghost use Rattle.std.specs.Prelude.{◌≡◌};
ghost use Rattle.pg_check_rules.specs.declared.fault.CheckFault.TheVariants.{OutOfMemory};
ghost use Rattle.pg_check_rules.specs.Conditions.{rank};

use pg_read_ast::pg_read_lex::Span;
use std::alloc::AllocError;
use thiserror::Error;

/// Why a program is refused, in the order in which two refusals at one place count.
#[derive(Clone, Copy, Debug, PartialEq, Eq)]
pub enum CheckKind {
    /// A type, a global, a function or a register that has no definition or declaration.
    UnknownName,
    /// A second type, a second global or function, a second register or label of one name, or a
    /// second equal case of a `switch`.
    Doubled,
    /// A type, an operand, an argument, an initialiser or an index that doesn't fit.
    WrongType,
    /// A label that names no basic block, or a function whose basic blocks aren't whole.
    NoBlock,
    /// A `phi` that stands where none may, or that doesn't list its block's predecessors.
    BadPhi,
    /// A call of a function that is neither defined nor known, or a function's name as a value.
    Unsupported,
    /// A known function, `@main` or a definition with types that it may not have.
    BadSignature,
    /// One of the limits of `pg_num::limits` is passed.
    TooLarge,
    /// No function is called `@main`.
    NoMain,
}

impl CheckKind {
    /// The place of a kind in the order in which two refusals at one place count.
    pub(crate) fn rank(self) -> u32
        ensures { result ≡ rank self }
    {
        match self {
            CheckKind::UnknownName => 0,
            CheckKind::Doubled => 1,
            CheckKind::WrongType => 2,
            CheckKind::NoBlock => 3,
            CheckKind::BadPhi => 4,
            CheckKind::Unsupported => 5,
            CheckKind::BadSignature => 6,
            CheckKind::TooLarge => 7,
            CheckKind::NoMain => 8,
        }
    }
}

/// Why a module gives no program: its first refusal and the token at which it stands, or want of memory.
#[derive(Clone, Copy, Debug, PartialEq, Eq, Drop, Error)]
pub enum CheckFault {
    #[error("the program is refused")]
    At { kind: CheckKind, span: Span },
    #[error("out of memory")]
    OutOfMemory,
}

impl From<AllocError> for CheckFault {
    ghost from_gives = { λ _ e. e ≡ OutOfMemory };

    fn from(_error: AllocError) -> CheckFault {
        CheckFault::OutOfMemory
    }
}
