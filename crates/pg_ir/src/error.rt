//! Why parts make no program.

ghost use Rattle.std.specs.Prelude.{◌≡◌, Some, codes};
ghost use Rattle.pg_ir.specs.ErrorTexts.{error_text};
ghost use Rattle.pg_ir.specs.declared.error.ProgramError.TheVariants.{OutOfMemory};

use std::alloc::AllocError;
use std::error::Error;
use std::fmt;

/// Why there is no program of some parts.
#[derive(Clone, Copy, Debug, PartialEq, Eq)]
pub enum ProgramError {
    /// They are not the parts of a program.
    Malformed,
    /// No memory is left for it.
    OutOfMemory,
}

impl ProgramError {
    fn text(self) -> &'static str
        ensures { result.now ≡ error_text self }
    {
        match self {
            ProgramError::Malformed => "the parts are not those of a program",
            ProgramError::OutOfMemory => "out of memory",
        }
    }
}

impl fmt::Display for ProgramError {
    ghost output = { λ error. Some (error_text error) };

    fn fmt<W: fmt::Write>(&self, f: &mut fmt::Formatter<W>) -> fmt::Result {
        f.write_str(self.text())
    }
}

impl Error for ProgramError {}

impl From<AllocError> for ProgramError {
    ghost from_gives = { λ _ e. e ≡ OutOfMemory };

    fn from(_e: AllocError) -> ProgramError {
        ProgramError::OutOfMemory
    }
}
