//! What a program text gives: its program, or the line that refuses it.
ghost use Rattle.std.specs.Prelude.{◌≡◌, ◌≤◌, ◌<◌, ◌⊎◌, ℕ, List, length, IfNone, IfOk, IfSome, IsErrOf};
ghost use Rattle.pg_io.specs.Faults.{Rose};
ghost use Rattle.pg_num.specs.declared.limits.TheConstants.{PROGRAM_TEXT_LIMIT};
ghost use Rattle.pg_commands.specs.Commands.{Fetched};
ghost use Rattle.pg_commands.specs.Programs.{IsLoaded, unfetched};
ghost use Rattle.pg_commands.specs.Texts.{IsRefusalLine};
ghost use Rattle.pg_commands.specs.declared.programs.NoProgram.TheVariants.{OutOfMemory};

use crate::laws::an_accepted_program_can_run;
use crate::refusals::{TextRefusal, refusal_line};
use crate::verdicts::{Verdict, verdict_of};
use pg_io::{FetchFault, Shelf};
use pg_ir::Program;
use pg_num::limits::PROGRAM_TEXT_LIMIT;
use std::alloc::{AllocError, Global};

/// What a program text gives.
#[derive(Drop)]
pub(crate) enum Loaded {
    /// Its program.
    Accepted(Program),
    /// The line that refuses it.
    Refused(Vec<u8>),
}

/// Why no program text was found.
#[derive(Clone, Copy, Debug, PartialEq, Eq)]
pub(crate) enum NoProgram {
    /// A fetch failed.
    ShelfFault,
    /// There was no memory.
    OutOfMemory,
}

impl From<AllocError> for NoProgram {
    ghost from_gives = { λ _ e. e ≡ OutOfMemory };

    fn from(_e: AllocError) -> NoProgram {
        NoProgram::OutOfMemory
    }
}

/// What a program text that isn't too long gives.
pub(crate) fn load(alloc: Global, text: &[u8]) -> Result<Loaded, AllocError>
    requires { length text.now ≤ PROGRAM_TEXT_LIMIT }
    ensures { IfOk result (λ l. IsLoaded text.now l) }
{
    an_accepted_program_can_run();
    match verdict_of(alloc, text)? {
        Verdict::Accepted(program) => Ok(Loaded::Accepted(program)),
        Verdict::Refused(refusal) => {
            let line = refusal_line(alloc, text, refusal)?;
            Ok(Loaded::Refused(line))
        }
    }
}

/// The line that refuses a program text that is too long.
pub(crate) fn too_long_line(alloc: Global) -> Result<Vec<u8>, AllocError>
    ensures { IfOk result (λ line. (text : List ℕ) → PROGRAM_TEXT_LIMIT < length text → IsRefusalLine text line.items) }
{
    // In two lines for the proof: see docs/CONTRIBUTING.md.
    let line = refusal_line(alloc, &[], TextRefusal::TooLong)?;
    Ok(line)
}

/// Why there is no text where a fetch gave none; none where the text is too long, since that is refused.
pub(crate) fn unfetched(fault: FetchFault) -> Option<NoProgram>
    ensures cause { result ≡ unfetched fault }
    ensures too_long { IfNone result (fault ≡ FetchFault.TooLong) }
    ensures failed { IfSome result (λ c. (c ≡ NoProgram.ShelfFault → fault ≡ FetchFault.Failed) × (fault ≡ FetchFault.Failed → c ≡ NoProgram.ShelfFault)) }
{
    match fault {
        FetchFault::TooLong => None,
        FetchFault::Failed => Some(NoProgram::ShelfFault),
        FetchFault::OutOfMemory => Some(NoProgram::OutOfMemory),
    }
}

/// What the program text of this name gives.
pub(crate) fn fetch_program<F: Shelf>(
    alloc: Global,
    shelf: &mut F,
    file: &str,
) -> Result<Loaded, NoProgram>
    ensures loaded { IfOk result (λ l. Fetched (F.text shelf.old) file.now (λ text. IsLoaded text l)) }
    ensures cause { IsErrOf result NoProgram.ShelfFault → Rose (F.faults shelf.old file.now) (F.faults shelf.new file.now) }
    ensures counts { (name : List ℕ) → IsErrOf result NoProgram.ShelfFault ⊎ (F.faults shelf.new name ≡ F.faults shelf.old name) }
    ensures texts_stay { (name : List ℕ) → F.text shelf.new name ≡ F.text shelf.old name }
{
    match shelf.fetch(alloc, file, PROGRAM_TEXT_LIMIT) {
        Ok(text) => Ok(load(alloc, &text)?),
        Err(fault) => match unfetched(fault) {
            Some(cause) => Err(cause),
            None => Ok(Loaded::Refused(too_long_line(alloc)?)),
        },
    }
}
