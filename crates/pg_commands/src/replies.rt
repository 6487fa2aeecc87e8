//! Texts to be written.
ghost use Rattle.pg_commands.specs.Replies.{IsWritten};

use crate::status::Status;
use pg_io::{Sink, write_all};

/// A text to be written, and the status once it is.
#[derive(Drop)]
pub(crate) struct Reply {
    pub(crate) status: Status,
    pub(crate) text: Vec<u8>,
}

/// Writes a text, and gives this status once it is written.
pub(crate) fn write_text<K: Sink>(out: &mut K, text: &[u8], due: Status) -> Status
    ensures { IsWritten text.now due (K.taken out.old) (K.taken out.new) (K.faults out.old) (K.faults out.new) result }
{
    match write_all(out, text) {
        Ok(()) => due,
        Err(_) => Status::WriteFault,
    }
}
