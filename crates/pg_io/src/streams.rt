//! Reading a source to its end and writing a whole text.
ghost use Rattle.std.specs.Prelude.{◌≡◌, ◌+◌, ◌^◌, ◌<◌, ◌≤◌, length, vec_len, IfOk, OnOk, OnErr, IfSome, IsErrOf};
ghost use Rattle.std.specs.Io.KnownBytes.{Appends};
ghost use Rattle.pg_io.specs.Faults.{Rose};
ghost use Rattle.pg_io.specs.Streams.{TakesAtMost, AppendsFront};

use crate::fault::Failed;
use crate::sink::Sink;
use crate::source::Source;
use std::alloc::Global;

/// The most bytes that one call asks of a source.
const PIECE: usize = 4096;

/// Why a source was not read to its end.
#[derive(Clone, Copy, Debug, PartialEq, Eq)]
pub enum ReadAllFault {
    /// A read failed.
    Failed,
    /// The source has more bytes than the limit.
    TooLong,
    /// There was no memory for the bytes.
    OutOfMemory,
}

/// All bytes of a source that has at most `limit` of them. No more than `limit + 1` bytes are taken. A read that
/// failed is not tried again, so the count of faults rises where the answer is `Failed`, and nowhere else.
pub fn read_all<S: Source>(
    alloc: Global,
    src: &mut S,
    limit: usize,
) -> Result<Vec<u8>, ReadAllFault>
    requires { limit < 2 ^ 62 }
    ensures whole { IfOk result (λ v. IfSome (S.rest src.old) (λ text. v.items ≡ text)) }
    ensures within { IfOk result (λ v. vec_len v ≤ limit) }
    ensures at_end { OnOk result (S.has_ended src.new) }
    ensures too_long { IsErrOf result ReadAllFault.TooLong →
        IfSome (S.rest src.old) (λ text. limit < length text) }
    ensures takes { TakesAtMost (S.rest src.old) (S.rest src.new) (limit + 1) }
    ensures count_stays { OnOk result (S.faults src.new ≡ S.faults src.old) }
    ensures too_long_count { IsErrOf result ReadAllFault.TooLong → S.faults src.new ≡ S.faults src.old }
    ensures out_of_memory_count { IsErrOf result ReadAllFault.OutOfMemory → S.faults src.new ≡ S.faults src.old }
    ensures cause { IsErrOf result ReadAllFault.Failed → Rose (S.faults src.old) (S.faults src.new) }
    ensures fault_within { IsErrOf result ReadAllFault.Failed →
        TakesAtMost (S.rest src.old) (S.rest src.new) limit }
    ensures count_never_falls { S.faults src.old ≤ S.faults src.new }
{
    let mut bytes = Vec::new(alloc);
    let mut piece = [0; PIECE];
    // The label is for the proof: see docs/CONTRIBUTING.md.
    'reads: while bytes.len() <= limit {
        let room = PIECE.min(limit + 1 - bytes.len());
        match src.read(&mut piece[..room]) {
            Ok(0) => return Ok(bytes),
            Ok(n) => {
                if bytes.extend_from_slice(&piece[..n]).is_err() {
                    return Err(ReadAllFault::OutOfMemory);
                }
            }
            Err(Failed) => return Err(ReadAllFault::Failed),
        }
    }
    Err(ReadAllFault::TooLong)
}

/// Hands the whole text to the sink, and what it did not take once more. After a write that failed,
/// a front of the text was taken. A write that failed is not tried again.
pub fn write_all<K: Sink>(out: &mut K, text: &[u8]) -> Result<(), Failed>
    ensures written { OnOk result (Appends (K.taken out.old) (K.taken out.new) text.now) }
    ensures cut { OnErr result (AppendsFront (K.taken out.old) (K.taken out.new) text.now) }
    ensures count_stays { OnOk result (K.faults out.new ≡ K.faults out.old) }
    ensures cause { OnErr result (Rose (K.faults out.old) (K.faults out.new)) }
    ensures count_never_falls { K.faults out.old ≤ K.faults out.new }
{
    let mut at = 0;
    while at < text.len() {
        at += out.write(&text[at..])?;
    }
    Ok(())
}
