//! Sources and sinks over the readers and writers of `std::io`. They do not tell the bytes that are
//! left or taken, since the outside does not. That they hand on what the reader or the writer did is
//! proved where that one's bytes are known.
ghost use Rattle.std.specs.Prelude.{◌≡◌, ◌<◌, ◌≤◌, ◌↔◌, false, length, None, IsTrue, IsFalse, IfOk, OnErr, OnOk};
ghost use Rattle.std.specs.Io.KnownBytes.{ReadConsumes, WriteAppends};
ghost use Rattle.pg_io.specs.Faults.{raised};

use crate::fault::Failed;
use crate::sink::Sink;
use crate::source::Source;
use std::io::{Read, Write};
use std::marker::Model;

/// A source over a reader.
#[derive(Drop)]
pub struct ReaderSource<R: Read> {
    reader: R,
    count: u64,
    ended: bool,
}

impl<R: Read> Model for ReaderSource<R> {
    ghost use Rattle.pg_io.specs.Adapter.{ReaderState};

    ghost Value = { ReaderState R };

    ghost view = { λ s. record { reader = s.reader; count = s.count; ended = s.ended } };
}

impl<R: Read> ReaderSource<R> {
    /// A source of the reader's bytes. Its count of faults begins at 0.
    pub fn new(reader: R) -> ReaderSource<R>
        ensures { result ≡ record { reader = reader; count = 0; ended = false } }
    {
        ReaderSource {
            reader,
            count: 0,
            ended: false,
        }
    }
}

impl<R: Read> Source for ReaderSource<R> {
    ghost rest = { λ _. None };

    ghost faults = { λ s. s.count };

    ghost has_ended = { λ s. IsTrue s.ended };

    fn read(&mut self, buf: &mut [u8]) -> Result<usize, Failed>
        requires { 0 < length buf.old }
        ensures bound { IfOk result (λ n. n ≤ length buf.new) }
        ensures passes { IsFalse self.old.ended →
            ReadConsumes (R.remaining self.old.reader) (R.remaining self.new.reader) result buf.new }
        ensures ends { IfOk result (λ n. IsTrue self.new.ended ↔ (n ≡ 0)) }
        ensures gives_none { IsTrue self.old.ended → (result ≡ Ok 0) × (self.new ≡ self.old) }
        ensures no_end { OnErr result (IsFalse self.new.ended) }
        ensures count_stays { OnOk result (self.new.count ≡ self.old.count) }
        ensures count_rises { OnErr result (self.new.count ≡ raised self.old.count) }
        ensures count_never_falls { self.old.count ≤ self.new.count }
    {
        if self.ended {
            return Ok(0);
        }
        match self.reader.read(buf) {
            Ok(n) => {
                self.ended = n == 0;
                Ok(n)
            }
            Err(_) => {
                self.count = self.count.saturating_add(1);
                Err(Failed)
            }
        }
    }
}

/// A sink over a writer. A writer that takes no byte has failed. Nothing is flushed, so a writer that
/// keeps bytes back is flushed by its owner.
#[derive(Drop)]
pub struct WriterSink<W: Write> {
    writer: W,
    count: u64,
}

impl<W: Write> Model for WriterSink<W> {
    ghost use Rattle.pg_io.specs.Adapter.{WriterState};

    ghost Value = { WriterState W };

    ghost view = { λ s. record { writer = s.writer; count = s.count } };
}

impl<W: Write> WriterSink<W> {
    /// A sink that hands its bytes to the writer. Its count of faults begins at 0.
    pub fn new(writer: W) -> WriterSink<W>
        ensures { result ≡ record { writer = writer; count = 0 } }
    {
        WriterSink { writer, count: 0 }
    }
}

impl<W: Write> Sink for WriterSink<W> {
    ghost taken = { λ _. None };

    ghost faults = { λ s. s.count };

    fn write(&mut self, piece: &[u8]) -> Result<usize, Failed>
        requires { 0 < length piece.now }
        ensures some { IfOk result (λ n. 0 < n) }
        ensures bound { IfOk result (λ n. n ≤ length piece.now) }
        ensures passes { WriteAppends (W.contents self.old.writer) (W.contents self.new.writer) result piece.now }
        ensures count_stays { OnOk result (self.new.count ≡ self.old.count) }
        ensures count_rises { OnErr result (self.new.count ≡ raised self.old.count) }
        ensures count_never_falls { self.old.count ≤ self.new.count }
    {
        match self.writer.write(piece) {
            Ok(n) if n > 0 => Ok(n),
            _ => {
                self.count = self.count.saturating_add(1);
                Err(Failed)
            }
        }
    }
}
