//! A sink in memory that takes a part of a long piece.
ghost use Rattle.std.specs.Prelude.{◌≡◌, ◌↔◌, ◌≤◌, ◌<◌, length, Some, IsTrue, IsErr, IfOk, OnOk, OnErr};
ghost use Rattle.pg_io.specs.Memory.{empty_sink};
ghost use Rattle.pg_io.specs.ShortSinks.{short_count, short_write_fails, after_failed_short_write, after_short_write};

use crate::fault::Failed;
use crate::memory::MemorySink;
use crate::sink::Sink;
use std::alloc::{AllocError, Global};
use std::marker::Model;

/// A sink that keeps what it takes, at most `piece` bytes a call.
#[derive(Drop)]
pub struct ShortSink {
    sink: MemorySink,
    piece: usize,
}

impl Model for ShortSink {
    ghost use Rattle.std.specs.Prelude.{◌<◌};
    ghost use Rattle.pg_io.specs.ShortSinks.{ShortSinkState};

    ghost Value = { ShortSinkState };

    ghost view = { λ s. record { sink = s.sink; piece = s.piece } };

    ghost invariant = { λ s. 0 < s.piece };
}

impl ShortSink {
    /// A sink with room for this many bytes. The calls whose numbers, from 0, are in `failing` fail, and so does
    /// each one whose bytes, at most `piece` of them, do not fit into the room that is left.
    pub fn new(
        alloc: Global,
        room: usize,
        piece: usize,
        failing: Vec<u64>,
    ) -> Result<ShortSink, AllocError>
        requires { 0 < piece }
        ensures { IfOk result (λ s. s ≡ record { sink = empty_sink room failing.items; piece = piece }) }
    {
        Ok(ShortSink {
            sink: MemorySink::new(alloc, room, failing)?,
            piece,
        })
    }

    /// The bytes that were taken.
    pub fn bytes(&self) -> &[u8]
        ensures { result.now ≡ self.now.sink.bytes }
    {
        self.sink.bytes()
    }
}

impl Sink for ShortSink {
    ghost taken = { λ s. Some s.sink.bytes };

    ghost faults = { λ s. s.sink.count };

    fn write(&mut self, piece: &[u8]) -> Result<usize, Failed>
        requires { 0 < length piece.now }
        ensures fails { IsErr result ↔ IsTrue (short_write_fails self.old piece.now) }
        ensures count { IfOk result (λ n. n ≡ short_count self.old piece.now) }
        ensures some { IfOk result (λ n. 0 < n) }
        ensures after { OnOk result (self.new ≡ after_short_write piece.now self.old) }
        ensures after_failed { OnErr result (self.new ≡ after_failed_short_write self.old) }
        ensures count_never_falls { self.old.sink.count ≤ self.new.sink.count }
    {
        let n = self.piece.min(piece.len());
        self.sink.write(&piece[..n])
    }
}
