//! A source and a sink in memory, whose calls fail where they are told to, and a source that never
//! fails. What each call gives is pinned by its contract.
ghost use Rattle.std.specs.Prelude.{◌≡◌, ◌↔◌, ◌≤◌, ◌<◌, ℕ, [], true, false, not, length, take, drop, Some, IsTrue, IsErr, IfOk, OnOk, OnErr};
ghost use Rattle.pg_io.specs.Memory.{read_fails, given_count, after_failed_read, after_read, empty_sink, write_fails, after_failed_write, after_write};

use crate::fault::Failed;
use crate::sink::Sink;
use crate::source::Source;
use std::alloc::{AllocError, Global};
use std::marker::Model;

/// A source of bytes in memory.
#[derive(Drop)]
pub struct MemorySource {
    bytes: Vec<u8>,
    next: usize,
    piece: usize,
    failing: Vec<u64>,
    calls: u64,
    count: u64,
    ended: bool,
}

impl Model for MemorySource {
    ghost use Rattle.std.specs.Prelude.{◌≡◌, ◌<◌, ◌≤◌, drop, length, IsTrue};
    ghost use Rattle.pg_io.specs.Memory.{MemorySourceState};

    ghost Value = { MemorySourceState };

    ghost view = { λ s. record {
      rest = drop s.next s.bytes.items;
      piece = s.piece;
      failing = s.failing.items;
      calls = s.calls;
      count = s.count;
      ended = s.ended;
    } };

    ghost invariant = { λ s. record {
      within : s.next ≤ length s.bytes.items;
      some : 0 < s.piece;
      at_end : IsTrue s.ended → s.next ≡ length s.bytes.items;
    } };
}

impl MemorySource {
    /// A source of these bytes that gives at most `piece` of them a call. The calls whose numbers,
    /// from 0, are in `failing` fail, unless an earlier one gave no byte.
    pub fn new(bytes: Vec<u8>, piece: usize, failing: Vec<u64>) -> MemorySource
        requires { 0 < piece }
        ensures { result ≡ record {
          rest = bytes.items;
          piece = piece;
          failing = failing.items;
          calls = 0;
          count = 0;
          ended = false;
        } }
    {
        MemorySource {
            bytes,
            next: 0,
            piece,
            failing,
            calls: 0,
            count: 0,
            ended: false,
        }
    }
}

impl Source for MemorySource {
    ghost rest = { λ s. Some s.rest };

    ghost faults = { λ s. s.count };

    ghost has_ended = { λ s. IsTrue s.ended };

    fn read(&mut self, buf: &mut [u8]) -> Result<usize, Failed>
        requires { 0 < length buf.old }
        ensures fails { IsErr result ↔ IsTrue (read_fails self.old) }
        ensures gives { IfOk result (λ n. n ≡ given_count self.old.rest self.old.piece (length buf.old)) }
        ensures bytes { IfOk result (λ n. take n buf.new ≡ take n self.old.rest) }
        ensures after { IfOk result (λ n. self.new ≡ after_read n self.old) }
        ensures after_failed { OnErr result (self.new ≡ after_failed_read self.old) }
        ensures at_end { result ≡ Ok 0 → self.old.rest ≡ [] }
        ensures gives_none { IsTrue self.old.ended → result ≡ Ok 0 }
        ensures count_never_falls { self.old.count ≤ self.new.count }
    {
        let fails = !self.ended && self.failing.contains(&self.calls);
        self.calls = self.calls.saturating_add(1);
        if fails {
            self.count = self.count.saturating_add(1);
            return Err(Failed);
        }
        let n = give(buf, &self.bytes[self.next..], self.piece);
        self.next += n;
        self.ended = self.ended || n == 0;
        Ok(n)
    }
}

/// A source of bytes in memory that never fails.
#[derive(Drop)]
pub struct SureSource {
    bytes: Vec<u8>,
    next: usize,
    piece: usize,
}

impl Model for SureSource {
    ghost use Rattle.std.specs.Prelude.{◌<◌, ◌≤◌, drop, length};
    ghost use Rattle.pg_io.specs.Memory.{SureSourceState};

    ghost Value = { SureSourceState };

    ghost view = { λ s. record { rest = drop s.next s.bytes.items; piece = s.piece } };

    ghost invariant = { λ s. (s.next ≤ length s.bytes.items) × (0 < s.piece) };
}

impl SureSource {
    /// A source of these bytes that gives at most `piece` of them a call.
    pub fn new(bytes: Vec<u8>, piece: usize) -> SureSource
        requires { 0 < piece }
        ensures { result ≡ record { rest = bytes.items; piece = piece } }
    {
        SureSource {
            bytes,
            next: 0,
            piece,
        }
    }
}

impl Source for SureSource {
    ghost rest = { λ s. Some s.rest };

    ghost faults = { λ _. 0 };

    ghost has_ended = { λ s. s.rest ≡ [] };

    fn read(&mut self, buf: &mut [u8]) -> Result<usize, Failed>
        requires { 0 < length buf.old }
        ensures gives { result ≡ Ok (given_count self.old.rest self.old.piece (length buf.old)) }
        ensures bytes { IfOk result (λ n. take n buf.new ≡ take n self.old.rest) }
        ensures after { IfOk result (λ n. self.new ≡ record self.old { rest = drop n self.old.rest }) }
        ensures at_end { result ≡ Ok 0 → self.old.rest ≡ [] }
    {
        let n = give(buf, &self.bytes[self.next..], self.piece);
        self.next += n;
        Ok(n)
    }
}

/// A sink that keeps what it takes, whole pieces alone.
#[derive(Drop)]
pub struct MemorySink {
    bytes: Vec<u8>,
    room: usize,
    failing: Vec<u64>,
    calls: u64,
    count: u64,
}

impl Model for MemorySink {
    ghost use Rattle.std.specs.Prelude.{◌≤◌, ◌-◌, vec_len, vec_capacity, length};
    ghost use Rattle.pg_io.specs.Memory.{MemorySinkState};

    ghost Value = { MemorySinkState };

    ghost view = { λ s. record {
      bytes = s.bytes.items;
      room = s.room;
      failing = s.failing.items;
      calls = s.calls;
      count = s.count;
    } };

    ghost invariant = { λ s. (vec_len s.bytes ≤ s.room) × (s.room ≤ vec_capacity s.bytes) };
}

impl MemorySink {
    /// A sink with room for this many bytes. The calls whose numbers, from 0, are in `failing` fail,
    /// and so does each one whose piece does not fit into the room that is left.
    pub fn new(alloc: Global, room: usize, failing: Vec<u64>) -> Result<MemorySink, AllocError>
        ensures { IfOk result (λ s. s ≡ empty_sink room failing.items) }
    {
        Ok(MemorySink {
            bytes: Vec::with_capacity(alloc, room)?,
            room,
            failing,
            calls: 0,
            count: 0,
        })
    }

    /// The bytes that were taken.
    pub fn bytes(&self) -> &[u8]
        ensures { result.now ≡ self.now.bytes }
    {
        &self.bytes
    }
}

impl Sink for MemorySink {
    ghost taken = { λ s. Some s.bytes };

    ghost faults = { λ s. s.count };

    fn write(&mut self, piece: &[u8]) -> Result<usize, Failed>
        requires { 0 < length piece.now }
        ensures fails { IsErr result ↔ IsTrue (write_fails self.old piece.now) }
        ensures whole { IfOk result (λ n. n ≡ length piece.now) }
        ensures after { OnOk result (self.new ≡ after_write piece.now self.old) }
        ensures after_failed { OnErr result (self.new ≡ after_failed_write self.old) }
        ensures count_never_falls { self.old.count ≤ self.new.count }
    {
        let fails = self.failing.contains(&self.calls)
            || self.room - self.bytes.len() < piece.len();
        self.calls = self.calls.saturating_add(1);
        if fails {
            self.count = self.count.saturating_add(1);
            return Err(Failed);
        }
        self.bytes.extend_from_slice(piece).unwrap();
        Ok(piece.len())
    }
}

// Puts the next bytes into the front of `buf`, at most `piece` of them, and gives their number.
fn give(buf: &mut [u8], bytes: &[u8], piece: usize) -> usize
    ensures count { result ≡ given_count bytes.now piece (length buf.old) }
    ensures bytes { take result buf.new ≡ take result bytes.now }
{
    let n = piece.min(buf.len()).min(bytes.len());
    buf[..n].copy_from_slice(&bytes[..n]);
    n
}
