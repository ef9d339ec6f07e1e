//! A sink over memory.

ghost use Rattle.std.specs.Prelude.{◌≡◌, ◌+◌, ◌-◌, ◌^◌, ◌<◌, ◌≤◌, Some, length, take, min, OnOk, OnErr, IfOk, IsOk};
ghost use Rattle.cil_stream.specs.Device.{HasFailed, Gains, HasTaken};

use crate::sink::{Sink, SinkFault};
use std::alloc::{Allocator, Global};
use std::marker::Model;

/// A sink over memory, which takes so many bytes a call at the most, and fails after so many in all. A growth that is refused
/// is a failure too.
#[derive(Drop, Debug)]
pub struct MemorySink<A: Allocator = Global> {
    bytes: Vec<u8, A>,
    greatest: usize,
    limit: usize,
    failures: u64,
}

impl<A: Allocator> Model for MemorySink<A> {
    ghost use Rattle.cil_stream.specs.Device.{Tray};

    ghost Value = { Tray };

    ghost view = { λ s. record { bytes = s.bytes.items; greatest = s.greatest; limit = s.limit; failures = s.failures } };
}

impl<A: Allocator> MemorySink<A> {
    ghost use Rattle.std.specs.Prelude.{◌≡◌, ◌≤◌, ◌+◌, ◌-◌, ◌^◌, min, []};

    /// A sink that takes all that memory holds.
    pub fn new(alloc: A) -> Self
        ensures bytes { result.bytes ≡ [] }
        ensures greatest { result.greatest ≡ 2 ^ 64 - 1 }
        ensures limit { result.limit ≡ 2 ^ 64 - 1 }
        ensures failures { result.failures ≡ 0 }
    {
        MemorySink::with_limits(alloc, usize::MAX, usize::MAX)
    }

    /// A sink that takes `greatest` bytes a call at the most, and fails once it took `limit` in all.
    pub fn with_limits(alloc: A, greatest: usize, limit: usize) -> Self
        ensures { result ≡ record { bytes = []; greatest = greatest; limit = limit; failures = 0 } }
    {
        MemorySink {
            bytes: Vec::new(alloc),
            greatest,
            limit,
            failures: 0,
        }
    }

    /// What it took.
    pub fn bytes(&self) -> &[u8]
        ensures { result.now ≡ self.now.bytes }
    {
        self.bytes.as_slice()
    }

    /// The bytes that it took, which are not copied.
    pub fn into_bytes(self) -> Vec<u8, A>
        ensures { result.items ≡ self.bytes }
    {
        self.bytes
    }

    fn fail(&mut self) -> SinkFault
        ensures exact { self.new ≡ record self.old { failures = min (self.old.failures + 1) (2 ^ 64 - 1) } }
        ensures counted { self.old.failures ≤ self.new.failures }
    {
        self.failures = self.failures.saturating_add(1);
        SinkFault
    }
}

impl<A: Allocator> Sink for MemorySink<A> {
    ghost taken = { λ s. Some s.bytes };

    ghost flushed = { λ s. Some s.bytes };

    ghost failures = { λ s. s.failures };

    // The first two clauses say exactly what a call does, and the others are those of every sink.
    fn put(&mut self, piece: &[u8]) -> Result<usize, SinkFault>
        ensures exact { IfOk result (λ n. HasTaken self.old self.new piece.now n) }
        ensures exact_fault { OnErr result (self.new ≡ record self.old { failures = min (self.old.failures + 1) (2 ^ 64 - 1) }) }
        ensures within { IfOk result (λ n. n ≤ length piece.now) }
        ensures some { IfOk result (λ n. 0 < length piece.now → 0 < n) }
        ensures ok { IfOk result (λ n. Gains (Some self.old.bytes) (Some self.new.bytes) (take n piece.now)) }
        ensures err { OnErr result (Some self.new.bytes ≡ Some self.old.bytes) }
        ensures failed { OnErr result (HasFailed self.old.failures self.new.failures) }
        ensures counted { self.old.failures ≤ self.new.failures }
    {
        let room = self.limit.saturating_sub(self.bytes.len());
        let n = piece.len().min(self.greatest).min(room);
        if n == 0 && !piece.is_empty() {
            return Err(self.fail());
        }
        match self.bytes.extend_from_slice(&piece[..n]) {
            Ok(()) => Ok(n),
            Err(_) => Err(self.fail()),
        }
    }

    // It holds nothing back.
    fn flush(&mut self) -> Result<(), SinkFault>
        ensures exact { IsOk result × (self.new ≡ self.old) }
        ensures same { Some self.new.bytes ≡ Some self.old.bytes }
        ensures ok { OnOk result (Some self.new.bytes ≡ Some self.new.bytes) }
        ensures failed { OnErr result (HasFailed self.old.failures self.new.failures) }
        ensures counted { self.old.failures ≤ self.new.failures }
    {
        Ok(())
    }
}
