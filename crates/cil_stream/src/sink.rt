//! Sinks, which take bytes.

ghost use Rattle.std.specs.Prelude.{◌≡◌, ◌+◌, ◌-◌, ◌^◌, ◌<◌, ◌≤◌, ℕ, List, Option, Some, min, take, length, flat_map, OnOk, OnErr, IfOk, IfSome};
ghost use Rattle.cil_stream.specs.Device.{HasFailed, Gains, GainsFront};

use crate::retrying::{flush_retrying, write_retrying};
use std::io::Write;
use std::marker::Model;
use std::snapshot::Snapshot;
use thiserror::Error;

/// A sink didn't take what it was given.
#[derive(Clone, Copy, Debug, PartialEq, Eq, Error)]
#[error("the output failed")]
pub struct SinkFault;

/// Takes bytes, a piece or a part of a piece at a time.
pub trait Sink {
    /// The bytes taken so far, where it can tell them.
    ghost taken: { Self → Option (List ℕ) };

    /// Those of them that were flushed, where it can tell them.
    ghost flushed: { Self → Option (List ℕ) };

    /// How often it failed so far.
    ghost failures: { Self → ℕ };

    /// Takes a front of the piece, some of it where there is some, and tells how much.
    fn put(&mut self, piece: &[u8]) -> Result<usize, SinkFault>
        ensures within { IfOk result (λ n. n ≤ length piece.now) }
        ensures some { IfOk result (λ n. 0 < length piece.now → 0 < n) }
        ensures ok { IfOk result (λ n. Gains (taken self.old) (taken self.new) (take n piece.now)) }
        ensures err { OnErr result (taken self.new ≡ taken self.old) }
        ensures failed { OnErr result (HasFailed (failures self.old) (failures self.new)) }
        ensures counted { failures self.old ≤ failures self.new };

    /// Sends on what it holds back of the bytes that it took.
    fn flush(&mut self) -> Result<(), SinkFault>
        ensures same { taken self.new ≡ taken self.old }
        ensures ok { OnOk result (flushed self.new ≡ taken self.new) }
        ensures failed { OnErr result (HasFailed (failures self.old) (failures self.new)) }
        ensures counted { failures self.old ≤ failures self.new };
}

/// Has a sink take a whole text. After a fault it took a beginning.
pub fn write_all<W: Sink>(sink: &mut W, text: &[u8]) -> Result<(), SinkFault>
    ensures ok { OnOk result (Gains (W.taken sink.old) (W.taken sink.new) text.now) }
    ensures err { OnErr result (GainsFront (W.taken sink.old) (W.taken sink.new) text.now) }
    ensures failed { OnErr result (HasFailed (W.failures sink.old) (W.failures sink.new)) }
    ensures counted { W.failures sink.old ≤ W.failures sink.new }
{
    let mut done = 0;
    while done < text.len() {
        done += sink.put(&text[done..])?;
    }
    Ok(())
}

/// Has a sink take several texts, one after another. After a fault it took a beginning of them.
pub fn write_pieces<W: Sink>(sink: &mut W, pieces: &[&[u8]]) -> Result<(), SinkFault>
    ensures ok { OnOk result (Gains (W.taken sink.old) (W.taken sink.new) (flat_map (λ p. p.now) pieces.now)) }
    ensures err { OnErr result (GainsFront (W.taken sink.old) (W.taken sink.new) (flat_map (λ p. p.now) pieces.now)) }
    ensures failed { OnErr result (HasFailed (W.failures sink.old) (W.failures sink.new)) }
    ensures counted { W.failures sink.old ≤ W.failures sink.new }
{
    for piece in pieces {
        write_all(sink, piece)?;
    }
    Ok(())
}

/// A sink over a writer of std. It tells its bytes where the writer knew what it held at first, which counts as taken and flushed.
#[derive(Drop)]
pub struct WriterSink<W: Write + Drop> {
    writer: W,
    first: Snapshot<W>,
    flushed: Snapshot<W>,
    failures: u64,
}

impl<W: Write + Drop> Model for WriterSink<W> {
    ghost use Rattle.std.specs.Prelude.{IsSome};
    ghost use Rattle.cil_stream.specs.Device.{Outflow, told};

    ghost Value = { Outflow };

    ghost view = { λ s. record { taken = told (W.contents s.first.value) (W.contents s.writer); flushed = told (W.contents s.first.value) (W.contents s.flushed.value); failures = s.failures } };

    ghost invariant = { λ s. IsSome (W.contents s.first.value) → IsSome (W.contents s.writer) };
}

impl<W: Write + Drop> WriterSink<W> {
    /// A sink that didn't fail yet.
    pub fn new(writer: W) -> Self
        ensures taken { result.taken ≡ W.contents writer }
        ensures failures { result.failures ≡ 0 }
    {
        let first = Snapshot::of(&writer);
        let flushed = Snapshot::of(&writer);
        WriterSink {
            writer,
            first,
            flushed,
            failures: 0,
        }
    }

    /// The writer. Where it knew what it held at first it holds what was taken.
    pub fn into_writer(self) -> W
        ensures { IfSome self.taken (λ bytes. W.contents result ≡ Some bytes) }
    {
        self.writer
    }

    fn fail(&mut self) -> SinkFault
        ensures exact { self.new ≡ record self.old { failures = min (self.old.failures + 1) (2 ^ 64 - 1) } }
    {
        self.failures = self.failures.saturating_add(1);
        SinkFault
    }
}

impl<W: Write + Drop> Sink for WriterSink<W> {
    ghost taken = { λ s. s.taken };

    ghost flushed = { λ s. s.flushed };

    ghost failures = { λ s. s.failures };

    fn put(&mut self, piece: &[u8]) -> Result<usize, SinkFault> {
        match write_retrying(&mut self.writer, piece) {
            Ok(n) if n > 0 || piece.is_empty() => Ok(n),
            _ => Err(self.fail()),
        }
    }

    fn flush(&mut self) -> Result<(), SinkFault> {
        match flush_retrying(&mut self.writer) {
            Ok(flushed) => {
                self.flushed = flushed;
                Ok(())
            }
            Err(_) => Err(self.fail()),
        }
    }
}
