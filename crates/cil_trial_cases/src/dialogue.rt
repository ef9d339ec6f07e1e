//! Dialogues with a peer that sends on only once it has the answers so far.

use crate::case::{Case, Peer};
use crate::engine::{End, Engine};
use crate::fault::Fault;
use crate::report::{write_end, write_number, write_text};
use crate::state::write_state;
use cil_stream::{MemorySink, MemorySource, ReaderSource, WriterSink};
use std::alloc::Global;
use std::cell::Cell;
use std::io;
use std::io::{BufWriter, ErrorKind, Read, Write};

/// What came to the peer: how many bytes, and in how many writes.
#[derive(Drop)]
struct Arrived {
    bytes: Cell<usize>,
    writes: Cell<usize>,
}

/// The peer's end of the output.
#[derive(Drop)]
struct Wire<'a> {
    arrived: &'a Arrived,
}

impl<'a> Write for Wire<'a> {
    fn write(&mut self, piece: &[u8]) -> io::Result<usize> {
        let bytes = self.arrived.bytes.get().saturating_add(piece.len());
        let writes = self.arrived.writes.get().saturating_add(1);
        self.arrived.bytes.set(bytes);
        self.arrived.writes.set(writes);
        Ok(piece.len())
    }

    fn flush(&mut self) -> io::Result<()> {
        Ok(())
    }
}

/// The peer's end of the input: it gives a part of its script a call, and notes how many bytes it has when it is asked.
#[derive(Drop)]
struct Sender<'a> {
    script: &'a [u8],
    parts: &'a [usize],
    arrived: &'a Arrived,
    asked: &'a mut Vec<usize>,
}

impl<'a> Sender<'a> {
    /// The next part of the script.
    fn next_part(&mut self) -> &'a [u8] {
        let Some((size, parts)) = self.parts.split_first() else {
            return b"";
        };
        let part = self.script.get(..*size).unwrap_or(self.script);
        self.script = self.script.get(*size..).unwrap_or(b"");
        self.parts = parts;
        part
    }
}

impl<'a> Read for Sender<'a> {
    fn read(&mut self, buffer: &mut [u8]) -> io::Result<usize> {
        if self.asked.push(self.arrived.bytes.get()).is_err() {
            return Err(io::Error::from(ErrorKind::OutOfMemory));
        }
        let part = self.next_part();
        let n = part.len().min(buffer.len());
        buffer[..n].copy_from_slice(&part[..n]);
        Ok(n)
    }
}

/// Writes how often the peer was asked, and how many bytes of answers it had each time.
fn write_asked(report: &mut MemorySink, asked: &[usize], arrived: &Arrived) -> Result<(), Fault> {
    write_text(report, b"asked at")?;
    for bytes in asked {
        write_number(report, " ", *bytes, "")?;
    }
    write_number(report, "\nwritten ", arrived.bytes.get(), "")?;
    write_number(report, " in ", arrived.writes.get(), " writes\n")
}

/// A session with a peer, which notes what it had each time it was asked.
fn talk<T: Engine>(alloc: Global, engine: &mut T, sender: Sender<'_>) -> Result<End, Fault> {
    let wire = Wire {
        arrived: sender.arrived,
    };
    let Ok(writer) = BufWriter::new(alloc, wire) else {
        return Err(Fault::Memory);
    };
    let mut source = ReaderSource::new(sender);
    let mut sink = WriterSink::new(writer);
    Ok(engine.session(&mut source, &mut sink))
}

/// Holds a session with a peer, and writes what it had each time it was asked for more.
pub fn write_dialogue<T: Engine>(
    report: &mut MemorySink,
    alloc: Global,
    engine: &mut T,
    case: &Case<'_>,
    peer: &Peer,
) -> Result<bool, Fault> {
    let arrived = Arrived {
        bytes: Cell::new(0),
        writes: Cell::new(0),
    };
    let mut asked = Vec::new(alloc);
    let sender = Sender {
        script: case.script,
        parts: peer.parts.as_slice(),
        arrived: &arrived,
        asked: &mut asked,
    };
    let end = talk(alloc, engine, sender)?;
    write_end(report, end)?;
    write_asked(report, asked.as_slice(), &arrived)?;
    Ok(false)
}

/// A writer that takes all, and whose flushes fail after so many.
#[derive(Drop)]
struct Clogged {
    flushes: usize,
}

impl Write for Clogged {
    fn write(&mut self, piece: &[u8]) -> io::Result<usize> {
        Ok(piece.len())
    }

    fn flush(&mut self) -> io::Result<()> {
        if self.flushes == 0 {
            return Err(io::Error::from(ErrorKind::BrokenPipe));
        }
        self.flushes -= 1;
        Ok(())
    }
}

/// Writes what comes of a session over a sink whose flushes fail after so many, and the state after it.
pub fn write_flushed<T: Engine>(
    report: &mut MemorySink,
    engine: &mut T,
    case: &Case<'_>,
    flushes: usize,
) -> Result<bool, Fault> {
    let mut source = MemorySource::new(case.script);
    let mut sink = WriterSink::new(Clogged { flushes });
    let end = engine.session(&mut source, &mut sink);
    write_end(report, end)?;
    write_number(report, "given ", source.given(), "\n")?;
    write_text(report, b"state\n")?;
    write_state(report, engine, &case.names)?;
    Ok(false)
}
