//! The writers of a report.

use crate::engine::End;
use crate::fault::Fault;
use crate::limits::Limits;
use cil_stream::{MemorySink, write_all, write_pieces};
use itoa::Buffer;

/// Writes a text.
pub fn write_text(report: &mut MemorySink, text: &[u8]) -> Result<(), Fault> {
    match write_all(report, text) {
        Ok(()) => Ok(()),
        Err(_) => Err(Fault::Memory),
    }
}

/// Writes texts one after the other.
pub fn write_texts(report: &mut MemorySink, texts: &[&[u8]]) -> Result<(), Fault> {
    match write_pieces(report, texts) {
        Ok(()) => Ok(()),
        Err(_) => Err(Fault::Memory),
    }
}

/// Writes a number between two texts.
pub fn write_number(
    report: &mut MemorySink,
    before: &str,
    number: usize,
    after: &str,
) -> Result<(), Fault> {
    let mut digits = Buffer::new();
    let number = digits.format(number).as_bytes();
    write_texts(report, &[before.as_bytes(), number, after.as_bytes()])
}

/// Writes how a session ended.
pub fn write_end(report: &mut MemorySink, end: End) -> Result<(), Fault> {
    write_texts(report, &[b"status ", end.word().as_bytes(), b"\n"])
}

/// Writes bytes, with a line feed after them where they end within a line.
pub fn write_lines(report: &mut MemorySink, bytes: &[u8]) -> Result<(), Fault> {
    match bytes.last() {
        Some(b'\n') | None => write_text(report, bytes),
        Some(_) => write_texts(report, &[bytes, b"\n"]),
    }
}

/// Writes how much the source gave. Where it gave all up to its limit, no number is told.
pub fn write_given(report: &mut MemorySink, given: usize, limits: Limits) -> Result<(), Fault> {
    if given == limits.given.min(limits.end) {
        write_text(report, b"given all\n")
    } else {
        write_number(report, "given ", given, "\n")
    }
}

/// Writes what a session wrote. Where the sink took all up to its limit, no number is told.
pub fn write_written(report: &mut MemorySink, written: &[u8], limits: Limits) -> Result<(), Fault> {
    if written.len() == limits.taken {
        return write_text(report, b"written as much as is taken\n");
    }
    write_number(report, "written ", written.len(), "\n")?;
    write_lines(report, written)
}

/// Writes how often set statements were evaluated and counters adjusted, and how many optionals drop.
pub fn write_work(
    report: &mut MemorySink,
    evaluated: u128,
    adjusted: u128,
    dropped: usize,
) -> Result<(), Fault> {
    let mut evaluations = Buffer::new();
    let mut adjustments = Buffer::new();
    let mut left = Buffer::new();
    write_texts(
        report,
        &[
            b"evaluated ",
            evaluations.format(evaluated).as_bytes(),
            b", adjusted ",
            adjustments.format(adjusted).as_bytes(),
            b", dropped ",
            left.format(dropped).as_bytes(),
            b"\n",
        ],
    )
}
