//! Outcomes of a trial that is made with one number of bytes after the other.

use crate::fault::Fault;
use crate::report::{write_number, write_text};
use cil_stream::MemorySink;
use std::alloc::Global;

/// Outcomes that are the same for numbers of bytes that follow on one another.
#[derive(Drop)]
pub struct Stretch {
    first: usize,
    last: usize,
    outcome: MemorySink,
}

impl Stretch {
    /// The outcome of no bytes is to come.
    pub fn new(alloc: Global) -> Stretch {
        Stretch {
            first: 0,
            last: 0,
            outcome: MemorySink::new(alloc),
        }
    }

    /// Writes it.
    pub fn write(&self, report: &mut MemorySink) -> Result<(), Fault> {
        write_number(report, "at ", self.first, "")?;
        if self.first < self.last {
            write_number(report, " to ", self.last, "")?;
        }
        write_text(report, b"\n")?;
        write_text(report, self.outcome.bytes())
    }

    /// Goes on with the outcome of a number of bytes: where it is another one, what was before is written.
    pub fn go_on(
        &mut self,
        bytes: usize,
        found: MemorySink,
        report: &mut MemorySink,
    ) -> Result<(), Fault> {
        if bytes > 0 && found.bytes() != self.outcome.bytes() {
            self.write(report)?;
            self.first = bytes;
        }
        self.outcome = found;
        self.last = bytes;
        Ok(())
    }
}
