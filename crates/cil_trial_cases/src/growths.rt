//! What comes of a case in which growths are refused.

use crate::attempt::answer;
use crate::case::{Case, Refusal};
use crate::engine::Engine;
use crate::fault::Fault;
use crate::report::write_text;
use crate::state::write_probed;
use cil_stream::MemorySink;
use std::alloc::Global;

/// The answer of one command where memory ran out. That of a session has its status in front.
const OUT_OF_MEMORY: &[u8] = b"refused 60 memory\n";

pub const AS_WITH_MEMORY: &[u8] = b"- as with memory\n";

/// An answer and the state after it.
#[derive(Drop)]
struct Asked {
    answer: MemorySink,
    state: MemorySink,
}

/// What comes of a case with ample memory, and the state before it.
#[derive(Drop)]
pub struct Ample {
    before: MemorySink,
    asked: Asked,
}

pub fn is_same(one: &MemorySink, other: &MemorySink) -> bool {
    one.bytes() == other.bytes()
}

/// The state, asked with memory.
fn state<T: Engine>(alloc: Global, engine: &mut T, case: &Case<'_>) -> Result<MemorySink, Fault> {
    engine.refuse(Refusal::None);
    let mut found = MemorySink::new(alloc);
    match write_probed(&mut found, engine, &case.names) {
        Ok(()) => Ok(found),
        Err(fault) => Err(fault),
    }
}

/// Asks what is tried. The state after it is asked with memory.
fn ask<T: Engine>(alloc: Global, engine: &mut T, case: &Case<'_>) -> Result<Asked, Fault> {
    let answer = answer(alloc, engine, case)?;
    match state(alloc, engine, case) {
        Ok(state) => Ok(Asked { answer, state }),
        Err(fault) => Err(fault),
    }
}

impl Ample {
    /// It is to be filled.
    pub fn new(alloc: Global) -> Ample {
        Ample {
            before: MemorySink::new(alloc),
            asked: Asked {
                answer: MemorySink::new(alloc),
                state: MemorySink::new(alloc),
            },
        }
    }

    /// Asks with ample memory.
    pub fn fill<T: Engine>(
        &mut self,
        alloc: Global,
        engine: &mut T,
        case: &Case<'_>,
    ) -> Result<bool, Fault> {
        self.before = state(alloc, engine, case)?;
        self.asked = ask(alloc, engine, case)?;
        Ok(false)
    }

    /// Writes them.
    pub fn write(&self, report: &mut MemorySink) -> Result<(), Fault> {
        write_text(report, self.asked.answer.bytes())?;
        self.write_state(report, &self.asked.state)
    }

    fn write_answer(&self, report: &mut MemorySink, found: &MemorySink) -> Result<(), Fault> {
        if is_same(found, &self.asked.answer) {
            write_text(report, b"answered as with memory\n")
        } else {
            write_text(report, found.bytes())
        }
    }

    fn write_state(&self, report: &mut MemorySink, found: &MemorySink) -> Result<(), Fault> {
        if is_same(found, &self.before) {
            return write_text(report, b"state as before\n");
        }
        write_text(report, b"state\n")?;
        write_text(report, found.bytes())
    }

    fn write_asked(&self, report: &mut MemorySink, asked: &Asked) -> Result<(), Fault> {
        self.write_answer(report, &asked.answer)?;
        self.write_state(report, &asked.state)
    }

    fn is_asked(&self, asked: &Asked) -> bool {
        is_same(&asked.answer, &self.asked.answer) && is_same(&asked.state, &self.asked.state)
    }

    fn is_undone(&self, asked: &Asked) -> bool {
        let answer = asked.answer.bytes();
        let answer = answer.strip_prefix(b"status refused\n").unwrap_or(answer);
        answer == OUT_OF_MEMORY && is_same(&asked.state, &self.before)
    }

    /// Writes what came of a case, asked with growths refused and then again with memory.
    fn write_outcome(
        &self,
        report: &mut MemorySink,
        first: &Asked,
        again: &Asked,
    ) -> Result<(), Fault> {
        if self.is_asked(first) {
            return write_text(report, AS_WITH_MEMORY);
        }
        if self.is_undone(first) && self.is_asked(again) {
            return write_text(
                report,
                b"- out of memory, unchanged, and then as with memory\n",
            );
        }
        write_text(report, b"-\n")?;
        self.write_asked(report, first)?;
        write_text(report, b"again\n")?;
        self.write_asked(report, again)
    }
}

/// Asks with growths refused, and then again with memory, writes what came of both, and says whether it came to a growth that was
/// refused.
pub fn write_refused<T: Engine>(
    report: &mut MemorySink,
    alloc: Global,
    engine: &mut T,
    case: &Case<'_>,
    ample: &Ample,
) -> Result<bool, Fault> {
    let first = ask(alloc, engine, case)?;
    let is_refused = engine.refused() > 0;
    let again = ask(alloc, engine, case)?;
    ample.write_outcome(report, &first, &again)?;
    Ok(is_refused)
}
