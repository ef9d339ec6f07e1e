//! What is done with a new engine.

use crate::attempt::{set_up, write_answer, write_session};
use crate::case::{Case, Peer, Refusal};
use crate::dialogue::{write_dialogue, write_flushed};
use crate::engine::Engine;
use crate::fault::Fault;
use crate::growths::{Ample, write_refused};
use crate::limits::Limits;
use crate::report::write_text;
use crate::state::write_state;
use cil_stream::MemorySink;
use std::alloc::Global;

/// What is done with a new engine, once the store of the case is made.
#[derive(Drop)]
pub enum Job<'a> {
    /// The case's script over such devices.
    Session(Limits),
    /// The case asked with ample memory.
    Ample(&'a mut Ample),
    /// The case asked with growths refused, and then again with memory.
    Refused(Refusal, &'a Ample),
    /// A dialogue with a peer.
    Dialogue(&'a Peer),
    /// A sink whose flushes fail after so many.
    Flushes(usize),
    /// The case's edits, whose work is counted.
    Work,
}

/// Writes what comes of a case over such devices, and says whether the sink failed.
fn write_outcome<T: Engine>(
    report: &mut MemorySink,
    alloc: Global,
    engine: &mut T,
    case: &Case<'_>,
    limits: Limits,
) -> Result<bool, Fault> {
    let has_failed = write_session(report, alloc, engine, case.script, limits)?;
    if !case.then.is_empty() {
        write_text(report, b"then\n")?;
        write_answer(report, alloc, engine, case.then)?;
    }
    write_text(report, b"state\n")?;
    write_state(report, engine, &case.names)?;
    Ok(has_failed)
}

impl<'a> Job<'a> {
    /// Does it with an engine, once that has the store of a case, and says whether it came to what was to fail.
    pub fn make<T: Engine>(
        self,
        alloc: Global,
        engine: &mut T,
        case: &Case<'_>,
        report: &mut MemorySink,
    ) -> Result<bool, Fault> {
        set_up(alloc, engine, case)?;
        match self {
            Job::Session(limits) => write_outcome(report, alloc, engine, case, limits),
            Job::Ample(ample) => ample.fill(alloc, engine, case),
            Job::Refused(refusal, ample) => {
                engine.refuse(refusal);
                write_refused(report, alloc, engine, case, ample)
            }
            Job::Dialogue(peer) => write_dialogue(report, alloc, engine, case, peer),
            Job::Flushes(flushes) => write_flushed(report, engine, case, flushes),
            Job::Work => match engine.work(case.script, report) {
                Ok(()) => Ok(false),
                Err(fault) => Err(fault),
            },
        }
    }
}
