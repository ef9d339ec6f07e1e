//! What is asked of an engine: the script of a session, over devices with limits too, a list of calls, or a list of entries at once.

use crate::case::{Case, Way};
use crate::engine::{End, Engine};
use crate::fault::Fault;
use crate::limits::Limits;
use crate::report::{write_end, write_given, write_lines, write_written};
use cil_stream::{MemorySink, MemorySource};
use std::alloc::Global;

/// Writes what comes of a script over devices with limits, and says whether the sink failed.
pub fn write_session<T: Engine>(
    report: &mut MemorySink,
    alloc: Global,
    engine: &mut T,
    script: &[u8],
    limits: Limits,
) -> Result<bool, Fault> {
    let script = script.get(..limits.end).unwrap_or(script);
    let mut source = MemorySource::with_limits(script, limits.give, limits.given);
    let mut sink = MemorySink::with_limits(alloc, limits.take, limits.taken);
    let end = engine.session(&mut source, &mut sink);
    write_end(report, end)?;
    write_given(report, source.given(), limits)?;
    write_written(report, sink.bytes(), limits)?;
    Ok(matches!(end, End::WriteFault))
}

/// Writes how the session of a script ends and what it answers.
pub fn write_answer<T: Engine>(
    report: &mut MemorySink,
    alloc: Global,
    engine: &mut T,
    script: &[u8],
) -> Result<(), Fault> {
    let mut sink = MemorySink::new(alloc);
    let end = engine.answer(script, &mut sink);
    write_end(report, end)?;
    write_lines(report, sink.bytes())
}

/// Makes the store of a case. Its commands are whole.
pub fn set_up<T: Engine>(alloc: Global, engine: &mut T, case: &Case<'_>) -> Result<(), Fault> {
    let mut sink = MemorySink::new(alloc);
    match engine.answer(case.before, &mut sink) {
        End::Clean | End::Refused => Ok(()),
        End::Script | End::ReadFault | End::WriteFault => Err(Fault::Case),
    }
}

/// Asks an engine what a case tries, and writes its answer. Behind entries that are compiled at once, it asks what the case asks then.
fn ask<T: Engine>(
    sink: &mut MemorySink,
    alloc: Global,
    engine: &mut T,
    case: &Case<'_>,
) -> Result<(), Fault> {
    match case.way {
        Way::Session => write_answer(sink, alloc, engine, case.script),
        Way::Run => engine.run(case.script, sink),
        Way::AtOnce => {
            engine.compile(case.script, sink)?;
            if case.then.is_empty() {
                return Ok(());
            }
            write_answer(sink, alloc, engine, case.then)
        }
        Way::Work => engine.work(case.script, sink),
    }
}

/// Asks an engine what a case tries, and gives the answer.
pub fn answer<T: Engine>(
    alloc: Global,
    engine: &mut T,
    case: &Case<'_>,
) -> Result<MemorySink, Fault> {
    let mut sink = MemorySink::new(alloc);
    match ask(&mut sink, alloc, engine, case) {
        Ok(()) => Ok(sink),
        Err(fault) => Err(fault),
    }
}
