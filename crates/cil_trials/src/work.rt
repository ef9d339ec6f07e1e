//! Edits and batches with counted work.

use crate::calls::{Step, step_of};
use crate::engine::Heap;
use crate::replies::or_memory;
use cil_resolve::Meter;
use cil_session::reply;
use cil_store::{Call, ChangeCounts, Compiled, Delta, Edit, Refusal};
use cil_stream::MemorySink;
use cil_trial_cases::{Fault, first_line, write_work};
use std::alloc::Global;

/// Writes what an edit or a batch is answered.
fn write_answer(
    report: &mut MemorySink,
    answer: Result<ChangeCounts, Refusal<&Heap>>,
) -> Result<(), Fault> {
    or_memory(match answer {
        Ok(counts) => reply::write_changes(report, counts),
        Err(refusal) => reply::write_refusal(report, &refusal),
    })
}

/// Writes how often set statements were evaluated and counters adjusted, and how many optionals drop.
fn write_counts(
    report: &mut MemorySink,
    engine: &Delta<&Heap>,
    meter: &Meter,
) -> Result<(), Fault> {
    match engine.dropped() {
        Ok(dropped) => write_work(
            report,
            meter.evaluations(),
            meter.adjustments(),
            dropped.len(),
        ),
        Err(_) => Err(Fault::Memory),
    }
}

/// Makes an edit, and writes what it is answered and its work.
fn make_edit<'h>(
    report: &mut MemorySink,
    engine: &mut Delta<&'h Heap>,
    edit: Edit<'_>,
) -> Result<(), Fault> {
    let mut meter = Meter::new();
    let answer = engine.edit_counted_metered(edit, &mut meter);
    write_answer(report, answer)?;
    write_counts(report, engine, &meter)
}

/// Makes a batch, and writes what it is answered and its work.
fn make_batch<'h>(
    report: &mut MemorySink,
    engine: &mut Delta<&'h Heap>,
    edits: &[Edit<'_>],
) -> Result<(), Fault> {
    let mut meter = Meter::new();
    let answer = engine.batch_counted_metered(edits, &mut meter);
    write_answer(report, answer)?;
    write_counts(report, engine, &meter)
}

/// Does what a command asks for. The edits of an open batch wait for its end.
fn take_step<'a, 'h>(
    alloc: Global,
    report: &mut MemorySink,
    engine: &mut Delta<&'h Heap>,
    open: &mut Option<Vec<Edit<'a>>>,
    step: Step<'a>,
) -> Result<(), Fault> {
    match (step, open.take()) {
        (Step::Call(Call::Edit(edit)), None) => make_edit(report, engine, edit),
        (Step::Call(Call::Edit(edit)), Some(mut edits)) => {
            edits.push(edit)?;
            *open = Some(edits);
            Ok(())
        }
        (Step::Begin, None) => {
            *open = Some(Vec::new(alloc));
            Ok(())
        }
        (Step::Commit, Some(edits)) => make_batch(report, engine, edits.as_slice()),
        _ => Err(Fault::Case),
    }
}

/// Makes the edits and the batches that the commands of a script ask for one after the other, and writes what each is answered and its
/// work. It is no case where a batch stays open.
pub fn make_edits<'h>(
    alloc: Global,
    report: &mut MemorySink,
    engine: &mut Delta<&'h Heap>,
    script: &[u8],
) -> Result<(), Fault> {
    let mut open = None;
    let mut rest = script;
    for _ in 0..script.len() {
        if rest.is_empty() {
            break;
        }
        let (line, after) = first_line(rest);
        let (step, after) = step_of(line, after)?;
        take_step(alloc, report, engine, &mut open, step)?;
        rest = after;
    }
    match open {
        None => Ok(()),
        Some(_) => Err(Fault::Case),
    }
}
