//! The edits and the batches that a session makes.

ghost use Rattle.std.specs.Prelude.{◌≡◌, ◌+◌, None};
ghost use Rattle.cil_session.specs.Common.{answer_of, a_line, a_refusal, state_of, Answers, for_memory, refused, makes, begins, commits, aborts, Store, edit_of, held_answer, IsOpen, state_with, Tries, Does, AnswersBatch, Makes};

use crate::batch::{Batch, NotHeld};
use crate::edit_list::EditList;
use crate::outcome::Outcome;
use crate::reply;
use cil_store::{ChangeCounts, Compiled, Edit, Refusal};
use cil_stream::{Sink, SinkFault, write_all};
use std::alloc::Allocator;

/// The batch would be, or was, too long.
const TOO_LONG: u8 = 35;

/// A batch is open already.
const BATCH_OPEN: u8 = 36;

/// No batch is open.
const NO_BATCH: u8 = 37;

/// Writes a line that refuses nothing.
fn tell<W: Sink>(sink: &mut W, line: &[u8]) -> Result<Outcome, SinkFault>
    ensures { Tries W.taken W.failures sink.old sink.new (λ answer. answer ≡ a_line line.now) result }
{
    write_all(sink, line).and(Ok(Outcome::Accepted))
}

/// Writes a refusal by its code and its word.
fn refuse<W: Sink>(sink: &mut W, code: u8, word: &[u8]) -> Result<Outcome, SinkFault>
    ensures { Tries W.taken W.failures sink.old sink.new
        (λ answer. answer ≡ a_refusal code word.now) result }
{
    reply::write_store_refusal(sink, code, word).and(Ok(Outcome::Refused))
}

/// Writes that memory ran out.
fn refuse_for_memory<W: Sink>(sink: &mut W) -> Result<Outcome, SinkFault>
    ensures { Tries W.taken W.failures sink.old sink.new
        (λ answer. answer ≡ answer_of (refused for_memory)) result }
{
    reply::write_no_memory(sink).and(Ok(Outcome::Refused))
}

/// Writes what came of a batch.
fn answer_batch<W: Sink, A: Allocator>(
    sink: &mut W,
    made: Result<ChangeCounts, Refusal<A>>,
) -> Result<Outcome, SinkFault>
    ensures { Tries W.taken W.failures sink.old sink.new (AnswersBatch made) result }
{
    match made {
        Ok(counts) => reply::write_changes(sink, counts).and(Ok(Outcome::Accepted)),
        Err(refusal) => reply::write_refusal(sink, &refusal).and(Ok(Outcome::Refused)),
    }
}

/// Makes an edit where no batch is open, and answers it.
pub fn make_edit<W: Sink, A: Allocator + Copy, C: Compiled<A>>(
    sink: &mut W,
    engine: &mut C,
    edit: Edit<'_>,
) -> Result<Outcome, SinkFault>
    ensures { Tries W.taken W.failures sink.old sink.new
        (Does (state_of (C.store engine.old)) (makes (edit_of edit.entry)) (state_of (C.store engine.new))) result }
{
    let made = engine.edit_counted(edit);
    answer_batch(sink, made)
}

/// Writes what came of an edit that was given to the open batch.
pub fn answer_held<W: Sink>(
    sink: &mut W,
    held: Result<(), NotHeld>,
    name: &[u8],
) -> Result<Outcome, SinkFault>
    ensures { Tries W.taken W.failures sink.old sink.new
        (λ answer. answer ≡ held_answer held name.now) result }
{
    match held {
        Ok(()) => tell(sink, b"held\n"),
        Err(NotHeld::TooLong) => refuse(sink, TOO_LONG, name),
        Err(NotHeld::Memory) => refuse_for_memory(sink),
    }
}

/// Makes an edit; or has the open batch hold it.
pub fn answer_edit<W: Sink, A: Allocator + Copy, C: Compiled<A>>(
    sink: &mut W,
    engine: &mut C,
    batch: &mut Batch<A>,
    edit: Edit<'_>,
) -> Result<Outcome, SinkFault>
    ensures { Tries W.taken W.failures sink.old sink.new
        (Does (state_with (C.store engine.old) batch.old) (makes (edit_of edit.entry))
        (state_with (C.store engine.new) batch.new)) result }
{
    if !batch.is_open() {
        return make_edit(sink, engine, edit);
    }
    let held = batch.hold(edit);
    answer_held(sink, held, edit.name())
}

/// Opens a batch, on a line behind so many line feeds.
pub fn answer_begin<W: Sink, A: Allocator + Copy>(
    sink: &mut W,
    batch: &mut Batch<A>,
    line_feeds: u64,
) -> Result<Outcome, SinkFault>
    ensures { (store : Store) → Tries W.taken W.failures sink.old sink.new
        (λ answer. Answers (1 + line_feeds) (state_with store batch.old) begins
        answer (state_with store batch.new)) result }
{
    if batch.is_open() {
        return refuse(sink, BATCH_OPEN, b"begin");
    }
    batch.open(line_feeds);
    tell(sink, b"open\n")
}

/// Makes the edits of a batch as one.
fn make_edits<A: Allocator + Copy, C: Compiled<A>>(
    alloc: A,
    engine: &mut C,
    edits: &EditList<A>,
) -> Result<ChangeCounts, Refusal<A>>
    ensures { Makes (C.store engine.old) edits.now (C.store engine.new) result }
{
    let edits = edits.as_edits(alloc)?;
    engine.batch_counted(&edits)
}

/// Makes the open batch and closes it.
fn commit<W: Sink, A: Allocator + Copy, C: Compiled<A>>(
    sink: &mut W,
    engine: &mut C,
    batch: &mut Batch<A>,
) -> Result<Outcome, SinkFault>
    requires { IsOpen batch.old }
    ensures { Tries W.taken W.failures sink.old sink.new
        (Does (state_with (C.store engine.old) batch.old) commits
        (state_with (C.store engine.new) batch.new)) result }
{
    match batch.fault() {
        Some(NotHeld::TooLong) => {
            batch.close();
            refuse(sink, TOO_LONG, b"batch")
        }
        Some(NotHeld::Memory) => {
            batch.close();
            refuse_for_memory(sink)
        }
        None => {
            let made = make_edits(batch.alloc(), engine, batch.edits());
            batch.close();
            answer_batch(sink, made)
        }
    }
}

/// Makes the batch that is open, if one is, and closes it.
pub fn answer_commit<W: Sink, A: Allocator + Copy, C: Compiled<A>>(
    sink: &mut W,
    engine: &mut C,
    batch: &mut Batch<A>,
) -> Result<Outcome, SinkFault>
    ensures { Tries W.taken W.failures sink.old sink.new
        (Does (state_with (C.store engine.old) batch.old) commits
        (state_with (C.store engine.new) batch.new)) result }
{
    if !batch.is_open() {
        return refuse(sink, NO_BATCH, b"commit");
    }
    commit(sink, engine, batch)
}

/// Closes the batch that is open, if one is. Nothing is done of it.
pub fn answer_abort<W: Sink, A: Allocator + Copy>(
    sink: &mut W,
    batch: &mut Batch<A>,
) -> Result<Outcome, SinkFault>
    ensures { (store : Store) → Tries W.taken W.failures sink.old sink.new
        (Does (state_with store batch.old) aborts
        (state_with store batch.new)) result }
{
    if !batch.is_open() {
        return refuse(sink, NO_BATCH, b"abort");
    }
    batch.close();
    tell(sink, b"closed\n")
}
