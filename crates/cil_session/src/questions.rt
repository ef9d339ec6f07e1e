//! The questions that a session answers.

ghost use Rattle.std.specs.Prelude.{◌+◌};
ghost use Rattle.cil_session.specs.Common.{asks_rules, asks_violations, asks_dropped, asks_modules, asks_dump, question_asked, Tries, IsAnswerFor};

use crate::command::Question;
use crate::outcome::Outcome;
use crate::reply;
use cil_store::{Compiled, WriteFault};
use cil_stream::{Sink, SinkFault};
use std::alloc::Allocator;

/// Answers the question for the listing.
fn answer_rows<W: Sink, A: Allocator + Copy, C: Compiled<A>>(
    sink: &mut W,
    engine: &C,
) -> Result<Outcome, SinkFault>
    ensures { Tries W.taken W.failures sink.old sink.new (IsAnswerFor (C.store engine.now) asks_rules) result }
{
    match engine.write_listing(sink) {
        Ok(rows) => reply::write_end(sink, rows).and(Ok(Outcome::Accepted)),
        Err(WriteFault::Memory) => reply::write_no_memory(sink).and(Ok(Outcome::Refused)),
        Err(WriteFault::Sink) => Err(SinkFault),
    }
}

/// Answers the question for the violations.
fn answer_violations<W: Sink, A: Allocator + Copy, C: Compiled<A>>(
    sink: &mut W,
    engine: &C,
) -> Result<Outcome, SinkFault>
    ensures { Tries W.taken W.failures sink.old sink.new (IsAnswerFor (C.store engine.now) asks_violations) result }
{
    match engine.write_violations(sink) {
        Ok(count) => reply::write_end(sink, count as u128).and(Ok(Outcome::Accepted)),
        Err(WriteFault::Memory) => reply::write_no_memory(sink).and(Ok(Outcome::Refused)),
        Err(WriteFault::Sink) => Err(SinkFault),
    }
}

/// Answers the question for the optionals that drop.
fn answer_dropped<W: Sink, A: Allocator + Copy, C: Compiled<A>>(
    sink: &mut W,
    engine: &C,
) -> Result<Outcome, SinkFault>
    ensures { Tries W.taken W.failures sink.old sink.new (IsAnswerFor (C.store engine.now) asks_dropped) result }
{
    match engine.dropped() {
        Ok(dropped) => reply::write_dropped(sink, &dropped).and(Ok(Outcome::Accepted)),
        Err(_) => reply::write_no_memory(sink).and(Ok(Outcome::Refused)),
    }
}

/// Answers the question for the modules of the store.
fn answer_modules<W: Sink, A: Allocator + Copy, C: Compiled<A>>(
    sink: &mut W,
    engine: &C,
) -> Result<Outcome, SinkFault>
    ensures { Tries W.taken W.failures sink.old sink.new (IsAnswerFor (C.store engine.now) asks_modules) result }
{
    reply::write_modules(sink, engine.store()).and(Ok(Outcome::Accepted))
}

/// Answers the question for a script that builds the store.
fn answer_dump<W: Sink, A: Allocator + Copy, C: Compiled<A>>(
    sink: &mut W,
    engine: &C,
) -> Result<Outcome, SinkFault>
    ensures { Tries W.taken W.failures sink.old sink.new (IsAnswerFor (C.store engine.now) asks_dump) result }
{
    reply::write_dump(sink, engine.store()).and(Ok(Outcome::Accepted))
}

/// Answers a question.
pub fn answer_question<W: Sink, A: Allocator + Copy, C: Compiled<A>>(
    sink: &mut W,
    engine: &C,
    question: Question,
) -> Result<Outcome, SinkFault>
    ensures { Tries W.taken W.failures sink.old sink.new
        (IsAnswerFor (C.store engine.now) (question_asked question)) result }
{
    match question {
        Question::Rules => answer_rows(sink, engine),
        Question::Violations => answer_violations(sink, engine),
        Question::Dropped => answer_dropped(sink, engine),
        Question::Modules => answer_modules(sink, engine),
        Question::Dump => answer_dump(sink, engine),
    }
}
