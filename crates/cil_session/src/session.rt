//! A session: it answers a script, command by command.

ghost use Rattle.std.specs.Prelude.{◌≡◌, ◌≢◌, ◌≤◌, ◌+◌, [], List, ℕ, length, take, min, vec_capacity, IfOk, IfErr, OnOk, OnErr, IsErrOf, IsTrue, None};
ghost use Rattle.cil_session.specs.Common.{HasFailed, HasEnded, GainsFront, has_ended, Answers, install, refused, makes, refusal_line, last_line, last_end, store_refusal_of, command_of, Fits, Writes, answer_aside, batch_behind, end_of, point, standing, state_with, told, turn_of, Comes, Tries, Does, IsLeftAside, EndsSo, IsOutcome, IsInstallOutcome, IsInstallCut, IsLast, IsLineCut, IsSessionCut, IsTurn, IsTurnCut, Leaves, LeavesByRead, LeavesByWrite};
ghost use Rattle.cil_session.specs.declared.input.LineEnd.TheVariants.{LastByte};
ghost use Rattle.cil_session.specs.declared.outcome.Status.TheVariants.{Script};

use crate::batch::{Batch, NotHeld};
use crate::command::{Command, InstallLine, ScriptLine, script_line};
use crate::edits::{
    answer_abort, answer_begin, answer_commit, answer_edit, answer_held, make_edit,
};
use crate::held_edit::GREATEST_HELD;
use crate::input::{Input, LineEnd};
use crate::line::Line;
use crate::outcome::{Last, Outcome, SessionFault, Status, Turn};
use crate::questions::answer_question;
use crate::reply;
use cil_store::{Compiled, Edit, StoreFault};
use cil_stream::{Sink, SinkFault, Source, write_all};
use itoa::Buffer;
use std::alloc::Allocator;

/// Does what a command asks for that is whole with its line, behind so many line feeds, and answers it.
fn answer_command<W: Sink, A: Allocator + Copy, C: Compiled<A>>(
    sink: &mut W,
    engine: &mut C,
    batch: &mut Batch<A>,
    line_feeds: u64,
    command: Command<'_>,
) -> Result<Outcome, SinkFault>
    ensures { Tries W.taken W.failures sink.old sink.new
        (λ answer. Answers (1 + line_feeds) (state_with (C.store engine.old) batch.old)
        (command_of command.entry) answer (state_with (C.store engine.new) batch.new)) result }
{
    match command {
        Command::Edit(edit) => answer_edit(sink, engine, batch, edit),
        Command::Begin => answer_begin(sink, batch, line_feeds),
        Command::Commit => answer_commit(sink, engine, batch),
        Command::Abort => answer_abort(sink, batch),
        Command::Ask(question) => answer_question(sink, engine, question),
    }
}

/// Writes the refusal of an install by the store.
fn write_store_fault<W: Sink>(
    sink: &mut W,
    fault: StoreFault,
    name: &[u8],
    priority: u32,
) -> Result<(), SinkFault>
    ensures { Writes W.taken W.failures sink.old sink.new
        (refusal_line (store_refusal_of fault name.now priority)) result }
{
    match fault {
        StoreFault::BadPriority => {
            let mut digits = Buffer::new();
            reply::write_store_refusal(sink, fault.code(), digits.format(priority).as_bytes())
        }
        StoreFault::BadModuleName
        | StoreFault::NotInstalled
        | StoreFault::Full
        | StoreFault::TextTooLong
        | StoreFault::BatchTooLong => reply::write_store_refusal(sink, fault.code(), name),
    }
}

/// Flushes the sink, unless what is read next is held back already. So a source is asked for bytes only when all answers are
/// out, and whoever waits for one before the next command gets it.
fn flush_unless<W: Sink>(sink: &mut W, held: bool) -> Result<(), SinkFault>
    ensures same { W.taken sink.new ≡ W.taken sink.old }
    ensures failed { OnErr result (HasFailed (W.failures sink.old) (W.failures sink.new)) }
    ensures counted { W.failures sink.old ≤ W.failures sink.new }
{
    if held {
        return Ok(());
    }
    sink.flush()
}

/// What came of a call that writes, as one that reads too tells it.
fn told(written: Result<Outcome, SinkFault>) -> Result<Outcome, SessionFault>
    ensures { result ≡ told written }
{
    Ok(written?)
}

/// What a session has between two calls: bytes that its source gave and that are not read yet, and its open batch.
#[derive(Drop)]
struct OpenSession<A: Allocator> {
    input: Input,
    batch: Batch<A>,
}

/// Why the text of an install is left aside.
#[derive(Clone, Copy, Debug, PartialEq, Eq)]
pub enum LeftAside {
    /// The store refuses the install, whatever its text spells.
    ByStore(StoreFault),
    /// The open batch doesn't hold it; or there is no memory for it.
    NotHeld(NotHeld),
}

/// An empty vector with room for as much of the text of an install as is read; or why the text is left aside.
fn text_room<A: Allocator + Copy, C: Compiled<A>>(
    engine: &C,
    batch: &Batch<A>,
    line: InstallLine<'_>,
) -> Result<Vec<u8, A>, LeftAside>
    ensures empty { IfOk result (λ text. text.items ≡ []) }
    ensures room { IfOk result (λ text. min line.entry.len 16777217 ≤ vec_capacity text) }
    ensures whole { batch.now ≡ None → OnOk result (line.entry.len ≤ 16777216) }
    ensures err { IfErr result (IsLeftAside (C.store engine.now) batch.now
        line.entry.name.now line.entry.priority line.entry.len) }
{
    let len = line.len as usize;
    if batch.is_open() {
        return match batch.text_room(len) {
            Ok(text) => Ok(text),
            Err(why) => Err(LeftAside::NotHeld(why)),
        };
    }
    if let Err(fault) = engine.store().check_install(line.name, line.priority, len) {
        return Err(LeftAside::ByStore(fault));
    }
    match Vec::with_capacity(batch.alloc(), len) {
        Ok(text) => Ok(text),
        Err(_) => Err(LeftAside::NotHeld(NotHeld::Memory)),
    }
}

/// Answers an install whose text was left aside.
fn answer_aside<W: Sink, A: Allocator + Copy>(
    sink: &mut W,
    batch: &mut Batch<A>,
    line: InstallLine<'_>,
    why: LeftAside,
) -> Result<Outcome, SinkFault>
    ensures told { Tries W.taken W.failures sink.old sink.new
        (λ answer. answer ≡ answer_aside why line.entry.name.now line.entry.priority) result }
    ensures batch { batch.new ≡ batch_behind why batch.old }
{
    match why {
        LeftAside::ByStore(fault) => {
            write_store_fault(sink, fault, line.name, line.priority).and(Ok(Outcome::Refused))
        }
        LeftAside::NotHeld(why) => {
            batch.give_up(why);
            answer_held(sink, Err(why), line.name)
        }
    }
}

/// Makes an install whose text was read, or has the open batch hold it.
fn take_install<W: Sink, A: Allocator + Copy, C: Compiled<A>>(
    sink: &mut W,
    engine: &mut C,
    batch: &mut Batch<A>,
    line: InstallLine<'_>,
    read: Vec<u8, A>,
) -> Result<Outcome, SinkFault>
    requires { length read.items ≤ 16777217 }
    ensures { (text : List ℕ) → read.items ≡ take 16777217 text → (batch.old ≡ None → read.items ≡ text)
        → Tries W.taken W.failures sink.old sink.new (Does (state_with (C.store engine.old) batch.old)
        (makes (install line.entry.name.now line.entry.priority text))
        (state_with (C.store engine.new) batch.new)) result }
{
    if batch.is_open() {
        let held = batch.hold_install(line.name, line.priority, read);
        return answer_held(sink, held, line.name);
    }
    let edit = Edit::Install {
        name: line.name,
        priority: line.priority,
        text: read.as_slice(),
    };
    make_edit(sink, engine, edit)
}

/// Reads the text of an install, and makes the install or has the open batch hold it. A text is left aside of an install that the
/// store or the open batch refuses whatever it spells, or for which there is no memory.
fn answer_install<S: Source, W: Sink, A: Allocator + Copy, C: Compiled<A>>(
    session: &mut OpenSession<A>,
    source: &mut S,
    sink: &mut W,
    engine: &mut C,
    line: InstallLine<'_>,
) -> Result<Outcome, SessionFault>
    requires { Fits (S.account source.old).count session.old.input }
    ensures { Comes (λ outcome. IsInstallOutcome outcome line.entry.name.now line.entry.priority line.entry.len)
        (λ fault. IsInstallCut fault line.entry.name.now line.entry.priority line.entry.len)
        (point (S.account source.old) session.old.input (C.store engine.old) session.old.batch
        (W.taken sink.old) (W.failures sink.old))
        (point (S.account source.new) session.new.input (C.store engine.new) session.new.batch
        (W.taken sink.new) (W.failures sink.new)) result }
{
    let len = line.len as usize;
    let mut text = match text_room(engine, &session.batch, line) {
        Ok(text) => text,
        Err(why) => {
            if !session.input.skip_text(source, len)? {
                return Ok(Outcome::NoCommand);
            }
            return told(answer_aside(sink, &mut session.batch, line, why));
        }
    };
    if !session
        .input
        .read_front(source, len, GREATEST_HELD, &mut text)?
    {
        return Ok(Outcome::NoCommand);
    }
    told(take_install(sink, engine, &mut session.batch, line, text))
}

/// A line that was read, and how it ended. A line without its line feed is the last.
#[derive(Clone, Copy)]
struct ReadLine<'a> {
    bytes: &'a [u8],
    end: LineEnd,
    /// How many line feeds stand before it.
    line_feeds: u64,
}

/// Does what a line asks for and answers it.
fn answer_line<S: Source, W: Sink, A: Allocator + Copy, C: Compiled<A>>(
    session: &mut OpenSession<A>,
    source: &mut S,
    sink: &mut W,
    engine: &mut C,
    line: ReadLine<'_>,
) -> Result<Outcome, SessionFault>
    requires fits { Fits (S.account source.old).count session.old.input }
    requires last { line.end ≡ LastByte →
        IsTrue (has_ended (S.account source.old)) × (session.old.input.bytes ≡ []) }
    ensures { Comes (λ outcome. IsOutcome outcome (1 + line.entry.line_feeds) line.entry.end line.entry.bytes.now)
        (λ fault. IsLineCut fault (1 + line.entry.line_feeds) line.entry.end line.entry.bytes.now)
        (point (S.account source.old) session.old.input (C.store engine.old) session.old.batch
        (W.taken sink.old) (W.failures sink.old))
        (point (S.account source.new) session.new.input (C.store engine.new) session.new.batch
        (W.taken sink.new) (W.failures sink.new)) result }
{
    if line.end.is_too_long() {
        return Ok(Outcome::NoCommand);
    }
    let Some(asked) = script_line(line.bytes) else {
        return Ok(Outcome::NoCommand);
    };
    match asked {
        ScriptLine::Whole(command) => told(answer_command(
            sink,
            engine,
            &mut session.batch,
            line.line_feeds,
            command,
        )),
        ScriptLine::Install(install) => {
            if line.end.is_last() {
                return Ok(Outcome::NoCommand);
            }
            flush_unless(sink, session.input.holds_text(install.len as usize))?;
            answer_install(session, source, sink, engine, install)
        }
    }
}

/// The turn by what came of its line.
fn turn_of(last: bool, answered: Result<Outcome, SessionFault>) -> Result<Turn, SessionFault>
    ensures { result ≡ turn_of last answered }
{
    let refused = match answered? {
        Outcome::Accepted => false,
        Outcome::Refused => true,
        Outcome::NoCommand => return Ok(Turn::NoCommand),
    };
    Ok(Turn::Answered { refused, last })
}

/// Reads a line of a script and answers the command there.
fn answer_next<S: Source, W: Sink, A: Allocator + Copy, C: Compiled<A>>(
    session: &mut OpenSession<A>,
    source: &mut S,
    sink: &mut W,
    engine: &mut C,
    line: &mut Line,
) -> Result<Turn, SessionFault>
    requires { Fits (S.account source.old).count session.old.input }
    ensures { Comes IsTurn IsTurnCut
        (point (S.account source.old) session.old.input (C.store engine.old) session.old.batch
        (W.taken sink.old) (W.failures sink.old))
        (point (S.account source.new) session.new.input (C.store engine.new) session.new.batch
        (W.taken sink.new) (W.failures sink.new)) result }
{
    flush_unless(sink, session.input.holds_line())?;
    let line_feeds = session.input.line_feeds();
    let end = session.input.read_line(source, line)?;
    let bytes = line.as_slice();
    let last = end.is_last();
    if last && bytes.is_empty() {
        return Ok(Turn::End);
    }
    let read = ReadLine {
        bytes,
        end,
        line_feeds,
    };
    turn_of(last, answer_line(session, source, sink, engine, read))
}

/// Ends a session behind its last command: a script with a batch that is still open ends at the line of its begin.
fn end_session<W: Sink, A: Allocator + Copy>(
    sink: &mut W,
    batch: &Batch<A>,
    last: Last,
) -> Result<Status, SinkFault>
    ensures ok { IfOk result (λ status. EndsSo batch.now last status (W.taken sink.old) (W.taken sink.new)) }
    ensures err { OnErr result (GainsFront (W.taken sink.old) (W.taken sink.new)
        (last_line (last_end (end_of last) batch.now))) }
    ensures failed { OnErr result (HasFailed (W.failures sink.old) (W.failures sink.new)) }
    ensures counted { W.failures sink.old ≤ W.failures sink.new }
{
    match last {
        Last::AtLine(before) => reply::write_script_line(sink, before)?,
        Last::AtEnd(status) => {
            let Some(line_feeds) = batch.begin() else {
                return Ok(status);
            };
            reply::write_script_line(sink, line_feeds)?;
        }
    }
    Ok(Status::Script)
}

/// Answers the commands of a script, up to its end or to a line that is no command.
fn answer_commands<S: Source, W: Sink, A: Allocator + Copy, C: Compiled<A>>(
    session: &mut OpenSession<A>,
    source: &mut S,
    sink: &mut W,
    engine: &mut C,
) -> Result<Last, SessionFault>
    requires input { session.old.input ≡ record { bytes = []; line_feeds = 0 } }
    requires batch { session.old.batch ≡ None }
    ensures { Comes IsLast IsSessionCut
        (point (S.account source.old) (record { bytes = []; line_feeds = 0 }) (C.store engine.old) None
        (W.taken sink.old) (W.failures sink.old))
        (point (S.account source.new) session.new.input (C.store engine.new) session.new.batch
        (W.taken sink.new) (W.failures sink.new)) result }
{
    let mut line = Line::new();
    let mut status = Status::Clean;
    'turns: loop {
        let before = session.input.line_feeds();
        match answer_next(session, source, sink, engine, &mut line)? {
            Turn::End => return Ok(Last::AtEnd(status)),
            Turn::Answered { refused, last } => {
                status = status.after(refused);
                if last {
                    return Ok(Last::AtEnd(status));
                }
            }
            Turn::NoCommand => return Ok(Last::AtLine(before)),
        }
    }
}

/// Answers a script from its source to a sink, with an engine. As tests show, each answer is flushed before the source is asked
/// for more than it gave, and nothing is read behind a line that is no command. Of a batch that is open at the end nothing is done;
/// where the source told its end, the line of its begin is told as one that is no command.
///
/// # Errors
///
/// `Read` or `Write` where the source or the sink failed. The engine keeps what it accepted: `Read` leaves the store behind all
/// commands that were given, and `Write` that behind a front of them.
pub fn session<S: Source, W: Sink, A: Allocator + Copy, C: Compiled<A>>(
    alloc: A,
    source: &mut S,
    sink: &mut W,
    engine: &mut C,
) -> Result<Status, SessionFault>
    ensures ok { IfOk result (λ status. Leaves (S.account source.old) (S.account source.new)
        (standing (C.store engine.old) (W.taken sink.old))
        (standing (C.store engine.new) (W.taken sink.new)) status) }
    ensures ended { IfOk result (λ status. status ≢ Script → HasEnded (S.account source.old) (S.account source.new)) }
    ensures cut_by_read { IsErrOf result SessionFault.Read →
        LeavesByRead (S.account source.old) (S.account source.new)
        (standing (C.store engine.old) (W.taken sink.old))
        (standing (C.store engine.new) (W.taken sink.new)) }
    ensures cut_by_write { IsErrOf result SessionFault.Write →
        LeavesByWrite (S.account source.old) (S.account source.new)
        (standing (C.store engine.old) (W.taken sink.old))
        (standing (C.store engine.new) (W.taken sink.new)) }
    ensures read { IsErrOf result SessionFault.Read →
        HasFailed (S.account source.old).failures (S.account source.new).failures }
    ensures write { IsErrOf result SessionFault.Write →
        HasFailed (W.failures sink.old) (W.failures sink.new) }
    ensures flushed { OnOk result (W.flushed sink.new ≡ W.taken sink.new) }
{
    let mut session = OpenSession {
        input: Input::new(),
        batch: Batch::new(alloc),
    };
    let last = answer_commands(&mut session, source, sink, engine)?;
    let status = end_session(sink, &session.batch, last)?;
    sink.flush()?;
    Ok(status)
}
