//! The calls and the entries that the commands of a script ask for.

use cil_session::command::{Command, InstallLine, Question, ScriptLine, script_line};
use cil_store::{Call, Edit, Entry};
use cil_trial_cases::{Fault, first_line, text_of};
use std::alloc::Global;

/// What a command asks for: a call, or the begin or the end of a batch.
#[derive(Clone, Copy)]
pub enum Step<'a> {
    Call(Call<'a>),
    Begin,
    Commit,
}

/// The call that asks a question. The questions of what stands in the store have none.
fn asked<'a>(question: Question) -> Result<Call<'a>, Fault> {
    match question {
        Question::Rules => Ok(Call::Listing),
        Question::Violations => Ok(Call::Violations),
        Question::Dropped => Ok(Call::Dropped),
        Question::Modules | Question::Dump => Err(Fault::Case),
    }
}

/// What a command asks for that is whole with its line.
fn whole_step<'a>(command: Command<'a>) -> Result<Step<'a>, Fault> {
    match command {
        Command::Edit(edit) => Ok(Step::Call(Call::Edit(edit))),
        Command::Begin => Ok(Step::Begin),
        Command::Commit => Ok(Step::Commit),
        Command::Abort => Err(Fault::Case),
        Command::Ask(question) => Ok(Step::Call(asked(question)?)),
    }
}

/// The edit that the line of an install asks for, and what follows its text.
fn install_of<'a>(line: InstallLine<'a>, rest: &'a [u8]) -> Result<(Edit<'a>, &'a [u8]), Fault> {
    let (text, after) = text_of(rest, line.len as usize)?;
    let edit = Edit::Install {
        name: line.name,
        priority: line.priority,
        text,
    };
    Ok((edit, after))
}

/// What a line asks for, and what follows it and its text.
pub fn step_of<'a>(line: &'a [u8], rest: &'a [u8]) -> Result<(Step<'a>, &'a [u8]), Fault> {
    if line == b"rows".as_slice() {
        return Ok((Step::Call(Call::Rows), rest));
    }
    match script_line(line).ok_or(Fault::Case)? {
        ScriptLine::Install(install) => {
            let (edit, after) = install_of(install, rest)?;
            Ok((Step::Call(Call::Edit(edit)), after))
        }
        ScriptLine::Whole(command) => Ok((whole_step(command)?, rest)),
    }
}

/// The call that a line asks for, and what follows it and its text. It is no case where the line is one of a batch.
fn call_of<'a>(line: &'a [u8], rest: &'a [u8]) -> Result<(Call<'a>, &'a [u8]), Fault> {
    match step_of(line, rest)? {
        (Step::Call(call), after) => Ok((call, after)),
        (Step::Begin | Step::Commit, _) => Err(Fault::Case),
    }
}

/// Appends the calls that the commands of a script ask for.
pub fn push_calls<'a>(calls: &mut Vec<Call<'a>>, script: &'a [u8]) -> Result<(), Fault> {
    let mut rest = script;
    for _ in 0..script.len() {
        if rest.is_empty() {
            break;
        }
        let (line, after) = first_line(rest);
        let (call, after) = call_of(line, after)?;
        calls.push(call)?;
        rest = after;
    }
    Ok(())
}

/// Appends the entries that the commands of a script install.
pub fn push_entries<'a>(
    alloc: Global,
    entries: &mut Vec<Entry<'a>>,
    script: &'a [u8],
) -> Result<(), Fault> {
    let mut calls = Vec::new(alloc);
    push_calls(&mut calls, script)?;
    for call in &calls {
        let Call::Edit(
            Edit::Install {
                name,
                priority,
                text,
            },
        ) = *call
        else {
            return Err(Fault::Case);
        };
        entries.push(Entry {
            name,
            priority,
            text,
        })?;
    }
    Ok(())
}
