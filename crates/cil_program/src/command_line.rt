//! The command line: what its words ask for, and the exit status.

ghost use Rattle.std.specs.Prelude.{◌≡◌, ◌≢◌, ◌⊎◌, ◌≤◌, codes, map, IfOk, OnErr, OnOk};
ghost use Rattle.cil_program.specs.Common.{kind_of, HasFailed, AsksSession, AnswersSession, OrLacksMemory, told_by, untold, AnswersCompile, AnswersProject, WhereAsked, WritesBoth, IsTold};

mod by_names;
pub mod compile;
pub mod conditionals;
mod faults;
pub mod files;
mod folders;
pub mod foreign;
mod found;
mod kinds;
mod meanings;
mod notes;
pub mod packed;
pub mod reason;
mod same_names;
mod subcommands;
pub mod targets;
pub mod wanted;
mod words;

use crate::command_line::meanings::write_no_memory;
use crate::command_line::subcommands::{answer_compile, answer_project};
use crate::command_line::words::{COMPILE, PROJECT, matches_of};
pub use cil_session::outcome::exit_status;
use cil_session::session::session;
use cil_store::{Delta, Seed};
use cil_stream::{Sink, SinkFault, Source, write_all};
use clap::Error;
use clap::error::ErrorKind;
use std::alloc::{Allocator, Global};
use std::convert::AsStr;
use std::random::RandomSource;
use std::rt::Files;

/// Answers the script of a source, with an empty store at its start, and gives the exit status. The tables of names are hashed by a
/// seed.
pub fn answer_session<S: Source, W: Sink, A: Allocator + Copy>(
    alloc: A,
    seed: Seed,
    source: &mut S,
    out: &mut W,
) -> u8
    ensures { AnswersSession (S.account source.old) (S.account source.new)
        (told_by W.taken W.flushed W.failures out.old)
        (told_by W.taken W.flushed W.failures out.new) result }
{
    let mut engine = Delta::with_seed(alloc, seed);
    exit_status(session(alloc, source, out, &mut engine))
}

/// Writes what `clap` answers in place of matches, and gives the exit status: help and the version that were asked for go to
/// `out`, and why the words are refused goes to `err`.
fn tell<W: Sink, E: Sink>(
    alloc: Global,
    error: &Error,
    out: &mut W,
    err: &mut E,
) -> Result<u8, SinkFault>
    ensures { WritesBoth W.taken W.failures out.old out.new E.taken E.failures err.old err.new
        (IsTold (kind_of error.now)) result }
{
    if matches!(error.kind(), ErrorKind::OutOfMemory) {
        return write_no_memory(err, false).and(Ok(1));
    }
    let Ok(text) = error.to_string(alloc) else {
        return write_no_memory(err, false).and(Ok(1));
    };
    if error.use_stderr() {
        return write_all(err, text.as_bytes()).and(Ok(2));
    }
    write_all(out, text.as_bytes()).and(Ok(0))
}

fn flush_both<W: Sink, E: Sink>(out: &mut W, err: &mut E) -> Result<(), SinkFault>
    ensures same_out { W.taken out.new ≡ W.taken out.old }
    ensures same_err { E.taken err.new ≡ E.taken err.old }
    ensures ok { OnOk result ((W.flushed out.new ≡ W.taken out.new) × (E.flushed err.new ≡ E.taken err.new)) }
    ensures failed { OnErr result (HasFailed (W.failures out.old) (W.failures out.new)
        ⊎ HasFailed (E.failures err.old) (E.failures err.new)) }
    ensures out_counted { W.failures out.old ≤ W.failures out.new }
    ensures err_counted { E.failures err.old ≤ E.failures err.new }
{
    let out_flushed = out.flush();
    err.flush()?;
    out_flushed
}

/// Flushes what was written in an answer, and gives the exit status, which is 3 where a write failed.
fn finish<W: Sink, E: Sink>(answered: Result<u8, SinkFault>, out: &mut W, err: &mut E) -> u8
    ensures same_out { W.taken out.new ≡ W.taken out.old }
    ensures same_err { E.taken err.new ≡ E.taken err.old }
    ensures ok { IfOk answered (λ status. (result ≡ status)
        ⊎ ((result ≡ 3) × (HasFailed (W.failures out.old) (W.failures out.new)
        ⊎ HasFailed (E.failures err.old) (E.failures err.new)))) }
    ensures err { OnErr answered (result ≡ 3) }
    ensures flushed { result ≢ 3 → (W.flushed out.new ≡ W.taken out.new) × (E.flushed err.new ≡ E.taken err.new) }
    ensures out_counted { W.failures out.old ≤ W.failures out.new }
    ensures err_counted { E.failures err.old ≤ E.failures err.new }
{
    let flushed = flush_both(out, err);
    match answered {
        Ok(status) if flushed.is_ok() => status,
        _ => 3,
    }
}

/// Does what the words of a command line ask for, of which the first is the program's name, and gives the exit status. The tables of
/// names are hashed by a seed that is drawn from the runtime, or by the fixed one where it gives none.
pub fn command<R: Files + RandomSource, T: AsStr, S: Source, W: Sink, E: Sink>(
    rt: &R,
    alloc: Global,
    words: &[T],
    source: &mut S,
    out: &mut W,
    err: &mut E,
) -> u8
    ensures status { result ≤ 3 }
    ensures session { AsksSession (map T.text words.now) →
        OrLacksMemory W.taken W.flushed W.failures out.old out.new
        E.taken E.flushed E.failures err.old err.new
        (λ before after _ _ status. AnswersSession (S.account source.old) (S.account source.new)
        before after status × (err.new ≡ err.old)) result }
    ensures compile { WhereAsked (map T.text words.now) (codes "compile") (λ rows.
        OrLacksMemory W.taken W.flushed W.failures out.old out.new
        E.taken E.flushed E.failures err.old err.new (AnswersCompile (λ _. untold) rows) result) }
    ensures project { WhereAsked (map T.text words.now) (codes "project") (λ rows.
        OrLacksMemory W.taken W.flushed W.failures out.old out.new
        E.taken E.flushed E.failures err.old err.new (AnswersProject (λ _. untold) rows) result) }
    ensures flushed { result ≢ 3 → W.flushed out.new ≡ W.taken out.new }
    ensures either { (err.new ≡ err.old) ⊎ (source.new ≡ source.old) }
{
    let seed = Seed::random(rt).unwrap_or(Seed::fixed());
    let matches = match matches_of(alloc, words) {
        Ok(matches) => matches,
        Err(error) => {
            let told = tell(alloc, &error, out, err);
            return finish(told, out, err);
        }
    };
    if let Some(asked) = matches.subcommand_matches(PROJECT) {
        let printed = answer_project(rt, alloc, seed, asked, out, err);
        return finish(printed, out, err);
    }
    let Some(asked) = matches.subcommand_matches(COMPILE) else {
        return answer_session(alloc, seed, source, out);
    };
    let answered = answer_compile(rt, alloc, seed, asked, out, err);
    finish(answered, out, err)
}
