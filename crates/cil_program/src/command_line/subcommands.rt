//! What is done where files are to be compiled or projected.

ghost use Rattle.std.specs.Prelude.{map};
ghost use Rattle.cil_program.specs.Common.{found_of, rows_of, CompilesFiles, WritesBoth, IsToBePrinted, IsToBeWritten};

use crate::command_line::by_names::{Request, answer_given};
use crate::command_line::compile::{Asked, compile_entries};
use crate::command_line::conditionals::{Foreign, Misuse};
use crate::command_line::faults::{write_misuse, write_unreadable};
use crate::command_line::files::{ReadFault, TextFiles, entries_of, read_files};
use crate::command_line::found::{
    conditionals_of, files_or_none, foreign_of, report_of, wanted_of,
};
use crate::command_line::meanings::write_no_memory;
use crate::command_line::wanted::Wanted;
use crate::command_line::words::FILES;
use cil_store::Seed;
use cil_stream::{Sink, SinkFault};
use clap::ArgMatches;
use std::alloc::Global;

/// Compiles files and writes the report, and gives the exit status. All are read first. No refusal is explained.
fn compile_files<'a, F: TextFiles, W: Sink, E: Sink>(
    from: &F,
    alloc: Global,
    paths: &[&'a str],
    asked: Asked,
    out: &mut W,
    err: &mut E,
) -> Result<u8, SinkFault>
    ensures { WritesBoth W.taken W.failures out.old out.new E.taken E.failures err.old err.new
        (CompilesFiles (F.content from.now) (map (λ path. path.now) paths.now) asked.report) result }
{
    let files = match read_files(from, alloc, paths) {
        Ok(files) => files,
        Err(ReadFault::Memory) => return write_no_memory(err, false).and(Ok(1)),
        Err(ReadFault::Unreadable { path, .. }) => return write_unreadable(err, path).and(Ok(3)),
    };
    let Ok(entries) = entries_of(alloc, files) else {
        return write_no_memory(err, false).and(Ok(1));
    };
    let asked = Asked {
        explained: false,
        ..asked
    };
    compile_entries(alloc, entries, asked, out, err)
}

/// Does what is asked of `compile`, and gives the exit status.
pub fn answer_compile<F: TextFiles, W: Sink, E: Sink>(
    from: &F,
    alloc: Global,
    seed: Seed,
    words: &ArgMatches<'_>,
    out: &mut W,
    err: &mut E,
) -> Result<u8, SinkFault>
    ensures { WritesBoth W.taken W.failures out.old out.new E.taken E.failures err.old err.new
        (IsToBeWritten (F.content from.now) (rows_of (found_of words.now))) result }
{
    let report = report_of(words);
    let paths = files_or_none(words.get_strs(FILES));
    match foreign_of(alloc, words) {
        Ok(Foreign::Refused) => {
            let asked = Asked {
                report,
                explained: false,
                seed,
            };
            compile_files(from, alloc, paths, asked, out, err)
        }
        Ok(Foreign::ByNames(conditionals)) => {
            let request = Request {
                paths,
                conditionals: &conditionals,
                wanted: Wanted::Compiled(report),
                seed,
            };
            answer_given(from, alloc, request, out, err)
        }
        Ok(Foreign::Misused(misuse)) => write_misuse(err, misuse).and(Ok(2)),
        Err(_) => write_no_memory(err, true).and(Ok(1)),
    }
}

/// Does what is asked of `project`, and gives the exit status.
pub fn answer_project<F: TextFiles, W: Sink, E: Sink>(
    from: &F,
    alloc: Global,
    seed: Seed,
    words: &ArgMatches<'_>,
    out: &mut W,
    err: &mut E,
) -> Result<u8, SinkFault>
    ensures { WritesBoth W.taken W.failures out.old out.new E.taken E.failures err.old err.new
        (IsToBePrinted (F.content from.now) (rows_of (found_of words.now))) result }
{
    let Some(wanted) = wanted_of(words) else {
        return write_misuse(err, Misuse::ListAndOutput).and(Ok(2));
    };
    match conditionals_of(alloc, words) {
        Ok(Some(conditionals)) => {
            let request = Request {
                paths: files_or_none(words.get_strs(FILES)),
                conditionals: &conditionals,
                wanted,
                seed,
            };
            answer_given(from, alloc, request, out, err)
        }
        Ok(None) => write_misuse(err, Misuse::OtherBooleans).and(Ok(2)),
        Err(_) => write_no_memory(err, true).and(Ok(1)),
    }
}
