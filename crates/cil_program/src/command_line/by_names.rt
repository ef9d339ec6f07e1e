//! What is done with files whose statements outside the language are taken by their names alone.

ghost use Rattle.std.specs.Prelude.{◌≡◌, ◌≤◌, ℕ, List, [], All, map, IfNone, IfOk, IfSome, OnErr};
ghost use Rattle.cil_projection.specs.Statements.{Counts};
ghost use Rattle.cil_program.specs.ByNames.{AreEntriesFor, AreProjected, note_line};
ghost use Rattle.cil_program.specs.declared.command_line.wanted.Wanted.TheVariants.{Compiled};
ghost use Rattle.cil_program.specs.Common.{Content, Gains, GainsFront, HasFailed, IsReadOf, owned_entry, AnswersByNames, AnswersFor, AnswersGiven, IsStored, Tells, WritesBoth, compiled, conditionals_in, in_folder, wanted_in};

use crate::command_line::compile::{Asked, Report, compile_entries};
use crate::command_line::conditionals::Conditionals;
use crate::command_line::faults::explain;
use crate::command_line::files::{ReadFault, ReadFile, TextFiles, entries_of, read_files};
use crate::command_line::folders::{paths_for, texts_of};
use crate::command_line::foreign::{Projected, project_files};
use crate::command_line::kinds::write_kinds;
use crate::command_line::meanings::write_no_memory;
use crate::command_line::notes::{write_not_projected, write_note, write_texts};
use crate::command_line::same_names::{same_named, write_same_names};
use crate::command_line::targets::{Unwritable, targets_of, write_targets};
use crate::command_line::wanted::Wanted;
use cil_store::{OwnedEntry, Seed};
use cil_stream::{Sink, SinkFault};
use std::alloc::Global;

/// The entries of the projections of files, once the note is written; none where a refusal is written in place of it.
fn noted_entries<'p, E: Sink>(
    alloc: Global,
    request: Request<'_, '_>,
    files: &[ReadFile<'p, Global>],
    err: &mut E,
) -> Result<Option<Vec<OwnedEntry<'p, Global>>>, SinkFault>
    ensures some { IfOk result (λ found. IfSome found (λ entries.
        (projected : List (List ℕ)) × (counts : Counts)
        × AreProjected (conditionals_in request.entry.conditionals.now)
        (map (λ f. f.text.items) files.now) projected counts
        × AreEntriesFor (map (λ f. f.path.now) files.now) projected (map owned_entry entries.items)
        × Gains (E.taken err.old) (E.taken err.new) (note_line counts))) }
    ensures none { IfOk result (λ found. IfNone found ((content : List ℕ → Content) (report : Report)
        → All (λ f. IsReadOf (content f.path.now) f.text.items) files.now
        → (told : List ℕ) × Gains (E.taken err.old) (E.taken err.new) told
        × AnswersByNames content (map (λ f. f.path.now) files.now)
        (conditionals_in request.entry.conditionals.now) (compiled report) [] told 1)) }
    ensures cut { OnErr result ((content : List ℕ → Content) (report : Report)
        → All (λ f. IsReadOf (content f.path.now) f.text.items) files.now
        → (told : List ℕ) × (status : ℕ) × GainsFront (E.taken err.old) (E.taken err.new) told
        × AnswersByNames content (map (λ f. f.path.now) files.now)
        (conditionals_in request.entry.conditionals.now) (compiled report) [] told status) }
    ensures failed { OnErr result (HasFailed (E.failures err.old) (E.failures err.new)) }
    ensures counted { E.failures err.old ≤ E.failures err.new }
{
    let projected = match project_files(alloc, request.seed, request.conditionals, files) {
        Ok(projected) => projected,
        Err(why) => return write_not_projected(err, why).and(Ok(None)),
    };
    let Ok(entries) = entries_of(alloc, projected.files) else {
        return write_no_memory(err, true).and(Ok(None));
    };
    write_note(err, &projected.tally)?;
    Ok(Some(entries))
}

/// Compiles the projections of files and writes the note and the report, and gives the exit status. Refusals are explained. The texts
/// that were read are given up before the projections are compiled.
fn compile_by_names<F: TextFiles, W: Sink, E: Sink>(
    from: &F,
    alloc: Global,
    request: Request<'_, '_>,
    files: Vec<ReadFile<'_, Global>>,
    report: Report,
    out: &mut W,
    err: &mut E,
) -> Result<u8, SinkFault>
    requires { All (λ f. IsReadOf (F.content from.now f.path.now) f.text.items) files.items }
    ensures { WritesBoth W.taken W.failures out.old out.new E.taken E.failures err.old err.new
        (AnswersByNames (F.content from.now) (map (λ f. f.path.now) files.entry.items)
        (conditionals_in request.entry.conditionals.now) (compiled report)) result }
{
    let Some(entries) = noted_entries(alloc, request, files.as_slice(), err)? else {
        return Ok(1);
    };
    drop(files);
    let asked = Asked {
        report,
        explained: true,
        seed: request.seed,
    };
    compile_entries(alloc, entries, asked, out, err)
}

/// Writes the note, and the projections of files to files in a folder, and gives the exit status.
fn store_projected<F: TextFiles, E: Sink>(
    to: &F,
    alloc: Global,
    folder: &str,
    projected: &Projected<'_, '_>,
    err: &mut E,
) -> Result<u8, SinkFault>
    ensures told { Tells E.taken E.failures err.old err.new
        (AnswersFor projected.now (in_folder folder.now) []) result }
    ensures stored { IfOk result (λ status. status ≡ 0 → All
        (λ file. IsStored (F.written to.now) folder.now file.path.now file.text.items)
        projected.now.files.items) }
{
    let Ok(targets) = targets_of(alloc, folder, projected.files.as_slice()) else {
        return write_no_memory(err, true).and(Ok(1));
    };
    write_note(err, &projected.tally)?;
    match write_targets(to, targets.as_slice()) {
        Ok(()) => Ok(0),
        Err(Unwritable { path, reason }) => {
            explain(err, b"unwritable ", path, reason).and(Ok(3))
        }
    }
}

/// What is asked of files whose statements outside the language are taken by their names alone.
#[derive(Clone, Copy)]
pub struct Request<'r, 'w> {
    pub paths: &'r [&'r str],
    pub conditionals: &'r Conditionals<'r>,
    pub wanted: Wanted<'w>,
    pub seed: Seed,
}

/// Answers what is wanted of projected files, and gives the exit status.
fn answer_projected<F: TextFiles, W: Sink, E: Sink>(
    to: &F,
    alloc: Global,
    request: Request<'_, '_>,
    projected: &Projected<'_, '_>,
    out: &mut W,
    err: &mut E,
) -> Result<u8, SinkFault>
    requires { (report : Report) → request.wanted ≡ Compiled report → ⊥ }
    ensures { WritesBoth W.taken W.failures out.old out.new E.taken E.failures err.old err.new
        (AnswersFor projected.now (wanted_in request.entry.wanted)) result }
{
    match request.wanted {
        Wanted::Compiled(_) => unreachable!("files that are compiled are answered by themselves"),
        Wanted::Projections => {
            write_note(err, &projected.tally)?;
            write_texts(out, projected.files.as_slice()).and(Ok(0))
        }
        Wanted::Kinds => {
            write_note(err, &projected.tally)?;
            write_kinds(out, &projected.tally).and(Ok(0))
        }
        Wanted::InFolder(folder) => store_projected(to, alloc, folder, projected, err),
    }
}

/// Reads files, takes their statements outside the language by their names alone, answers what is wanted of them, and gives the exit
/// status.
fn answer_by_names<F: TextFiles, W: Sink, E: Sink>(
    from: &F,
    alloc: Global,
    request: Request<'_, '_>,
    out: &mut W,
    err: &mut E,
) -> Result<u8, SinkFault>
    ensures { WritesBoth W.taken W.failures out.old out.new E.taken E.failures err.old err.new
        (AnswersByNames (F.content from.now) (map (λ path. path.now) request.entry.paths.now)
        (conditionals_in request.entry.conditionals.now) (wanted_in request.entry.wanted)) result }
{
    let files = match read_files(from, alloc, request.paths) {
        Ok(files) => files,
        Err(ReadFault::Memory) => return write_no_memory(err, true).and(Ok(1)),
        Err(ReadFault::Unreadable { path, reason }) => {
            return explain(err, b"unreadable ", path, reason).and(Ok(3));
        }
    };
    if let Wanted::Compiled(report) = request.wanted {
        return compile_by_names(from, alloc, request, files, report, out, err);
    }
    let projected = project_files(alloc, request.seed, request.conditionals, files.as_slice());
    match projected {
        Ok(projected) => answer_projected(from, alloc, request, &projected, out, err),
        Err(why) => write_not_projected(err, why).and(Ok(1)),
    }
}

/// Takes the files that given paths stand for, writes which of them have the module names of earlier ones, answers what is wanted of
/// them, and gives the exit status.
pub fn answer_given<F: TextFiles, W: Sink, E: Sink>(
    from: &F,
    alloc: Global,
    given: Request<'_, '_>,
    out: &mut W,
    err: &mut E,
) -> Result<u8, SinkFault>
    ensures { WritesBoth W.taken W.failures out.old out.new E.taken E.failures err.old err.new
        (AnswersGiven (F.content from.now) (map (λ path. path.now) given.entry.paths.now)
        (conditionals_in given.entry.conditionals.now) (wanted_in given.entry.wanted)) result }
{
    let Ok(files) = paths_for(from, alloc, given.paths) else {
        return write_no_memory(err, true).and(Ok(1));
    };
    let Ok(paths) = texts_of(alloc, files.as_slice()) else {
        return write_no_memory(err, true).and(Ok(1));
    };
    let Ok(same) = same_named(alloc, given.seed, paths.as_slice()) else {
        return write_no_memory(err, true).and(Ok(1));
    };
    write_same_names(err, same.as_slice())?;
    let request = Request {
        paths: paths.as_slice(),
        ..given
    };
    answer_by_names(from, alloc, request, out, err)
}
