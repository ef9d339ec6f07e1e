//! The lines that answer a script (a form of this project's own).

ghost use Rattle.std.specs.Prelude.{◌+◌, ◌++◌, flat_map, length};
ghost use Rattle.cil_session.specs.Common.{by_store, at_place, for_memory, refusal_line, reply_text, end_line, last_line, stops, dump_edits, dump_commands, dump_text, dropped_optionals, refusal_of, entry_of, Writes, counts_line};
ghost use Rattle.cil_specs.specs.Report.{dropped_line};
ghost use Rattle.cil_text.specs.Image.{place_of};
ghost use Rattle.cil_resolve.specs.Views.{declared_seen};
ghost use Rattle.cil_store_specs.specs.StoreReport.{entry_text, modules_text};
ghost use Rattle.cil_session.specs.Dump.{edit_command, install_command, disable_command};

use cil_resolve::NameView;
use cil_store::{ChangeCounts, Dropped, Entry, Refusal, Store};
use cil_stream::{Sink, SinkFault, write_all, write_pieces};
use cil_text::Place;
use itoa::Buffer;
use std::alloc::Allocator;

/// Writes how many accesses came and went with an accepted batch.
pub fn write_changes<W: Sink>(sink: &mut W, counts: ChangeCounts) -> Result<(), SinkFault>
    ensures { Writes W.taken W.failures sink.old sink.new (counts_line counts) result }
{
    let mut added = Buffer::new();
    let mut removed = Buffer::new();
    write_pieces(
        sink,
        &[
            b"ok ",
            added.format(counts.added).as_bytes(),
            b" ",
            removed.format(counts.removed).as_bytes(),
            b"\n",
        ],
    )
}

/// Writes the last line of a listing of so many rows.
pub fn write_end<W: Sink>(sink: &mut W, rows: u128) -> Result<(), SinkFault>
    ensures { Writes W.taken W.failures sink.old sink.new (end_line rows) result }
{
    let mut digits = Buffer::new();
    write_pieces(sink, &[b"end ", digits.format(rows).as_bytes(), b"\n"])
}

/// Writes the line of an optional that drops.
fn write_optional<W: Sink>(sink: &mut W, optional: NameView<'_>) -> Result<(), SinkFault>
    ensures { Writes W.taken W.failures sink.old sink.new
        (dropped_line (declared_seen optional.entry)) result }
{
    let mut line_digits = Buffer::new();
    let mut column_digits = Buffer::new();
    write_pieces(
        sink,
        &[
            optional.module,
            b":",
            line_digits.format(optional.at.line).as_bytes(),
            b":",
            column_digits.format(optional.at.column).as_bytes(),
            b" ",
            optional.name,
            b"\n",
        ],
    )
}

/// Writes the lines of the optionals that drop.
fn write_optionals<W: Sink, A: Allocator>(
    sink: &mut W,
    dropped: &Dropped<A>,
) -> Result<(), SinkFault>
    ensures { Writes W.taken W.failures sink.old sink.new
        (flat_map dropped_line dropped.now) result }
{
    for i in 0..dropped.len() {
        if let Some(optional) = dropped.get(i) {
            write_optional(sink, optional)?;
        }
    }
    Ok(())
}

/// Writes which optionals drop.
pub fn write_dropped<W: Sink, A: Allocator>(
    sink: &mut W,
    dropped: &Dropped<A>,
) -> Result<(), SinkFault>
    ensures { Writes W.taken W.failures sink.old sink.new
        (reply_text (dropped_optionals dropped.now)) result }
{
    write_optionals(sink, dropped)?;
    write_end(sink, dropped.len() as u128)
}

/// Writes the line of an entry of a store, with the word of its state.
fn write_module<W: Sink>(sink: &mut W, entry: Entry<'_>, state: &[u8]) -> Result<(), SinkFault>
    ensures { Writes W.taken W.failures sink.old sink.new
        (entry_text (entry_of entry.entry) state.now) result }
{
    let mut priority_digits = Buffer::new();
    let mut length_digits = Buffer::new();
    write_pieces(
        sink,
        &[
            entry.name,
            b" ",
            priority_digits.format(entry.priority).as_bytes(),
            b" ",
            length_digits.format(entry.text.len()).as_bytes(),
            b" ",
            state,
            b"\n",
        ],
    )
}

/// Writes the lines of the entries of a store.
fn write_entries<W: Sink, A: Allocator>(sink: &mut W, store: &Store<A>) -> Result<(), SinkFault>
    ensures { Writes W.taken W.failures sink.old sink.new (modules_text store.now) result }
{
    for i in 0..store.len() {
        write_module(sink, store.at(i), store.state(i).as_bytes())?;
    }
    Ok(())
}

/// Writes the modules of a store (`semodule -lfull`, in a form of this project's own). It takes no memory.
pub fn write_modules<W: Sink, A: Allocator>(sink: &mut W, store: &Store<A>) -> Result<(), SinkFault>
    ensures { Writes W.taken W.failures sink.old sink.new
        (modules_text store.now ++ end_line (length store.now.entries)) result }
{
    write_entries(sink, store)?;
    write_end(sink, store.len() as u128)
}

/// Writes the command that installs an entry.
fn write_install<W: Sink>(sink: &mut W, entry: Entry<'_>) -> Result<(), SinkFault>
    ensures { Writes W.taken W.failures sink.old sink.new
        (install_command (entry_of entry.entry)) result }
{
    let mut priority_digits = Buffer::new();
    let mut length_digits = Buffer::new();
    write_pieces(
        sink,
        &[
            b"install ",
            entry.name,
            b" ",
            priority_digits.format(entry.priority).as_bytes(),
            b" ",
            length_digits.format(entry.text.len()).as_bytes(),
            b"\n",
            entry.text,
            b"\n",
        ],
    )
}

/// Writes the commands that install the entries of a store.
fn write_installs<W: Sink, A: Allocator>(sink: &mut W, store: &Store<A>) -> Result<(), SinkFault>
    ensures { Writes W.taken W.failures sink.old sink.new
        (flat_map install_command store.now.entries) result }
{
    for i in 0..store.len() {
        write_install(sink, store.at(i))?;
    }
    Ok(())
}

/// Writes the command that disables a name.
fn write_disable<W: Sink>(sink: &mut W, name: &[u8]) -> Result<(), SinkFault>
    ensures { Writes W.taken W.failures sink.old sink.new (disable_command name.now) result }
{
    write_pieces(sink, &[b"disable ", name, b"\n"])
}

/// Writes the commands that disable the disabled names of a store.
fn write_disables<W: Sink, A: Allocator>(sink: &mut W, store: &Store<A>) -> Result<(), SinkFault>
    ensures { Writes W.taken W.failures sink.old sink.new
        (flat_map disable_command store.now.disabled) result }
{
    for i in 0..store.disabled_len() {
        if let Some(name) = store.disabled(i) {
            write_disable(sink, name)?;
        }
    }
    Ok(())
}

/// Writes the edits that build a store.
fn write_edits<W: Sink, A: Allocator>(sink: &mut W, store: &Store<A>) -> Result<(), SinkFault>
    ensures { Writes W.taken W.failures sink.old sink.new
        (flat_map edit_command (dump_edits store.now)) result }
{
    write_installs(sink, store)?;
    write_disables(sink, store)
}

/// Writes a script that builds a store, which is one batch.
fn write_batch<W: Sink, A: Allocator>(sink: &mut W, store: &Store<A>) -> Result<(), SinkFault>
    ensures { Writes W.taken W.failures sink.old sink.new (dump_text store.now) result }
{
    write_all(sink, b"begin\n")?;
    write_edits(sink, store)?;
    write_all(sink, b"commit\n")
}

/// Writes a script that builds a store, and the number of its commands. It takes no memory.
pub fn write_dump<W: Sink, A: Allocator>(sink: &mut W, store: &Store<A>) -> Result<(), SinkFault>
    ensures { Writes W.taken W.failures sink.old sink.new
        (dump_text store.now ++ end_line (length (dump_commands store.now))) result }
{
    write_batch(sink, store)?;
    write_end(sink, store.len() as u128 + store.disabled_len() as u128 + 2)
}

/// Writes that a script stops at the line behind so many line feeds.
pub fn write_script_line<W: Sink>(sink: &mut W, line_feeds: u64) -> Result<(), SinkFault>
    ensures { Writes W.taken W.failures sink.old sink.new
        (last_line (stops (1 + line_feeds))) result }
{
    let mut digits = Buffer::new();
    let line = 1 + u128::from(line_feeds);
    write_pieces(sink, &[b"script ", digits.format(line).as_bytes(), b"\n"])
}

/// Writes a refusal at a place of a module.
pub fn write_place<W: Sink>(
    sink: &mut W,
    code: u8,
    module: &[u8],
    at: Place,
    word: &[u8],
) -> Result<(), SinkFault>
    ensures { Writes W.taken W.failures sink.old sink.new
        (refusal_line (at_place code «module».now (place_of at) word.now)) result }
{
    let mut code_digits = Buffer::new();
    let mut line_digits = Buffer::new();
    let mut column_digits = Buffer::new();
    write_pieces(
        sink,
        &[
            b"refused ",
            code_digits.format(code).as_bytes(),
            b" ",
            module,
            b":",
            line_digits.format(at.line).as_bytes(),
            b":",
            column_digits.format(at.column).as_bytes(),
            b" ",
            word,
            b"\n",
        ],
    )
}

/// Writes a refusal of the store.
pub fn write_store_refusal<W: Sink>(sink: &mut W, code: u8, word: &[u8]) -> Result<(), SinkFault>
    ensures { Writes W.taken W.failures sink.old sink.new
        (refusal_line (by_store code word.now)) result }
{
    let mut digits = Buffer::new();
    write_pieces(
        sink,
        &[
            b"refused ",
            digits.format(code).as_bytes(),
            b" ",
            word,
            b"\n",
        ],
    )
}

/// Writes that memory ran out.
pub fn write_no_memory<W: Sink>(sink: &mut W) -> Result<(), SinkFault>
    ensures { Writes W.taken W.failures sink.old sink.new (refusal_line for_memory) result }
{
    write_all(sink, b"refused 60 memory\n")
}

/// Writes a refusal.
pub fn write_refusal<W: Sink, A: Allocator>(
    sink: &mut W,
    refusal: &Refusal<A>,
) -> Result<(), SinkFault>
    ensures { Writes W.taken W.failures sink.old sink.new
        (refusal_line (refusal_of refusal.now)) result }
{
    match refusal {
        Refusal::Store { fault, word } => {
            write_store_refusal(sink, fault.code(), word.as_slice())
        }
        Refusal::Fault {
            module,
            kind,
            at,
            word,
        } => write_place(sink, kind.code(), module.as_slice(), *at, word.as_slice()),
        Refusal::Memory => write_no_memory(sink),
    }
}
