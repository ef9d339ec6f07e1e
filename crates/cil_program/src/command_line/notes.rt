//! What is written of files whose statements outside the language are taken by their names alone.

ghost use Rattle.std.specs.Prelude.{◌≡◌, ◌<◌, ◌++◌, true, List, ℕ, flat_map};
ghost use Rattle.cil_specs.specs.Bytes.{hex, hex_digit};
ghost use Rattle.cil_store_specs.specs.Next.{Refusal};
ghost use Rattle.cil_program.specs.Common.{Writes, by_store, refusal_line};
ghost use Rattle.cil_program.specs.CommandLine.{NamesModule};
ghost use Rattle.cil_program.specs.Meanings.{refusal_text};
ghost use Rattle.cil_program.specs.Packed.{packed_text};
ghost use Rattle.cil_program.specs.ByNames.{IsRefusalBy, hint_by, note_line, refusal_for};
ghost use Rattle.cil_program.specs.declared.command_line.foreign.NotProjected.TheVariants.{AtFault};

use crate::command_line::files::{ReadFile, module_name};
use crate::command_line::foreign::NotProjected;
use crate::command_line::meanings::{write_meaning, write_no_memory};
use crate::command_line::packed::Packed;
use cil_projection::Tally;
use cil_session::reply;
use cil_store::StoreFault;
use cil_stream::{Sink, SinkFault, write_all, write_pieces};
use cil_text::{Place, ShownWord, TextFault, TextFaultKind};
use itoa::Buffer;
use std::alloc::Global;

/// A digit of base 16, in lower case.
fn hex_digit(n: u8) -> u8
    requires { n < 16 }
    ensures { result ≡ hex_digit n }
{
    if n < 10 { b'0' + n } else { b'a' - 10 + n }
}

/// A byte as two digits of base 16.
fn hex(b: u8) -> [u8; 2]
    ensures { result ≡ hex b }
{
    [hex_digit(b / 16), hex_digit(b % 16)]
}

/// A fault of the text of a module.
#[derive(Clone, Copy)]
struct ModuleFault<'m> {
    name: &'m [u8],
    kind: TextFaultKind,
    at: Place,
    word: ShownWord<'m>,
}

/// Writes the line of the refusal of a module for a fault of its text.
fn write_fault_line<E: Sink>(err: &mut E, fault: ModuleFault<'_>) -> Result<(), SinkFault>
    ensures { Writes E.taken E.failures err.old err.new
        (refusal_line (refusal_for fault.entry)) result }
{
    let ModuleFault {
        name,
        kind,
        at,
        word,
    } = fault;
    match word {
        ShownWord::Text(text) => reply::write_place(err, kind.code(), name, at, text),
        ShownWord::Byte(b) => reply::write_place(err, kind.code(), name, at, &hex(b)),
    }
}

/// Writes the refusal of a module for a fault of its text, and what it means.
fn write_fault<E: Sink>(err: &mut E, fault: ModuleFault<'_>) -> Result<(), SinkFault>
    ensures { Writes E.taken E.failures err.old err.new
        (refusal_text true (refusal_for fault.entry)) result }
{
    write_fault_line(err, fault)?;
    write_meaning(err, fault.kind.code())
}

/// Writes what converts a package, where a text looks like one.
fn write_packed<E: Sink>(err: &mut E, packed: Option<Packed>) -> Result<(), SinkFault>
    ensures { Writes E.taken E.failures err.old err.new (packed_text packed) result }
{
    if let Some(packed) = packed {
        write_all(err, packed.line())?;
    }
    Ok(())
}

/// Writes the refusal of a module for a fault of its text, what it means, and what converts a package, where the text looks like one.
fn write_found<E: Sink>(
    err: &mut E,
    fault: ModuleFault<'_>,
    packed: Option<Packed>,
) -> Result<(), SinkFault>
    ensures { Writes E.taken E.failures err.old err.new
        (refusal_text true (refusal_for fault.entry) ++ packed_text packed) result }
{
    write_fault(err, fault)?;
    write_packed(err, packed)
}

/// Writes the refusal of the module in the file at a path for a fault of its text, or since memory ran out for it, and what it means.
fn write_text_fault<E: Sink>(
    err: &mut E,
    path: &str,
    fault: TextFault<'_>,
    packed: Option<Packed>,
) -> Result<(), SinkFault>
    ensures { (refusal : Refusal) × IsRefusalBy (AtFault path.entry fault.entry packed) refusal
        × Writes E.taken E.failures err.old err.new
        (refusal_text true refusal ++ hint_by (AtFault path.entry fault.entry packed)) result }
{
    match fault {
        TextFault::Found { kind, at, word } => {
            let name = module_name(path);
            let fault = ModuleFault {
                name,
                kind,
                at,
                word,
            };
            write_found(err, fault, packed)
        }
        TextFault::Memory => write_no_memory(err, true),
    }
}

/// Writes that the text of the file at a path is too long, and what that means.
fn write_too_long<E: Sink>(err: &mut E, path: &str) -> Result<(), SinkFault>
    ensures { (name : List ℕ) × NamesModule path.now name
        × Writes E.taken E.failures err.old err.new (refusal_text true (by_store 34 name)) result }
{
    let code = StoreFault::TextTooLong.code();
    reply::write_store_refusal(err, code, module_name(path))?;
    write_meaning(err, code)
}

/// Writes why files were not projected, and what that means.
pub fn write_not_projected<E: Sink>(err: &mut E, why: NotProjected<'_>) -> Result<(), SinkFault>
    ensures { (refusal : Refusal) × IsRefusalBy why.entry refusal
        × Writes E.taken E.failures err.old err.new
        (refusal_text true refusal ++ hint_by why.entry) result }
{
    match why {
        NotProjected::AtFault {
            path,
            fault,
            packed,
        } => write_text_fault(err, path, fault, packed),
        NotProjected::TooLong { path } => write_too_long(err, path),
        NotProjected::Memory => write_no_memory(err, true),
    }
}

/// Writes how many statements of how many kinds are taken by their names.
pub fn write_note<E: Sink>(err: &mut E, tally: &Tally<'_>) -> Result<(), SinkFault>
    ensures { Writes E.taken E.failures err.old err.new (note_line tally.now) result }
{
    let mut statements = Buffer::new();
    let mut kinds = Buffer::new();
    write_pieces(
        err,
        &[
            b"note: ",
            statements.format(tally.statements()).as_bytes(),
            b" statements of ",
            kinds.format(tally.kinds()).as_bytes(),
            b" kinds taken by their names alone\n",
        ],
    )
}

/// Writes the texts of files one after the other.
pub fn write_texts<W: Sink>(out: &mut W, files: &[ReadFile<'_, Global>]) -> Result<(), SinkFault>
    ensures { Writes W.taken W.failures out.old out.new
        (flat_map (λ file. file.text.items) files.now) result }
{
    for file in files {
        write_all(out, file.text.as_slice())?;
    }
    Ok(())
}
