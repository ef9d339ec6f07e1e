//! What the codes of refusals mean, in words.

ghost use Rattle.std.specs.Prelude.{◌≡◌};
ghost use Rattle.cil_program.specs.Common.{Writes, for_memory, refusal_of};
ghost use Rattle.cil_program.specs.Meanings.{code_of, first_meaning, meaning_line, meaning_of, refusal_text, rows_of};

use cil_session::reply;
use cil_store::Refusal;
use cil_stream::{Sink, SinkFault, write_pieces};
use std::alloc::Allocator;

/// A code, and what it means.
pub type Row = (u8, &'static [u8]);

/// The code of a refusal since memory ran out.
pub const MEMORY: u8 = 60;

/// What the codes mean, in their order, as docs/REFUSALS.md has it.
pub const MEANINGS: [Row; 28] = [
    // Of the text of a module.
    (10, b"this byte can't stand in CIL text"),
    (11, b"this parenthesis closes no list"),
    (12, b"this list isn't closed"),
    (13, b"this string isn't closed on its line"),
    (14, b"this list is nested deeper than 256"),
    (15, b"this word or string stands outside all lists"),
    // Of a statement.
    (
        20,
        b"cilsem doesn't take this statement, or not in this form",
    ),
    (21, b"this statement doesn't have the form of its kind"),
    (
        22,
        b"this isn't spelt as a name, or is longer than 2048 bytes",
    ),
    (23, b"this word is reserved and can't be a name"),
    (24, b"such a statement can't stand in an optional"),
    // Of the store.
    (
        30,
        b"a module's name has 1 to 255 letters, digits, _, - and dots, and begins with no - and no dot",
    ),
    (31, b"a priority is a number from 1 to 999"),
    (32, b"nothing is installed there"),
    (
        33,
        b"these are more than 4096 modules or 67108864 bytes of text",
    ),
    (34, b"the text is longer than 16777216 bytes"),
    // Of batches.
    (
        35,
        b"the batch has more than 8192 edits or 67108864 bytes of text",
    ),
    (36, b"a batch is open"),
    (37, b"no batch is open"),
    // Of the policy.
    (41, b"this name is declared twice"),
    (
        42,
        b"this name isn't found, or its class lacks this permission",
    ),
    (43, b"this name is of the wrong kind"),
    (44, b"this alias is given a type twice"),
    (45, b"this alias has no type"),
    (46, b"this class is given a second common"),
    (
        47,
        b"this class has more than 32 permissions, its common's included",
    ),
    (48, b"this attribute depends on itself"),
    (MEMORY, b"out of memory, or a count doesn't fit"),
];

/// What a code means by the first of some rows that has it; nothing where none has.
fn first_meaning(rows: &[Row], code: u8) -> &'static [u8]
    ensures { result.now ≡ first_meaning (rows_of rows.now) code }
{
    for (known, meaning) in rows {
        if *known == code {
            return meaning;
        }
    }
    b""
}

/// What a code means.
pub fn meaning(code: u8) -> &'static [u8]
    ensures { result.now ≡ meaning_of code }
{
    first_meaning(&MEANINGS, code)
}

/// Writes what a code means.
pub fn write_meaning<W: Sink>(sink: &mut W, code: u8) -> Result<(), SinkFault>
    ensures { Writes W.taken W.failures sink.old sink.new (meaning_line code) result }
{
    write_pieces(sink, &[b"note: ", meaning(code), b"\n"])
}

/// The code of a refusal.
fn code_of<A: Allocator>(refusal: &Refusal<A>) -> u8
    ensures { result ≡ code_of (refusal_of refusal.now) }
{
    match refusal {
        Refusal::Store { fault, .. } => fault.code(),
        Refusal::Fault { kind, .. } => kind.code(),
        Refusal::Memory => MEMORY,
    }
}

/// Writes a refusal, and where it is explained what it means.
pub fn write_refusal<W: Sink, A: Allocator>(
    sink: &mut W,
    refusal: &Refusal<A>,
    explained: bool,
) -> Result<(), SinkFault>
    ensures { Writes W.taken W.failures sink.old sink.new
        (refusal_text explained (refusal_of refusal.now)) result }
{
    reply::write_refusal(sink, refusal)?;
    if explained {
        write_meaning(sink, code_of(refusal))
    } else {
        Ok(())
    }
}

/// Writes that memory ran out, and where that is explained what it means.
pub fn write_no_memory<W: Sink>(sink: &mut W, explained: bool) -> Result<(), SinkFault>
    ensures { Writes W.taken W.failures sink.old sink.new
        (refusal_text explained for_memory) result }
{
    reply::write_no_memory(sink)?;
    if explained {
        write_meaning(sink, MEMORY)
    } else {
        Ok(())
    }
}
