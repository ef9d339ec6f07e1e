//! What is written of the kinds of statements that were taken by their names.

ghost use Rattle.std.specs.Prelude.{flat_map};
ghost use Rattle.cil_program.specs.Common.{Writes};
ghost use Rattle.cil_program.specs.Kinds.{kind_in, kind_line, kinds_text};

use cil_projection::{KINDS, Kind, Tally};
use cil_stream::{Sink, SinkFault, write_pieces};
use itoa::Buffer;

/// Writes the line of a kind, where there are statements of it.
fn write_kind<W: Sink>(out: &mut W, tally: &Tally<'_>, kind: Kind) -> Result<(), SinkFault>
    ensures { Writes W.taken W.failures out.old out.new
        (kind_line tally.now (kind_in kind.entry)) result }
{
    let (keyword, meaning) = kind;
    let number = tally.number(keyword);
    if number == 0 {
        return Ok(());
    }
    let mut digits = Buffer::new();
    let digits = digits.format(number).as_bytes();
    write_pieces(out, &[digits, b" ", keyword, b": ", meaning, b"\n"])
}

/// Writes the lines of those of some kinds of which there are statements.
fn write_lines<W: Sink>(out: &mut W, tally: &Tally<'_>, kinds: &[Kind]) -> Result<(), SinkFault>
    ensures { Writes W.taken W.failures out.old out.new
        (flat_map (λ kind. kind_line tally.now (kind_in kind)) kinds.now) result }
{
    for kind in kinds {
        write_kind(out, tally, *kind)?;
    }
    Ok(())
}

/// Writes the lines of the kinds of which there are statements.
pub fn write_kinds<W: Sink>(out: &mut W, tally: &Tally<'_>) -> Result<(), SinkFault>
    ensures { Writes W.taken W.failures out.old out.new (kinds_text tally.now) result }
{
    write_lines(out, tally, &KINDS)
}
