//! What is told of words that have no meaning together, and of files that can't be read or written.

ghost use Rattle.std.specs.Prelude.{◌++◌, codes};
ghost use Rattle.cil_program.specs.Common.{Writes, misuse_text, unreadable_line};
ghost use Rattle.cil_program.specs.Reasons.{reason_line};

use crate::command_line::conditionals::Misuse;
use crate::command_line::reason::Reason;
use cil_stream::{Sink, SinkFault, write_all, write_pieces};

/// Writes why the words are refused.
pub fn write_misuse<E: Sink>(err: &mut E, misuse: Misuse) -> Result<(), SinkFault>
    ensures { Writes E.taken E.failures err.old err.new (misuse_text misuse) result }
{
    let more = b"\nFor more information, try '--help'.\n";
    write_pieces(err, &[misuse.line(), more])
}

/// Writes what can't be done with which file.
fn write_path<E: Sink>(err: &mut E, what: &[u8], path: &str) -> Result<(), SinkFault>
    ensures { Writes E.taken E.failures err.old err.new
        (what.now ++ (path.now ++ codes "\n")) result }
{
    write_pieces(err, &[what, path.as_bytes(), b"\n"])
}

/// Writes which file can't be read.
pub fn write_unreadable<E: Sink>(err: &mut E, path: &str) -> Result<(), SinkFault>
    ensures { Writes E.taken E.failures err.old err.new (unreadable_line path.now) result }
{
    write_path(err, b"unreadable ", path)
}

/// Writes why something can't be done.
fn write_reason<E: Sink>(err: &mut E, reason: Reason) -> Result<(), SinkFault>
    ensures { Writes E.taken E.failures err.old err.new (reason_line reason) result }
{
    write_all(err, reason.line())
}

/// Writes what can't be done with which file, and why.
pub fn explain<E: Sink>(
    err: &mut E,
    what: &[u8],
    path: &str,
    reason: Reason,
) -> Result<(), SinkFault>
    ensures { Writes E.taken E.failures err.old err.new
        ((what.now ++ (path.now ++ codes "\n")) ++ reason_line reason) result }
{
    write_path(err, what, path)?;
    write_reason(err, reason)
}
