//! The projection of a text.

ghost use Rattle.std.specs.Prelude.{◌≡◌, ◌≤◌, length, IfErr, IfOk, OnOk};
ghost use Rattle.cil_reader.specs.Common.{FaultIs};
ghost use Rattle.cil_projection.specs.Conditions.{settings_of};
ghost use Rattle.cil_projection.specs.Statements.{IsProjectionFault, Projects, Tallies};

use crate::booleans::Booleans;
use crate::by_names::Span;
use crate::marked::first_marked;
use crate::render::render;
use crate::statement::Projector;
use crate::tally::Tally;
use cil_reader::{ShownWord, TextFault, TextFaultKind, read};
use std::alloc::Allocator;

/// The declarations of what a projection needs, for one of the texts that are compiled together.
pub const DECLARATIONS: &[u8] = b"\n(class cilsem__none ())(typeattribute cilsem__none)\n";

/// A text with each statement outside the language that is taken by its names in the place of rules that need these and give nothing,
/// and with the rules of `booleanif`s and the statements of `tunableif`s that are taken. Statements of the language stay as they are, on
/// their lines.
///
/// # Errors
///
/// The reading fault of the text, `Reserved` at the first word with `cilsem__` in it, and out of memory.
pub fn project<'a, A: Allocator + Copy>(
    alloc: A,
    text: &'a [u8],
    booleans: &Booleans<'_, A>,
    tally: &mut Tally<'a, A>,
) -> Result<Vec<u8, A>, TextFault<'a>>
    requires { length text.now ≤ 16777216 }
    ensures ok { IfOk result (λ bytes. Projects (settings_of booleans.now) text.now bytes.items) }
    ensures counted { OnOk result (Tallies (settings_of booleans.now) text.now tally.old tally.new) }
    ensures err { IfErr result (λ fault. FaultIs fault (IsProjectionFault text.now)) }
{
    let forest = read(alloc, text)?;
    if let Some(word) = first_marked(forest.trees()) {
        return Err(TextFault::Found {
            kind: TextFaultKind::Reserved,
            at: word.at,
            word: ShownWord::Text(word.text),
        });
    }
    let whole = Span {
        from: 0,
        to: text.len() as u32,
    };
    let projector = Projector { alloc, booleans };
    let mut pieces = Vec::new(alloc);
    projector.add_statements(&mut pieces, whole, true, forest.trees())?;
    tally.count_all(pieces.as_slice())?;
    let mut bytes = Vec::with_capacity(alloc, text.len())?;
    render(&mut bytes, text, pieces.as_slice())?;
    bytes.shrink_to_fit();
    Ok(bytes)
}
