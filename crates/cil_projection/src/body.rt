//! Statements that hold others.

ghost use Rattle.std.specs.Prelude.{◌≡◌};
ghost use Rattle.cil_specs.specs.Shape.{is_among};
ghost use Rattle.cil_projection.specs.Conditions.{containers};

use crate::words::is_among;

/// Whether statements with this first word hold others: blocks and optionals.
pub fn holds_others(word: &[u8]) -> bool
    ensures { result ≡ is_among containers word.now }
{
    is_among(&[b"block", b"optional"], word)
}
