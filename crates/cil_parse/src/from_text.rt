//! From a text to its parsed module.

ghost use Rattle.std.specs.Prelude.{◌≤◌, length, IfOk, IfErr};
ghost use Rattle.cil_parse.specs.Common.{FaultIs};
ghost use Rattle.cil_parse.specs.Parsed.{IsParsed};
ghost use Rattle.cil_specs.specs.ModuleText.{IsTextFault};

use crate::parsed::ParsedModule;
use cil_names::Seed;
use cil_text::{TextFault, read};
use std::alloc::Allocator;

/// The parsed module of a text, or its fault: that of reading it, or else the first of its shape.
pub fn parse<'a, A: Allocator + Copy>(
    alloc: A,
    seed: Seed,
    text: &'a [u8],
) -> Result<ParsedModule<A>, TextFault<'a>>
    requires { length text.now ≤ 16777216 }
    ensures ok { IfOk result (IsParsed text.now) }
    ensures err { IfErr result (λ fault. FaultIs fault (IsTextFault text.now)) }
{
    let forest = read(alloc, text)?;
    let parsed = ParsedModule::of(alloc, seed, forest)?;
    Ok(parsed)
}
