//! Which accesses a listing has.

ghost use Rattle.std.specs.Prelude.{◌↔◌, Contains, IfOk};
ghost use Rattle.cil_symbol_changes.specs.Common.{IsStrictlySortedBy, numbers_cmp, AccessNumbers, count_now, listed, ArePresentNumbered, IsPresent};

use crate::present_chunks::collect_present;
use cil_accesses::Accesses;
use cil_keyed_lines::KeyedLines;
use std::alloc::{AllocError, Allocator};

/// The accesses that some rule gives, but for those of neverallow, which a listing doesn't have: by numbers and in their
/// order. The symbols of their names have numbers, each at the place of the symbol; where two symbols had one number, their accesses
/// couldn't be told apart. No rule is looked at: it takes time by the words of the lines that have a target, and the lines of neverallow
/// are passed over.
pub fn accesses<A: Allocator + Copy>(
    alloc: A,
    lines: &KeyedLines<A>,
    numbers: &[u32],
) -> Result<Accesses<A>, AllocError>
    requires known { ArePresentNumbered numbers.now (count_now lines.now) }
    ensures present { IfOk result (λ found. (a : AccessNumbers) → Contains found a
        ↔ IsPresent numbers.now (listed (count_now lines.now)) a) }
    ensures order { IfOk result (λ found. IsStrictlySortedBy numbers_cmp found) }
{
    Ok(Accesses::of(collect_present(alloc, lines, numbers)?))
}
