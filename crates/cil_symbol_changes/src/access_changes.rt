//! Which accesses appeared and which went in lines of their counters.

ghost use Rattle.std.specs.Prelude.{◌↔◌, Contains, IfOk};
ghost use Rattle.cil_symbol_changes.specs.Common.{IsStrictlySortedBy, numbers_cmp, AccessNumbers, count_before, count_now, ArePresentNumbered, IsNew};

use crate::appeared::{collect, turn_round};
use cil_accesses::Accesses;
use cil_keyed_lines::KeyedLines;
use std::alloc::{AllocError, Allocator, Global};

/// The accesses that appeared and those that went, by numbers and in their order.
#[derive(Drop)]
pub struct AccessChanges<A: Allocator = Global> {
    pub added: Accesses<A>,
    pub removed: Accesses<A>,
}

/// Which accesses appeared in lines since the last settling and which went: those that some rule
/// gives now and none gave before, and those that some rule gave and none gives now. The symbols of
/// the names of the ones have numbers in one list, and those of the others in another one, each at
/// the place of the symbol; where two symbols had one number, their accesses couldn't be told apart.
/// It takes time by the places, by the steps since then and by what changed, and looks at the lines of no
/// other place.
pub fn changes<A: Allocator + Copy>(
    alloc: A,
    lines: &KeyedLines<A>,
    new_numbers: &[u32],
    old_numbers: &[u32],
) -> Result<AccessChanges<A>, AllocError>
    requires now { ArePresentNumbered new_numbers.now (count_now lines.now) }
    requires before { ArePresentNumbered old_numbers.now (count_before lines.now) }
    ensures added { IfOk result (λ r. (a : AccessNumbers) → Contains r.added a
        ↔ IsNew new_numbers.now (count_before lines.now) (count_now lines.now) a) }
    ensures removed { IfOk result (λ r. (a : AccessNumbers) → Contains r.removed a
        ↔ IsNew old_numbers.now (count_now lines.now) (count_before lines.now) a) }
    ensures added_order { IfOk result (λ r. IsStrictlySortedBy numbers_cmp r.added) }
    ensures removed_order { IfOk result (λ r. IsStrictlySortedBy numbers_cmp r.removed) }
{
    let mut changes = lines.changes(alloc)?;
    let added = collect(alloc, lines, &changes, new_numbers)?;
    turn_round(&mut changes);
    let removed = collect(alloc, lines, &changes, old_numbers)?;
    Ok(AccessChanges { added, removed })
}
