//! How many accesses stand in lines of their counters.

ghost use Rattle.std.specs.Prelude.{◌-◌, ◌<◌, IfOk};
ghost use Rattle.cil_symbol_changes.specs.Common.{count_now, has_come, present_at, AreSoMany};
ghost use Rattle.cil_sums.specs.Rises.{RisesBy};

use cil_keyed_lines::KeyedLines;
use std::alloc::{AllocError, Allocator};

/// How many targets of a place have a counter above 0. The greatest `usize` as a word, which no line has, would be answered as out of
/// memory.
fn place_count<A: Allocator>(lines: &KeyedLines<A>, place: usize) -> Result<u128, AllocError>
    ensures { IfOk result (RisesBy (present_at lines.now place) 0) }
{
    let mut count: u128 = 0;
    let mut from = 0;
    while let Some(word) = lines.next_present_word(place, from) {
        count = count.saturating_add(u128::from(lines.present(place, word).count_ones()));
        from = word.checked_add(1).ok_or(AllocError)?;
    }
    Ok(count)
}

/// The same, where the number of the place before is told: a place of the same line has it too.
fn next_count<A: Allocator>(
    lines: &KeyedLines<A>,
    place: usize,
    before: u128,
) -> Result<u128, AllocError>
    requires { 0 < place → RisesBy (present_at lines.now (place - 1)) 0 before }
    ensures { IfOk result (RisesBy (present_at lines.now place) 0) }
{
    if place > 0 && lines.share_line(place, place - 1) {
        return Ok(before);
    }
    place_count(lines, place)
}

/// How many accesses the places have, or the greatest `u128` where they are more.
fn count_places<A: Allocator>(lines: &KeyedLines<A>) -> Result<u128, AllocError>
    ensures { IfOk result (RisesBy (has_come (λ key t. 0) (count_now lines.now)) 0) }
{
    let mut count: u128 = 0;
    let mut of_place: u128 = 0;
    for place in 0..lines.len() {
        of_place = next_count(lines, place, of_place)?;
        count = count.saturating_add(of_place);
    }
    Ok(count)
}

/// How many accesses lines count: those that some rule gives. A place that names the same line as the place before it has its number. So
/// it takes time by the places and by the words of the lines of the others, and no memory. More than 2^128 - 2, which no memory holds,
/// are answered as out of memory.
pub fn count_accesses<A: Allocator>(lines: &KeyedLines<A>) -> Result<u128, AllocError>
    ensures { IfOk result (AreSoMany (has_come (λ key t. 0) (count_now lines.now))) }
{
    let count = count_places(lines)?;
    if count == u128::MAX {
        return Err(AllocError);
    }
    Ok(count)
}
