//! How many accesses appeared and how many went in lines of their counters.

ghost use Rattle.std.specs.Prelude.{◌≡◌, ◌+◌, ◌-◌, ◌*◌, ◌^◌, ◌==◌, ◌<◌, min, IfOk};
ghost use Rattle.std.specs.Int.{bit_at};
ghost use Rattle.cil_keyed_lines.specs.Past.{AreOwnFrom, IsPast};
ghost use Rattle.cil_symbol_changes.specs.Common.{came_at, count_before, count_now, has_come, has_risen, went_at, AreCounted, AreSoMany};

use cil_keyed_lines::{KeyedLines, Past};
use std::alloc::{AllocError, Allocator};

/// How many accesses appeared, and how many went.
#[derive(Clone, Copy, Debug, PartialEq, Eq)]
pub struct ChangeCounts {
    pub added: u128,
    pub removed: u128,
}

impl ChangeCounts {
    /// None appeared, and none went.
    fn none() -> Self
        ensures added { result.added ≡ 0 }
        ensures removed { result.removed ≡ 0 }
    {
        ChangeCounts {
            added: 0,
            removed: 0,
        }
    }

    /// How many targets of a word appeared and how many went, by those whose counters were above 0 and those whose are.
    fn of_word(was: u64, is: u64) -> Self
        ensures { AreCounted (λ b. has_risen (bit_at was b) (bit_at is b))
            (λ b. has_risen (bit_at is b) (bit_at was b)) result }
    {
        ChangeCounts {
            added: u128::from((is & !was).count_ones()),
            removed: u128::from((was & !is).count_ones()),
        }
    }

    /// How many targets of a word appeared and how many went, by those that did.
    fn of_change(appeared: u64, gone: u64) -> Self
        ensures counted { AreCounted (λ b. bit_at appeared b == 1) (λ b. bit_at gone b == 1) result }
        ensures appeared { appeared < 2 ^ 64 }
        ensures gone { gone < 2 ^ 64 }
    {
        ChangeCounts {
            added: u128::from(appeared.count_ones()),
            removed: u128::from(gone.count_ones()),
        }
    }

    /// So many times the numbers, or the greatest `u128` where one is greater.
    fn times(self, count: usize) -> Self
        ensures added { result.added ≡ min (self.added * count) (2 ^ 128 - 1) }
        ensures removed { result.removed ≡ min (self.removed * count) (2 ^ 128 - 1) }
    {
        let count = count as u128;
        ChangeCounts {
            added: self.added.saturating_mul(count),
            removed: self.removed.saturating_mul(count),
        }
    }

    /// The sums, or the greatest `u128` where one is greater.
    fn plus(self, more: ChangeCounts) -> Self
        ensures added { result.added ≡ min (self.added + more.added) (2 ^ 128 - 1) }
        ensures removed { result.removed ≡ min (self.removed + more.removed) (2 ^ 128 - 1) }
    {
        ChangeCounts {
            added: self.added.saturating_add(more.added),
            removed: self.removed.saturating_add(more.removed),
        }
    }
}

/// How many targets of a place appeared and how many went, where it names the line that it named before: by the changes of this line, from
/// the first on.
fn own_counts<A: Allocator>(
    lines: &KeyedLines<A>,
    past: &Past<A>,
    place: usize,
    first: usize,
) -> Result<ChangeCounts, AllocError>
    requires past { IsPast lines.now past.now }
    requires first { AreOwnFrom lines.now past.now place 0 first }
    ensures { IfOk result (AreCounted (came_at lines.now place) (went_at lines.now place)) }
{
    let mut counts = ChangeCounts::none();
    let mut from = 0;
    let mut at = first;
    while let Some(change) = lines.own_turn(past, place, at) {
        counts = counts.plus(ChangeCounts::of_change(change.appeared, change.gone));
        from = change.word.checked_add(1).ok_or(AllocError)?;
        at += 1;
    }
    Ok(counts)
}

/// How many targets of a place appeared and how many went since the last settling. The greatest `usize` as a word, which no line has,
/// would be answered as out of memory.
#[inline(never)]
fn place_counts<A: Allocator>(
    lines: &KeyedLines<A>,
    past: &Past<A>,
    place: usize,
) -> Result<ChangeCounts, AllocError>
    requires { IsPast lines.now past.now }
    ensures { IfOk result (AreCounted (came_at lines.now place) (went_at lines.now place)) }
{
    if let Some(first) = lines.first_turn(past, place) {
        return own_counts(lines, past, place, first);
    }
    let mut counts = ChangeCounts::none();
    let mut from = 0;
    while let Some(word) = lines.next_turned_word(past, place, from) {
        let was = lines.present_before(past, place, word);
        let is = lines.present(place, word);
        counts = counts.plus(ChangeCounts::of_word(was, is));
        from = word.checked_add(1).ok_or(AllocError)?;
    }
    Ok(counts)
}

/// How many accesses of all places appeared and how many went, or the greatest `u128` where they are more. Places beside one another
/// that are alike have the same numbers. Those of which nothing has turned, which most are, are passed by.
fn count_places<A: Allocator>(
    lines: &KeyedLines<A>,
    past: &Past<A>,
) -> Result<ChangeCounts, AllocError>
    requires { IsPast lines.now past.now }
    ensures { IfOk result (AreCounted (has_come (count_before lines.now) (count_now lines.now))
        (has_come (count_now lines.now) (count_before lines.now))) }
{
    let mut counts = ChangeCounts::none();
    let mut place = 0;
    while place < lines.len() {
        let end = lines.alike_end(past, place);
        if !lines.is_same(past, place) {
            let of_place = place_counts(lines, past, place)?;
            counts = counts.plus(of_place.times(end - place));
        }
        place = end;
    }
    Ok(counts)
}

/// How many accesses appeared in lines since the last settling, and how many went: those that some rule gives now and none gave before,
/// and those that some rule gave and none gives now. A place that names the same lines as the place before it, now and before the steps,
/// has its numbers. Of each other place the words are looked at in which a target may have turned. So it takes time by the places and
/// these words, and memory by the places, the lines and the steps. No access is put together, and no list of them is made. More than
/// 2^128 - 2, which no memory holds, are answered as out of memory.
pub fn count_changes<A: Allocator + Copy>(
    alloc: A,
    lines: &KeyedLines<A>,
) -> Result<ChangeCounts, AllocError>
    ensures added { IfOk result (λ n. AreSoMany (has_come (count_before lines.now) (count_now lines.now)) n.added) }
    ensures removed { IfOk result (λ n. AreSoMany (has_come (count_now lines.now) (count_before lines.now)) n.removed) }
{
    let past = lines.past(alloc)?;
    let counts = count_places(lines, &past)?;
    if counts.added == u128::MAX || counts.removed == u128::MAX {
        return Err(AllocError);
    }
    Ok(counts)
}
