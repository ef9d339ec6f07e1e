//! The accesses that appeared by changes of lines.

ghost use Rattle.std.specs.Prelude.{◌≡◌, ◌↔◌, ℕ, Contains, IfOk, OnOk};
ghost use Rattle.cil_symbol_changes.specs.Common.{All, IsStrictlySortedBy, numbers_cmp, AccessNumbers, AreGained, AreKnownIn, IsIn, IsShort, AreAppeared, HasAppeared, IsAmong};
ghost use Rattle.cil_recorded.specs.Differences.{appeared_at, gone_at};
ghost use Rattle.cil_recorded.specs.Log.{hit_at};

use crate::source_order::{LinePlace, appeared_by_source, split_source};
use crate::targets::{GrowingChunks, push_targets};
use cil_accesses::{Accesses, sort_from};
use cil_keyed_lines::KeyedLines;
use cil_recorded::Change;
use std::alloc::{AllocError, Allocator};

/// Appends the accesses of the targets that appeared in a word of a line.
fn push_change<A: Allocator>(
    growing: &mut GrowingChunks<A>,
    lines: &KeyedLines<A>,
    change: &Change,
    numbers: &[u32],
) -> Result<(), AllocError>
    requires known { AreKnownIn numbers.now lines.now
        (hit_at change.now.line change.now.word change.now.appeared) }
    requires short { All IsShort growing.old.chunks.items }
    ensures { OnOk result
        (AreGained (IsIn numbers.now lines.now
        (hit_at change.now.line change.now.word change.now.appeared))
        growing.old.chunks.items growing.new.chunks.items) }
{
    match lines.at(change.line) {
        Some(key) => push_targets(growing, key, change.word, change.appeared, numbers),
        None => Ok(()),
    }
}

/// Appends the accesses of the targets that appeared in the change of a place.
fn push_place<A: Allocator>(
    growing: &mut GrowingChunks<A>,
    lines: &KeyedLines<A>,
    changes: &[Change],
    place: usize,
    numbers: &[u32],
) -> Result<(), AllocError>
    requires known { AreKnownIn numbers.now lines.now (appeared_at changes.now) }
    requires short { All IsShort growing.old.chunks.items }
    ensures { OnOk result
        (AreGained (HasAppeared numbers.now lines.now changes.now place)
        growing.old.chunks.items growing.new.chunks.items) }
{
    if place < changes.len() {
        push_change(growing, lines, &changes[place], numbers)
    } else {
        Ok(())
    }
}

/// Appends the accesses of the changes of some places, and puts them in order: a few at a time,
/// where these changes are of one kind and source.
fn push_source<A: Allocator>(
    growing: &mut GrowingChunks<A>,
    lines: &KeyedLines<A>,
    changes: &[Change],
    source: &[LinePlace],
    numbers: &[u32],
) -> Result<(), AllocError>
    requires known { AreKnownIn numbers.now lines.now (appeared_at changes.now) }
    requires short { All IsShort growing.old.chunks.items }
    ensures { OnOk result
        (AreGained (IsAmong (HasAppeared numbers.now lines.now changes.now) source.now)
        growing.old.chunks.items growing.new.chunks.items) }
{
    let start = growing.chunks.len();
    for at in source {
        push_place(growing, lines, changes, at.place as usize, numbers)?;
    }
    sort_from(&mut growing.chunks, start);
    Ok(())
}

/// Appends the accesses of the targets that appeared in lines, kind by kind and source by source.
fn push_changes<A: Allocator>(
    growing: &mut GrowingChunks<A>,
    lines: &KeyedLines<A>,
    changes: &[Change],
    order: &[LinePlace],
    numbers: &[u32],
) -> Result<(), AllocError>
    requires all { AreAppeared changes.now order.now }
    requires known { AreKnownIn numbers.now lines.now (appeared_at changes.now) }
    requires short { All IsShort growing.old.chunks.items }
    ensures { OnOk result
        (AreGained (IsIn numbers.now lines.now (appeared_at changes.now))
        growing.old.chunks.items growing.new.chunks.items) }
{
    let mut left = order;
    while let Some((source, behind)) = split_source(left) {
        push_source(growing, lines, changes, source, numbers)?;
        left = behind;
    }
    Ok(())
}

/// The accesses of the targets that appeared in lines, by the numbers of their names and in order.
pub fn collect<A: Allocator + Copy>(
    alloc: A,
    lines: &KeyedLines<A>,
    changes: &[Change],
    numbers: &[u32],
) -> Result<Accesses<A>, AllocError>
    requires { AreKnownIn numbers.now lines.now (appeared_at changes.now) }
    ensures those { IfOk result (λ found. (a : AccessNumbers) → Contains found a
        ↔ IsIn numbers.now lines.now (appeared_at changes.now) a) }
    ensures order { IfOk result (λ found. IsStrictlySortedBy numbers_cmp found) }
{
    let order = appeared_by_source(alloc, lines, changes, numbers)?;
    let mut growing = GrowingChunks::new(alloc);
    push_changes(&mut growing, lines, changes, &order, numbers)?;
    Ok(Accesses::of(growing.chunks))
}

/// Turns changes round: what appeared went, and what went appeared.
pub fn turn_round(changes: &mut [Change])
    ensures { (l t : ℕ) → appeared_at changes.new l t ≡ gone_at changes.old l t }
{
    for place in 0..changes.len() {
        let change = changes[place];
        changes[place] = Change {
            line: change.line,
            word: change.word,
            appeared: change.gone,
            gone: change.appeared,
        };
    }
}
