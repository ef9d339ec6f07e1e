//! The accesses that a listing has, before they are put in order.

ghost use Rattle.std.specs.Prelude.{◌<◌, ◌↔◌, IfOk, IsTrue, OnOk};
ghost use Rattle.cil_symbol_changes.specs.Common.{All, IsGiven, AccessNumbers, count_now, now_at, IsLineOf, AreGained, AreKept, AreKnownIn, IsShort, IsTo, listed, ArePresentNumbered, IsPresent, AreListedPlaces, IsAmong, IsAt, IsListedIn};

use crate::kept_words::{are_kept, push_words, words_len};
use crate::source_order::{LinePlace, by_source, is_listed_at, split_source};
use crate::targets::{GrowingChunks, push_targets};
use cil_accesses::{Chunk, sort_from};
use cil_keyed_lines::{KeyedLines, SymbolKey};
use std::alloc::{AllocError, Allocator};

// Lines are looked at word by word where at most so many words are looked at for each that has a target.
const SPAN: usize = 16;

/// How many words of the line of a place have a target whose counter is above 0.
fn line_words<A: Allocator>(lines: &KeyedLines<A>, place: usize) -> usize {
    let mut words: usize = 0;
    let mut from = 0;
    while let Some(word) = lines.next_present_word(place, from) {
        words = words.saturating_add(1);
        let Some(next) = word.checked_add(1) else {
            return words;
        };
        from = next;
    }
    words
}

/// About how many chunks the accesses of a listing take: a list of them that grew would take twice the room.
fn chunks_len<A: Allocator>(lines: &KeyedLines<A>) -> usize {
    let mut words: usize = 0;
    for place in 0..lines.len() {
        if is_listed_at(lines, place) {
            words = words.saturating_add(line_words(lines, place));
        }
    }
    words
}

/// Whether the lines of some places, of so many words each, have enough words with a target that they may
/// be looked at word by word. It looks at no more lines than it takes to see that.
fn are_dense<A: Allocator>(lines: &KeyedLines<A>, source: &[LinePlace], words: usize) -> bool {
    let enough = source.len().saturating_mul(words) / SPAN;
    let mut found: usize = 0;
    for at in source {
        if found >= enough {
            return true;
        }
        found = found.saturating_add(line_words(lines, at.place as usize));
    }
    found >= enough
}

/// Appends the accesses of a key to the targets whose counters in its line are above 0.
fn push_line<A: Allocator>(
    growing: &mut GrowingChunks<A>,
    lines: &KeyedLines<A>,
    place: usize,
    key: SymbolKey,
    numbers: &[u32],
) -> Result<(), AllocError>
    requires line { IsLineOf lines.now place key }
    requires known { AreKnownIn numbers.now lines.now (now_at lines.now) }
    requires short { All IsShort growing.old.chunks.items }
    ensures { OnOk result
        (AreGained (IsTo numbers.now key (λ t. 0 < now_at lines.now place t))
        growing.old.chunks.items growing.new.chunks.items) }
{
    let mut from = 0;
    while let Some(word) = lines.next_present_word(place, from) {
        let mask = lines.present(place, word);
        push_targets(growing, key, word, mask, numbers)?;
        from = word + 1;
    }
    Ok(())
}

/// Appends the accesses to the targets whose counters in the line of a place are above 0.
fn push_place<A: Allocator>(
    growing: &mut GrowingChunks<A>,
    lines: &KeyedLines<A>,
    place: usize,
    numbers: &[u32],
) -> Result<(), AllocError>
    requires known { AreKnownIn numbers.now lines.now (now_at lines.now) }
    requires short { All IsShort growing.old.chunks.items }
    ensures { OnOk result
        (AreGained (IsAt numbers.now lines.now place) growing.old.chunks.items
        growing.new.chunks.items) }
{
    match lines.at(place) {
        Some(key) => push_line(growing, lines, place, key, numbers),
        None => Ok(()),
    }
}

/// Appends the accesses of the lines of some places in order, where these lines are of one kind and source.
/// Where each symbol is its own number, lines with a target in at least one word of `SPAN` are looked at
/// word by word, which gives the order. Else what the lines give is put in order: a few at a time.
fn push_source<A: Allocator>(
    growing: &mut GrowingChunks<A>,
    lines: &KeyedLines<A>,
    source: &[LinePlace],
    kept: bool,
    numbers: &[u32],
) -> Result<(), AllocError>
    requires kept { IsTrue kept → AreKept numbers.now }
    requires known { AreKnownIn numbers.now lines.now (now_at lines.now) }
    requires short { All IsShort growing.old.chunks.items }
    ensures { OnOk result
        (AreGained (IsAmong (IsAt numbers.now lines.now) source.now) growing.old.chunks.items
        growing.new.chunks.items) }
{
    if kept && are_dense(lines, source, words_len(numbers)) {
        return push_words(&mut growing.chunks, lines, source, numbers);
    }
    let start = growing.chunks.len();
    for at in source {
        push_place(growing, lines, at.place as usize, numbers)?;
    }
    sort_from(&mut growing.chunks, start);
    Ok(())
}

/// Appends the accesses of the targets whose counters are above 0 in the lines of a listing, kind by kind and source by source.
fn push_lines<A: Allocator>(
    growing: &mut GrowingChunks<A>,
    lines: &KeyedLines<A>,
    order: &[LinePlace],
    numbers: &[u32],
) -> Result<(), AllocError>
    requires listed { AreListedPlaces lines.now order.now }
    requires known { AreKnownIn numbers.now lines.now (now_at lines.now) }
    requires short { All IsShort growing.old.chunks.items }
    ensures { OnOk result
        (AreGained (IsListedIn numbers.now lines.now) growing.old.chunks.items
        growing.new.chunks.items) }
{
    let kept = are_kept(numbers);
    let mut left = order;
    while let Some((source, behind)) = split_source(left) {
        push_source(growing, lines, source, kept, numbers)?;
        left = behind;
    }
    Ok(())
}

/// The accesses that some rule gives which a listing has: those of neverallow aren't part of it.
pub fn collect_present<A: Allocator + Copy>(
    alloc: A,
    lines: &KeyedLines<A>,
    numbers: &[u32],
) -> Result<Vec<Chunk, A>, AllocError>
    requires { ArePresentNumbered numbers.now (count_now lines.now) }
    ensures given { IfOk result (λ chunks. (a : AccessNumbers) → IsGiven chunks.items a
        ↔ IsPresent numbers.now (listed (count_now lines.now)) a) }
    ensures short { IfOk result (λ chunks. All IsShort chunks.items) }
{
    let order = by_source(alloc, lines, numbers)?;
    let mut growing = GrowingChunks::with_capacity(alloc, chunks_len(lines))?;
    push_lines(&mut growing, lines, &order, numbers)?;
    Ok(growing.chunks)
}
