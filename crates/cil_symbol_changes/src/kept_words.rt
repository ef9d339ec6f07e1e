//! The accesses of the lines of a source, word by word, where each symbol is its own number.

ghost use Rattle.std.specs.Prelude.{◌≢◌, ◌*◌, ◌<◌, ◌≤◌, length, IsTrue, OnOk};
ghost use Rattle.cil_symbol_changes.specs.Common.{All, now_at, IsLineOf, hit, AreGained, AreKept, AreKnown, AreKnownIn, IsShort, IsTo, IsAmong, IsAt, IsAtWord};

use crate::source_order::LinePlace;
use crate::targets::short_word;
use cil_accesses::Chunk;
use cil_keyed_lines::{KeyedLines, SymbolKey};
use std::alloc::{AllocError, Allocator};

/// Whether each symbol is its own number.
pub fn are_kept(numbers: &[u32]) -> bool
    ensures { IsTrue result → AreKept numbers.now }
{
    for symbol in 0..numbers.len() {
        if numbers[symbol] as usize != symbol {
            return false;
        }
    }
    true
}

/// Appends the accesses of a key to the targets of a word that a mask has, where there are any.
fn push_mask<A: Allocator>(
    chunks: &mut Vec<Chunk, A>,
    key: SymbolKey,
    word: usize,
    mask: u64,
    numbers: &[u32],
) -> Result<(), AllocError>
    requires kept { AreKept numbers.now }
    requires known { AreKnown numbers.now key (hit word mask) }
    requires some { mask ≢ 0 }
    ensures { OnOk result (AreGained (IsTo numbers.now key (λ t. 0 < hit word mask t)) chunks.old.items chunks.new.items) }
{
    chunks.push(Chunk {
        kind: key.kind,
        source: numbers[key.source],
        word: short_word(word)?,
        class: numbers[key.class],
        permission: numbers[key.permission],
        bits: mask,
    })?;
    Ok(())
}

/// Appends the accesses to the targets of a word whose counters in the line of a place are above 0.
fn push_place<A: Allocator>(
    chunks: &mut Vec<Chunk, A>,
    lines: &KeyedLines<A>,
    place: usize,
    word: usize,
    numbers: &[u32],
) -> Result<(), AllocError>
    requires kept { AreKept numbers.now }
    requires known { AreKnownIn numbers.now lines.now (now_at lines.now) }
    ensures { OnOk result (AreGained (IsAtWord numbers.now lines.now word place) chunks.old.items chunks.new.items) }
{
    let mask = lines.present(place, word);
    if mask == 0 {
        return Ok(());
    }
    match lines.at(place) {
        Some(key) => push_mask(chunks, key, word, mask, numbers),
        None => Ok(()),
    }
}

/// Appends the accesses to the targets of a word that the lines of some places give.
fn push_word<A: Allocator>(
    chunks: &mut Vec<Chunk, A>,
    lines: &KeyedLines<A>,
    source: &[LinePlace],
    word: usize,
    numbers: &[u32],
) -> Result<(), AllocError>
    requires kept { AreKept numbers.now }
    requires known { AreKnownIn numbers.now lines.now (now_at lines.now) }
    ensures { OnOk result
        (AreGained (IsAmong (IsAtWord numbers.now lines.now word) source.now) chunks.old.items
        chunks.new.items) }
{
    for at in source {
        push_place(chunks, lines, at.place as usize, word, numbers)?;
    }
    Ok(())
}

/// Appends the accesses that the lines of some places give, word by word: where the lines are of one kind
/// and source and in order, so are these.
pub fn push_words<A: Allocator>(
    chunks: &mut Vec<Chunk, A>,
    lines: &KeyedLines<A>,
    source: &[LinePlace],
    numbers: &[u32],
) -> Result<(), AllocError>
    requires kept { AreKept numbers.now }
    requires known { AreKnownIn numbers.now lines.now (now_at lines.now) }
    ensures { OnOk result
        (AreGained (IsAmong (IsAt numbers.now lines.now) source.now) chunks.old.items
        chunks.new.items) }
{
    for word in 0..words_len(numbers) {
        push_word(chunks, lines, source, word, numbers)?;
    }
    Ok(())
}

/// How many words the symbols have that have numbers.
pub fn words_len(numbers: &[u32]) -> usize
    ensures { length numbers.now ≤ 64 * result }
{
    numbers.len() / 64 + 1
}
