//! The kept types of a policy by symbols.

ghost use Rattle.std.specs.Prelude.{◌≡◌, ◌<◌, ◌≤◌, ℕ, length, slice_get, slice_index, slice_index_or, IfOk, Some};
ghost use Rattle.cil_member_updates.specs.Common.{meaning_in, IsOutside, AreKept, IsNumbering};
ghost use Rattle.cil_member_updates.specs.Places.{no_declared};

use crate::held::word_of;
use cil_member_rows::Words;
use cil_resolve::Resolved;
use cil_symbols::{Numbering, Symbols};
use std::alloc::{AllocError, Allocator, Global};
use std::marker::Model;

// How many symbols a word has.
const WORD: usize = 64;

/// The symbols of the types that a policy keeps, as bits, 64 a word. Contracts see the list of the
/// words.
#[derive(Drop)]
pub struct KeptTypes<A: Allocator = Global> {
    words: Vec<u64, A>,
}

impl<A: Allocator> Model for KeptTypes<A> {
    ghost use Rattle.std.specs.Prelude.{ℕ, List};

    ghost Value = { List ℕ };

    ghost view = { λ k. k.words.items };
}

/// The symbol of the type at a place.
fn type_symbol<A: Allocator>(
    symbols: &Symbols<A>,
    resolved: &Resolved<A>,
    numbering: &Numbering<A>,
    i: usize,
) -> usize
    requires numbers { IsNumbering symbols.now resolved.now numbering.now }
    requires within { i < length (meaning_in resolved.now).types }
    ensures { slice_get symbols.now result
        ≡ Some (slice_index_or (meaning_in resolved.now).types i no_declared).name }
{
    let number = resolved.type_number(i).unwrap();
    numbering.symbol(number).unwrap()
}

impl<A: Allocator + Copy> KeptTypes<A> {
    /// The kept types of a policy whose names have these symbols.
    pub fn of(
        alloc: A,
        symbols: &Symbols<A>,
        resolved: &Resolved<A>,
        numbering: &Numbering<A>,
    ) -> Result<Self, AllocError>
        requires { IsNumbering symbols.now resolved.now numbering.now }
        ensures { IfOk result (AreKept symbols.now resolved.now) }
    {
        let mut words = vec![in alloc; 0; symbols.len() / WORD + 1]?;
        for i in 0..resolved.types_len() {
            let symbol = type_symbol(symbols, resolved, numbering, i);
            let bits = words[symbol / WORD];
            words[symbol / WORD] = bits | 1 << (symbol % WORD);
        }
        Ok(KeptTypes { words })
    }
}

impl<A: Allocator> KeptTypes<A> {
    /// The bits of a word.
    pub fn word(&self, word: usize) -> u64
        ensures { result ≡ slice_index self.now word }
    {
        word_of(&self.words, word)
    }
}

/// The first word from which on two policies may keep different types, of so many.
fn first_unlike<A: Allocator>(one: &KeptTypes<A>, other: &KeptTypes<A>, words: usize) -> usize
    ensures { (w : ℕ) → w < result → slice_index one.now w ≡ slice_index other.now w }
{
    for word in 0..words {
        if one.word(word) != other.word(word) {
            return word;
        }
    }
    words
}

/// A word from which on two policies keep the same types, given one that is so.
fn last_unlike<A: Allocator>(one: &KeptTypes<A>, other: &KeptTypes<A>, words: usize) -> usize
    requires { (w : ℕ) → words ≤ w → slice_index one.now w ≡ slice_index other.now w }
    ensures { (w : ℕ) → result ≤ w → slice_index one.now w ≡ slice_index other.now w }
{
    let mut end = words;
    while end > 0 {
        if one.word(end - 1) != other.word(end - 1) {
            return end;
        }
        end -= 1;
    }
    end
}

/// The words from the first one to behind the last one in which two policies keep different types.
pub fn unlike_words<A: Allocator>(one: &KeptTypes<A>, other: &KeptTypes<A>) -> Words
    ensures { (w : ℕ) → IsOutside result w → slice_index one.now w ≡ slice_index other.now w }
{
    let words = one.words.len().max(other.words.len());
    Words {
        first: first_unlike(one, other, words),
        end: last_unlike(one, other, words),
    }
}
