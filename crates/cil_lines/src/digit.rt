//! One binary digit of the counters of a line.

ghost use Rattle.std.specs.Prelude.{◌≡◌, ◌≢◌, ◌+◌, ◌/◌, ◌<◌, ◌≤◌, ◌^◌, ℕ, length, max, slice_index, slice_index_or, vec_capacity, if◌then◌else◌, ltb, IfOk, OnOk, MatchResult};
ghost use Rattle.cil_lines.specs.Digit.{bits_in, bits_of, HasPlace, IsEntry, IsGap, IsLast, IsNext, Rises};

use std::alloc::{AllocError, Allocator, Global};
use std::marker::Model;

// Entries go over to the dense words where these would be no more than so many for each entry. An entry has the
// size of two words.
const SPAN: usize = 4;

// A word is below this number: so many words have all targets.
const WORDS: usize = 1 << 58;

// Where a list grows it gets room for one item in so many to spare: it seldom moves, and little of it stays unused.
const SPARE: usize = 8;

/// The bits of one word.
#[derive(Clone, Copy)]
pub struct Entry {
    pub word: usize,
    pub bits: u64,
}

/// One binary digit of the counters of each word, 64 a word. The first words stand densely; behind them only words with
/// a place have an entry, in rising order.
#[derive(Drop)]
pub struct Digit<A: Allocator = Global> {
    dense: Vec<u64, A>,
    sparse: Vec<Entry, A>,
}

impl<A: Allocator> Model for Digit<A> {
    ghost use Rattle.std.specs.Prelude.{◌^◌, ◌≤◌, length};
    ghost use Rattle.cil_lines.specs.Digit.{Words, Rises};

    ghost Value = { Words };

    ghost view = { λ d. record { dense = d.dense.items; sparse = d.sparse.items } };

    ghost invariant = { λ d. (length d.dense.items ≤ 2 ^ 58) × Rises (length d.dense.items) (2 ^ 58) d.sparse.items };
}

/// Makes room for a list to reach a length.
fn reserve<T, A: Allocator>(items: &mut Vec<T, A>, len: usize) -> Result<(), AllocError>
    ensures same { items.new.items ≡ items.old.items }
    ensures room { OnOk result (len ≤ vec_capacity items.new) }
    ensures spare { vec_capacity items.new ≤ max (vec_capacity items.old) (len + len / 8) }
{
    if len <= items.capacity() {
        return Ok(());
    }
    items.reserve_exact((len - items.len()).saturating_add(len / SPARE))
}

/// The place of a word's entry, or the place where it would stand.
fn search(entries: &[Entry], word: usize) -> Result<usize, usize>
    requires { Rises 0 (2 ^ 58) entries.now }
    ensures { MatchResult result (IsEntry entries.now word) (IsGap entries.now word) }
{
    let place = entries.partition_point(|entry| entry.word < word);
    if place < entries.len() && entries[place].word == word {
        Ok(place)
    } else {
        Err(place)
    }
}

/// The last word among those of entries and one more.
fn last_word(entries: &[Entry], word: usize) -> usize
    requires { Rises 0 (2 ^ 58) entries.now }
    ensures { IsLast entries.now word result }
{
    if entries.is_empty() {
        word
    } else {
        entries[entries.len() - 1].word.max(word)
    }
}

/// Where so many dense words end once the last word with a place is dense too. Where they grow they grow by some to spare, so that
/// words which come one behind the other seldom make them grow.
fn dense_end(len: usize, last: usize) -> usize
    requires { last < 2 ^ 58 }
    ensures behind { last < result }
    ensures below { result ≤ 2 ^ 58 }
{
    let spare = len / SPARE;
    spare.min(WORDS - 1 - last) + last + 1
}

/// Writes the bits of entries at their words.
fn fill(words: &mut [u64], entries: &[Entry])
    requires { Rises 0 (length words.old) entries.now }
    ensures len { length words.new ≡ length words.old }
    ensures words { (n : ℕ) → Rises n (length words.old) entries.now → ((w : ℕ) → n ≤ w → slice_index words.old w ≡ 0)
        → (w : ℕ) → slice_index words.new w ≡ (if ltb w n then slice_index words.old w else bits_in entries.now w) }
{
    for entry in entries {
        words[entry.word] = entry.bits;
    }
}

impl<A: Allocator + Copy> Digit<A> {
    /// No bit is set.
    pub fn new(alloc: A) -> Self
        ensures { (w : ℕ) → bits_of result w ≡ 0 }
    {
        Digit {
            dense: Vec::new(alloc),
            sparse: Vec::new(alloc),
        }
    }

    /// A digit with the same bits and places.
    pub fn copied(&self, alloc: A) -> Result<Self, AllocError>
        ensures { IfOk result (λ digit. digit ≡ self.now) }
    {
        Ok(Digit {
            dense: Vec::from_slice(alloc, &self.dense)?,
            sparse: Vec::from_slice(alloc, &self.sparse)?,
        })
    }

    /// A digit whose first words stand densely. It takes no memory beside them.
    pub fn of_words(alloc: A, words: Vec<u64, A>) -> Self
        requires { length words.items ≤ 2 ^ 58 }
        ensures bits { (w : ℕ) → bits_of result w ≡ slice_index_or words.items w 0 }
        ensures places { (w : ℕ) → w < length words.items → HasPlace result w }
    {
        Digit {
            dense: words,
            sparse: Vec::new(alloc),
        }
    }

    /// Makes a place for a word, so that `put` takes no memory. No bit changes.
    pub fn make_place(&mut self, alloc: A, word: usize) -> Result<(), AllocError>
        requires { word < 2 ^ 58 }
        ensures place { OnOk result (HasPlace self.new word) }
        ensures kept { (w : ℕ) → HasPlace self.old w → HasPlace self.new w }
        ensures bits { (w : ℕ) → bits_of self.new w ≡ bits_of self.old w }
    {
        if word < self.dense.len() {
            return Ok(());
        }
        match search(&self.sparse, word) {
            Ok(_) => Ok(()),
            Err(place) => self.open(alloc, place, word),
        }
    }

    /// Makes a place for a word that has none: an entry, or dense words as far as the last one with a place.
    fn open(&mut self, alloc: A, place: usize, word: usize) -> Result<(), AllocError>
        requires word { word < 2 ^ 58 }
        requires behind { length self.old.dense ≤ word }
        requires gap { IsGap self.old.sparse word place }
        ensures place { OnOk result (HasPlace self.new word) }
        ensures kept { (w : ℕ) → HasPlace self.old w → HasPlace self.new w }
        ensures bits { (w : ℕ) → bits_of self.new w ≡ bits_of self.old w }
    {
        let last = last_word(&self.sparse, word);
        if (last - self.dense.len()) / SPAN <= self.sparse.len() {
            let end = dense_end(self.dense.len(), last);
            self.spread(alloc, end)
        } else {
            let len = self.sparse.len() + 1;
            reserve(&mut self.sparse, len)?;
            self.sparse.insert(place, Entry { word, bits: 0 })?;
            Ok(())
        }
    }

    /// Makes all words below one dense.
    fn spread(&mut self, alloc: A, end: usize) -> Result<(), AllocError>
        requires end { end ≤ 2 ^ 58 }
        requires behind { length self.old.dense ≤ end }
        requires rises { Rises (length self.old.dense) end self.old.sparse }
        ensures len { OnOk result (length self.new.dense ≡ end) }
        ensures kept { (w : ℕ) → HasPlace self.old w → HasPlace self.new w }
        ensures bits { (w : ℕ) → bits_of self.new w ≡ bits_of self.old w }
    {
        reserve(&mut self.dense, end)?;
        self.dense.resize(end, 0)?;
        fill(&mut self.dense, &self.sparse);
        self.sparse = Vec::new(alloc);
        Ok(())
    }
}

impl<A: Allocator> Digit<A> {
    /// The bits of a word.
    #[inline(always)]
    pub fn bits(&self, word: usize) -> u64
        ensures { result ≡ bits_of self.now word }
    {
        if word < self.dense.len() {
            return self.dense[word];
        }
        self.sparse_bits(word)
    }

    /// The bits of a word behind the dense ones.
    #[inline(never)]
    fn sparse_bits(&self, word: usize) -> u64
        requires { length self.now.dense ≤ word }
        ensures { result ≡ bits_of self.now word }
    {
        match search(&self.sparse, word) {
            Ok(place) => self.sparse[place].bits,
            Err(_) => 0,
        }
    }

    /// Changes the bits of a word that has a place.
    pub fn put(&mut self, word: usize, bits: u64)
        requires { HasPlace self.old word }
        ensures here { bits_of self.new word ≡ bits }
        ensures others { (w : ℕ) → w ≢ word → bits_of self.new w ≡ bits_of self.old w }
        ensures kept { (w : ℕ) → HasPlace self.old w → HasPlace self.new w }
    {
        if word < self.dense.len() {
            self.dense[word] = bits;
        } else if let Ok(place) = search(&self.sparse, word) {
            self.sparse[place] = Entry { word, bits };
        }
    }

    /// Gives up the place of a word without bits, as far as that moves no other: that of an entry, or of the last dense word. The list
    /// keeps its memory for others.
    pub fn give_up(&mut self, word: usize)
        requires { bits_of self.old word ≡ 0 }
        ensures bits { (w : ℕ) → bits_of self.new w ≡ bits_of self.old w }
        ensures kept { (w : ℕ) → w ≢ word → HasPlace self.old w → HasPlace self.new w }
    {
        if word < self.dense.len() {
            if word + 1 == self.dense.len() {
                self.dense.pop();
            }
            return;
        }
        if let Ok(place) = search(&self.sparse, word) {
            self.sparse.remove(place);
        }
    }

    /// A word from which on none has a place.
    pub fn end(&self) -> usize
        ensures { (w : ℕ) → result ≤ w → bits_of self.now w ≡ 0 }
    {
        if self.sparse.is_empty() {
            return self.dense.len();
        }
        self.sparse[self.sparse.len() - 1].word + 1
    }

    /// How many words have a place.
    pub fn places_len(&self) -> usize {
        self.dense.len().saturating_add(self.sparse.len())
    }

    /// The first word from one on that has a place. It need not have a bit.
    pub fn next_place(&self, from: usize) -> Option<usize>
        ensures { IsNext (bits_of self.now) from result }
    {
        if from < self.dense.len() {
            return Some(from);
        }
        let place = match search(&self.sparse, from) {
            Ok(place) | Err(place) => place,
        };
        if place < self.sparse.len() {
            Some(self.sparse[place].word)
        } else {
            None
        }
    }
}
