//! Bits by words of 64.

ghost use Rattle.std.specs.Prelude.{◌≡◌, ◌≢◌, ℕ, [], ◌<◌, ◌≤◌, length, min, slice_index, IfOk, OnOk};

use std::alloc::{AllocError, Allocator, Global};
use std::marker::Model;

/// Bits, 64 a word. Those behind the last word are 0.
#[derive(Drop)]
pub struct BitRow<A: Allocator = Global> {
    words: Vec<u64, A>,
}

impl<A: Allocator> Model for BitRow<A> {
    ghost use Rattle.std.specs.Prelude.{ℕ, List};

    ghost Value = { List ℕ };

    ghost view = { λ r. r.words.items };
}

impl<A: Allocator + Copy> BitRow<A> {
    /// The first so many words, or all where there are fewer.
    pub fn first_words(&self, alloc: A, count: usize) -> Result<Vec<u64, A>, AllocError>
        ensures len { IfOk result (λ words. length words.items ≡ min (length self.now) count) }
        ensures words { IfOk result (λ words. (w : ℕ) → w < count
            → slice_index words.items w ≡ slice_index self.now w) }
    {
        let len = self.words.len().min(count);
        Vec::from_slice(alloc, &self.words[..len])
    }
}

impl<A: Allocator> BitRow<A> {
    /// No word. It takes no memory.
    pub fn new(alloc: A) -> Self
        ensures { result ≡ [] }
    {
        BitRow {
            words: Vec::new(alloc),
        }
    }

    /// The bits of a word.
    pub fn word(&self, word: usize) -> u64
        ensures { result ≡ slice_index self.now word }
    {
        if word < self.words.len() {
            self.words[word]
        } else {
            0
        }
    }

    /// Makes the row at least so many words long. No bit changes.
    pub fn lengthen(&mut self, len: usize) -> Result<(), AllocError>
        ensures len { length self.old ≤ length self.new }
        ensures room { OnOk result (len ≤ length self.new) }
        ensures bits { (w : ℕ) → slice_index self.new w ≡ slice_index self.old w }
    {
        if self.words.len() < len {
            self.words.resize(len, 0)
        } else {
            Ok(())
        }
    }

    /// Changes the bits of a word. Behind the end nothing changes.
    pub fn put(&mut self, word: usize, bits: u64)
        ensures len { length self.new ≡ length self.old }
        ensures here { word < length self.old → slice_index self.new word ≡ bits }
        ensures others { (w : ℕ) → w ≢ word → slice_index self.new w ≡ slice_index self.old w }
    {
        if word < self.words.len() {
            self.words[word] = bits;
        }
    }
}
