//! A line of counters, by the number of a target.

ghost use Rattle.std.specs.Prelude.{◌≡◌, ◌+◌, ◌-◌, ◌/◌, ◌%◌, ◌<◌, ◌≤◌, ◌^◌, ◌∷◌, ℕ, length, min, slice_index_or, IfOk, MatchOption, OnErr, OnOk};
ghost use Rattle.std.specs.Int.{bit_at};
ghost use Rattle.cil_lines.specs.Digit.{IsNext};
ghost use Rattle.cil_lines.specs.Line.{count_of, hit, total, IsPresence, IsNextPresent, NonePresent};

mod steps;

use crate::digit::Digit;
use crate::higher;
use std::alloc::{AllocError, Allocator, Global};
use std::marker::Model;

// How many targets a word has.
const WORD: usize = 64;

/// The counters of one line of an access table, by the numbers of targets. They are kept by binary digits, 64 counters a
/// machine word, and have no greatest value but memory. A line takes memory for the words that were added to, so a line
/// of few targets is small whatever their numbers.
#[derive(Drop)]
pub struct Line<A: Allocator = Global> {
    lowest: Digit<A>,
    higher: Vec<Digit<A>, A>,
}

impl<A: Allocator> Model for Line<A> {
    ghost use Rattle.cil_lines.specs.Limit.{AreBelow};
    ghost use Rattle.cil_lines.specs.Line.{Counters};

    ghost Value = { Counters };

    ghost view = { λ l. record { lowest = l.lowest; higher = l.higher.items } };

    ghost invariant = { λ l. AreBelow (record { lowest = l.lowest; higher = l.higher.items }) };
}

impl<A: Allocator + Copy> Line<A> {
    /// A line whose counters are all 0. It takes no memory yet.
    pub fn new(alloc: A) -> Self
        ensures { (t : ℕ) → count_of result t ≡ 0 }
    {
        Line {
            lowest: Digit::new(alloc),
            higher: Vec::new(alloc),
        }
    }

    /// A line whose counters are 1 at the bits of its first words, and 0 elsewhere. It takes no memory beside these words.
    pub fn of_words(alloc: A, words: Vec<u64, A>) -> Self
        requires { length words.items ≤ 2 ^ 58 }
        ensures { (t : ℕ) → count_of result t ≡ bit_at (slice_index_or words.items (t / 64) 0) (t % 64) }
    {
        Line {
            lowest: Digit::of_words(alloc, words),
            higher: Vec::new(alloc),
        }
    }

    /// A line with the same counters, and with room as far as this one has it.
    pub fn copied(&self, alloc: A) -> Result<Self, AllocError>
        ensures { IfOk result (λ line. line ≡ self.now) }
    {
        Ok(Line {
            lowest: self.lowest.copied(alloc)?,
            higher: higher::copied(&self.higher, alloc)?,
        })
    }

    /// Adds 1 to the counter of each target of a word that its mask has.
    pub fn add(&mut self, alloc: A, word: usize, mask: u64) -> Result<(), AllocError>
        requires { word < 2 ^ 58 }
        ensures ok { OnOk result ((t : ℕ) → count_of self.new t ≡ count_of self.old t + hit word mask t) }
        ensures err { OnErr result ((t : ℕ) → count_of self.new t ≡ count_of self.old t) }
    {
        self.lowest.make_place(alloc, word)?;
        let bits = self.lowest.bits(word);
        higher::make_room(&mut self.higher, alloc, word, bits & mask)?;
        self.lowest.put(word, bits ^ mask);
        higher::add(&mut self.higher, word, bits & mask);
        Ok(())
    }
}

impl<A: Allocator> Line<A> {
    /// The counter of a target, or the greatest `u64` where it is greater.
    pub fn count(&self, target: usize) -> u64
        ensures { result ≡ min (count_of self.now target) (2 ^ 64 - 1) }
    {
        let word = target / WORD;
        let bit = (target % WORD) as u32;
        let lowest = (self.lowest.bits(word) >> bit) & 1;
        higher::count(&self.higher, word, bit)
            .saturating_mul(2)
            .saturating_add(lowest)
    }

    /// The targets of a word whose counters are at least 1.
    #[inline(always)]
    pub fn present(&self, word: usize) -> u64
        ensures { IsPresence (count_of self.now) word result }
    {
        self.lowest.bits(word) | higher::present(&self.higher, word)
    }

    /// The first word from one on with a target whose counter is at least 1.
    #[inline(always)]
    pub fn next_present_word(&self, from: usize) -> Option<usize>
        ensures { MatchOption result (NonePresent (count_of self.now) from) (IsNextPresent (count_of self.now) from) }
    {
        if self.present(from) != 0 {
            return Some(from);
        }
        self.search_present_word(from)
    }

    /// The same, where the word itself may have none.
    #[inline(never)]
    fn search_present_word(&self, from: usize) -> Option<usize>
        ensures { MatchOption result (NonePresent (count_of self.now) from) (IsNextPresent (count_of self.now) from) }
    {
        let mut from = from;
        while let Some(word) = self.next_place(from) {
            if self.present(word) != 0 {
                return Some(word);
            }
            from = word + 1;
        }
        None
    }

    /// A word from which on no counter is at least 1.
    pub fn end(&self) -> usize
        ensures { NonePresent (count_of self.now) result }
    {
        self.lowest.end().max(higher::end(&self.higher))
    }

    /// For how many words it has taken memory: those that were added to, and some between them.
    pub fn places_len(&self) -> usize {
        self.lowest.places_len()
    }

    /// The first word from one on that has a place in some digit.
    fn next_place(&self, from: usize) -> Option<usize>
        ensures { IsNext (total (self.now.lowest ∷ self.now.higher)) from result }
    {
        higher::earlier(
            self.lowest.next_place(from),
            higher::next_place(&self.higher, from),
        )
    }
}
