//! Steps up and down that take no memory.

ghost use Rattle.std.specs.Prelude.{◌≡◌, ◌+◌, ◌<◌, ◌≤◌, ◌^◌, ℕ, OnOk};
ghost use Rattle.cil_lines.specs.Limit.{limit_of, CanLower, CanRaise};
ghost use Rattle.cil_lines.specs.Line.{count_of, hit, IsSingle};

use crate::higher;
use crate::line::Line;
use std::alloc::{AllocError, Allocator};

impl<A: Allocator + Copy> Line<A> {
    /// Makes room to raise each target of a word that its mask has. No counter changes.
    pub fn make_room(&mut self, alloc: A, word: usize, mask: u64) -> Result<(), AllocError>
        requires { word < 2 ^ 58 }
        ensures room { OnOk result (CanRaise (count_of self.new) (limit_of self.new) word mask) }
        ensures now { (t : ℕ) → count_of self.new t ≡ count_of self.old t }
        ensures limits { (w : ℕ) → limit_of self.old w ≤ limit_of self.new w }
    {
        self.lowest.make_place(alloc, word)?;
        let carry = self.lowest.bits(word) & mask;
        higher::make_room(&mut self.higher, alloc, word, carry)
    }
}

impl<A: Allocator> Line<A> {
    /// Adds 1 to the counter of each target of a word that its mask has. It takes no memory.
    pub fn raise(&mut self, word: usize, mask: u64)
        requires { CanRaise (count_of self.old) (limit_of self.old) word mask }
        ensures now { (t : ℕ) → count_of self.new t ≡ count_of self.old t + hit word mask t }
        ensures limits { (w : ℕ) → limit_of self.old w ≤ limit_of self.new w }
    {
        if mask == 0 {
            return;
        }
        let bits = self.lowest.bits(word);
        self.lowest.put(word, bits ^ mask);
        higher::add(&mut self.higher, word, bits & mask);
    }

    /// Takes 1 from the counter of each target of a word that its mask has. It takes no memory, and leaves room to raise
    /// them again.
    pub fn lower(&mut self, word: usize, mask: u64)
        requires { CanLower (count_of self.old) word mask }
        ensures now { (t : ℕ) → count_of self.new t + hit word mask t ≡ count_of self.old t }
        ensures limits { (w : ℕ) → limit_of self.old w ≤ limit_of self.new w }
        ensures room { CanRaise (count_of self.new) (limit_of self.new) word mask }
    {
        if mask == 0 {
            return;
        }
        let bits = self.lowest.bits(word) ^ mask;
        self.lowest.put(word, bits);
        higher::subtract(&mut self.higher, word, bits & mask);
    }

    /// Gives up the places of a word without a counter above 0. It takes no memory; to raise a target of the word may take some again.
    pub fn give_up(&mut self, word: usize)
        ensures { (t : ℕ) → count_of self.new t ≡ count_of self.old t }
    {
        if self.lowest.bits(word) != 0 {
            return;
        }
        if higher::present(&self.higher, word) != 0 {
            return;
        }
        self.lowest.give_up(word);
        higher::give_up(&mut self.higher, word);
    }

    /// The targets of a word whose counters are exactly 1.
    pub fn single(&self, word: usize) -> u64
        ensures { IsSingle (count_of self.now) word result }
    {
        self.lowest.bits(word) & !higher::present(&self.higher, word)
    }
}
