//! Some types.

ghost use Rattle.std.specs.Prelude.{◌≡◌, ◌==◌, ℕ, false, nat_eq, IfSome};
ghost use Rattle.cil_rule_shifts.specs.Reach.{has_type, is_present, IsFirstWord, IsMask};

use cil_lines::Line;
use std::alloc::{Allocator, Global};

// How many types a word has.
const WORD: usize = 64;

/// Some types, by symbols: one alone, or those whose counters in a line are above 0. Most rules have a
/// type alone on either side, which takes no memory.
#[derive(Drop)]
pub enum Types<A: Allocator = Global> {
    One(usize),
    Many(Line<A>),
}

impl<A: Allocator + Copy> Types<A> {
    /// No types. It takes no memory.
    pub fn none(alloc: A) -> Self
        ensures { (t : ℕ) → has_type result t ≡ false }
    {
        Types::Many(Line::new(alloc))
    }
}

impl<A: Allocator> Types<A> {
    /// The types of a word.
    #[inline(always)]
    pub fn word(&self, word: usize) -> u64
        ensures { IsMask (has_type self.now) word result }
    {
        match self {
            Types::One(ty) => bit_of(*ty, word),
            Types::Many(line) => line.present(word),
        }
    }

    /// Whether a type is one of them.
    pub fn has(&self, ty: usize) -> bool
        ensures { result ≡ has_type self.now ty }
    {
        match self {
            Types::One(one) => *one == ty,
            Types::Many(line) => line.count(ty) > 0,
        }
    }

    /// The only type, where it is told at once: that of one alone.
    pub fn only(&self) -> Option<usize>
        ensures { IfSome result (λ ty. (t : ℕ) → has_type self.now t ≡ (ty == t)) }
    {
        match self {
            Types::One(one) => Some(*one),
            Types::Many(_) => None,
        }
    }

    /// The line that the types stand in. A type alone stands in none.
    pub fn line(&self) -> Option<&Line<A>>
        ensures { IfSome result (λ line. (t : ℕ) → has_type self.now t ≡ is_present line.now t) }
    {
        match self {
            Types::One(_) => None,
            Types::Many(line) => Some(line),
        }
    }

    /// The first word from one on that has some of the types.
    pub fn next_word(&self, from: usize) -> Option<usize>
        ensures { IsFirstWord (has_type self.now) from result }
    {
        match self {
            Types::One(ty) => (from <= ty / WORD).then_some(ty / WORD),
            Types::Many(line) => line.next_present_word(from),
        }
    }
}

/// The bit of a number in a word.
#[inline(always)]
pub fn bit_of(number: usize, word: usize) -> u64
    ensures { IsMask (nat_eq number) word result }
{
    if number / WORD == word {
        1 << (number % WORD)
    } else {
        0
    }
}
